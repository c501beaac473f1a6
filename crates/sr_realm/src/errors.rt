ghost use Rattle.std.specs.Prelude.{◌≡◌, ◌≤◌, ◌++◌, length, IfOk, OnOk};
ghost use Rattle.sr_value.specs.Live.{IsLive, KeepsLive};
ghost use Rattle.sr_value.specs.Plain.{number_of};
ghost use Rattle.sr_heap.specs.Live.{extent, with_store};
ghost use Rattle.sr_intrin.specs.Numbers.{intrinsic_count};
ghost use Rattle.sr_realm.specs.Errors as spec;

use sr_heap::{Heap, ObjectKind};
use sr_intrin::{BuiltIn, ErrorName, Intrinsic};
use sr_tag::{ObjK, Ref};
use sr_text::Str;
use sr_value::{Descriptor, Key, Value};
use std::alloc::{AllocError, Global};

/// The text of letters.
fn letters(alloc: Global, letters: &str) -> Result<Str, AllocError>
    ensures { IfOk result (λ s. s ≡ letters.now) }
{
    let units: Vec<u16> = letters
        .as_bytes()
        .iter()
        .map(|letter| u16::from(*letter))
        .collect(alloc)?;
    Str::of_units(alloc, &units).map_err(|_| AllocError)
}

/// A name and the letters after it.
fn with_letters(alloc: Global, name: &Str, more: &str) -> Result<Str, AllocError>
    ensures { IfOk result (λ s. s ≡ name.now ++ more.now) }
{
    name.concat(alloc, &letters(alloc, more)?)
        .map_err(|_| AllocError)
}

/// The message of the error of a text that breaks a rule of the language at this place, which is counted in code units.
pub fn syntax_message(alloc: Global, at: usize) -> Result<Str, AllocError>
    ensures { IfOk result (λ message. message ≡ spec.syntax_message at) }
{
    let message = format!(in alloc; "syntax error at {at}")?;
    letters(alloc, &message)
}

/// The message of the error of a script of which a name clashes with what is declared already.
pub fn clash_message(alloc: Global) -> Result<Str, AllocError>
    ensures { IfOk result (λ message. (let e = spec.declaration_error in message ≡ e.message)) }
{
    letters(alloc, "syntax error")
}

/// The message of the error of a name that is nowhere bound.
pub fn undefined_message(alloc: Global, name: &Str) -> Result<Str, AllocError>
    ensures { IfOk result (λ message. (let e = spec.not_defined name.now in message ≡ e.message)) }
{
    with_letters(alloc, name, " is not defined")
}

/// The message of the error of a name that has no value yet.
pub fn uninitialized_message(alloc: Global, name: &Str) -> Result<Str, AllocError>
    ensures { IfOk result (λ message. (let e = spec.not_initialized name.now in message ≡ e.message)) }
{
    with_letters(alloc, name, " is not initialized")
}

/// The message of the error of a write of a name whose value stays.
pub fn constant_message(alloc: Global, name: &Str) -> Result<Str, AllocError>
    ensures { IfOk result (λ message. (let e = spec.is_constant name.now in message ≡ e.message)) }
{
    with_letters(alloc, name, " is constant")
}

/// The message of every other TypeError of an algorithm.
pub fn type_message(alloc: Global) -> Result<Str, AllocError>
    ensures { IfOk result (λ message. (let e = spec.type_error in message ≡ e.message)) }
{
    letters(alloc, "type error")
}

/// Makes an error of this name with this message (ECMA-262 20.5.1.1, 20.5.6.1.1), which is the last object.
pub fn make_error<C: Drop>(
    alloc: Global,
    heap: &mut Heap<C, BuiltIn>,
    name: ErrorName,
    message: Str,
) -> Result<Ref<ObjK>, AllocError>
    requires { intrinsic_count ≤ length heap.old.store.objects }
    ensures made { OnOk result (heap.new ≡ with_store (spec.with_error (record { name = name; message = message }) heap.old.store) heap.old) }
    ensures last { IfOk result (λ r. number_of r ≡ length heap.new.store.objects) }
    ensures live { IfOk result (IsLive (extent heap.new)) }
    ensures kept { KeepsLive (extent heap.old) (extent heap.new) }
{
    let key = Key::Text(letters(alloc, "message")?);
    let prototype = heap.nth(Intrinsic::ErrorPrototype(name).place());
    let error = heap.make_object(ObjectKind::Error, Some(prototype))?;
    let descriptor = Descriptor {
        value: Some(Value::Str(message)),
        writable: Some(true),
        get: None,
        set: None,
        enumerable: Some(false),
        configurable: Some(true),
    };
    heap.define(&error, key, descriptor)?;
    Ok(error)
}
