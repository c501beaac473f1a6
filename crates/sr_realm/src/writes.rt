ghost use Rattle.std.specs.Prelude.{◌≡◌, ◌≤◌, true, length, IfOk, OnOk};
ghost use Rattle.sr_value.specs.Live.{IsLiveValue};
ghost use Rattle.sr_value.specs.Plain.{value_of};
ghost use Rattle.sr_heap.specs.Live.{IsLiveScope, extent, with_store};
ghost use Rattle.sr_model.specs.Names as spec;
ghost use Rattle.sr_realm.specs.Live.{IsLiveBase, IsLiveWrite};
ghost use Rattle.sr_realm.specs.Plain.{base_of, write_of};

use crate::bindings::{is_mutable, written, written_property};
use crate::names::{Base, GLOBAL, Write, global_property};
use sr_heap::{Binding, Found, Heap};
use sr_tag::{EnvK, Ref};
use sr_text::Str;
use sr_value::{Key, Value};
use std::alloc::AllocError;

/// Gives a name a value that is bound in an environment.
fn write_local<C: Drop, B: Drop>(
    heap: &mut Heap<C, B>,
    strict: bool,
    at: &Ref<EnvK>,
    name: &Str,
    value: Value,
) -> Write
    requires scope { IsLiveScope (extent heap.old) at.now }
    requires value { IsLiveValue (extent heap.old) value }
    ensures answer { write_of result ≡ spec.write_answer strict heap.old.store (base_of (Base.Local at.now)) name.now (value_of value) }
    ensures after { heap.new ≡ with_store (spec.write strict heap.old.store (base_of (Base.Local at.now)) name.now (value_of value)) heap.old }
    ensures kept { extent heap.new ≡ extent heap.old }
    ensures live { IsLiveWrite (extent heap.new) result }
{
    let write = written(strict, heap.binding(at, name));
    if is_mutable(heap.binding(at, name)) {
        heap.set_binding(at, name, Binding::Mutable(value));
    }
    write
}

/// Gives a name a value that has a lexical binding in the global environment.
fn write_lexical<C: Drop, B: Drop>(
    heap: &mut Heap<C, B>,
    strict: bool,
    name: &Str,
    value: Value,
) -> Write
    requires { IsLiveValue (extent heap.old) value }
    ensures answer { write_of result ≡ spec.write_answer strict heap.old.store (base_of Base.Lexical) name.now (value_of value) }
    ensures after { heap.new ≡ with_store (spec.write strict heap.old.store (base_of Base.Lexical) name.now (value_of value)) heap.old }
    ensures kept { extent heap.new ≡ extent heap.old }
    ensures live { IsLiveWrite (extent heap.new) result }
{
    let write = written(strict, heap.lexical(name));
    if is_mutable(heap.lexical(name)) {
        heap.set_lexical(name, Binding::Mutable(value));
    }
    write
}

/// Gives the global object's property of a name a value (ECMA-262 9.1.1.2.5 SetMutableBinding).
fn set_global<C: Drop, B: Drop>(
    heap: &mut Heap<C, B>,
    strict: bool,
    name: &Str,
    value: Value,
) -> Result<Write, AllocError>
    requires value { IsLiveValue (extent heap.old) value }
    requires there { 1 ≤ length heap.old.store.objects }
    ensures answer { IfOk result (λ w. write_of w ≡ spec.global_answer strict heap.old.store name.now (value_of value)) }
    ensures after { OnOk result (heap.new ≡ with_store (spec.with_global heap.old.store name.now (value_of value)) heap.old) }
    ensures kept { extent heap.new ≡ extent heap.old }
    ensures live { IfOk result (IsLiveWrite (extent heap.new)) }
{
    let global = heap.nth(GLOBAL);
    let setting = heap.set(&global, Key::Text(name.clone()?), value)?;
    Ok(written_property(strict, setting))
}

/// The same in strict code, where the property may have gone since the name was found.
fn set_global_strictly<C: Drop, B: Drop>(
    heap: &mut Heap<C, B>,
    name: &Str,
    value: Value,
) -> Result<Write, AllocError>
    requires value { IsLiveValue (extent heap.old) value }
    requires there { 1 ≤ length heap.old.store.objects }
    ensures answer { IfOk result (λ w. write_of w ≡ spec.write_answer true heap.old.store (base_of Base.Property) name.now (value_of value)) }
    ensures after { OnOk result (heap.new ≡ with_store (spec.write true heap.old.store (base_of Base.Property) name.now (value_of value)) heap.old) }
    ensures kept { extent heap.new ≡ extent heap.old }
    ensures live { IfOk result (IsLiveWrite (extent heap.new)) }
{
    match global_property(heap, name)? {
        Found::Missing => Ok(Write::Unbound),
        Found::Data(_) | Found::Accessor(_, _) => set_global(heap, true, name, value),
    }
}

/// Gives a name that is bound there a value (ECMA-262 6.2.5.6 PutValue), in strict code or not.
pub fn write_name<C: Drop, B: Drop>(
    heap: &mut Heap<C, B>,
    strict: bool,
    base: &Base,
    name: &Str,
    value: Value,
) -> Result<Write, AllocError>
    requires base { IsLiveBase (extent heap.old) base.now }
    requires value { IsLiveValue (extent heap.old) value }
    requires there { 1 ≤ length heap.old.store.objects }
    ensures answer { IfOk result (λ w. write_of w ≡ spec.write_answer strict heap.old.store (base_of base.now) name.now (value_of value)) }
    ensures after { OnOk result (heap.new ≡ with_store (spec.write strict heap.old.store (base_of base.now) name.now (value_of value)) heap.old) }
    ensures kept { extent heap.new ≡ extent heap.old }
    ensures live { IfOk result (IsLiveWrite (extent heap.new)) }
{
    match base {
        Base::Local(at) => Ok(write_local(heap, strict, at, name, value)),
        Base::Lexical => Ok(write_lexical(heap, strict, name, value)),
        Base::Unresolvable if strict => Ok(Write::Unbound),
        Base::Property if strict => set_global_strictly(heap, name, value),
        Base::Unresolvable | Base::Property => set_global(heap, false, name, value),
    }
}
