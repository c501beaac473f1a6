ghost use Rattle.std.specs.Prelude.{◌≡◌, ◌≤◌, ◌||◌, not, suc, length, IfOk, OnOk};
ghost use Rattle.std.specs.List.{list_all, list_any};
ghost use Rattle.sr_heap.specs.Live.{extent, with_store};
ghost use Rattle.sr_model.specs.Names as spec;
ghost use Rattle.sr_realm.specs.Plain.{acceptance_of, declarations_of};

use crate::names::GLOBAL;
use sr_heap::Heap;
use sr_text::Str;
use sr_value::{Descriptor, Key, Value};
use std::alloc::AllocError;

/// The names that a script declares (ECMA-262 8.2.4, 8.2.6).
#[derive(Clone, Copy)]
pub struct Declarations<'a> {
    /// By `var`.
    pub vars: &'a [Str],
    /// By `let` and `const`.
    pub lexical: &'a [Str],
}

/// What comes of the names that a script declares.
#[derive(Clone, Copy, Debug, PartialEq, Eq)]
pub enum Acceptance {
    /// They are declared.
    Accepted,
    /// One clashes with what is declared already, which is a SyntaxError.
    Clash,
    /// The global object takes no property more, which is a TypeError.
    Closed,
}

/// A source that is kept: its number, and what comes of the names that it declares.
#[derive(Clone, Copy, Debug)]
pub struct Accepted {
    /// Its number, from 1.
    pub number: u32,
    /// What comes of its names.
    pub acceptance: Acceptance,
}

/// Makes a name a property of the global object that may not be deleted, where it is none (ECMA-262 9.1.1.4.17 CreateGlobalVarBinding).
fn define_var<C: Drop, B: Drop>(heap: &mut Heap<C, B>, name: &Str) -> Result<(), AllocError>
    requires { 1 ≤ length heap.old.store.objects }
    ensures after { OnOk result (heap.new ≡ with_store (spec.with_var_property heap.old.store name.now) heap.old) }
    ensures kept { extent heap.new ≡ extent heap.old }
{
    let global = heap.nth(GLOBAL);
    let key = Key::Text(name.clone()?);
    if heap.get_own(&global, &key).is_some() {
        return Ok(());
    }
    let descriptor = Descriptor {
        value: Some(Value::Undefined),
        writable: Some(true),
        get: None,
        set: None,
        enumerable: Some(true),
        configurable: Some(false),
    };
    heap.define(&global, key, descriptor)?;
    Ok(())
}

/// Declares a name by `var` in the global environment (ECMA-262 9.1.1.4.17 CreateGlobalVarBinding).
fn declare_var<C: Drop, B: Drop>(heap: &mut Heap<C, B>, name: &Str) -> Result<(), AllocError>
    requires { 1 ≤ length heap.old.store.objects }
    ensures after { OnOk result (heap.new ≡ with_store (spec.with_var heap.old.store name.now) heap.old) }
    ensures kept { extent heap.new ≡ extent heap.old }
{
    define_var(heap, name)?;
    heap.add_var_name(name.clone()?)
}

/// Declares several, in order.
fn declare_vars<C: Drop, B: Drop>(heap: &mut Heap<C, B>, names: &[Str]) -> Result<(), AllocError>
    requires { 1 ≤ length heap.old.store.objects }
    ensures after { OnOk result (heap.new ≡ with_store (spec.with_vars names.now heap.old.store) heap.old) }
    ensures kept { extent heap.new ≡ extent heap.old }
{
    for name in names {
        declare_var(heap, name)?;
    }
    Ok(())
}

/// Makes a lexical binding in the global environment with no value for a name that has none there (ECMA-262 9.1.1.4.2, 9.1.1.4.3).
fn declare_lexical<C: Drop, B: Drop>(heap: &mut Heap<C, B>, name: &Str) -> Result<(), AllocError>
    ensures after { OnOk result (heap.new ≡ with_store (spec.with_lexical_name heap.old.store name.now) heap.old) }
    ensures kept { extent heap.new ≡ extent heap.old }
{
    if heap.lexical(name).is_some() {
        return Ok(());
    }
    heap.create_lexical(name.clone()?)
}

/// Makes several, in order.
fn declare_lexicals<C: Drop, B: Drop>(
    heap: &mut Heap<C, B>,
    names: &[Str],
) -> Result<(), AllocError>
    ensures after { OnOk result (heap.new ≡ with_store (spec.with_lexical_names names.now heap.old.store) heap.old) }
    ensures kept { extent heap.new ≡ extent heap.old }
{
    for name in names {
        declare_lexical(heap, name)?;
    }
    Ok(())
}

/// Whether a name is a property of the global object that may not be deleted (ECMA-262 9.1.1.4.14 HasRestrictedGlobalProperty).
fn is_restricted<C: Drop, B: Drop>(heap: &Heap<C, B>, name: &Str) -> Result<bool, AllocError>
    requires { 1 ≤ length heap.now.store.objects }
    ensures { IfOk result (λ b. b ≡ spec.is_restricted heap.now.store name.now) }
{
    match heap.get_own(&heap.nth(GLOBAL), &Key::Text(name.clone()?)) {
        None => Ok(false),
        Some(property) => Ok(!property.is_configurable()),
    }
}

/// Whether a name that is to be declared lexically is declared already, or is a fixed property of the global object.
fn is_taken<C: Drop, B: Drop>(heap: &Heap<C, B>, name: &Str) -> Result<bool, AllocError>
    requires { 1 ≤ length heap.now.store.objects }
    ensures { IfOk result (λ b. b ≡ spec.is_taken heap.now.store name.now) }
{
    if heap.is_var_name(name) || heap.lexical(name).is_some() {
        Ok(true)
    } else {
        is_restricted(heap, name)
    }
}

/// Whether one of these names is.
fn any_taken<C: Drop, B: Drop>(heap: &Heap<C, B>, names: &[Str]) -> Result<bool, AllocError>
    requires { 1 ≤ length heap.now.store.objects }
    ensures { IfOk result (λ b. b ≡ list_any (spec.is_taken heap.now.store) names.now) }
{
    for name in names {
        if is_taken(heap, name)? {
            return Ok(true);
        }
    }
    Ok(false)
}

/// Whether one of these names is declared lexically.
fn any_lexical<C: Drop, B: Drop>(heap: &Heap<C, B>, names: &[Str]) -> bool
    ensures { result ≡ list_any (spec.is_lexical heap.now.store) names.now }
{
    for name in names {
        if heap.lexical(name).is_some() {
            return true;
        }
    }
    false
}

/// Whether the global object has a name as a property, or takes one more (ECMA-262 9.1.1.4.15 CanDeclareGlobalVar).
fn may_declare_var<C: Drop, B: Drop>(heap: &Heap<C, B>, name: &Str) -> Result<bool, AllocError>
    requires { 1 ≤ length heap.now.store.objects }
    ensures { IfOk result (λ b. b ≡ spec.may_declare_var heap.now.store name.now) }
{
    let global = heap.nth(GLOBAL);
    let key = Key::Text(name.clone()?);
    Ok(heap.get_own(&global, &key).is_some() || heap.extensible(&global))
}

/// Whether that holds of all these names.
fn may_declare_vars<C: Drop, B: Drop>(heap: &Heap<C, B>, names: &[Str]) -> Result<bool, AllocError>
    requires { 1 ≤ length heap.now.store.objects }
    ensures { IfOk result (λ b. b ≡ list_all (spec.may_declare_var heap.now.store) names.now) }
{
    for name in names {
        if !may_declare_var(heap, name)? {
            return Ok(false);
        }
    }
    Ok(true)
}

/// What comes of the names that a script declares (ECMA-262 16.1.7, up to step 10).
fn judge<C: Drop, B: Drop>(
    heap: &Heap<C, B>,
    declarations: Declarations<'_>,
) -> Result<Acceptance, AllocError>
    requires { 1 ≤ length heap.now.store.objects }
    ensures { IfOk result (λ a. acceptance_of a ≡ spec.accept_answer (declarations_of declarations.entry) heap.now.store) }
{
    if any_taken(heap, declarations.lexical)? || any_lexical(heap, declarations.vars) {
        return Ok(Acceptance::Clash);
    }
    if may_declare_vars(heap, declarations.vars)? {
        Ok(Acceptance::Accepted)
    } else {
        Ok(Acceptance::Closed)
    }
}

/// Declares the names of a script.
fn declare<C: Drop, B: Drop>(
    heap: &mut Heap<C, B>,
    declarations: Declarations<'_>,
) -> Result<(), AllocError>
    requires { 1 ≤ length heap.old.store.objects }
    ensures after { OnOk result (heap.new ≡ with_store (spec.with_declarations spec.Accepted (declarations_of declarations.entry) heap.old.store) heap.old) }
    ensures kept { extent heap.new ≡ extent heap.old }
{
    declare_lexicals(heap, declarations.lexical)?;
    declare_vars(heap, declarations.vars)
}

/// Keeps the source of a script with this text, and declares its names where nothing hinders it (ECMA-262 16.1.7
/// GlobalDeclarationInstantiation).
pub fn accept<C: Drop, B: Drop>(
    heap: &mut Heap<C, B>,
    declarations: Declarations<'_>,
    text: Str,
) -> Result<Accepted, AllocError>
    requires { 1 ≤ length heap.old.store.objects }
    ensures number { IfOk result (λ a. a.number ≡ suc (length heap.old.store.sources)) }
    ensures acceptance { IfOk result (λ a. acceptance_of a.acceptance ≡ spec.accept_answer (declarations_of declarations.entry) (spec.with_source text heap.old.store)) }
    ensures after { OnOk result (heap.new ≡ with_store (spec.accepted (declarations_of declarations.entry) text heap.old.store) heap.old) }
    ensures kept { extent heap.new ≡ extent heap.old }
{
    let before = u32::try_from(heap.sources()).map_err(|_| AllocError)?;
    let number = before.checked_add(1).ok_or(AllocError)?;
    heap.add_source(text)?;
    let acceptance = judge(heap, declarations)?;
    if acceptance == Acceptance::Accepted {
        declare(heap, declarations)?;
    }
    Ok(Accepted { number, acceptance })
}
