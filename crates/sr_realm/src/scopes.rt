ghost use Rattle.std.specs.Prelude.{◌≡◌, length, suc, IfOk, IfSome, IsSome, IsTrue, OnOk, is_some, option_map};
ghost use Rattle.std.specs.Option.{option_copied};
ghost use Rattle.sr_value.specs.Live.{Extent, IsLiveValue, KeepsLive};
ghost use Rattle.sr_value.specs.Plain.{number_of, value_of};
ghost use Rattle.sr_heap.specs.Live.{IsLiveBinding, IsLiveScope, extent, with_environments, with_store};
ghost use Rattle.sr_heap.specs.Plain.{binding_of, scope_of};
ghost use Rattle.sr_model.specs.Environments as environments;
ghost use Rattle.sr_model.specs.Names as spec;
ghost use Rattle.sr_realm.specs.Live.{IsLiveBase};
ghost use Rattle.sr_realm.specs.Plain.{base_of};

use crate::names::Base;
use sr_heap::{Binding, Heap};
use sr_tag::{EnvK, Ref};
use sr_text::Str;
use sr_value::Value;
use std::alloc::AllocError;

/// Makes a binding with no value for a name in an environment where it is not bound.
fn declare<C: Drop, B: Drop>(
    heap: &mut Heap<C, B>,
    at: &Ref<EnvK>,
    name: &Str,
) -> Result<(), AllocError>
    requires { IsLiveScope (extent heap.old) at.now }
    ensures after { OnOk result (heap.new ≡ with_environments (environments.with_binding heap.old.store.environments (number_of at.now) name.now) heap.old) }
    ensures there { OnOk result (IsSome (environments.binding heap.new.store.environments (number_of at.now) name.now)) }
    ensures kept { extent heap.new ≡ extent heap.old }
{
    if heap.binding(at, name).is_some() {
        return Ok(());
    }
    heap.create_binding(at, name.clone()?)
}

/// Makes such bindings for several names, in order.
fn declare_all<C: Drop, B: Drop>(
    heap: &mut Heap<C, B>,
    at: &Ref<EnvK>,
    names: &[Str],
) -> Result<(), AllocError>
    requires { IsLiveScope (extent heap.old) at.now }
    ensures after { OnOk result (heap.new ≡ with_environments (environments.with_bindings heap.old.store.environments (number_of at.now) names.now) heap.old) }
    ensures kept { extent heap.new ≡ extent heap.old }
{
    for name in names {
        declare(heap, at, name)?;
    }
    Ok(())
}

/// A binding once more. It shares what a clone of its value shares.
fn copied(binding: &Binding) -> Result<Binding, AllocError>
    ensures same { IfOk result (λ b. binding_of b ≡ binding_of binding.now) }
    ensures live { (e : Extent) → IsLiveBinding e binding.now → IfOk result (IsLiveBinding e) }
{
    match binding {
        Binding::Uninitialized => Ok(Binding::Uninitialized),
        Binding::Mutable(value) => Ok(Binding::Mutable(value.clone()?)),
        Binding::Constant(value) => Ok(Binding::Constant(value.clone()?)),
        Binding::OwnName(value) => Ok(Binding::OwnName(value.clone()?)),
    }
}

/// The binding of a name in an environment once more, if it has one there.
fn copy_of<C: Drop, B: Drop>(
    heap: &Heap<C, B>,
    at: &Ref<EnvK>,
    name: &Str,
) -> Result<Option<Binding>, AllocError>
    requires { IsLiveScope (extent heap.now) at.now }
    ensures same { IfOk result (λ b. option_map binding_of b ≡ environments.binding heap.now.store.environments (number_of at.now) name.now) }
    ensures live { IfOk result (λ b. IfSome b (IsLiveBinding (extent heap.now))) }
{
    match heap.binding(at, name) {
        None => Ok(None),
        Some(binding) => Ok(Some(copied(binding)?)),
    }
}

/// Gives a name the binding in an environment that it has in another one.
fn copy_binding<C: Drop, B: Drop>(
    heap: &mut Heap<C, B>,
    from: &Ref<EnvK>,
    to: &Ref<EnvK>,
    name: &Str,
) -> Result<(), AllocError>
    requires from { IsLiveScope (extent heap.old) from.now }
    requires to { IsLiveScope (extent heap.old) to.now }
    ensures after { OnOk result (heap.new ≡ with_environments (environments.with_copy heap.old.store.environments (number_of from.now) (number_of to.now) name.now) heap.old) }
    ensures kept { extent heap.new ≡ extent heap.old }
{
    let copy = copy_of(heap, from, name)?;
    declare(heap, to, name)?;
    if let Some(binding) = copy {
        heap.set_binding(to, name, binding);
    }
    Ok(())
}

/// Gives several names the bindings in an environment that they have in another one.
fn copy_all<C: Drop, B: Drop>(
    heap: &mut Heap<C, B>,
    from: &Ref<EnvK>,
    to: &Ref<EnvK>,
    names: &[Str],
) -> Result<(), AllocError>
    requires from { IsLiveScope (extent heap.old) from.now }
    requires to { IsLiveScope (extent heap.old) to.now }
    ensures after { OnOk result (heap.new ≡ with_environments (environments.with_copies heap.old.store.environments (number_of from.now) (number_of to.now) names.now) heap.old) }
    ensures kept { extent heap.new ≡ extent heap.old }
{
    for name in names {
        copy_binding(heap, from, to, name)?;
    }
    Ok(())
}

/// Makes an environment inside another one, where none is the global one, in which these names have no value yet (ECMA-262 14.2.3
/// BlockDeclarationInstantiation). It is the last one.
pub fn make_scope<C: Drop, B: Drop>(
    heap: &mut Heap<C, B>,
    outer: Option<Ref<EnvK>>,
    names: &[Str],
) -> Result<Ref<EnvK>, AllocError>
    requires { IfSome outer (IsLiveScope (extent heap.old)) }
    ensures after { OnOk result (heap.new ≡ with_store (spec.with_scope (scope_of outer) names.now heap.old.store) heap.old) }
    ensures number { IfOk result (λ r. number_of r ≡ suc (length heap.old.store.environments)) }
    ensures live { IfOk result (IsLiveScope (extent heap.new)) }
    ensures kept { KeepsLive (extent heap.old) (extent heap.new) }
{
    let scope = heap.make_environment(None, outer)?;
    declare_all(heap, &scope, names)?;
    Ok(scope)
}

/// Makes an environment beside that of the turn before, in which these names have the values that they have there (ECMA-262 14.7.4.4
/// CreatePerIterationEnvironment). It is the last one.
pub fn make_turn<C: Drop, B: Drop>(
    heap: &mut Heap<C, B>,
    before: Ref<EnvK>,
    names: &[Str],
) -> Result<Ref<EnvK>, AllocError>
    requires { IsLiveScope (extent heap.old) before }
    ensures after { OnOk result (heap.new ≡ with_store (spec.with_turn (number_of before) names.now heap.old.store) heap.old) }
    ensures number { IfOk result (λ r. number_of r ≡ suc (length heap.old.store.environments)) }
    ensures live { IfOk result (IsLiveScope (extent heap.new)) }
    ensures kept { KeepsLive (extent heap.old) (extent heap.new) }
{
    let outer = heap.outer(&before);
    let scope = heap.make_environment(None, outer)?;
    copy_all(heap, &before, &scope, names)?;
    Ok(scope)
}

/// Whether a binding has no value yet.
fn is_uninitialized(binding: Option<&Binding>) -> bool
    ensures same { (b : _) → result ≡ is_some (spec.initialized b (option_map binding_of (option_copied binding.entry))) }
    ensures there { IsTrue result → IsSome (option_map binding_of (option_copied binding.entry)) }
{
    match binding {
        Some(Binding::Uninitialized) => true,
        Some(Binding::Mutable(_) | Binding::Constant(_) | Binding::OwnName(_)) | None => false,
    }
}

/// Gives a name that is bound there and has no value yet its first value (ECMA-262 6.2.5.8 InitializeReferencedBinding).
pub fn initialize<C: Drop, B: Drop>(
    heap: &mut Heap<C, B>,
    base: &Base,
    name: &Str,
    binding: Binding,
)
    requires base { IsLiveBase (extent heap.old) base.now }
    requires own { IsLiveBinding (extent heap.old) binding }
    ensures after { heap.new ≡ with_store (spec.initialize heap.old.store (base_of base.now) name.now (binding_of binding)) heap.old }
    ensures kept { extent heap.new ≡ extent heap.old }
{
    match base {
        Base::Unresolvable | Base::Property => {}
        Base::Lexical => {
            if is_uninitialized(heap.lexical(name)) {
                heap.set_lexical(name, binding);
            }
        }
        Base::Local(at) => {
            if is_uninitialized(heap.binding(at, name)) {
                heap.set_binding(at, name, binding);
            }
        }
    }
}

/// Makes an environment inside another one, where none is the global one, in which the parameter of `catch` has the value that was
/// thrown (ECMA-262 14.15.2 CatchClauseEvaluation). It is the last one.
pub fn make_catch_scope<C: Drop, B: Drop>(
    heap: &mut Heap<C, B>,
    outer: Option<Ref<EnvK>>,
    parameter: &Str,
    value: Value,
) -> Result<Ref<EnvK>, AllocError>
    requires outer { IfSome outer (IsLiveScope (extent heap.old)) }
    requires value { IsLiveValue (extent heap.old) value }
    ensures after { OnOk result (heap.new ≡ with_store (spec.with_caught (scope_of outer) parameter.now (value_of value) heap.old.store) heap.old) }
    ensures number { IfOk result (λ r. number_of r ≡ suc (length heap.old.store.environments)) }
    ensures live { IfOk result (IsLiveScope (extent heap.new)) }
    ensures kept { KeepsLive (extent heap.old) (extent heap.new) }
{
    let scope = heap.make_environment(None, outer)?;
    declare(heap, &scope, parameter)?;
    initialize(
        heap,
        &Base::Local(scope),
        parameter,
        Binding::Mutable(value),
    );
    Ok(scope)
}
