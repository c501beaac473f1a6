ghost use Rattle.std.specs.Prelude.{◌≡◌, IfSome, IsSome, OnOk, OnErr, None, option_map};
ghost use Rattle.std.specs.Option.{option_copied};
ghost use Rattle.sr_model.specs.Environments as spec;
ghost use Rattle.sr_heap.specs.Live.{Extent, AreLiveBindings, IsLiveBinding};
ghost use Rattle.sr_heap.specs.Plain.{binding_of, bindings_of};

use crate::names::Named;
use sr_text::Str;
use sr_value::Value;
use std::alloc::AllocError;

/// The binding of a name in an environment record (ECMA-262 9.1.1.1).
#[derive(Debug, Drop)]
pub enum Binding {
    /// It has no value yet.
    Uninitialized,
    /// A value that may be changed.
    Mutable(Value),
    /// A value that stays.
    Constant(Value),
    /// The value of the name of a function expression in the environment around its own body, which stays, and which only strict code
    /// may not write (ECMA-262 15.2.5).
    OwnName(Value),
}

/// The binding of a name, if it has one.
pub(crate) fn bound<'a>(bindings: &'a Named<Binding>, name: &Str) -> Option<&'a Binding>
    ensures same { option_map binding_of (option_copied result) ≡ spec.bound name.now (bindings_of bindings.now) }
    ensures live { (e : Extent) → AreLiveBindings e bindings.now → IfSome (option_copied result) (IsLiveBinding e) }
{
    bindings.get(name)
}

/// Makes a binding with no value for a name that has none, behind the others. Where no memory is found, nothing is changed.
pub(crate) fn create(bindings: &mut Named<Binding>, name: Str) -> Result<(), AllocError>
    requires { spec.bound name (bindings_of bindings.old) ≡ None }
    ensures after { OnOk result (bindings_of bindings.new ≡ spec.created name (bindings_of bindings.old)) }
    ensures live { (e : Extent) → AreLiveBindings e bindings.old → AreLiveBindings e bindings.new }
    ensures unchanged { OnErr result (bindings.new ≡ bindings.old) }
{
    bindings.add(name, Binding::Uninitialized)
}

/// Puts a binding in the place of the one that the name has.
pub(crate) fn rebind(bindings: &mut Named<Binding>, name: &Str, binding: Binding)
    requires { IsSome (spec.bound name.now (bindings_of bindings.old)) }
    ensures after { bindings_of bindings.new ≡ spec.rebound name.now (binding_of binding) (bindings_of bindings.old) }
    ensures live { (e : Extent) → IsLiveBinding e binding → AreLiveBindings e bindings.old → AreLiveBindings e bindings.new }
{
    bindings.set(name, binding);
}
