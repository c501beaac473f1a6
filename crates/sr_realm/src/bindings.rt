ghost use Rattle.std.specs.Prelude.{◌≡◌, IfOk, IfSome, IsSome, IsTrue, is_some, option_map};
ghost use Rattle.std.specs.Option.{option_copied};
ghost use Rattle.sr_value.specs.Live.{Extent};
ghost use Rattle.sr_value.specs.Plain.{value_of};
ghost use Rattle.sr_heap.specs.Found.{found_of, setting_of};
ghost use Rattle.sr_heap.specs.Live.{IsLiveBinding, IsLiveFound, IsLiveSetting};
ghost use Rattle.sr_heap.specs.Plain.{binding_of};
ghost use Rattle.sr_model.specs.Names as spec;
ghost use Rattle.sr_realm.specs.Live.{IsLiveKnown, IsLiveWrite};
ghost use Rattle.sr_realm.specs.Plain.{known_of, write_of};

use crate::names::{Known, Write};
use sr_heap::{Binding, Found, Setting};
use sr_value::Value;
use std::alloc::AllocError;

/// The value of a binding (ECMA-262 9.1.1.1.6 GetBindingValue).
pub(crate) fn known(binding: Option<&Binding>) -> Result<Known, AllocError>
    ensures same { IfOk result (λ k. known_of k ≡ spec.known (option_map binding_of (option_copied binding.entry))) }
    ensures live { (e : Extent) → IfSome (option_copied binding.entry) (IsLiveBinding e) → IfOk result (IsLiveKnown e) }
{
    match binding {
        None => Ok(Known::NotBound),
        Some(Binding::Uninitialized) => Ok(Known::NoValue),
        Some(Binding::Mutable(value)) => Ok(Known::Has(value.clone()?)),
        Some(Binding::Constant(value)) => Ok(Known::Has(value.clone()?)),
        Some(Binding::OwnName(value)) => Ok(Known::Has(value.clone()?)),
    }
}

/// The value of a property (ECMA-262 9.1.1.2.6 GetBindingValue).
pub(crate) fn known_property(found: Found) -> Known
    ensures same { known_of result ≡ spec.known_property (found_of found) }
    ensures live { (e : Extent) → IsLiveFound e found → IsLiveKnown e result }
{
    match found {
        Found::Data(value) => Known::Has(value),
        Found::Accessor(Value::Undefined, _) => Known::Has(Value::Undefined),
        Found::Accessor(get, _) => Known::Getter(get),
        Found::Missing => Known::NotBound,
    }
}

/// What a write of a binding comes to (ECMA-262 9.1.1.1.5 SetMutableBinding), in strict code or not.
pub(crate) fn written(strict: bool, binding: Option<&Binding>) -> Write
    ensures same { write_of result ≡ spec.written strict (option_map binding_of (option_copied binding.entry)) }
    ensures live { (e : Extent) → IsLiveWrite e result }
{
    match binding {
        None => Write::Unbound,
        Some(Binding::Uninitialized) => Write::TooEarly,
        Some(Binding::Mutable(_)) => Write::Written,
        Some(Binding::Constant(_)) => Write::Fixed,
        Some(Binding::OwnName(_)) => { if strict { Write::Fixed } else { Write::Written } }
    }
}

/// Whether a binding may be changed.
pub(crate) fn is_mutable(binding: Option<&Binding>) -> bool
    ensures same { (v : _) → result ≡ is_some (spec.rewritten v (option_map binding_of (option_copied binding.entry))) }
    ensures there { IsTrue result → IsSome (option_map binding_of (option_copied binding.entry)) }
{
    match binding {
        Some(Binding::Mutable(_)) => true,
        Some(Binding::Uninitialized | Binding::Constant(_) | Binding::OwnName(_)) | None => false,
    }
}

/// What a write of a property comes to (ECMA-262 9.1.1.2.5 SetMutableBinding), in strict code or not.
pub(crate) fn written_property(strict: bool, setting: Setting) -> Write
    ensures same { write_of result ≡ spec.written_property strict (setting_of setting) }
    ensures live { (e : Extent) → IsLiveSetting e setting → IsLiveWrite e result }
{
    match setting {
        Setting::Assigned => Write::Written,
        Setting::Refused => {
            if strict {
                Write::Rejected
            } else {
                Write::Written
            }
        }
        Setting::Setter(set) => Write::Setter(set),
    }
}
