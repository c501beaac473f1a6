ghost use Rattle.std.specs.Prelude.{◌≡◌, IfOk, IfSome, None, option_map};
ghost use Rattle.std.specs.Option.{option_copied, option_map_or};
ghost use Rattle.sr_value.specs.Plain.{property_of};
ghost use Rattle.sr_model.specs.Objects as spec;
ghost use Rattle.sr_heap.specs.Found.{found_of};
ghost use Rattle.sr_heap.specs.Live.{Extent, IsLiveFound, IsLiveProperty};

use sr_value::{Property, Value};
use std::alloc::AllocError;

/// What stands along the prototypes for a key.
#[derive(Clone, Debug, Drop, PartialEq, Eq, Hash)]
pub enum Found {
    /// The value of a data property.
    Data(Value),
    /// The getter and the setter of an accessor property, each a function or undefined.
    Accessor(Value, Value),
    Missing,
}

/// A copy of what a property gives, or that there is none.
pub(crate) fn copied(property: Option<&Property>) -> Result<Found, AllocError>
    ensures same { IfOk result (λ f. found_of f ≡ option_map_or spec.found (option_map property_of (option_copied property.entry)) spec.Missing) }
    ensures live { IfOk result (λ f. (e : Extent) → IfSome (option_copied property.entry) (IsLiveProperty e) → IsLiveFound e f) }
{
    match property {
        Some(Property::Data { value, .. }) => Ok(Found::Data(value.clone()?)),
        Some(Property::Accessor { get, set, .. }) => Ok(Found::Accessor(
            get.clone()?,
            set.clone()?,
        )),
        None => Ok(Found::Missing),
    }
}
