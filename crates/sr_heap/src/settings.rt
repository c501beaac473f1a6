ghost use Rattle.std.specs.Prelude.{◌≡◌, IfOk, IfSome, MatchOption, is_some, true, false, option_map};
ghost use Rattle.std.specs.Option.{option_copied};
ghost use Rattle.sr_value.specs.Plain.{descriptor_of, property_of, value_of};
ghost use Rattle.sr_model.specs.Objects as spec;
ghost use Rattle.sr_heap.specs.Found.{Stops, setting_of};
ghost use Rattle.sr_heap.specs.Live.{Extent, IsLiveDescriptor, IsLiveProperty, IsLiveSetting, IsLiveValue};

use sr_value::{Descriptor, Property, Value};
use std::alloc::AllocError;

/// What a write of a property comes to.
#[derive(Clone, Debug, Drop, PartialEq, Eq, Hash)]
pub enum Setting {
    /// The property has the value now.
    Assigned,
    /// The write is refused.
    Refused,
    /// A setter, which is to be called.
    Setter(Value),
}

/// What stops a write where this property is the first along the prototypes (ECMA-262 10.1.9.2).
pub(crate) fn stopped(property: Option<&Property>) -> Result<Option<Setting>, AllocError>
    ensures same { IfOk result (Stops (option_map property_of (option_copied property.entry))) }
    ensures live { (e : Extent) → IfSome (option_copied property.entry) (IsLiveProperty e) → IfOk result (λ s. IfSome s (IsLiveSetting e)) }
{
    match property {
        None | Some(Property::Data { writable: true, .. }) => Ok(None),
        Some(Property::Data { .. }) => Ok(Some(Setting::Refused)),
        Some(
            Property::Accessor {
                set: Value::Undefined,
                ..
            },
        ) => Ok(Some(Setting::Refused)),
        Some(Property::Accessor { set, .. }) => Ok(Some(Setting::Setter(set.clone()?))),
    }
}

/// The descriptor by which a value is written, where the object has the property already or not.
pub(crate) fn assignment(value: Value, there: bool) -> Descriptor
    ensures same { (p : _) → is_some p ≡ there → descriptor_of result ≡ spec.assignment (value_of value) p }
    ensures live { (e : Extent) → IsLiveValue e value → IsLiveDescriptor e result }
{
    let flag = if there { None } else { Some(true) };
    Descriptor {
        value: Some(value),
        writable: flag,
        get: None,
        set: None,
        enumerable: flag,
        configurable: flag,
    }
}

/// What came of a write that nothing stopped.
pub(crate) fn settled(defined: bool) -> Setting
    ensures same { setting_of result ≡ spec.settled defined }
    ensures live { (e : Extent) → IsLiveSetting e result }
{
    if defined {
        Setting::Assigned
    } else {
        Setting::Refused
    }
}
