ghost use Rattle.std.specs.Prelude.{◌≡◌, ◌&&◌, not, IfOk, option_map, unwrap_or};
ghost use Rattle.sr_value.specs.Plain.{descriptor_of, property_of, value_of};
ghost use Rattle.sr_model.specs.Properties as spec;
ghost use Rattle.sr_model.specs.Sameness as sameness;
ghost use Rattle.sr_heap.specs.Live.{Extent, IsLiveDescriptor, IsLiveProperty};

use sr_value::{Descriptor, Property, Value, same_value};
use std::alloc::AllocError;

/// SameValue (ECMA-262 7.2.10), of values of one realm.
fn same(a: &Value, b: &Value) -> bool
    ensures { result ≡ sameness.same_value (value_of a.now) (value_of b.now) }
{
    match a {
        Value::Obj(a) => match b {
            Value::Obj(b) => a.place() == b.place(),
            _ => false,
        },
        _ => same_value(a, b),
    }
}

/// Whether a field is absent, or holds the value that is there already.
fn keeps_value(field: &Option<Value>, value: &Value) -> bool
    ensures { result ≡ spec.keeps sameness.same_value (option_map value_of field.now) (value_of value.now) }
{
    match field {
        Some(given) => same(given, value),
        None => true,
    }
}

/// Whether a field is absent, or holds the flag that is there already.
fn keeps_flag(field: Option<bool>, flag: bool) -> bool
    ensures { result ≡ spec.keeps sameness.same_truth field flag }
{
    match field {
        Some(given) => given == flag,
        None => true,
    }
}

/// Whether a property that is not configurable does not become so, and stays enumerable or not.
fn keeps_flags(d: &Descriptor, enumerable: bool) -> bool
    ensures { result ≡ spec.keeps_flags (descriptor_of d.now) enumerable }
{
    !d.configurable.unwrap_or(false) && keeps_flag(d.enumerable, enumerable)
}

/// Whether a property that is not writable stays so, with its value.
fn keeps_data(d: &Descriptor, value: &Value) -> bool
    ensures { result ≡ (not (spec.is_set d.now.writable) && spec.keeps sameness.same_value (option_map value_of d.now.value) (value_of value.now)) }
{
    !d.writable.unwrap_or(false) && keeps_value(&d.value, value)
}

/// Whether a descriptor may change the property that is there (ECMA-262 10.1.6.3, steps 4 and 5).
pub(crate) fn may_change(d: &Descriptor, old: &Property) -> bool
    ensures { result ≡ spec.may_change (descriptor_of d.now) (property_of old.now) }
{
    if old.is_configurable() {
        return true;
    }
    match old {
        Property::Data {
            writable,
            enumerable,
            value,
            ..
        } => {
            keeps_flags(d, *enumerable) && !d.is_accessor() && (*writable || keeps_data(d, value))
        }
        Property::Accessor {
            enumerable,
            get,
            set,
            ..
        } => {
            keeps_flags(d, *enumerable)
                && !d.is_data()
                && keeps_value(&d.get, get)
                && keeps_value(&d.set, set)
        }
    }
}

/// A data property of a descriptor, which is enumerable and configurable as told where the descriptor does not say it.
fn data_property(d: Descriptor, enumerable: bool, configurable: bool) -> Property
    ensures same { property_of result ≡ spec.data_property (descriptor_of d) enumerable configurable }
    ensures live { (e : Extent) → IsLiveDescriptor e d → IsLiveProperty e result }
{
    Property::Data {
        writable: d.writable.unwrap_or(false),
        enumerable: d.enumerable.unwrap_or(enumerable),
        configurable: d.configurable.unwrap_or(configurable),
        value: d.value.unwrap_or(Value::Undefined),
    }
}

/// The same of an accessor property.
fn accessor_property(d: Descriptor, enumerable: bool, configurable: bool) -> Property
    ensures same { property_of result ≡ spec.accessor_property (descriptor_of d) enumerable configurable }
    ensures live { (e : Extent) → IsLiveDescriptor e d → IsLiveProperty e result }
{
    Property::Accessor {
        enumerable: d.enumerable.unwrap_or(enumerable),
        configurable: d.configurable.unwrap_or(configurable),
        get: d.get.unwrap_or(Value::Undefined),
        set: d.set.unwrap_or(Value::Undefined),
    }
}

/// The property that a descriptor makes where there is none (ECMA-262 10.1.6.3, step 2).
pub(crate) fn new_property(d: Descriptor) -> Property
    ensures same { property_of result ≡ spec.new_property (descriptor_of d) }
    ensures live { (e : Extent) → IsLiveDescriptor e d → IsLiveProperty e result }
{
    if d.is_accessor() {
        accessor_property(d, false, false)
    } else {
        data_property(d, false, false)
    }
}

/// The value of a field, or a copy of the value that is there.
fn value_or_copy(field: Option<Value>, value: &Value) -> Result<Value, AllocError>
    ensures { IfOk result (λ v. v ≡ unwrap_or field value.now) }
{
    match field {
        Some(given) => Ok(given),
        None => value.clone(),
    }
}

/// What a descriptor makes of the property that is there (ECMA-262 10.1.6.3, step 6).
pub(crate) fn changed_property(d: Descriptor, old: &Property) -> Result<Property, AllocError>
    ensures same { IfOk result (λ p. property_of p ≡ spec.changed_property (descriptor_of d) (property_of old.now)) }
    ensures live { IfOk result (λ p. (e : Extent) → IsLiveDescriptor e d → IsLiveProperty e old.now → IsLiveProperty e p) }
{
    match old {
        Property::Data {
            writable,
            enumerable,
            configurable,
            value,
        } => {
            if d.is_accessor() {
                return Ok(accessor_property(d, *enumerable, *configurable));
            }
            Ok(Property::Data {
                writable: d.writable.unwrap_or(*writable),
                enumerable: d.enumerable.unwrap_or(*enumerable),
                configurable: d.configurable.unwrap_or(*configurable),
                value: value_or_copy(d.value, value)?,
            })
        }
        Property::Accessor {
            enumerable,
            configurable,
            get,
            set,
        } => {
            if d.is_data() {
                return Ok(data_property(d, *enumerable, *configurable));
            }
            Ok(Property::Accessor {
                enumerable: d.enumerable.unwrap_or(*enumerable),
                configurable: d.configurable.unwrap_or(*configurable),
                get: value_or_copy(d.get, get)?,
                set: value_or_copy(d.set, set)?,
            })
        }
    }
}
