ghost use Rattle.std.specs.Prelude.{◌≡◌};
ghost use Rattle.sr_value.specs.Plain.{descriptor_of, property_of};
ghost use Rattle.sr_model.specs.Properties as spec;

use crate::Value;

/// A property (ECMA-262 6.1.7.1), of at most 56 bytes: a data property with its value, or an accessor property with its getter
/// and its setter, each a function or undefined. A clone shares what a clone of the values shares, and takes no memory.
#[derive(Clone, Debug, Drop, PartialEq, Eq, Hash)]
pub enum Property {
    Data {
        writable: bool,
        enumerable: bool,
        configurable: bool,
        value: Value,
    },
    Accessor {
        enumerable: bool,
        configurable: bool,
        get: Value,
        set: Value,
    },
}

const _: () = prove!(size_of::<Property>() <= 56);

impl Property {
    /// Whether its attributes may change and it may be deleted.
    pub fn is_configurable(&self) -> bool
        ensures { result ≡ spec.is_configurable (property_of self.now) }
    {
        match self {
            Property::Data { configurable, .. } | Property::Accessor { configurable, .. } => {
                *configurable
            }
        }
    }
}

/// A property descriptor (ECMA-262 6.2.6), of which each field may be absent.
#[derive(Clone, Debug, Drop, PartialEq, Eq, Hash)]
pub struct Descriptor {
    pub value: Option<Value>,
    pub writable: Option<bool>,
    pub get: Option<Value>,
    pub set: Option<Value>,
    pub enumerable: Option<bool>,
    pub configurable: Option<bool>,
}

impl Descriptor {
    /// IsAccessorDescriptor (ECMA-262 6.2.6.1).
    pub fn is_accessor(&self) -> bool
        ensures { result ≡ spec.is_accessor (descriptor_of self.now) }
    {
        self.get.is_some() || self.set.is_some()
    }

    /// IsDataDescriptor (ECMA-262 6.2.6.2).
    pub fn is_data(&self) -> bool
        ensures { result ≡ spec.is_data (descriptor_of self.now) }
    {
        self.value.is_some() || self.writable.is_some()
    }
}
