//! Values of the language, properties with their keys and descriptors, and the three equalities.
#![tactic(auto)]

/// The three equalities.
mod equality;
/// Keys in tables of properties.
mod prop_key;
/// Properties and descriptors.
mod property;
/// Symbols.
mod symbol;
/// Values and keys of properties.
mod value;

pub use equality::{same_value, same_value_zero, strict_equal};
pub use property::{Descriptor, Property};
pub use symbol::{MadeNumber, MadeSymbol, Symbol, WellKnown};
pub use value::{Key, Value};
