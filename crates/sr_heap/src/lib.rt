//! What a realm keeps: its objects with their ordinary internal methods (ECMA-262 10.1), its environments (9.1) and its sources. No call
//! here runs code.
#![tactic(auto)]

/// The bindings of names.
mod bindings;
/// What a descriptor makes of a property, and whether it may.
mod descriptors;
/// Environment records.
mod environments;
/// What is found along the prototypes.
mod found;
/// The heap: all that a realm keeps, and the calls on its objects.
mod heap;
/// The kinds of objects.
mod kinds;
/// Tables of names.
mod names;
/// One object.
mod object;
/// Ways along prototypes.
mod prototypes;
/// What comes of a write of a property.
mod settings;
/// The calls of the heap on environments, the global environment and sources.
mod scopes;

pub use bindings::Binding;
pub use found::Found;
pub use heap::Heap;
pub use kinds::{Bound, Closure, Native, ObjectKind};
pub use settings::Setting;
