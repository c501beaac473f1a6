//! What the operators and conversions of ECMA-262 do with values, where no code of the user runs.
#![tactic(auto)]

/// What computations come to.
mod answers;
/// The comparisons.
mod comparison;
/// ToBoolean, ToNumber and ToString.
mod conversions;
/// The operators.
mod operators;

pub use answers::{Computed, Operated, Stepped};
pub use conversions::{to_boolean, to_number, to_text};
pub use operators::{operate, operate_one, shown, step_number};
