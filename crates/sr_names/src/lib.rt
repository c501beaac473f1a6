//! The names that trees declare (ECMA-262 8.2), which of them may not stand beside one another, and strict mode code (11.2.2).
#![tactic(auto)]

/// The names that trees bind.
pub mod names;
/// Places at which something is wrong.
pub mod places;
/// Names that may not stand beside one another.
pub mod scopes;
/// Strict mode code.
pub mod strictness;
