//! The steps of statements and sources (ECMA-262 14, 16.1).
#![tactic(auto)]

/// The step of the frame on top, by the kind of its tree.
mod kinds;
/// Statements in order.
mod lists;
/// Loops.
mod loops;
/// Sources.
mod scripts;
/// Expressions as statements, the empty statement, and conditions.
mod simple;
/// Declarations of `var`.
mod variables;

pub use kinds::{is_statement, step};
pub use scripts::step_source;
