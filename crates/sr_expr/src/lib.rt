//! The steps of the expressions (ECMA-262 13).
#![tactic(auto)]

/// Assignments.
mod assign;
/// Literals, names, and expressions in order.
mod basic;
/// Calls.
mod call;
/// Conditions and logical operators.
mod choice;
/// The step of the frame on top, by the kind of its tree.
mod kinds;
/// Operators with one operand or two.
mod operators;

pub use kinds::step;
