//! Expressions, functions, object literals and declarations of names (ECMA-262 13, 14.3, 15), each rule above a parser of what is open while it is read.
#![tactic(auto)]

/// Declarations of names.
pub mod declarations;
/// Expressions.
mod expressions;
/// Bodies and functions.
mod functions;
/// What the rules of the grammar are made of.
pub mod grammar;
/// Object literals.
mod objects;
