//! Statements, imports and exports (ECMA-262 14, 16.2), each rule above a parser of what is open while it is read.
#![tactic(auto)]

/// What statements are made of.
mod clauses;
/// `if`, `do` and `while`.
mod conditions;
/// The heads of `for`.
mod heads;
/// `continue`, `break`, `return`, `throw` and `debugger`.
mod jumps;
/// `for`, behind what it begins with.
mod loops;
/// Imports and exports.
mod modules;
/// The names of imports and exports.
mod specifiers;
/// Statements.
pub mod statements;
/// `switch`.
mod switches;
/// `try`.
mod tries;
