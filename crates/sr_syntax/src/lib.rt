//! What the grammar reads, and what it is: tokens with what rules ask of them, a cursor over them, and what rules make; its
//! definition stands in `specs/` (ECMA-262 13, 14).
#![tactic(auto)]

/// Parameters, what stands before the body of a function, and where arrow functions begin.
pub mod bodies;
/// What rules give.
pub mod grown;
/// The laws of the definitions.
pub mod laws;
/// Tokens with what the grammar asks of them.
pub mod lexemes;
/// Names, and those that are bound.
pub mod names;
/// The keys of object literals.
pub mod objects;
/// The operators, and what is asked of the trees beside them.
pub mod operators;
/// Why a text has no tree.
pub mod refusal;
/// What tokens are to the grammar.
pub mod sorts;
/// A cursor over the tokens.
pub mod tokens;
/// Words and punctuators.
pub mod words;
