//! The early errors of scripts and modules (ECMA-262 16.1.1, 16.2.1.1): the rules of the static semantics that a grammar does not tell.
#![tactic(auto)]

/// What stands around a tree.
pub mod context;
/// The answer.
mod answer;
/// The walk through functions.
mod bodies;
/// Names of imports and exports.
mod exports;
/// The walk through expressions.
mod expressions;
/// Parameters, bodies and values.
mod functions;
/// Scripts and modules.
mod items;
/// The walk through loops.
mod loops;
/// The names that a module exports.
mod modules;
/// Places.
mod places;
/// The walk through statements, imports and exports.
mod statements;
/// The walk through trees.
mod trees;

pub use answer::early;
