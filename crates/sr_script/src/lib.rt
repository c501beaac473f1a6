//! What a text is: a script that is built, one that is not, or no script.
#![tactic(auto)]

/// The names that a script declares.
mod declared;
/// Whether trees are of the form that is built.
mod form;
/// The laws of the definitions.
pub mod laws;
/// The names that trees declare.
mod names;
/// What a text is as a script.
mod script;
/// Names that are told from others.
mod words;

pub use script::read_source;
