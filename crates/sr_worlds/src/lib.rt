//! Runs of several realms, their replays, and the laws that hold whatever the rows of the language are.
//!
//! The definitions stand in `specs/`. Each function here is a law: it does nothing, and its contract is proved.
#![tactic(auto)]

/// A realm is what its own tape gives.
pub mod isolation;
/// What joins realms.
pub mod links;
/// Larger depths and bounds.
pub mod counts;
/// What is written.
pub mod writes;
/// The exact steps of a stack of waiting scripts.
pub mod stacks;
/// Three small runs, whole.
pub mod runs;
/// Two rules that the law of isolation needs.
pub mod counterexamples;
