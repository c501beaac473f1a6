//! The steps of the built-in functions.
#![tactic(auto)]

/// Calls.
mod calls;
/// The line that `print` writes.
mod line;
/// `print`.
mod printing;

pub use calls::step;
