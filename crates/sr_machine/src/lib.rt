//! The run of a script: the loop over frames.
#![tactic(auto)]

/// Laws of a run.
pub mod laws;
/// A run, step by step.
mod live;
/// What is told of an uncaught throw.
mod reports;
/// The step of the frame on top.
mod steps;

pub use live::{Advance, Live, StopAt};
