//! The state of a run, laid out for many realms: the realm that runs, the frame on top and those below it, and the calls by which
//! the rows of all trees and functions go on.
#![tactic(auto)]

/// How parts and steps end.
mod ends;
/// Frames.
mod frame;
/// Parts, payments and ends, as the rows need them.
mod parts;
/// What joins realms.
mod realm;
/// Numbers of stages, and what stands at a place of a list.
mod stages;
/// The state.
mod state;

pub use ends::{Abrupt, Answer, Completion, Leaving, Next, Over, StopName};
pub use frame::{Activity, Context, Frame, Source};
pub use parts::string_cost;
pub use realm::Link;
pub use stages::{after, before, here};
pub use state::{Level, State};
