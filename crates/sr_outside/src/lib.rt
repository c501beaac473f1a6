//! What a run asks of the outside: loaders, which give texts by name, and sinks, which take bytes.
//!
//! Contracts see a loader as what it holds (where it tells), how often it failed, how often it was called and its
//! latest answer, and a sink as what was written (where it tells) and how often it failed.
#![tactic(auto)]

/// Bytes that contracts see as a list.
mod bytes;
/// The files of a folder of the system.
mod dir;
/// What a loader is, and its answers.
mod loader;
/// Loaders over files in memory.
mod memory_loaders;
/// Sinks over bytes in memory.
mod memory_sinks;
/// What a sink is, and its refusals.
mod sink;
/// Sinks over writers of std.
mod streams;

pub use bytes::Bytes;
pub use dir::DirLoader;
pub use loader::{Loaded, Loader};
pub use memory_loaders::{MapLoader, SureLoader};
pub use memory_sinks::{SureSink, VecSink};
pub use sink::{Sink, WriteRefusal};
pub use streams::{ErrSink, OutSink};
