//! The command: what its words ask for, the run of a file, and the status and writes that it ends with.
#![tactic(auto)]

/// The laws of the definitions.
pub mod laws;
/// The run of a file.
mod run;
/// The status of the command.
mod status;
/// The top call.
mod top;
/// The words of the command.
mod words;

pub use status::Status;
pub use top::shadow_run;
