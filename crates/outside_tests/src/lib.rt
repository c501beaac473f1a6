//! What only a fault of the outside shows, of loaders, sinks and calls of the command.
#![tactic(auto)]

/// Calls of the command, and runs.
#[cfg(test)]
mod calls;
/// Files in memory.
#[cfg(test)]
mod memory;
/// Loaders and sinks.
#[cfg(test)]
mod outside;
