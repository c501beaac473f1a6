//! Tables of the properties of objects, and the order in which their keys are listed.
#![tactic(auto)]

/// Keys of properties, and what is asked of them.
mod key;
/// Laws of the order of own keys.
pub mod laws;
/// Tables of properties.
mod table;

pub use key::{PropKey, Rank};
pub use table::Table;
