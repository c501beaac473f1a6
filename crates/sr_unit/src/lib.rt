//! Scripts and modules as units of code (ECMA-262 16.1, 16.2): their items, whether they are strict, and the numbers of their trees.
#![tactic(auto)]

/// Copies of what stands in trees and is no tree.
mod copies;
/// The items of a text.
mod items;
/// The laws of the definitions.
pub mod laws;
/// The numbers of trees.
mod numbers;
/// The unit of a text.
mod reading;
/// Why a text is no unit.
mod refusal;
/// What a unit is.
pub mod unit;

pub use items::read_tokens;
pub use reading::{parse_module, parse_script};
pub use refusal::Refusal;
pub use sr_text::Goal;
pub use unit::Unit;
