//! Strings of 16-bit code units (ECMA-262 6.1.4).
#![tactic(auto)]

/// What a text is to be read as.
mod goal;
/// Strings put together, cut and compared.
mod joins;
/// What holds of UTF-8 as it is defined here.
pub mod laws;
/// What is left out of the language by name.
mod marker;
/// Integers as strings.
mod numerals;
/// Why a text is refused.
mod refusal;
/// Where a string stands in another.
mod search;
/// The string itself, and what reads it.
mod text;
/// UTF-8.
mod utf8;
/// Words in code units.
mod words;

pub use goal::Goal;
pub use marker::Marker;
pub use refusal::TextRefusal;
pub use text::{MAX_UNITS, Str};
pub use words::spells;
