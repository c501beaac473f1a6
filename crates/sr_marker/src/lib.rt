//! What is left out of the language by name, and where a text has it (ECMA-262 12 to 16): markers of tokens, and of the place where
//! the grammar goes on with no token. They are asked for only where a text is no script and no module.
#![tactic(auto)]

/// The bracket that opens what another closes.
mod brackets;
/// The markers of places.
mod places;
/// What could stand at a place.
mod reading;
/// What a refusal names.
mod refusals;
/// The markers of tokens.
mod tokens;

pub use places::place_marker;
pub use refusals::{least_of, refusal_at};
pub use tokens::token_marker;
