//! Tokens of a text (ECMA-262 12).
#![tactic(auto)]

/// The brackets that are open between two tokens.
mod brackets;
/// The characters of string literals and template pieces.
mod characters;
/// What a failure is called, where it is of something that is left out by name.
mod failures;
/// White space, line ends and comments.
mod gaps;
/// String literals and template pieces.
mod literals;
/// The laws of the definitions.
pub mod laws;
/// Number literals.
mod numbers;
/// The tokens of a text.
mod reading;
/// The token at the front of some units.
mod rows;
/// A token, and why a text has none at a place.
mod token;
/// Code units by what tokens ask of them.
mod units;

pub use failures::failure_marker;
pub use reading::{lex, lex_to_failure, number_value, string_value, template_value, token_text};
pub use token::{LexRefusal, Lexed, Token, TokenKind};
