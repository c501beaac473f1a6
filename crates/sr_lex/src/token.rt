ghost use Rattle.std.specs.Prelude.{◌≡◌};
ghost use Rattle.sr_lex.specs.declared.token.LexRefusal.TheVariants.{Memory};

use std::alloc::{AllocError, AllocFailed};
use thiserror::Error;

/// The row of the token table that a token has.
#[derive(Clone, Copy, Debug, PartialEq, Eq)]
pub enum TokenKind {
    /// A name, reserved or not.
    Name,
    /// A number literal.
    Number,
    /// A string literal.
    Text,
    /// A piece of a template: from its backquote or the `}` of a substitution to its backquote or the next `${`.
    Template,
    /// A punctuator.
    Punctuator,
}

/// A token of a text: its kind and its place there. Places are counted in code units.
#[derive(Clone, Copy, Debug, PartialEq, Eq)]
pub struct Token {
    /// The row of the table.
    pub kind: TokenKind,
    /// The place of its first code unit.
    pub from: usize,
    /// The place after its last code unit.
    pub to: usize,
    /// Whether a line end stands between the token before, or the start of the text, and this one.
    pub line_before: bool,
}

/// The tokens of a text up to its end, or up to the first place at which none fits.
#[derive(Debug, Drop)]
pub struct Lexed {
    /// The tokens, in order.
    pub tokens: Vec<Token>,
    /// The first place at which no token fits, in code units; none where the tokens reach the end.
    pub failure: Option<usize>,
}

/// Why a text cannot be read as tokens.
#[derive(Debug, Drop, Error)]
pub enum LexRefusal {
    /// No token fits at this place, in code units, and one does wherever one has to before it.
    #[error("syntax at {0}")]
    Syntax(usize),
    /// There is not enough memory.
    #[error("out of memory")]
    Memory,
}

impl From<AllocError> for LexRefusal {
    ghost from_gives = { λ _ refusal. refusal ≡ Memory };

    fn from(_: AllocError) -> LexRefusal {
        LexRefusal::Memory
    }
}

impl<T: Drop> From<AllocFailed<T>> for LexRefusal {
    ghost from_gives = { λ _ refusal. refusal ≡ Memory };

    fn from(_: AllocFailed<T>) -> LexRefusal {
        LexRefusal::Memory
    }
}
