ghost use Rattle.std.specs.Prelude.{◌≡◌};
ghost use Rattle.sr_syntax.specs.declared.refusal.Refusal.TheVariants.{Memory};

use sr_lex::LexRefusal;
use std::alloc::{AllocError, AllocFailed};
use thiserror::Error;

/// Why a text has no tree.
#[derive(Debug, Drop, Error)]
pub enum Refusal {
    /// The first token that cannot continue begins at this place, in code units, or the text ends there.
    #[error("syntax at {0}")]
    Syntax(usize),
    /// More is open at once, or a tree is deeper, than is read.
    #[error("too deep")]
    TooDeep,
    /// There is not enough memory.
    #[error("out of memory")]
    Memory,
}

impl From<AllocError> for Refusal {
    ghost from_gives = { λ _ refusal. refusal ≡ Memory };

    fn from(_: AllocError) -> Refusal {
        Refusal::Memory
    }
}

impl<T: Drop> From<AllocFailed<T>> for Refusal {
    ghost from_gives = { λ _ refusal. refusal ≡ Memory };

    fn from(_: AllocFailed<T>) -> Refusal {
        Refusal::Memory
    }
}

impl From<LexRefusal> for Refusal {
    ghost use Rattle.sr_syntax.specs.Refused.{refused};

    ghost from_gives = { λ lexical refusal. refusal ≡ refused lexical };

    fn from(refusal: LexRefusal) -> Refusal {
        match refusal {
            LexRefusal::Syntax(place) => Refusal::Syntax(place),
            LexRefusal::Memory => Refusal::Memory,
        }
    }
}
