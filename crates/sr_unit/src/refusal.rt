ghost use Rattle.std.specs.Prelude.{◌≡◌};
ghost use Rattle.sr_unit.specs.declared.refusal.Refusal.TheVariants.{Memory};

use sr_ast::Refused;
use std::alloc::{AllocError, AllocFailed};
use thiserror::Error;

/// Why a text is not had as a unit.
#[derive(Debug, Drop, Error)]
pub enum Refusal {
    /// It is none, for this reason.
    #[error("refused: {0:?}")]
    Refused(Refused),
    /// There is not enough memory.
    #[error("out of memory")]
    Memory,
}

impl From<AllocError> for Refusal {
    ghost from_gives = { λ _ refusal. refusal ≡ Memory };

    fn from(_: AllocError) -> Refusal {
        Refusal::Memory
    }
}

impl<T: Drop> From<AllocFailed<T>> for Refusal {
    ghost from_gives = { λ _ refusal. refusal ≡ Memory };

    fn from(_: AllocFailed<T>) -> Refusal {
        Refusal::Memory
    }
}
