ghost use Rattle.std.specs.Prelude.{◌≡◌};
ghost use Rattle.sr_text.specs.declared.refusal.TextRefusal.TheVariants.{Memory};

use std::alloc::{AllocError, AllocFailed};
use thiserror::Error;

/// Why a text cannot be had.
#[derive(Debug, Drop, Error)]
pub enum TextRefusal {
    /// The bytes are not UTF-8. The number is the place, in bytes, of the first byte of the first
    /// ill-formed sequence.
    #[error("not UTF-8 at {0}")]
    NotUtf8(usize),
    /// The text would have more than `MAX_UNITS` code units.
    #[error("too long")]
    TooLong,
    /// There is not enough memory.
    #[error("out of memory")]
    Memory,
}

impl From<AllocError> for TextRefusal {
    ghost from_gives = { λ _ refusal. refusal ≡ Memory };

    fn from(_: AllocError) -> TextRefusal {
        TextRefusal::Memory
    }
}

impl<T: Drop> From<AllocFailed<T>> for TextRefusal {
    ghost from_gives = { λ _ refusal. refusal ≡ Memory };

    fn from(_: AllocFailed<T>) -> TextRefusal {
        TextRefusal::Memory
    }
}
