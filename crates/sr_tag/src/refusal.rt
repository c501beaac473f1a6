ghost use Rattle.std.specs.Prelude.{◌≡◌};
ghost use Rattle.sr_tag.specs.declared.refusal.PathRefusal.TheVariants as path_refusal;
ghost use Rattle.sr_tag.specs.declared.refusal.ChildRefusal.TheVariants as child_refusal;

use std::alloc::{AllocError, AllocFailed};
use thiserror::Error;

/// Why a text is not read as a path.
#[derive(Debug, Drop, Error)]
pub enum PathRefusal {
    /// The text is not of the form of a path.
    #[error("no path")]
    Bad,
    /// It is of that form, with more than 64 numbers.
    #[error("path too long")]
    TooLong,
    /// There is not enough memory.
    #[error("out of memory")]
    Memory,
}

/// Why a path is given no child.
#[derive(Debug, Drop, Error)]
pub enum ChildRefusal {
    /// The path has 64 numbers.
    #[error("path too long")]
    TooLong,
    /// There is not enough memory.
    #[error("out of memory")]
    Memory,
}

impl From<AllocError> for PathRefusal {
    ghost from_gives = { λ _ refusal. refusal ≡ path_refusal.Memory };

    fn from(_: AllocError) -> PathRefusal {
        PathRefusal::Memory
    }
}

impl<T: Drop> From<AllocFailed<T>> for PathRefusal {
    ghost from_gives = { λ _ refusal. refusal ≡ path_refusal.Memory };

    fn from(_: AllocFailed<T>) -> PathRefusal {
        PathRefusal::Memory
    }
}

impl From<AllocError> for ChildRefusal {
    ghost from_gives = { λ _ refusal. refusal ≡ child_refusal.Memory };

    fn from(_: AllocError) -> ChildRefusal {
        ChildRefusal::Memory
    }
}

impl<T: Drop> From<AllocFailed<T>> for ChildRefusal {
    ghost from_gives = { λ _ refusal. refusal ≡ child_refusal.Memory };

    fn from(_: AllocFailed<T>) -> ChildRefusal {
        ChildRefusal::Memory
    }
}
