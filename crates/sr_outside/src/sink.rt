ghost use Rattle.std.specs.Prelude.{◌≡◌, ◌≤◌, List, ℕ, Option, OnOk, IsErrOf};
ghost use Rattle.std.specs.Io.KnownBytes.{Appends};
ghost use Rattle.sr_outside.specs.Counts.{Rose};
ghost use Rattle.sr_outside.specs.Writing.{AppendsPart};

use std::alloc::AllocError;
use thiserror::Error;

/// Why a sink did not take all bytes.
#[derive(Clone, Copy, Debug, PartialEq, Eq, Error)]
pub enum WriteRefusal {
    /// The outside failed, and the sink's count of faults rose. A first part of the bytes may have been taken.
    #[error("write failed")]
    Failed,
    /// Want of memory. The sink is as before.
    #[error("out of memory")]
    Memory,
}

impl From<AllocError> for WriteRefusal {
    ghost use Rattle.std.specs.Prelude.{◌≡◌};
    ghost use Rattle.sr_outside.specs.declared.sink.WriteRefusal.TheVariants.{Memory};

    ghost from_gives = { λ _ refusal. refusal ≡ Memory };

    fn from(_: AllocError) -> WriteRefusal {
        WriteRefusal::Memory
    }
}

/// What takes bytes.
pub trait Sink {
    /// What was written so far, where that is told.
    ghost written: { Self → Option (List ℕ) };

    /// How often it failed. The count never falls.
    ghost faults: { Self → ℕ };

    /// Writes all bytes. A piece that is not empty and of which nothing is taken is a fault.
    fn write_all(&mut self, bytes: &[u8]) -> Result<(), WriteRefusal>
        ensures ok { OnOk result (Appends (written self.old) (written self.new) bytes.now) }
        ensures faults { faults self.old ≤ faults self.new }
        ensures failed { IsErrOf result WriteRefusal.Failed → Rose (faults self.old) (faults self.new) }
        ensures part { IsErrOf result WriteRefusal.Failed → AppendsPart (written self.old) (written self.new) bytes.now }
        ensures memory { IsErrOf result WriteRefusal.Memory → written self.new ≡ written self.old }
        ensures memory_faults { IsErrOf result WriteRefusal.Memory → faults self.new ≡ faults self.old };
}
