ghost use Rattle.std.specs.Prelude.{◌≡◌, ◌≤◌, List, ℕ, Option, IfOk, OnOk, Ok};
ghost use Rattle.sr_outside.specs.declared.loader.Loaded.{Loaded};
ghost use Rattle.sr_outside.specs.Counts.{Rose, Raised};
ghost use Rattle.sr_outside.specs.Loading.{last_of, IsHeld};

use crate::Bytes;
use std::alloc::{AllocError, Global};

/// The answer of a loader to a name.
#[derive(Debug, Drop)]
pub enum Loaded {
    /// The bytes under that name.
    Text(Bytes),
    /// There is nothing under that name.
    Absent,
    /// The outside failed, and the loader's count of faults rose.
    Failed,
}

impl Loaded {
    /// A copy of the answer, or want of memory.
    pub fn copy(&self, alloc: Global) -> Result<Loaded, AllocError>
        ensures { IfOk result (λ copy. copy ≡ self.now) }
    {
        match self {
            Loaded::Text(text) => Ok(Loaded::Text(Bytes::from_slice(alloc, text.as_slice())?)),
            Loaded::Absent => Ok(Loaded::Absent),
            Loaded::Failed => Ok(Loaded::Failed),
        }
    }
}

/// What gives texts by their names.
pub trait Loader: Drop {
    /// The names and bytes that it holds, where that is told. No call changes them.
    ghost held: { Self → Option (List (List ℕ × List ℕ)) };

    /// How often it failed. The count never falls.
    ghost faults: { Self → ℕ };

    /// How often it was called, up to the end of its count.
    ghost calls: { Self → ℕ };

    /// The name and the answer of its latest call: none before the first call and after want of memory.
    ghost last: { Self → Option (List ℕ × Loaded) };

    /// The answer to a name, or want of memory.
    ///
    /// `Failed` comes only where the count of faults rose. Where it did not rise and the loader tells what it holds,
    /// the answer is that of what it holds.
    fn load(&mut self, name: &[u8]) -> Result<Loaded, AllocError>
        ensures held { held self.new ≡ held self.old }
        ensures faults { faults self.old ≤ faults self.new }
        ensures failed { result ≡ Ok Loaded.Failed → Rose (faults self.old) (faults self.new) }
        ensures honest { faults self.new ≡ faults self.old → IsHeld (held self.old) name.now result }
        ensures calls { Raised (calls self.old) (calls self.new) }
        ensures last { last self.new ≡ last_of name.now result };
}
