ghost use Rattle.std.specs.Prelude.{◌≡◌, true, IfOk};
ghost use Rattle.sr_props.specs.declared.key.Rank.{Rank};

use std::alloc::AllocError;
use std::hash::Hash;

/// What the key of a property is (ECMA-262 6.1.7), in the order in which own keys are listed.
#[derive(Clone, Copy, Debug, PartialEq, Eq, PartialOrd, Ord)]
pub enum Rank {
    /// An array index, by its number.
    Index(u32),
    /// A string that is no array index.
    Text,
    /// A symbol.
    Symbol,
}

/// A key of a property.
pub trait PropKey: Sized + Eq + Hash + Drop {
    /// What a key is.
    ghost rank_of: { Self → Rank };

    /// What the key is.
    fn rank(&self) -> Rank
        ensures { result ≡ rank_of self.now };

    /// The same key once more. `AllocError` comes for want of memory.
    fn copy(&self) -> Result<Self, AllocError>
        ensures { IfOk result (λ copy. copy ≡ self.now) };

    // Keys that are equal are one.
    ghost exact: { (a b : Self) → Self.PartialEq.eq a b ≡ true → a ≡ b };
}
