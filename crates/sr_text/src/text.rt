ghost use Rattle.std.specs.Prelude.{◌≡◌, ℕ, ◌<◌, ◌≤◌, ◌==◌, ◌↔◌, length, IfOk, IsErrOf};
ghost use Rattle.std.specs.Cmp.Lexicographic.{pointwise};
ghost use Rattle.std.specs.Cmp.Rules.{comparing, hashing};
ghost use Rattle.std.proofs.Common.{rules};
ghost use Rattle.std.specs.Hash as fed;
ghost use Rattle.sr_text.specs.Text.{IsText};

use crate::refusal::TextRefusal;
use std::alloc::{AllocError, Global};
use std::fmt::{self, Debug, Formatter, Write};
use std::hash::{Hash, Hasher};
use std::marker::Model;
use std::rc::Rc;

/// The most code units that a string may have.
pub const MAX_UNITS: usize = 16_777_216;

/// A string of at most `MAX_UNITS` 16-bit code units (ECMA-262 6.1.4), which contracts see as the list of them.
/// A clone shares the code units.
#[derive(Drop)]
pub struct Str {
    units: Rc<Vec<u16>>,
}

impl Model for Str {
    ghost use Rattle.std.specs.Prelude.{List, ℕ};
    ghost use Rattle.sr_text.specs.Text.{IsText};

    ghost Value = { List ℕ };

    ghost view = { λ s. s.units.value.items };

    ghost invariant = { λ s. IsText s.units.value.items };
}

impl Str {
    /// The string of these code units. `TooLong` comes exactly for more than `MAX_UNITS`.
    pub fn of_units(alloc: Global, units: &[u16]) -> Result<Str, TextRefusal>
        ensures ok { IfOk result (λ s. s ≡ units.now) }
        ensures too_long { IsErrOf result TextRefusal.TooLong ↔ (16777216 < length units.now) }
        ensures not_utf8 { (at : ℕ) → ¬ (IsErrOf result (TextRefusal.NotUtf8 at)) }
    {
        if units.len() > MAX_UNITS {
            return Err(TextRefusal::TooLong);
        }
        let units = Vec::from_slice(alloc, units)?;
        Ok(Str::from_vec(alloc, units)?)
    }

    /// The string of these code units, which it takes over.
    pub(crate) fn from_vec(alloc: Global, units: Vec<u16>) -> Result<Str, AllocError>
        requires { length units.items ≤ 16777216 }
        ensures { IfOk result (λ s. s ≡ units.items) }
    {
        Ok(Str {
            units: Rc::new(alloc, units)?,
        })
    }

    /// The code units.
    pub fn units(&self) -> &[u16]
        ensures value { result.now ≡ self.now }
        ensures text { IsText self.now }
    {
        self.units.as_slice()
    }
}

/// Shares the code units, and takes no memory.
impl Clone for Str {
    ghost is_clone = { λ s copy. copy ≡ s };

    fn clone(&self) -> Result<Str, AllocError> {
        Ok(Str {
            units: self.units.clone()?,
        })
    }
}

impl PartialEq for Str {
    ghost eq = { λ a b. pointwise ◌==◌ a b };

    ghost laws = { Prim.search (comparing, rules) };

    fn eq(&self, other: &Str) -> bool {
        self.units() == other.units()
    }
}

impl Eq for Str {
    ghost laws = { Prim.search (comparing, rules) };
}

impl Hash for Str {
    ghost hash_input = { λ a. fed.slice fed.u16 a };

    ghost respects_eq = { Prim.search (hashing, rules) };

    fn hash<H: Hasher>(&self, state: &mut H) {
        self.units().hash(state);
    }
}

impl Debug for Str {
    fn fmt<W: Write>(&self, f: &mut Formatter<W>) -> fmt::Result {
        self.units().fmt(f)
    }
}
