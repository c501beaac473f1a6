//! Strings put together, cut and compared.

ghost use Rattle.std.specs.Prelude.{◌≡◌, ℕ, ◌+◌, ◌-◌, ◌<◌, ◌≤◌, ◌++◌, ◌↔◌, length, slice_range, IfOk, IsErrOf};
ghost use Rattle.std.specs.Cmp.Lexicographic.{slice_cmp};
ghost use Rattle.std.specs.Ordering.{nat_cmp};

use crate::refusal::TextRefusal;
use crate::text::{MAX_UNITS, Str};
use std::alloc::{AllocError, Global};
use std::cmp::Ordering;

impl Str {
    /// This string and then `r`. `TooLong` comes exactly where they have more than `MAX_UNITS` code units together.
    pub fn concat(&self, alloc: Global, r: &Str) -> Result<Str, TextRefusal>
        ensures ok { IfOk result (λ s. s ≡ self.now ++ r.now) }
        ensures too_long { IsErrOf result TextRefusal.TooLong ↔ (16777216 < length self.now + length r.now) }
        ensures not_utf8 { (at : ℕ) → ¬ (IsErrOf result (TextRefusal.NotUtf8 at)) }
    {
        let (left, right) = (self.units(), r.units());
        let len = left.len() + right.len();
        if len > MAX_UNITS {
            return Err(TextRefusal::TooLong);
        }
        let mut units = Vec::with_capacity(alloc, len)?;
        units.extend_from_slice(left)?;
        units.extend_from_slice(right)?;
        Ok(Str::from_vec(alloc, units)?)
    }

    /// The code units from place `from` up to place `to`.
    pub fn slice(&self, alloc: Global, from: usize, to: usize) -> Result<Str, AllocError>
        requires ordered { from ≤ to }
        requires within { to ≤ length self.now }
        ensures { IfOk result (λ s. s ≡ slice_range self.now from to) }
    {
        Str::from_vec(alloc, Vec::from_slice(alloc, &self.units()[from..to])?)
    }

    /// The order of the two strings by their code units (ECMA-262 7.2.13, step 3).
    pub fn compare(&self, r: &Str) -> Ordering
        ensures { result ≡ slice_cmp nat_cmp self.now r.now }
    {
        self.units().cmp(&r.units())
    }
}
