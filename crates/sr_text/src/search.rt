//! Where a string stands in another.

ghost use Rattle.std.specs.Prelude.{ℕ, ◌+◌, ◌≤◌, ◌↔◌, length, IsTrue, IfSome, IfNone};
ghost use Rattle.sr_text.specs.Search.{StandsAt, IsFirstFrom, NowhereFrom, IsLastUpTo, NowhereUpTo};

use crate::text::Str;

impl Str {
    /// The least place at or after `from` where the part stands (ECMA-262 6.1.4.1). Each place is tried in turn, so the
    /// time is at most that of comparing the part at each.
    pub fn find(&self, part: &Str, from: usize) -> Option<usize>
        ensures first { IfSome result (IsFirstFrom self.now part.now from) }
        ensures nowhere { IfNone result (NowhereFrom self.now part.now from) }
    {
        let (whole, part) = (self.units(), part.units());
        let last = whole.len().checked_sub(part.len())?;
        for at in from..last + 1 {
            if stands_at(whole, part, at) {
                return Some(at);
            }
        }
        None
    }

    /// The greatest place at or before `from` where the part stands (ECMA-262 6.1.4.2).
    pub fn rfind(&self, part: &Str, from: usize) -> Option<usize>
        ensures last { IfSome result (IsLastUpTo self.now part.now from) }
        ensures nowhere { IfNone result (NowhereUpTo self.now part.now from) }
    {
        let (whole, part) = (self.units(), part.units());
        let last = whole.len().checked_sub(part.len())?;
        for at in (0..from.min(last) + 1).rev() {
            if stands_at(whole, part, at) {
                return Some(at);
            }
        }
        None
    }
}

/// Whether the part stands in the whole at this place.
fn stands_at(whole: &[u16], part: &[u16], at: usize) -> bool
    requires { at + length part.now ≤ length whole.now }
    ensures { IsTrue result ↔ StandsAt whole.now part.now at }
{
    &whole[at..at + part.len()] == part
}
