//! Strings from UTF-8 and into it.

ghost use Rattle.std.specs.Prelude.{◌≡◌, ℕ, ◌<◌, ◌↔◌, length, IfOk, IsErrOf};
ghost use Rattle.std.specs.Str.{chars};
ghost use Rattle.sr_text.specs.Encoding.{utf16_of, points_of, utf8_of};
ghost use Rattle.sr_text.specs.Utf8.{Decodes, FirstFault, IsTooLong, IsUtf8Of};

use crate::refusal::TextRefusal;
use crate::text::{MAX_UNITS, Str};
use std::alloc::{AllocError, Global};

impl Str {
    /// The string that these bytes are in UTF-8: the code units (ECMA-262 11.1.2) of its code points. `NotUtf8` holds
    /// the place of the first byte of the first sequence that is not well formed (The Unicode Standard, table 3-7),
    /// and is told first. `TooLong` comes exactly where the bytes are UTF-8 of more than `MAX_UNITS` code units.
    pub fn from_utf8(alloc: Global, bytes: &[u8]) -> Result<Str, TextRefusal>
        ensures ok { IfOk result (λ s. Decodes bytes.now s) }
        ensures not_utf8 { (at : ℕ) → IsErrOf result (TextRefusal.NotUtf8 at) ↔ FirstFault bytes.now at }
        ensures too_long { IsErrOf result TextRefusal.TooLong ↔ IsTooLong bytes.now }
    {
        match std::str::from_utf8(bytes) {
            Ok(text) => Str::from_text(alloc, text),
            Err(fault) => Err(TextRefusal::NotUtf8(fault.valid_up_to())),
        }
    }

    /// The string of a text. `TooLong` comes exactly where it has more than `MAX_UNITS` code units.
    fn from_text(alloc: Global, text: &str) -> Result<Str, TextRefusal>
        ensures ok { IfOk result (λ s. s ≡ utf16_of (chars text.now)) }
        ensures too_long { IsErrOf result TextRefusal.TooLong ↔ (16777216 < length (utf16_of (chars text.now))) }
        ensures not_utf8 { (at : ℕ) → ¬ (IsErrOf result (TextRefusal.NotUtf8 at)) }
    {
        let len = units_len(text);
        if len > MAX_UNITS {
            return Err(TextRefusal::TooLong);
        }
        let units = units_of(alloc, text, len)?;
        Ok(Str::from_vec(alloc, units)?)
    }

    /// The string's code points (ECMA-262 11.1.5) in UTF-8, with U+FFFD for each surrogate that is in no pair.
    pub fn to_utf8(&self, alloc: Global) -> Result<Vec<u8>, AllocError>
        ensures bytes { IfOk result (λ v. v.items ≡ utf8_of self.now) }
        ensures well_formed { IfOk result (λ v. IsUtf8Of v.items (points_of self.now)) }
    {
        Ok(String::from_utf16_lossy(alloc, self.units())?.into_bytes())
    }
}

/// How many code units a text has.
fn units_len(text: &str) -> usize
    ensures { result ≡ length (utf16_of (chars text.now)) }
{
    let mut len = 0;
    for c in text.chars() {
        len += c.len_utf16();
    }
    len
}

/// The code units of a text, with room for `len` from the start.
fn units_of(alloc: Global, text: &str, len: usize) -> Result<Vec<u16>, AllocError>
    ensures { IfOk result (λ v. v.items ≡ utf16_of (chars text.now)) }
{
    let mut units = Vec::with_capacity(alloc, len)?;
    for c in text.chars() {
        let mut pair = [0; 2];
        units.extend_from_slice(c.encode_utf16(&mut pair))?;
    }
    Ok(units)
}
