//! Integers as strings, and strings that are array indices.

ghost use Rattle.std.specs.Prelude.{◌≡◌, ℕ, ◌<◌, ◌≤◌, ◌≢◌, ◌-◌, length, drop, slice_index, IfOk, IfSome, IfNone};
ghost use Rattle.std.specs.Option.{SomeIff};
ghost use Rattle.std.specs.Int.{IsInRange};
ghost use Rattle.std.specs.Char.{digit_char};
ghost use Rattle.sr_text.specs.Numerals.{IsIndexKey, digits_in, signed_numeral_of};

use crate::text::Str;
use std::alloc::{AllocError, Global};

/// Room for the longest numeral: 64 binary digits and a sign.
const NUMERAL_ROOM: usize = 65;
/// How many digits the greatest array index has.
const INDEX_DIGITS: usize = 10;

impl Str {
    /// The numeral of `v` in a radix (ECMA-262 6.1.6.1.20): a `-` where it is negative and then its digits, the highest
    /// first, with the letters in lower case.
    pub fn digits(alloc: Global, v: i64, radix: u32) -> Result<Str, AllocError>
        requires least { 2 ≤ radix }
        requires most { radix ≤ 36 }
        ensures { IfOk result (λ s. s ≡ signed_numeral_of v radix) }
    {
        let mut buffer = [0; NUMERAL_ROOM];
        let mut at = put_digits(&mut buffer, v.unsigned_abs(), radix);
        if v <= 0 {
            at -= 1;
            buffer[at] = if v == 0 { b'0' as u16 } else { b'-' as u16 };
        }
        Str::from_vec(alloc, Vec::from_slice(alloc, &buffer[at..])?)
    }

    /// The array index (ECMA-262 6.1.7), from 0 to 2^32 - 2, of which this string is the decimal numeral.
    pub fn index_key(&self) -> Option<u32>
        ensures key { IfSome result (IsIndexKey self.now) }
        ensures none { IfNone result ((n : ℕ) → ¬ (IsIndexKey self.now n)) }
    {
        index_of(self.units())
    }
}

/// The array index of which these code units are the decimal numeral.
fn index_of(units: &[u16]) -> Option<u32>
    ensures key { IfSome result (IsIndexKey units.now) }
    ensures none { IfNone result ((n : ℕ) → ¬ (IsIndexKey units.now n)) }
{
    let first = *units.first()?;
    if first == b'0' as u16 {
        return if units.len() == 1 { Some(0) } else { None };
    }
    if units.len() > INDEX_DIGITS {
        return None;
    }
    let value = decimal_value(units)?;
    if value < u32::MAX as u64 {
        Some(value as u32)
    } else {
        None
    }
}

/// The number that has these decimal digits, of which the first is not `0`.
fn decimal_value(units: &[u16]) -> Option<u64>
    requires some { 0 < length units.now }
    requires few { length units.now ≤ 10 }
    requires first { slice_index units.now 0 ≢ 48 }
    ensures value { IfSome result (λ n. digits_in 10 n ≡ units.now) }
    ensures none { IfNone result ((n : ℕ) → digits_in 10 n ≢ units.now) }
{
    let mut value = 0;
    for unit in units {
        value = value * 10 + decimal_digit(*unit)?;
    }
    Some(value)
}

/// The value of a decimal digit.
fn decimal_digit(unit: u16) -> Option<u64>
    ensures { SomeIff result (IsInRange 48 57 unit) (unit - 48) }
{
    if unit >= b'0' as u16 && unit <= b'9' as u16 {
        Some((unit - b'0' as u16) as u64)
    } else {
        None
    }
}

/// Writes the digits of `n`, none for 0, at the end of the buffer, and answers where they begin.
fn put_digits(buffer: &mut [u16], n: u64, radix: u32) -> usize
    requires room { length buffer.old ≡ 65 }
    requires least { 2 ≤ radix }
    requires most { radix ≤ 36 }
    ensures within { result ≤ 65 }
    ensures left { 1 ≤ result }
    ensures digits { drop result buffer.new ≡ digits_in radix n }
{
    let mut at = buffer.len();
    let mut rest = n;
    while rest > 0 {
        at -= 1;
        buffer[at] = digit_unit((rest % radix as u64) as u16);
        rest /= radix as u64;
    }
    at
}

/// The code unit of a digit.
fn digit_unit(digit: u16) -> u16
    requires { digit < 36 }
    ensures { result ≡ digit_char digit }
{
    if digit < 10 {
        b'0' as u16 + digit
    } else {
        b'a' as u16 + (digit - 10)
    }
}
