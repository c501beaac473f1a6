ghost use Rattle.std.specs.Prelude.{◌≡◌, ◌≤◌, ◌+◌, ◌*◌, ◌&&◌, ◌==◌, if◌then◌else◌, None, false, min, length, drop};
ghost use Rattle.std.specs.Char.{digit_value};
ghost use Rattle.sr_num.specs.StringToNumber.{named_base};
ghost use Rattle.sr_lex.specs.Units.{begins_with, begins_with_digit};
ghost use Rattle.sr_lex.specs.Failures as spec;

use crate::numbers::{MAX_SAFE, begins_with_name_part, named_base};
use crate::units::{begins_with, begins_with_digit, digit_value};
use sr_text::{Marker, Str};

const NUMBER_SIGN: u16 = 0x23;

const FULL_STOP: u16 = 0x2E;

const DIGIT_ZERO: u16 = 0x30;

const AT_SIGN: u16 = 0x40;

const LETTER_E: u16 = 0x45;

const BACKSLASH: u16 = 0x5C;

const LOW_LINE: u16 = 0x5F;

const SMALL_E: u16 = 0x65;

const SMALL_N: u16 = 0x6E;

/// The last unit of ASCII.
const LAST_ASCII: u16 = 0x7F;

/// Whether the first of the units is a digit of the base.
fn begins_with_digit_of(base: u32, units: &[u16]) -> bool
    ensures { result ≡ spec.begins_with_digit_of base units.now }
{
    match units {
        [] => false,
        [first, ..] => digit_value(*first) < base,
    }
}

/// How many units the digits of the base at the front have, with one `_` between two of them.
fn run_len(base: u32, units: &[u16]) -> usize
    ensures value { result ≡ spec.run_len base false units.now }
    ensures within { result ≤ length units.now }
{
    let mut after = false;
    for (i, unit) in units.iter().enumerate() {
        if digit_value(*unit) < base {
            after = true;
        } else if after && *unit == LOW_LINE && begins_with_digit_of(base, &units[i + 1..]) {
            after = false;
        } else {
            return i;
        }
    }
    units.len()
}

/// The value of digits of the base, after digits of this value, with one more unit, where a value above `MAX_SAFE` shows as one
/// more than that.
fn next_value(base: u32, value: u64, unit: u16) -> u64
    requires some { base ≤ 16 }
    requires small { value ≤ 0x20000000000000 }
    ensures value { result ≡ (if unit == LOW_LINE then value else min (value * base + digit_value unit) 0x20000000000000) }
    ensures within { result ≤ 0x20000000000000 }
{
    if unit == LOW_LINE {
        return value;
    }
    (value * u64::from(base) + u64::from(digit_value(unit))).min(MAX_SAFE + 1)
}

/// The value of such digits, where a value above `MAX_SAFE` shows as one more than that.
fn run_value(base: u32, units: &[u16]) -> u64
    requires some { 1 ≤ base }
    requires few { base ≤ 16 }
    ensures { result ≡ min (spec.run_value base 0 units.now) 0x20000000000000 }
{
    let mut value = 0;
    for unit in units {
        value = next_value(base, value, *unit);
    }
    value
}

/// Whether `.` before a digit is at the front.
fn begins_with_fraction(units: &[u16]) -> bool
    ensures { result ≡ (begins_with FULL_STOP units.now && begins_with_digit (drop 1 units.now)) }
{
    match units {
        [first, rest @ ..] => *first == FULL_STOP && begins_with_digit(rest),
        [] => false,
    }
}

/// Whether a decimal number with a fraction or an exponent is at the front.
#[tactic(auto, unfolding(crate::specs::Failures::is_number_form))]
fn is_number_form(units: &[u16]) -> bool
    ensures { result ≡ spec.is_number_form units.now }
{
    let after = &units[run_len(10, units)..];
    let goes_on = begins_with(FULL_STOP, after)
        || begins_with(SMALL_E, after)
        || begins_with(LETTER_E, after);
    (begins_with_digit(units) && goes_on) || begins_with_fraction(units)
}

/// Whether digits of the base before `n` are at the front.
#[tactic(auto, unfolding(crate::specs::Failures::is_bigint_in))]
fn is_bigint_in(base: u32, units: &[u16]) -> bool
    ensures { result ≡ spec.is_bigint_in base units.now }
{
    begins_with_digit_of(base, units) && begins_with(SMALL_N, &units[run_len(base, units)..])
}

/// Whether digits of the base above `MAX_SAFE`, before no unit of a name, are at the front.
#[tactic(auto, unfolding(crate::specs::Failures::is_unsafe_in))]
fn is_unsafe_in(base: u32, units: &[u16]) -> bool
    requires some { 1 ≤ base }
    requires few { base ≤ 16 }
    ensures { result ≡ spec.is_unsafe_in base units.now }
{
    let len = run_len(base, units);
    run_value(base, &units[..len]) > MAX_SAFE && !begins_with_name_part(&units[len..])
}

/// Whether a number before `n` is at the front.
fn is_bigint(units: &[u16]) -> bool
    ensures { result ≡ spec.is_bigint_of (named_base units.now) units.now }
{
    match named_base(units) {
        None => is_bigint_in(10, units),
        Some(base) => is_bigint_in(base, &units[2..]),
    }
}

/// Whether decimal digits without a leading 0 above `MAX_SAFE`, before no full stop, are at the front.
fn is_unsafe_decimal(units: &[u16]) -> bool
    ensures { result ≡ spec.is_unsafe_of None units.now }
{
    let after = &units[run_len(10, units)..];
    is_unsafe_in(10, units) && !(begins_with(DIGIT_ZERO, units) || begins_with(FULL_STOP, after))
}

/// Whether a number literal above `MAX_SAFE` would be at the front.
fn is_unsafe(units: &[u16]) -> bool
    ensures { result ≡ spec.is_unsafe_of (named_base units.now) units.now }
{
    match named_base(units) {
        None => is_unsafe_decimal(units),
        Some(base) => is_unsafe_in(base, &units[2..]),
    }
}

/// The marker of a character that begins no token.
#[tactic(auto, unfolding(crate::specs::Failures::marker_of_unit))]
fn marker_of_unit(unit: u16) -> Option<Marker>
    ensures { result ≡ spec.marker_of_unit unit }
{
    if unit == BACKSLASH {
        Some(Marker::IdentifierEscape)
    } else if unit > LAST_ASCII {
        Some(Marker::NonAscii)
    } else if unit == NUMBER_SIGN {
        Some(Marker::Hash)
    } else if unit == AT_SIGN {
        Some(Marker::At)
    } else {
        None
    }
}

/// The marker of what is at the front.
#[tactic(auto, unfolding(crate::specs::Failures::marker_of))]
fn marker_of(units: &[u16]) -> Option<Marker>
    ensures { result ≡ spec.marker_of units.now }
{
    let [first, ..] = units else {
        return None;
    };
    if is_number_form(units) {
        Some(Marker::NumberForm)
    } else if is_bigint(units) {
        Some(Marker::Bigint)
    } else if is_unsafe(units) {
        Some(Marker::UnsafeLiteral)
    } else {
        marker_of_unit(*first)
    }
}

/// What the failure at a place of the text, in code units, is called, where it is of something that is left out of the language by
/// name: a number with a fraction or an exponent, a number before `n`, a number above 2^53 - 1, a backslash, a character above
/// U+007F, `#` or `@`.
#[tactic(auto, unfolding(crate::specs::Failures::marker_of))]
pub fn failure_marker(text: &Str, at: usize) -> Option<Marker>
    ensures { result ≡ spec.failure_marker text.now at }
{
    let units = text.units();
    if at < units.len() {
        marker_of(&units[at..])
    } else {
        None
    }
}
