ghost use Rattle.std.specs.Prelude.{◌≡◌, ◌≤◌, IfSome, false, length, pos};
ghost use Rattle.sr_num.specs.StringToNumber.{base_of_letter, named_base};
ghost use Rattle.sr_lex.specs.Scan as spec;
ghost use Rattle.sr_lex.specs.Numbers as numbers;
ghost use Rattle.sr_lex.specs.Numbers.{NumberLiteral, IsNumber, begins_with_name_part};

use crate::units::{begins_with, digit_value, is_name_part};
use sr_num::Num;

const FULL_STOP: u16 = 0x2E;

const DIGIT_ZERO: u16 = 0x30;

const LOW_LINE: u16 = 0x5F;

/// Number.MAX_SAFE_INTEGER (ECMA-262 21.1.2.6).
pub const MAX_SAFE: u64 = 9_007_199_254_740_991;

/// The value of digits of the base with single separators between them, where a value above `MAX_SAFE` shows as one more
/// than that; none for other units.
fn separated_value(units: &[u16], base: u32) -> Option<u64>
    requires { base ≤ 16 }
    ensures { result ≡ spec.digits_from base false 0 units.now }
{
    let mut value = 0;
    let mut after_digit = false;
    for unit in units {
        if *unit == LOW_LINE {
            if !after_digit {
                return None;
            }
            after_digit = false;
        } else {
            let digit = digit_value(*unit);
            if digit >= base {
                return None;
            }
            value = (value * u64::from(base) + u64::from(digit)).min(MAX_SAFE + 1);
            after_digit = true;
        }
    }
    if after_digit { Some(value) } else { None }
}

/// The base that a letter names after a 0.
#[tactic(auto, unfolding(sr_num::specs::StringToNumber::base_of_letter))]
fn base_of_letter(letter: u16) -> Option<u32>
    ensures value { result ≡ base_of_letter letter }
    ensures within { IfSome result (λ base. (1 ≤ base) × (base ≤ 16)) }
{
    match letter {
        0x62 | 0x42 => Some(2),
        0x6F | 0x4F => Some(8),
        0x78 | 0x58 => Some(16),
        _ => None,
    }
}

/// The value of a number literal, so far without an end: a value above `MAX_SAFE` shows as one more than that.
#[tactic(auto, unfolding(crate::specs::Scan::number_value))]
pub fn number_value(units: &[u16]) -> Option<u64>
    ensures { result ≡ spec.number_value units.now }
{
    match units {
        [] => None,
        [DIGIT_ZERO] => Some(0),
        [DIGIT_ZERO, letter, digits @ ..] => separated_value(digits, base_of_letter(*letter)?),
        _ => separated_value(units, 10),
    }
}

/// Whether there is a value, and one of the profile.
pub fn is_safe_value(value: Option<u64>) -> bool
    ensures { result ≡ spec.is_safe_value value }
{
    match value {
        None => false,
        Some(value) => value <= MAX_SAFE,
    }
}

/// The base that the first two units name, and there are two then.
pub fn named_base(units: &[u16]) -> Option<u32>
    ensures value { result ≡ named_base units.now }
    ensures within { IfSome result (λ base. (1 ≤ base) × (base ≤ 16)) }
    ensures two { IfSome result (λ base. 2 ≤ length units.now) }
{
    match units {
        [DIGIT_ZERO, letter, ..] => base_of_letter(*letter),
        _ => None,
    }
}

/// Whether the first of the units is one of a name.
pub fn begins_with_name_part(units: &[u16]) -> bool
    ensures { result ≡ begins_with_name_part units.now }
{
    match units {
        [] => false,
        [first, ..] => is_name_part(*first),
    }
}

/// Whether a number literal may end before these units.
#[tactic(auto, unfolding(crate::specs::Numbers::may_end))]
pub fn may_end(literal: &[u16], after: &[u16]) -> bool
    ensures { result ≡ numbers.may_end literal.now after.now }
{
    !begins_with_name_part(after)
        && (named_base(literal).is_some() || !begins_with(FULL_STOP, after))
}

/// The number of a value of the profile.
fn safe_number(value: u64) -> Num
    requires { value ≤ MAX_SAFE }
    ensures { result ≡ Some (pos value) }
{
    match Num::of(value as i64) {
        Ok(number) => number,
        Err(_) => unreachable!(),
    }
}

/// The value of a number literal.
pub fn literal_number(literal: &[u16]) -> Num
    requires { IsNumber literal.now }
    ensures { NumberLiteral literal.now result }
{
    match number_value(literal) {
        Some(value) => safe_number(value),
        None => unreachable!(),
    }
}
