ghost use Rattle.std.specs.Prelude.{◌≡◌, ◌<◌, ◌≤◌, min, length, IfSome, Some};
ghost use Rattle.std.specs.List.{position};
ghost use Rattle.std.specs.Char.{digit_value};
ghost use Rattle.std.specs.Str.Parse.{digits_value};
ghost use Rattle.sr_num.specs.StringToNumber.{is_white, without_leading_white, without_trailing_white, are_digits, is_numeral, is_exponent_indicator, is_point, is_signed_integer, is_around_point, is_mantissa, is_finite_decimal, is_unsigned_decimal, digits_number, unsigned_decimal_number, decimal_number, base_of_letter, literal_number, string_to_number};

use crate::{Num, NumStop};

const PLUS: u16 = 0x2B;

const MINUS: u16 = 0x2D;

const POINT: u16 = 0x2E;

const ZERO: u16 = 0x30;

const UPPER_E: u16 = 0x45;

const LOWER_E: u16 = 0x65;

/// `Infinity`
const INFINITY: [u16; 8] = [0x49, 0x6E, 0x66, 0x69, 0x6E, 0x69, 0x74, 0x79];

#[tactic(auto, unfolding(crate::specs::StringToNumber::is_white))]
fn is_white(unit: u16) -> bool
    ensures { result ≡ is_white unit }
{
    matches!(
        unit,
        0x9..=0xD | 0x20 | 0xA0 | 0x1680 | 0x2000..=0x200A | 0x2028 | 0x2029 | 0x202F | 0x205F | 0x3000 | 0xFEFF
    )
}

fn without_leading_white(mut text: &[u16]) -> &[u16]
    ensures { result.now ≡ without_leading_white text.entry.now }
{
    while let [first, rest @ ..] = text {
        if !is_white(*first) {
            break;
        }
        text = rest;
    }
    text
}

fn without_trailing_white(mut text: &[u16]) -> &[u16]
    ensures { result.now ≡ without_trailing_white text.entry.now }
{
    while let Some((last, rest)) = text.split_last() {
        if !is_white(*last) {
            break;
        }
        text = rest;
    }
    text
}

/// The value of a digit or a letter, from 0 for `0` to 35 for `z`, and 36 for any other unit.
fn digit_value(unit: u16) -> u64
    ensures { result ≡ digit_value unit }
{
    match unit {
        0x30..=0x39 => u64::from(unit) - 48,
        0x41..=0x5A => u64::from(unit) - 55,
        0x61..=0x7A => u64::from(unit) - 87,
        _ => 36,
    }
}

fn are_digits(text: &[u16], base: u64) -> bool
    ensures { result ≡ are_digits base text.now }
{
    text.iter().all(|unit| digit_value(*unit) < base)
}

fn is_numeral(text: &[u16], base: u64) -> bool
    ensures { result ≡ is_numeral base text.now }
{
    !text.is_empty() && are_digits(text, base)
}

fn is_exponent_indicator(unit: u16) -> bool
    ensures { result ≡ is_exponent_indicator unit }
{
    unit == LOWER_E || unit == UPPER_E
}

fn is_signed_integer(text: &[u16]) -> bool
    ensures { result ≡ is_signed_integer text.now }
{
    match text {
        [PLUS | MINUS, digits @ ..] => is_numeral(digits, 10),
        _ => is_numeral(text, 10),
    }
}

fn is_around_point(whole: &[u16], fraction: &[u16]) -> bool
    ensures { result ≡ is_around_point whole.now fraction.now }
{
    (is_numeral(whole, 10) && are_digits(fraction, 10))
        || (whole.is_empty() && is_numeral(fraction, 10))
}

fn point_at(text: &[u16]) -> Option<usize>
    ensures value { result ≡ position is_point text.now }
    ensures within { IfSome result (λ at. at < length text.now) }
{
    text.iter().position(|unit| *unit == POINT)
}

fn is_mantissa(text: &[u16]) -> bool
    ensures { result ≡ is_mantissa text.now }
{
    match point_at(text) {
        Some(at) => is_around_point(&text[..at], &text[at + 1..]),
        None => is_numeral(text, 10),
    }
}

fn exponent_at(text: &[u16]) -> Option<usize>
    ensures value { result ≡ position is_exponent_indicator text.now }
    ensures within { IfSome result (λ at. at < length text.now) }
{
    text.iter().position(|unit| is_exponent_indicator(*unit))
}

fn is_finite_decimal(text: &[u16]) -> bool
    ensures { result ≡ is_finite_decimal text.now }
{
    match exponent_at(text) {
        Some(at) => is_mantissa(&text[..at]) && is_signed_integer(&text[at + 1..]),
        None => is_mantissa(text),
    }
}

fn is_unsigned_decimal(text: &[u16]) -> bool
    ensures { result ≡ is_unsigned_decimal text.now }
{
    text == INFINITY.as_slice() || is_finite_decimal(text)
}

/// One more than the largest integer of the profile, where the value of digits stops to grow.
const TOO_LARGE: u64 = 9_007_199_254_740_992;

/// The integer that the digits write, or `TOO_LARGE` where it is out of the range.
fn capped_value(digits: &[u16], base: u64) -> u64
    requires base_from { 2 ≤ base }
    requires base_to { base ≤ 16 }
    ensures { result ≡ min (digits_value base digits.now) TOO_LARGE }
{
    let mut value = 0;
    for unit in digits {
        value = (value * base + digit_value(*unit)).min(TOO_LARGE);
    }
    value
}

#[tactic(auto, unfolding(crate::specs::StringToNumber::digits_number))]
fn digits_number(text: &[u16], base: u64) -> Result<Num, NumStop>
    requires base_from { 2 ≤ base }
    requires base_to { base ≤ 16 }
    ensures { result ≡ digits_number base text.now }
{
    if !is_numeral(text, base) {
        return Ok(Num::nan());
    }
    Num::of(capped_value(text, base) as i64)
}

#[tactic(auto, unfolding(crate::specs::StringToNumber::unsigned_decimal_number))]
fn unsigned_decimal_number(text: &[u16]) -> Result<Num, NumStop>
    ensures { result ≡ unsigned_decimal_number text.now }
{
    if is_numeral(text, 10) {
        return digits_number(text, 10);
    }
    if is_unsigned_decimal(text) {
        return Err(NumStop::Form);
    }
    Ok(Num::nan())
}

#[tactic(auto, unfolding(crate::specs::StringToNumber::decimal_number))]
fn decimal_number(text: &[u16]) -> Result<Num, NumStop>
    ensures { result ≡ decimal_number text.now }
{
    match text {
        [] => Ok(Num::nan()),
        [PLUS, rest @ ..] => unsigned_decimal_number(rest),
        [MINUS, rest @ ..] => match unsigned_decimal_number(rest) {
            Ok(number) => number.neg(),
            Err(stop) => Err(stop),
        },
        _ => unsigned_decimal_number(text),
    }
}

#[tactic(auto, unfolding(crate::specs::StringToNumber::base_of_letter))]
fn base_of_letter(unit: u16) -> Option<u64>
    ensures value { result ≡ base_of_letter unit }
    ensures base_from { IfSome result (λ base. 2 ≤ base) }
    ensures base_to { IfSome result (λ base. base ≤ 16) }
{
    match unit {
        0x62 | 0x42 => Some(2),
        0x6F | 0x4F => Some(8),
        0x78 | 0x58 => Some(16),
        _ => None,
    }
}

fn literal_number(text: &[u16]) -> Result<Num, NumStop>
    ensures { result ≡ literal_number text.now }
{
    match text {
        [] => Num::of(0),
        [ZERO, letter, digits @ ..] => match base_of_letter(*letter) {
            Some(base) => digits_number(digits, base),
            None => decimal_number(text),
        },
        _ => decimal_number(text),
    }
}

/// The number that a text writes (ECMA-262 7.1.4.1.1, StringToNumber): an integer in decimal with an optional sign, or in
/// base 2, 8 or 16 behind `0b`, `0o`, `0x`, or nothing, which is 0; white space and line ends around it do not count.
/// Other texts give NaN, but for these stops: `NegativeZero` for `-` and zeros, `Form` for a decimal with a point or
/// an exponent and for `Infinity`, `Unsafe` for an integer out of the range. The units are UTF-16 code units.
#[tactic(auto, unfolding(crate::specs::StringToNumber::string_to_number))]
pub fn read_number(units: &[u16]) -> Result<Num, NumStop>
    ensures { result ≡ string_to_number units.now }
{
    literal_number(without_trailing_white(without_leading_white(units)))
}
