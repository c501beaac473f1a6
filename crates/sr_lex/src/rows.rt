ghost use Rattle.std.specs.Prelude.{◌≡◌, ◌≤◌, ◌<◌, length, IfSome, slice_index, option_map};
ghost use Rattle.sr_lex.specs.Scan as spec;

use crate::literals::literal_len;
use crate::numbers::{is_safe_value, may_end, number_value};
use crate::token::TokenKind;
use crate::units::{BACKQUOTE, RIGHT_BRACE, is_digit, is_name_part, is_name_start, is_quote};

const EXCLAMATION_MARK: u16 = 0x21;

const FULL_STOP: u16 = 0x2E;

const EQUALS: u16 = 0x3D;

const GREATER: u16 = 0x3E;

const QUESTION_MARK: u16 = 0x3F;

/// A token at the front of some units.
#[derive(Clone, Copy)]
pub struct Row {
    /// The row of the table.
    pub kind: TokenKind,
    /// How many units it has.
    pub units: usize,
}

/// The number of units at the front that a name may go on with.
fn name_len(units: &[u16]) -> usize
    ensures value { result ≡ spec.name_len units.now }
    ensures within { result ≤ length units.now }
{
    for (i, unit) in units.iter().enumerate() {
        if !is_name_part(*unit) {
            return i;
        }
    }
    units.len()
}

/// Whether the unit is a punctuator alone, but for the full stop.
#[tactic(auto, unfolding(crate::specs::Scan::is_single))]
fn is_single(unit: u16) -> bool
    ensures { result ≡ spec.is_single unit }
{
    u8::try_from(unit).is_ok_and(|byte| {
        matches!(
            byte,
            b'{' | b'}'
                | b'('
                | b')'
                | b'['
                | b']'
                | b';'
                | b','
                | b'<'
                | b'>'
                | b'+'
                | b'-'
                | b'*'
                | b'/'
                | b'%'
                | b'&'
                | b'|'
                | b'^'
                | b'!'
                | b'~'
                | b'?'
                | b':'
                | b'='
        )
    })
}

/// Whether the unit before `=` is a punctuator.
#[tactic(auto, unfolding(crate::specs::Scan::takes_equals))]
fn takes_equals(unit: u16) -> bool
    ensures { result ≡ spec.takes_equals unit }
{
    u8::try_from(unit).is_ok_and(|byte| {
        matches!(
            byte,
            b'<' | b'>' | b'=' | b'!' | b'+' | b'-' | b'*' | b'/' | b'%' | b'&' | b'|' | b'^'
        )
    })
}

/// Whether the unit twice is a punctuator.
#[tactic(auto, unfolding(crate::specs::Scan::is_doubled))]
fn is_doubled(unit: u16) -> bool
    ensures { result ≡ spec.is_doubled unit }
{
    u8::try_from(unit).is_ok_and(|byte| matches!(
        byte,
        b'+' | b'-' | b'*' | b'<' | b'>' | b'&' | b'|' | b'?'
    ))
}

/// Whether the unit twice before `=` is a punctuator, but for `===`.
#[tactic(auto, unfolding(crate::specs::Scan::is_doubled_before_equals))]
fn is_doubled_before_equals(unit: u16) -> bool
    ensures { result ≡ spec.is_doubled_before_equals unit }
{
    u8::try_from(unit).is_ok_and(|byte| matches!(byte, b'*' | b'<' | b'>' | b'&' | b'|' | b'?'))
}

/// Whether the units are the punctuator of four units.
#[tactic(auto, unfolding(crate::specs::Scan::is_four))]
fn is_four(a: u16, b: u16, c: u16, d: u16) -> bool
    ensures { result ≡ spec.is_four a b c d }
{
    a == GREATER && b == GREATER && c == GREATER && d == EQUALS
}

/// Whether the units are a punctuator of three units.
#[tactic(auto, unfolding(crate::specs::Scan::is_three))]
fn is_three(a: u16, b: u16, c: u16) -> bool
    ensures { result ≡ spec.is_three a b c }
{
    if c == EQUALS {
        (a == b && is_doubled_before_equals(a))
            || (b == EQUALS && (a == EQUALS || a == EXCLAMATION_MARK))
    } else {
        a == b && b == c && (a == FULL_STOP || a == GREATER)
    }
}

/// Whether the first two units are a punctuator before the third; 0 stands for none.
#[tactic(auto, unfolding(crate::specs::Scan::is_two))]
fn is_two(a: u16, b: u16, c: u16) -> bool
    ensures { result ≡ spec.is_two a b c }
{
    (b == EQUALS && takes_equals(a))
        || (a == b && is_doubled(a))
        || (a == EQUALS && b == GREATER)
        || (a == QUESTION_MARK && b == FULL_STOP && !is_digit(c))
}

/// Whether the first unit is a punctuator before the second; 0 stands for none.
#[tactic(auto, unfolding(crate::specs::Scan::is_one))]
fn is_one(a: u16, b: u16) -> bool
    ensures { result ≡ spec.is_one a b }
{
    is_single(a) || (a == FULL_STOP && !is_digit(b))
}

/// The unit at a place, and 0 past the end.
fn unit_at(units: &[u16], at: usize) -> u16
    ensures { result ≡ slice_index units.now at }
{
    if at < units.len() { units[at] } else { 0 }
}

/// How many units the punctuator at the front has, and 0 for none.
#[tactic(auto, unfolding(crate::specs::Scan::punctuator_len))]
fn punctuator_len(units: &[u16]) -> usize
    ensures { result ≡ spec.punctuator_len units.now }
{
    let a = unit_at(units, 0);
    let b = unit_at(units, 1);
    let c = unit_at(units, 2);
    let d = unit_at(units, 3);
    if is_four(a, b, c, d) {
        4
    } else if is_three(a, b, c) {
        3
    } else if is_two(a, b, c) {
        2
    } else if is_one(a, b) {
        1
    } else {
        0
    }
}

/// The number at the front, which is all units of names there.
#[tactic(auto, unfolding(crate::specs::Scan::number_row), using(crate::proofs::NumberLaws::number_some))]
fn number_row(units: &[u16]) -> Option<Row>
    ensures value { result ≡ spec.number_row units.now }
    ensures within { IfSome result (λ row. (0 < row.units) × (row.units ≤ length units.now)) }
{
    let len = name_len(units);
    let literal = &units[..len];
    if is_safe_value(number_value(literal)) && may_end(literal, &units[len..]) {
        Some(Row {
            kind: TokenKind::Number,
            units: len,
        })
    } else {
        None
    }
}

/// Whether a template piece begins with the unit; `inside` says that the innermost open bracket is a `${`.
#[tactic(auto, unfolding(crate::specs::Scan::begins_piece))]
fn begins_piece(inside: bool, unit: u16) -> bool
    ensures { result ≡ spec.begins_piece inside unit }
{
    unit == BACKQUOTE || (inside && unit == RIGHT_BRACE)
}

/// The token at the front; `inside` says that the innermost open bracket is a `${`.
#[tactic(auto, unfolding(crate::specs::Scan::row), using(crate::proofs::Punctuators::punctuator_within))]
pub fn row_at_front(inside: bool, units: &[u16]) -> Option<Row>
    ensures value { result ≡ spec.row inside units.now }
    ensures within { IfSome result (λ row. (0 < row.units) × (row.units ≤ length units.now)) }
{
    let [first, rest @ ..] = units else {
        return None;
    };
    let first = *first;
    if is_name_start(first) {
        return Some(Row {
            kind: TokenKind::Name,
            units: name_len(rest) + 1,
        });
    }
    if is_quote(first) {
        let len = literal_len(rest, first)?;
        return Some(Row {
            kind: TokenKind::Text,
            units: len + 1,
        });
    }
    if is_digit(first) {
        return number_row(units);
    }
    if begins_piece(inside, first) {
        let len = literal_len(rest, BACKQUOTE)?;
        return Some(Row {
            kind: TokenKind::Template,
            units: len + 1,
        });
    }
    match punctuator_len(units) {
        0 => None,
        len => Some(Row {
            kind: TokenKind::Punctuator,
            units: len,
        }),
    }
}
