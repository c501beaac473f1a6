ghost use Rattle.std.specs.Prelude.{◌≡◌, ◌≤◌, ◌<◌, ◌+◌, ◌&&◌, length, take, drop, min, IfSome};
ghost use Rattle.sr_lex.specs.Scan as spec;
ghost use Rattle.sr_lex.specs.Units.{begins_with};
ghost use Rattle.sr_lex.specs.Templates.{dollar_sign, left_brace};
ghost use Rattle.sr_lex.specs.Scan.{IsWithin};

use crate::units::{
    BACKQUOTE, CARRIAGE_RETURN, LEFT_BRACE, LINE_FEED, RIGHT_BRACE, begins_with, begins_with_digit,
    digit_value, is_digit, is_hex_digit, is_line_end, single_escape,
};

const DIGIT_ZERO: u16 = 0x30;

const DOLLAR_SIGN: u16 = 0x24;

const BACKSLASH: u16 = 0x5C;

const LETTER_U: u16 = 0x75;

const LETTER_X: u16 = 0x78;

const LAST_POINT: u32 = 0x10FFFF;

/// Hexadecimal digits at the front of some units.
#[derive(Clone, Copy)]
pub struct HexRun {
    /// How many there are.
    pub digits: usize,
    /// Their value, or 0x110000 where it is more than 0x10FFFF.
    pub value: u32,
}

/// What a character of a string literal or a template piece stands for (ECMA-262 12.9.4.2, 12.9.6).
#[derive(Clone, Copy)]
pub enum Meaning {
    /// No units: a line continuation.
    Nothing,
    /// One unit.
    CodeUnit(u16),
    /// The one or two units of a code point.
    CodePoint(u32),
}

/// A character of a string literal or a template piece.
#[derive(Clone, Copy)]
pub struct Character {
    /// How many units it has.
    pub units: usize,
    /// What it stands for.
    pub meaning: Meaning,
}

fn character_of(units: usize, meaning: Meaning) -> Character
    ensures { result ≡ spec.character_of units meaning }
{
    Character { units, meaning }
}

/// The first units, at most so many.
fn front(units: &[u16], most: usize) -> &[u16]
    ensures value { result.now ≡ take most units.now }
    ensures len { length result.now ≡ min most (length units.now) }
{
    if most < units.len() {
        &units[..most]
    } else {
        units
    }
}

/// All hexadecimal digits at the front.
fn hex_run(units: &[u16]) -> HexRun
    ensures value { result ≡ spec.hex_from 0 0 units.now }
    ensures within { result.digits ≤ length units.now }
    ensures capped { result.value ≤ 0x110000 }
{
    let mut value = 0;
    for (i, unit) in units.iter().enumerate() {
        if !is_hex_digit(*unit) {
            return HexRun { digits: i, value };
        }
        value = (value * 16 + digit_value(*unit)).min(LAST_POINT + 1);
    }
    HexRun {
        digits: units.len(),
        value,
    }
}

/// The escape whose `\x` stands before these units.
#[tactic(auto, unfolding(crate::specs::Scan::hex_escape))]
fn hex_escape(units: &[u16]) -> Option<Character>
    ensures value { result ≡ spec.hex_escape units.now }
    ensures within { IfSome result (λ c. IsWithin (length units.now + 2) c) }
{
    let run = hex_run(front(units, 2));
    if run.digits == 2 {
        Some(character_of(4, Meaning::CodePoint(run.value)))
    } else {
        None
    }
}

/// The escape whose `\u{` stands before these units.
#[tactic(auto, unfolding(crate::specs::Scan::braced_escape))]
fn braced_escape(units: &[u16]) -> Option<Character>
    ensures value { result ≡ spec.braced_escape units.now }
    ensures within { IfSome result (λ c. IsWithin (length units.now + 3) c) }
{
    let run = hex_run(units);
    if 0 < run.digits && run.value <= LAST_POINT && begins_with(RIGHT_BRACE, &units[run.digits..]) {
        Some(character_of(run.digits + 4, Meaning::CodePoint(run.value)))
    } else {
        None
    }
}

/// The escape whose `\u` stands before these units.
#[tactic(auto, unfolding(crate::specs::Scan::unicode_escape))]
fn unicode_escape(units: &[u16]) -> Option<Character>
    ensures value { result ≡ spec.unicode_escape units.now }
    ensures within { IfSome result (λ c. IsWithin (length units.now + 2) c) }
{
    if begins_with(LEFT_BRACE, units) {
        return braced_escape(&units[1..]);
    }
    let run = hex_run(front(units, 4));
    if run.digits == 4 {
        Some(character_of(6, Meaning::CodePoint(run.value)))
    } else {
        None
    }
}

/// The units of a line continuation whose backslash stands before these units, the first of which is a line end.
fn continuation_len(first: u16, rest: &[u16]) -> usize
    ensures value { result ≡ spec.continuation_len first rest.now }
    ensures within { result ≤ length rest.now + 2 }
    ensures some { 0 < result }
{
    if first == CARRIAGE_RETURN && begins_with(LINE_FEED, rest) {
        3
    } else {
        2
    }
}

/// The escape whose backslash stands before these units, if it is none of `\b \t \n \v \f \r`.
#[tactic(auto, unfolding(crate::specs::Scan::other_escape))]
fn other_escape(units: &[u16]) -> Option<Character>
    ensures value { result ≡ spec.other_escape units.now }
    ensures within { IfSome result (λ c. IsWithin (length units.now + 1) c) }
{
    let [first, rest @ ..] = units else {
        return None;
    };
    let first = *first;
    if is_digit(first) {
        if first == DIGIT_ZERO && !begins_with_digit(rest) {
            return Some(character_of(2, Meaning::CodeUnit(0)));
        }
        return None;
    }
    if first == LETTER_X {
        return hex_escape(rest);
    }
    if first == LETTER_U {
        return unicode_escape(rest);
    }
    if is_line_end(first) {
        return Some(character_of(continuation_len(first, rest), Meaning::Nothing));
    }
    Some(character_of(2, Meaning::CodeUnit(first)))
}

/// The escape whose backslash stands before these units.
#[tactic(auto, unfolding(crate::specs::Scan::escape))]
fn escape(units: &[u16]) -> Option<Character>
    ensures value { result ≡ spec.escape units.now }
    ensures within { IfSome result (λ c. IsWithin (length units.now + 1) c) }
{
    let [first, ..] = units else {
        return None;
    };
    match single_escape(*first) {
        Some(value) => Some(character_of(2, Meaning::CodeUnit(value))),
        None => other_escape(units),
    }
}

/// A unit of a template that begins no escape, before these units; CR and CR LF stand for LF.
fn template_unit(first: u16, rest: &[u16]) -> Character
    ensures value { result ≡ spec.template_unit first rest.now }
    ensures within { IsWithin (length rest.now + 1) result }
{
    if first == CARRIAGE_RETURN {
        let units = if begins_with(LINE_FEED, rest) { 2 } else { 1 };
        return character_of(units, Meaning::CodeUnit(LINE_FEED));
    }
    character_of(1, Meaning::CodeUnit(first))
}

/// The character at the front between these quotes, which closes nothing.
#[tactic(auto, unfolding(crate::specs::Scan::character))]
pub fn next_character(quote: u16, units: &[u16]) -> Option<Character>
    ensures value { result ≡ spec.character quote units.now }
    ensures within { IfSome result (λ c. IsWithin (length units.now) c) }
{
    let [first, rest @ ..] = units else {
        return None;
    };
    let first = *first;
    if first == BACKSLASH {
        return escape(rest);
    }
    if quote == BACKQUOTE {
        return Some(template_unit(first, rest));
    }
    if first == LINE_FEED || first == CARRIAGE_RETURN {
        return None;
    }
    Some(character_of(1, Meaning::CodeUnit(first)))
}

/// Whether these units begin with `${`.
fn begins_substitution(units: &[u16]) -> bool
    ensures { result ≡ (begins_with dollar_sign units.now && begins_with left_brace (drop 1 units.now)) }
{
    match units {
        [first, rest @ ..] => *first == DOLLAR_SIGN && begins_with(LEFT_BRACE, rest),
        [] => false,
    }
}

/// How many units close a literal between these quotes at the front, and 0 where nothing does.
#[tactic(auto, unfolding(crate::specs::Scan::closing_len))]
pub fn closing_len(quote: u16, units: &[u16]) -> usize
    ensures value { result ≡ spec.closing_len quote units.now }
    ensures within { result ≤ length units.now }
{
    if begins_with(quote, units) {
        1
    } else if quote == BACKQUOTE && begins_substitution(units) {
        2
    } else {
        0
    }
}
