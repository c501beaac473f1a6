ghost use Rattle.std.specs.Prelude.{◌≡◌, ◌≤◌, ◌+◌, ◌^◌, ◌<◌, false, length, drop, IsTrue, IfSome, IfNone, option_map};
ghost use Rattle.sr_lex.specs.Scan as spec;
ghost use Rattle.sr_lex.specs.Closed.{NoClose};

use crate::units::{begins_with, is_line_end, is_white_space};

const EXCLAMATION_MARK: u16 = 0x21;

const NUMBER_SIGN: u16 = 0x23;

const ASTERISK: u16 = 0x2A;

const SLASH: u16 = 0x2F;

/// White space, line ends and comments at the front of some units.
#[derive(Clone, Copy)]
pub struct Blank {
    /// How many units they have.
    pub units: usize,
    /// Whether a line end is among them, or in a comment.
    pub line: bool,
}

const NOTHING: Blank = Blank {
    units: 0,
    line: false,
};

/// What stands at the front, and what follows it.
fn joined(front: Blank, next: Blank) -> Blank
    requires { front.units + next.units < 2 ^ 64 }
    ensures { result ≡ spec.join front next }
{
    Blank {
        units: front.units + next.units,
        line: front.line || next.line,
    }
}

/// The number of units before the first line end.
fn line_len(units: &[u16]) -> usize
    ensures value { result ≡ spec.line_len units.now }
    ensures within { result ≤ length units.now }
{
    for (i, unit) in units.iter().enumerate() {
        if is_line_end(*unit) {
            return i;
        }
    }
    units.len()
}

/// The comment to the end of the line whose first two units are at the front.
fn line_comment(units: &[u16]) -> Blank
    requires { 2 ≤ length units.now }
    ensures value { result ≡ spec.line_comment units.now }
    ensures within { result.units ≤ length units.now }
{
    Blank {
        units: line_len(&units[2..]) + 2,
        line: false,
    }
}

/// The comment whose `/*` stands before these units, if a `*/` is among them.
fn block_comment(units: &[u16]) -> Option<Blank>
    ensures value { result ≡ spec.block_from 0 false units.now }
    ensures within { IfSome result (λ blank. blank.units ≤ length units.now + 2) }
{
    let mut line = false;
    for (i, unit) in units.iter().enumerate() {
        if *unit == ASTERISK && begins_with(SLASH, &units[i + 1..]) {
            return Some(Blank { units: i + 4, line });
        }
        line = line || is_line_end(*unit);
    }
    None
}

/// The comment at the front, which is `/` and more. The flag says that no `/*` from here on is closed.
#[tactic(auto, unfolding(crate::specs::Scan::slash_comment))]
fn slash_comment(units: &[u16], unclosed: &mut bool) -> Blank
    requires { IsTrue unclosed.old → NoClose (drop 2 units.now) }
    ensures value { result ≡ spec.slash_comment units.now }
    ensures within { result.units ≤ length units.now }
    ensures unclosed { IsTrue unclosed.new → NoClose (drop 2 units.now) }
{
    if units.len() < 2 {
        return NOTHING;
    }
    if begins_with(SLASH, &units[1..]) {
        return line_comment(units);
    }
    if *unclosed || !begins_with(ASTERISK, &units[1..]) {
        return NOTHING;
    }
    match block_comment(&units[2..]) {
        Some(comment) => comment,
        None => {
            *unclosed = true;
            NOTHING
        }
    }
}

/// White space, a line end or a comment at the front; nothing where none is there.
#[tactic(auto, unfolding(crate::specs::Scan::piece))]
fn piece(units: &[u16], start: bool, unclosed: &mut bool) -> Blank
    requires { IsTrue unclosed.old → NoClose (drop 2 units.now) }
    ensures value { result ≡ spec.piece start units.now }
    ensures within { result.units ≤ length units.now }
    ensures unclosed { IsTrue unclosed.new → NoClose (drop 2 units.now) }
{
    match units {
        [] => NOTHING,
        [first, rest @ ..] => {
            if is_white_space(*first) {
                Blank {
                    units: 1,
                    line: false,
                }
            } else if is_line_end(*first) {
                Blank {
                    units: 1,
                    line: true,
                }
            } else if *first == SLASH {
                slash_comment(units, unclosed)
            } else if start && *first == NUMBER_SIGN && begins_with(EXCLAMATION_MARK, rest) {
                line_comment(units)
            } else {
                NOTHING
            }
        }
    }
}

/// All white space, line ends and comments at the front.
pub fn gap(units: &[u16], start: bool, unclosed: &mut bool) -> Blank
    requires { IsTrue unclosed.old → NoClose (drop 2 units.now) }
    ensures value { result ≡ spec.gap (length units.now) start units.now }
    ensures within { result.units ≤ length units.now }
    ensures unclosed { IsTrue unclosed.new → NoClose (drop 2 (drop result.units units.now)) }
{
    let mut gap = NOTHING;
    let mut first = start;
    for _turn in 0..units.len() {
        let next = piece(&units[gap.units..], first, unclosed);
        if next.units == 0 {
            return gap;
        }
        gap = joined(gap, next);
        first = false;
    }
    gap
}
