ghost use Rattle.std.specs.Prelude.{◌≡◌, ◌≤◌, ◌++◌, length, IfSome, IfOk, OnOk};
ghost use Rattle.std.specs.Char.Escape.{encode_utf16};
ghost use Rattle.sr_lex.specs.Scan as spec;
ghost use Rattle.sr_lex.specs.Scan.{IsCapped};

use crate::characters::{Meaning, closing_len, next_character};
use std::alloc::{AllocError, Global};

/// How many units a string literal has whose opening quote stands before these units, without that quote; between backquotes,
/// how many a template piece has without its first.
pub fn literal_len(units: &[u16], quote: u16) -> Option<usize>
    ensures value { result ≡ spec.literal_units quote units.now }
    ensures within { IfSome result (λ len. len ≤ length units.now) }
{
    let mut at = 0;
    for _turn in 0..units.len() {
        let rest = &units[at..];
        let closing = closing_len(quote, rest);
        if closing != 0 {
            return Some(at + closing);
        }
        at += next_character(quote, rest)?.units;
    }
    None
}

/// Adds the one or two code units of a code point (ECMA-262 11.1.1 UTF16EncodeCodePoint).
fn push_point(value: &mut Vec<u16>, point: u32) -> Result<(), AllocError>
    requires { point ≤ 0x110000 }
    ensures { OnOk result (value.new.items ≡ value.old.items ++ encode_utf16 point) }
{
    if point < 0x10000 {
        value.push(point as u16)?;
    } else {
        let above = point - 0x10000;
        value.push((0xD800 + above / 0x400) as u16)?;
        value.push((0xDC00 + above % 0x400) as u16)?;
    }
    Ok(())
}

/// Adds the code units that a character stands for.
fn push_meaning(value: &mut Vec<u16>, meaning: Meaning) -> Result<(), AllocError>
    requires { IsCapped meaning }
    ensures { OnOk result (value.new.items ≡ value.old.items ++ spec.meant_units meaning) }
{
    match meaning {
        Meaning::Nothing => Ok(()),
        Meaning::CodeUnit(unit) => {
            value.push(unit)?;
            Ok(())
        }
        Meaning::CodePoint(point) => push_point(value, point),
    }
}

/// The value of a string literal whose opening quote stands before these units; between backquotes, that of a template piece.
pub fn literal_value(alloc: Global, units: &[u16], quote: u16) -> Result<Vec<u16>, AllocError>
    ensures { IfOk result (λ value. spec.IsValueOf quote units.now value.items) }
{
    let mut value = Vec::new(alloc);
    let mut at = 0;
    for _turn in 0..units.len() {
        let rest = &units[at..];
        if closing_len(quote, rest) != 0 {
            break;
        }
        let Some(character) = next_character(quote, rest) else {
            break;
        };
        push_meaning(&mut value, character.meaning)?;
        at += character.units;
    }
    Ok(value)
}
