use anyhow::{Context, Result, bail};
use sr_text::Str;
use std::alloc::{AllocError, Global};
use std::fmt::Write;

/// Puts the code units of a text at the end.
fn put_plain(units: &mut Vec<u16>, text: &str) -> Result<(), AllocError> {
    for unit in text.encode_utf16() {
        units.push(unit)?;
    }
    Ok(())
}

/// Puts what stands between `«` and `»` at the end: for `U+XXXX` the code unit of these four hexadecimal digits, and for `N*TEXT` the
/// text N times.
fn put_notation(units: &mut Vec<u16>, notation: &str) -> Result<()> {
    if let Some(digits) = notation.strip_prefix("U+") {
        units.push(u16::from_str_radix(digits, 16).context("in a code unit")?)?;
        return Ok(());
    }
    let Some((count, text)) = notation.split_once('*') else {
        bail!("{notation:?} is no notation");
    };
    for _ in 0..count.parse::<u32>().context("in a count")? {
        put_plain(units, text)?;
    }
    Ok(())
}

/// The text of a case: what is written there, in which `«U+XXXX»` stands for the code unit of these hexadecimal digits and `«N*TEXT»` for
/// N times the text.
pub fn case_text(alloc: Global, written: &str) -> Result<Str> {
    let mut units = Vec::new(alloc);
    for piece in written.split('«') {
        match piece.split_once('»') {
            Some((notation, plain)) => {
                put_notation(&mut units, notation)?;
                put_plain(&mut units, plain)?;
            }
            None => put_plain(&mut units, piece)?,
        }
    }
    Ok(Str::of_units(alloc, &units)?)
}

/// Puts code units at the end of an answer: those from U+0020 to U+007E as they are, and each other one as `«U+XXXX»`.
pub fn put_units(out: &mut String, units: &[u16]) -> Result<(), AllocError> {
    for unit in units {
        let unit = *unit;
        match char::from_u32(u32::from(unit)) {
            Some(character) if 0x20 <= unit && unit <= 0x7E => out.push(character)?,
            _ => write!(out, "«U+{unit:04X}»")?,
        }
    }
    Ok(())
}
