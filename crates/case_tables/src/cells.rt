use anyhow::{Context, Result, bail};
use std::alloc::Global;

/// What stands for what follows a backslash: a byte, a code unit or a line feed.
enum Escape {
    Byte(u8),
    Unit(u16),
}

/// Takes off the quotes of a cell that holds a text.
fn unquoted(cell: &str) -> Result<&str> {
    cell.strip_prefix('"')
        .and_then(|rest| rest.strip_suffix('"'))
        .context("a text stands in quotes")
}

/// The first characters, as a number in hexadecimal digits, and what follows them.
fn hexadecimal(text: &str, count: usize) -> Result<(u16, &str)> {
    let (digits, rest) = text.split_at_checked(count).context("too few digits")?;
    Ok((u16::from_str_radix(digits, 16)?, rest))
}

/// What is written behind a backslash: `xHH` for a byte, `uHHHH` for a code unit, `n` for a line feed.
fn after_backslash(text: &str) -> Result<(Escape, &str)> {
    if let Some(text) = text.strip_prefix('x') {
        let (byte, rest) = hexadecimal(text, 2)?;
        return Ok((Escape::Byte(u8::try_from(byte)?), rest));
    }
    if let Some(text) = text.strip_prefix('u') {
        let (unit, rest) = hexadecimal(text, 4)?;
        return Ok((Escape::Unit(unit), rest));
    }
    match text.strip_prefix('n') {
        Some(rest) => Ok((Escape::Byte(b'\n'), rest)),
        None => bail!("no such escape: {text}"),
    }
}

/// The bytes of a text in quotes, in UTF-8 where they are not written as `\xHH`.
pub fn bytes_of(alloc: Global, cell: &str) -> Result<Vec<u8>> {
    let mut bytes = Vec::new(alloc);
    let mut pieces = unquoted(cell)?.split('\\');
    if let Some(plain) = pieces.next() {
        bytes.extend_from_slice(plain.as_bytes())?;
    }
    for piece in pieces {
        match after_backslash(piece)? {
            (Escape::Byte(byte), rest) => {
                bytes.push(byte)?;
                bytes.extend_from_slice(rest.as_bytes())?;
            }
            (Escape::Unit(_), _) => bail!("a code unit among bytes: {cell}"),
        }
    }
    Ok(bytes)
}

/// Appends the code units of a plain text.
fn push_plain(units: &mut Vec<u16>, plain: &str) -> Result<()> {
    units.extend(plain.encode_utf16())?;
    Ok(())
}

/// The code units of a text in quotes, in UTF-16 where they are not written as `\uHHHH`; `\xHH` stands for one below 256.
pub fn units_of(alloc: Global, cell: &str) -> Result<Vec<u16>> {
    let mut units = Vec::new(alloc);
    let mut pieces = unquoted(cell)?.split('\\');
    if let Some(plain) = pieces.next() {
        push_plain(&mut units, plain)?;
    }
    for piece in pieces {
        let (escape, rest) = after_backslash(piece)?;
        units.push(match escape {
            Escape::Byte(byte) => u16::from(byte),
            Escape::Unit(unit) => unit,
        })?;
        push_plain(&mut units, rest)?;
    }
    Ok(units)
}

/// The integer that a cell writes.
pub fn integer_of(cell: &str) -> Result<i64> {
    cell.parse::<i64>()
        .context(format_args!("no integer: {cell}"))
}
