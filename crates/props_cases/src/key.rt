use anyhow::Result;
use sr_text::Str;
use std::alloc::Global;

/// A key of a property: a text, or a symbol by a number.
#[derive(Debug, Drop, PartialEq, Eq, Hash)]
pub enum CaseKey {
    Text(Str),
    Symbol(u32),
}

/// The key of a cell: `@` and a number are a symbol, and all else is a text.
pub fn key_of(alloc: Global, cell: &str) -> Result<CaseKey> {
    match cell.strip_prefix('@') {
        Some(number) => Ok(CaseKey::Symbol(number.parse::<u32>()?)),
        None => Ok(CaseKey::Text(Str::from_utf8(alloc, cell.as_bytes())?)),
    }
}

/// Writes a key as a cell does.
pub fn push_key(alloc: Global, text: &mut String, key: &CaseKey) -> Result<()> {
    match key {
        CaseKey::Symbol(number) => write!(text, "@{number}")?,
        CaseKey::Text(units) => text.push_str(std::str::from_utf8(&units.to_utf8(alloc)?)?)?,
    }
    Ok(())
}
