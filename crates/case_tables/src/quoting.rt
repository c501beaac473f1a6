use std::alloc::{AllocError, Global};

/// Appends a character of ASCII that is printed as it is, or says that the number is of no such one.
fn push_plain(text: &mut String, number: u16) -> Result<bool, AllocError> {
    match u8::try_from(number) {
        Ok(byte) if (byte == b' ' || byte.is_ascii_graphic()) && byte != b'"' && byte != b'\\' => {
            text.push(char::from(byte))?;
            Ok(true)
        }
        _ => Ok(false),
    }
}

/// A text in quotes, its bytes as a cell writes them: `\xHH` for each that is no printed character of ASCII.
pub fn quoted_bytes(alloc: Global, bytes: &[u8]) -> Result<String, AllocError> {
    let mut text = String::from_str(alloc, "\"")?;
    for byte in bytes {
        if !push_plain(&mut text, u16::from(*byte))? {
            write!(text, "\\x{byte:02X}")?;
        }
    }
    text.push('"')?;
    Ok(text)
}

/// A text in quotes, its code units as a cell writes them: `\uHHHH` for each that is no printed character of ASCII.
pub fn quoted_units(alloc: Global, units: &[u16]) -> Result<String, AllocError> {
    let mut text = String::from_str(alloc, "\"")?;
    for unit in units {
        if !push_plain(&mut text, *unit)? {
            write!(text, "\\u{unit:04X}")?;
        }
    }
    text.push('"')?;
    Ok(text)
}
