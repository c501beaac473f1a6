use anyhow::{Result, bail, ensure};
use case_tables::{bytes_of, integer_of, quoted_bytes, quoted_units, split_cell, units_of};
use sr_text::{Str, TextRefusal};
use std::alloc::Global;
use std::cmp::Ordering;
use std::collections::HashSet;

/// The string of a cell.
fn text(alloc: Global, cell: &str) -> Result<Str> {
    let units = units_of(alloc, cell)?;
    Ok(Str::of_units(alloc, &units)?)
}

/// Why there is no string. Want of memory is no answer, and ends the program.
fn refused(alloc: Global, refusal: TextRefusal) -> Result<String> {
    match refusal {
        TextRefusal::Memory => bail!("out of memory"),
        refusal => Ok(format!(in alloc; "{refusal}")?),
    }
}

/// The string that is had, or why there is none.
fn told(alloc: Global, outcome: Result<Str, TextRefusal>) -> Result<String> {
    match outcome {
        Ok(text) => Ok(quoted_units(alloc, text.units())?),
        Err(refusal) => refused(alloc, refusal),
    }
}

/// The length of the string that is had, or why there is none.
fn told_length(alloc: Global, outcome: Result<Str, TextRefusal>) -> Result<String> {
    match outcome {
        Ok(text) => {
            let units = text.units().len();
            Ok(format!(in alloc; "{units} units")?)
        }
        Err(refusal) => refused(alloc, refusal),
    }
}

/// A number of places that a cell writes.
fn count_of(cell: &str) -> Result<usize> {
    Ok(usize::try_from(integer_of(cell)?)?)
}

/// The letter `a`, this many times.
fn letters(alloc: Global, count: usize) -> Result<Result<Str, TextRefusal>> {
    let units = vec![in alloc; 97u16; count]?;
    Ok(Str::of_units(alloc, &units))
}

/// The string of bytes.
pub fn decoded(alloc: Global, case: &str) -> Result<String> {
    told(alloc, Str::from_utf8(alloc, &bytes_of(alloc, case)?))
}

/// The bytes of a string.
pub fn encoded(alloc: Global, case: &str) -> Result<String> {
    let bytes = text(alloc, case)?.to_utf8(alloc)?;
    Ok(quoted_bytes(alloc, &bytes)?)
}

/// The length of the string of the letter `a` this many times, and then of some bytes.
pub fn decoded_length(alloc: Global, case: &str) -> Result<String> {
    let (count, end) = split_cell(case)?;
    let mut bytes = vec![in alloc; b'a'; count_of(count)?]?;
    bytes.extend_from_slice(&bytes_of(alloc, end)?)?;
    told_length(alloc, Str::from_utf8(alloc, &bytes))
}

/// The length of the string of this many code units.
pub fn length(alloc: Global, case: &str) -> Result<String> {
    told_length(alloc, letters(alloc, count_of(case)?)?)
}

/// The length of two strings of so many code units, put together.
pub fn joined_length(alloc: Global, case: &str) -> Result<String> {
    let (left, right) = split_cell(case)?;
    let left = letters(alloc, count_of(left)?)??;
    let right = letters(alloc, count_of(right)?)??;
    told_length(alloc, left.concat(alloc, &right))
}

/// An integer in a radix.
pub fn numeral(alloc: Global, case: &str) -> Result<String> {
    let (value, radix) = split_cell(case)?;
    let value = integer_of(value)?;
    let radix = u32::try_from(integer_of(radix)?)?;
    ensure!(2 <= radix && radix <= 36, "no radix: {radix}");
    told(alloc, Ok(Str::digits(alloc, value, radix)?))
}

/// A number that may be missing.
fn shown_place(alloc: Global, place: Option<usize>) -> Result<String> {
    match place {
        Some(place) => Ok(format!(in alloc; "{place}")?),
        None => Ok(String::from_str(alloc, "none")?),
    }
}

/// The array index that a string is.
pub fn index_key(alloc: Global, case: &str) -> Result<String> {
    let key = text(alloc, case)?.index_key();
    shown_place(alloc, key.map(|key| key as usize))
}

/// Two strings, put together.
pub fn joined(alloc: Global, case: &str) -> Result<String> {
    let (left, right) = split_cell(case)?;
    told(
        alloc,
        text(alloc, left)?.concat(alloc, &text(alloc, right)?),
    )
}

/// The part of a string between two places.
pub fn sliced(alloc: Global, case: &str) -> Result<String> {
    let (whole, bounds) = split_cell(case)?;
    let (from, to) = split_cell(bounds)?;
    let whole = text(alloc, whole)?;
    let from = count_of(from)?;
    let to = count_of(to)?;
    ensure!(
        from <= to && to <= whole.units().len(),
        "no part: {from} to {to}"
    );
    told(alloc, Ok(whole.slice(alloc, from, to)?))
}

/// Where a part stands first from a place on, and last up to there.
pub fn places(alloc: Global, case: &str) -> Result<String> {
    let (whole, sought) = split_cell(case)?;
    let (part, from) = split_cell(sought)?;
    let whole = text(alloc, whole)?;
    let part = text(alloc, part)?;
    let from = count_of(from)?;
    let first = shown_place(alloc, whole.find(&part, from))?;
    let last = shown_place(alloc, whole.rfind(&part, from))?;
    Ok(format!(in alloc; "{first}, {last}")?)
}

/// The order of two strings, and the word for whether `==` holds.
pub fn order(alloc: Global, case: &str) -> Result<String> {
    let (left, right) = split_cell(case)?;
    let left = text(alloc, left)?;
    let right = text(alloc, right)?;
    let order = match left.compare(&right) {
        Ordering::Less => "less",
        Ordering::Equal => "equal",
        Ordering::Greater => "greater",
    };
    let equality = if left == right { "one" } else { "two" };
    Ok(format!(in alloc; "{order}, {equality}")?)
}

/// How many strings a set keeps of two, the first of which is put in as a clone.
pub fn kept(alloc: Global, case: &str) -> Result<String> {
    let (first, second) = split_cell(case)?;
    let first = text(alloc, first)?;
    let mut set = HashSet::new(alloc);
    set.insert(first.clone()?)?;
    set.insert(text(alloc, second)?)?;
    let same = set.contains(&first);
    let count = set.len();
    Ok(format!(in alloc; "{count}, the first there: {same}")?)
}
