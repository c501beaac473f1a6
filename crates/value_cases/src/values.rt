use anyhow::{Context, Result, bail, ensure};
use case_tables::{bytes_of, integer_of, quoted_units, units_of};
use sr_num::Num;
use sr_tag::{Path, Ref, Tag};
use sr_text::Str;
use sr_value::{Key, MadeNumber, MadeSymbol, Symbol, Value, WellKnown};
use std::alloc::Global;

/// The string of a cell.
fn text(alloc: Global, cell: &str) -> Result<Str> {
    Ok(Str::of_units(alloc, &units_of(alloc, cell)?)?)
}

fn well_known(name: &str) -> Result<WellKnown> {
    match name {
        "iterator" => Ok(WellKnown::Iterator),
        "toPrimitive" => Ok(WellKnown::ToPrimitive),
        "toStringTag" => Ok(WellKnown::ToStringTag),
        _ => bail!("no such symbol: {name}"),
    }
}

/// A made symbol: the path of its maker in quotes, its number there, and its description, where it has one.
fn made(alloc: Global, cell: &str) -> Result<Symbol> {
    let (path, rest) = cell.split_once(' ').context("the path of the maker")?;
    let (number, description) = match rest.split_once(' ') {
        Some((number, description)) => (number, Some(text(alloc, description)?)),
        None => (rest, None),
    };
    let path = Path::read(alloc, &bytes_of(alloc, path)?)?;
    let number = number.parse::<u64>()?;
    ensure!(1 <= number, "no made symbol has the number 0");
    let made = MadeSymbol::of(alloc, path, MadeNumber::of(number), description)?;
    Ok(Symbol::Made(made))
}

/// The symbol of a cell, or none where it is of another value.
fn symbol(alloc: Global, cell: &str) -> Result<Option<Symbol>> {
    if let Some(name) = cell.strip_prefix("@@") {
        return Ok(Some(Symbol::WellKnown(well_known(name)?)));
    }
    if let Some(key) = cell.strip_prefix("registered ") {
        return Ok(Some(Symbol::Registered(text(alloc, key)?)));
    }
    match cell.strip_prefix("made ") {
        Some(rest) => Ok(Some(made(alloc, rest)?)),
        None => Ok(None),
    }
}

/// An object: the number of its realm and its place there.
fn object(cell: &str) -> Result<Value> {
    let (number, place) = cell.split_once(':').context("a realm and a place")?;
    let number = u32::try_from(integer_of(number)?)?;
    let place = usize::try_from(integer_of(place)?)?;
    Ok(Value::Obj(Ref::at(Tag { number }, place)))
}

/// The value of a cell that is no plain word: a symbol, an object, a text or an integer.
fn composed(alloc: Global, cell: &str) -> Result<Value> {
    if let Some(symbol) = symbol(alloc, cell)? {
        return Ok(Value::Sym(symbol));
    }
    if let Some(rest) = cell.strip_prefix("object ") {
        return object(rest);
    }
    if cell.starts_with('"') {
        return Ok(Value::Str(text(alloc, cell)?));
    }
    Ok(Value::Num(Num::of(integer_of(cell)?)?))
}

/// The value of a cell.
pub fn value(alloc: Global, cell: &str) -> Result<Value> {
    match cell {
        "default" => Ok(Value::default()),
        "undefined" => Ok(Value::Undefined),
        "null" => Ok(Value::Null),
        "false" => Ok(Value::Bool(false)),
        "true" => Ok(Value::Bool(true)),
        "NaN" => Ok(Value::Num(Num::nan())),
        _ => composed(alloc, cell),
    }
}

/// The key of a cell.
pub fn key(alloc: Global, cell: &str) -> Result<Key> {
    match symbol(alloc, cell)? {
        Some(symbol) => Ok(Key::Sym(symbol)),
        None => Ok(Key::Text(text(alloc, cell)?)),
    }
}

/// A number as a cell writes it.
pub fn shown_number(alloc: Global, number: Num) -> Result<String> {
    match number.get() {
        Some(integer) => Ok(format!(in alloc; "{integer}")?),
        None => Ok(String::from_str(alloc, "NaN")?),
    }
}

/// A string as a cell writes it.
pub fn shown_text(alloc: Global, text: &Str) -> Result<String> {
    Ok(quoted_units(alloc, text.units())?)
}

/// A value as a cell writes it, where an operator may give it.
pub fn shown(alloc: Global, value: &Value) -> Result<String> {
    match value {
        Value::Undefined => Ok(String::from_str(alloc, "undefined")?),
        Value::Bool(truth) => Ok(format!(in alloc; "{truth}")?),
        Value::Num(number) => shown_number(alloc, *number),
        Value::Str(text) => shown_text(alloc, text),
        other => Ok(format!(in alloc; "{other:?}")?),
    }
}
