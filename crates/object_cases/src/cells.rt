ghost use Rattle.std.specs.Prelude.{IfOk, IfSome};
ghost use Rattle.sr_heap.specs.Live.{Extent, IsLiveDescriptor, IsLiveValue};

use anyhow::{Result, bail};
use case_tables::{integer_of, quoted_units, units_of};
use sr_num::Num;
use sr_text::Str;
use sr_value::{Descriptor, Key, Property, Symbol, Value};
use std::alloc::Global;

/// The first cell, and the others, if there are more.
fn next_cell(cells: &str) -> (&str, &str) {
    match cells.split_once("  ") {
        Some((cell, others)) => (cell, others.trim_start()),
        None => (cells, ""),
    }
}

pub fn text(alloc: Global, cell: &str) -> Result<Str> {
    Ok(Str::of_units(alloc, &units_of(alloc, cell)?)?)
}

/// A value: `undefined`, `NaN`, an integer, a string, or `@` and the string of a registered symbol.
pub fn value(alloc: Global, cell: &str) -> Result<Value>
    ensures { IfOk result (λ v. (e : Extent) → IsLiveValue e v) }
{
    if let Some(name) = cell.strip_prefix('@') {
        return Ok(Value::Sym(Symbol::Registered(text(alloc, name)?)));
    }
    if cell.starts_with('"') {
        return Ok(Value::Str(text(alloc, cell)?));
    }
    match cell {
        "undefined" => Ok(Value::Undefined),
        "NaN" => Ok(Value::Num(Num::nan())),
        _ => Ok(Value::Num(Num::of(integer_of(cell)?)?)),
    }
}

/// A key: a string, or `@` and the string of a registered symbol.
pub fn key(alloc: Global, cell: &str) -> Result<Key> {
    match cell.strip_prefix('@') {
        Some(name) => Ok(Key::Sym(Symbol::Registered(text(alloc, name)?))),
        None => Ok(Key::Text(text(alloc, cell)?)),
    }
}

/// A field that holds a value, or is absent.
fn value_field(alloc: Global, cell: &str) -> Result<Option<Value>>
    ensures { IfOk result (λ o. (e : Extent) → IfSome o (IsLiveValue e)) }
{
    if cell == "." {
        return Ok(None);
    }
    Ok(Some(value(alloc, cell)?))
}

/// A field that holds a flag, `+` or `-`, or is absent.
fn flag_field(cell: &str) -> Result<Option<bool>> {
    match cell {
        "." => Ok(None),
        "+" => Ok(Some(true)),
        "-" => Ok(Some(false)),
        _ => bail!("no flag: {cell}"),
    }
}

/// A descriptor, of six cells: its value, writable, get, set, enumerable, configurable, `.` where one is absent. Then come the
/// cells that are left.
pub fn descriptor(alloc: Global, cells: &str) -> Result<(Descriptor, &str)>
    ensures { IfOk result (λ p. (e : Extent) → IsLiveDescriptor e p.0) }
{
    let (value, cells) = next_cell(cells);
    let (writable, cells) = next_cell(cells);
    let (get, cells) = next_cell(cells);
    let (set, cells) = next_cell(cells);
    let (enumerable, cells) = next_cell(cells);
    let (configurable, cells) = next_cell(cells);
    let d = Descriptor {
        value: value_field(alloc, value)?,
        writable: flag_field(writable)?,
        get: value_field(alloc, get)?,
        set: value_field(alloc, set)?,
        enumerable: flag_field(enumerable)?,
        configurable: flag_field(configurable)?,
    };
    Ok((d, cells))
}

/// A flag as a cell writes it.
fn shown_flag(flag: bool) -> &'static str {
    if flag { "+" } else { "-" }
}

/// A value as a cell writes it.
pub fn shown(alloc: Global, value: &Value) -> Result<String> {
    match value {
        Value::Undefined => Ok(String::from_str(alloc, "undefined")?),
        Value::Num(number) => match number.get() {
            Some(integer) => Ok(format!(in alloc; "{integer}")?),
            None => Ok(String::from_str(alloc, "NaN")?),
        },
        Value::Str(text) => Ok(quoted_units(alloc, text.units())?),
        Value::Sym(Symbol::Registered(name)) => {
            let name = quoted_units(alloc, name.units())?;
            Ok(format!(in alloc; "@{name}")?)
        }
        _ => bail!("no such value is in these tables"),
    }
}

/// A key as a cell writes it.
pub fn shown_key(alloc: Global, key: &Key) -> Result<String> {
    match key {
        Key::Text(text) => Ok(quoted_units(alloc, text.units())?),
        Key::Sym(Symbol::Registered(name)) => {
            let name = quoted_units(alloc, name.units())?;
            Ok(format!(in alloc; "@{name}")?)
        }
        Key::Sym(_) => bail!("no such key is in these tables"),
    }
}

/// A property by the fields of a descriptor, one space apart, or `none`.
pub fn shown_property(alloc: Global, property: Option<&Property>) -> Result<String> {
    match property {
        Some(
            Property::Data {
                writable,
                enumerable,
                configurable,
                value,
            },
        ) => {
            let value = shown(alloc, value)?;
            let (w, e, c) = (
                shown_flag(*writable),
                shown_flag(*enumerable),
                shown_flag(*configurable),
            );
            Ok(format!(in alloc; "{value} {w} . . {e} {c}")?)
        }
        Some(
            Property::Accessor {
                enumerable,
                configurable,
                get,
                set,
            },
        ) => {
            let (get, set) = (shown(alloc, get)?, shown(alloc, set)?);
            let (e, c) = (shown_flag(*enumerable), shown_flag(*configurable));
            Ok(format!(in alloc; ". . {get} {set} {e} {c}")?)
        }
        None => Ok(String::from_str(alloc, "none")?),
    }
}
