ghost use Rattle.std.specs.Prelude.{◌≡◌, IfOk};

use crate::values::{key, value};
use anyhow::Result;
use case_tables::{row_of, split_cell};
use sr_value::{Key, Value, same_value, same_value_zero, strict_equal};
use std::alloc::{AllocError, Global};

/// An equality of values (ECMA-262 7.2).
#[derive(Clone, Copy)]
enum Equality {
    SameValue,
    SameValueZero,
    Strict,
}

impl Equality {
    fn holds(self, left: &Value, right: &Value) -> bool {
        match self {
            Equality::SameValue => same_value(left, right),
            Equality::SameValueZero => same_value_zero(left, right),
            Equality::Strict => strict_equal(left, right),
        }
    }
}

/// The cells of the table that an equality holds to be one with a value.
fn equal_cells(alloc: Global, table: &str, left: &Value, equality: Equality) -> Result<String> {
    let mut cells = String::from_str(alloc, "[")?;
    for (cell, _) in table.lines().filter_map(row_of) {
        if equality.holds(left, &value(alloc, cell)?) {
            if cells.len() > 1 {
                cells.push_str("; ")?;
            }
            cells.push_str(cell)?;
        }
    }
    cells.push(']')?;
    Ok(cells)
}

/// The cells of the table that SameValue, SameValueZero and strict equality hold to be one with a value.
pub fn equals(alloc: Global, table: &str, case: &str) -> Result<String> {
    let left = value(alloc, case)?;
    let same = equal_cells(alloc, table, &left, Equality::SameValue)?;
    let same_zero = equal_cells(alloc, table, &left, Equality::SameValueZero)?;
    let strict = equal_cells(alloc, table, &left, Equality::Strict)?;
    Ok(format!(in alloc; "{same} {same_zero} {strict}")?)
}

/// What a clone of a value says.
fn copied(value: &Value) -> Result<Value, AllocError>
    ensures { IfOk result (λ copy. copy ≡ value.now) }
{
    value.clone()
}

/// What a clone of a key says.
fn copied_key(key: &Key) -> Result<Key, AllocError>
    ensures { IfOk result (λ copy. copy ≡ key.now) }
{
    key.clone()
}

/// The word for one value, or for two.
fn counted(alloc: Global, one: bool) -> Result<String> {
    Ok(String::from_str(alloc, if one { "one" } else { "two" })?)
}

/// Whether a clone of a value and another value are one to SameValue.
pub fn cloned(alloc: Global, case: &str) -> Result<String> {
    let (left, right) = split_cell(case)?;
    let copy = copied(&value(alloc, left)?)?;
    counted(alloc, same_value(&copy, &value(alloc, right)?))
}

/// Whether a clone of a key and another key are one to `==`.
pub fn cloned_key(alloc: Global, case: &str) -> Result<String> {
    let (left, right) = split_cell(case)?;
    let copy = copied_key(&key(alloc, left)?)?;
    counted(alloc, copy == key(alloc, right)?)
}
