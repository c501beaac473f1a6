use crate::key::{CaseKey, key_of, push_key};
use anyhow::{Context, Result, bail, ensure};
use sr_props::Table;
use std::alloc::Global;

type Properties = Table<CaseKey, u32>;

/// The key and the value of a cell `KEY=VALUE`.
fn pair_of(alloc: Global, cell: &str) -> Result<(CaseKey, u32)> {
    let (key, value) = cell.split_once('=').context("a key and a value")?;
    Ok((key_of(alloc, key)?, value.parse::<u32>()?))
}

/// Adds a property.
fn add(alloc: Global, table: &mut Properties, cell: &str) -> Result<()> {
    let (key, value) = pair_of(alloc, cell)?;
    ensure!(table.get(&key).is_none(), "there already: {cell}");
    ensure!(table.add(key, value).is_ok(), "no memory");
    Ok(())
}

/// Sets a property, and gives its old value.
fn set(alloc: Global, table: &mut Properties, cell: &str) -> Result<u32> {
    let (key, value) = pair_of(alloc, cell)?;
    ensure!(table.get(&key).is_some(), "not there: {cell}");
    Ok(table.set(&key, value))
}

/// What an action answers: `+KEY=VALUE` adds and says nothing, `=KEY=VALUE` sets and gives the old value, `-KEY` removes
/// and gives the value, and `?KEY` gives it; no value is `none`.
fn act(alloc: Global, table: &mut Properties, action: &str) -> Result<Option<Option<u32>>> {
    if let Some(cell) = action.strip_prefix('+') {
        add(alloc, table, cell)?;
        return Ok(None);
    }
    if let Some(cell) = action.strip_prefix('=') {
        return Ok(Some(Some(set(alloc, table, cell)?)));
    }
    if let Some(cell) = action.strip_prefix('-') {
        return Ok(Some(table.remove(&key_of(alloc, cell)?)));
    }
    match action.strip_prefix('?') {
        Some(cell) => Ok(Some(table.get(&key_of(alloc, cell)?).copied())),
        None => bail!("no such action: {action}"),
    }
}

/// A property as a cell writes it.
fn push_entry(alloc: Global, text: &mut String, key: &CaseKey, value: u32) -> Result<()> {
    text.push(' ')?;
    push_key(alloc, text, key)?;
    write!(text, "={value}")?;
    Ok(())
}

/// The own keys after the actions, in brackets.
pub fn listed(alloc: Global, case: &str) -> Result<String> {
    let mut table = Table::new(alloc);
    for action in case.split(' ') {
        act(alloc, &mut table, action)?;
    }
    let mut text = String::from_str(alloc, "[")?;
    for key in &table.own_keys()? {
        if text.len() > 1 {
            text.push(' ')?;
        }
        push_key(alloc, &mut text, key)?;
    }
    text.push(']')?;
    Ok(text)
}

/// How many properties there are, and they, in the order of creation.
fn push_entries(alloc: Global, text: &mut String, table: &Properties) -> Result<()> {
    let count = table.len();
    write!(text, "{count}:")?;
    for place in 0..count {
        let (key, value) = table.entry(place).context("fewer properties than counted")?;
        push_entry(alloc, text, key, *value)?;
    }
    ensure!(table.entry(count).is_none(), "more properties than counted");
    Ok(())
}

/// What each action answers, and then the properties.
pub fn answered(alloc: Global, case: &str) -> Result<String> {
    let mut table = Table::new(alloc);
    let mut text = String::new(alloc);
    for action in case.split(' ') {
        match act(alloc, &mut table, action)? {
            None => {}
            Some(None) => text.push_str("none ")?,
            Some(Some(value)) => write!(text, "{value} ")?,
        }
    }
    push_entries(alloc, &mut text, &table)?;
    Ok(text)
}
