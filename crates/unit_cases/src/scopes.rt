use anyhow::Result;
use sqlite_items::Items;
use sr_ast::Binding;
use sr_names::scopes::scope;
use sr_text::Str;
use std::alloc::{AllocError, Global};
use std::fmt::Write;

const COMMA: u16 = 0x2C;

/// A name for each letter.
fn names_of(alloc: Global, letters: &[u16], from: usize) -> Result<Items<Binding>> {
    let mut names = Items::new(alloc);
    for (i, letter) in letters.iter().enumerate() {
        names.push(Binding {
            name: Str::of_units(alloc, &[*letter])?,
            from: from.saturating_add(i),
        })?;
    }
    Ok(names)
}

/// The places.
fn shown(alloc: Global, places: &[usize]) -> Result<String, AllocError> {
    let mut out = String::new(alloc);
    for place in places {
        out.push_str(if out.is_empty() { "" } else { " " })?;
        write!(out, "{place}")?;
    }
    Ok(out)
}

/// The places at which a scope declares a name twice, where each letter before the comma is a name that it declares lexically, and each
/// behind it one that it declares by `var`.
pub fn clashes(alloc: Global, text: &Str) -> Result<String> {
    let units = text.units();
    let Some(comma) = units.iter().position(|unit| *unit == COMMA) else {
        return Ok(String::from_str(alloc, "no comma")?);
    };
    let (lexical, rest) = units.split_at(comma);
    let by_var = match rest {
        [] => rest,
        [_, by_var @ ..] => by_var,
    };
    let lexical = names_of(alloc, lexical, 0)?;
    let by_var = names_of(alloc, by_var, comma.saturating_add(1))?;
    let mut places = Items::new(alloc);
    scope(alloc, &mut places, lexical, by_var.as_slice())?;
    Ok(shown(alloc, places.as_slice())?)
}
