ghost use Rattle.std.specs.Prelude.{◌≡◌, IfOk, IfSome};
ghost use Rattle.std.specs.List.{All};
ghost use Rattle.sr_heap.specs.Live.{Extent, IsLive, extent};

use crate::methods::{Plain, empty};
use anyhow::{Context, Result};
use case_tables::split_cell;
use sr_heap::{Heap, ObjectKind};
use sr_tag::{ObjK, Ref};
use std::alloc::Global;

/// The object of a number, from 1, among those that were made.
fn object(made: &[Ref<ObjK>], number: &str) -> Result<Ref<ObjK>>
    ensures { IfOk result (λ r. (e : Extent) → All (IsLive e) made.now → IsLive e r) }
{
    let place = number.parse::<usize>()?.checked_sub(1);
    let object = made.get(place.context("objects are counted from 1")?);
    Ok(*object.context("no such object")?)
}

/// A prototype: the number of an object, or `null`.
fn prototype(made: &[Ref<ObjK>], word: &str) -> Result<Option<Ref<ObjK>>>
    ensures { IfOk result (λ o. (e : Extent) → All (IsLive e) made.now → IfSome o (IsLive e)) }
{
    if word == "null" {
        return Ok(None);
    }
    Ok(Some(object(made, word)?))
}

/// Makes objects with these prototypes; one is not extensible where a `!` stands behind its prototype.
fn make(alloc: Global, heap: &mut Heap<Plain, Plain>, words: &str) -> Result<Vec<Ref<ObjK>>>
    ensures { IfOk result (λ made. All (IsLive (extent heap.new)) made.items) }
{
    let mut made = Vec::new(alloc);
    for word in words.split(' ') {
        let open = word.strip_suffix('!');
        let to = prototype(made.as_slice(), open.unwrap_or(word))?;
        let at = heap.make_object(ObjectKind::Ordinary, to)?;
        if open.is_some() {
            heap.prevent(&at);
        }
        made.push(at)?;
    }
    Ok(made)
}

/// A prototype as a cell writes it.
fn push_prototype(text: &mut String, prototype: Option<Ref<ObjK>>) -> Result<()> {
    match prototype {
        Some(object) => {
            let number = object.place().saturating_add(1);
            write!(text, "{number}")?;
        }
        None => text.push_str("null")?,
    }
    Ok(())
}

/// Of each change `OBJECT=PROTOTYPE` whether it succeeds, and the prototype after. The objects come first.
pub fn changed(alloc: Global, case: &str) -> Result<String> {
    let (words, changes) = split_cell(case)?;
    let mut heap = empty(alloc);
    let made = make(alloc, &mut heap, words)?;
    let mut text = String::new(alloc);
    for change in changes.split(' ') {
        let (number, to) = change.split_once('=').context("an object and a prototype")?;
        let at = object(&made, number)?;
        let done = heap.set_prototype(&at, prototype(&made, to)?);
        if !text.is_empty() {
            text.push(' ')?;
        }
        write!(text, "{done} ")?;
        push_prototype(&mut text, heap.prototype(&at))?;
    }
    Ok(text)
}
