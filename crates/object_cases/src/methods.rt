ghost use Rattle.std.specs.Prelude.{◌≡◌};
ghost use Rattle.sr_heap.specs.Live.{IsLive, extent};

use crate::cells::{descriptor, key, shown_key, shown_property};
use anyhow::{Result, bail};
use sr_heap::{Heap, ObjectKind};
use sr_tag::{ObjK, Ref, Tag};
use sr_value::Key;
use std::alloc::Global;

/// The code of functions here, and the built-in functions. There are none of either.
#[derive(Drop)]
pub struct Plain;

/// A realm with no objects.
pub fn empty(alloc: Global) -> Heap<Plain, Plain> {
    Heap::new(alloc, Tag { number: 0 })
}

/// Defines the property of the first six cells on an object, or, where the first is `none`, none and it gives the rest of the
/// cells back.
fn prepare<'a>(
    alloc: Global,
    heap: &mut Heap<Plain, Plain>,
    at: &Ref<ObjK>,
    key: Key,
    cells: &'a str,
) -> Result<&'a str>
    requires { IsLive (extent heap.old) at.now }
    ensures { extent heap.new ≡ extent heap.old }
{
    if let Some(rest) = cells.strip_prefix("open") {
        return Ok(rest.trim_start());
    }
    if let Some(rest) = cells.strip_prefix("closed") {
        heap.prevent(at);
        return Ok(rest.trim_start());
    }
    let (d, rest) = descriptor(alloc, cells)?;
    if !heap.define(at, key, d)? {
        bail!("the old property is not defined");
    }
    Ok(rest)
}

/// Whether a descriptor is defined on an object, and the property after: the old property, `open` or `closed` where there is none
/// and the object is extensible or not, and then the descriptor.
pub fn defined(alloc: Global, case: &str) -> Result<String> {
    let mut heap = empty(alloc);
    let at = heap.make_object(ObjectKind::Ordinary, None)?;
    let name = key(alloc, "\"p\"")?;
    let rest = prepare(alloc, &mut heap, &at, name.clone()?, case)?;
    let (d, _) = descriptor(alloc, rest)?;
    let done = heap.define(&at, name.clone()?, d)?;
    let after = shown_property(alloc, heap.get_own(&at, &name))?;
    Ok(format!(in alloc; "{done} {after}")?)
}

/// Whether a property is deleted, and the property after.
pub fn deleted(alloc: Global, case: &str) -> Result<String> {
    let mut heap = empty(alloc);
    let at = heap.make_object(ObjectKind::Ordinary, None)?;
    let name = key(alloc, "\"p\"")?;
    prepare(alloc, &mut heap, &at, name.clone()?, case)?;
    let done = heap.delete(&at, &name);
    let after = shown_property(alloc, heap.get_own(&at, &name))?;
    Ok(format!(in alloc; "{done} {after}")?)
}

/// Adds a property of the key in a cell, or deletes that of the key behind a `-`.
fn change(alloc: Global, heap: &mut Heap<Plain, Plain>, at: &Ref<ObjK>, cell: &str) -> Result<()>
    requires { IsLive (extent heap.old) at.now }
    ensures { extent heap.new ≡ extent heap.old }
{
    if let Some(name) = cell.strip_prefix('-') {
        heap.delete(at, &key(alloc, name)?);
        return Ok(());
    }
    let (d, _) = descriptor(alloc, "1  +  .  .  +  +")?;
    heap.define(at, key(alloc, cell)?, d)?;
    Ok(())
}

/// The own keys after properties are added and deleted, in the order of the cells, one space between two.
pub fn listed(alloc: Global, case: &str) -> Result<String> {
    let mut heap = empty(alloc);
    let at = heap.make_object(ObjectKind::Ordinary, None)?;
    for cell in case.split_whitespace() {
        change(alloc, &mut heap, &at, cell)?;
    }
    let mut shown = String::new(alloc);
    for key in &heap.own_keys(&at)? {
        if !shown.is_empty() {
            shown.push(' ')?;
        }
        shown.push_str(shown_key(alloc, key)?.as_str())?;
    }
    Ok(shown)
}
