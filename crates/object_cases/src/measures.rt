//! Measures: one operation, many times over, on an object of so many properties. The time is taken from outside.

ghost use Rattle.std.specs.Prelude.{◌≡◌, IfOk};
ghost use Rattle.sr_heap.specs.Live.{IsLive, extent};

use crate::methods::{Plain, empty};
use anyhow::{Context, Result, bail};
use sr_heap::{Found, Heap, ObjectKind};
use sr_tag::{ObjK, Ref};
use sr_text::Str;
use sr_value::{Descriptor, Key, Value};
use std::alloc::Global;

/// How many prototypes stand between the object that is read and the one that has the properties.
const PROTOTYPES: usize = 4;

/// So many keys, of which no two are equal.
fn keys(alloc: Global, count: usize) -> Result<Vec<Key>> {
    let mut keys = Vec::new(alloc);
    for number in 0..count {
        let name = format!(in alloc; "key{number}")?;
        keys.push(Key::Text(Str::from_utf8(alloc, name.as_bytes())?))?;
    }
    Ok(keys)
}

/// Writes a property of each key.
fn write(heap: &mut Heap<Plain, Plain>, at: &Ref<ObjK>, keys: &[Key]) -> Result<()>
    requires { IsLive (extent heap.old) at.now }
    ensures { extent heap.new ≡ extent heap.old }
{
    for key in keys {
        let d = Descriptor {
            value: Some(Value::Null),
            writable: Some(true),
            get: None,
            set: None,
            enumerable: Some(true),
            configurable: Some(true),
        };
        heap.define(at, key.clone()?, d)?;
    }
    Ok(())
}

/// Reads the property of each key, and tells how many were found.
fn read(heap: &Heap<Plain, Plain>, at: &Ref<ObjK>, keys: &[Key]) -> Result<usize>
    requires { IsLive (extent heap.now) at.now }
{
    let mut found = 0usize;
    for key in keys {
        if let Found::Data(_) = heap.find(at, key)? {
            found = found.saturating_add(1);
        }
    }
    Ok(found)
}

/// An object below others, the last of which has a property of each key.
fn filled(alloc: Global, keys: &[Key], prototypes: usize) -> Result<(Heap<Plain, Plain>, Ref<ObjK>)>
    ensures { IfOk result (λ p. IsLive (extent p.0) p.1) }
{
    let mut heap = empty(alloc);
    let mut at = heap.make_object(ObjectKind::Ordinary, None)?;
    write(&mut heap, &at, keys)?;
    for _ in 0..prototypes {
        at = heap.make_object(ObjectKind::Ordinary, Some(at))?;
    }
    Ok((heap, at))
}

/// Carries an operation out over each key, so many rounds, and tells how many properties were found: `read` of an own property,
/// `above` of one that stands four prototypes up, `write` of one that is there, and `add` of each to an object that is new each round.
pub fn measured(alloc: Global, operation: &str, size: usize, rounds: usize) -> Result<usize> {
    let keys = keys(alloc, size)?;
    let prototypes = if operation == "above" { PROTOTYPES } else { 0 };
    let (mut heap, at) = filled(alloc, &keys, prototypes)?;
    let mut found = 0usize;
    for _ in 0..rounds {
        match operation {
            "read" | "above" => found = found.saturating_add(read(&heap, &at, &keys)?),
            "write" => write(&mut heap, &at, &keys)?,
            "add" => {
                filled(alloc, &keys, 0)?;
            }
            _ => bail!("no such operation: {operation}"),
        }
    }
    Ok(found)
}
