ghost use Rattle.std.specs.Prelude.{◌≡◌, IfOk};
ghost use Rattle.sr_value.specs.Plain.{number_of};
ghost use Rattle.sr_heap.specs.Found.{found_of};
ghost use Rattle.sr_heap.specs.Live.{IsLive, extent};
ghost use Rattle.sr_realm.specs.Reports as spec;

use sr_heap::{Found, Heap};
use sr_tag::{ObjK, Ref};
use sr_text::Str;
use sr_value::{Key, Value};
use std::alloc::{AllocError, Global};

/// The code units of letters.
fn letters(alloc: Global, bytes: &[u8]) -> Result<Vec<u16>, AllocError>
    ensures { IfOk result (λ units. units.items ≡ bytes.now) }
{
    bytes.iter().map(|letter| u16::from(*letter)).collect(alloc)
}

/// The code units of a string that is found as the value of a data property; of what else is found none.
fn text_found(alloc: Global, found: &Found) -> Result<Vec<u16>, AllocError>
    ensures { IfOk result (λ units. units.items ≡ spec.text_found (found_of found.now)) }
{
    match found {
        Found::Data(Value::Str(text)) => Vec::from_slice(alloc, text.units()),
        Found::Data(_) | Found::Accessor(_, _) | Found::Missing => Ok(Vec::new(alloc)),
    }
}

/// The first own property of a key, of the object and then of its prototypes, where it is a data property that holds a string; else
/// nothing.
fn look<C: Drop, B: Drop>(
    alloc: Global,
    heap: &Heap<C, B>,
    at: &Ref<ObjK>,
    key: &[u8],
) -> Result<Vec<u16>, AllocError>
    requires { IsLive (extent heap.now) at.now }
    ensures { IfOk result (λ units. units.items ≡ spec.look heap.now.store.objects (number_of at.now) key.now) }
{
    let units = letters(alloc, key)?;
    let text = Str::of_units(alloc, &units).map_err(|_| AllocError)?;
    text_found(alloc, &heap.find(at, &Key::Text(text))?)
}

/// The name and the message, where both are there; or the one that is; or a word for an object.
fn joined(alloc: Global, name: Vec<u16>, message: &[u16]) -> Result<Vec<u16>, AllocError>
    ensures { IfOk result (λ units. units.items ≡ spec.joined name.items message.now) }
{
    if name.is_empty() && message.is_empty() {
        return letters(alloc, b"object");
    }
    let mut units = name;
    if !units.is_empty() && !message.is_empty() {
        units.extend_from_slice(&letters(alloc, b": ")?)?;
    }
    units.extend_from_slice(message)?;
    Ok(units)
}

/// All code units that are told of an object that was thrown and not caught.
pub fn object_report<C: Drop, B: Drop>(
    alloc: Global,
    heap: &Heap<C, B>,
    at: &Ref<ObjK>,
) -> Result<Vec<u16>, AllocError>
    requires { IsLive (extent heap.now) at.now }
    ensures { IfOk result (λ units. units.items ≡ spec.object_report heap.now.store.objects (number_of at.now)) }
{
    let name = look(alloc, heap, at, b"name")?;
    let message = look(alloc, heap, at, b"message")?;
    joined(alloc, name, &message)
}
