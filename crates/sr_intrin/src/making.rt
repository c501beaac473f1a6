ghost use Rattle.std.specs.Prelude.{◌≡◌, ◌≤◌, ◌+◌, suc, length, map, option_map, IfOk, IfSome, OnOk};
ghost use Rattle.sr_value.specs.Live.{Extent, IsLive, IsLiveValue};
ghost use Rattle.sr_value.specs.Plain.{value_of};
ghost use Rattle.sr_value.specs.Plain as objects;
ghost use Rattle.sr_heap.specs.Live.{IsLiveKind, extent, with_objects};
ghost use Rattle.sr_heap.specs.Plain.{kind_of};
ghost use Rattle.sr_intrin.specs.Numbers.{intrinsic_count, number_of};
ghost use Rattle.sr_intrin.specs.Rows.{entry_of, row_of};
ghost use Rattle.sr_intrin.specs.Rows as rows;
ghost use Rattle.sr_intrin.specs.Table as table;

use crate::table::{Content, Entry, Row, Sort, entries, rows};
use crate::{BuiltIn, Intrinsic};
use sqlite_items::{Boxed, Items};
use sr_heap::{Heap, Native, ObjectKind};
use sr_num::Num;
use sr_tag::{ObjK, Ref, Tag};
use sr_text::Str;
use sr_value::{Descriptor, Key, Value};
use std::alloc::{AllocError, Global};

/// What a realm with this tag keeps as it is made: the objects of the table, and nothing else (ECMA-262 9.3).
#[tactic(auto, unfolding(crate::specs::Table::first_store))]
pub fn build<C: Drop>(alloc: Global, tag: Tag) -> Result<Heap<C, BuiltIn>, AllocError>
    ensures made { IfOk result (λ h. h ≡ record { tag = tag; store = table.first_store }) }
    ensures count { IfOk result (λ h. length h.store.objects ≡ intrinsic_count) }
{
    let mut heap = Heap::new(alloc, tag);
    make_objects(alloc, &mut heap, rows())?;
    set_prototypes(&mut heap, rows());
    define_all(alloc, &mut heap, entries())?;
    Ok(heap)
}

/// A text of the table.
fn text(alloc: Global, letters: &str) -> Result<Str, AllocError>
    ensures { IfOk result (λ s. s ≡ letters.now) }
{
    let units: Vec<u16> = letters
        .as_bytes()
        .iter()
        .map(|letter| u16::from(*letter))
        .collect(alloc)?;
    Str::of_units(alloc, &units).map_err(|_| AllocError)
}

/// The kind of an object of the table.
fn kind<C: Drop>(
    alloc: Global,
    function: Option<(BuiltIn, &str)>,
) -> Result<ObjectKind<C, BuiltIn>, AllocError>
    ensures same { IfOk result (λ k. kind_of k ≡ table.kind (option_map (λ f. (f.0, f.1.now)) function.entry)) }
    ensures live { (e : Extent) → IfOk result (IsLiveKind e) }
{
    let Some((function, name)) = function else {
        return Ok(ObjectKind::Ordinary);
    };
    let native = Native {
        function,
        name: text(alloc, name)?,
        kept: Items::new(alloc),
    };
    Ok(ObjectKind::BuiltIn(Boxed::new(alloc, native)?))
}

/// Makes the objects of these rows, in order.
fn make_objects<C: Drop>(
    alloc: Global,
    heap: &mut Heap<C, BuiltIn>,
    rows: &[Row],
) -> Result<(), AllocError>
    ensures after { OnOk result (heap.new ≡ with_objects (table.make_objects (map row_of rows.now) heap.old.store.objects) heap.old) }
    ensures count { OnOk result (length heap.new.store.objects ≡ length heap.old.store.objects + length rows.now) }
{
    for row in rows {
        let kind = kind(alloc, row.function)?;
        heap.make_object(kind, None)?;
    }
    Ok(())
}

/// The object that an object of the table has as its prototype.
fn prototype<C: Drop>(heap: &Heap<C, BuiltIn>, of: Option<Intrinsic>) -> Option<Ref<ObjK>>
    requires { intrinsic_count ≤ length heap.now.store.objects }
    ensures same { option_map objects.number_of result ≡ option_map number_of of }
    ensures live { IfSome result (IsLive (extent heap.now)) }
{
    match of {
        Some(of) => Some(heap.nth(of.place())),
        None => None,
    }
}

/// Gives the objects of these rows, which are the first ones, their prototypes.
fn set_prototypes<C: Drop>(heap: &mut Heap<C, BuiltIn>, rows: &[Row])
    requires all { intrinsic_count ≤ length heap.old.store.objects }
    requires few { length rows.now ≤ length heap.old.store.objects }
    ensures after { heap.new ≡ with_objects (table.set_prototypes 1 (map row_of rows.now) heap.old.store.objects) heap.old }
    ensures kept { extent heap.new ≡ extent heap.old }
{
    let mut place = 0;
    for row in rows {
        let at = heap.nth(place);
        let prototype = prototype(heap, row.prototype);
        heap.set_prototype(&at, prototype);
        place += 1;
    }
}

/// The value of a property of the table.
fn value<C: Drop>(
    alloc: Global,
    heap: &Heap<C, BuiltIn>,
    content: Content,
) -> Result<Value, AllocError>
    requires { intrinsic_count ≤ length heap.now.store.objects }
    ensures same { IfOk result (λ v. value_of v ≡ rows.value_of content) }
    ensures live { IfOk result (IsLiveValue (extent heap.now)) }
{
    match content {
        Content::Undefined => Ok(Value::Undefined),
        Content::Nan => Ok(Value::Num(Num::nan())),
        Content::Number(number) => match Num::of(i64::from(number)) {
            Ok(number) => Ok(Value::Num(number)),
            Err(_) => unreachable!(),
        },
        Content::Text(letters) => Ok(Value::Str(text(alloc, letters)?)),
        Content::Object(of) => Ok(Value::Obj(heap.nth(of.place()))),
    }
}

/// Whether a property of this sort may be written.
fn is_writable(sort: Sort) -> bool
    ensures { result ≡ rows.is_writable sort }
{
    match sort {
        Sort::Hidden => true,
        Sort::Described | Sort::Fixed => false,
    }
}

/// Whether it may be configured.
fn is_configurable(sort: Sort) -> bool
    ensures { result ≡ rows.is_configurable sort }
{
    match sort {
        Sort::Hidden | Sort::Described => true,
        Sort::Fixed => false,
    }
}

/// Defines a property of the table.
fn define<C: Drop>(
    alloc: Global,
    heap: &mut Heap<C, BuiltIn>,
    entry: &Entry,
) -> Result<(), AllocError>
    requires { intrinsic_count ≤ length heap.old.store.objects }
    ensures after { OnOk result (heap.new ≡ with_objects (table.define_one (entry_of entry.now) heap.old.store.objects) heap.old) }
    ensures kept { extent heap.new ≡ extent heap.old }
{
    let at = heap.nth(entry.object.place());
    let descriptor = Descriptor {
        value: Some(value(alloc, heap, entry.value)?),
        writable: Some(is_writable(entry.sort)),
        get: None,
        set: None,
        enumerable: Some(false),
        configurable: Some(is_configurable(entry.sort)),
    };
    heap.define(&at, Key::Text(text(alloc, entry.key)?), descriptor)?;
    Ok(())
}

/// Defines properties, in order.
fn define_all<C: Drop>(
    alloc: Global,
    heap: &mut Heap<C, BuiltIn>,
    entries: &[Entry],
) -> Result<(), AllocError>
    requires { intrinsic_count ≤ length heap.old.store.objects }
    ensures after { OnOk result (heap.new ≡ with_objects (table.define_all (map entry_of entries.now) heap.old.store.objects) heap.old) }
    ensures kept { OnOk result (extent heap.new ≡ extent heap.old) }
{
    for entry in entries {
        define(alloc, heap, entry)?;
    }
    Ok(())
}
