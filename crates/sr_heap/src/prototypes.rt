ghost use Rattle.std.specs.Prelude.{◌≡◌, IfSome, Some, length, option_map};
ghost use Rattle.std.specs.Option.{option_copied};
ghost use Rattle.sr_value.specs.Plain.{key_of, number_of, property_of};
ghost use Rattle.sr_model.specs.Objects as spec;
ghost use Rattle.sr_heap.specs.Live.{Extent, IsLiveProperty};
ghost use Rattle.sr_heap.specs.Records.{AreLiveObjects, objects_of};

use crate::object::Object;
use sr_tag::{ObjK, Ref};
use sr_value::{Key, Property};

/// The first property of a key, of an object, its prototype, the prototype of that, and so on.
pub(crate) fn first_property<'a, C: Drop, B: Drop>(
    objects: &'a [Object<C, B>],
    at: Ref<ObjK>,
    key: &Key,
) -> Option<&'a Property>
    ensures same { option_map property_of (option_copied result) ≡ spec.property_along (length objects.now) (objects_of objects.now) (Some (number_of at)) (key_of key.now) }
    ensures live { (e : Extent) → AreLiveObjects e objects.now → IfSome (option_copied result) (IsLiveProperty e) }
{
    let mut next = Some(at);
    let mut left = objects.len();
    while left > 0 {
        left -= 1;
        let object = objects.get(next?.place())?;
        if let Some(property) = object.own(key) {
            return Some(property);
        }
        next = object.prototype;
    }
    None
}

/// Whether the way along the prototypes from an object comes to another one.
pub(crate) fn leads_to<C: Drop, B: Drop>(
    objects: &[Object<C, B>],
    from: &Option<Ref<ObjK>>,
    to: &Ref<ObjK>,
) -> bool
    ensures { result ≡ spec.leads_to (length objects.now) (objects_of objects.now) (option_map number_of from.now) (number_of to.now) }
{
    let mut next = *from;
    let mut left = objects.len();
    while left > 0 {
        left -= 1;
        let Some(here) = next else {
            return false;
        };
        if here.place() == to.place() {
            return true;
        }
        next = match objects.get(here.place()) {
            Some(object) => object.prototype,
            None => None,
        };
    }
    false
}

/// Whether both prototypes are none, or one object.
pub(crate) fn same_prototype(a: &Option<Ref<ObjK>>, b: &Option<Ref<ObjK>>) -> bool
    ensures { result ≡ spec.same_prototype (option_map number_of a.now) (option_map number_of b.now) }
{
    match (a, b) {
        (None, None) => true,
        (Some(a), Some(b)) => a.place() == b.place(),
        _ => false,
    }
}
