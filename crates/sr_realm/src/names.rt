ghost use Rattle.std.specs.Prelude.{◌≡◌, ◌≤◌, length, IfOk, IfSome};
ghost use Rattle.sr_heap.specs.Found.{found_of};
ghost use Rattle.sr_heap.specs.Live.{IsLiveFound, IsLiveScope, extent};
ghost use Rattle.sr_heap.specs.Plain.{scope_of};
ghost use Rattle.sr_model.specs.Names as spec;
ghost use Rattle.sr_realm.specs.Live.{IsLiveBase, IsLiveKnown};
ghost use Rattle.sr_realm.specs.Plain.{base_of, known_of};

use crate::bindings::{known, known_property};
use sr_heap::{Found, Heap};
use sr_tag::{EnvK, Ref};
use sr_text::Str;
use sr_value::{Key, Value};
use std::alloc::AllocError;

/// Where a name is bound (ECMA-262 6.2.5).
#[derive(Clone, Copy, Debug, Drop)]
pub enum Base {
    /// Nowhere.
    Unresolvable,
    /// As a property of the global object.
    Property,
    /// By a lexical binding of the global environment.
    Lexical,
    /// In this environment.
    Local(Ref<EnvK>),
}

/// What a name comes to.
#[derive(Debug, Drop)]
pub enum Known {
    /// A value.
    Has(Value),
    /// The getter of a property, which is to be called.
    Getter(Value),
    /// It has no value yet.
    NoValue,
    /// It is not bound.
    NotBound,
}

/// What it comes to to give a name a value.
#[derive(Debug, Drop)]
pub enum Write {
    /// It has the value now, or the write does nothing.
    Written,
    /// The setter of a property, which is to be called.
    Setter(Value),
    /// It has no value yet.
    TooEarly,
    /// It is constant.
    Fixed,
    /// It is not bound.
    Unbound,
    /// The property does not take the value.
    Rejected,
}

/// The place of the global object among the objects of a realm, from 0.
pub(crate) const GLOBAL: usize = 0;

/// What stands along the prototypes of the global object for a name.
pub(crate) fn global_property<C: Drop, B: Drop>(
    heap: &Heap<C, B>,
    name: &Str,
) -> Result<Found, AllocError>
    requires { 1 ≤ length heap.now.store.objects }
    ensures same { IfOk result (λ f. found_of f ≡ spec.global_property heap.now.store name.now) }
    ensures live { IfOk result (IsLiveFound (extent heap.now)) }
{
    heap.find(&heap.nth(GLOBAL), &Key::Text(name.clone()?))
}

/// Where a name is bound in the global environment (ECMA-262 9.1.1.4.1 HasBinding).
fn global_base<C: Drop, B: Drop>(heap: &Heap<C, B>, name: &Str) -> Result<Base, AllocError>
    requires { 1 ≤ length heap.now.store.objects }
    ensures same { IfOk result (λ b. base_of b ≡ spec.global_base heap.now.store name.now) }
    ensures live { IfOk result (IsLiveBase (extent heap.now)) }
{
    if heap.lexical(name).is_some() {
        return Ok(Base::Lexical);
    }
    match global_property(heap, name)? {
        Found::Missing => Ok(Base::Unresolvable),
        Found::Data(_) | Found::Accessor(_, _) => Ok(Base::Property),
    }
}

/// Where a name is bound (ECMA-262 9.1.2.1 GetIdentifierReference), from an environment outward, where none is the global one.
pub fn base_of_name<C: Drop, B: Drop>(
    heap: &Heap<C, B>,
    from: Option<Ref<EnvK>>,
    name: &Str,
) -> Result<Base, AllocError>
    requires scope { IfSome from (IsLiveScope (extent heap.now)) }
    requires there { 1 ≤ length heap.now.store.objects }
    ensures same { IfOk result (λ b. base_of b ≡ spec.base_of heap.now.store (scope_of from) name.now) }
    ensures live { IfOk result (IsLiveBase (extent heap.now)) }
{
    match heap.holder(from, name) {
        Some(at) => Ok(Base::Local(at)),
        None => global_base(heap, name),
    }
}

/// The value of a name that is bound there (ECMA-262 6.2.5.5 GetValue).
pub fn value_at<C: Drop, B: Drop>(
    heap: &Heap<C, B>,
    base: &Base,
    name: &Str,
) -> Result<Known, AllocError>
    requires base { IsLiveBase (extent heap.now) base.now }
    requires there { 1 ≤ length heap.now.store.objects }
    ensures same { IfOk result (λ k. known_of k ≡ spec.value_at heap.now.store (base_of base.now) name.now) }
    ensures live { IfOk result (IsLiveKnown (extent heap.now)) }
{
    match base {
        Base::Unresolvable => Ok(Known::NotBound),
        Base::Property => Ok(known_property(global_property(heap, name)?)),
        Base::Lexical => known(heap.lexical(name)),
        Base::Local(at) => known(heap.binding(at, name)),
    }
}

/// The value of a name in the global environment.
fn global_value<C: Drop, B: Drop>(heap: &Heap<C, B>, name: &Str) -> Result<Known, AllocError>
    requires { 1 ≤ length heap.now.store.objects }
    ensures same { IfOk result (λ k. known_of k ≡ spec.value_at heap.now.store (spec.global_base heap.now.store name.now) name.now) }
    ensures live { IfOk result (IsLiveKnown (extent heap.now)) }
{
    let binding = heap.lexical(name);
    if binding.is_some() {
        return known(binding);
    }
    Ok(known_property(global_property(heap, name)?))
}

/// The value of a name that is looked up at once, from an environment outward, where none is the global one.
pub fn value_of_name<C: Drop, B: Drop>(
    heap: &Heap<C, B>,
    from: Option<Ref<EnvK>>,
    name: &Str,
) -> Result<Known, AllocError>
    requires scope { IfSome from (IsLiveScope (extent heap.now)) }
    requires there { 1 ≤ length heap.now.store.objects }
    ensures same { IfOk result (λ k. known_of k ≡ spec.value_of_name heap.now.store (scope_of from) name.now) }
    ensures live { IfOk result (IsLiveKnown (extent heap.now)) }
{
    match heap.holder(from, name) {
        Some(at) => known(heap.binding(&at, name)),
        None => global_value(heap, name),
    }
}
