ghost use Rattle.std.specs.Prelude.{◌≡◌, ◌<◌, [], suc, map, length, IfOk, IfSome, OnOk, OnErr, Some, option_map};
ghost use Rattle.std.specs.Option.{option_copied};
ghost use Rattle.sr_value.specs.Plain.{descriptor_of, key_of, number_of, property_of, value_of};
ghost use Rattle.sr_model.specs.Objects as spec;
ghost use Rattle.sr_model.specs.Stores.{empty_store};
ghost use Rattle.sr_heap.specs.Found.{Stops, found_of, setting_of};
ghost use Rattle.sr_heap.specs.Live.{IsLive, IsLiveDescriptor, IsLiveFound, IsLiveKind, IsLiveProperty, IsLiveSetting, IsLiveValue, KeepsLive, extent, with_objects};
ghost use Rattle.sr_heap.specs.Plain.{kind_of};

use crate::environments::Environment;
use crate::found::copied;
use crate::names::Named;
use crate::object::Object;
use crate::prototypes::{first_property, leads_to, same_prototype};
use crate::settings::{assignment, settled, stopped};
use crate::{Binding, Found, ObjectKind, Setting};
use sqlite_items::Items;
use sr_tag::{ObjK, Ref, Tag};
use sr_text::Str;
use sr_value::{Descriptor, Key, Property, Value};
use std::alloc::{AllocError, Global};
use std::marker::Model;
use std::mem;

/// The place of Object.prototype among the objects of a realm, from 0.
const OBJECT_PROTOTYPE: usize = 1;

/// What one realm keeps: its objects, its environments but the global one, and the texts of its sources, each in the order in which
/// they were made, the first one with the number 1; and of the global environment the lexical bindings and the names that `var`
/// declared. Contracts see the tag of the realm and the store of the definitions, and each method is that of its name there. `C` is
/// the type of the code of functions, and `B` that of the built-in functions.
///
/// A reference is live where it has this tag and one of the objects, or of the environments, has its number. Each reference that is
/// kept is live, and none ceases to be.
pub struct Heap<C: Drop, B: Drop> {
    pub(crate) alloc: Global,
    pub(crate) tag: Tag,
    objects: Vec<Object<C, B>>,
    pub(crate) environments: Vec<Environment>,
    pub(crate) sources: Items<Str>,
    pub(crate) lexical: Named<Binding>,
    pub(crate) var_names: Named<()>,
}

impl<C: Drop, B: Drop> Model for Heap<C, B> {
    ghost use Rattle.sr_heap.specs.Live.{Realm};

    ghost Value = { Realm C B };

    ghost use Rattle.std.specs.Map.{keys_of};
    ghost use Rattle.sr_heap.specs.Records.{IsSound, realm_of};

    ghost view = { λ h. realm_of (record {
      tag = h.tag;
      objects = h.objects.items;
      environments = h.environments.items;
      sources = h.sources;
      lexical = h.lexical;
      var_names = keys_of h.var_names;
    }) };

    ghost invariant = { λ h. IsSound (record {
      tag = h.tag;
      objects = h.objects.items;
      environments = h.environments.items;
      sources = h.sources;
      lexical = h.lexical;
      var_names = keys_of h.var_names;
    }) };
}

// Written by hand, so that the crates above prove nothing of how objects and environments are dropped.
impl<C: Drop, B: Drop> Drop for Heap<C, B> {
    fn drop(self) {
        let Heap {
            alloc: _,
            tag: _,
            objects,
            environments,
            sources,
            lexical,
            var_names,
        } = self;
        drop(objects);
        drop(environments);
        drop(sources);
        drop(lexical);
        drop(var_names);
    }
}

impl<C: Drop, B: Drop> Heap<C, B> {
    /// Nothing, of a realm with this tag.
    pub fn new(alloc: Global, tag: Tag) -> Heap<C, B>
        ensures { result ≡ record { tag = tag; store = empty_store } }
    {
        Heap {
            alloc,
            tag,
            objects: Vec::new(alloc),
            environments: Vec::new(alloc),
            sources: Items::new(alloc),
            lexical: Named::new(alloc),
            var_names: Named::new(alloc),
        }
    }

    /// OrdinaryObjectCreate (ECMA-262 10.1.12): an extensible object with no properties, which comes last. It takes memory for
    /// its own record alone; where none is found, nothing is changed.
    pub fn make_object(
        &mut self,
        kind: ObjectKind<C, B>,
        prototype: Option<Ref<ObjK>>,
    ) -> Result<Ref<ObjK>, AllocError>
        requires kind { IsLiveKind (extent self.old) kind }
        requires prototype { IfSome prototype (IsLive (extent self.old)) }
        ensures made { OnOk result (self.new ≡ with_objects (spec.make_object self.old.store.objects (kind_of kind) (option_map number_of prototype)) self.old) }
        ensures last { IfOk result (λ r. number_of r ≡ length self.new.store.objects) }
        ensures live { IfOk result (IsLive (extent self.new)) }
        ensures kept { OnOk result (KeepsLive (extent self.old) (extent self.new)) }
        ensures unchanged { OnErr result (self.new ≡ self.old) }
    {
        let place = self.objects.len();
        let object = Object::new(self.alloc, kind, prototype);
        self.objects.push(object)?;
        Ok(Ref::at(self.tag, place))
    }

    /// The kind of an object.
    pub fn kind(&self, at: &Ref<ObjK>) -> &ObjectKind<C, B>
        requires { IsLive (extent self.now) at.now }
        ensures same { spec.kind self.now.store.objects (number_of at.now) ≡ Some (kind_of result.now) }
        ensures live { IsLiveKind (extent self.now) result.now }
    {
        &self.objects[at.place()].kind
    }

    /// Gives an object another kind, and the old one back.
    pub fn set_kind(&mut self, at: &Ref<ObjK>, kind: ObjectKind<C, B>) -> ObjectKind<C, B>
        requires live { IsLive (extent self.old) at.now }
        requires own { IsLiveKind (extent self.old) kind }
        ensures old { spec.kind self.old.store.objects (number_of at.now) ≡ Some (kind_of result) }
        ensures old_live { IsLiveKind (extent self.old) result }
        ensures after { self.new ≡ with_objects (spec.set_kind self.old.store.objects (number_of at.now) (kind_of kind)) self.old }
        ensures kept { extent self.new ≡ extent self.old }
    {
        mem::replace(&mut self.objects[at.place()].kind, kind)
    }

    /// OrdinaryGetPrototypeOf (ECMA-262 10.1.1.1).
    pub fn prototype(&self, at: &Ref<ObjK>) -> Option<Ref<ObjK>>
        requires { IsLive (extent self.now) at.now }
        ensures same { option_map number_of result ≡ spec.prototype self.now.store.objects (number_of at.now) }
        ensures live { IfSome result (IsLive (extent self.now)) }
    {
        self.objects[at.place()].prototype
    }

    /// OrdinarySetPrototypeOf (ECMA-262 10.1.2.1), and of Object.prototype SetImmutablePrototype (10.4.7.2): whether it succeeds.
    pub fn set_prototype(&mut self, at: &Ref<ObjK>, to: Option<Ref<ObjK>>) -> bool
        requires live { IsLive (extent self.old) at.now }
        requires own { IfSome to (IsLive (extent self.old)) }
        ensures answer { result ≡ spec.may_set_prototype self.old.store.objects (number_of at.now) (option_map number_of to) }
        ensures after { self.new ≡ with_objects (spec.set_prototype self.old.store.objects (number_of at.now) (option_map number_of to)) self.old }
        ensures kept { extent self.new ≡ extent self.old }
    {
        let may = self.may_set_prototype(at, &to);
        if may {
            self.objects[at.place()].prototype = to;
        }
        may
    }

    /// Whether an object may get this prototype.
    fn may_set_prototype(&self, at: &Ref<ObjK>, to: &Option<Ref<ObjK>>) -> bool
        requires { IsLive (extent self.now) at.now }
        ensures { result ≡ spec.may_set_prototype self.now.store.objects (number_of at.now) (option_map number_of to.now) }
    {
        same_prototype(to, &self.prototype(at))
            || (at.place() != OBJECT_PROTOTYPE
                && self.extensible(at)
                && !leads_to(&self.objects, to, at))
    }

    /// The object at a place, counted from 0.
    pub fn nth(&self, place: usize) -> Ref<ObjK>
        requires { place < length self.now.store.objects }
        ensures number { number_of result ≡ suc place }
        ensures live { IsLive (extent self.now) result }
    {
        Ref::at(self.tag, place)
    }

    /// OrdinaryIsExtensible (ECMA-262 10.1.3.1).
    pub fn extensible(&self, at: &Ref<ObjK>) -> bool
        requires { IsLive (extent self.now) at.now }
        ensures { result ≡ spec.extensible self.now.store.objects (number_of at.now) }
    {
        self.objects[at.place()].extensible
    }

    /// OrdinaryPreventExtensions (ECMA-262 10.1.4.1), which always succeeds.
    pub fn prevent(&mut self, at: &Ref<ObjK>)
        requires { IsLive (extent self.old) at.now }
        ensures after { self.new ≡ with_objects (spec.prevent self.old.store.objects (number_of at.now)) self.old }
        ensures kept { extent self.new ≡ extent self.old }
    {
        self.objects[at.place()].extensible = false;
    }

    /// OrdinaryGetOwnProperty (ECMA-262 10.1.5.1). It makes no copy.
    pub fn get_own(&self, at: &Ref<ObjK>, key: &Key) -> Option<&Property>
        requires { IsLive (extent self.now) at.now }
        ensures same { option_map property_of (option_copied result) ≡ spec.get_own self.now.store.objects (number_of at.now) (key_of key.now) }
        ensures live { IfSome (option_copied result) (IsLiveProperty (extent self.now)) }
    {
        self.objects[at.place()].own(key)
    }

    /// OrdinaryGet (ECMA-262 10.1.8.1), but for the call of a getter: what stands along the prototypes for a key. It copies the
    /// value, or the getter and the setter, that it finds.
    pub fn find(&self, at: &Ref<ObjK>, key: &Key) -> Result<Found, AllocError>
        requires { IsLive (extent self.now) at.now }
        ensures same { IfOk result (λ f. found_of f ≡ spec.find self.now.store.objects (number_of at.now) (key_of key.now)) }
        ensures live { IfOk result (IsLiveFound (extent self.now)) }
    {
        copied(first_property(&self.objects, *at, key))
    }

    /// OrdinaryDefineOwnProperty (ECMA-262 10.1.6.1): whether it succeeds. Where no memory is found, nothing is changed.
    pub fn define(&mut self, at: &Ref<ObjK>, key: Key, d: Descriptor) -> Result<bool, AllocError>
        requires live { IsLive (extent self.old) at.now }
        requires own { IsLiveDescriptor (extent self.old) d }
        ensures answer { IfOk result (λ b. b ≡ spec.may_define self.old.store.objects (number_of at.now) (key_of key) (descriptor_of d)) }
        ensures after { OnOk result (self.new ≡ with_objects (spec.define self.old.store.objects (number_of at.now) (key_of key) (descriptor_of d)) self.old) }
        ensures kept { extent self.new ≡ extent self.old }
        ensures unchanged { OnErr result (self.new ≡ self.old) }
    {
        self.objects[at.place()].define(key, d)
    }

    /// OrdinarySet (ECMA-262 10.1.9.1), with the object itself as the receiver: what comes of it. Where no memory is found, nothing is
    /// changed.
    pub fn set(&mut self, at: &Ref<ObjK>, key: Key, value: Value) -> Result<Setting, AllocError>
        requires live { IsLive (extent self.old) at.now }
        requires own { IsLiveValue (extent self.old) value }
        ensures answer { IfOk result (λ s. setting_of s ≡ spec.set_answer self.old.store.objects (number_of at.now) (key_of key) (value_of value)) }
        ensures after { OnOk result (self.new ≡ with_objects (spec.set self.old.store.objects (number_of at.now) (key_of key) (value_of value)) self.old) }
        ensures kept { extent self.new ≡ extent self.old }
        ensures setter { IfOk result (IsLiveSetting (extent self.new)) }
        ensures unchanged { OnErr result (self.new ≡ self.old) }
    {
        match self.stop(at, &key)? {
            Some(stop) => Ok(stop),
            None => {
                let there = self.get_own(at, &key).is_some();
                Ok(settled(self.define(at, key, assignment(value, there))?))
            }
        }
    }

    /// What stops a write of a key.
    fn stop(&self, at: &Ref<ObjK>, key: &Key) -> Result<Option<Setting>, AllocError>
        requires { IsLive (extent self.now) at.now }
        ensures same { IfOk result (Stops (spec.met self.now.store.objects (number_of at.now) (key_of key.now))) }
        ensures live { IfOk result (λ s. IfSome s (IsLiveSetting (extent self.now))) }
    {
        stopped(first_property(&self.objects, *at, key))
    }

    /// OrdinaryDelete (ECMA-262 10.1.10.1): whether it succeeds. The other properties keep their order.
    pub fn delete(&mut self, at: &Ref<ObjK>, key: &Key) -> bool
        requires { IsLive (extent self.old) at.now }
        ensures answer { result ≡ spec.may_delete self.old.store.objects (number_of at.now) (key_of key.now) }
        ensures after { self.new ≡ with_objects (spec.delete self.old.store.objects (number_of at.now) (key_of key.now)) self.old }
        ensures kept { extent self.new ≡ extent self.old }
    {
        self.objects[at.place()].delete(key)
    }

    /// OrdinaryOwnPropertyKeys (ECMA-262 10.1.11.1), each key once more.
    pub fn own_keys(&self, at: &Ref<ObjK>) -> Result<Vec<Key>, AllocError>
        requires { IsLive (extent self.now) at.now }
        ensures { IfOk result (λ keys. map key_of keys.items ≡ spec.own_keys self.now.store.objects (number_of at.now)) }
    {
        self.objects[at.place()].properties.own_keys()
    }
}
