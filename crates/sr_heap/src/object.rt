ghost use Rattle.std.specs.Prelude.{◌≡◌, [], ◌∷◌, ◌++◌, true, IfOk, IfSome, IsSome, OnOk, OnErr, None, option_map};
ghost use Rattle.std.specs.Option.{option_copied};
ghost use Rattle.std.specs.Map.{set_value};
ghost use Rattle.sr_value.specs.Plain.{descriptor_of, key_of, number_of, property_of};
ghost use Rattle.sr_model.specs.Keys.{same_key};
ghost use Rattle.sr_heap.specs.Live.{Extent, IsLive, IsLiveDescriptor, IsLiveKind, IsLiveProperty};
ghost use Rattle.sr_heap.specs.Plain.{kind_of};
ghost use Rattle.sr_heap.specs.Records.{IsLiveObject, deleted_object, defined_object, may_define, may_delete, object_of, own_property, with_properties, without};

use crate::ObjectKind;
use crate::descriptors::{changed_property, may_change, new_property};
use sr_props::Table;
use sr_tag::{ObjK, Ref};
use sr_value::{Descriptor, Key, Property};
use std::alloc::{AllocError, Global};

/// An object of a kind.
#[derive(Drop)]
pub(crate) struct Object<C: Drop, B: Drop> {
    pub kind: ObjectKind<C, B>,
    pub prototype: Option<Ref<ObjK>>,
    pub extensible: bool,
    pub properties: Table<Key, Property>,
}

impl<C: Drop, B: Drop> Object<C, B> {
    /// An extensible object with no properties, which takes no memory.
    pub fn new(alloc: Global, kind: ObjectKind<C, B>, prototype: Option<Ref<ObjK>>) -> Object<C, B>
        ensures same { object_of result ≡ record { kind = kind_of kind; prototype = option_map number_of prototype; extensible = true; properties = [] } }
        ensures live { (e : Extent) → IsLiveKind e kind → IfSome prototype (IsLive e) → IsLiveObject e result }
    {
        Object {
            kind,
            prototype,
            extensible: true,
            properties: Table::new(alloc),
        }
    }

    /// Its own property of a key.
    pub fn own(&self, key: &Key) -> Option<&Property>
        ensures same { option_map property_of (option_copied result) ≡ own_property (object_of self.now) (key_of key.now) }
        ensures live { (e : Extent) → IsLiveObject e self.now → IfSome (option_copied result) (IsLiveProperty e) }
    {
        self.properties.get(key)
    }

    /// ValidateAndApplyPropertyDescriptor (ECMA-262 10.1.6.3): whether it succeeds. Where no memory is found, nothing is changed.
    pub fn define(&mut self, key: Key, d: Descriptor) -> Result<bool, AllocError>
        ensures answer { IfOk result (λ b. b ≡ may_define (object_of self.old) (key_of key) (descriptor_of d)) }
        ensures after { OnOk result (object_of self.new ≡ defined_object (object_of self.old) (key_of key) (descriptor_of d)) }
        ensures unchanged { OnErr result (self.new ≡ self.old) }
        ensures live { (e : Extent) → IsLiveDescriptor e d → IsLiveObject e self.old → IsLiveObject e self.new }
    {
        let Some(old) = self.own(&key) else {
            return self.add(key, d);
        };
        if !may_change(&d, old) {
            return Ok(false);
        }
        let changed = changed_property(d, old)?;
        self.replace(&key, changed);
        Ok(true)
    }

    /// The same where there is no property of this key.
    fn add(&mut self, key: Key, d: Descriptor) -> Result<bool, AllocError>
        requires { own_property (object_of self.old) (key_of key) ≡ None }
        ensures answer { IfOk result (λ b. b ≡ may_define (object_of self.old) (key_of key) (descriptor_of d)) }
        ensures after { OnOk result (object_of self.new ≡ defined_object (object_of self.old) (key_of key) (descriptor_of d)) }
        ensures unchanged { OnErr result (self.new ≡ self.old) }
        ensures live { (e : Extent) → IsLiveDescriptor e d → IsLiveObject e self.old → IsLiveObject e self.new }
    {
        if !self.extensible {
            return Ok(false);
        }
        self.push(key, new_property(d))?;
        Ok(true)
    }

    /// OrdinaryDelete (ECMA-262 10.1.10.1): whether it succeeds.
    pub fn delete(&mut self, key: &Key) -> bool
        ensures answer { result ≡ may_delete (object_of self.old) (key_of key.now) }
        ensures after { object_of self.new ≡ deleted_object (object_of self.old) (key_of key.now) }
        ensures live { (e : Extent) → IsLiveObject e self.old → IsLiveObject e self.new }
    {
        if !self.may_delete(key) {
            return false;
        }
        self.remove(key);
        true
    }

    /// Whether a property of this key may be deleted, if there is one.
    fn may_delete(&self, key: &Key) -> bool
        ensures { result ≡ may_delete (object_of self.now) (key_of key.now) }
    {
        match self.own(key) {
            Some(property) => property.is_configurable(),
            None => true,
        }
    }

    /// Puts a property behind the others, of which none has its key. Where no memory is found, nothing is changed.
    fn push(&mut self, key: Key, property: Property) -> Result<(), AllocError>
        requires { own_property (object_of self.old) (key_of key) ≡ None }
        ensures ok { OnOk result (object_of self.new ≡ with_properties (object_of self.old) ((object_of self.old).properties ++ (key_of key, property_of property) ∷ [])) }
        ensures unchanged { OnErr result (self.new ≡ self.old) }
        ensures live { (e : Extent) → IsLiveProperty e property → IsLiveObject e self.old → IsLiveObject e self.new }
    {
        match self.properties.add(key, property) {
            Ok(()) => Ok(()),
            Err(_) => Err(AllocError),
        }
    }

    /// Puts a property in the place of the one that has its key.
    fn replace(&mut self, key: &Key, property: Property)
        requires { IsSome (own_property (object_of self.old) (key_of key.now)) }
        ensures after { object_of self.new ≡ with_properties (object_of self.old) (set_value (same_key (key_of key.now)) (object_of self.old).properties (property_of property)) }
        ensures live { (e : Extent) → IsLiveProperty e property → IsLiveObject e self.old → IsLiveObject e self.new }
    {
        self.properties.set(key, property);
    }

    /// Takes the property of a key away, if there is one.
    fn remove(&mut self, key: &Key)
        ensures after { object_of self.new ≡ without (object_of self.old) (key_of key.now) }
        ensures live { (e : Extent) → IsLiveObject e self.old → IsLiveObject e self.new }
    {
        self.properties.remove(key);
    }
}
