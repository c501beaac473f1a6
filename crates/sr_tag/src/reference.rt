ghost use Rattle.std.specs.Prelude.{◌≡◌, ◌↔◌, IsTrue};

use std::marker::{Model, PhantomData};

/// The tag of a realm, by which its records are told from those of other realms.
#[derive(Clone, Copy, Debug, PartialEq, Eq, Hash)]
pub struct Tag {
    pub number: u32,
}

/// The kind of the records that are objects.
#[derive(Clone, Copy, Debug, PartialEq, Eq, Hash)]
pub struct ObjK;

/// The kind of the records that are environments.
#[derive(Clone, Copy, Debug, PartialEq, Eq, Hash)]
pub struct EnvK;

/// The kind of the records that are modules.
#[derive(Clone, Copy, Debug, PartialEq, Eq, Hash)]
pub struct ModK;

/// A reference to a record of the kind `K`: the tag of its realm, and its place. It says nothing of whether the record
/// is there.
#[derive(Clone, Copy, Debug, PartialEq, Eq, Hash)]
pub struct Ref<K> {
    tag: Tag,
    place: usize,
    kind: PhantomData<K>,
}

impl<K> Model for Ref<K> {
    ghost use Rattle.sr_tag.specs.Reference.{Reference};

    ghost Value = { Reference };

    ghost view = { λ r. record { tag = r.tag; place = r.place } };

    ghost inverse = { λ v. record { tag = v.tag; place = v.place; kind = record {} } };
}

impl<K> Ref<K> {
    /// The reference of a tag and a place.
    pub fn at(tag: Tag, place: usize) -> Ref<K>
        ensures { result ≡ record { tag = tag; place = place } }
    {
        Ref {
            tag,
            place,
            kind: PhantomData,
        }
    }

    /// The place, counted from 0.
    pub fn place(&self) -> usize
        ensures { result ≡ self.now.place }
    {
        self.place
    }

    /// The tag of the realm.
    pub fn tag(&self) -> Tag
        ensures { result ≡ self.now.tag }
    {
        self.tag
    }

    /// Whether both are one reference.
    pub fn same(&self, r: &Ref<K>) -> bool
        ensures { IsTrue result ↔ (self.now ≡ r.now) }
    {
        self.tag == r.tag && self.place == r.place
    }

    /// Whether both are of one realm.
    pub fn same_realm(&self, r: &Ref<K>) -> bool
        ensures { IsTrue result ↔ (self.now.tag ≡ r.now.tag) }
    {
        self.tag == r.tag
    }
}
