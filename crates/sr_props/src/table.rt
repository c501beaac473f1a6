ghost use Rattle.std.specs.Prelude.{◌≡◌, [], ◌∷◌, ◌++◌, length, slice_get, None, Some, IsSome, IfOk, IfErr, OnOk, OnErr};
ghost use Rattle.std.specs.List.{IsDistinct};
ghost use Rattle.std.specs.Map.{lookup, remove_entry, set_value, keys_of};
ghost use Rattle.std.specs.Map.Iter.{deref_pair};
ghost use Rattle.std.specs.Option.{option_map, option_copied};
ghost use Rattle.sr_props.specs.OwnKeys.{own_keys};

use crate::PropKey;
use indexmap::IndexMap;
use std::alloc::{AllocError, Global};
use std::marker::Model;
use std::mem;

/// The properties of an object: pairs of a key and a value, in the order of their creation. No two keys are equal. A key
/// is found by its hash.
#[derive(Drop)]
pub struct Table<K: PropKey, V> {
    pairs: IndexMap<K, V>,
}

impl<K: PropKey, V> Model for Table<K, V> {
    ghost use Rattle.std.specs.Prelude.{List};

    ghost Value = { List (K × V) };

    ghost view = { λ t. t.pairs.entries };
}

impl<K: PropKey, V: Drop> Table<K, V> {
    /// No properties.
    pub fn new(alloc: Global) -> Table<K, V>
        ensures { result ≡ [] }
    {
        Table {
            pairs: IndexMap::new(alloc),
        }
    }

    /// How many properties there are.
    pub fn len(&self) -> usize
        ensures len { result ≡ length self.now }
        ensures distinct { IsDistinct K.eq (keys_of self.now) }
    {
        self.pairs.len()
    }

    /// The property at a place, from 0, in the order of creation.
    pub fn entry(&self, place: usize) -> Option<(&K, &V)>
        ensures { option_map deref_pair result ≡ slice_get self.now place }
    {
        self.pairs.get_index(place)
    }

    /// The value at a key, if it is there.
    pub fn get(&self, key: &K) -> Option<&V>
        ensures { option_copied result ≡ lookup (K.eq key.now) self.now }
    {
        self.pairs.get(key)
    }

    /// Replaces the value at a key that is there, and gives the old one. The key keeps its place.
    pub fn set(&mut self, key: &K, value: V) -> V
        requires { IsSome (lookup (K.eq key.now) self.old) }
        ensures old { lookup (K.eq key.now) self.old ≡ Some result }
        ensures after { self.new ≡ set_value (K.eq key.now) self.old value }
    {
        match self.pairs.get_mut(key) {
            Some(place) => mem::replace(place, value),
            None => unreachable!(),
        }
    }

    /// Adds a property whose key is not there, behind the others. Where no memory is found, the pair comes back and the
    /// table is as it was.
    #[tactic(auto, using(crate::proofs::Added::added))]
    pub fn add(&mut self, key: K, value: V) -> Result<(), (K, V)>
        requires { lookup (K.eq key) self.old ≡ None }
        ensures ok { OnOk result (self.new ≡ self.old ++ (key, value) ∷ []) }
        ensures value_returned { IfErr result (λ pair. pair ≡ (key, value)) }
        ensures err { OnErr result (self.new ≡ self.old) }
    {
        match self.pairs.insert(key, value) {
            Ok(_) => Ok(()),
            Err(refused) => Err(refused.value),
        }
    }

    /// Removes the property with a key, if it is there, and gives its value. The others keep their order.
    pub fn remove(&mut self, key: &K) -> Option<V>
        ensures old { result ≡ lookup (K.eq key.now) self.old }
        ensures after { self.new ≡ remove_entry (K.eq key.now) self.old }
    {
        self.pairs.shift_remove(key)
    }

    /// The keys as OrdinaryOwnPropertyKeys lists them (ECMA-262 10.1.11.1): array indices ascending, then the other
    /// strings, then the symbols, each in the order of creation. `AllocError` comes for want of memory.
    pub fn own_keys(&self) -> Result<Vec<K>, AllocError>
        ensures { IfOk result (λ keys. keys.items ≡ own_keys K.rank_of (keys_of self.now)) }
    {
        let mut keys = copies(*self.pairs.allocator(), self.pairs.keys().as_slice())?;
        keys.sort_by_cached_key(|key| key.rank())?;
        Ok(keys)
    }
}

/// The same keys once more.
fn copies<K: PropKey>(alloc: Global, keys: &[K]) -> Result<Vec<K>, AllocError>
    ensures { IfOk result (λ copies. copies.items ≡ keys.now) }
{
    let mut copies = Vec::with_capacity(alloc, keys.len())?;
    for key in keys {
        copies.push(key.copy()?)?;
    }
    Ok(copies)
}
