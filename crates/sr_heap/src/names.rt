ghost use Rattle.std.specs.Prelude.{◌≡◌, [], ◌∷◌, ◌++◌, IsSome, OnOk, OnErr, None, is_some};
ghost use Rattle.std.specs.Map.{lookup, set_value};
ghost use Rattle.std.specs.Option.{option_copied};
ghost use Rattle.sr_model.specs.Values.{same};

use indexmap::IndexMap;
use sr_text::Str;
use std::alloc::{AllocError, Global};
use std::marker::Model;

/// Names with what belongs to each, in the order in which they were added. A name is found by its hash.
#[derive(Drop)]
pub(crate) struct Named<V> {
    entries: IndexMap<Str, V>,
}

impl<V> Model for Named<V> {
    ghost use Rattle.std.specs.Prelude.{ℕ, List};

    ghost Value = { List (List ℕ × V) };

    ghost view = { λ n. n.entries.entries };
}

impl<V: Drop> Named<V> {
    /// No names.
    pub fn new(alloc: Global) -> Named<V>
        ensures { result ≡ [] }
    {
        Named {
            entries: IndexMap::new(alloc),
        }
    }

    /// What belongs to a name, if it is there.
    #[tactic(auto, using(crate::proofs::Tested::found_is))]
    pub fn get(&self, name: &Str) -> Option<&V>
        ensures { option_copied result ≡ lookup (same name.now) self.now }
    {
        self.entries.get(name)
    }

    /// Whether a name is there.
    #[tactic(auto, using(crate::proofs::Tested::found_is))]
    pub fn has(&self, name: &Str) -> bool
        ensures { result ≡ is_some (lookup (same name.now) self.now) }
    {
        self.entries.contains_key(name)
    }

    /// Adds a name that is not there, behind the others. Where no memory is found, nothing is changed.
    #[tactic(auto, using(crate::proofs::Tested::added_is))]
    pub fn add(&mut self, name: Str, value: V) -> Result<(), AllocError>
        requires { lookup (same name) self.old ≡ None }
        ensures ok { OnOk result (self.new ≡ self.old ++ (name, value) ∷ []) }
        ensures err { OnErr result (self.new ≡ self.old) }
    {
        match self.entries.insert(name, value) {
            Ok(_) => Ok(()),
            Err(_) => Err(AllocError),
        }
    }

    /// Puts another value in the place of what belongs to a name that is there.
    pub fn set(&mut self, name: &Str, value: V)
        requires { IsSome (lookup (same name.now) self.old) }
        ensures { self.new ≡ set_value (same name.now) self.old value }
    {
        match self.entries.get_mut(name) {
            Some(place) => *place = value,
            None => unreachable!(),
        }
    }
}
