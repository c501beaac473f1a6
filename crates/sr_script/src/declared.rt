ghost use Rattle.std.specs.Prelude.{◌≡◌, IfOk};
ghost use Rattle.sr_script.specs.Form.{is_one_of};
ghost use Rattle.sr_script.specs.Table.{SameNames};

use indexmap::IndexSet;
use sqlite_items::Items;
use sr_text::Str;
use std::alloc::{AllocError, Global};
use std::marker::Model;

/// The names that a script declares, in order, which contracts see as the list of them.
#[derive(Drop)]
pub struct Names {
    list: Items<Str>,
    set: IndexSet<Str>,
}

impl Model for Names {
    ghost use Rattle.std.specs.Prelude.{List, ℕ};
    ghost use Rattle.sr_script.specs.Table.{SameNames};

    ghost Value = { List (List ℕ) };

    ghost view = { λ n. n.list };

    ghost invariant = { λ n. SameNames n.set.keys n.list };
}

/// The set of some names.
fn set_of(alloc: Global, list: &[Str]) -> Result<IndexSet<Str>, AllocError>
    ensures { IfOk result (λ s. SameNames s.keys list.now) }
{
    let mut set = IndexSet::new(alloc);
    for name in list {
        set.insert(name.clone()?)?;
    }
    Ok(set)
}

impl Names {
    /// These names.
    pub fn new(alloc: Global, list: Items<Str>) -> Result<Names, AllocError>
        ensures { IfOk result (λ n. n ≡ list) }
    {
        let set = set_of(alloc, list.as_slice())?;
        Ok(Names { list, set })
    }

    /// Whether this name is one of them.
    pub fn has(&self, name: &Str) -> bool
        ensures { result ≡ is_one_of self.now name.now }
    {
        self.set.contains(name)
    }

    /// The names alone.
    pub fn into_list(self) -> Items<Str>
        ensures { result ≡ self }
    {
        let Names { list, set: _ } = self;
        list
    }
}
