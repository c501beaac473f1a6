ghost use Rattle.std.specs.Prelude.{◌≡◌, ◌++◌, [], ◌∷◌, is_some, IfOk, OnOk};
ghost use Rattle.indexmap.specs.IndexMap.{get};
ghost use Rattle.sr_names.specs.Names.{Names, block_names};
ghost use Rattle.sr_names.specs.Scopes as spec;
ghost use Rattle.sr_names.specs.Table.{Finds};

use crate::names;
use crate::places::put_if;
use indexmap::IndexMap;
use sqlite_items::Items;
use sr_ast::{Binding, Tree};
use sr_text::Str;
use std::alloc::{AllocError, Global};
use std::marker::Model;

/// Names by their first places, which contracts see as the list of them: those of a scope (ECMA-262 14.2.1).
#[derive(Drop)]
pub struct Table {
    list: Items<Binding>,
    places: IndexMap<Str, usize>,
}

impl Model for Table {
    ghost use Rattle.sr_names.specs.Names.{Names};
    ghost use Rattle.sr_names.specs.Table.{Finds};

    ghost Value = { Names };

    ghost view = { λ t. t.list };

    ghost invariant = { λ t. Finds t.places t.list };
}

/// The first place of a name.
fn find(places: &IndexMap<Str, usize>, name: &Str) -> Option<usize>
    ensures { result ≡ get spec.same_name places.now name.now }
{
    match places.get(name) {
        None => None,
        Some(place) => Some(*place),
    }
}

/// Puts a name with its place, if it is not there; and whether it is.
fn put_first(places: &mut IndexMap<Str, usize>, name: &Binding) -> Result<bool, AllocError>
    ensures found { IfOk result (λ is_there. is_there ≡ is_some (get spec.same_name places.old name.now.name)) }
    ensures finds { OnOk result ((names : Names) → Finds places.old names → Finds places.new (names ++ name.now ∷ [])) }
{
    if find(places, &name.name).is_some() {
        return Ok(true);
    }
    places.insert(name.name.clone()?, name.from)?;
    Ok(false)
}

/// The first places of names.
fn places_of(alloc: Global, names: &[Binding]) -> Result<IndexMap<Str, usize>, AllocError>
    ensures { IfOk result (λ found. Finds found names.now) }
{
    let mut found = IndexMap::new(alloc);
    for name in names {
        put_first(&mut found, name)?;
    }
    Ok(found)
}

/// The first places of names, each name that one before it equals noted.
fn places_noting(
    alloc: Global,
    places: &mut Items<usize>,
    names: &[Binding],
) -> Result<IndexMap<Str, usize>, AllocError>
    ensures value { IfOk result (λ found. Finds found names.now) }
    ensures places { OnOk result (places.new ≡ places.old ++ spec.repeated [] names.now) }
{
    let mut found = IndexMap::new(alloc);
    for name in names {
        let is_there = put_first(&mut found, name)?;
        put_if(places, is_there, name.from)?;
    }
    Ok(found)
}

impl Table {
    /// These names, none of them noted.
    pub fn new(alloc: Global, names: Items<Binding>) -> Result<Table, AllocError>
        ensures { IfOk result (λ table. table ≡ names) }
    {
        let places = places_of(alloc, names.as_slice())?;
        Ok(Table {
            list: names,
            places,
        })
    }

    /// These names, each that one before it equals noted (14.2.1, 15.1.1, 16.2.1.1).
    pub fn noting(
        alloc: Global,
        places: &mut Items<usize>,
        names: Items<Binding>,
    ) -> Result<Table, AllocError>
        ensures value { IfOk result (λ table. table ≡ names) }
        ensures places { OnOk result (places.new ≡ places.old ++ spec.repeated [] names) }
    {
        let found = places_noting(alloc, places, names.as_slice())?;
        Ok(Table {
            list: names,
            places: found,
        })
    }

    /// The place of the first of them that is this name.
    pub fn place_of(&self, name: &Str) -> Option<usize>
        ensures { result ≡ spec.place_of self.now name.now }
    {
        find(&self.places, name)
    }
}

/// Notes the names that are among others, as those of a body among its parameters (15.2.1).
pub fn among(places: &mut Items<usize>, table: &Table, names: &[Binding]) -> Result<(), AllocError>
    ensures { OnOk result (places.new ≡ places.old ++ spec.among table.now names.now) }
{
    for name in names {
        put_if(places, table.place_of(&name.name).is_some(), name.from)?;
    }
    Ok(())
}

/// Notes the names that are not among others, as exported ones among those that a module declares (16.2.1.1).
pub fn missing(
    places: &mut Items<usize>,
    table: &Table,
    names: &[Binding],
) -> Result<(), AllocError>
    ensures { OnOk result (places.new ≡ places.old ++ spec.missing table.now names.now) }
{
    for name in names {
        put_if(places, table.place_of(&name.name).is_none(), name.from)?;
    }
    Ok(())
}

/// Notes the names that are this one.
fn same(places: &mut Items<usize>, name: &Binding, names: &[Binding]) -> Result<(), AllocError>
    ensures { OnOk result (places.new ≡ places.old ++ spec.among (name.now ∷ []) names.now) }
{
    for other in names {
        put_if(places, other.name == name.name, other.from)?;
    }
    Ok(())
}

/// Notes the later one of a name and another, where there is another.
fn put_later(places: &mut Items<usize>, other: Option<usize>, at: usize) -> Result<(), AllocError>
    ensures { OnOk result (places.new ≡ places.old ++ spec.later other at) }
{
    match other {
        None => Ok(()),
        Some(other) => places.push(other.max(at)),
    }
}

/// Notes the names declared by `var` that are declared lexically too.
fn clashes(places: &mut Items<usize>, table: &Table, by_var: &[Binding]) -> Result<(), AllocError>
    ensures { OnOk result (places.new ≡ places.old ++ spec.clashes table.now by_var.now) }
{
    for name in by_var {
        put_later(places, table.place_of(&name.name), name.from)?;
    }
    Ok(())
}

/// Notes the names of a scope that are declared twice in it: lexically, or lexically and by `var` (14.2.1, 14.12.1, 15.2.1, 16.1.1,
/// 16.2.1.1).
pub fn scope(
    alloc: Global,
    places: &mut Items<usize>,
    names: Items<Binding>,
    by_var: &[Binding],
) -> Result<(), AllocError>
    ensures { OnOk result (places.new ≡ places.old ++ spec.scope_faults names by_var.now) }
{
    if names.is_empty() {
        return Ok(());
    }
    let table = Table::noting(alloc, places, names)?;
    clashes(places, &table, by_var)
}

/// Notes the names of a loop's head that its body declares by `var`, and those that the head declares twice (14.7.4.1, 14.7.5.1).
pub fn loop_scope(
    alloc: Global,
    places: &mut Items<usize>,
    names: Items<Binding>,
    by_var: &[Binding],
) -> Result<(), AllocError>
    ensures { OnOk result (places.new ≡ places.old ++ spec.loop_faults names by_var.now) }
{
    if names.is_empty() {
        return Ok(());
    }
    let table = Table::noting(alloc, places, names)?;
    among(places, &table, by_var)
}

/// Notes the names of a block of `catch` that are its parameter, and those that it declares by `var` (14.15.1).
pub fn caught(
    alloc: Global,
    places: &mut Items<usize>,
    parameter: &Binding,
    handler: &Tree,
    by_var: &[Binding],
) -> Result<(), AllocError>
    ensures { OnOk result (places.new ≡ places.old ++ (spec.among (parameter.now ∷ []) (block_names handler.now) ++ spec.among (parameter.now ∷ []) by_var.now)) }
{
    let declared = names::block_names(alloc, handler)?;
    same(places, parameter, declared.as_slice())?;
    same(places, parameter, by_var)
}
