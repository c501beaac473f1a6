ghost use Rattle.std.specs.Prelude.{◌≡◌, ◌++◌, IfOk, OnOk};
ghost use Rattle.sr_early.specs.Exports as spec;

use sqlite_items::Items;
use sr_ast::{Binding, ExportName, Node, Tree};
use sr_names::names::{self, put, put_bound, put_if_there};
use sr_names::scopes::{self, Table};
use sr_shared::Shared;
use sr_text::{Str, TextRefusal};
use std::alloc::{AllocError, Global};

/// The code units of `default`.
const DEFAULT: [u16; 7] = [0x64, 0x65, 0x66, 0x61, 0x75, 0x6C, 0x74];

/// Puts the names that an export gives at the end.
fn put_outer(names: &mut Items<Binding>, exported: &[ExportName]) -> Result<(), AllocError>
    ensures { OnOk result (names.new ≡ names.old ++ spec.outer_names exported.now) }
{
    for name in exported {
        put(names, &name.exported)?;
    }
    Ok(())
}

/// Puts the names here of an export at the end.
fn put_local(names: &mut Items<Binding>, exported: &[ExportName]) -> Result<(), AllocError>
    ensures { OnOk result (names.new ≡ names.old ++ spec.local_names exported.now) }
{
    for name in exported {
        put(names, &name.local)?;
    }
    Ok(())
}

/// The name of a default export at this place.
fn default_name(alloc: Global, at: usize) -> Result<Binding, AllocError>
    ensures { IfOk result (λ name. name ≡ spec.default_name at) }
{
    match Str::of_units(alloc, &DEFAULT) {
        Ok(name) => Ok(Binding { name, from: at }),
        Err(TextRefusal::Memory) => Err(AllocError),
        Err(_) => unreachable!(),
    }
}

/// Puts the names that an item exports at the end (ECMA-262 16.2.3.3).
fn put_exported(alloc: Global, names: &mut Items<Binding>, item: &Tree) -> Result<(), AllocError>
    ensures { OnOk result (names.new ≡ names.old ++ spec.exported_name item.now) }
{
    match &item.node {
        Node::ExportAll(outer, _) => put_if_there(names, outer),
        Node::ExportNames(exported, _) => put_outer(names, exported.as_slice()),
        Node::Export(part) => put_bound(names, part.get()),
        Node::ExportDefault(_) => names.push(default_name(alloc, item.from)?),
        _ => Ok(()),
    }
}

/// The names that items export (16.2.3.3).
fn exported_names(alloc: Global, items: &[Shared<Tree>]) -> Result<Items<Binding>, AllocError>
    ensures { IfOk result (λ names. names ≡ spec.exported_names items.now) }
{
    let mut names = Items::new(alloc);
    for item in items {
        put_exported(alloc, &mut names, item.get())?;
    }
    Ok(names)
}

/// Puts the names that an item exports and does not declare at the end (16.2.3.2).
fn put_exported_binding(names: &mut Items<Binding>, item: &Tree) -> Result<(), AllocError>
    ensures { OnOk result (names.new ≡ names.old ++ spec.exported_binding item.now) }
{
    match &item.node {
        Node::ExportNames(exported, None) => put_local(names, exported.as_slice()),
        _ => Ok(()),
    }
}

/// The names that items export and that no export declares (16.2.3.2).
fn exported_bindings(alloc: Global, items: &[Shared<Tree>]) -> Result<Items<Binding>, AllocError>
    ensures { IfOk result (λ names. names ≡ spec.exported_bindings items.now) }
{
    let mut names = Items::new(alloc);
    for item in items {
        put_exported_binding(&mut names, item.get())?;
    }
    Ok(names)
}

/// Notes the names that the items of a module export twice, and those that they export and do not declare (16.2.1.1). The names
/// that they declare by `var` are given.
pub fn exports(
    alloc: Global,
    places: &mut Items<usize>,
    items: &[Shared<Tree>],
    by_var: Items<Binding>,
) -> Result<(), AllocError>
    ensures { OnOk result (places.new ≡ places.old ++ spec.exports_with by_var items.now) }
{
    let exported = exported_names(alloc, items)?;
    Table::noting(alloc, places, exported)?;
    let mut declared = names::module_names(alloc, items)?;
    declared.append(by_var)?;
    let declared = Table::new(alloc, declared)?;
    let bindings = exported_bindings(alloc, items)?;
    scopes::missing(places, &declared, bindings.as_slice())
}
