ghost use Rattle.std.specs.Prelude.{◌≡◌, ◌++◌, OnOk};
ghost use Rattle.sr_early.specs.Parts as parts;

use crate::context::Context;
use crate::modules;
use crate::trees::{top_trees, trees};
use sqlite_items::Items;
use sr_ast::Tree;
use sr_names::{names, scopes};
use sr_shared::Shared;
use std::alloc::{AllocError, Global};

/// The places of the items of a script (16.1.1).
pub fn script(
    alloc: Global,
    strict: bool,
    places: &mut Items<usize>,
    items: &[Shared<Tree>],
) -> Result<(), AllocError>
    ensures { OnOk result (places.new ≡ places.old ++ parts.script_at strict items.now) }
{
    let context = Context::of_items(alloc, strict)?;
    let mut vars = Items::new(alloc);
    top_trees(alloc, &context, &mut vars, places, items)?;
    let declared = names::top_names(alloc, items)?;
    scopes::scope(alloc, places, declared, vars.as_slice())
}

/// The places of the items of a module (16.2.1.1).
pub fn module(
    alloc: Global,
    places: &mut Items<usize>,
    items: &[Shared<Tree>],
) -> Result<(), AllocError>
    ensures { OnOk result (places.new ≡ places.old ++ parts.module_at items.now) }
{
    let context = Context::of_items(alloc, true)?;
    let mut vars = Items::new(alloc);
    trees(alloc, &context, &mut vars, places, items)?;
    let declared = names::module_names(alloc, items)?;
    scopes::scope(alloc, places, declared, vars.as_slice())?;
    modules::exports(alloc, places, items, vars)
}
