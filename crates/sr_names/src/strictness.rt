ghost use Rattle.std.specs.Prelude.{◌≡◌, ◌++◌, OnOk};
ghost use Rattle.sr_names.specs.Names.{names_in};
ghost use Rattle.sr_names.specs.Strictness as spec;

use crate::places::put_if;
use sqlite_items::Items;
use sr_ast::{Binding, Node, Tree, UnaryOp};
use sr_shared::Shared;
use sr_text::{Str, spells};
use std::alloc::AllocError;

/// How many code units the directive has, with its quotes.
const DIRECTIVE_UNITS: usize = 12;

/// Whether a tree is `use strict` as it is written, with no escape in it.
#[tactic(auto, unfolding(crate::specs::Strictness::is_use_strict))]
fn is_use_strict(tree: &Tree) -> bool
    ensures { result ≡ spec.is_use_strict tree.now }
{
    match &tree.node {
        Node::Text(value) => {
            spells(value.units(), b"use strict")
                && tree.to.saturating_sub(tree.from) == DIRECTIVE_UNITS
        }
        _ => false,
    }
}

/// The place of the first of the directives at the beginning that says that the code is strict (ECMA-262 11.2.1).
pub fn strict_directive(items: &[Shared<Tree>]) -> Option<usize>
    ensures { result ≡ spec.strict_directive items.now }
{
    for item in items {
        let item = item.get();
        match &item.node {
            Node::Directive(text) => {
                if is_use_strict(text.get()) {
                    return Some(item.from);
                }
            }
            _ => return None,
        }
    }
    None
}

/// Whether one of the directives at the beginning says that the code is strict (ECMA-262 11.2.1).
pub fn says_strict(items: &[Shared<Tree>]) -> bool
    ensures { result ≡ spec.says_strict items.now }
{
    strict_directive(items).is_some()
}

/// Whether a name is reserved in strict mode code alone (12.7.2).
#[tactic(auto, unfolding(crate::specs::Strictness::is_reserved))]
fn is_reserved(name: &[u16]) -> bool
    ensures { result ≡ spec.is_reserved name.now }
{
    spells(name, b"implements")
        || spells(name, b"interface")
        || spells(name, b"package")
        || spells(name, b"private")
        || spells(name, b"protected")
        || spells(name, b"public")
        || spells(name, b"static")
}

/// Whether a name is `eval`.
fn is_eval(name: &[u16]) -> bool
    ensures { result ≡ spec.is_eval name.now }
{
    spells(name, b"eval")
}

/// Notes a name or a label that is reserved, in strict mode code (13.1.1).
pub fn reference(
    places: &mut Items<usize>,
    strict: bool,
    name: &Str,
    at: usize,
) -> Result<(), AllocError>
    ensures { OnOk result (places.new ≡ places.old ++ spec.reference_faults strict name.now at) }
{
    put_if(places, strict && is_reserved(name.units()), at)
}

/// Notes a name that may not be bound in strict mode code (13.1.1).
pub fn binding(
    places: &mut Items<usize>,
    strict: bool,
    name: &Str,
    at: usize,
) -> Result<(), AllocError>
    ensures { OnOk result (places.new ≡ places.old ++ spec.binding_faults strict (record { name = name.now; from = at })) }
{
    put_if(
        places,
        strict && (is_eval(name.units()) || is_reserved(name.units())),
        at,
    )
}

/// Notes the names that may not be bound in strict mode code (13.1.1).
pub fn bindings(
    places: &mut Items<usize>,
    strict: bool,
    names: &[Binding],
) -> Result<(), AllocError>
    ensures { OnOk result (places.new ≡ places.old ++ spec.bindings_faults strict names.now) }
{
    for name in names {
        binding(places, strict, &name.name, name.from)?;
    }
    Ok(())
}

/// The same, where there is a name (13.1.1).
pub fn binding_if_there(
    places: &mut Items<usize>,
    strict: bool,
    name: &Option<Binding>,
) -> Result<(), AllocError>
    ensures { OnOk result (places.new ≡ places.old ++ spec.bindings_faults strict (names_in name.now)) }
{
    match name {
        None => Ok(()),
        Some(name) => binding(places, strict, &name.name, name.from),
    }
}

/// Notes a target that is `eval`, in strict mode code (8.6.4, 13.4.1, 13.15.1, 14.7.5.1).
pub fn target(places: &mut Items<usize>, strict: bool, tree: &Tree) -> Result<(), AllocError>
    ensures { OnOk result (places.new ≡ places.old ++ spec.target_faults strict tree.now) }
{
    match &tree.node {
        Node::Name(name) => put_if(places, strict && is_eval(name.units()), tree.from),
        _ => Ok(()),
    }
}

/// Whether a tree is a name.
fn is_name(tree: &Tree) -> bool
    ensures { result ≡ spec.is_name tree.now }
{
    match &tree.node {
        Node::Name(_) => true,
        _ => false,
    }
}

/// Notes, at its place, a `delete` of a name in strict mode code (13.5.1.1).
pub fn unary(
    places: &mut Items<usize>,
    strict: bool,
    op: UnaryOp,
    operand: &Tree,
    at: usize,
) -> Result<(), AllocError>
    ensures { OnOk result (places.new ≡ places.old ++ spec.unary_faults strict op operand.now at) }
{
    match op {
        UnaryOp::Delete => put_if(places, strict && is_name(operand), at),
        _ => Ok(()),
    }
}
