ghost use Rattle.std.specs.Prelude.{◌≡◌, ℕ, ◌++◌, OnOk, IsTrue};
ghost use Rattle.sr_early.specs.Faults as spec;
ghost use Rattle.sr_early.specs.Kinds as kind;
ghost use Rattle.sr_names.specs.Names as names_of;
ghost use Rattle.sr_early.specs.Parts as parts;
ghost use Rattle.sr_names.specs.Strictness as strict_code;
ghost use Rattle.sr_early.specs.Targets as targets;

use crate::context::Context;
use crate::trees::{expression, expression_if_there, since, tree, tree_if_there};
use sqlite_items::Items;
use sr_ast::{Binding, HeadBinding, Node, Tree};
use sr_names::{names, scopes, strictness};
use std::alloc::{AllocError, Global};

/// Whether a statement is a loop, with labels before it or without (ECMA-262 14.13.4).
#[cycle(loops)]
#[tactic(auto, using(crate::proofs::Declared::loop_is))]
pub fn is_loop(tree: &Tree) -> bool
    ensures { result ≡ targets.is_loop tree.now }
{
    is_loop_node(&tree.node)
}

/// Whether a node is of a loop.
#[cycle(loops)]
fn is_loop_node(node: &Node) -> bool
    ensures { result ≡ parts.node_loop node.now }
{
    match node {
        Node::Do(..)
        | Node::While(..)
        | Node::For(..)
        | Node::ForIn(..)
        | Node::ForInTarget(..)
        | Node::ForOf(..)
        | Node::ForOfTarget(..) => true,
        Node::Labelled(_, statement) => is_loop(statement.get()),
        _ => false,
    }
}

/// The names and places of the body of a loop.
#[cycle(faults)]
fn looped(
    alloc: Global,
    context: &Context,
    vars: &mut Items<Binding>,
    places: &mut Items<usize>,
    statement: &Tree,
) -> Result<(), AllocError>
    ensures vars { OnOk result (vars.new ≡ vars.old ++ names_of.vars statement.now) }
    ensures places { OnOk result (places.new ≡ places.old ++ spec.faults statement.now (targets.in_loop context.now)) }
{
    let inner = context.in_loop()?;
    tree(alloc, &inner, vars, places, statement)
}

/// The names and places of the body of a loop, whose head declares these names (14.7.4.1, 14.7.5.1).
#[cycle(faults)]
fn loop_body(
    alloc: Global,
    context: &Context,
    vars: &mut Items<Binding>,
    places: &mut Items<usize>,
    declared: Items<Binding>,
    statement: &Tree,
) -> Result<(), AllocError>
    ensures vars { OnOk result (vars.new ≡ vars.old ++ names_of.vars statement.now) }
    ensures places { OnOk result (places.new ≡ places.old ++ parts.loop_body_at declared statement.now context.now) }
{
    let start = vars.len();
    looped(alloc, context, vars, places, statement)?;
    scopes::loop_scope(alloc, places, declared, since(vars, start))
}

/// The names and places of the head of a `for` over an object or an iterator, with a declared name (14.7.5.1).
fn for_each_head(
    context: &Context,
    vars: &mut Items<Binding>,
    places: &mut Items<usize>,
    head: &HeadBinding,
) -> Result<(), AllocError>
    ensures vars { OnOk result (vars.new ≡ vars.old ++ names_of.head_vars head.now) }
    ensures places { OnOk result (places.new ≡ places.old ++ strict_code.binding_faults context.now.strict head.now.binding) }
{
    strictness::binding(
        places,
        context.strict,
        &head.binding.name,
        head.binding.from,
    )?;
    names::put_head_vars(vars, head)
}

/// The names and places of its body (14.7.5.1).
#[cycle(faults)]
fn for_each_body(
    alloc: Global,
    context: &Context,
    vars: &mut Items<Binding>,
    places: &mut Items<usize>,
    head: &HeadBinding,
    statement: &Tree,
) -> Result<(), AllocError>
    ensures vars { OnOk result (vars.new ≡ vars.old ++ names_of.vars statement.now) }
    ensures places { OnOk result (places.new ≡ places.old ++ parts.loop_body_at (names_of.head_names head.now) statement.now context.now) }
{
    let declared = names::head_names(alloc, head)?;
    loop_body(alloc, context, vars, places, declared, statement)
}

/// The places of the target of a `for` over an object or an iterator (14.7.5.1).
#[cycle(faults)]
fn for_each_target(
    alloc: Global,
    context: &Context,
    places: &mut Items<usize>,
    target: &Tree,
) -> Result<(), AllocError>
    ensures { OnOk result (places.new ≡ places.old ++ (strict_code.target_faults context.now.strict target.now ++ spec.faults target.now context.now)) }
{
    strictness::target(places, context.strict, target)?;
    expression(alloc, context, places, target)
}

/// The names and places of a `for` over an object or an iterator.
#[cycle(faults)]
pub fn iteration(
    alloc: Global,
    context: &Context,
    vars: &mut Items<Binding>,
    places: &mut Items<usize>,
    node: &Node,
) -> Result<(), AllocError>
    requires { IsTrue (kind.is_iteration node.now) }
    ensures vars { OnOk result (vars.new ≡ vars.old ++ parts.node_vars node.now) }
    ensures places { (at : ℕ) → OnOk result (places.new ≡ places.old ++ parts.node_faults node.now at context.now) }
{
    match node {
        Node::ForIn(head, value, statement) => {
            for_each_head(context, vars, places, head)?;
            expression(alloc, context, places, value.get())?;
            for_each_body(alloc, context, vars, places, head, statement.get())
        }
        Node::ForOf(head, value, statement) => {
            for_each_head(context, vars, places, head)?;
            expression(alloc, context, places, value.get())?;
            for_each_body(alloc, context, vars, places, head, statement.get())
        }
        Node::ForInTarget(target, value, statement) => {
            for_each_target(alloc, context, places, target.get())?;
            expression(alloc, context, places, value.get())?;
            looped(alloc, context, vars, places, statement.get())
        }
        Node::ForOfTarget(target, value, statement) => {
            for_each_target(alloc, context, places, target.get())?;
            expression(alloc, context, places, value.get())?;
            looped(alloc, context, vars, places, statement.get())
        }
        _ => unreachable!(),
    }
}

/// The names and places of any other loop.
#[cycle(faults)]
pub fn repetition(
    alloc: Global,
    context: &Context,
    vars: &mut Items<Binding>,
    places: &mut Items<usize>,
    node: &Node,
) -> Result<(), AllocError>
    requires { IsTrue (kind.is_repetition node.now) }
    ensures vars { OnOk result (vars.new ≡ vars.old ++ parts.node_vars node.now) }
    ensures places { (at : ℕ) → OnOk result (places.new ≡ places.old ++ parts.node_faults node.now at context.now) }
{
    match node {
        Node::Do(statement, test) => {
            looped(alloc, context, vars, places, statement.get())?;
            expression(alloc, context, places, test.get())
        }
        Node::While(test, statement) => {
            expression(alloc, context, places, test.get())?;
            looped(alloc, context, vars, places, statement.get())
        }
        Node::For(first, test, update, statement) => {
            tree_if_there(alloc, context, vars, places, first)?;
            expression_if_there(alloc, context, places, test)?;
            expression_if_there(alloc, context, places, update)?;
            let declared = names::first_names(alloc, first)?;
            loop_body(alloc, context, vars, places, declared, statement.get())
        }
        _ => unreachable!(),
    }
}
