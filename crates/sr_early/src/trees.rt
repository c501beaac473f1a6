ghost use Rattle.std.specs.Prelude.{◌≡◌, ◌≤◌, ◌++◌, drop, length, OnOk};
ghost use Rattle.sr_early.specs.Faults as spec;
ghost use Rattle.sr_names.specs.Names as names_of;
ghost use Rattle.sr_early.specs.Parts as parts;

use crate::bodies::function;
use crate::context::Context;
use crate::expressions::{access, literal, operation};
use crate::loops::{iteration, repetition};
use crate::statements::{compound, module_item, simple};
use sqlite_items::Items;
use sr_ast::{Binding, Node, Tree};
use sr_names::names;
use sr_shared::Shared;
use std::alloc::{AllocError, Global};

/// The names from this place in the list on.
pub fn since(names: &Items<Binding>, start: usize) -> &[Binding]
    requires { start ≤ length names.now }
    ensures { result.now ≡ drop start names.now }
{
    &names.as_slice()[start..]
}

/// Puts the names that a tree declares by `var` at the end of `vars`, and the places where it breaks a rule at the end of `places`.
#[cycle(faults)]
#[tactic(auto, using(crate::proofs::Judged::tree_is, crate::proofs::Declared::vars_is))]
pub fn tree(
    alloc: Global,
    context: &Context,
    vars: &mut Items<Binding>,
    places: &mut Items<usize>,
    tree: &Tree,
) -> Result<(), AllocError>
    ensures vars { OnOk result (vars.new ≡ vars.old ++ names_of.vars tree.now) }
    ensures places { OnOk result (places.new ≡ places.old ++ spec.faults tree.now context.now) }
{
    node(alloc, context, vars, places, &tree.node, tree.from)
}

/// The places of a tree that declares no name by `var`.
#[cycle(faults)]
pub fn expression(
    alloc: Global,
    context: &Context,
    places: &mut Items<usize>,
    part: &Tree,
) -> Result<(), AllocError>
    ensures { OnOk result (places.new ≡ places.old ++ spec.faults part.now context.now) }
{
    let mut vars = Items::new(alloc);
    tree(alloc, context, &mut vars, places, part)
}

/// The same of trees in order.
#[cycle(faults)]
pub fn expressions(
    alloc: Global,
    context: &Context,
    places: &mut Items<usize>,
    trees: &[Shared<Tree>],
) -> Result<(), AllocError>
    ensures { OnOk result (places.new ≡ places.old ++ spec.all_faults trees.now context.now) }
{
    for one in trees {
        expression(alloc, context, places, one.get())?;
    }
    Ok(())
}

/// The same of a tree, where there is one.
#[cycle(faults)]
pub fn expression_if_there(
    alloc: Global,
    context: &Context,
    places: &mut Items<usize>,
    part: &Option<Shared<Tree>>,
) -> Result<(), AllocError>
    ensures { OnOk result (places.new ≡ places.old ++ parts.faults_if_there part.now context.now) }
{
    match part {
        None => Ok(()),
        Some(part) => expression(alloc, context, places, part.get()),
    }
}

/// The names and places of statements in order.
#[cycle(faults)]
pub fn trees(
    alloc: Global,
    context: &Context,
    vars: &mut Items<Binding>,
    places: &mut Items<usize>,
    trees: &[Shared<Tree>],
) -> Result<(), AllocError>
    ensures vars { OnOk result (vars.new ≡ vars.old ++ names_of.all_vars trees.now) }
    ensures places { OnOk result (places.new ≡ places.old ++ spec.all_faults trees.now context.now) }
{
    for one in trees {
        tree(alloc, context, vars, places, one.get())?;
    }
    Ok(())
}

/// The names and places of the items of a script or a body, where functions count as `var` (8.2.10).
#[cycle(faults)]
pub fn top_trees(
    alloc: Global,
    context: &Context,
    vars: &mut Items<Binding>,
    places: &mut Items<usize>,
    items: &[Shared<Tree>],
) -> Result<(), AllocError>
    ensures vars { OnOk result (vars.new ≡ vars.old ++ names_of.top_vars items.now) }
    ensures places { OnOk result (places.new ≡ places.old ++ spec.all_faults items.now context.now) }
{
    for item in items {
        names::put_function(vars, item.get())?;
        tree(alloc, context, vars, places, item.get())?;
    }
    Ok(())
}

/// The names and places of a statement, where there is one.
#[cycle(faults)]
pub fn tree_if_there(
    alloc: Global,
    context: &Context,
    vars: &mut Items<Binding>,
    places: &mut Items<usize>,
    part: &Option<Shared<Tree>>,
) -> Result<(), AllocError>
    ensures vars { OnOk result (vars.new ≡ vars.old ++ parts.vars_if_there part.now) }
    ensures places { OnOk result (places.new ≡ places.old ++ parts.faults_if_there part.now context.now) }
{
    match part {
        None => Ok(()),
        Some(part) => tree(alloc, context, vars, places, part.get()),
    }
}

/// The names and places of a node, by the place of its tree.
#[cycle(faults)]
fn node(
    alloc: Global,
    context: &Context,
    vars: &mut Items<Binding>,
    places: &mut Items<usize>,
    node: &Node,
    at: usize,
) -> Result<(), AllocError>
    ensures vars { OnOk result (vars.new ≡ vars.old ++ parts.node_vars node.now) }
    ensures places { OnOk result (places.new ≡ places.old ++ parts.node_faults node.now at context.now) }
{
    match node {
        Node::This
        | Node::Name(_)
        | Node::Null
        | Node::Bool(_)
        | Node::Num(_)
        | Node::Text(_)
        | Node::Template(..)
        | Node::Array(_)
        | Node::Object(_) => literal(alloc, context, places, node, at),
        Node::Member(..) | Node::Index(..) | Node::Call(..) | Node::New(..) => {
            access(alloc, context, places, node)
        }
        Node::Method(..)
        | Node::ComputedMethod(..)
        | Node::Getter(..)
        | Node::Setter(..)
        | Node::Function(..)
        | Node::Arrow(..)
        | Node::ExpressionArrow(..)
        | Node::FunctionDeclaration(..) => function(alloc, context, places, node),
        Node::Block(_)
        | Node::If(..)
        | Node::Switch(..)
        | Node::Try(..)
        | Node::Labelled(..)
        | Node::Var(_)
        | Node::Export(_) => compound(alloc, context, vars, places, node, at),
        Node::Do(..) | Node::While(..) | Node::For(..) => {
            repetition(alloc, context, vars, places, node)
        }
        Node::ForIn(..) | Node::ForInTarget(..) | Node::ForOf(..) | Node::ForOfTarget(..) => {
            iteration(alloc, context, vars, places, node)
        }
        Node::Expression(_)
        | Node::Directive(_)
        | Node::Lexical(..)
        | Node::Empty
        | Node::Continue(_)
        | Node::Break(_)
        | Node::Return(_)
        | Node::Throw(_)
        | Node::Debugger => simple(alloc, context, places, node, at),
        Node::Import(..) | Node::ExportAll(..) | Node::ExportNames(..) | Node::ExportDefault(_) =>
            module_item(alloc, context, places, node),
        _ => operation(alloc, context, places, node, at),
    }
}
