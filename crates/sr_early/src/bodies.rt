ghost use Rattle.std.specs.Prelude.{◌≡◌, ℕ, ◌++◌, OnOk, false, IsTrue};
ghost use Rattle.sr_early.specs.Kinds as kind;
ghost use Rattle.sr_early.specs.Parts as parts;

use crate::context::Context;
use crate::functions::{body_names, directive_beside_rest, head};
use crate::trees::{expression, top_trees};
use sqlite_items::Items;
use sr_ast::{Binding, Node, Parameters, Tree};
use sr_names::names;
use sr_names::strictness::strict_directive;
use sr_shared::Shared;
use std::alloc::{AllocError, Global};

/// The places of a function with its parameters and its body (15.2.1).
#[cycle(faults)]
fn body(
    alloc: Global,
    context: &Context,
    places: &mut Items<usize>,
    distinct: bool,
    called: &Option<Binding>,
    parameters: &Parameters,
    items: &[Shared<Tree>],
) -> Result<(), AllocError>
    ensures { OnOk result (places.new ≡ places.old ++ parts.function_at distinct called.now parameters.now items.now context.now) }
{
    let directive = strict_directive(items);
    let strict = context.strict || directive.is_some();
    head(alloc, places, strict, distinct, called, parameters)?;
    directive_beside_rest(places, &parameters.rest, directive)?;
    let inner = Context::of_body(alloc, strict)?;
    let mut vars = Items::new(alloc);
    top_trees(alloc, &inner, &mut vars, places, items)?;
    body_names(alloc, places, parameters, items, vars.as_slice())
}

/// The places of a function without a name (15.3, 15.4).
#[cycle(faults)]
fn method(
    alloc: Global,
    context: &Context,
    places: &mut Items<usize>,
    parameters: &Parameters,
    items: &[Shared<Tree>],
) -> Result<(), AllocError>
    ensures { OnOk result (places.new ≡ places.old ++ parts.method_at parameters.now items.now context.now) }
{
    body(alloc, context, places, true, &None, parameters, items)
}

/// The places of a function that may have a name (15.2.1).
#[cycle(faults)]
fn called_function(
    alloc: Global,
    context: &Context,
    places: &mut Items<usize>,
    called: &Option<Binding>,
    parameters: &Parameters,
    items: &[Shared<Tree>],
) -> Result<(), AllocError>
    ensures { OnOk result (places.new ≡ places.old ++ parts.function_at false called.now parameters.now items.now context.now) }
{
    body(alloc, context, places, false, called, parameters, items)
}

/// The places of an arrow function whose body is an expression (15.3.1).
#[cycle(faults)]
fn expression_arrow(
    alloc: Global,
    context: &Context,
    places: &mut Items<usize>,
    parameters: &Parameters,
    value: &Tree,
) -> Result<(), AllocError>
    ensures { OnOk result (places.new ≡ places.old ++ parts.arrow_at parameters.now value.now context.now) }
{
    head(alloc, places, context.strict, true, &None, parameters)?;
    let inner = Context::of_body(alloc, context.strict)?;
    expression(alloc, &inner, places, value)
}

/// The places of a function or a method.
#[cycle(faults)]
pub fn function(
    alloc: Global,
    context: &Context,
    places: &mut Items<usize>,
    node: &Node,
) -> Result<(), AllocError>
    requires { IsTrue (kind.is_function node.now) }
    ensures { (at : ℕ) → OnOk result (places.new ≡ places.old ++ parts.node_faults node.now at context.now) }
{
    match node {
        Node::Method(_, parameters, items) => {
            method(alloc, context, places, parameters, items.as_slice())
        }
        Node::ComputedMethod(name, parameters, items) => {
            expression(alloc, context, places, name.get())?;
            method(alloc, context, places, parameters, items.as_slice())
        }
        Node::Getter(_, items) => {
            let parameters = names::no_parameters(alloc);
            method(alloc, context, places, &parameters, items.as_slice())
        }
        Node::Setter(_, parameter, items) => {
            let parameters = names::one_parameter(alloc, parameter)?;
            method(alloc, context, places, &parameters, items.as_slice())
        }
        Node::Function(called, parameters, items) => {
            called_function(alloc, context, places, called, parameters, items.as_slice())
        }
        Node::Arrow(parameters, items) => {
            method(alloc, context, places, parameters, items.as_slice())
        }
        Node::ExpressionArrow(parameters, value) => {
            expression_arrow(alloc, context, places, parameters, value.get())
        }
        Node::FunctionDeclaration(called, parameters, items) => {
            called_function(alloc, context, places, called, parameters, items.as_slice())
        }
        _ => unreachable!(),
    }
}
