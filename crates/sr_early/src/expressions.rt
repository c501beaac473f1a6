ghost use Rattle.std.specs.Prelude.{◌≡◌, ℕ, ◌++◌, OnOk, IsTrue};
ghost use Rattle.sr_early.specs.Kinds as kind;
ghost use Rattle.sr_early.specs.Parts as parts;

use crate::context::Context;
use crate::trees::{expression, expressions};
use sqlite_items::Items;
use sr_ast::{Element, Node, Property};
use sr_names::strictness;
use std::alloc::{AllocError, Global};

/// The places of an element.
#[cycle(faults)]
fn element(
    alloc: Global,
    context: &Context,
    places: &mut Items<usize>,
    element: &Element,
) -> Result<(), AllocError>
    ensures { OnOk result (places.new ≡ places.old ++ parts.element_faults element.now context.now) }
{
    match element {
        Element::Value(part) => expression(alloc, context, places, part.get()),
        Element::Spread(part) => expression(alloc, context, places, part.get()),
        Element::Hole => Ok(()),
    }
}

/// The places of elements in order.
#[cycle(faults)]
pub fn elements(
    alloc: Global,
    context: &Context,
    places: &mut Items<usize>,
    elements: &[Element],
) -> Result<(), AllocError>
    ensures { OnOk result (places.new ≡ places.old ++ parts.elements_faults elements.now context.now) }
{
    for one in elements {
        element(alloc, context, places, one)?;
    }
    Ok(())
}

/// The places of a property.
#[cycle(faults)]
fn property(
    alloc: Global,
    context: &Context,
    places: &mut Items<usize>,
    property: &Property,
) -> Result<(), AllocError>
    ensures { OnOk result (places.new ≡ places.old ++ parts.property_faults property.now context.now) }
{
    match property {
        Property::Named(_, value) => expression(alloc, context, places, value.get()),
        Property::Computed(name, value) => {
            expression(alloc, context, places, name.get())?;
            expression(alloc, context, places, value.get())
        }
        Property::Spread(part) => expression(alloc, context, places, part.get()),
        Property::Method(part) => expression(alloc, context, places, part.get()),
    }
}

/// The places of properties in order.
#[cycle(faults)]
pub fn properties(
    alloc: Global,
    context: &Context,
    places: &mut Items<usize>,
    properties: &[Property],
) -> Result<(), AllocError>
    ensures { OnOk result (places.new ≡ places.old ++ parts.properties_faults properties.now context.now) }
{
    for one in properties {
        property(alloc, context, places, one)?;
    }
    Ok(())
}

/// The places of an operator with its operands.
#[cycle(faults)]
pub fn operation(
    alloc: Global,
    context: &Context,
    places: &mut Items<usize>,
    node: &Node,
    at: usize,
) -> Result<(), AllocError>
    requires { IsTrue (kind.is_operation node.now) }
    ensures { OnOk result (places.new ≡ places.old ++ parts.node_faults node.now at context.now) }
{
    match node {
        Node::Sequence(parts) => expressions(alloc, context, places, parts.as_slice()),
        Node::Assign(_, target, value, _) => {
            strictness::target(places, context.strict, target.get())?;
            expression(alloc, context, places, target.get())?;
            expression(alloc, context, places, value.get())
        }
        Node::Cond(test, yes, no) => {
            expression(alloc, context, places, test.get())?;
            expression(alloc, context, places, yes.get())?;
            expression(alloc, context, places, no.get())
        }
        Node::Logical(_, left, right) | Node::Binary(_, left, right) => {
            expression(alloc, context, places, left.get())?;
            expression(alloc, context, places, right.get())
        }
        Node::Unary(op, operand) => {
            strictness::unary(places, context.strict, *op, operand.get(), at)?;
            expression(alloc, context, places, operand.get())
        }
        Node::Update(_, target) => {
            strictness::target(places, context.strict, target.get())?;
            expression(alloc, context, places, target.get())
        }
        _ => unreachable!(),
    }
}

/// The places of a property, a call or `new`.
#[cycle(faults)]
pub fn access(
    alloc: Global,
    context: &Context,
    places: &mut Items<usize>,
    node: &Node,
) -> Result<(), AllocError>
    requires { IsTrue (kind.is_access node.now) }
    ensures { (at : ℕ) → OnOk result (places.new ≡ places.old ++ parts.node_faults node.now at context.now) }
{
    match node {
        Node::Member(_, object, _) => expression(alloc, context, places, object.get()),
        Node::Index(_, object, key) => {
            expression(alloc, context, places, object.get())?;
            expression(alloc, context, places, key.get())
        }
        Node::Call(_, callee, arguments) => {
            expression(alloc, context, places, callee.get())?;
            elements(alloc, context, places, arguments.as_slice())
        }
        Node::New(callee, None) => expression(alloc, context, places, callee.get()),
        Node::New(callee, Some(arguments)) => {
            expression(alloc, context, places, callee.get())?;
            elements(alloc, context, places, arguments.as_slice())
        }
        _ => unreachable!(),
    }
}

/// The places of a name or a literal.
#[cycle(faults)]
pub fn literal(
    alloc: Global,
    context: &Context,
    places: &mut Items<usize>,
    node: &Node,
    at: usize,
) -> Result<(), AllocError>
    requires { IsTrue (kind.is_literal node.now) }
    ensures { OnOk result (places.new ≡ places.old ++ parts.node_faults node.now at context.now) }
{
    match node {
        Node::This | Node::Null | Node::Bool(_) | Node::Num(_) | Node::Text(_) => Ok(()),
        Node::Name(name) => strictness::reference(places, context.strict, name, at),
        Node::Template(_, parts) => expressions(alloc, context, places, parts.as_slice()),
        Node::Array(parts) => elements(alloc, context, places, parts.as_slice()),
        Node::Object(parts) => properties(alloc, context, places, parts.as_slice()),
        _ => unreachable!(),
    }
}
