//! Expressions in short.

use crate::functions::put_function;
use crate::trees::{open, put_last, put_part, put_parts, put_tree, put_trees};
use crate::words::{put_link, put_number, put_properties, put_quoted, put_texts};
use source_tables::put_units;
use sr_ast::{AssignOp, Element, Node, Property};
use std::alloc::AllocError;
use std::fmt::Write;

/// Puts a node at the end: an operator with its operands, where `:name` marks an assignment whose target may give a name, or any other.
#[cycle(print)]
pub fn put_operation(out: &mut String, node: &Node) -> Result<(), AllocError> {
    match node {
        Node::Sequence(parts) => {
            out.push_str("(sequence")?;
            put_trees(out, parts.as_slice())?;
            out.push_str(")")
        }
        Node::Assign(op, target, value, named) => {
            put_assignment(out, *op, *named)?;
            put_part(out, target)?;
            put_last(out, value)
        }
        Node::Cond(test, yes, no) => {
            out.push_str("(cond")?;
            put_part(out, test)?;
            put_part(out, yes)?;
            put_last(out, no)
        }
        Node::Logical(op, left, right) => {
            write!(out, "({op:?}")?;
            put_part(out, left)?;
            put_last(out, right)
        }
        Node::Binary(op, left, right) => {
            write!(out, "({op:?}")?;
            put_part(out, left)?;
            put_last(out, right)
        }
        Node::Unary(op, operand) => {
            write!(out, "({op:?}")?;
            put_last(out, operand)
        }
        Node::Update(op, target) => {
            write!(out, "({op:?}")?;
            put_last(out, target)
        }
        _ => put_access(out, node),
    }
}

/// Opens an assignment.
fn put_assignment(out: &mut String, op: AssignOp, named: bool) -> Result<(), AllocError> {
    let mark = if named { ":name" } else { "" };
    write!(out, "({op:?}{mark}")
}

/// Puts elements at the end.
#[cycle(print)]
fn put_elements(out: &mut String, elements: &[Element]) -> Result<(), AllocError> {
    for element in elements {
        match element {
            Element::Value(tree) => put_part(out, tree)?,
            Element::Spread(tree) => {
                out.push_str(" ...")?;
                put_tree(out, tree.get())?;
            }
            Element::Hole => out.push_str(" _")?,
        }
    }
    Ok(())
}

/// Puts a property, a call or `new` at the end, or another node.
#[cycle(print)]
fn put_access(out: &mut String, node: &Node) -> Result<(), AllocError> {
    match node {
        Node::Member(link, object, name) => {
            out.push_str("(")?;
            put_link(out, *link)?;
            out.push_str(".")?;
            put_units(out, name.units())?;
            put_last(out, object)
        }
        Node::Index(link, object, key) => {
            out.push_str("(")?;
            put_link(out, *link)?;
            out.push_str("index")?;
            put_part(out, object)?;
            put_last(out, key)
        }
        Node::Call(link, callee, arguments) => {
            out.push_str("(")?;
            put_link(out, *link)?;
            out.push_str("call")?;
            put_part(out, callee)?;
            put_elements(out, arguments.as_slice())?;
            out.push_str(")")
        }
        Node::New(callee, None) => {
            out.push_str("(new")?;
            put_last(out, callee)
        }
        Node::New(callee, Some(arguments)) => {
            out.push_str("(new()")?;
            put_part(out, callee)?;
            put_elements(out, arguments.as_slice())?;
            out.push_str(")")
        }
        _ => put_literal(out, node),
    }
}

/// Puts the parts of properties at the end.
#[cycle(print)]
fn put_values(out: &mut String, properties: &[Property]) -> Result<(), AllocError> {
    for property in properties {
        match property {
            Property::Computed(name, value) => {
                put_part(out, name)?;
                put_part(out, value)?;
            }
            Property::Named(_, part) | Property::Spread(part) | Property::Method(part) => {
                put_part(out, part)?
            }
        }
    }
    Ok(())
}

/// Puts an array at the end.
#[cycle(print)]
fn put_array(out: &mut String, elements: &[Element]) -> Result<(), AllocError> {
    if elements.is_empty() {
        return out.push_str("array");
    }
    out.push_str("(array")?;
    put_elements(out, elements)?;
    out.push_str(")")
}

/// Puts an object at the end.
#[cycle(print)]
fn put_object(out: &mut String, properties: &[Property]) -> Result<(), AllocError> {
    if properties.is_empty() {
        return out.push_str("object()");
    }
    out.push_str("(object")?;
    put_properties(out, properties)?;
    put_values(out, properties)?;
    out.push_str(")")
}

/// Puts a name or a literal at the end, or another node.
#[cycle(print)]
fn put_literal(out: &mut String, node: &Node) -> Result<(), AllocError> {
    match node {
        Node::This => out.push_str("this"),
        Node::Name(name) => put_units(out, name.units()),
        Node::Null => out.push_str("null"),
        Node::Bool(value) => write!(out, "{value}"),
        Node::Num(value) => put_number(out, *value),
        Node::Text(value) => put_quoted(out, value),
        Node::Template(texts, parts) => {
            open(out, parts.as_slice())?;
            out.push_str("template")?;
            put_texts(out, texts.as_slice())?;
            put_parts(out, parts.as_slice())
        }
        Node::Array(elements) => put_array(out, elements.as_slice()),
        Node::Object(properties) => put_object(out, properties.as_slice()),
        _ => put_function(out, node),
    }
}
