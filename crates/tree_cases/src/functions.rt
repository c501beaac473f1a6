//! Functions in short.

use crate::statements::put_statement;
use crate::trees::{open, put_last, put_part, put_parts, put_trees};
use crate::words::{put_binding, put_binding_after, put_key, put_parameters};
use sr_ast::{Binding, Node, Parameters, Tree};
use sr_shared::Shared;
use std::alloc::AllocError;

/// Puts a function with its name at the end.
#[cycle(print)]
fn put_named(
    out: &mut String,
    name: &Option<Binding>,
    parameters: &Parameters,
    body: &[Shared<Tree>],
) -> Result<(), AllocError> {
    open(out, body)?;
    out.push_str("function")?;
    put_binding_after(out, ":", name)?;
    put_parameters(out, parameters)?;
    put_parts(out, body)
}

/// Puts a method, a getter or a setter at the end, or another node.
#[cycle(print)]
fn put_method(out: &mut String, node: &Node) -> Result<(), AllocError> {
    match node {
        Node::Method(name, parameters, body) => {
            open(out, body.as_slice())?;
            out.push_str("method:")?;
            put_key(out, name)?;
            put_parameters(out, parameters)?;
            put_parts(out, body.as_slice())
        }
        Node::ComputedMethod(name, parameters, body) => {
            out.push_str("(method[]")?;
            put_parameters(out, parameters)?;
            put_part(out, name)?;
            put_trees(out, body.as_slice())?;
            out.push_str(")")
        }
        Node::Getter(name, body) => {
            open(out, body.as_slice())?;
            out.push_str("get:")?;
            put_key(out, name)?;
            put_parts(out, body.as_slice())
        }
        Node::Setter(name, parameter, body) => {
            open(out, body.as_slice())?;
            out.push_str("set:")?;
            put_key(out, name)?;
            out.push_str("(")?;
            put_binding(out, parameter)?;
            out.push_str(")")?;
            put_parts(out, body.as_slice())
        }
        _ => put_statement(out, node),
    }
}

/// Puts a function at the end, or another node.
#[cycle(print)]
pub fn put_function(out: &mut String, node: &Node) -> Result<(), AllocError> {
    match node {
        Node::Function(name, parameters, body) => put_named(out, name, parameters, body.as_slice()),
        Node::FunctionDeclaration(name, parameters, body) => {
            put_named(out, name, parameters, body.as_slice())
        }
        Node::Arrow(parameters, body) => {
            open(out, body.as_slice())?;
            out.push_str("body")?;
            put_parameters(out, parameters)?;
            put_parts(out, body.as_slice())
        }
        Node::ExpressionArrow(parameters, value) => {
            out.push_str("(arrow")?;
            put_parameters(out, parameters)?;
            put_last(out, value)
        }
        _ => put_method(out, node),
    }
}
