//! Statements in short.

use crate::modules::put_module_item;
use crate::trees::{open, put_if_there, put_last, put_part, put_parts, put_trees};
use crate::words::{put_binding_after, put_declared, put_head, put_label};
use source_tables::put_units;
use sr_ast::{Case, Declaration, LexicalKind, Node, Tree};
use sr_shared::Shared;
use std::alloc::AllocError;

/// Puts declarations behind their word at the end.
#[cycle(print)]
fn put_declarations(
    out: &mut String,
    word: &str,
    declarations: &[Declaration],
) -> Result<(), AllocError> {
    out.push_str(word)?;
    put_declared(out, declarations)?;
    for declaration in declarations {
        put_if_there(out, " ", &declaration.value)?;
    }
    out.push_str(")")
}

/// Puts the clauses of a `switch` at the end.
#[cycle(print)]
fn put_cases(out: &mut String, cases: &[Case]) -> Result<(), AllocError> {
    for case in cases {
        out.push_str(if case.test.is_some() { "" } else { " default" })?;
        put_if_there(out, " case ", &case.test)?;
        put_trees(out, case.body.as_slice())?;
    }
    Ok(())
}

/// Puts a statement that ends what runs at the end, or another node.
#[cycle(print)]
fn put_jump(out: &mut String, node: &Node) -> Result<(), AllocError> {
    match node {
        Node::Continue(label) => {
            out.push_str("continue")?;
            put_label(out, label)
        }
        Node::Break(label) => {
            out.push_str("break")?;
            put_label(out, label)
        }
        Node::Return(None) => out.push_str("return"),
        Node::Return(Some(value)) => {
            out.push_str("(return")?;
            put_last(out, value)
        }
        Node::Throw(value) => {
            out.push_str("(throw")?;
            put_last(out, value)
        }
        _ => put_loop(out, node),
    }
}

/// Puts a statement in which others stand at the end, or another node.
#[cycle(print)]
fn put_compound(out: &mut String, node: &Node) -> Result<(), AllocError> {
    match node {
        Node::Block(parts) => {
            open(out, parts.as_slice())?;
            out.push_str("block")?;
            put_parts(out, parts.as_slice())
        }
        Node::If(test, yes, no) => {
            out.push_str("(if")?;
            put_part(out, test)?;
            put_part(out, yes)?;
            put_if_there(out, " ", no)?;
            out.push_str(")")
        }
        Node::Switch(value, cases) => {
            out.push_str("(switch")?;
            put_part(out, value)?;
            put_cases(out, cases.as_slice())?;
            out.push_str(")")
        }
        Node::Try(body, parameter, handler, last) => {
            out.push_str("(try")?;
            put_binding_after(out, ":", parameter)?;
            put_part(out, body)?;
            put_if_there(out, " catch ", handler)?;
            put_if_there(out, " finally ", last)?;
            out.push_str(")")
        }
        Node::Labelled(label, body) => {
            out.push_str("(label:")?;
            put_units(out, label.units())?;
            put_last(out, body)
        }
        _ => put_jump(out, node),
    }
}

/// Puts a statement at the end, or another node.
#[cycle(print)]
pub fn put_statement(out: &mut String, node: &Node) -> Result<(), AllocError> {
    match node {
        Node::Expression(part) => {
            out.push_str("(expression")?;
            put_last(out, part)
        }
        Node::Directive(part) => {
            out.push_str("(directive")?;
            put_last(out, part)
        }
        Node::Var(declarations) => put_declarations(out, "(var", declarations.as_slice()),
        Node::Lexical(LexicalKind::Let, declarations) => {
            put_declarations(out, "(let", declarations.as_slice())
        }
        Node::Lexical(LexicalKind::Const, declarations) => {
            put_declarations(out, "(const", declarations.as_slice())
        }
        Node::Empty => out.push_str("empty"),
        Node::Debugger => out.push_str("debugger"),
        _ => put_compound(out, node),
    }
}

/// Puts which of the three parts in the head of a `for` there are at the end.
fn put_numbers(
    out: &mut String,
    first: &Option<Shared<Tree>>,
    test: &Option<Shared<Tree>>,
    step: &Option<Shared<Tree>>,
) -> Result<(), AllocError> {
    out.push_str(if first.is_some() { "1" } else { "" })?;
    out.push_str(if test.is_some() { "2" } else { "" })?;
    out.push_str(if step.is_some() { "3" } else { "" })
}

/// Puts a `for` over an object or an iterator at the end, or another node.
#[cycle(print)]
fn put_iteration(out: &mut String, node: &Node) -> Result<(), AllocError> {
    match node {
        Node::ForIn(head, object, body) => {
            out.push_str("(for-in")?;
            put_head(out, head)?;
            put_part(out, object)?;
            put_last(out, body)
        }
        Node::ForOf(head, iterated, body) => {
            out.push_str("(for-of")?;
            put_head(out, head)?;
            put_part(out, iterated)?;
            put_last(out, body)
        }
        Node::ForInTarget(target, object, body) => {
            out.push_str("(for-in")?;
            put_part(out, target)?;
            put_part(out, object)?;
            put_last(out, body)
        }
        Node::ForOfTarget(target, iterated, body) => {
            out.push_str("(for-of")?;
            put_part(out, target)?;
            put_part(out, iterated)?;
            put_last(out, body)
        }
        _ => put_module_item(out, node),
    }
}

/// Puts a loop at the end, or another node.
#[cycle(print)]
fn put_loop(out: &mut String, node: &Node) -> Result<(), AllocError> {
    match node {
        Node::Do(body, test) => {
            out.push_str("(do")?;
            put_part(out, body)?;
            put_last(out, test)
        }
        Node::While(test, body) => {
            out.push_str("(while")?;
            put_part(out, test)?;
            put_last(out, body)
        }
        Node::For(first, test, step, body) => {
            out.push_str("(for")?;
            put_numbers(out, first, test, step)?;
            put_if_there(out, " ", first)?;
            put_if_there(out, " ", test)?;
            put_if_there(out, " ", step)?;
            put_last(out, body)
        }
        _ => put_iteration(out, node),
    }
}
