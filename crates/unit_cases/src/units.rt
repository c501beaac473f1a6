use crate::markers::refused;
use anyhow::{Result, bail, ensure};
use sr_ast::{Element, Node, Refused, Tree};
use sr_shared::Shared;
use sr_text::{Goal, Str};
use sr_unit::{Refusal, Unit, parse_module, parse_script};
use std::alloc::{AllocError, Global};
use std::fmt::Write;

/// The unit that a text is.
fn parse(alloc: Global, goal: Goal, text: &Str) -> Result<Unit, Refusal> {
    match goal {
        Goal::Script => parse_script(alloc, text),
        Goal::Module => parse_module(alloc, text),
    }
}

/// How a text is refused.
fn refusal(alloc: Global, refusal: Refusal) -> Result<String, AllocError> {
    match refusal {
        Refusal::Refused(why) => refused(alloc, why),
        Refusal::Memory => Err(AllocError),
    }
}

/// Whether a text is a unit, or why not.
pub fn unit(alloc: Global, goal: Goal, text: &Str) -> Result<String, AllocError> {
    match parse(alloc, goal, text) {
        Ok(_) => String::from_str(alloc, "read"),
        Err(why) => refusal(alloc, why),
    }
}

/// Puts the number and the place of each of these trees and of their parts at the end.
#[cycle(put)]
fn put_all(out: &mut String, trees: &[Shared<Tree>]) -> Result<(), AllocError> {
    for tree in trees {
        put(out, tree.get())?;
    }
    Ok(())
}

/// The same of the trees of elements.
#[cycle(put)]
fn put_elements(out: &mut String, elements: &[Element]) -> Result<(), AllocError> {
    for element in elements {
        match element {
            Element::Value(tree) | Element::Spread(tree) => put(out, tree.get())?,
            Element::Hole => {}
        }
    }
    Ok(())
}

/// The same of the parts of a node, of the kinds that the tables have.
#[cycle(put)]
fn put_parts(out: &mut String, node: &Node) -> Result<(), AllocError> {
    match node {
        Node::Expression(part) | Node::Directive(part) => put(out, part.get()),
        Node::Block(parts) => put_all(out, parts.as_slice()),
        Node::Binary(_, left, right) => {
            put(out, left.get())?;
            put(out, right.get())
        }
        Node::If(test, yes, no) => {
            put(out, test.get())?;
            put(out, yes.get())?;
            match no {
                None => Ok(()),
                Some(no) => put(out, no.get()),
            }
        }
        Node::Call(_, callee, arguments) => {
            put(out, callee.get())?;
            put_elements(out, arguments.as_slice())
        }
        _ => Ok(()),
    }
}

/// The same of one tree.
#[cycle(put)]
fn put(out: &mut String, tree: &Tree) -> Result<(), AllocError> {
    let Tree {
        number,
        from,
        to,
        ..
    } = tree;
    write!(out, " {number}:{from}-{to}")?;
    put_parts(out, &tree.node)
}

/// Whether a unit is strict, and the numbers and the places of its trees.
pub fn numbers(alloc: Global, goal: Goal, text: &Str) -> Result<String, AllocError> {
    match parse(alloc, goal, text) {
        Ok(unit) => {
            let word = if unit.strict { "strict" } else { "sloppy" };
            let mut out = String::from_str(alloc, word)?;
            put_all(&mut out, unit.items.as_slice())?;
            Ok(out)
        }
        Err(why) => refusal(alloc, why),
    }
}

/// Whether the first code units of a text, so many, are a script; where they are none, the place that is told lies among them.
fn is_script(alloc: Global, text: &Str, length: usize) -> Result<bool> {
    let part = Str::of_units(alloc, &text.units()[..length.min(text.units().len())])?;
    match parse_script(alloc, &part) {
        Ok(_) => Ok(true),
        Err(Refusal::Refused(Refused::Syntax(place))) => {
            ensure!(place <= length, "told at {place} of the first {length}");
            Ok(false)
        }
        Err(why) => bail!("the first {length}: {why}"),
    }
}

/// Puts the lengths from one to another at the end.
fn put_lengths(out: &mut String, from: usize, to: usize) -> Result<(), AllocError> {
    out.push_str(if out.is_empty() { "" } else { " " })?;
    write!(out, "{from}-{to}")
}

/// The lengths at which a first part of a text is a script: each from one length to another.
pub fn parts(alloc: Global, text: &Str) -> Result<String> {
    let mut out = String::new(alloc);
    let mut since = None;
    let units = text.units().len();
    for length in 0..=units {
        let holds = is_script(alloc, text, length)?;
        match since {
            None => {
                if holds {
                    since = Some(length);
                }
            }
            Some(from) => {
                if !holds {
                    put_lengths(&mut out, from, length.saturating_sub(1))?;
                    since = None;
                }
            }
        }
    }
    if let Some(from) = since {
        put_lengths(&mut out, from, units)?;
    }
    Ok(out)
}
