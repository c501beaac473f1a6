use crate::trees::put_tree;
use anyhow::Result;
use sqlite_items::Items;
use sr_ast::{Node, Tree};
use sr_lex::lex;
use sr_parse::{Refusal, parse_expr, parse_item, parse_module, parse_script};
use sr_shared::Shared;
use sr_text::Str;
use std::alloc::{AllocError, Global};

/// How a text is refused.
fn refused(alloc: Global, refusal: Refusal) -> Result<String, AllocError> {
    match refusal {
        Refusal::Syntax(place) => format!(in alloc; "fails at {place}"),
        Refusal::TooDeep => String::from_str(alloc, "too deep"),
        Refusal::Memory => Err(AllocError),
    }
}

/// The trees that were read.
fn trees(alloc: Global, read: Result<Items<Shared<Tree>>, Refusal>) -> Result<String, AllocError> {
    match read {
        Ok(trees) => {
            let mut out = String::new(alloc);
            for tree in trees.as_slice() {
                out.push_str(if out.is_empty() { "" } else { " " })?;
                put_tree(&mut out, tree.get())?;
            }
            Ok(out)
        }
        Err(refusal) => refused(alloc, refusal),
    }
}

/// The trees of a script.
pub fn script_trees(alloc: Global, text: &Str) -> Result<String, AllocError> {
    trees(alloc, parse_script(alloc, text))
}

/// The trees of a module.
pub fn module_trees(alloc: Global, text: &Str) -> Result<String, AllocError> {
    trees(alloc, parse_module(alloc, text))
}

/// Whether trees were read.
fn depth(alloc: Global, read: Result<Items<Shared<Tree>>, Refusal>) -> Result<String, AllocError> {
    match read {
        Ok(_) => String::from_str(alloc, "read"),
        Err(refusal) => refused(alloc, refusal),
    }
}

/// Whether a script is read, or why not.
pub fn script_depth(alloc: Global, text: &Str) -> Result<String, AllocError> {
    depth(alloc, parse_script(alloc, text))
}

/// Whether a module is read, or why not.
pub fn module_depth(alloc: Global, text: &Str) -> Result<String, AllocError> {
    depth(alloc, parse_module(alloc, text))
}

/// The first part of an item, of the kinds that the table has.
fn first_part(node: &Node) -> Option<&Tree> {
    match node {
        Node::Expression(part)
        | Node::Return(Some(part))
        | Node::Labelled(_, part)
        | Node::Try(part, _, _, _)
        | Node::ForOf(_, part, _)
        | Node::Switch(part, _) => Some(part.get()),
        _ => None,
    }
}

/// The place of the first item of a text, of its first part, and how many tokens are left behind it.
pub fn item_places(alloc: Global, text: &Str) -> Result<String> {
    let tokens = lex(alloc, text)?;
    let (item, next) = parse_item(alloc, text, &tokens, 0)?;
    let item = item.get();
    let (from, to) = (item.from, item.to);
    let left = tokens.len().saturating_sub(next);
    match first_part(&item.node) {
        None => Ok(format!(in alloc; "{from}-{to}, {left} left")?),
        Some(part) => {
            let (part_from, part_to) = (part.from, part.to);
            Ok(format!(in alloc; "{from}-{to}, part {part_from}-{part_to}, {left} left")?)
        }
    }
}

/// The place of the expression of a text from its third token on, and how many tokens are left behind it.
pub fn expression_place(alloc: Global, text: &Str) -> Result<String> {
    let tokens = lex(alloc, text)?;
    if tokens.len() < 2 {
        return Ok(String::from_str(alloc, "no third token")?);
    }
    let (tree, next) = parse_expr(alloc, text, &tokens, 2)?;
    let (from, to) = (tree.get().from, tree.get().to);
    let left = tokens.len().saturating_sub(next);
    Ok(format!(in alloc; "{from}-{to}, {left} left")?)
}
