//! Trees in short: what a tree is, and in parentheses behind it its parts, where it has any.

use crate::expressions::put_operation;
use sr_ast::Tree;
use sr_shared::Shared;
use std::alloc::AllocError;

/// Puts a tree at the end.
#[cycle(print)]
pub fn put_tree(out: &mut String, tree: &Tree) -> Result<(), AllocError> {
    put_operation(out, &tree.node)
}

/// Puts trees at the end, each behind a space.
#[cycle(print)]
pub fn put_trees(out: &mut String, trees: &[Shared<Tree>]) -> Result<(), AllocError> {
    for tree in trees {
        out.push_str(" ")?;
        put_tree(out, tree.get())?;
    }
    Ok(())
}

/// Puts a tree behind a mark at the end, where there is one.
#[cycle(print)]
pub fn put_if_there(
    out: &mut String,
    mark: &str,
    tree: &Option<Shared<Tree>>,
) -> Result<(), AllocError> {
    match tree {
        None => Ok(()),
        Some(tree) => {
            out.push_str(mark)?;
            put_tree(out, tree.get())
        }
    }
}

/// Puts a part of a tree at the end, behind a space.
#[cycle(print)]
pub fn put_part(out: &mut String, part: &Shared<Tree>) -> Result<(), AllocError> {
    out.push_str(" ")?;
    put_tree(out, part.get())
}

/// Puts the last part of a tree at the end, and closes it.
#[cycle(print)]
pub fn put_last(out: &mut String, part: &Shared<Tree>) -> Result<(), AllocError> {
    put_part(out, part)?;
    out.push_str(")")
}

/// Opens a tree that has parts.
pub fn open(out: &mut String, parts: &[Shared<Tree>]) -> Result<(), AllocError> {
    out.push_str(if parts.is_empty() { "" } else { "(" })
}

/// Puts the parts of a tree at the end, and closes it, where it has any.
#[cycle(print)]
pub fn put_parts(out: &mut String, parts: &[Shared<Tree>]) -> Result<(), AllocError> {
    put_trees(out, parts)?;
    out.push_str(if parts.is_empty() { "" } else { ")" })
}
