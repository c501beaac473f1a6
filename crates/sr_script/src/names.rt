ghost use Rattle.std.specs.Prelude.{◌≡◌, ◌++◌, OnOk};
ghost use Rattle.sr_script.specs.Names as spec;
ghost use Rattle.sr_script.specs.Parts.{names_if_there, names_of_all, node_names};

use sqlite_items::Items;
use sr_ast::{Declaration, Node, Tree};
use sr_shared::Shared;
use sr_text::Str;
use std::alloc::AllocError;

/// Puts the names that declarations declare at the end of `names`.
fn put_declared(names: &mut Items<Str>, declarations: &[Declaration]) -> Result<(), AllocError>
    ensures { OnOk result (names.new ≡ names.old ++ names_of_all declarations.now) }
{
    for declaration in declarations {
        names.push(declaration.name.clone()?)?;
    }
    Ok(())
}

/// Puts the names that trees declare at the end of `names`.
#[cycle(names)]
pub fn put_all(names: &mut Items<Str>, trees: &[Shared<Tree>]) -> Result<(), AllocError>
    ensures { OnOk result (names.new ≡ names.old ++ spec.script_names trees.now) }
{
    for tree in trees {
        put_names(names, tree.get())?;
    }
    Ok(())
}

/// Puts the names that a tree declares, where there is one, at the end of `names`.
#[cycle(names)]
fn put_if_there(names: &mut Items<Str>, tree: &Option<Shared<Tree>>) -> Result<(), AllocError>
    ensures { OnOk result (names.new ≡ names.old ++ names_if_there tree.now) }
{
    match tree {
        None => Ok(()),
        Some(tree) => put_names(names, tree.get()),
    }
}

/// Puts the names that a node declares at the end of `names`.
#[cycle(names)]
fn put_of_node(names: &mut Items<Str>, node: &Node) -> Result<(), AllocError>
    ensures { OnOk result (names.new ≡ names.old ++ node_names node.now) }
{
    match node {
        Node::Var(declarations) => put_declared(names, declarations.as_slice()),
        Node::Block(statements) => put_all(names, statements.as_slice()),
        Node::If(_, yes, no) => {
            put_names(names, yes.get())?;
            put_if_there(names, no)
        }
        Node::Do(body, _) => put_names(names, body.get()),
        Node::While(_, body) => put_names(names, body.get()),
        Node::For(first, _, _, body) => {
            put_if_there(names, first)?;
            put_names(names, body.get())
        }
        _ => Ok(()),
    }
}

/// Puts the names that a tree declares by `var` at the end of `names` (ECMA-262 14.2.8 to 14.7.5, VarDeclaredNames).
#[cycle(names)]
#[tactic(auto, using(crate::proofs::Collected::tree_is))]
fn put_names(names: &mut Items<Str>, tree: &Tree) -> Result<(), AllocError>
    ensures { OnOk result (names.new ≡ names.old ++ spec.declared_names tree.now) }
{
    put_of_node(names, &tree.node)
}
