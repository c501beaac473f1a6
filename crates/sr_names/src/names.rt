ghost use Rattle.std.specs.Prelude.{◌≡◌, ◌++◌, [], ◌∷◌, map, IfOk, OnOk};
ghost use Rattle.sr_names.specs.Names as spec;

use sqlite_items::Items;
use sr_ast::{
    Binding, Case, Declaration, HeadBinding, HeadKind, ImportName, Imports, Node, Parameters, Tree,
};
use sr_shared::Shared;
use std::alloc::{AllocError, Global};

/// A name that is bound, once more.
fn copy(name: &Binding) -> Result<Binding, AllocError>
    ensures { IfOk result (λ copy. copy ≡ name.now) }
{
    Ok(Binding {
        name: name.name.clone()?,
        from: name.from,
    })
}

/// Puts a name that is bound at the end (ECMA-262 8.2.1).
pub fn put(names: &mut Items<Binding>, name: &Binding) -> Result<(), AllocError>
    ensures { OnOk result (names.new ≡ names.old ++ name.now ∷ []) }
{
    names.push(copy(name)?)
}

/// Puts a name that is bound at the end, where there is one (8.2.1).
pub fn put_if_there(names: &mut Items<Binding>, name: &Option<Binding>) -> Result<(), AllocError>
    ensures { OnOk result (names.new ≡ names.old ++ spec.names_in name.now) }
{
    match name {
        None => Ok(()),
        Some(name) => put(names, name),
    }
}

/// Puts names at the end.
fn put_all(names: &mut Items<Binding>, more: &[Binding]) -> Result<(), AllocError>
    ensures { OnOk result (names.new ≡ names.old ++ more.now) }
{
    for name in more {
        put(names, name)?;
    }
    Ok(())
}

/// The names of parameters (8.2.1), the one behind `...` last.
pub fn parameter_names(alloc: Global, parameters: &Parameters) -> Result<Items<Binding>, AllocError>
    ensures { IfOk result (λ names. names ≡ spec.parameter_names parameters.now) }
{
    let mut names = Items::new(alloc);
    put_all(&mut names, parameters.names.as_slice())?;
    put_if_there(&mut names, &parameters.rest)?;
    Ok(names)
}

/// No parameters: those of a getter (15.4).
pub fn no_parameters(alloc: Global) -> Parameters
    ensures { result ≡ spec.no_parameters }
{
    Parameters {
        names: Items::new(alloc),
        rest: None,
    }
}

/// One parameter: those of a setter (15.4).
pub fn one_parameter(alloc: Global, name: &Binding) -> Result<Parameters, AllocError>
    ensures { IfOk result (λ parameters. parameters ≡ spec.one_parameter name.now) }
{
    let mut names = Items::new(alloc);
    put(&mut names, name)?;
    Ok(Parameters { names, rest: None })
}

/// Puts the names of declarations at the end (8.2.1).
pub fn put_declared(
    names: &mut Items<Binding>,
    declarations: &[Declaration],
) -> Result<(), AllocError>
    ensures { OnOk result (names.new ≡ names.old ++ map spec.declared_name declarations.now) }
{
    for declaration in declarations {
        names.push(Binding {
            name: declaration.name.clone()?,
            from: declaration.from,
        })?;
    }
    Ok(())
}

/// Puts the name of the head of a `for` at the end, where it is declared by `var` (8.2.6).
pub fn put_head_vars(names: &mut Items<Binding>, head: &HeadBinding) -> Result<(), AllocError>
    ensures { OnOk result (names.new ≡ names.old ++ spec.head_vars head.now) }
{
    match head.kind {
        HeadKind::Var => put(names, &head.binding),
        HeadKind::Let | HeadKind::Const => Ok(()),
    }
}

/// The name that the head of a `for` over an object or an iterator declares lexically, or none (14.7.5).
pub fn head_names(alloc: Global, head: &HeadBinding) -> Result<Items<Binding>, AllocError>
    ensures { IfOk result (λ names. names ≡ spec.head_names head.now) }
{
    let mut names = Items::new(alloc);
    match head.kind {
        HeadKind::Var => {}
        HeadKind::Let | HeadKind::Const => put(&mut names, &head.binding)?,
    }
    Ok(names)
}

/// Puts the names here of names that are imported at the end.
fn put_local(names: &mut Items<Binding>, imported: &[ImportName]) -> Result<(), AllocError>
    ensures { OnOk result (names.new ≡ names.old ++ spec.imported_here imported.now) }
{
    for name in imported {
        put(names, &name.local)?;
    }
    Ok(())
}

/// Puts the names that an import binds at the end (16.2.2).
fn put_imported(
    names: &mut Items<Binding>,
    first: &Option<Binding>,
    others: &Imports,
) -> Result<(), AllocError>
    ensures { OnOk result (names.new ≡ names.old ++ spec.import_names first.now others.now) }
{
    put_if_there(names, first)?;
    match others {
        Imports::Nothing => Ok(()),
        Imports::Namespace(name) => put(names, name),
        Imports::Names(imported) => put_local(names, imported.as_slice()),
    }
}

/// The names that an import binds (16.2.2).
pub fn import_names(
    alloc: Global,
    first: &Option<Binding>,
    others: &Imports,
) -> Result<Items<Binding>, AllocError>
    ensures { IfOk result (λ names. names ≡ spec.import_names first.now others.now) }
{
    let mut names = Items::new(alloc);
    put_imported(&mut names, first, others)?;
    Ok(names)
}

/// Puts the names that a declaration binds at the end, of whatever kind it is (8.2.1).
pub fn put_bound(names: &mut Items<Binding>, tree: &Tree) -> Result<(), AllocError>
    ensures { OnOk result (names.new ≡ names.old ++ spec.bound_names tree.now) }
{
    match &tree.node {
        Node::Var(declarations) => put_declared(names, declarations.as_slice()),
        _ => put_lexical(names, tree),
    }
}

/// Puts the names that an item of a block declares lexically at the end (8.2.4).
fn put_lexical(names: &mut Items<Binding>, tree: &Tree) -> Result<(), AllocError>
    ensures { OnOk result (names.new ≡ names.old ++ spec.lexical_name tree.now) }
{
    match &tree.node {
        Node::Lexical(_, declarations) => put_declared(names, declarations.as_slice()),
        Node::FunctionDeclaration(called, _, _) => put_if_there(names, called),
        _ => Ok(()),
    }
}

/// Puts the names that items of a block or of a clause declare lexically at the end (8.2.4).
fn put_lexical_names(names: &mut Items<Binding>, items: &[Shared<Tree>]) -> Result<(), AllocError>
    ensures { OnOk result (names.new ≡ names.old ++ spec.lexical_names items.now) }
{
    for item in items {
        put_lexical(names, item.get())?;
    }
    Ok(())
}

/// The names that items of a block declare lexically, functions among them (8.2.4).
pub fn lexical_names(alloc: Global, items: &[Shared<Tree>]) -> Result<Items<Binding>, AllocError>
    ensures { IfOk result (λ names. names ≡ spec.lexical_names items.now) }
{
    let mut names = Items::new(alloc);
    put_lexical_names(&mut names, items)?;
    Ok(names)
}

/// The names that the items of a statement declare lexically, where it is a block (8.2.4).
pub fn block_names(alloc: Global, tree: &Tree) -> Result<Items<Binding>, AllocError>
    ensures { IfOk result (λ names. names ≡ spec.block_names tree.now) }
{
    match &tree.node {
        Node::Block(items) => lexical_names(alloc, items.as_slice()),
        _ => Ok(Items::new(alloc)),
    }
}

/// The names that the clauses of a `switch` declare lexically, in one scope (8.2.4, 14.12.1).
pub fn clauses_names(alloc: Global, cases: &[Case]) -> Result<Items<Binding>, AllocError>
    ensures { IfOk result (λ names. names ≡ spec.clauses_names cases.now) }
{
    let mut names = Items::new(alloc);
    for case in cases {
        put_lexical_names(&mut names, case.body.as_slice())?;
    }
    Ok(names)
}

/// Puts the names that an item of a module declares lexically at the end (16.2.1.1).
fn put_module_name(names: &mut Items<Binding>, tree: &Tree) -> Result<(), AllocError>
    ensures { OnOk result (names.new ≡ names.old ++ spec.module_name tree.now) }
{
    match &tree.node {
        Node::Import(first, others, _) => put_imported(names, first, others),
        Node::Export(part) => put_lexical(names, part.get()),
        Node::ExportDefault(part) => put_lexical(names, part.get()),
        _ => put_lexical(names, tree),
    }
}

/// The names that the items of a module declare lexically: functions, imports and what exported declarations declare among them
/// (8.2.4, 16.2.1.1).
pub fn module_names(alloc: Global, items: &[Shared<Tree>]) -> Result<Items<Binding>, AllocError>
    ensures { IfOk result (λ names. names ≡ spec.module_names items.now) }
{
    let mut names = Items::new(alloc);
    for item in items {
        put_module_name(&mut names, item.get())?;
    }
    Ok(names)
}

/// Puts the names that an item declares lexically at the end, at the top level of a script or a body, where functions count as
/// `var` (8.2.8).
fn put_top(names: &mut Items<Binding>, tree: &Tree) -> Result<(), AllocError>
    ensures { OnOk result (names.new ≡ names.old ++ spec.top_name tree.now) }
{
    match &tree.node {
        Node::Lexical(_, declarations) => put_declared(names, declarations.as_slice()),
        _ => Ok(()),
    }
}

/// The names that the items of a script or a body declare lexically (8.2.8).
pub fn top_names(alloc: Global, items: &[Shared<Tree>]) -> Result<Items<Binding>, AllocError>
    ensures { IfOk result (λ names. names ≡ spec.top_names items.now) }
{
    let mut names = Items::new(alloc);
    for item in items {
        put_top(&mut names, item.get())?;
    }
    Ok(names)
}

/// The names that what stands first in the head of a `for` declares lexically (14.7.4.1).
pub fn first_names(
    alloc: Global,
    first: &Option<Shared<Tree>>,
) -> Result<Items<Binding>, AllocError>
    ensures { IfOk result (λ names. names ≡ spec.names_of_first first.now) }
{
    let mut names = Items::new(alloc);
    match first {
        None => {}
        Some(first) => put_top(&mut names, first.get())?,
    }
    Ok(names)
}

/// Puts the name of a function that is declared at the end, which counts as `var` at the top level (8.2.10).
pub fn put_function(names: &mut Items<Binding>, tree: &Tree) -> Result<(), AllocError>
    ensures { OnOk result (names.new ≡ names.old ++ spec.function_name tree.now) }
{
    match &tree.node {
        Node::FunctionDeclaration(called, _, _) => put_if_there(names, called),
        _ => Ok(()),
    }
}
