ghost use Rattle.std.specs.Prelude.{◌≡◌, ℕ, ◌++◌, OnOk, IsTrue};
ghost use Rattle.sr_early.specs.Kinds as kind;
ghost use Rattle.sr_names.specs.Names as names_of;
ghost use Rattle.sr_early.specs.Parts as parts;

use crate::context::Context;
use crate::exports;
use crate::functions::values;
use crate::loops::is_loop;
use crate::trees::{expression, expression_if_there, since, tree, tree_if_there, trees};
use sqlite_items::Items;
use sr_ast::{Binding, Case, Declaration, Node, Tree};
use sr_names::{names, scopes, strictness};
use sr_shared::Shared;
use sr_text::Str;
use std::alloc::{AllocError, Global};

/// The names and places of a clause.
#[cycle(faults)]
fn case(
    alloc: Global,
    context: &Context,
    vars: &mut Items<Binding>,
    places: &mut Items<usize>,
    case: &Case,
) -> Result<(), AllocError>
    ensures vars { OnOk result (vars.new ≡ vars.old ++ names_of.clause_vars case.now) }
    ensures places { OnOk result (places.new ≡ places.old ++ parts.case_faults case.now context.now) }
{
    expression_if_there(alloc, context, places, &case.test)?;
    trees(alloc, context, vars, places, case.body.as_slice())
}

/// The names and places of clauses in order.
#[cycle(faults)]
fn cases(
    alloc: Global,
    context: &Context,
    vars: &mut Items<Binding>,
    places: &mut Items<usize>,
    cases: &[Case],
) -> Result<(), AllocError>
    ensures vars { OnOk result (vars.new ≡ vars.old ++ names_of.clauses_vars cases.now) }
    ensures places { OnOk result (places.new ≡ places.old ++ parts.cases_faults cases.now context.now) }
{
    for one in cases {
        case(alloc, context, vars, places, one)?;
    }
    Ok(())
}

/// The places of a declaration.
#[cycle(faults)]
fn declaration(
    alloc: Global,
    context: &Context,
    places: &mut Items<usize>,
    declaration: &Declaration,
) -> Result<(), AllocError>
    ensures { OnOk result (places.new ≡ places.old ++ parts.declaration_faults declaration.now context.now) }
{
    strictness::binding(places, context.strict, &declaration.name, declaration.from)?;
    expression_if_there(alloc, context, places, &declaration.value)
}

/// The places of declarations in order.
#[cycle(faults)]
fn declarations(
    alloc: Global,
    context: &Context,
    places: &mut Items<usize>,
    declarations: &[Declaration],
) -> Result<(), AllocError>
    ensures { OnOk result (places.new ≡ places.old ++ parts.declarations_faults declarations.now context.now) }
{
    for one in declarations {
        declaration(alloc, context, places, one)?;
    }
    Ok(())
}

/// The places of a statement that has no statements and declares nothing by `var`.
#[cycle(faults)]
pub fn simple(
    alloc: Global,
    context: &Context,
    places: &mut Items<usize>,
    node: &Node,
    at: usize,
) -> Result<(), AllocError>
    requires { IsTrue (kind.is_simple node.now) }
    ensures { OnOk result (places.new ≡ places.old ++ parts.node_faults node.now at context.now) }
{
    match node {
        Node::Expression(part) => expression(alloc, context, places, part.get()),
        Node::Directive(part) => expression(alloc, context, places, part.get()),
        Node::Lexical(kind, all) => {
            values(places, *kind, all.as_slice())?;
            declarations(alloc, context, places, all.as_slice())
        }
        Node::Empty | Node::Debugger => Ok(()),
        Node::Continue(label) => context.continue_at(places, label, at),
        Node::Break(label) => context.break_at(places, label, at),
        Node::Return(value) => {
            context.return_at(places, at)?;
            expression_if_there(alloc, context, places, value)
        }
        Node::Throw(value) => expression(alloc, context, places, value.get()),
        _ => unreachable!(),
    }
}

/// The names and places of a block, whose items are a scope (14.2.1).
#[cycle(faults)]
fn block(
    alloc: Global,
    context: &Context,
    vars: &mut Items<Binding>,
    places: &mut Items<usize>,
    items: &[Shared<Tree>],
) -> Result<(), AllocError>
    ensures vars { OnOk result (vars.new ≡ vars.old ++ names_of.all_vars items.now) }
    ensures places { OnOk result (places.new ≡ places.old ++ parts.block_at items.now context.now) }
{
    let start = vars.len();
    trees(alloc, context, vars, places, items)?;
    let declared = names::lexical_names(alloc, items)?;
    scopes::scope(alloc, places, declared, since(vars, start))
}

/// The names and places of the clauses of a `switch`, which are one scope (14.12.1).
#[cycle(faults)]
fn switch(
    alloc: Global,
    context: &Context,
    vars: &mut Items<Binding>,
    places: &mut Items<usize>,
    clauses: &[Case],
) -> Result<(), AllocError>
    ensures vars { OnOk result (vars.new ≡ vars.old ++ names_of.clauses_vars clauses.now) }
    ensures places { OnOk result (places.new ≡ places.old ++ parts.switch_at clauses.now context.now) }
{
    let start = vars.len();
    let inner = context.in_switch()?;
    cases(alloc, &inner, vars, places, clauses)?;
    let declared = names::clauses_names(alloc, clauses)?;
    scopes::scope(alloc, places, declared, since(vars, start))
}

/// The names and places of `catch`, with its parameter or without (14.15.1).
#[cycle(faults)]
fn catch(
    alloc: Global,
    context: &Context,
    vars: &mut Items<Binding>,
    places: &mut Items<usize>,
    parameter: &Option<Binding>,
    handler: &Option<Shared<Tree>>,
) -> Result<(), AllocError>
    ensures vars { OnOk result (vars.new ≡ vars.old ++ parts.vars_if_there handler.now) }
    ensures places { OnOk result (places.new ≡ places.old ++ parts.catch_at parameter.now handler.now context.now) }
{
    strictness::binding_if_there(places, context.strict, parameter)?;
    let start = vars.len();
    tree_if_there(alloc, context, vars, places, handler)?;
    match (parameter, handler) {
        (Some(parameter), Some(handler)) => {
            scopes::caught(alloc, places, parameter, handler.get(), since(vars, start))
        }
        _ => Ok(()),
    }
}

/// The names and places of a statement that has statements, or of `var`, or of an exported declaration.
#[cycle(faults)]
pub fn compound(
    alloc: Global,
    context: &Context,
    vars: &mut Items<Binding>,
    places: &mut Items<usize>,
    node: &Node,
    at: usize,
) -> Result<(), AllocError>
    requires { IsTrue (kind.is_compound node.now) }
    ensures vars { OnOk result (vars.new ≡ vars.old ++ parts.node_vars node.now) }
    ensures places { OnOk result (places.new ≡ places.old ++ parts.node_faults node.now at context.now) }
{
    match node {
        Node::Var(all) => {
            names::put_declared(vars, all.as_slice())?;
            declarations(alloc, context, places, all.as_slice())
        }
        Node::Block(items) => block(alloc, context, vars, places, items.as_slice()),
        Node::If(test, yes, no) => {
            expression(alloc, context, places, test.get())?;
            tree(alloc, context, vars, places, yes.get())?;
            tree_if_there(alloc, context, vars, places, no)
        }
        Node::Switch(value, clauses) => {
            expression(alloc, context, places, value.get())?;
            switch(alloc, context, vars, places, clauses.as_slice())
        }
        Node::Try(tried, parameter, handler, finalizer) => {
            tree(alloc, context, vars, places, tried.get())?;
            catch(alloc, context, vars, places, parameter, handler)?;
            tree_if_there(alloc, context, vars, places, finalizer)
        }
        Node::Labelled(label, statement) => {
            labelled(alloc, context, vars, places, label, statement.get(), at)
        }
        Node::Export(part) => tree(alloc, context, vars, places, part.get()),
        _ => unreachable!(),
    }
}

/// The names and places of a statement with a label at this place (14.13.1).
#[cycle(faults)]
fn labelled(
    alloc: Global,
    context: &Context,
    vars: &mut Items<Binding>,
    places: &mut Items<usize>,
    label: &Str,
    statement: &Tree,
    at: usize,
) -> Result<(), AllocError>
    ensures vars { OnOk result (vars.new ≡ vars.old ++ names_of.vars statement.now) }
    ensures places { OnOk result (places.new ≡ places.old ++ parts.labelled_at label.now statement.now at context.now) }
{
    context.label_at(places, label, at)?;
    strictness::reference(places, context.strict, label, at)?;
    let inner = context.labelled(alloc, label, is_loop(statement))?;
    tree(alloc, &inner, vars, places, statement)
}

/// The places of an import or an export (16.2).
#[cycle(faults)]
pub fn module_item(
    alloc: Global,
    context: &Context,
    places: &mut Items<usize>,
    node: &Node,
) -> Result<(), AllocError>
    requires { IsTrue (kind.is_module_item node.now) }
    ensures { (at : ℕ) → OnOk result (places.new ≡ places.old ++ parts.node_faults node.now at context.now) }
{
    match node {
        Node::Import(first, others, _) => {
            let bound = names::import_names(alloc, first, others)?;
            strictness::bindings(places, context.strict, bound.as_slice())?;
            exports::unpaired_imports(places, others)
        }
        Node::ExportAll(outer, _) => exports::unpaired_if_there(places, outer),
        Node::ExportNames(all, from) => {
            exports::export_names(places, context.strict, all.as_slice(), from)
        }
        Node::ExportDefault(part) => expression(alloc, context, places, part.get()),
        _ => unreachable!(),
    }
}
