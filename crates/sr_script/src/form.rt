ghost use Rattle.std.specs.Prelude.{◌≡◌, map};
ghost use Rattle.std.specs.Option.{option_map};
ghost use Rattle.sr_script.specs.Form as spec;
ghost use Rattle.sr_script.specs.Parts.{tree_with, element_with, declaration_with, fits_by_parts, element_by_parts};

use crate::declared::Names;
use crate::words::{is, may_declare};
use sr_ast::{BinaryOp, Declaration, Element, Link, Node, Tree, UnaryOp};
use sr_shared::Shared;
use sr_text::Str;

/// Whether a name may be read: `undefined`, `NaN` or one that is declared.
fn may_read(names: &Names, name: &Str) -> bool
    ensures { result ≡ spec.may_read names.now name.now }
{
    is(name.units(), b"undefined") || is(name.units(), b"NaN") || names.has(name)
}

/// Whether a tree is the name `print`.
fn is_print(tree: &Tree) -> bool
    ensures { result ≡ spec.is_name spec.is_print tree.now }
{
    match &tree.node {
        Node::Name(name) => is(name.units(), b"print"),
        _ => false,
    }
}

/// Whether a tree is a name that is declared.
fn is_declared(names: &Names, tree: &Tree) -> bool
    ensures { result ≡ spec.is_name (spec.is_one_of names.now) tree.now }
{
    match &tree.node {
        Node::Name(name) => names.has(name),
        _ => false,
    }
}

/// Whether an operator between operands is built: neither `in` nor `instanceof`.
fn is_built(op: BinaryOp) -> bool
    ensures { result ≡ spec.is_built op }
{
    match op {
        BinaryOp::InstanceOf | BinaryOp::In => false,
        _ => true,
    }
}

/// Whether an operator before an operand is built: not `delete`.
fn is_prefix_built(op: UnaryOp) -> bool
    ensures { result ≡ spec.is_prefix_built op }
{
    match op {
        UnaryOp::Delete => false,
        _ => true,
    }
}

/// Whether a call is in no optional chain.
fn is_plain(link: Link) -> bool
    ensures { result ≡ spec.is_plain link }
{
    match link {
        Link::Plain => true,
        Link::Optional | Link::Chained => false,
    }
}

/// Whether a tree is of the form, where there is one.
#[cycle(fits)]
fn fits_if_there(names: &Names, tree: &Option<Shared<Tree>>) -> bool
    ensures { result ≡ spec.fits_if_there (option_map (tree_with names.now) tree.now) }
{
    match tree {
        None => true,
        Some(tree) => fits(names, tree.get()),
    }
}

/// Whether trees are of the form.
#[cycle(fits)]
fn all_fit(names: &Names, trees: &[Shared<Tree>]) -> bool
    ensures { result ≡ spec.all_fit (map (tree_with names.now) trees.now) }
{
    for tree in trees {
        if !fits(names, tree.get()) {
            return false;
        }
    }
    true
}

/// Whether an argument is of the form, by its parts: it is an expression that is.
#[cycle(fits)]
fn element_fits(names: &Names, element: &Element) -> bool
    ensures { result ≡ element_by_parts names.now element.now }
{
    match element {
        Element::Value(tree) => fits(names, tree.get()),
        Element::Spread(_) | Element::Hole => false,
    }
}

/// Whether an argument is of the form.
#[cycle(fits)]
#[tactic(auto, using(crate::proofs::Fitting::element_is))]
fn argument_fits(names: &Names, argument: &Element) -> bool
    ensures { result ≡ (let f = element_with names.now argument.now in f.1) }
{
    element_fits(names, argument)
}

/// Whether the arguments of a call are of the form.
#[cycle(fits)]
fn all_arguments(names: &Names, arguments: &[Element]) -> bool
    ensures { result ≡ spec.all_fit (map (element_with names.now) arguments.now) }
{
    for argument in arguments {
        if !argument_fits(names, argument) {
            return false;
        }
    }
    true
}

/// Whether a declaration is of the form: a script may declare the name, and the value fits.
#[cycle(fits)]
fn declaration_fits(names: &Names, declaration: &Declaration) -> bool
    ensures { result ≡ (let f = declaration_with names.now declaration.now in f.1) }
{
    may_declare(declaration.name.units()) && fits_if_there(names, &declaration.value)
}

/// Whether declarations are of the form.
#[cycle(fits)]
fn all_declared(names: &Names, declarations: &[Declaration]) -> bool
    ensures { result ≡ spec.all_fit (map (declaration_with names.now) declarations.now) }
{
    for declaration in declarations {
        if !declaration_fits(names, declaration) {
            return false;
        }
    }
    true
}

/// Whether a tree of this node is of the form, by its parts.
#[cycle(fits)]
fn node_fits(names: &Names, node: &Node) -> bool
    ensures { result ≡ fits_by_parts names.now node.now }
{
    match node {
        Node::Name(name) => may_read(names, name),
        Node::Call(link, callee, arguments) => {
            is_plain(*link) && is_print(callee.get()) && all_arguments(names, arguments.as_slice())
        }
        Node::Assign(_, target, value, _) => {
            is_declared(names, target.get()) && fits(names, value.get())
        }
        Node::Update(_, target) => is_declared(names, target.get()),
        Node::Sequence(parts) => all_fit(names, parts.as_slice()),
        Node::Cond(test, yes, no) => {
            fits(names, test.get()) && fits(names, yes.get()) && fits(names, no.get())
        }
        Node::Logical(_, left, right) => fits(names, left.get()) && fits(names, right.get()),
        Node::Binary(op, left, right) => {
            is_built(*op) && fits(names, left.get()) && fits(names, right.get())
        }
        Node::Unary(op, operand) => is_prefix_built(*op) && fits(names, operand.get()),
        Node::Null | Node::Bool(_) | Node::Num(_) | Node::Text(_) => true,
        Node::Empty | Node::Debugger => true,
        Node::Expression(inner) => fits(names, inner.get()),
        Node::Directive(inner) => fits(names, inner.get()),
        Node::Throw(value) => fits(names, value.get()),
        Node::Var(declarations) => all_declared(names, declarations.as_slice()),
        Node::Block(statements) => all_fit(names, statements.as_slice()),
        Node::If(test, yes, no) => {
            fits(names, test.get()) && fits(names, yes.get()) && fits_if_there(names, no)
        }
        Node::Do(body, test) => fits(names, body.get()) && fits(names, test.get()),
        Node::While(test, body) => fits(names, test.get()) && fits(names, body.get()),
        Node::For(first, test, update, body) => {
            fits_if_there(names, first)
                && fits_if_there(names, test)
                && fits_if_there(names, update)
                && fits(names, body.get())
        }
        _ => false,
    }
}

/// Whether a tree is of the form: it has no tree that is not built, calls `print` and nothing else, reads and writes no name
/// that is not declared, and declares no name of the global object.
#[cycle(fits)]
#[tactic(auto, using(crate::proofs::Fitting::fits_is))]
fn fits(names: &Names, tree: &Tree) -> bool
    ensures { result ≡ spec.fits names.now tree.now }
{
    node_fits(names, &tree.node)
}

/// Whether the statements of a script are of the form.
#[tactic(auto, using(crate::proofs::Fitting::script_is))]
pub fn script_fits(names: &Names, body: &[Shared<Tree>]) -> bool
    ensures { result ≡ spec.script_fits names.now body.now }
{
    all_fit(names, body)
}
