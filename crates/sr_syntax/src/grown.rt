ghost use Rattle.std.specs.Prelude.{◌≡◌, IfOk};
ghost use Rattle.sr_syntax.specs.Operators as spec;

use sqlite_items::Items;
use sr_ast::{Binding, Case, Element, Parameters, Property, Tree};
use sr_shared::Shared;
use sr_text::Str;
use std::alloc::{AllocError, Global};

/// A tree and its depth.
#[derive(Drop)]
pub struct Grown {
    /// The tree.
    pub tree: Shared<Tree>,
    /// 1 and the greatest depth among its parts.
    pub height: usize,
}

/// Trees in order.
#[derive(Drop)]
pub struct Grove {
    /// The trees.
    pub trees: Items<Shared<Tree>>,
    /// The greatest depth among them.
    pub tall: usize,
}

/// A function declaration while its body is read (ECMA-262 15.2).
#[derive(Drop)]
pub struct OpenFunction {
    /// The place of its first token, in units of the text.
    pub from: usize,
    /// Its name.
    pub name: Binding,
    /// Its parameters.
    pub parameters: Parameters,
    /// The items that stand before it in the same body.
    pub before: Grove,
}

/// What stands between commas, in order.
#[derive(Drop)]
pub struct Elements {
    /// The elements.
    pub items: Items<Element>,
    /// The greatest depth among their trees.
    pub tall: usize,
}

/// A template as far as it is read.
#[derive(Drop)]
pub struct Pieces {
    /// Its texts.
    pub texts: Items<Str>,
    /// The expressions between them.
    pub trees: Items<Shared<Tree>>,
    /// The greatest depth among these.
    pub tall: usize,
}

/// The properties of an object literal, in order.
#[derive(Drop)]
pub struct Properties {
    /// The properties.
    pub items: Items<Property>,
    /// The greatest depth among their trees.
    pub tall: usize,
}

/// `get` or `set`, before the name of an accessor.
#[derive(Clone, Copy, Debug, PartialEq, Eq)]
pub enum Accessor {
    /// `get`
    Getter,
    /// `set`
    Setter,
}

/// The clauses of a `switch`, in order.
#[derive(Drop)]
pub struct Cases {
    /// The clauses.
    pub items: Items<Case>,
    /// The greatest depth among their trees.
    pub tall: usize,
    /// Whether one of them is `default`.
    pub has_default: bool,
}

/// A tree or nothing.
#[derive(Drop)]
pub struct Part {
    /// The tree, if there is one.
    pub tree: Option<Shared<Tree>>,
    /// Its depth, or 0.
    pub height: usize,
}

/// The rules of which one is open while it is read.
#[derive(Clone, Copy, Debug, PartialEq, Eq)]
pub enum Goal {
    /// A statement.
    Statement,
    /// An assignment or a looser operator's operand.
    Assign,
    /// The same, with no `in` outside of brackets.
    AssignWithoutIn,
    /// An operand of the tightest binary operators.
    Power,
    /// An operand of `**`, or of an operator that stands before it.
    Unary,
    /// `new`.
    New,
}

impl Grown {
    /// Where the tree begins.
    #[tactic(auto, unfolding(crate::specs::Operators::from_of))]
    pub fn from(&self) -> usize
        ensures { result ≡ spec.from_of self.now }
    {
        self.tree.get().from
    }
}

/// No trees.
pub fn none(alloc: Global) -> Grove
    ensures { result ≡ spec.none }
{
    Grove {
        trees: Items::new(alloc),
        tall: 0,
    }
}

/// Trees and one more.
pub fn with(mut all: Grove, one: Grown) -> Result<Grove, AllocError>
    ensures { IfOk result (λ r. r ≡ spec.with all one) }
{
    all.trees.push(one.tree)?;
    Ok(Grove {
        trees: all.trees,
        tall: all.tall.max(one.height),
    })
}

/// No tree.
pub fn nothing() -> Part
    ensures { result ≡ spec.nothing }
{
    Part {
        tree: None,
        height: 0,
    }
}

/// A tree that may be left out.
pub fn part_of(x: Grown) -> Part
    ensures { result ≡ spec.part_of x }
{
    Part {
        tree: Some(x.tree),
        height: x.height,
    }
}

/// The greatest of three depths.
#[tactic(auto, unfolding(crate::specs::Operators::tallest))]
pub fn tallest(a: usize, b: usize, c: usize) -> usize
    ensures { result ≡ spec.tallest a b c }
{
    a.max(b.max(c))
}

/// An assignment, with `in` as an operator or without.
pub fn assign_goal(has_in: bool) -> Goal
    ensures { result ≡ spec.assign_goal has_in }
{
    if has_in {
        Goal::Assign
    } else {
        Goal::AssignWithoutIn
    }
}

/// No elements.
pub fn no_elements(alloc: Global) -> Elements
    ensures { result ≡ spec.no_elements }
{
    Elements {
        items: Items::new(alloc),
        tall: 0,
    }
}

/// Elements and one more, of this depth.
fn with_element(mut all: Elements, one: Element, height: usize) -> Result<Elements, AllocError>
    ensures { IfOk result (λ r. r ≡ spec.with_element all one height) }
{
    all.items.push(one)?;
    Ok(Elements {
        items: all.items,
        tall: all.tall.max(height),
    })
}

/// Elements and an expression.
pub fn with_value(all: Elements, x: Grown) -> Result<Elements, AllocError>
    ensures { IfOk result (λ r. r ≡ spec.with_value all x) }
{
    with_element(all, Element::Value(x.tree), x.height)
}

/// Elements and `...` with an expression.
pub fn with_spread(all: Elements, x: Grown) -> Result<Elements, AllocError>
    ensures { IfOk result (λ r. r ≡ spec.with_spread all x) }
{
    with_element(all, Element::Spread(x.tree), x.height)
}

/// Elements and a hole.
pub fn with_hole(all: Elements) -> Result<Elements, AllocError>
    ensures { IfOk result (λ r. r ≡ spec.with_hole all) }
{
    with_element(all, Element::Hole, 0)
}

/// A template that begins with this text.
pub fn one_piece(alloc: Global, text: Str) -> Result<Pieces, AllocError>
    ensures { IfOk result (λ r. r ≡ spec.one_piece text) }
{
    let mut texts = Items::new(alloc);
    texts.push(text)?;
    Ok(Pieces {
        texts,
        trees: Items::new(alloc),
        tall: 0,
    })
}

/// A template with one more expression and the text behind it.
pub fn with_piece(mut all: Pieces, x: Grown, text: Str) -> Result<Pieces, AllocError>
    ensures { IfOk result (λ r. r ≡ spec.with_piece all x text) }
{
    all.texts.push(text)?;
    all.trees.push(x.tree)?;
    Ok(Pieces {
        texts: all.texts,
        trees: all.trees,
        tall: all.tall.max(x.height),
    })
}
