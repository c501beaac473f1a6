ghost use Rattle.std.specs.Prelude.{◌≡◌};
ghost use Rattle.sr_syntax.specs.Operators as spec;
ghost use Rattle.sr_ast.specs.Layer.{layer_of};

use crate::grown::Grown;
use crate::sorts::{Sort, same_sort};
use crate::tokens::Tokens;
use sr_ast::{AssignOp, BinaryOp, Link, LogicalOp, Node, Tree, UnaryOp, UpdateOp};
use sr_shared::Shared;

/// What stands before its operand (ECMA-262 13.5).
pub fn prefix(sort: Sort) -> Option<UnaryOp>
    ensures { result ≡ spec.prefix sort }
{
    match sort {
        Sort::Delete => Some(UnaryOp::Delete),
        Sort::Void => Some(UnaryOp::Void),
        Sort::Typeof => Some(UnaryOp::Typeof),
        Sort::Plus => Some(UnaryOp::Plus),
        Sort::Minus => Some(UnaryOp::Minus),
        Sort::BitNot => Some(UnaryOp::BitNot),
        Sort::Not => Some(UnaryOp::Not),
        _ => None,
    }
}

/// Whether an operator stands before its operand.
#[tactic(auto, unfolding(crate::specs::Operators::is_prefix))]
pub fn is_prefix(sort: Sort) -> bool
    ensures { result ≡ spec.is_prefix sort }
{
    match prefix(sort) {
        None => false,
        Some(_) => true,
    }
}

/// `++` and `--` before their operand (13.4).
pub fn update_before(sort: Sort) -> Option<UpdateOp>
    ensures { result ≡ spec.update_before sort }
{
    match sort {
        Sort::Increment => Some(UpdateOp::PreIncrement),
        Sort::Decrement => Some(UpdateOp::PreDecrement),
        _ => None,
    }
}

/// `++` and `--` after their operand (13.4).
fn update_after(sort: Sort) -> Option<UpdateOp>
    ensures { result ≡ spec.update_after sort }
{
    match sort {
        Sort::Increment => Some(UpdateOp::PostIncrement),
        Sort::Decrement => Some(UpdateOp::PostDecrement),
        _ => None,
    }
}

/// The operators of assignments (13.15).
fn assignment(sort: Sort) -> Option<AssignOp>
    ensures { result ≡ spec.assignment sort }
{
    match sort {
        Sort::Assign => Some(AssignOp::Plain),
        Sort::AssignPower => Some(AssignOp::Compound(BinaryOp::Power)),
        Sort::AssignMultiply => Some(AssignOp::Compound(BinaryOp::Multiply)),
        Sort::AssignDivide => Some(AssignOp::Compound(BinaryOp::Divide)),
        Sort::AssignRemainder => Some(AssignOp::Compound(BinaryOp::Remainder)),
        Sort::AssignAdd => Some(AssignOp::Compound(BinaryOp::Add)),
        Sort::AssignSubtract => Some(AssignOp::Compound(BinaryOp::Subtract)),
        Sort::AssignShiftLeft => Some(AssignOp::Compound(BinaryOp::ShiftLeft)),
        Sort::AssignShiftRight => Some(AssignOp::Compound(BinaryOp::ShiftRight)),
        Sort::AssignShiftRightUnsigned => Some(AssignOp::Compound(BinaryOp::ShiftRightUnsigned)),
        Sort::AssignBitAnd => Some(AssignOp::Compound(BinaryOp::And)),
        Sort::AssignBitXor => Some(AssignOp::Compound(BinaryOp::Xor)),
        Sort::AssignBitOr => Some(AssignOp::Compound(BinaryOp::Or)),
        Sort::AssignAnd => Some(AssignOp::Logical(LogicalOp::And)),
        Sort::AssignOr => Some(AssignOp::Logical(LogicalOp::Or)),
        Sort::AssignCoalesce => Some(AssignOp::Logical(LogicalOp::Coalesce)),
        _ => None,
    }
}

/// The row of a binary operator, the tightest first; 0 for none (13.6 to 13.13).
fn row(sort: Sort) -> u8
    ensures { result ≡ spec.row sort }
{
    match sort {
        Sort::Multiply | Sort::Divide | Sort::Remainder => 1,
        Sort::Plus | Sort::Minus => 2,
        Sort::ShiftLeft | Sort::ShiftRight | Sort::ShiftRightUnsigned => 3,
        Sort::Less
        | Sort::Greater
        | Sort::LessOrEqual
        | Sort::GreaterOrEqual
        | Sort::InstanceOf
        | Sort::In => 4,
        Sort::Equal | Sort::NotEqual | Sort::StrictEqual | Sort::StrictNotEqual => 5,
        Sort::BitAnd => 6,
        Sort::BitXor => 7,
        Sort::BitOr => 8,
        Sort::And => 9,
        Sort::Or => 10,
        Sort::Coalesce => 11,
        _ => 0,
    }
}

/// Whether a token is an operator, where `in` is one or is none.
fn admits(has_in: bool, sort: Sort) -> bool
    ensures { result ≡ spec.admits has_in sort }
{
    has_in || !same_sort(sort, Sort::In)
}

/// Whether an operator stands in a row, where `in` is one or is none.
#[tactic(auto, unfolding(crate::specs::Operators::is_in))]
pub fn is_in(has_in: bool, level: u8, sort: Sort) -> bool
    ensures { result ≡ spec.is_in has_in level sort }
{
    row(sort) == level && admits(has_in, sort)
}

/// What an operator between two operands makes of them.
pub fn joined_node(sort: Sort, x: Shared<Tree>, y: Shared<Tree>) -> Node
    ensures { result ≡ spec.joined_node sort x y }
{
    match sort {
        Sort::Multiply => Node::Binary(BinaryOp::Multiply, x, y),
        Sort::Divide => Node::Binary(BinaryOp::Divide, x, y),
        Sort::Remainder => Node::Binary(BinaryOp::Remainder, x, y),
        Sort::Plus => Node::Binary(BinaryOp::Add, x, y),
        Sort::Minus => Node::Binary(BinaryOp::Subtract, x, y),
        Sort::ShiftLeft => Node::Binary(BinaryOp::ShiftLeft, x, y),
        Sort::ShiftRight => Node::Binary(BinaryOp::ShiftRight, x, y),
        Sort::ShiftRightUnsigned => Node::Binary(BinaryOp::ShiftRightUnsigned, x, y),
        Sort::Less => Node::Binary(BinaryOp::Less, x, y),
        Sort::Greater => Node::Binary(BinaryOp::Greater, x, y),
        Sort::LessOrEqual => Node::Binary(BinaryOp::LessOrEqual, x, y),
        Sort::GreaterOrEqual => Node::Binary(BinaryOp::GreaterOrEqual, x, y),
        Sort::InstanceOf => Node::Binary(BinaryOp::InstanceOf, x, y),
        Sort::In => Node::Binary(BinaryOp::In, x, y),
        Sort::Equal => Node::Binary(BinaryOp::Equal, x, y),
        Sort::NotEqual => Node::Binary(BinaryOp::NotEqual, x, y),
        Sort::StrictEqual => Node::Binary(BinaryOp::StrictEqual, x, y),
        Sort::StrictNotEqual => Node::Binary(BinaryOp::StrictNotEqual, x, y),
        Sort::BitAnd => Node::Binary(BinaryOp::And, x, y),
        Sort::BitXor => Node::Binary(BinaryOp::Xor, x, y),
        Sort::BitOr => Node::Binary(BinaryOp::Or, x, y),
        Sort::And => Node::Logical(LogicalOp::And, x, y),
        Sort::Or => Node::Logical(LogicalOp::Or, x, y),
        Sort::Coalesce => Node::Logical(LogicalOp::Coalesce, x, y),
        _ => Node::Binary(BinaryOp::Power, x, y),
    }
}

/// Whether an assignment to it can be written. Parentheses around it make no tree (13.15.1).
#[tactic(auto, unfolding(crate::specs::Operators::is_target))]
pub fn is_target(of: &Grown) -> bool
    ensures { result ≡ spec.is_target of.now }
{
    match &of.tree.get().node {
        Node::Name(_) => true,
        Node::Member(link, _, _) => matches!(link, Link::Plain),
        Node::Index(link, _, _) => matches!(link, Link::Plain),
        _ => false,
    }
}

/// Whether it is a name.
fn is_name(of: &Grown) -> bool
    ensures { result ≡ spec.is_name_at (layer_of of.now.tree) }
{
    match &of.tree.get().node {
        Node::Name(_) => true,
        _ => false,
    }
}

/// Whether a target, of an assignment that begins at this place, gives its name to a function (13.15.2).
#[tactic(auto, unfolding(crate::specs::Operators::gives_name))]
pub fn gives_name(from: usize, of: &Grown) -> bool
    ensures { result ≡ spec.gives_name from of.now }
{
    is_name(of) && of.from() == from
}

/// Whether it is a `new` without arguments (13.3.5).
#[tactic(auto, unfolding(crate::specs::Operators::is_bare_new))]
pub fn is_bare_new(of: &Grown) -> bool
    ensures { result ≡ spec.is_bare_new of.now }
{
    match &of.tree.get().node {
        Node::New(_, arguments) => arguments.is_none(),
        _ => false,
    }
}

/// How a part is linked to what stands before it.
pub fn link_in(in_chain: bool) -> Link
    ensures { result ≡ spec.link_in in_chain }
{
    if in_chain { Link::Chained } else { Link::Plain }
}

/// A statement of an expression, where the statement begins at this place (14.5).
#[tactic(auto, unfolding(crate::specs::Operators::statement_node))]
pub fn statement_node(from: usize, x: Grown) -> Node
    ensures { result ≡ spec.statement_node from x }
{
    let is_text = match &x.tree.get().node {
        Node::Text(_) => true,
        _ => false,
    };
    if is_text && x.from() == from {
        Node::Directive(x.tree)
    } else {
        Node::Expression(x.tree)
    }
}

/// The parts behind an expression (13.3).
#[derive(Clone, Copy, Debug, PartialEq, Eq)]
pub enum PartSort {
    /// No part.
    None,
    /// `.` and a name.
    Member,
    /// An expression in brackets.
    Index,
    /// Arguments.
    Call,
    /// `?.` and one of these.
    Optional,
}

/// By its first token, the part behind an expression; `?.` is none where `has_optional` is false.
pub fn part(has_optional: bool, sort: Sort) -> PartSort
    ensures { result ≡ spec.part_sort has_optional sort }
{
    match sort {
        Sort::Dot => PartSort::Member,
        Sort::LeftBracket => PartSort::Index,
        Sort::LeftParenthesis => PartSort::Call,
        Sort::QuestionDot if has_optional => PartSort::Optional,
        _ => PartSort::None,
    }
}

/// The operator of an assignment, where one stands behind a target.
#[tactic(auto, unfolding(crate::specs::Operators::assigns))]
pub fn assigns(of: &Grown, tokens: &Tokens<'_>) -> Option<AssignOp>
    ensures { result ≡ spec.assigns of.now tokens.now }
{
    if is_target(of) {
        assignment(tokens.peek())
    } else {
        None
    }
}

/// `++` or `--`, where one stands behind a target and on its line.
#[tactic(auto, unfolding(crate::specs::Operators::steps))]
pub fn steps(of: &Grown, tokens: &Tokens<'_>) -> Option<UpdateOp>
    ensures { result ≡ spec.steps of.now tokens.now }
{
    if is_target(of) && !tokens.line_before() {
        update_after(tokens.peek())
    } else {
        None
    }
}
