ghost use Rattle.std.specs.Prelude.{IfOk};
ghost use Rattle.sr_state.specs.Ends.{Comes};
ghost use Rattle.sr_state.specs.Step.{StepsBy};
ghost use Rattle.sr_expr.specs.Stages.{expression_at};

use crate::assign::{assignment, update};
use crate::basic::{literal, name, not_built, sequence};
use crate::call::linked;
use crate::choice::{condition, logical};
use crate::operators::{Operands, operator, prefix};
use sr_ast::{Node, Tree};
use sr_state::{Next, Over, State};
use sr_value::Value;
use std::alloc::AllocError;

/// An expression, by its kind (ECMA-262 13). What is no expression or not built throws after its charge.
fn expression(state: &mut State, tree: &Tree) -> Result<Next, Over>
    ensures { Comes result (λ next. StepsBy (expression_at tree.now) state.old next state.new) }
{
    let at = tree.from;
    match &tree.node {
        Node::Sequence(parts) => sequence(state, at, parts),
        Node::Assign(op, left, right, _) => assignment(state, *op, Operands { at, left, right }),
        Node::Cond(test, yes, no) => condition(state, at, test, yes, no),
        Node::Logical(op, left, right) => logical(state, *op, Operands { at, left, right }),
        Node::Binary(op, left, right) => operator(state, *op, Operands { at, left, right }),
        Node::Unary(op, operand) => prefix(state, at, *op, operand),
        Node::Update(op, target) => update(state, at, *op, target),
        Node::Call(link, callee, arguments) => linked(state, at, *link, callee, arguments),
        Node::Name(text) => name(state, at, text),
        Node::Null => literal(state, at, Value::Null),
        Node::Bool(truth) => literal(state, at, Value::Bool(*truth)),
        Node::Num(number) => literal(state, at, Value::Num(*number)),
        Node::Text(text) => literal(state, at, Value::Str(text.clone()?)),
        _ => not_built(state, at),
    }
}

/// A step of the frame on top, which carries out this expression.
pub fn step(state: &mut State, tree: &Tree) -> Result<Next, AllocError>
    ensures { IfOk result (λ next. StepsBy (expression_at tree.now) state.old next state.new) }
{
    match expression(state, tree) {
        Ok(next) | Err(Over::Next(next)) => Ok(next),
        Err(Over::Memory) => Err(AllocError),
    }
}
