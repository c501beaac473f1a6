ghost use Rattle.sr_state.specs.Ends.{Comes};
ghost use Rattle.sr_state.specs.Step.{StepsBy};
ghost use Rattle.sr_expr.specs.Stages.{binary_at, operator_at, unary_at, prefix_at};

use crate::basic::not_built;
use sr_ast::{BinaryOp, Tree, UnaryOp};
use sr_conv::{operate, operate_one};
use sr_shared::Shared;
use sr_state::{Next, Over, State};

/// Two operands of a tree that begins at a place.
#[derive(Clone, Copy)]
pub struct Operands<'a> {
    /// The place, counted in code units.
    pub at: usize,
    /// The left one, which is the target of an assignment.
    pub left: &'a Shared<Tree>,
    /// The right one.
    pub right: &'a Shared<Tree>,
}

/// The stage at which a string that was joined is paid.
pub const JOINED: u32 = 3;

/// An operator with both operands, from left to right (ECMA-262 13.15.4).
fn binary(state: &mut State, op: BinaryOp, pair: Operands<'_>) -> Result<Next, Over>
    ensures { Comes result (λ next. StepsBy (binary_at pair.entry.at op pair.entry.left.now pair.entry.right.now) state.old next state.new) }
{
    match state.stage() {
        0 => state.begin_with(pair.at, pair.left),
        1 => {
            let x = state.resume_value(pair.left)?;
            state.keep(x);
            state.set_stage(2);
            state.begin_part(pair.right)
        }
        2 => {
            let y = state.resume_value(pair.right)?;
            let x = state.take_value();
            let came = operate(state.alloc(), op, &x, &y)?;
            let value = state.operated(came, JOINED)?;
            Ok(state.give(value))
        }
        _ => {
            let value = state.pay_kept()?;
            Ok(state.give(value))
        }
    }
}

/// An operator between operands; one that is not built throws after its charge.
#[inline(always)]
pub fn operator(state: &mut State, op: BinaryOp, pair: Operands<'_>) -> Result<Next, Over>
    ensures { Comes result (λ next. StepsBy (operator_at pair.entry.at op pair.entry.left.now pair.entry.right.now) state.old next state.new) }
{
    match op {
        BinaryOp::InstanceOf | BinaryOp::In => not_built(state, pair.at),
        _ => binary(state, op, pair),
    }
}

/// The stage at which a string that was made is paid.
const MADE: u32 = 2;

/// An operator before its operand (ECMA-262 13.5).
fn unary(state: &mut State, at: usize, op: UnaryOp, operand: &Shared<Tree>) -> Result<Next, Over>
    ensures { Comes result (λ next. StepsBy (unary_at at op operand.now) state.old next state.new) }
{
    match state.stage() {
        0 => state.begin_with(at, operand),
        1 => {
            let x = state.resume_value(operand)?;
            let came = operate_one(state.alloc(), op, &x)?;
            let value = state.operated(came, MADE)?;
            Ok(state.give(value))
        }
        _ => {
            let value = state.pay_kept()?;
            Ok(state.give(value))
        }
    }
}

/// An operator before an operand; one that is not built throws after its charge.
#[inline(always)]
pub fn prefix(
    state: &mut State,
    at: usize,
    op: UnaryOp,
    operand: &Shared<Tree>,
) -> Result<Next, Over>
    ensures { Comes result (λ next. StepsBy (prefix_at at op operand.now) state.old next state.new) }
{
    match op {
        UnaryOp::Delete => not_built(state, at),
        _ => unary(state, at, op, operand),
    }
}
