ghost use Rattle.std.specs.Prelude.{◌≡◌};
ghost use Rattle.sr_conv.specs.Plain.{value_of};
ghost use Rattle.sr_state.specs.Ends.{Comes};
ghost use Rattle.sr_state.specs.Step.{StepsBy};
ghost use Rattle.sr_expr.specs.Rows as rows;
ghost use Rattle.sr_expr.specs.Stages.{condition_at, logical_at};

use crate::operators::Operands;
use sr_ast::{LogicalOp, Tree};
use sr_conv::to_boolean;
use sr_shared::Shared;
use sr_state::{Next, Over, State};
use sr_value::Value;

/// Whether the left operand decides (ECMA-262 13.13.1).
pub fn decides(op: LogicalOp, value: &Value) -> bool
    ensures { result ≡ rows.decides op (value_of value.now) }
{
    match op {
        LogicalOp::And => !to_boolean(value),
        LogicalOp::Or => to_boolean(value),
        LogicalOp::Coalesce => match value {
            Value::Undefined | Value::Null => false,
            Value::Bool(_) | Value::Num(_) | Value::Str(_) | Value::Sym(_) | Value::Obj(_) => true,
        },
    }
}

/// A condition, and then one of two expressions (ECMA-262 13.14.1).
pub fn condition(
    state: &mut State,
    at: usize,
    test: &Shared<Tree>,
    yes: &Shared<Tree>,
    no: &Shared<Tree>,
) -> Result<Next, Over>
    ensures { Comes result (λ next. StepsBy (condition_at at test.now yes.now no.now) state.old next state.new) }
{
    match state.stage() {
        0 => state.begin_with(at, test),
        _ => {
            let x = state.resume_value(test)?;
            if to_boolean(&x) {
                state.become_part(yes)
            } else {
                state.become_part(no)
            }
        }
    }
}

/// A logical operator (ECMA-262 13.13.1): the right operand is evaluated where the left one does not decide.
pub fn logical(state: &mut State, op: LogicalOp, pair: Operands<'_>) -> Result<Next, Over>
    ensures { Comes result (λ next. StepsBy (logical_at pair.entry.at op pair.entry.left.now pair.entry.right.now) state.old next state.new) }
{
    match state.stage() {
        0 => state.begin_with(pair.at, pair.left),
        _ => {
            let x = state.resume_value(pair.left)?;
            if decides(op, &x) {
                Ok(state.give(x))
            } else {
                state.become_part(pair.right)
            }
        }
    }
}
