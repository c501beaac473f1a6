ghost use Rattle.std.specs.Prelude.{◌≡◌, IfOk};
ghost use Rattle.sr_value.specs.Live.{IsLiveValue};
ghost use Rattle.sr_state.specs.Ends.{Comes};
ghost use Rattle.sr_state.specs.Held.{extent_in};
ghost use Rattle.sr_state.specs.Step.{StepsBy};
ghost use Rattle.sr_expr.specs.Parts.{BeginsAssignment, BeginsTarget, Puts, ReadsTarget};
ghost use Rattle.sr_expr.specs.Rows.{name_in};
ghost use Rattle.sr_expr.specs.Stages.{assignment_at, compound_at, logical_assignment_at, plain_at, update_at};

use crate::choice::decides;
use crate::operators::{JOINED, Operands};
use sr_ast::{AssignOp, BinaryOp, LogicalOp, Node, Tree, UpdateOp};
use sr_conv::{Computed, operate, shown, step_number};
use sr_shared::Shared;
use sr_state::{Next, Over, State, StopName};
use sr_text::Str;
use sr_value::Value;
use std::alloc::{AllocError, Global};

/// The name of a target; what is no name counts as the empty one.
fn name_of(alloc: Global, target: &Tree) -> Result<Str, AllocError>
    ensures { IfOk result (λ s. s ≡ name_in target.now) }
{
    match &target.node {
        Node::Name(name) => Ok(name.clone()?),
        _ => Str::of_units(alloc, &[]).map_err(|_| AllocError),
    }
}

/// The target of an assignment pays its charge, and the frame on top keeps where it is bound.
fn begin_target(state: &mut State, target: &Shared<Tree>) -> Result<(), Over>
    ensures { BeginsTarget target.now state.old result state.new }
{
    let name = name_of(state.alloc(), target.get())?;
    state.begin(target.get().from)?;
    let base = state.base(&name)?;
    state.keep_base(base);
    Ok(())
}

/// The same, and its old value.
fn read_target(state: &mut State, target: &Shared<Tree>) -> Result<Value, Over>
    ensures reads { ReadsTarget target.now state.old result state.new }
    ensures live { IfOk result (IsLiveValue (extent_in state.new.side)) }
{
    begin_target(state, target)?;
    let name = name_of(state.alloc(), target.get())?;
    let known = state.name_there(&name)?;
    state.use_known(&name, known)
}

/// The target, whose base the frame on top keeps, is given a value, and the expression ends with a value (ECMA-262 6.2.5.6).
fn put_and_give(
    state: &mut State,
    target: &Shared<Tree>,
    value: Value,
    given: Value,
) -> Result<Next, Over>
    requires value { IsLiveValue (extent_in state.old.side) value }
    requires given { IsLiveValue (extent_in state.old.side) given }
    ensures { Comes result (λ next. Puts target.now value given state.old next state.new) }
{
    let name = name_of(state.alloc(), target.get())?;
    state.put_name(&name, value)?;
    Ok(state.give(given))
}

/// The target is given a value, with which the expression ends.
fn put(state: &mut State, target: &Shared<Tree>, value: Value) -> Result<Next, Over>
    requires { IsLiveValue (extent_in state.old.side) value }
    ensures { Comes result (λ next. Puts target.now value value state.old next state.new) }
{
    let given = value.clone()?;
    put_and_give(state, target, value, given)
}

/// The charge of an assignment, after which the target pays its own in a step of its own.
fn begin_assignment(state: &mut State, at: usize) -> Result<Next, Over>
    ensures { Comes result (λ next. BeginsAssignment at state.old next state.new) }
{
    state.begin(at)?;
    state.set_stage(1);
    Ok(Next::Going)
}

/// `=` (ECMA-262 13.15.2).
fn plain(state: &mut State, pair: Operands<'_>) -> Result<Next, Over>
    ensures { Comes result (λ next. StepsBy (plain_at pair.entry.at pair.entry.left.now pair.entry.right.now) state.old next state.new) }
{
    match state.stage() {
        0 => begin_assignment(state, pair.at),
        1 => {
            begin_target(state, pair.left)?;
            state.set_stage(2);
            state.begin_part(pair.right)
        }
        _ => {
            let value = state.resume_value(pair.right)?;
            put(state, pair.left, value)
        }
    }
}

/// An operator and `=` (ECMA-262 13.15.2): the old value, the right side, and the operator.
fn compound(state: &mut State, op: BinaryOp, pair: Operands<'_>) -> Result<Next, Over>
    ensures { Comes result (λ next. StepsBy (compound_at pair.entry.at op pair.entry.left.now pair.entry.right.now) state.old next state.new) }
{
    match state.stage() {
        0 => begin_assignment(state, pair.at),
        1 => {
            let x = read_target(state, pair.left)?;
            state.keep(x);
            state.set_stage(2);
            state.begin_part(pair.right)
        }
        2 => {
            let y = state.resume_value(pair.right)?;
            let x = state.take_value();
            let came = operate(state.alloc(), op, &x, &y)?;
            let value = state.operated(came, JOINED)?;
            put(state, pair.left, value)
        }
        _ => {
            let value = state.pay_kept()?;
            put(state, pair.left, value)
        }
    }
}

/// A logical operator and `=` (ECMA-262 13.15.2): the old value, and where it does not decide the right side.
fn logical_assignment(state: &mut State, op: LogicalOp, pair: Operands<'_>) -> Result<Next, Over>
    ensures { Comes result (λ next. StepsBy (logical_assignment_at pair.entry.at op pair.entry.left.now pair.entry.right.now) state.old next state.new) }
{
    match state.stage() {
        0 => begin_assignment(state, pair.at),
        1 => {
            let x = read_target(state, pair.left)?;
            if decides(op, &x) {
                return Ok(state.give(x));
            }
            state.set_stage(2);
            state.begin_part(pair.right)
        }
        _ => {
            let value = state.resume_value(pair.right)?;
            put(state, pair.left, value)
        }
    }
}

/// An assignment, by its operator (ECMA-262 13.15.2).
#[inline(always)]
pub fn assignment(state: &mut State, op: AssignOp, pair: Operands<'_>) -> Result<Next, Over>
    ensures { Comes result (λ next. StepsBy (assignment_at pair.entry.at op pair.entry.left.now pair.entry.right.now) state.old next state.new) }
{
    match op {
        AssignOp::Plain => plain(state, pair),
        AssignOp::Compound(op) => compound(state, op, pair),
        AssignOp::Logical(op) => logical_assignment(state, op, pair),
    }
}

/// `++` or `--` of a name (ECMA-262 13.4): the old value is made a number, and the new one is given to the name.
pub fn update(
    state: &mut State,
    at: usize,
    op: UpdateOp,
    target: &Shared<Tree>,
) -> Result<Next, Over>
    ensures { Comes result (λ next. StepsBy (update_at at op target.now) state.old next state.new) }
{
    match state.stage() {
        0 => begin_assignment(state, at),
        _ => {
            let old = read_target(state, target)?;
            match step_number(op, &old) {
                Computed::Is(n) => {
                    let after = Value::Num(n.after);
                    put_and_give(state, target, after, Value::Num(shown(op, n)))
                }
                Computed::Stops(stop) => Ok(Next::Halt(StopName::Number(stop))),
                Computed::Fails => Ok(state.throw_type_error()?),
            }
        }
    }
}
