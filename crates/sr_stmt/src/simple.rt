ghost use Rattle.std.specs.Option.{option_copied};
ghost use Rattle.sr_state.specs.Ends.{Comes};
ghost use Rattle.sr_stmt.specs.Stages.{StepsOn, expression_at, empty_at, throw_at, choice_at};

use sr_ast::Tree;
use sr_conv::to_boolean;
use sr_shared::Shared;
use sr_state::{Abrupt, Completion, Next, Over, State};
use sr_value::Value;

/// An expression as a statement (ECMA-262 14.5): after its charge the frame goes on as that of the expression.
pub fn expression(state: &mut State, at: usize, tree: &Shared<Tree>) -> Result<Next, Over>
    ensures { Comes result (λ next. StepsOn (expression_at at tree.now) state.old next state.new) }
{
    match state.stage() {
        0 => {
            state.begin(at)?;
            state.become_part(tree)
        }
        _ => Ok(state.throw()),
    }
}

/// The empty statement (ECMA-262 14.4).
pub fn empty(state: &mut State, at: usize) -> Result<Next, Over>
    ensures { Comes result (λ next. StepsOn (empty_at at) state.old next state.new) }
{
    match state.stage() {
        0 => {
            state.begin(at)?;
            Ok(state.end(Completion::Normal(None)))
        }
        _ => Ok(state.throw()),
    }
}

/// `throw` (ECMA-262 14.14).
pub fn throw(state: &mut State, at: usize, part: &Shared<Tree>) -> Result<Next, Over>
    ensures { Comes result (λ next. StepsOn (throw_at at part.now) state.old next state.new) }
{
    match state.stage() {
        0 => state.begin_with(at, part),
        _ => {
            let value = state.resume_value(part)?;
            Ok(state.end(Completion::Abrupt(Abrupt::Throw(value))))
        }
    }
}

/// `if` (ECMA-262 14.6): the condition, and the statement that it chooses, whose empty value counts as undefined.
pub fn choice(
    state: &mut State,
    at: usize,
    test: &Shared<Tree>,
    yes: &Shared<Tree>,
    no: Option<&Shared<Tree>>,
) -> Result<Next, Over>
    ensures { Comes result (λ next. StepsOn (choice_at at test.now yes.now (option_copied no.entry)) state.old next state.new) }
{
    match state.stage() {
        0 => state.begin_with(at, test),
        1 => {
            let x = state.resume_value(test)?;
            match no {
                _ if to_boolean(&x) => {
                    state.set_stage(2);
                    state.begin_part(yes)
                }
                Some(no) => {
                    state.set_stage(3);
                    state.begin_part(no)
                }
                None => Ok(state.give(Value::Undefined)),
            }
        }
        2 => {
            let value = state.resume_value(yes)?;
            Ok(state.give(value))
        }
        _ => match no {
            None => Ok(state.give(Value::Undefined)),
            Some(no) => {
                let value = state.resume_value(no)?;
                Ok(state.give(value))
            }
        },
    }
}
