ghost use Rattle.std.specs.Prelude.{IfOk};
ghost use Rattle.sr_state.specs.Ends.{Comes};
ghost use Rattle.sr_state.specs.Step.{StepsBy};
ghost use Rattle.sr_call.specs.Stages.{built_in_at};

use crate::printing::{argument, go_on, print_line};
use sr_intrin::BuiltIn;
use sr_state::{Next, Over, State};
use sr_value::Value;
use std::alloc::AllocError;

/// A call of this built-in function.
fn call(state: &mut State, function: BuiltIn) -> Result<Next, Over>
    ensures { Comes result (λ next. StepsBy (built_in_at function) state.old next state.new) }
{
    match state.stage() {
        0 => {
            state.enter()?;
            match function {
                BuiltIn::FunctionPrototype => Ok(state.give(Value::Undefined)),
                BuiltIn::Error(_) => Ok(state.throw()),
                BuiltIn::Print => go_on(state, 0),
            }
        }
        1 => Ok(state.give(Value::Undefined)),
        2 => match state.pay_kept()? {
            Value::Str(line) => Ok(print_line(state, line)),
            _ => Ok(state.throw()),
        },
        stage => {
            state.pay(1)?;
            argument(state, stage - 3)
        }
    }
}

/// A step of the frame on top, which calls this built-in function.
pub fn step(state: &mut State, function: BuiltIn) -> Result<Next, AllocError>
    ensures { IfOk result (λ next. StepsBy (built_in_at function) state.old next state.new) }
{
    match call(state, function) {
        Ok(next) | Err(Over::Next(next)) => Ok(next),
        Err(Over::Memory) => Err(AllocError),
    }
}
