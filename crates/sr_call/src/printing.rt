ghost use Rattle.std.specs.Prelude.{◌≡◌, ◌<◌, length, IfOk};
ghost use Rattle.sr_conv.specs.Answers.{text_computed};
ghost use Rattle.sr_state.specs.Ends.{Comes};
ghost use Rattle.sr_state.specs.Step.{plain};
ghost use Rattle.sr_state.specs.Trees.{computed};
ghost use Rattle.sr_call.specs.Parts.{line_of, GoesOn, IsWithin, PrintsAll, PrintsLine, PutsText, Turns};
ghost use Rattle.sr_call.specs.Stages.{turn_at, after_turn};

use crate::line::line;
use sqlite_items::Items;
use sr_conv::{Computed, to_text};
use sr_state::{Next, Over, State, StopName, after};
use sr_text::Str;
use sr_value::Value;
use std::alloc::{AllocError, Global};

/// The stage after the line was printed.
const PRINTED: u32 = 1;

/// The stage at which the line is kept and is to be paid.
const MADE: u32 = 2;

/// The stage of the first argument.
const ARGUMENTS: u32 = 3;

/// Prints a line, and waits for it.
pub fn print_line(state: &mut State, text: Str) -> Next
    ensures { PrintsLine text state.old result state.new }
{
    state.take_answer();
    state.set_stage(PRINTED);
    Next::Print(text)
}

/// Prints the line of the texts in the list, once it is paid.
fn print_all(state: &mut State) -> Result<Next, Over>
    ensures { Comes result (λ next. PrintsAll (line_of state.old.top.list) state.old next state.new) }
{
    match line(state.alloc(), state.top().list.as_slice())? {
        None => Ok(Next::Halt(StopName::StringLength)),
        Some(text) => {
            let text = state.made(text, MADE)?;
            Ok(print_line(state, text))
        }
    }
}

/// Goes on from the argument of this number: it waits for its turn, and where it is not there the line is printed.
#[tactic(auto, using(crate::proofs::Arguments::rest_there, crate::proofs::Arguments::rest_past))]
pub fn go_on(state: &mut State, number: u32) -> Result<Next, Over>
    ensures { Comes result (λ next. GoesOn number state.old next state.new) }
{
    if (number as usize) < state.top().list.len() {
        let Some(stage) = number.checked_add(ARGUMENTS) else {
            return Err(Over::Memory);
        };
        state.set_stage(stage);
        Ok(Next::Going)
    } else {
        print_all(state)
    }
}

/// The text of the argument of this number (ECMA-262 7.1.17). One that is not there has none.
#[tactic(auto, using(crate::proofs::Arguments::turn_there, crate::proofs::Arguments::turn_past))]
fn text_at(
    alloc: Global,
    arguments: &Items<Value>,
    number: u32,
) -> Result<Computed<Str>, AllocError>
    ensures text { IfOk result (λ t. turn_at number (plain arguments.now) ≡ computed (text_computed t) (after_turn number (plain arguments.now))) }
    ensures within { IfOk result (λ t. IsWithin number arguments.now t) }
{
    match arguments.get(number as usize) {
        None => Ok(Computed::Fails),
        Some(value) => to_text(alloc, value),
    }
}

/// An argument gives way to its text.
#[tactic(auto, using(crate::proofs::Arguments::rest_put))]
fn put_text(state: &mut State, number: u32, text: Str)
    requires { number < length state.old.top.list }
    ensures { PutsText number (after_turn number (plain state.old.top.list) text) state.old state.new }
{
    state.set_in_list(number as usize, Value::Str(text));
}

/// The turn of the argument of this number, once its step is paid: its text takes its place.
pub fn argument(state: &mut State, number: u32) -> Result<Next, Over>
    ensures { Comes result (λ next. Turns number state.old next state.new) }
{
    match text_at(state.alloc(), &state.top().list, number)? {
        Computed::Is(text) => {
            put_text(state, number, text);
            go_on(state, after(number)?)
        }
        Computed::Stops(stop) => Ok(Next::Halt(StopName::Number(stop))),
        Computed::Fails => Ok(state.throw_type_error()?),
    }
}
