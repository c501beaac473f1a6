ghost use Rattle.sr_state.specs.Ends.{Comes};
ghost use Rattle.sr_state.specs.Step.{StepsBy};
ghost use Rattle.sr_expr.specs.Parts.{BeginsArgument, IsArgument};
ghost use Rattle.sr_expr.specs.Stages.{call_at, linked_at};

use crate::basic::not_built;
use sqlite_items::Items;
use sr_ast::{Element, Link, Tree};
use sr_intrin::BuiltIn;
use sr_shared::Shared;
use sr_state::{Next, Over, State, after, before, here};

/// What stands at a place of the arguments of a call.
#[derive(Clone, Copy)]
pub enum Argument<'a> {
    /// Nothing: they end before it.
    End,
    /// An expression.
    Expression(&'a Shared<Tree>),
    /// What is not built.
    NotBuilt,
}

/// The argument of this number, from 0.
fn argument_at(arguments: &Items<Element>, at: u32) -> Argument<'_>
    ensures { IsArgument at arguments.now result }
{
    match here(arguments, at) {
        None => Argument::End,
        Some(Element::Value(tree)) => Argument::Expression(tree),
        Some(Element::Spread(_) | Element::Hole) => Argument::NotBuilt,
    }
}

/// An argument is next, at which the frame is at this stage; where there is none the call itself.
fn begin_argument(state: &mut State, stage: u32, argument: Argument<'_>) -> Result<Next, Over>
    ensures { Comes result (λ next. BeginsArgument stage argument.entry state.old next state.new) }
{
    match argument {
        Argument::End => Ok(state.become_call(BuiltIn::Print)),
        Argument::NotBuilt => Ok(state.throw()),
        Argument::Expression(part) => {
            state.set_stage(stage);
            state.begin_part(part)
        }
    }
}

/// A call (ECMA-262 13.3.6): the charge of the callee, which is `print`, the arguments from left to right, and the call.
fn call(
    state: &mut State,
    at: usize,
    callee: &Shared<Tree>,
    arguments: &Items<Element>,
) -> Result<Next, Over>
    ensures { Comes result (λ next. StepsBy (call_at at callee.now arguments.now) state.old next state.new) }
{
    match before(state.stage()) {
        None => {
            state.begin(at)?;
            state.set_stage(1);
            Ok(Next::Going)
        }
        Some(number) => match before(number) {
            None => {
                state.begin(callee.get().from)?;
                state.take_list();
                begin_argument(state, 2, argument_at(arguments, 0))
            }
            Some(number) => match argument_at(arguments, number) {
                Argument::End | Argument::NotBuilt => Ok(state.throw()),
                Argument::Expression(part) => {
                    let value = state.resume_value(part)?;
                    state.keep_more(value)?;
                    let stage = after(state.stage())?;
                    begin_argument(state, stage, argument_at(arguments, after(number)?))
                }
            },
        },
    }
}

/// A call, by how it is linked to its callee (ECMA-262 13.3.6, 13.3.9). One in an optional chain throws after its charge.
#[inline(always)]
pub fn linked(
    state: &mut State,
    at: usize,
    link: Link,
    callee: &Shared<Tree>,
    arguments: &Items<Element>,
) -> Result<Next, Over>
    ensures { Comes result (λ next. StepsBy (linked_at at link callee.now arguments.now) state.old next state.new) }
{
    match link {
        Link::Plain => call(state, at, callee, arguments),
        Link::Optional | Link::Chained => not_built(state, at),
    }
}
