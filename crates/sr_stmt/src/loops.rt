ghost use Rattle.std.specs.Prelude.{◌≡◌, None};
ghost use Rattle.std.specs.Option.{option_copied};
ghost use Rattle.sr_state.specs.Ends.{Comes};
ghost use Rattle.sr_state.specs.Held.{keeping, staged};
ghost use Rattle.sr_state.specs.Parts.{BeginsPart};
ghost use Rattle.sr_stmt.specs.Rows as rows;
ghost use Rattle.sr_stmt.specs.Stages.{StepsOn, while_at};
ghost use Rattle.sr_stmt.specs.Turns.{loop_of, turn_at, BeginsTurns, ToTest};

use crate::lists::keep_end;
use sr_ast::Tree;
use sr_conv::to_boolean;
use sr_shared::Shared;
use sr_state::{Next, Over, State};

/// A loop that begins at a place, counted in code units.
#[derive(Clone, Copy)]
pub struct Looping<'a> {
    /// The place.
    pub at: usize,
    /// Whether the body comes before the condition, as in `do`.
    pub body_first: bool,
    /// What comes before the first turn.
    pub first: Option<&'a Shared<Tree>>,
    /// The condition.
    pub test: Option<&'a Shared<Tree>>,
    /// The expression after each turn.
    pub update: Option<&'a Shared<Tree>>,
    /// The body.
    pub body: &'a Shared<Tree>,
}

/// The stage at the condition.
const TEST: u32 = 1;
/// The stage at the body.
const BODY: u32 = 2;
/// The stage after a turn.
const UPDATE: u32 = 3;
/// The stage at what comes before the first turn.
const FIRST: u32 = 4;

/// The tree of an optional part of a loop, or else the body.
fn tree_or<'a>(part: Option<&'a Shared<Tree>>, body: &'a Shared<Tree>) -> &'a Shared<Tree>
    ensures { result.now ≡ rows.tree_or (option_copied part.entry) body.now }
{
    match part {
        Some(part) => part,
        None => body,
    }
}

/// The body is next.
fn to_body(state: &mut State, looping: Looping<'_>) -> Result<Next, Over>
    ensures { Comes result (λ next. BeginsPart looping.entry.body.now (staged 2 state.old) next state.new) }
{
    state.set_stage(BODY);
    state.begin_part(looping.body)
}

/// The condition is next, or the body where there is none.
fn to_test(state: &mut State, looping: Looping<'_>) -> Result<Next, Over>
    ensures { Comes result (λ next. ToTest (option_copied looping.entry.test) looping.entry.body.now state.old next state.new) }
{
    match looping.test {
        None => to_body(state, looping),
        Some(test) => {
            state.set_stage(TEST);
            state.begin_part(test)
        }
    }
}

/// The first turn is next. The loop has no value so far.
fn begin_turns(state: &mut State, looping: Looping<'_>) -> Result<Next, Over>
    ensures { Comes result (λ next. BeginsTurns looping.entry.body_first (loop_of looping.entry) (keeping None state.old) next state.new) }
{
    state.take_kept();
    if looping.body_first {
        to_body(state, looping)
    } else {
        to_test(state, looping)
    }
}

/// A loop at its condition: where it holds the body is next, and else the loop ends with the value so far.
fn at_test(state: &mut State, looping: Looping<'_>) -> Result<Next, Over>
    requires { state.old.top.stage ≡ 1 }
    ensures { Comes result (λ next. StepsOn (turn_at looping.entry) state.old next state.new) }
{
    let x = state.resume_value(tree_or(looping.test, looping.body))?;
    if to_boolean(&x) {
        to_body(state, looping)
    } else {
        let value = state.take_value();
        Ok(state.give(value))
    }
}

/// A loop at its body, whose value is kept, where it has one: the expression after each turn is next.
fn at_body(state: &mut State, looping: Looping<'_>) -> Result<Next, Over>
    requires { state.old.top.stage ≡ 2 }
    ensures { Comes result (λ next. StepsOn (turn_at looping.entry) state.old next state.new) }
{
    keep_end(state, looping.body)?;
    match looping.update {
        None => to_test(state, looping),
        Some(update) => {
            state.set_stage(UPDATE);
            state.begin_part(update)
        }
    }
}

/// A loop after a turn: the condition is next.
fn at_update(state: &mut State, looping: Looping<'_>) -> Result<Next, Over>
    requires { state.old.top.stage ≡ 3 }
    ensures { Comes result (λ next. StepsOn (turn_at looping.entry) state.old next state.new) }
{
    state.resume(tree_or(looping.update, looping.body))?;
    to_test(state, looping)
}

/// A loop at what comes before the first turn.
fn at_first(state: &mut State, looping: Looping<'_>) -> Result<Next, Over>
    requires { state.old.top.stage ≡ 4 }
    ensures { Comes result (λ next. StepsOn (turn_at looping.entry) state.old next state.new) }
{
    match looping.first {
        None => Ok(state.throw()),
        Some(first) => {
            state.resume(first)?;
            begin_turns(state, looping)
        }
    }
}

/// A loop (ECMA-262 14.7.2 to 14.7.4).
pub fn turn(state: &mut State, looping: Looping<'_>) -> Result<Next, Over>
    ensures { Comes result (λ next. StepsOn (turn_at looping.entry) state.old next state.new) }
{
    match state.stage() {
        0 => {
            state.begin(looping.at)?;
            match looping.first {
                None => begin_turns(state, looping),
                Some(first) => {
                    state.set_stage(FIRST);
                    state.begin_part(first)
                }
            }
        }
        1 => at_test(state, looping),
        2 => at_body(state, looping),
        3 => at_update(state, looping),
        4 => at_first(state, looping),
        _ => Ok(state.throw()),
    }
}

/// A loop with a condition and a body alone.
pub fn while_loop<'a>(
    state: &mut State,
    at: usize,
    body_first: bool,
    test: &'a Shared<Tree>,
    body: &'a Shared<Tree>,
) -> Result<Next, Over>
    ensures { Comes result (λ next. StepsOn (while_at at body_first test.now body.now) state.old next state.new) }
{
    let looping = Looping {
        at,
        body_first,
        first: None,
        test: Some(test),
        update: None,
        body,
    };
    turn(state, looping)
}
