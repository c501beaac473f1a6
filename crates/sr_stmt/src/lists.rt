ghost use Rattle.std.specs.Option.{option_copied};
ghost use Rattle.sr_state.specs.Ends.{Comes};
ghost use Rattle.sr_stmt.specs.Stages.{StepsOn, block_at};
ghost use Rattle.sr_stmt.specs.Turns.{Continues, Keeps, Statement};

use sqlite_items::Items;
use sr_ast::Tree;
use sr_shared::Shared;
use sr_state::{Completion, Next, Over, State, after, before, here};

/// The end of a part as the step begins: its value is kept, where it has one.
pub fn keep_end(state: &mut State, part: &Shared<Tree>) -> Result<(), Over>
    ensures { Keeps part.now state.old result state.new }
{
    match state.resume(part)? {
        None => Ok(()),
        Some(value) => {
            state.keep(value);
            Ok(())
        }
    }
}

/// The next statement, at which the frame is at this stage; where there is none the frame ends with the value so far.
pub fn begin_statement(
    state: &mut State,
    stage: u32,
    part: Option<&Shared<Tree>>,
) -> Result<Next, Over>
    ensures { Comes result (λ next. Continues stage (option_copied part.entry) state.old next state.new) }
{
    match part {
        Some(part) => {
            state.set_stage(stage);
            state.begin_part(part)
        }
        None => {
            let value = state.take_kept();
            Ok(state.end(Completion::Normal(value)))
        }
    }
}

/// The statement that is under way, where there is one, and then the next one (ECMA-262 14.2.2).
pub fn statement(
    state: &mut State,
    here: Option<&Shared<Tree>>,
    next: Option<&Shared<Tree>>,
) -> Result<Next, Over>
    ensures { Comes result (λ after. Statement (option_copied here.entry) (option_copied next.entry) state.old after state.new) }
{
    match here {
        None => begin_statement(state, 0, None),
        Some(part) => {
            keep_end(state, part)?;
            let stage = after(state.stage())?;
            begin_statement(state, stage, next)
        }
    }
}

/// A block (ECMA-262 14.2).
pub fn block(state: &mut State, at: usize, statements: &Items<Shared<Tree>>) -> Result<Next, Over>
    ensures { Comes result (λ next. StepsOn (block_at at statements.now) state.old next state.new) }
{
    match before(state.stage()) {
        None => {
            state.begin(at)?;
            state.take_kept();
            begin_statement(state, 1, here(statements, 0))
        }
        Some(number) => statement(
            state,
            here(statements, number),
            here(statements, after(number)?),
        ),
    }
}
