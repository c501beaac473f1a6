ghost use Rattle.std.specs.Prelude.{IfOk};
ghost use Rattle.sr_model.specs.Tasks.{Context};
ghost use Rattle.sr_state.specs.Ends.{Comes};
ghost use Rattle.sr_stmt.specs.Stages.{StepsOn, variables_at};
ghost use Rattle.sr_stmt.specs.Turns.{IsNext, BeginsValue};

use sqlite_items::Items;
use sr_ast::{Declaration, Tree};
use sr_shared::Shared;
use sr_state::{Completion, Next, Over, State, after, before, here};
use sr_text::Str;
use std::alloc::AllocError;

/// The value of a declaration.
#[derive(Clone, Copy)]
struct Initializer<'a> {
    /// The number of the declaration, from 0.
    place: u32,
    /// The name.
    name: &'a Str,
    /// The value.
    value: &'a Shared<Tree>,
}

/// The first declaration with a value, from this number on.
fn next_initializer(
    declarations: &Items<Declaration>,
    from: u32,
) -> Result<Option<Initializer<'_>>, AllocError>
    ensures { (c : Context) → IfOk result (IsNext c from declarations.now) }
{
    for place in from..u32::MAX {
        match here(declarations, place) {
            None => return Ok(None),
            Some(declaration) => {
                if let Some(value) = &declaration.value {
                    return Ok(Some(Initializer {
                        place,
                        name: &declaration.name,
                        value,
                    }));
                }
            }
        }
    }
    Err(AllocError)
}

/// The value of the first declaration that has one, from this number on, is next; where there is none the frame ends.
fn begin_value(
    state: &mut State,
    declarations: &Items<Declaration>,
    from: u32,
) -> Result<Next, Over>
    ensures { Comes result (λ next. BeginsValue from declarations.now state.old next state.new) }
{
    match next_initializer(declarations, from)? {
        None => Ok(state.end(Completion::Normal(None))),
        Some(found) => {
            let base = state.base(found.name)?;
            state.keep_base(base);
            state.set_stage(after(found.place)?);
            state.begin_part(found.value)
        }
    }
}

/// `var` (ECMA-262 14.3.2): each name that has a value is given it, in order.
pub fn variables(
    state: &mut State,
    at: usize,
    declarations: &Items<Declaration>,
) -> Result<Next, Over>
    ensures { Comes result (λ next. StepsOn (variables_at at declarations.now) state.old next state.new) }
{
    match before(state.stage()) {
        None => {
            state.begin(at)?;
            begin_value(state, declarations, 0)
        }
        Some(number) => match here(declarations, number) {
            None => Ok(state.end(Completion::Normal(None))),
            Some(declaration) => match &declaration.value {
                None => Ok(state.throw()),
                Some(part) => {
                    let value = state.resume_value(part)?;
                    state.put_name(&declaration.name, value)?;
                    begin_value(state, declarations, after(number)?)
                }
            },
        },
    }
}
