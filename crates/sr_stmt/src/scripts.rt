ghost use Rattle.std.specs.Prelude.{IfOk};
ghost use Rattle.std.specs.Option.{option_copied};
ghost use Rattle.sr_state.specs.Ends.{Comes};
ghost use Rattle.sr_state.specs.Lists.{Here};
ghost use Rattle.sr_state.specs.Step.{StepsAnywhere};
ghost use Rattle.sr_stmt.specs.Rows.{operation};
ghost use Rattle.sr_stmt.specs.Stages.{source_at};
ghost use Rattle.sr_stmt.specs.Turns.{Accepts, Evaluates, Refuses, Reads};
ghost use Rattle.sr_realm.specs.Plain.{acceptance_of};

use crate::lists::{begin_statement, statement};
use sr_ast::{Reading, Refused, ScriptCode, Tree};
use sr_intrin::ErrorName;
use sr_realm::{Acceptance, Accepted, Declarations, clash_message, syntax_message};
use sr_shared::Shared;
use sr_state::{Context, Next, Over, Source, State, StopName, after, before, string_cost};
use sr_text::Str;
use std::alloc::AllocError;

/// The statement of a script of this number, from 0.
#[tactic(auto, using(sr_state::proofs::Drops::here_some, sr_state::proofs::Drops::here_none))]
fn statement_here(script: &ScriptCode, at: u32) -> Option<&Shared<Tree>>
    ensures { Here at script.now.body (option_copied result) }
{
    script.statement(at as usize)
}

/// After the names of a script were judged: its first statement is next, or an error is thrown.
fn evaluate(state: &mut State, script: &ScriptCode, accepted: Accepted) -> Result<Next, Over>
    ensures { Comes result (λ next. Evaluates accepted.number script.now (acceptance_of accepted.acceptance) state.old next state.new) }
{
    match accepted.acceptance {
        Acceptance::Accepted => {
            state.set_context(Context {
                source: accepted.number,
                strict: false,
                environment: None,
            });
            state.take_kept();
            begin_statement(state, 2, statement_here(script, 0))
        }
        Acceptance::Clash => {
            let clash = clash_message(state.alloc())?;
            Ok(state.throw_error(ErrorName::Syntax, clash)?)
        }
        Acceptance::Closed => Ok(state.throw_type_error()?),
    }
}

/// Accepts a script: its names are declared, and its first statement is next (ECMA-262 16.1.7).
fn accept(state: &mut State, text: &Str, script: &ScriptCode) -> Result<Next, Over>
    ensures { Comes result (λ next. Accepts text.now script.now state.old next state.new) }
{
    let declarations = Declarations {
        vars: script.names(),
        lexical: &[],
    };
    let accepted = state.accept(declarations, text.clone()?)?;
    evaluate(state, script, accepted)
}

/// Ends by a SyntaxError or by a stop.
fn refuse(state: &mut State, why: Refused) -> Result<Next, Over>
    ensures { Comes result (λ next. Refuses why state.old next state.new) }
{
    match why {
        Refused::Syntax(at) => {
            let message = syntax_message(state.alloc(), at)?;
            Ok(state.throw_error(ErrorName::Syntax, message)?)
        }
        Refused::Unsupported(marker, at) => Ok(Next::Halt(StopName::Unsupported(marker, at))),
        Refused::TooDeep => Ok(Next::Halt(StopName::SyntaxDepth)),
    }
}

/// Reads a text, which is paid (ECMA-262 16.1.6).
fn read(state: &mut State, source: &Source) -> Result<Next, Over>
    ensures { Comes result (λ next. Reads source.now.text source.now.code.reading state.old next state.new) }
{
    match &source.code.reading {
        Reading::Script(script) => accept(state, &source.text, script),
        Reading::Refused(why) => refuse(state, *why),
    }
}

/// A source (ECMA-262 16.1): it is paid, read and accepted, and its statements are carried out.
fn source_step(state: &mut State, source: &Source) -> Result<Next, Over>
    ensures { Comes result (λ next. StepsAnywhere operation (source_at source.now) state.old next state.new) }
{
    match before(state.stage()) {
        None => {
            state.pay(1)?;
            match string_cost(source.code.units) {
                None => read(state, source),
                Some(_) => {
                    state.set_stage(1);
                    Ok(Next::Going)
                }
            }
        }
        Some(number) => match before(number) {
            None => {
                state.pay_for(source.code.units)?;
                read(state, source)
            }
            Some(number) => match &source.code.reading {
                Reading::Refused(_) => Ok(state.throw()),
                Reading::Script(script) => statement(
                    state,
                    statement_here(script, number),
                    statement_here(script, after(number)?),
                ),
            },
        },
    }
}

/// A step of the frame on top, which carries out this source.
pub fn step_source(state: &mut State, source: &Source) -> Result<Next, AllocError>
    ensures { IfOk result (λ next. StepsAnywhere operation (source_at source.now) state.old next state.new) }
{
    match source_step(state, source) {
        Ok(next) | Err(Over::Next(next)) => Ok(next),
        Err(Over::Memory) => Err(AllocError),
    }
}
