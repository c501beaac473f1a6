ghost use Rattle.std.specs.Prelude.{◌≡◌, ◌≢◌, All, IfOk, Ok, Err};
ghost use Rattle.sr_ast.specs.declared.refused.Refused.{Refused};
ghost use Rattle.sr_lex.specs.Answers.{LexesTo};
ghost use Rattle.sr_lex.specs.Tokens.{Tokens, IsTokenOf};
ghost use Rattle.sr_syntax.specs.declared.refusal.Refusal.TheVariants as grammar;
ghost use Rattle.sr_unit.specs.declared.refusal.Refusal.TheVariants as refusal;
ghost use Rattle.sr_unit.specs.Refusals as spec;
ghost use Rattle.sr_unit.specs.Refusals.{ReadsTokens, Judges, Reads};

use crate::refusal::Refusal;
use sqlite_items::Items;
use sr_ast::{Refused, Tree};
use sr_early::early;
use sr_lex::{Lexed, Token, failure_marker};
use sr_marker::{least_of, place_marker, refusal_at, token_marker};
use sr_parse::{parse_module_items, parse_statements};
use sr_shared::Shared;
use sr_syntax::refusal::Refusal as GrammarRefusal;
use sr_text::{Goal, Marker, Str};
use std::alloc::{AllocError, Global};

/// The items as which the grammar of the goal reads the tokens of the text.
fn items_of(
    alloc: Global,
    goal: Goal,
    text: &Str,
    tokens: &[Token],
) -> Result<Items<Shared<Tree>>, GrammarRefusal>
    requires { All (IsTokenOf text.now) tokens.now }
    ensures { result ≢ Err grammar.Memory → ReadsTokens goal text.now tokens.now result }
{
    match goal {
        Goal::Script => parse_statements(alloc, text, tokens),
        Goal::Module => parse_module_items(alloc, text, tokens),
    }
}

/// A marker at the place of a failure.
fn marked_at(at: usize, marker: Option<Marker>) -> Option<(Marker, usize)>
    ensures { result ≡ spec.marked_at at marker }
{
    match marker {
        None => None,
        Some(marker) => Some((marker, at)),
    }
}

/// The refusal of a text in which, behind these tokens, none fits at a place.
fn no_token(text: &Str, tokens: &[Token], at: usize) -> Refusal
    requires { All (IsTokenOf text.now) tokens.now }
    ensures { result ≡ spec.no_token text.now tokens.now at }
{
    let failed = marked_at(at, failure_marker(text, at));
    Refusal::Refused(refusal_at(at, least_of(token_marker(text, tokens), failed)))
}

/// The refusal of a text where the grammar goes on with no token at a place.
fn fault(
    alloc: Global,
    goal: Goal,
    text: &Str,
    tokens: &[Token],
    at: usize,
) -> Result<Refused, AllocError>
    requires { All (IsTokenOf text.now) tokens.now }
    ensures { IfOk result (λ refused. Judges goal text.now tokens.now (Err (grammar.Syntax at)) (Err (refusal.Refused refused))) }
{
    let here = place_marker(alloc, goal, text, tokens, at)?;
    Ok(refusal_at(at, least_of(token_marker(text, tokens), here)))
}

/// The items of the text that has these tokens, where they break no rule of the static semantics.
fn without_errors(
    alloc: Global,
    goal: Goal,
    text: &Str,
    tokens: &[Token],
    items: Items<Shared<Tree>>,
) -> Result<Items<Shared<Tree>>, Refusal>
    requires { All (IsTokenOf text.now) tokens.now }
    ensures { result ≢ Err refusal.Memory → Judges goal text.now tokens.now (Ok items) result }
{
    match early(alloc, goal, items.as_slice())? {
        None => Ok(items),
        Some(at) => Err(Refusal::Refused(refusal_at(at, token_marker(text, tokens)))),
    }
}

/// What the tokens of the text are.
fn judge(
    alloc: Global,
    goal: Goal,
    text: &Str,
    tokens: &[Token],
) -> Result<Items<Shared<Tree>>, Refusal>
    requires tokens { Tokens text.now tokens.now }
    requires each { All (IsTokenOf text.now) tokens.now }
    ensures { result ≢ Err refusal.Memory → Reads goal text.now result }
{
    match items_of(alloc, goal, text, tokens) {
        Ok(items) => without_errors(alloc, goal, text, tokens, items),
        Err(GrammarRefusal::Syntax(at)) => {
            Err(Refusal::Refused(fault(alloc, goal, text, tokens, at)?))
        }
        Err(GrammarRefusal::TooDeep) => Err(Refusal::Refused(Refused::TooDeep)),
        Err(GrammarRefusal::Memory) => Err(Refusal::Memory),
    }
}

/// The items of the script or the module that the text is, of which the tokens are these, up to a failure or the end (ECMA-262
/// 16.1, 16.2). `Refused` comes exactly where it is none, with the reason: too much is open or too deep; or it breaks a rule, of the
/// tokens, of the grammar or of the static semantics, first at a place, where the marker of the least place is told, if it has one.
pub fn read_tokens(
    alloc: Global,
    goal: Goal,
    text: &Str,
    lexed: &Lexed,
) -> Result<Items<Shared<Tree>>, Refusal>
    requires tokens { LexesTo text.now lexed.now.tokens.items lexed.now.failure }
    requires each { All (IsTokenOf text.now) lexed.now.tokens.items }
    ensures { result ≢ Err refusal.Memory → Reads goal text.now result }
{
    match lexed.failure {
        None => judge(alloc, goal, text, &lexed.tokens),
        Some(at) => Err(no_token(text, &lexed.tokens, at)),
    }
}
