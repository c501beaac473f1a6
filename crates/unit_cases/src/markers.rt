use anyhow::Result;
use sr_ast::Refused;
use sr_lex::{failure_marker, lex_to_failure};
use sr_marker::{least_of, place_marker, refusal_at, token_marker};
use sr_parse::{parse_module, parse_script};
use sr_syntax::refusal::Refusal;
use sr_text::{Goal, Marker, Str};
use std::alloc::{AllocError, Global};

/// A marker and its place.
fn marked(alloc: Global, marker: Option<(Marker, usize)>) -> Result<String, AllocError> {
    match marker {
        None => String::from_str(alloc, "none"),
        Some((marker, place)) => format!(in alloc; "{marker:?} at {place}"),
    }
}

/// Why a text is no script and no module.
pub fn refused(alloc: Global, why: Refused) -> Result<String, AllocError> {
    match why {
        Refused::Syntax(place) => format!(in alloc; "syntax at {place}"),
        Refused::Unsupported(marker, place) => format!(in alloc; "{marker:?} at {place}"),
        Refused::TooDeep => String::from_str(alloc, "too deep"),
    }
}

/// The first marker of the tokens of a text.
pub fn token(alloc: Global, text: &Str) -> Result<String> {
    let lexed = lex_to_failure(alloc, text)?;
    Ok(marked(alloc, token_marker(text, &lexed.tokens))?)
}

/// The place where a text goes on with no token, and its length where it is a script or a module.
fn failure_of(alloc: Global, goal: Goal, text: &Str) -> Result<usize, Refusal> {
    let refused = match goal {
        Goal::Script => parse_script(alloc, text).err(),
        Goal::Module => parse_module(alloc, text).err(),
    };
    match refused {
        Some(Refusal::Syntax(place)) => Ok(place),
        Some(refusal) => Err(refusal),
        None => Ok(text.units().len()),
    }
}

/// The place where a text goes on with no token, and the marker of the place.
pub fn place(alloc: Global, goal: Goal, text: &Str) -> Result<String> {
    let lexed = lex_to_failure(alloc, text)?;
    let place = failure_of(alloc, goal, text)?;
    let marker = place_marker(alloc, goal, text, &lexed.tokens, place)?;
    let marker = marked(alloc, marker)?;
    Ok(format!(in alloc; "breaks off at {place}, {marker}")?)
}

/// The refusal of a text that is no script, by the marker of its tokens and that of the place where it breaks off.
pub fn refusal(alloc: Global, text: &Str) -> Result<String> {
    let lexed = lex_to_failure(alloc, text)?;
    let place = failure_of(alloc, Goal::Script, text)?;
    let of_tokens = token_marker(text, &lexed.tokens);
    let of_place = match lexed.failure {
        Some(at) => failure_marker(text, at).map(|marker| (marker, at)),
        None => place_marker(alloc, Goal::Script, text, &lexed.tokens, place)?,
    };
    Ok(refused(alloc, refusal_at(place, least_of(of_tokens, of_place)))?)
}
