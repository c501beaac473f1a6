use source_tables::put_units;
use sr_lex::{
    LexRefusal, Token, TokenKind, failure_marker, lex, lex_to_failure, number_value, string_value,
    template_value, token_text,
};
use sr_text::Str;
use std::alloc::{AllocError, Global};
use std::fmt::Write;

/// How a text is refused.
fn refused(alloc: Global, refusal: LexRefusal) -> Result<String, AllocError> {
    match refusal {
        LexRefusal::Syntax(place) => format!(in alloc; "fails at {place}"),
        LexRefusal::Memory => Err(AllocError),
    }
}

/// The name of a kind of tokens.
fn kind_name(kind: TokenKind) -> &'static str {
    match kind {
        TokenKind::Name => "name",
        TokenKind::Number => "number",
        TokenKind::Text => "text",
        TokenKind::Template => "template",
        TokenKind::Punctuator => "punctuator",
    }
}

/// Puts a token at the end: its kind and its place, behind `^` where a line end stands before it.
fn put_token(out: &mut String, token: &Token) -> Result<(), AllocError> {
    let line = if token.line_before { "^" } else { "" };
    let kind = kind_name(token.kind);
    let from = token.from;
    let to = token.to;
    write!(out, "{line}{kind} {from}-{to}")
}

/// The kinds and the places of the tokens of a text.
pub fn tokens(alloc: Global, text: &Str) -> Result<String, AllocError> {
    let mut out = String::new(alloc);
    match lex(alloc, text) {
        Ok(tokens) => {
            for token in &tokens {
                out.push_str(if out.is_empty() { "" } else { ", " })?;
                put_token(&mut out, token)?;
            }
            Ok(out)
        }
        Err(refusal) => refused(alloc, refusal),
    }
}

/// The texts of the tokens of a text, each before `|`.
pub fn token_texts(alloc: Global, text: &Str) -> Result<String, AllocError> {
    let mut out = String::new(alloc);
    match lex(alloc, text) {
        Ok(tokens) => {
            for token in &tokens {
                let units = token_text(text, token);
                put_units(&mut out, units)?;
                out.push_str("|")?;
            }
            Ok(out)
        }
        Err(refusal) => refused(alloc, refusal),
    }
}

/// The values of the literals and template pieces of a text, each before `|`; a name and a punctuator have none.
pub fn values(alloc: Global, text: &Str) -> Result<String, AllocError> {
    let mut out = String::new(alloc);
    match lex(alloc, text) {
        Ok(tokens) => {
            for token in &tokens {
                match token.kind {
                    TokenKind::Number => match number_value(text, token).get() {
                        Some(value) => write!(out, "{value}|")?,
                        None => out.push_str("NaN|")?,
                    },
                    TokenKind::Text => {
                        put_units(&mut out, string_value(alloc, text, token)?.units())?;
                        out.push_str("|")?;
                    }
                    TokenKind::Template => {
                        put_units(&mut out, template_value(alloc, text, token)?.units())?;
                        out.push_str("|")?;
                    }
                    TokenKind::Name | TokenKind::Punctuator => {}
                }
            }
            Ok(out)
        }
        Err(refusal) => refused(alloc, refusal),
    }
}

/// Puts the marker of what stands at a place at the end, where there is one.
fn put_marker(out: &mut String, text: &Str, at: usize) -> Result<(), AllocError> {
    match failure_marker(text, at) {
        None => Ok(()),
        Some(marker) => write!(out, ": {marker:?}"),
    }
}

/// How many tokens a text has, and where it has none, with the marker of what stands there; behind its end there is none.
pub fn failure(alloc: Global, text: &Str) -> Result<String, AllocError> {
    let lexed = lex_to_failure(alloc, text)?;
    let count = lexed.tokens.len();
    let mut out = format!(in alloc; "tokens: {count}")?;
    if let Some(place) = lexed.failure {
        write!(out, ", fails at {place}")?;
        put_marker(&mut out, text, place)?;
    }
    put_marker(&mut out, text, text.units().len())?;
    Ok(out)
}
