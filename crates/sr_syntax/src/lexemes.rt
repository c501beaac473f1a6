ghost use Rattle.std.specs.Prelude.{◌≡◌, ◌∷◌, List, All, IfOk};
ghost use Rattle.sr_lex.specs.Tokens.{IsTokenOf, token_units};
ghost use Rattle.sr_syntax.specs.Lexemes.{Holds, IsLexeme, Lexemes, Sorted, Behind, ahead_of, with_aheads};

use crate::sorts::{Content, Lexeme, Sort};
use crate::words::sort_of;
use sr_lex::{Token, TokenKind, number_value, string_value, template_value, token_text};
use sr_text::Str;
use std::alloc::{AllocError, Global};

/// What a token holds beside its sort.
fn content_of(alloc: Global, text: &Str, token: &Token) -> Result<Content, AllocError>
    requires { IsTokenOf text.now token.now }
    ensures { IfOk result (Holds token.now.kind (token_units text.now token.now)) }
{
    match token.kind {
        TokenKind::Name => Ok(Content::Name(text.slice(alloc, token.from, token.to)?)),
        TokenKind::Number => Ok(Content::Number(number_value(text, token))),
        TokenKind::Text => Ok(Content::Text(string_value(alloc, text, token)?)),
        TokenKind::Template => Ok(Content::Text(template_value(alloc, text, token)?)),
        TokenKind::Punctuator => Ok(Content::Nothing),
    }
}

/// What a token is to the grammar.
fn lexeme_of(alloc: Global, text: &Str, token: &Token) -> Result<Lexeme, AllocError>
    requires { IsTokenOf text.now token.now }
    ensures { IfOk result (IsLexeme text.now token.now) }
{
    Ok(Lexeme {
        sort: sort_of(token.kind, token_text(text, token)),
        content: content_of(alloc, text, token)?,
        from: token.from,
        to: token.to,
        line_before: token.line_before,
        ahead: Sort::End,
    })
}

/// What some tokens of a text are, with nothing told of what stands ahead of each.
fn sorted(alloc: Global, text: &Str, tokens: &[Token]) -> Result<Vec<Lexeme>, AllocError>
    requires { All (IsTokenOf text.now) tokens.now }
    ensures { IfOk result (λ v. Sorted text.now tokens.now v.items) }
{
    let mut found = Vec::with_capacity(alloc, tokens.len())?;
    for token in tokens {
        found.push(lexeme_of(alloc, text, token)?)?;
    }
    Ok(found)
}

/// What stands ahead of a token of this sort: `next` behind it, or for a `(` what stands behind the innermost of the closing
/// parentheses behind it that are not opened there, which `closed` has, the innermost last.
fn ahead(closed: &mut Vec<Sort>, next: Sort, sort: Sort) -> Result<Sort, AllocError>
    ensures { (ss : List Sort) → Behind ss closed.old.items next
        → IfOk result (λ s. (s ≡ ahead_of sort ss) × Behind (sort ∷ ss) closed.new.items sort) }
{
    match sort {
        Sort::LeftParenthesis => match closed.pop() {
            Some(behind) => Ok(behind),
            None => Ok(Sort::End),
        },
        Sort::RightParenthesis => {
            closed.push(next)?;
            Ok(next)
        }
        _ => Ok(next),
    }
}

/// Tells of each token what stands ahead of it, from the last one on.
fn look_ahead(alloc: Global, lexemes: &mut [Lexeme]) -> Result<(), AllocError>
    ensures { IfOk result (λ _. lexemes.new ≡ with_aheads lexemes.old) }
{
    let mut closed = Vec::new(alloc);
    let mut next = Sort::End;
    for index in (0..lexemes.len()).rev() {
        let sort = lexemes[index].sort;
        lexemes[index].ahead = ahead(&mut closed, next, sort)?;
        next = sort;
    }
    Ok(())
}

/// What some tokens of a text are to the grammar.
pub fn lexemes(alloc: Global, text: &Str, tokens: &[Token]) -> Result<Vec<Lexeme>, AllocError>
    requires { All (IsTokenOf text.now) tokens.now }
    ensures { IfOk result (λ v. Lexemes text.now tokens.now v.items) }
{
    let mut found = sorted(alloc, text, tokens)?;
    look_ahead(alloc, &mut found)?;
    Ok(found)
}
