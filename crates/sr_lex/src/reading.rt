ghost use Rattle.std.specs.Prelude.{◌≡◌, ◌<◌, ◌≤◌, [], length, All, IfOk, IfErr};
ghost use Rattle.sr_lex.specs.Tokens.{Tokens, IsTokenOf, token_units};
ghost use Rattle.sr_lex.specs.Answers.{LexesTo, Refuses};
ghost use Rattle.sr_lex.specs.Strings.{StringLiteral, IsLiteral};
ghost use Rattle.sr_lex.specs.Numbers.{NumberLiteral};
ghost use Rattle.sr_lex.specs.Templates.{TemplatePiece, IsPiece};
ghost use Rattle.sr_lex.specs.Scan as spec;
ghost use Rattle.sr_lex.specs.declared.token.TokenKind.TheVariants.{Number, Text, Template};

use crate::brackets::{in_substitution, pass};
use crate::gaps::gap;
use crate::literals::literal_value;
use crate::numbers::literal_number;
use crate::rows::row_at_front;
use crate::token::{LexRefusal, Lexed, Token};
use crate::units::BACKQUOTE;
use sr_num::Num;
use sr_text::{Str, TextRefusal};
use std::alloc::{AllocError, Global};

/// The tokens of these units, up to the first place at which no token fits.
fn tokens_of(alloc: Global, text: &[u16]) -> Result<Lexed, AllocError>
    ensures { IfOk result (λ lexed. spec.lexed (length text.now) 0 [] text.now ≡ (lexed.tokens.items, lexed.failure)) }
{
    let mut tokens = Vec::new(alloc);
    let mut brackets = Vec::new(alloc);
    let mut at = 0;
    let mut unclosed = false;
    for _turn in 0..text.len() {
        let gap = gap(&text[at..], at == 0, &mut unclosed);
        let from = at + gap.units;
        if from == text.len() {
            return Ok(Lexed {
                tokens,
                failure: None,
            });
        }
        let Some(row) = row_at_front(in_substitution(&brackets), &text[from..]) else {
            return Ok(Lexed {
                tokens,
                failure: Some(from),
            });
        };
        at = from + row.units;
        pass(&mut brackets, row.kind, &text[from..at])?;
        tokens.push(Token {
            kind: row.kind,
            from,
            to: at,
            line_before: gap.line,
        })?;
    }
    Ok(Lexed {
        tokens,
        failure: None,
    })
}

/// The tokens of the text, from the left (ECMA-262 12), up to its end or the first place at which no token fits; a template comes
/// in pieces, and the `}` that ends a substitution begins one (12.9.6). `AllocError` comes where memory runs out.
pub fn lex_to_failure(alloc: Global, text: &Str) -> Result<Lexed, AllocError>
    ensures tokens { IfOk result (λ lexed. LexesTo text.now lexed.tokens.items lexed.failure) }
    ensures each { IfOk result (λ lexed. All (IsTokenOf text.now) lexed.tokens.items) }
{
    tokens_of(alloc, text.units())
}

/// The tokens of the text, as `lex_to_failure` reads them. `Syntax` comes exactly where the text has none, with the first place at
/// which no token fits, and `Memory` where memory runs out.
pub fn lex(alloc: Global, text: &Str) -> Result<Vec<Token>, LexRefusal>
    ensures tokens { IfOk result (λ v. Tokens text.now v.items) }
    ensures each { IfOk result (λ v. All (IsTokenOf text.now) v.items) }
    ensures refused { IfErr result (λ refusal. Refuses text.now refusal) }
{
    let lexed = lex_to_failure(alloc, text)?;
    match lexed.failure {
        None => Ok(lexed.tokens),
        Some(place) => Err(LexRefusal::Syntax(place)),
    }
}

/// The code units of a token.
pub fn token_text<'a>(text: &'a Str, token: &Token) -> &'a [u16]
    requires { IsTokenOf text.now token.now }
    ensures { result.now ≡ token_units text.now token.now }
{
    &text.units()[token.from..token.to]
}

/// The value of a string literal.
fn value_of(alloc: Global, literal: &[u16]) -> Result<Vec<u16>, AllocError>
    requires some { 0 < length literal.now }
    requires literal { IsLiteral literal.now }
    ensures value { IfOk result (λ v. StringLiteral literal.now v.items) }
    ensures within { IfOk result (λ v. length v.items ≤ length literal.now) }
{
    literal_value(alloc, &literal[1..], literal[0])
}

/// The string value of a string literal (ECMA-262 12.9.4.2).
pub fn string_value(alloc: Global, text: &Str, token: &Token) -> Result<Str, AllocError>
    requires token { IsTokenOf text.now token.now }
    requires literal { token.now.kind ≡ Text }
    ensures { IfOk result (λ s. StringLiteral (token_units text.now token.now) s) }
{
    let value = value_of(alloc, &text.units()[token.from..token.to])?;
    match Str::of_units(alloc, &value) {
        Ok(value) => Ok(value),
        Err(TextRefusal::Memory) => Err(AllocError),
        Err(TextRefusal::TooLong) => unreachable!(),
        Err(TextRefusal::NotUtf8(_)) => unreachable!(),
    }
}

/// The value of a number literal (ECMA-262 12.9.3.3).
pub fn number_value(text: &Str, token: &Token) -> Num
    requires token { IsTokenOf text.now token.now }
    requires literal { token.now.kind ≡ Number }
    ensures { NumberLiteral (token_units text.now token.now) result }
{
    literal_number(&text.units()[token.from..token.to])
}

/// The value of a template piece.
fn piece_value(alloc: Global, piece: &[u16]) -> Result<Vec<u16>, AllocError>
    requires some { 0 < length piece.now }
    requires piece { IsPiece piece.now }
    ensures value { IfOk result (λ v. TemplatePiece piece.now v.items) }
    ensures within { IfOk result (λ v. length v.items ≤ length piece.now) }
{
    literal_value(alloc, &piece[1..], BACKQUOTE)
}

/// The value of a template piece, in which CR and CR LF are LF and a line continuation is nothing (ECMA-262 12.9.6 TV).
pub fn template_value(alloc: Global, text: &Str, token: &Token) -> Result<Str, AllocError>
    requires token { IsTokenOf text.now token.now }
    requires piece { token.now.kind ≡ Template }
    ensures { IfOk result (λ s. TemplatePiece (token_units text.now token.now) s) }
{
    let value = piece_value(alloc, &text.units()[token.from..token.to])?;
    match Str::of_units(alloc, &value) {
        Ok(value) => Ok(value),
        Err(TextRefusal::Memory) => Err(AllocError),
        Err(TextRefusal::TooLong) => unreachable!(),
        Err(TextRefusal::NotUtf8(_)) => unreachable!(),
    }
}
