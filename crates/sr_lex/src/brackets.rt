ghost use Rattle.std.specs.Prelude.{◌≡◌, ◌++◌, [], ◌∷◌, reverse, IfSome, IfNone, OnOk};
ghost use Rattle.sr_lex.specs.Brackets as spec;

use crate::token::TokenKind;
use crate::units::{LEFT_BRACE, RIGHT_BRACE, begins_with};
use std::alloc::AllocError;

/// A bracket that a `}` closes.
#[derive(Clone, Copy)]
pub enum Bracket {
    /// `{`, of a block, an object or a body.
    Brace,
    /// `${`, which begins a substitution of a template.
    Substitution,
}

/// Whether the innermost open bracket, which stands last, is a `${`.
pub fn in_substitution(brackets: &[Bracket]) -> bool
    ensures { result ≡ spec.in_substitution (reverse brackets.now) }
{
    match brackets {
        [.., Bracket::Substitution] => true,
        _ => false,
    }
}

/// Whether the last of the units is `{`.
fn ends_with_brace(units: &[u16]) -> bool
    ensures { result ≡ spec.ends_with_brace units.now }
{
    match units {
        [.., last] => *last == LEFT_BRACE,
        [] => false,
    }
}

/// Closes the innermost open bracket, if there is one.
fn close(brackets: &mut Vec<Bracket>)
    ensures { reverse brackets.new.items ≡ spec.close (reverse brackets.old.items) }
{
    brackets.pop();
}

/// Opens a bracket.
fn push(brackets: &mut Vec<Bracket>, bracket: Bracket) -> Result<(), AllocError>
    ensures { OnOk result (reverse brackets.new.items ≡ bracket ∷ reverse brackets.old.items) }
{
    brackets.push(bracket)?;
    Ok(())
}

/// The brackets that are open after a punctuator.
#[tactic(auto, unfolding(crate::specs::Brackets::after_punctuator))]
fn after_punctuator(brackets: &mut Vec<Bracket>, units: &[u16]) -> Result<(), AllocError>
    ensures { OnOk result (reverse brackets.new.items ≡ spec.after_punctuator (reverse brackets.old.items) units.now) }
{
    if begins_with(LEFT_BRACE, units) {
        push(brackets, Bracket::Brace)?;
    } else if begins_with(RIGHT_BRACE, units) {
        close(brackets);
    }
    Ok(())
}

/// The brackets that are open after a template piece.
#[tactic(auto, unfolding(crate::specs::Brackets::after_piece))]
fn after_piece(brackets: &mut Vec<Bracket>, units: &[u16]) -> Result<(), AllocError>
    ensures { OnOk result (reverse brackets.new.items ≡ spec.after_piece (reverse brackets.old.items) units.now) }
{
    if begins_with(RIGHT_BRACE, units) {
        close(brackets);
    }
    if ends_with_brace(units) {
        push(brackets, Bracket::Substitution)?;
    }
    Ok(())
}

/// Opens and closes what a token of this kind with these units does.
pub fn pass(brackets: &mut Vec<Bracket>, kind: TokenKind, units: &[u16]) -> Result<(), AllocError>
    ensures { OnOk result (reverse brackets.new.items ≡ spec.brackets_after (reverse brackets.old.items) kind units.now) }
{
    match kind {
        TokenKind::Name | TokenKind::Number | TokenKind::Text => Ok(()),
        TokenKind::Template => after_piece(brackets, units),
        TokenKind::Punctuator => after_punctuator(brackets, units),
    }
}
