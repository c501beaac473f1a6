ghost use Rattle.std.specs.Prelude.{◌≡◌, ◌<◌, ◌≤◌, ◌+◌, ◌-◌, ◌^◌, IfSome, length};
ghost use Rattle.sr_marker.specs.Places as spec;

use sr_syntax::sorts::{Lexeme, Sort};

/// What a token is among brackets.
#[derive(Clone, Copy)]
pub enum Side {
    /// It opens one.
    Opens,
    /// It closes one.
    Closes,
    /// It does neither, or both.
    Neither,
}

/// What a token of this sort is among brackets, those of templates among them (ECMA-262 12.8, 12.9.6).
fn side_of(sort: Sort) -> Side
    ensures { result ≡ spec.side_of sort }
{
    match sort {
        Sort::LeftParenthesis => Side::Opens,
        Sort::LeftBracket => Side::Opens,
        Sort::LeftBrace => Side::Opens,
        Sort::TemplateHead => Side::Opens,
        Sort::RightParenthesis => Side::Closes,
        Sort::RightBracket => Side::Closes,
        Sort::RightBrace => Side::Closes,
        Sort::TemplateTail => Side::Closes,
        _ => Side::Neither,
    }
}

/// How many brackets are to be opened before a token, where so many are behind it, and none where it opens the last of them.
fn to_open(side: Side, closed: usize) -> Option<usize>
    requires { closed < 2 ^ 64 - 1 }
    ensures value { result ≡ spec.to_open side closed }
    ensures within { IfSome result (λ next. next ≤ closed + 1) }
{
    match side {
        Side::Closes => Some(closed + 1),
        Side::Opens => { if closed > 1 { Some(closed - 1) } else { None } }
        Side::Neither => Some(closed),
    }
}

/// The number of the token that opens the bracket which the last one closes.
#[tactic(auto, using(crate::proofs::Openers::opener_goes))]
pub fn opener(lexemes: &[Lexeme]) -> Option<usize>
    ensures value { result ≡ spec.opener lexemes.now (length lexemes.now) 0 }
    ensures within { IfSome result (λ n. n < length lexemes.now) }
{
    let mut closed = 0;
    for number in (0..lexemes.len()).rev() {
        match to_open(side_of(lexemes[number].sort), closed) {
            Some(next) => closed = next,
            None => return Some(number),
        }
    }
    None
}
