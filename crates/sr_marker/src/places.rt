ghost use Rattle.std.specs.Prelude.{◌≡◌, ◌≤◌, All, IfOk, length};
ghost use Rattle.sr_lex.specs.Tokens.{IsTokenOf};
ghost use Rattle.sr_syntax.specs.Input.{text_of};
ghost use Rattle.sr_marker.specs.Places as spec;

use crate::brackets::opener;
use crate::reading::{Reading, Spot, could_stand, spot_of, stand_in};
use sr_lex::Token;
use sr_syntax::lexemes::lexemes;
use sr_syntax::sorts::{Content, Lexeme, Sort, same_sort};
use sr_text::{Goal, Marker, Str, spells};
use std::alloc::{AllocError, Global};

/// What the last of these tokens is, and the end where there is none.
fn last_sort(lexemes: &[Lexeme]) -> Sort
    ensures { result ≡ spec.sort_in (spec.last_of lexemes.now) }
{
    match lexemes {
        [] => Sort::End,
        [.., last] => last.sort,
    }
}

/// Whether the text that a token holds is `get` or `set`.
fn is_get_or_set(content: &Content) -> bool
    ensures { result ≡ spec.is_get_or_set (text_of content.now) }
{
    match content {
        Content::Name(text) | Content::Text(text) => {
            spells(text.units(), b"get") || spells(text.units(), b"set")
        }
        Content::Number(_) | Content::Nothing => false,
    }
}

/// Whether the last of these tokens is the name `get` or `set`.
fn ends_with_accessor_word(lexemes: &[Lexeme]) -> bool
    ensures { result ≡ spec.is_accessor_word (spec.last_of lexemes.now) }
{
    match lexemes {
        [] => false,
        [.., last] => same_sort(last.sort, Sort::Identifier) && is_get_or_set(&last.content),
    }
}

/// Whether a label follows a token of this sort (ECMA-262 14.8, 14.9).
fn takes_label(sort: Sort) -> bool
    ensures { result ≡ spec.takes_label sort }
{
    match sort {
        Sort::Break | Sort::Continue => true,
        _ => false,
    }
}

/// Whether a token of this sort closes an array or a block, an object or a body.
fn may_end_literal(sort: Sort) -> bool
    ensures { result ≡ spec.may_end_literal sort }
{
    match sort {
        Sort::RightBracket | Sort::RightBrace => true,
        _ => false,
    }
}

/// Whether a name that is bound could stand behind these tokens (14.3.3).
#[tactic(auto, unfolding(crate::specs::Places::wants_binding))]
fn wants_binding(
    alloc: Global,
    reading: Reading,
    before: &mut Vec<Lexeme>,
    at: Spot,
) -> Result<bool, AllocError>
    ensures value { IfOk result (λ b. b ≡ spec.wants_binding reading before.old.items at) }
    ensures kept { IfOk result (λ _. before.new.items ≡ before.old.items) }
{
    if takes_label(last_sort(before)) {
        return Ok(false);
    }
    if !could_stand(alloc, reading, before, at, Sort::Identifier)? {
        return Ok(false);
    }
    Ok(!could_stand(alloc, reading, before, at, Sort::Reserved)?)
}

/// Whether a `[` there is the key of a getter or a setter (15.4).
#[tactic(auto, unfolding(crate::specs::Places::is_computed_accessor))]
fn is_computed_accessor(
    alloc: Global,
    reading: Reading,
    before: &mut Vec<Lexeme>,
    at: Spot,
) -> Result<bool, AllocError>
    ensures { IfOk result (λ b. b ≡ spec.is_computed_accessor reading before.old.items at) }
{
    if !ends_with_accessor_word(before) {
        return Ok(false);
    }
    could_stand(alloc, reading, before, at, Sort::Colon)
}

/// Whether a `=` there stands behind the name of a parameter (15.1).
#[tactic(auto, unfolding(crate::specs::Places::is_default_parameter))]
fn is_default_parameter(
    alloc: Global,
    reading: Reading,
    before: &mut Vec<Lexeme>,
    at: Spot,
) -> Result<bool, AllocError>
    ensures value { IfOk result (λ b. b ≡ spec.is_default_parameter reading before.old.items at) }
    ensures kept { IfOk result (λ _. before.new.items ≡ before.old.items) }
{
    if !same_sort(last_sort(before), Sort::Identifier) {
        return Ok(false);
    }
    if !could_stand(alloc, reading, before, at, Sort::RightParenthesis)? {
        return Ok(false);
    }
    Ok(!could_stand(alloc, reading, before, at, Sort::Dot)?)
}

/// Whether an array or an object that begins at `from` behind these tokens is a target of the `=` at `at`: no part of an expression
/// could begin there, and behind a name in its place the `=` could stand (13.15.5).
#[tactic(auto, unfolding(crate::specs::Places::is_target_place))]
fn is_target_place(
    alloc: Global,
    reading: Reading,
    mut before: Vec<Lexeme>,
    from: Spot,
    at: Spot,
) -> Result<bool, AllocError>
    ensures { IfOk result (λ b. b ≡ spec.is_target_place reading before.items from at) }
{
    if could_stand(alloc, reading, &mut before, from, Sort::Dot)? {
        return Ok(false);
    }
    before.push(stand_in(Sort::Identifier, from))?;
    could_stand(alloc, reading, &mut before, at, Sort::Assign)
}

/// The pattern whose last token is the last of these, as the target of the `=` at `at`, with its start.
#[tactic(auto, unfolding(crate::specs::Places::target_pattern))]
fn target_pattern(
    alloc: Global,
    reading: Reading,
    mut before: Vec<Lexeme>,
    at: Spot,
) -> Result<Option<(Marker, usize)>, AllocError>
    ensures { IfOk result (λ m. m ≡ spec.target_pattern reading before.items at) }
{
    if !may_end_literal(last_sort(&before)) {
        return Ok(None);
    }
    let Some(number) = opener(&before) else {
        return Ok(None);
    };
    if !could_stand(alloc, reading, &mut before, at, Sort::Dot)? {
        return Ok(None);
    }
    let from = spot_of(&before[number]);
    before.truncate(number);
    if is_target_place(alloc, reading, before, from, at)? {
        Ok(Some((Marker::Pattern, from.from)))
    } else {
        Ok(None)
    }
}

/// The marker of a `{` there.
fn at_brace(
    alloc: Global,
    reading: Reading,
    mut before: Vec<Lexeme>,
    at: Spot,
) -> Result<Option<(Marker, usize)>, AllocError>
    ensures { IfOk result (λ m. m ≡ spec.at_brace reading before.items at) }
{
    if wants_binding(alloc, reading, &mut before, at)? {
        Ok(Some((Marker::Pattern, at.from)))
    } else {
        Ok(None)
    }
}

/// The marker of a `[` there.
fn at_bracket(
    alloc: Global,
    reading: Reading,
    mut before: Vec<Lexeme>,
    at: Spot,
) -> Result<Option<(Marker, usize)>, AllocError>
    ensures { IfOk result (λ m. m ≡ spec.at_bracket reading before.items at) }
{
    if wants_binding(alloc, reading, &mut before, at)? {
        return Ok(Some((Marker::Pattern, at.from)));
    }
    if is_computed_accessor(alloc, reading, &mut before, at)? {
        Ok(Some((Marker::ComputedAccessor, at.from)))
    } else {
        Ok(None)
    }
}

/// The marker of a `=` there.
fn at_equals(
    alloc: Global,
    reading: Reading,
    mut before: Vec<Lexeme>,
    at: Spot,
) -> Result<Option<(Marker, usize)>, AllocError>
    ensures { IfOk result (λ m. m ≡ spec.at_equals reading before.items at) }
{
    if is_default_parameter(alloc, reading, &mut before, at)? {
        return Ok(Some((Marker::DefaultParameter, at.from)));
    }
    target_pattern(alloc, reading, before, at)
}

/// The marker of a token of this sort with which nothing goes on behind these.
fn marker_by(
    alloc: Global,
    reading: Reading,
    before: Vec<Lexeme>,
    at: Spot,
    sort: Sort,
) -> Result<Option<(Marker, usize)>, AllocError>
    ensures { IfOk result (λ m. m ≡ spec.marker_by reading before.items at sort) }
{
    match sort {
        Sort::LeftBrace => at_brace(alloc, reading, before, at),
        Sort::LeftBracket => at_bracket(alloc, reading, before, at),
        Sort::Assign => at_equals(alloc, reading, before, at),
        _ => Ok(None),
    }
}

/// How many tokens stand before the one at a place, and how many there are where none stands there.
fn tokens_before(at: usize, lexemes: &[Lexeme]) -> usize
    ensures value { result ≡ spec.tokens_before at lexemes.now }
    ensures within { result ≤ length lexemes.now }
{
    for (i, lexeme) in lexemes.iter().enumerate() {
        if lexeme.from == at {
            return i;
        }
    }
    lexemes.len()
}

/// The marker of the first of these tokens that begins at a place, with which nothing goes on.
fn marker_at(
    alloc: Global,
    reading: Reading,
    mut lexemes: Vec<Lexeme>,
    at: usize,
) -> Result<Option<(Marker, usize)>, AllocError>
    ensures { IfOk result (λ m. m ≡ spec.place_marker reading lexemes.items at) }
{
    let number = tokens_before(at, &lexemes);
    if number == lexemes.len() {
        return Ok(None);
    }
    let sort = lexemes[number].sort;
    let spot = spot_of(&lexemes[number]);
    lexemes.truncate(number);
    marker_by(alloc, reading, lexemes, spot, sort)
}

/// The marker of the token that begins at a place of the text, in code units, where reading the text that has these tokens as a script
/// or a module goes on with no token there: a pattern, a parameter with a default value, or an accessor with a computed name; none where
/// no token begins there. It comes with its place, which is that of the token, or the start of a pattern in front of it. `AllocError`
/// comes where memory runs out.
pub fn place_marker(
    alloc: Global,
    goal: Goal,
    text: &Str,
    tokens: &[Token],
    at: usize,
) -> Result<Option<(Marker, usize)>, AllocError>
    requires { All (IsTokenOf text.now) tokens.now }
    ensures { IfOk result (λ m. spec.HasPlaceMarker goal text.now tokens.now at m) }
{
    let lexemes = lexemes(alloc, text, tokens)?;
    let reading = Reading {
        goal,
        size: text.units().len(),
    };
    marker_at(alloc, reading, lexemes, at)
}
