ghost use Rattle.std.specs.Prelude.{◌≡◌, All, IfSome};
ghost use Rattle.sr_lex.specs.Tokens.{IsTokenOf};
ghost use Rattle.sr_marker.specs.Tokens as spec;

use sr_lex::{Token, token_text};
use sr_syntax::sorts::Sort;
use sr_syntax::tokens::is_word;
use sr_syntax::words::sort_of;
use sr_text::{Marker, Str, spells};

/// The marker of a name, wherever it stands.
#[tactic(auto, unfolding(crate::specs::Tokens::name_marker))]
fn name_marker(units: &[u16]) -> Option<Marker>
    ensures { result ≡ spec.name_marker units.now }
{
    if spells(units, b"class") {
        Some(Marker::Class)
    } else if spells(units, b"async") {
        Some(Marker::Async)
    } else if spells(units, b"await") {
        Some(Marker::Await)
    } else if spells(units, b"yield") {
        Some(Marker::Yield)
    } else if spells(units, b"super") {
        Some(Marker::Super)
    } else if spells(units, b"with") {
        Some(Marker::With)
    } else if spells(units, b"arguments") {
        Some(Marker::Arguments)
    } else if spells(units, b"__proto__") {
        Some(Marker::Proto)
    } else {
        None
    }
}

/// The marker of `import` before a token of this sort (ECMA-262 13.3.10, 13.3.12).
fn import_marker(after: Sort) -> Option<Marker>
    ensures { result ≡ spec.import_marker after }
{
    match after {
        Sort::LeftParenthesis | Sort::Dot => Some(Marker::ImportCall),
        _ => None,
    }
}

/// The marker of `new` before a token of this sort (13.3.12).
fn new_marker(after: Sort) -> Option<Marker>
    ensures { result ≡ spec.new_marker after }
{
    match after {
        Sort::Dot => Some(Marker::NewTarget),
        _ => None,
    }
}

/// The marker of `function` before a token of this sort (15.5).
fn function_marker(after: Sort) -> Option<Marker>
    ensures { result ≡ spec.function_marker after }
{
    match after {
        Sort::Multiply => Some(Marker::Generator),
        _ => None,
    }
}

/// The marker of `*` behind a token of this sort (15.5).
fn star_marker(before: Sort) -> Option<Marker>
    ensures { result ≡ spec.star_marker before }
{
    match before {
        Sort::LeftBrace | Sort::Comma => Some(Marker::Generator),
        _ => None,
    }
}

/// Whether `/` begins no operator behind a token of this sort (12.9.5).
fn wants_operand(before: Sort) -> bool
    ensures { result ≡ spec.wants_operand before }
{
    match before {
        Sort::RightParenthesis => false,
        Sort::RightBracket => false,
        Sort::RightBrace => false,
        Sort::Increment => false,
        Sort::Decrement => false,
        Sort::Number => false,
        Sort::Text => false,
        Sort::TemplateWhole => false,
        Sort::TemplateHead => false,
        Sort::TemplateMiddle => false,
        Sort::TemplateTail => false,
        Sort::Return => true,
        Sort::Typeof => true,
        Sort::Case => true,
        Sort::In => true,
        Sort::Delete => true,
        Sort::Void => true,
        Sort::Throw => true,
        Sort::Else => true,
        Sort::Do => true,
        _ => !is_word(before),
    }
}

/// The marker of the beginning of a template behind a token of this sort (13.3.11).
fn tagged_marker(before: Sort) -> Option<Marker>
    ensures { result ≡ spec.tagged_marker before }
{
    match before {
        Sort::Identifier => Some(Marker::TaggedTemplate),
        Sort::RightParenthesis => Some(Marker::TaggedTemplate),
        Sort::RightBracket => Some(Marker::TaggedTemplate),
        Sort::TemplateWhole => Some(Marker::TaggedTemplate),
        Sort::TemplateTail => Some(Marker::TaggedTemplate),
        _ => None,
    }
}

/// What a token is to the grammar, and the end where there is none.
fn sort_in(text: &Str, token: Option<Token>) -> Sort
    requires { IfSome token (IsTokenOf text.now) }
    ensures { result ≡ spec.sort_in text.now token }
{
    match token {
        None => Sort::End,
        Some(token) => sort_of(token.kind, token_text(text, &token)),
    }
}

/// Whether the token is the name `of`.
fn is_of(text: &Str, token: Option<Token>) -> bool
    requires { IfSome token (IsTokenOf text.now) }
    ensures { result ≡ spec.is_of text.now token }
{
    match token {
        None => false,
        Some(token) => spells(token_text(text, &token), b"of"),
    }
}

/// The marker of `/` or `/=` behind a token (12.9.5).
#[tactic(auto, unfolding(crate::specs::Tokens::slash_marker))]
fn slash_marker(text: &Str, before: Option<Token>) -> Option<Marker>
    requires { IfSome before (IsTokenOf text.now) }
    ensures { result ≡ spec.slash_marker text.now before }
{
    if wants_operand(sort_in(text, before)) || is_of(text, before) {
        Some(Marker::RegularExpression)
    } else {
        None
    }
}

/// The marker of a token between two others.
#[tactic(auto, unfolding(crate::specs::Tokens::marker_of))]
fn marker_of(
    text: &Str,
    before: Option<Token>,
    token: Token,
    after: Option<Token>,
) -> Option<Marker>
    requires before { IfSome before (IsTokenOf text.now) }
    requires token { IsTokenOf text.now token }
    requires after { IfSome after (IsTokenOf text.now) }
    ensures { result ≡ spec.marker_of text.now before token after }
{
    match sort_of(token.kind, token_text(text, &token)) {
        Sort::Identifier | Sort::Reserved => name_marker(token_text(text, &token)),
        Sort::Import => import_marker(sort_in(text, after)),
        Sort::New => new_marker(sort_in(text, after)),
        Sort::Function => function_marker(sort_in(text, after)),
        Sort::Multiply => star_marker(sort_in(text, before)),
        Sort::Divide | Sort::AssignDivide => slash_marker(text, before),
        Sort::TemplateWhole | Sort::TemplateHead => tagged_marker(sort_in(text, before)),
        _ => None,
    }
}

/// The first of some tokens.
fn first(tokens: &[Token]) -> Option<Token>
    ensures { result ≡ spec.first tokens.now }
{
    match tokens {
        [] => None,
        [token, ..] => Some(*token),
    }
}

/// The first marker of the tokens of a text, with its place in code units: a name that is left out wherever it stands, `import` before
/// `(` or `.`, `new` before `.`, a generator, a regular expression or a tagged template.
pub fn token_marker(text: &Str, tokens: &[Token]) -> Option<(Marker, usize)>
    requires { All (IsTokenOf text.now) tokens.now }
    ensures { result ≡ spec.token_marker text.now tokens.now }
{
    let mut before = None;
    for (i, token) in tokens.iter().enumerate() {
        if let Some(marker) = marker_of(text, before, *token, first(&tokens[i + 1..])) {
            return Some((marker, token.from));
        }
        before = Some(*token);
    }
    None
}
