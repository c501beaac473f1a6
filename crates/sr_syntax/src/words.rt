ghost use Rattle.std.specs.Prelude.{◌≡◌};
ghost use Rattle.std.specs.Option.{option_copied};
ghost use Rattle.std.specs.Str.{bytes_eq};
ghost use Rattle.sr_syntax.specs.Sorts as spec;

use crate::sorts::Sort;
use sr_lex::TokenKind;
use sr_text::spells;

/// A backquote.
const BACKQUOTE: u16 = 0x60;

/// The names that are never identifiers (ECMA-262 12.7.2).
const RESERVED_NAMES: [(&[u8], Sort); 40] = [
    (b"var", Sort::Var),
    (b"if", Sort::If),
    (b"else", Sort::Else),
    (b"for", Sort::For),
    (b"while", Sort::While),
    (b"do", Sort::Do),
    (b"null", Sort::Null),
    (b"true", Sort::True),
    (b"false", Sort::False),
    (b"typeof", Sort::Typeof),
    (b"void", Sort::Void),
    (b"arguments", Sort::Reserved),
    (b"await", Sort::Reserved),
    (b"break", Sort::Break),
    (b"case", Sort::Case),
    (b"catch", Sort::Catch),
    (b"class", Sort::Reserved),
    (b"const", Sort::Const),
    (b"continue", Sort::Continue),
    (b"debugger", Sort::Debugger),
    (b"default", Sort::Default),
    (b"delete", Sort::Delete),
    (b"enum", Sort::Reserved),
    (b"export", Sort::Export),
    (b"extends", Sort::Reserved),
    (b"finally", Sort::Finally),
    (b"function", Sort::Function),
    (b"import", Sort::Import),
    (b"in", Sort::In),
    (b"instanceof", Sort::InstanceOf),
    (b"let", Sort::Let),
    (b"new", Sort::New),
    (b"return", Sort::Return),
    (b"super", Sort::Reserved),
    (b"switch", Sort::Switch),
    (b"this", Sort::This),
    (b"throw", Sort::Throw),
    (b"try", Sort::Try),
    (b"with", Sort::Reserved),
    (b"yield", Sort::Reserved),
];

/// The punctuators of expressions and statements (12.8).
const PUNCTUATORS: [(&[u8], Sort); 57] = [
    (b"(", Sort::LeftParenthesis),
    (b")", Sort::RightParenthesis),
    (b"[", Sort::LeftBracket),
    (b"]", Sort::RightBracket),
    (b".", Sort::Dot),
    (b"...", Sort::Ellipsis),
    (b"?.", Sort::QuestionDot),
    (b"=>", Sort::Arrow),
    (b"{", Sort::LeftBrace),
    (b"}", Sort::RightBrace),
    (b";", Sort::Semicolon),
    (b",", Sort::Comma),
    (b"?", Sort::Question),
    (b":", Sort::Colon),
    (b"**", Sort::Power),
    (b"*", Sort::Multiply),
    (b"/", Sort::Divide),
    (b"%", Sort::Remainder),
    (b"+", Sort::Plus),
    (b"-", Sort::Minus),
    (b"++", Sort::Increment),
    (b"--", Sort::Decrement),
    (b"!", Sort::Not),
    (b"~", Sort::BitNot),
    (b"<<", Sort::ShiftLeft),
    (b">>", Sort::ShiftRight),
    (b">>>", Sort::ShiftRightUnsigned),
    (b"<", Sort::Less),
    (b">", Sort::Greater),
    (b"<=", Sort::LessOrEqual),
    (b">=", Sort::GreaterOrEqual),
    (b"==", Sort::Equal),
    (b"!=", Sort::NotEqual),
    (b"===", Sort::StrictEqual),
    (b"!==", Sort::StrictNotEqual),
    (b"&", Sort::BitAnd),
    (b"^", Sort::BitXor),
    (b"|", Sort::BitOr),
    (b"&&", Sort::And),
    (b"||", Sort::Or),
    (b"??", Sort::Coalesce),
    (b"=", Sort::Assign),
    (b"**=", Sort::AssignPower),
    (b"*=", Sort::AssignMultiply),
    (b"/=", Sort::AssignDivide),
    (b"%=", Sort::AssignRemainder),
    (b"+=", Sort::AssignAdd),
    (b"-=", Sort::AssignSubtract),
    (b"<<=", Sort::AssignShiftLeft),
    (b">>=", Sort::AssignShiftRight),
    (b">>>=", Sort::AssignShiftRightUnsigned),
    (b"&=", Sort::AssignBitAnd),
    (b"^=", Sort::AssignBitXor),
    (b"|=", Sort::AssignBitOr),
    (b"&&=", Sort::AssignAnd),
    (b"||=", Sort::AssignOr),
    (b"??=", Sort::AssignCoalesce),
];

/// The sort that a table gives a text, or another one where it has no such text.
fn find(table: &[(&[u8], Sort)], other: Sort, units: &[u16]) -> Sort
    ensures { result ≡ spec.find (spec.table_of table.now) other units.now }
{
    for (text, sort) in table {
        if spells(units, text) {
            return *sort;
        }
    }
    other
}

#[tactic(auto, unfolding(crate::specs::Sorts::sort_of_name))]
fn sort_of_name(units: &[u16]) -> Sort
    ensures { result ≡ spec.sort_of_name units.now }
{
    find(&RESERVED_NAMES, Sort::Identifier, units)
}

#[tactic(auto, unfolding(crate::specs::Sorts::sort_of_punctuator))]
fn sort_of_punctuator(units: &[u16]) -> Sort
    ensures { result ≡ spec.sort_of_punctuator units.now }
{
    find(&PUNCTUATORS, Sort::Other, units)
}

/// Whether a unit is a backquote.
fn is_backquote(unit: Option<&u16>) -> bool
    ensures { result ≡ spec.is_backquote (option_copied unit.entry) }
{
    match unit {
        Some(unit) => *unit == BACKQUOTE,
        None => false,
    }
}

/// A piece of a template, by whether a backquote begins it, and whether one ends it (12.9.6).
fn piece_sort(is_begun: bool, is_ended: bool) -> Sort
    ensures { result ≡ spec.piece_sort is_begun is_ended }
{
    match (is_begun, is_ended) {
        (true, true) => Sort::TemplateWhole,
        (true, false) => Sort::TemplateHead,
        (false, false) => Sort::TemplateMiddle,
        (false, true) => Sort::TemplateTail,
    }
}

#[tactic(auto, unfolding(crate::specs::Sorts::sort_of_piece))]
fn sort_of_piece(units: &[u16]) -> Sort
    ensures { result ≡ spec.sort_of_piece units.now }
{
    piece_sort(is_backquote(units.first()), is_backquote(units.last()))
}

/// What a token of this kind with these units is.
pub fn sort_of(kind: TokenKind, units: &[u16]) -> Sort
    ensures { result ≡ spec.sort_of kind units.now }
{
    match kind {
        TokenKind::Name => sort_of_name(units),
        TokenKind::Number => Sort::Number,
        TokenKind::Text => Sort::Text,
        TokenKind::Template => sort_of_piece(units),
        TokenKind::Punctuator => sort_of_punctuator(units),
    }
}
