use sqlite_items::Items;
use sr_num::Num;
use sr_text::Str;

/// A name that is bound, and its place in code units.
#[derive(Drop)]
pub struct Binding {
    /// The name.
    pub name: Str,
    /// The place of its first code unit.
    pub from: usize,
}

/// The parameters of a function (ECMA-262 15.1).
#[derive(Drop)]
pub struct Parameters {
    /// The names, in order.
    pub names: Items<Binding>,
    /// The name after `...`, where there is one.
    pub rest: Option<Binding>,
}

/// The name of a property in an object literal, where it is no expression (13.2.5).
#[derive(Drop)]
pub enum PropertyName {
    /// A name or a string literal.
    Text(Str),
    /// A number literal.
    Number(Num),
}

/// `let` or `const` (14.3.1).
#[derive(Clone, Copy, Debug, PartialEq, Eq)]
pub enum LexicalKind {
    /// `let`
    Let,
    /// `const`
    Const,
}

/// By what the head of a `for` over an object or an iterator declares its name (14.7.5).
#[derive(Clone, Copy, Debug, PartialEq, Eq)]
pub enum HeadKind {
    /// `var`
    Var,
    /// `let`
    Let,
    /// `const`
    Const,
}

/// The name that the head of a `for` over an object or an iterator declares (14.7.5).
#[derive(Drop)]
pub struct HeadBinding {
    /// By what it is declared.
    pub kind: HeadKind,
    /// The name.
    pub binding: Binding,
}
