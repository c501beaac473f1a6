ghost use Rattle.std.specs.Prelude.{◌≡◌, length, map};
ghost use Rattle.sr_intrin.specs.Numbers.{intrinsic_count};
ghost use Rattle.sr_intrin.specs.Rows.{row_of, entry_of};
ghost use Rattle.sr_intrin.specs.Table as table;

use crate::{BuiltIn, ErrorName, Intrinsic};

/// An object of the table: whether it is a function, with its name, and its prototype.
#[derive(Clone, Copy, Drop)]
pub(crate) struct Row {
    pub function: Option<(BuiltIn, &'static str)>,
    pub prototype: Option<Intrinsic>,
}

/// The value of a property of the table.
#[derive(Clone, Copy, Drop)]
pub(crate) enum Content {
    Undefined,
    Nan,
    Number(u8),
    Text(&'static str),
    Object(Intrinsic),
}

/// Whether a property of the table may be written, and configured. None is enumerable.
#[derive(Clone, Copy, Drop)]
pub(crate) enum Sort {
    /// Most properties (ECMA-262 17): both.
    Hidden,
    /// The length and the name of a function: configured alone.
    Described,
    /// Neither.
    Fixed,
}

/// A property of the table.
#[derive(Clone, Copy, Drop)]
pub(crate) struct Entry {
    pub object: Intrinsic,
    pub key: &'static str,
    pub value: Content,
    pub sort: Sort,
}

static ROWS: [Row; 17] = [
    Row {
        function: None,
        prototype: Some(Intrinsic::ObjectPrototype),
    },
    Row {
        function: None,
        prototype: None,
    },
    Row {
        function: Some((BuiltIn::FunctionPrototype, "")),
        prototype: Some(Intrinsic::ObjectPrototype),
    },
    Row {
        function: Some((BuiltIn::Error(ErrorName::Error), "Error")),
        prototype: Some(Intrinsic::FunctionPrototype),
    },
    Row {
        function: None,
        prototype: Some(Intrinsic::ObjectPrototype),
    },
    Row {
        function: Some((BuiltIn::Error(ErrorName::Type), "TypeError")),
        prototype: Some(Intrinsic::Error(ErrorName::Error)),
    },
    Row {
        function: None,
        prototype: Some(Intrinsic::ErrorPrototype(ErrorName::Error)),
    },
    Row {
        function: Some((BuiltIn::Error(ErrorName::Range), "RangeError")),
        prototype: Some(Intrinsic::Error(ErrorName::Error)),
    },
    Row {
        function: None,
        prototype: Some(Intrinsic::ErrorPrototype(ErrorName::Error)),
    },
    Row {
        function: Some((BuiltIn::Error(ErrorName::Syntax), "SyntaxError")),
        prototype: Some(Intrinsic::Error(ErrorName::Error)),
    },
    Row {
        function: None,
        prototype: Some(Intrinsic::ErrorPrototype(ErrorName::Error)),
    },
    Row {
        function: Some((BuiltIn::Error(ErrorName::Reference), "ReferenceError")),
        prototype: Some(Intrinsic::Error(ErrorName::Error)),
    },
    Row {
        function: None,
        prototype: Some(Intrinsic::ErrorPrototype(ErrorName::Error)),
    },
    Row {
        function: None,
        prototype: Some(Intrinsic::ObjectPrototype),
    },
    Row {
        function: None,
        prototype: Some(Intrinsic::ObjectPrototype),
    },
    Row {
        function: None,
        prototype: Some(Intrinsic::ObjectPrototype),
    },
    Row {
        function: Some((BuiltIn::Print, "print")),
        prototype: Some(Intrinsic::FunctionPrototype),
    },
];

static ENTRIES: [Entry; 43] = [
    Entry {
        object: Intrinsic::FunctionPrototype,
        key: "length",
        value: Content::Number(0),
        sort: Sort::Described,
    },
    Entry {
        object: Intrinsic::FunctionPrototype,
        key: "name",
        value: Content::Text(""),
        sort: Sort::Described,
    },
    Entry {
        object: Intrinsic::Error(ErrorName::Error),
        key: "length",
        value: Content::Number(1),
        sort: Sort::Described,
    },
    Entry {
        object: Intrinsic::Error(ErrorName::Error),
        key: "name",
        value: Content::Text("Error"),
        sort: Sort::Described,
    },
    Entry {
        object: Intrinsic::Error(ErrorName::Error),
        key: "prototype",
        value: Content::Object(Intrinsic::ErrorPrototype(ErrorName::Error)),
        sort: Sort::Fixed,
    },
    Entry {
        object: Intrinsic::ErrorPrototype(ErrorName::Error),
        key: "constructor",
        value: Content::Object(Intrinsic::Error(ErrorName::Error)),
        sort: Sort::Hidden,
    },
    Entry {
        object: Intrinsic::ErrorPrototype(ErrorName::Error),
        key: "name",
        value: Content::Text("Error"),
        sort: Sort::Hidden,
    },
    Entry {
        object: Intrinsic::ErrorPrototype(ErrorName::Error),
        key: "message",
        value: Content::Text(""),
        sort: Sort::Hidden,
    },
    Entry {
        object: Intrinsic::Error(ErrorName::Type),
        key: "length",
        value: Content::Number(1),
        sort: Sort::Described,
    },
    Entry {
        object: Intrinsic::Error(ErrorName::Type),
        key: "name",
        value: Content::Text("TypeError"),
        sort: Sort::Described,
    },
    Entry {
        object: Intrinsic::Error(ErrorName::Type),
        key: "prototype",
        value: Content::Object(Intrinsic::ErrorPrototype(ErrorName::Type)),
        sort: Sort::Fixed,
    },
    Entry {
        object: Intrinsic::ErrorPrototype(ErrorName::Type),
        key: "constructor",
        value: Content::Object(Intrinsic::Error(ErrorName::Type)),
        sort: Sort::Hidden,
    },
    Entry {
        object: Intrinsic::ErrorPrototype(ErrorName::Type),
        key: "name",
        value: Content::Text("TypeError"),
        sort: Sort::Hidden,
    },
    Entry {
        object: Intrinsic::ErrorPrototype(ErrorName::Type),
        key: "message",
        value: Content::Text(""),
        sort: Sort::Hidden,
    },
    Entry {
        object: Intrinsic::Error(ErrorName::Range),
        key: "length",
        value: Content::Number(1),
        sort: Sort::Described,
    },
    Entry {
        object: Intrinsic::Error(ErrorName::Range),
        key: "name",
        value: Content::Text("RangeError"),
        sort: Sort::Described,
    },
    Entry {
        object: Intrinsic::Error(ErrorName::Range),
        key: "prototype",
        value: Content::Object(Intrinsic::ErrorPrototype(ErrorName::Range)),
        sort: Sort::Fixed,
    },
    Entry {
        object: Intrinsic::ErrorPrototype(ErrorName::Range),
        key: "constructor",
        value: Content::Object(Intrinsic::Error(ErrorName::Range)),
        sort: Sort::Hidden,
    },
    Entry {
        object: Intrinsic::ErrorPrototype(ErrorName::Range),
        key: "name",
        value: Content::Text("RangeError"),
        sort: Sort::Hidden,
    },
    Entry {
        object: Intrinsic::ErrorPrototype(ErrorName::Range),
        key: "message",
        value: Content::Text(""),
        sort: Sort::Hidden,
    },
    Entry {
        object: Intrinsic::Error(ErrorName::Syntax),
        key: "length",
        value: Content::Number(1),
        sort: Sort::Described,
    },
    Entry {
        object: Intrinsic::Error(ErrorName::Syntax),
        key: "name",
        value: Content::Text("SyntaxError"),
        sort: Sort::Described,
    },
    Entry {
        object: Intrinsic::Error(ErrorName::Syntax),
        key: "prototype",
        value: Content::Object(Intrinsic::ErrorPrototype(ErrorName::Syntax)),
        sort: Sort::Fixed,
    },
    Entry {
        object: Intrinsic::ErrorPrototype(ErrorName::Syntax),
        key: "constructor",
        value: Content::Object(Intrinsic::Error(ErrorName::Syntax)),
        sort: Sort::Hidden,
    },
    Entry {
        object: Intrinsic::ErrorPrototype(ErrorName::Syntax),
        key: "name",
        value: Content::Text("SyntaxError"),
        sort: Sort::Hidden,
    },
    Entry {
        object: Intrinsic::ErrorPrototype(ErrorName::Syntax),
        key: "message",
        value: Content::Text(""),
        sort: Sort::Hidden,
    },
    Entry {
        object: Intrinsic::Error(ErrorName::Reference),
        key: "length",
        value: Content::Number(1),
        sort: Sort::Described,
    },
    Entry {
        object: Intrinsic::Error(ErrorName::Reference),
        key: "name",
        value: Content::Text("ReferenceError"),
        sort: Sort::Described,
    },
    Entry {
        object: Intrinsic::Error(ErrorName::Reference),
        key: "prototype",
        value: Content::Object(Intrinsic::ErrorPrototype(ErrorName::Reference)),
        sort: Sort::Fixed,
    },
    Entry {
        object: Intrinsic::ErrorPrototype(ErrorName::Reference),
        key: "constructor",
        value: Content::Object(Intrinsic::Error(ErrorName::Reference)),
        sort: Sort::Hidden,
    },
    Entry {
        object: Intrinsic::ErrorPrototype(ErrorName::Reference),
        key: "name",
        value: Content::Text("ReferenceError"),
        sort: Sort::Hidden,
    },
    Entry {
        object: Intrinsic::ErrorPrototype(ErrorName::Reference),
        key: "message",
        value: Content::Text(""),
        sort: Sort::Hidden,
    },
    Entry {
        object: Intrinsic::Print,
        key: "length",
        value: Content::Number(0),
        sort: Sort::Described,
    },
    Entry {
        object: Intrinsic::Print,
        key: "name",
        value: Content::Text("print"),
        sort: Sort::Described,
    },
    Entry {
        object: Intrinsic::Global,
        key: "globalThis",
        value: Content::Object(Intrinsic::Global),
        sort: Sort::Hidden,
    },
    Entry {
        object: Intrinsic::Global,
        key: "NaN",
        value: Content::Nan,
        sort: Sort::Fixed,
    },
    Entry {
        object: Intrinsic::Global,
        key: "undefined",
        value: Content::Undefined,
        sort: Sort::Fixed,
    },
    Entry {
        object: Intrinsic::Global,
        key: "print",
        value: Content::Object(Intrinsic::Print),
        sort: Sort::Hidden,
    },
    Entry {
        object: Intrinsic::Global,
        key: "Error",
        value: Content::Object(Intrinsic::Error(ErrorName::Error)),
        sort: Sort::Hidden,
    },
    Entry {
        object: Intrinsic::Global,
        key: "TypeError",
        value: Content::Object(Intrinsic::Error(ErrorName::Type)),
        sort: Sort::Hidden,
    },
    Entry {
        object: Intrinsic::Global,
        key: "RangeError",
        value: Content::Object(Intrinsic::Error(ErrorName::Range)),
        sort: Sort::Hidden,
    },
    Entry {
        object: Intrinsic::Global,
        key: "SyntaxError",
        value: Content::Object(Intrinsic::Error(ErrorName::Syntax)),
        sort: Sort::Hidden,
    },
    Entry {
        object: Intrinsic::Global,
        key: "ReferenceError",
        value: Content::Object(Intrinsic::Error(ErrorName::Reference)),
        sort: Sort::Hidden,
    },
];

/// The objects, in order.
#[tactic(auto, unfolding(crate::specs::Table::rows))]
pub(crate) fn rows() -> &'static [Row]
    ensures same { map row_of result.now ≡ table.rows }
    ensures count { length result.now ≡ intrinsic_count }
{
    &ROWS
}

/// Their properties, of each object in order.
#[tactic(auto, unfolding(crate::specs::Table::entries))]
pub(crate) fn entries() -> &'static [Entry]
    ensures { map entry_of result.now ≡ table.entries }
{
    &ENTRIES
}
