use crate::binding::Binding;
use sqlite_items::Items;

/// A name that a module imports, and the name that it has here (ECMA-262 16.2.2).
#[derive(Drop)]
pub struct ImportName {
    /// The name that the other module exports, a name or a string literal.
    pub imported: Binding,
    /// The name here.
    pub local: Binding,
}

/// What a module imports beside the default export (16.2.2).
#[derive(Drop)]
pub enum Imports {
    /// Nothing.
    Nothing,
    /// The namespace, by this name.
    Namespace(Binding),
    /// Names of exports.
    Names(Items<ImportName>),
}

/// A name that a module exports (16.2.3).
#[derive(Drop)]
pub struct ExportName {
    /// The name here; where another module is named, a name that this exports.
    pub local: Binding,
    /// The name that is exported, a name or a string literal.
    pub exported: Binding,
}
