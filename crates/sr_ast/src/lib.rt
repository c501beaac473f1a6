//! The trees of a text.
#![tactic(auto)]

/// Names that are bound.
mod binding;
/// A tree above the trees: what frames and function values hold.
mod code;
/// Imports and exports.
mod module;
/// The operators.
mod operators;
/// What a text is as it is read.
mod reading;
/// Why a text is no unit.
mod refused;
/// A script.
mod script;
/// The trees.
mod tree;

pub use binding::{Binding, HeadBinding, HeadKind, LexicalKind, Parameters, PropertyName};
pub use code::Code;
pub use module::{ExportName, ImportName, Imports};
pub use operators::{AssignOp, BinaryOp, Link, LogicalOp, UnaryOp, UpdateOp};
pub use reading::{Reading, SourceCode};
pub use refused::Refused;
pub use script::ScriptCode;
pub use tree::{Case, Declaration, Element, Node, Property, Tree};
