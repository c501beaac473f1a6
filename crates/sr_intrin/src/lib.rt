//! The objects that a realm has as it is made (ECMA-262 9.3.2 CreateIntrinsics, 9.3.4 SetDefaultGlobalBindings), from one table.
#![tactic(auto)]

/// How the objects of the table are made.
mod making;
/// The names of built-in functions, errors and objects.
mod names;
/// The table.
mod table;

pub use making::build;
pub use names::{BuiltIn, ErrorName, Intrinsic};
