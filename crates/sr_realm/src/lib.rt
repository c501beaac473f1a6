//! What the rows of the language do with one realm: names (ECMA-262 9.1), the acceptance of a source (16.1.7), and errors (20.5).
#![tactic(auto)]

/// Sources.
mod accepting;
/// Bindings.
mod bindings;
/// Errors, and their messages.
mod errors;
/// Names: where they are bound, and what they come to.
mod names;
/// What is told of objects.
mod reports;
/// Environments of blocks, of turns of loops and of `catch`.
mod scopes;
/// Writes of names.
mod writes;

pub use accepting::{Acceptance, Accepted, Declarations, accept};
pub use errors::{
    clash_message, constant_message, make_error, syntax_message, type_message, undefined_message,
    uninitialized_message,
};
pub use names::{Base, Known, Write, base_of_name, value_at, value_of_name};
pub use reports::object_report;
pub use scopes::{initialize, make_catch_scope, make_scope, make_turn};
pub use writes::write_name;
