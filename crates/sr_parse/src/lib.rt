//! Whole scripts and modules, and what they are made of (ECMA-262 13 to 16).
#![tactic(auto)]

/// The parser of what is open while it is read.
mod grammar;
/// The laws of the definitions.
pub mod laws;
/// The trees of a text.
mod reading;

pub use reading::{
    module_items, parse_expr, parse_item, parse_module, parse_module_items, parse_script,
    parse_statements, script,
};
pub use sr_syntax::refusal::Refusal;
