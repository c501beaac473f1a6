//! Tables of cases, each a text and what is to be told of it: a program that tells it runs its tables, and shows what differs.
#![tactic(auto)]

/// Code units in plain text.
mod notation;
/// A table and its rows.
mod table;

pub use notation::{case_text, put_units};
pub use table::{Question, run_tables};
