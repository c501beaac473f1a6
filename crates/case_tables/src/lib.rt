//! Tables of cases, and how a driver program goes through them.
//!
//! A table is a file of lines. A line that begins with `#` is a remark, and an empty one says nothing. Each other line is a
//! row: the cells of a case and then the answer that is wanted, with two spaces or more between one and the next.
#![tactic(auto)]

/// What a cell says.
mod cells;
/// Texts as cells write them.
mod quoting;
/// The tables themselves.
mod tables;

pub use cells::{bytes_of, integer_of, units_of};
pub use quoting::{quoted_bytes, quoted_units};
pub use tables::{Answers, row_of, run_table, split_cell, text_of_table};
