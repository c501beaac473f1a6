//! Cases of strings, of paths of realms and references, of numbers, and of values with their equalities and operators: each table of
//! `data/` holds some, and the answers that are wanted.
#![tactic(auto)]

/// The equalities of values, and clones.
mod equalities;
/// The operations of numbers, and the numbers of texts.
mod numbers;
/// The operators and conversions.
mod operators;
/// Paths of realms, and references.
mod paths;
/// Strings.
mod strings;
/// Values as cells write them.
mod values;

use anyhow::{Result, bail};
use case_tables::{Answers, run_table, text_of_table};
use std::alloc::Global;

/// The names of the tables.
const TABLES: [&str; 29] = [
    "decodings",
    "encodings",
    "long_bytes",
    "long_strings",
    "long_joins",
    "numerals",
    "index_keys",
    "joins",
    "slices",
    "places",
    "orders",
    "sets",
    "paths",
    "path_texts",
    "descents",
    "path_pairs",
    "references",
    "arithmetic",
    "powers",
    "bits",
    "one_operand",
    "texts",
    "equalities",
    "clones",
    "keys",
    "conversions",
    "binary",
    "unary",
    "updates",
];

/// The answers to the cases.
#[derive(Drop)]
struct ValueAnswers {
    /// The table of values of which no two are the same.
    distinct: String,
}

impl Answers for ValueAnswers {
    fn answer(&self, alloc: Global, table: &str, case: &str) -> Result<String> {
        match table {
            "decodings" => strings::decoded(alloc, case),
            "encodings" => strings::encoded(alloc, case),
            "long_bytes" => strings::decoded_length(alloc, case),
            "long_strings" => strings::length(alloc, case),
            "long_joins" => strings::joined_length(alloc, case),
            "numerals" => strings::numeral(alloc, case),
            "index_keys" => strings::index_key(alloc, case),
            "joins" => strings::joined(alloc, case),
            "slices" => strings::sliced(alloc, case),
            "places" => strings::places(alloc, case),
            "orders" => strings::order(alloc, case),
            "sets" => strings::kept(alloc, case),
            "paths" => paths::numbers(alloc, case),
            "path_texts" => paths::shown(alloc, case),
            "descents" => paths::descended(alloc, case),
            "path_pairs" => paths::compared(alloc, case),
            "references" => paths::references(alloc, case),
            "arithmetic" | "powers" | "bits" => numbers::operated(alloc, case),
            "one_operand" => numbers::changed(alloc, case),
            "texts" => numbers::read(alloc, case),
            "equalities" => equalities::equals(alloc, self.distinct.as_str(), case),
            "clones" => equalities::cloned(alloc, case),
            "keys" => equalities::cloned_key(alloc, case),
            "conversions" => operators::converted(alloc, case),
            "binary" => operators::between(alloc, case),
            "unary" => operators::before(alloc, case),
            "updates" => operators::updated(alloc, case),
            _ => bail!("no such table: {table}"),
        }
    }
}

fn main(rt: HostRuntime) -> Result<()> {
    let answers = ValueAnswers {
        distinct: text_of_table(&rt, "equalities")?,
    };
    for table in TABLES {
        run_table(&rt, &answers, table)?;
    }
    Ok(())
}
