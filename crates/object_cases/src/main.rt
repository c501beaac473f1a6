//! Cases of objects and environments: each table of `data/` holds some, and the answers that are wanted.
//!
//! With the words `OPERATION SIZE TURNS` the program carries an operation on an object of so many properties out so many times,
//! for a measure, and goes through no table.
#![tactic(auto)]

/// Values, keys and descriptors as cells write them.
mod cells;
/// Environments, the global one, and sources.
mod environments;
/// Operations that are carried out many times over.
mod measures;
/// The internal methods.
mod methods;
/// Changes of prototypes.
mod prototypes;

use anyhow::{Context, Result, bail};
use case_tables::{Answers, run_table};
use std::alloc::Global;
use std::env;

/// The names of the tables.
const TABLES: [&str; 6] = [
    "define",
    "delete",
    "keys",
    "prototypes",
    "environments",
    "names",
];

/// The answers to the cases.
#[derive(Drop)]
struct ObjectAnswers;

impl Answers for ObjectAnswers {
    fn answer(&self, alloc: Global, table: &str, case: &str) -> Result<String> {
        match table {
            "define" => methods::defined(alloc, case),
            "delete" => methods::deleted(alloc, case),
            "keys" => methods::listed(alloc, case),
            "prototypes" => prototypes::changed(alloc, case),
            "environments" => environments::answered(alloc, case),
            "names" => environments::noted(alloc, case),
            _ => bail!("no such table: {table}"),
        }
    }
}

/// Carries out what the words ask, and tells how many turns there were and what was found.
fn measure(rt: &HostRuntime, operation: &str, size: &str, turns: &str) -> Result<()> {
    let size = size.parse::<usize>()?;
    let turns = turns.parse::<usize>()?;
    let rounds = turns.checked_div(size).context("no properties")?;
    let found = measures::measured(rt.alloc(), operation, size, rounds)?;
    println!(rt; "{operation}: {rounds} rounds of {size}, {found} found")?;
    Ok(())
}

/// Goes through all tables.
fn run_tables(rt: &HostRuntime) -> Result<()> {
    for table in TABLES {
        run_table(rt, &ObjectAnswers, table)?;
    }
    Ok(())
}

fn main(rt: HostRuntime) -> Result<()> {
    let words = env::args(&rt)?.skip(1).collect::<Vec<String>>(rt.alloc())?;
    match words.as_slice() {
        [] => run_tables(&rt),
        [operation, size, turns] => {
            measure(&rt, operation.as_str(), size.as_str(), turns.as_str())
        }
        _ => bail!("no words, or an operation, a size and a count of turns"),
    }
}
