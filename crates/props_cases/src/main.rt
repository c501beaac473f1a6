//! Cases of tables of properties: each table of `data/` holds some, and the answers that are wanted.
#![tactic(auto)]

/// Actions on a table of properties, and what they answer.
mod actions;
/// Keys as cells write them.
mod key;
/// What these keys are.
mod ranks;

use anyhow::{Result, bail};
use case_tables::{Answers, run_table};
use std::alloc::Global;

/// The names of the tables.
const TABLES: [&str; 2] = ["own_keys", "answers"];

/// The answers to the cases of tables of properties.
#[derive(Drop)]
struct PropertyAnswers {}

impl Answers for PropertyAnswers {
    fn answer(&self, alloc: Global, table: &str, case: &str) -> Result<String> {
        match table {
            "own_keys" => actions::listed(alloc, case),
            "answers" => actions::answered(alloc, case),
            _ => bail!("no such table: {table}"),
        }
    }
}

fn main(rt: HostRuntime) -> Result<()> {
    for table in TABLES {
        run_table(&rt, &PropertyAnswers {}, table)?;
    }
    Ok(())
}
