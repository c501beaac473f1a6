use anyhow::{Context, Result};
use std::alloc::Global;
use std::fs;
use std::rt::Files;

/// The text of the table `NAME.txt`, of the folder that the program runs in.
pub fn text_of_table<R: Files + AllocGlobal>(rt: &R, name: &str) -> Result<String> {
    let path = format!(in rt.alloc(); "{name}.txt")?;
    fs::read_to_string(rt, path.as_str()).context(format_args!("reading {name}.txt"))
}

/// The case and the wanted answer of a line, or none where it is no row.
pub fn row_of(line: &str) -> Option<(&str, &str)> {
    if line.starts_with('#') {
        return None;
    }
    let (case, wanted) = line.rsplit_once("  ")?;
    Some((case.trim_end(), wanted))
}

/// The first cell of a case of several cells, and the others.
pub fn split_cell(case: &str) -> Result<(&str, &str)> {
    let (cell, others) = case
        .split_once("  ")
        .context(format_args!("one more cell behind {case}"))?;
    Ok((cell, others.trim_start()))
}

/// What a driver program makes of the cases of its tables.
pub trait Answers {
    /// The answer to a case of the table of this name.
    fn answer(&self, alloc: Global, table: &str, case: &str) -> Result<String>;
}

/// Goes through the rows of the table `NAME.txt`, of the folder that the program runs in: it prints each whose answer is not
/// the one that is wanted, and then how many there are and how many of them differ.
pub fn run_table<R, A>(rt: &R, answers: &A, name: &str) -> Result<()>
where
    R: Files + Print + AllocGlobal,
    A: Answers,
{
    let text = text_of_table(rt, name)?;
    let mut rows = 0u64;
    let mut differing = 0u64;
    for (case, wanted) in text.lines().filter_map(row_of) {
        let came = answers
            .answer(rt.alloc(), name, case)
            .context(format_args!("{name}: {case}"))?;
        rows = rows.saturating_add(1);
        if came.as_str() != wanted {
            differing = differing.saturating_add(1);
            println!(rt; "{name}: {case}  {came}, not {wanted}")?;
        }
    }
    println!(rt; "{name}: {rows} rows, {differing} differ")?;
    Ok(())
}
