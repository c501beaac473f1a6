use crate::notation::case_text;
use anyhow::{Result, bail};
use sr_text::Str;
use std::alloc::Global;
use std::fs;
use std::rt::Files;

/// What is told of a text.
pub trait Question {
    /// What is told of this one.
    fn answer(&self, alloc: Global, text: &Str) -> Result<String>;
}

/// Whether a row of a table has the answer that it is to have; where it has another, this is printed.
fn row_holds<R: AllocGlobal + Print, Q: Question>(
    rt: &R,
    name: &str,
    question: &Q,
    row: &str,
) -> Result<bool> {
    let Some((case, wanted)) = row.split_once('→') else {
        bail!("a row without an arrow: {row:?}");
    };
    let text = case_text(rt.alloc(), case.trim())?;
    let answer = question.answer(rt.alloc(), &text)?;
    let holds = answer.as_str() == wanted.trim();
    if !holds {
        println!(rt; "{name}: {row}\n    but: {answer}")?;
    }
    Ok(holds)
}

/// Reads the table from the file of this name, and prints each row whose answer differs, and how many do.
fn run_table<R: Files + AllocGlobal + Print, Q: Question>(
    rt: &R,
    name: &str,
    question: &Q,
) -> Result<()> {
    let table = fs::read_to_string(rt, name)?;
    let mut rows: u64 = 0;
    let mut differ: u64 = 0;
    for line in table.as_str().lines() {
        if line.is_empty() || line.starts_with('#') {
            continue;
        }
        rows = rows.saturating_add(1);
        if !row_holds(rt, name, question, line)? {
            differ = differ.saturating_add(1);
        }
    }
    println!(rt; "{name}: {rows} rows, {differ} differ")?;
    Ok(())
}

/// Runs tables of one question, each from the file of its name: prints each row whose answer differs, and how many rows there are and
/// how many differ. A row is a line of the case, an arrow and the wanted answer, with spaces around each of them; an empty line and one
/// that begins with `#` are none. The error is of the first file that cannot be read, or of the first row that is none.
pub fn run_tables<R: Files + AllocGlobal + Print, Q: Question>(
    rt: &R,
    question: &Q,
    names: &[&str],
) -> Result<()> {
    for name in names {
        run_table(rt, name, question)?;
    }
    Ok(())
}
