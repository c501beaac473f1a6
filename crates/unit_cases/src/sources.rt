use crate::markers::refused;
use source_tables::put_units;
use sr_ast::{Reading, ScriptCode};
use sr_script::read_source;
use sr_text::Str;
use std::alloc::{AllocError, Global};

/// A script, by the names that it declares.
fn names(alloc: Global, script: &ScriptCode) -> Result<String, AllocError> {
    let mut out = String::from_str(alloc, "script")?;
    for name in script.names() {
        out.push_str(" ")?;
        put_units(&mut out, name.units())?;
    }
    Ok(out)
}

/// What a text is as it is read; a script with the names that it declares.
pub fn source(alloc: Global, text: &Str) -> Result<String, AllocError> {
    match read_source(alloc, text)? {
        None => String::from_str(alloc, "not built"),
        Some(source) => match &source.reading {
            Reading::Script(script) => names(alloc, script),
            Reading::Refused(why) => refused(alloc, *why),
        },
    }
}

/// How many statements a script has, which are no more than so many.
fn statements(script: &ScriptCode, most: usize) -> usize {
    for at in 0..most {
        if script.statement(at).is_none() {
            return at;
        }
    }
    most
}

/// How many code units a script has, and how many statements.
pub fn counts(alloc: Global, text: &Str) -> Result<String, AllocError> {
    match read_source(alloc, text)? {
        None => String::from_str(alloc, "not built"),
        Some(source) => match &source.reading {
            Reading::Script(script) => {
                let units = source.units;
                let statements = statements(script, units);
                format!(in alloc; "units: {units}, statements: {statements}")
            }
            Reading::Refused(why) => refused(alloc, *why),
        },
    }
}
