ghost use Rattle.std.specs.Prelude.{◌≡◌, ◌++◌, IfOk, OnOk};
ghost use Rattle.sr_conv.specs.Plain.{value_of};
ghost use Rattle.sr_state.specs.Trees.{text_in};
ghost use Rattle.sr_call.specs.Parts.{line_of, IsString};

use sr_text::{MAX_UNITS, Str, TextRefusal};
use sr_value::Value;
use std::alloc::{AllocError, Global};

/// The texts that values are, with a space between each two; none where that is too long for a string. A single text is shared.
pub fn line(alloc: Global, values: &[Value]) -> Result<Option<Str>, AllocError>
    ensures { IfOk result (λ s. IsString (line_of values.now) s) }
{
    match values {
        [Value::Str(text)] => Ok(Some(text.clone()?)),
        _ => join(alloc, values),
    }
}

/// The same, put together.
#[tactic(auto, using(crate::proofs::Joins::line_whole))]
fn join(alloc: Global, values: &[Value]) -> Result<Option<Str>, AllocError>
    ensures { IfOk result (λ s. IsString (line_of values.now) s) }
{
    let mut units = Vec::new(alloc);
    let Some((first, rest)) = values.split_first() else {
        return string(alloc, &units);
    };
    add(&mut units, first)?;
    for value in rest {
        if units.len() > MAX_UNITS {
            return Ok(None);
        }
        units.push(0x20)?;
        add(&mut units, value)?;
    }
    string(alloc, &units)
}

/// Adds the text that a value is.
fn add(units: &mut Vec<u16>, value: &Value) -> Result<(), AllocError>
    ensures { OnOk result (units.new.items ≡ units.old.items ++ text_in (value_of value.now)) }
{
    match value {
        Value::Str(text) => units.extend_from_slice(text.units()),
        _ => Ok(()),
    }
}

/// The string of these code units; none where they are too many.
fn string(alloc: Global, units: &[u16]) -> Result<Option<Str>, AllocError>
    ensures { IfOk result (λ s. IsString units.now s) }
{
    match Str::of_units(alloc, units) {
        Ok(text) => Ok(Some(text)),
        Err(TextRefusal::TooLong) => Ok(None),
        Err(TextRefusal::NotUtf8(_) | TextRefusal::Memory) => Err(AllocError),
    }
}
