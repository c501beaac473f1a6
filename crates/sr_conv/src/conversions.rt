ghost use Rattle.std.specs.Prelude.{◌≡◌, ◌≤◌, IfOk, Some, length};
ghost use Rattle.sr_num.specs.Integer.{IsSafe};
ghost use Rattle.sr_conv.specs.Computed as conv;
ghost use Rattle.sr_conv.specs.Plain.{value_of};
ghost use Rattle.sr_conv.specs.Conversions as spec;
ghost use Rattle.sr_conv.specs.Operators.{to_numeric};
ghost use Rattle.sr_conv.specs.Answers.{computed_of, number_computed, text_computed};
ghost use Rattle.sr_conv.specs.Steps.{both_numbers};

use crate::answers::Computed;
use sr_num::{Num, read_number};
use sr_text::{Str, TextRefusal};
use sr_value::Value;
use std::alloc::{AllocError, Global};

/// ToBoolean (ECMA-262 7.1.2).
pub fn to_boolean(x: &Value) -> bool
    ensures { result ≡ spec.to_boolean (value_of x.now) }
{
    match x {
        Value::Undefined | Value::Null => false,
        Value::Bool(b) => *b,
        Value::Num(n) => match n.get() {
            None => false,
            Some(z) => z != 0,
        },
        Value::Str(text) => !text.units().is_empty(),
        Value::Sym(_) | Value::Obj(_) => true,
    }
}

/// ToNumber (ECMA-262 7.1.4). `Stops` comes for a string that is a number which the profile lacks, `Fails` for a symbol.
pub fn to_number(x: &Value) -> Computed<Num>
    ensures { number_computed result ≡ to_numeric (value_of x.now) }
{
    match x {
        Value::Undefined => Computed::Is(Num::nan()),
        Value::Null => small(0),
        Value::Bool(b) => small(i64::from(*b)),
        Value::Num(n) => Computed::Is(*n),
        Value::Str(text) => match read_number(text.units()) {
            Ok(n) => Computed::Is(n),
            Err(stop) => Computed::Stops(stop),
        },
        Value::Sym(_) | Value::Obj(_) => Computed::Fails,
    }
}

/// Both values as numbers, the left one made first.
pub(crate) fn both_numbers(x: &Value, y: &Value) -> Computed<(Num, Num)>
    ensures { computed_of (λ pair. (pair.0, pair.1)) result ≡ both_numbers (value_of x.now) (value_of y.now) }
{
    match to_number(x) {
        Computed::Is(left) => match to_number(y) {
            Computed::Is(right) => Computed::Is((left, right)),
            Computed::Stops(stop) => Computed::Stops(stop),
            Computed::Fails => Computed::Fails,
        },
        Computed::Stops(stop) => Computed::Stops(stop),
        Computed::Fails => Computed::Fails,
    }
}

/// The number of a small integer.
fn small(z: i64) -> Computed<Num>
    requires { IsSafe z }
    ensures { number_computed result ≡ conv.Is (Some z) }
{
    match Num::of(z) {
        Ok(n) => Computed::Is(n),
        Err(stop) => Computed::Stops(stop),
    }
}

/// The string of these letters.
pub(crate) fn word(alloc: Global, letters: &[u8]) -> Result<Str, AllocError>
    requires { length letters.now ≤ 9 }
    ensures { IfOk result (λ s. s ≡ letters.now) }
{
    let units: Vec<u16> = letters
        .iter()
        .map(|letter| u16::from(*letter))
        .collect(alloc)?;
    match Str::of_units(alloc, &units) {
        Ok(text) => Ok(text),
        Err(TextRefusal::Memory) => Err(AllocError),
        Err(TextRefusal::TooLong) => unreachable!(),
        Err(TextRefusal::NotUtf8(_)) => unreachable!(),
    }
}

/// Number::toString (6.1.6.1.20) with the radix 10.
fn number_text(alloc: Global, n: Num) -> Result<Str, AllocError>
    ensures { IfOk result (λ s. s ≡ spec.number_text n) }
{
    match n.get() {
        None => word(alloc, b"NaN"),
        Some(z) => Str::digits(alloc, z, 10),
    }
}

/// The string of a truth value.
fn truth_text(alloc: Global, b: bool) -> Result<Str, AllocError>
    ensures { IfOk result (λ s. s ≡ spec.truth_text b) }
{
    if b {
        word(alloc, b"true")
    } else {
        word(alloc, b"false")
    }
}

/// ToString (ECMA-262 7.1.17). `Fails` comes for a symbol. A string is shared, not copied.
pub fn to_text(alloc: Global, x: &Value) -> Result<Computed<Str>, AllocError>
    ensures { IfOk result (λ r. text_computed r ≡ spec.to_text (value_of x.now)) }
{
    match x {
        Value::Undefined => Ok(Computed::Is(word(alloc, b"undefined")?)),
        Value::Null => Ok(Computed::Is(word(alloc, b"null")?)),
        Value::Bool(b) => Ok(Computed::Is(truth_text(alloc, *b)?)),
        Value::Num(n) => Ok(Computed::Is(number_text(alloc, *n)?)),
        Value::Str(text) => Ok(Computed::Is(text.clone()?)),
        Value::Sym(_) | Value::Obj(_) => Ok(Computed::Fails),
    }
}
