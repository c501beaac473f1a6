ghost use Rattle.std.specs.Prelude.{◌≡◌, ◌++◌, IfOk, codes};
ghost use Rattle.sr_conv.specs.Plain.{value_of, symbol_of};
ghost use Rattle.sr_conv.specs.Conversions.{number_text};
ghost use Rattle.sr_conv.specs.Reports as spec;
ghost use Rattle.sr_value.specs.Live.{IsLiveValue};
ghost use Rattle.sr_realm.specs.Reports.{object_report};
ghost use Rattle.sr_state.specs.Held.{extent_in, realm_in, stored_in};
ghost use Rattle.sr_machine.specs.Language.{throw_report};

use sr_num::Num;
use sr_realm::object_report;
use sr_state::State;
use sr_text::Str;
use sr_value::{Symbol, Value, WellKnown};
use std::alloc::{AllocError, Global};

/// The most code units that are told.
const MAX_UNITS: usize = 16_777_216;

/// The code units of letters.
fn letters(alloc: Global, bytes: &[u8]) -> Result<Vec<u16>, AllocError>
    ensures { IfOk result (λ units. units.items ≡ bytes.now) }
{
    bytes.iter().map(|letter| u16::from(*letter)).collect(alloc)
}

/// The code units of a number.
fn number_units(alloc: Global, n: Num) -> Result<Vec<u16>, AllocError>
    ensures { IfOk result (λ units. units.items ≡ number_text n) }
{
    match n.get() {
        None => letters(alloc, b"NaN"),
        Some(z) => Vec::from_slice(alloc, Str::digits(alloc, z, 10)?.units()),
    }
}

/// The description of a symbol (ECMA-262 20.4.2); without one it is empty.
fn description(alloc: Global, symbol: &Symbol) -> Result<Vec<u16>, AllocError>
    ensures { IfOk result (λ units. units.items ≡ spec.description (symbol_of symbol.now)) }
{
    match symbol {
        Symbol::WellKnown(WellKnown::Iterator) => letters(alloc, b"Symbol.iterator"),
        Symbol::WellKnown(WellKnown::ToPrimitive) => letters(alloc, b"Symbol.toPrimitive"),
        Symbol::WellKnown(WellKnown::ToStringTag) => letters(alloc, b"Symbol.toStringTag"),
        Symbol::Registered(text) => Vec::from_slice(alloc, text.units()),
        Symbol::Made(made) => match made.description() {
            Some(text) => Vec::from_slice(alloc, text.units()),
            None => Ok(Vec::new(alloc)),
        },
    }
}

/// A symbol with its description.
fn symbol_units(alloc: Global, symbol: &Symbol) -> Result<Vec<u16>, AllocError>
    ensures { IfOk result (λ units. units.items ≡ codes "Symbol(" ++ spec.description (symbol_of symbol.now) ++ codes ")") }
{
    let mut units = letters(alloc, b"Symbol(")?;
    units.extend_from_slice(&description(alloc, symbol)?)?;
    units.extend_from_slice(&letters(alloc, b")")?)?;
    Ok(units)
}

/// All code units that would be told of a value.
fn units_of(alloc: Global, state: &State, value: &Value) -> Result<Vec<u16>, AllocError>
    requires { IsLiveValue (extent_in state.now.side) value.now }
    ensures { IfOk result (λ units. units.items ≡ spec.value_report (object_report (let s = stored_in state.now.side in s.objects)) (value_of value.now)) }
{
    match value {
        Value::Undefined => letters(alloc, b"undefined"),
        Value::Null => letters(alloc, b"null"),
        Value::Bool(true) => letters(alloc, b"true"),
        Value::Bool(false) => letters(alloc, b"false"),
        Value::Num(n) => number_units(alloc, *n),
        Value::Str(text) => Vec::from_slice(alloc, text.units()),
        Value::Sym(symbol) => symbol_units(alloc, symbol),
        Value::Obj(object) => object_report(alloc, state.heap(), object),
    }
}

/// What is told of a value that was thrown and not caught: at most its first 16,777,216 code units.
#[tactic(auto, unfolding(sr_conv::specs::Reports::report))]
pub(crate) fn report(alloc: Global, state: &State, value: &Value) -> Result<Str, AllocError>
    requires { IsLiveValue (extent_in state.now.side) value.now }
    ensures { IfOk result (λ text. text ≡ throw_report (realm_in state.now.side) (value_of value.now)) }
{
    let units = units_of(alloc, state, value)?;
    let told = units.len().min(MAX_UNITS);
    match Str::of_units(alloc, &units[..told]) {
        Ok(text) => Ok(text),
        Err(_) => Err(AllocError),
    }
}
