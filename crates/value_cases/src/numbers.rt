use anyhow::{Result, bail};
use case_tables::{integer_of, split_cell, units_of};
use sr_num::{Num, NumStop, read_number};
use std::alloc::{AllocError, Global};

/// The number of a cell.
fn number(cell: &str) -> Result<Num> {
    match cell {
        "NaN" => Ok(Num::nan()),
        _ => Ok(Num::of(integer_of(cell)?)?),
    }
}

/// The number that an operation gives, or why it has no result.
fn told(alloc: Global, outcome: Result<Num, NumStop>) -> Result<String, AllocError> {
    match outcome {
        Ok(number) => match number.get() {
            Some(integer) => format!(in alloc; "{integer}"),
            None => String::from_str(alloc, "NaN"),
        },
        Err(stop) => format!(in alloc; "{stop}"),
    }
}

/// What an operator between two numbers comes to.
fn apply(left: Num, operator: &str, right: Num) -> Result<Result<Num, NumStop>> {
    Ok(match operator {
        "+" => left.add(right),
        "-" => left.sub(right),
        "*" => left.mul(right),
        "/" => left.div(right),
        "%" => left.rem(right),
        "**" => left.pow(right),
        "&" => Ok(left.and(right)),
        "|" => Ok(left.or(right)),
        "^" => Ok(left.xor(right)),
        "<<" => Ok(left.shl(right)),
        ">>" => Ok(left.shr(right)),
        ">>>" => Ok(left.ushr(right)),
        _ => bail!("no such operator: {operator}"),
    })
}

/// What an operator between two numbers comes to.
pub fn operated(alloc: Global, case: &str) -> Result<String> {
    let (left, others) = split_cell(case)?;
    let (operator, right) = split_cell(others)?;
    Ok(told(alloc, apply(number(left)?, operator, number(right)?)?)?)
}

/// The number of an integer, or what an operator before a number comes to.
pub fn changed(alloc: Global, case: &str) -> Result<String> {
    let (operator, operand) = split_cell(case)?;
    let outcome = match operator {
        "of" => Num::of(integer_of(operand)?),
        "-" => number(operand)?.neg(),
        "~" => Ok(number(operand)?.not()),
        _ => bail!("no such operator: {operator}"),
    };
    Ok(told(alloc, outcome)?)
}

/// The number that a text writes.
pub fn read(alloc: Global, case: &str) -> Result<String> {
    Ok(told(alloc, read_number(&units_of(alloc, case)?))?)
}
