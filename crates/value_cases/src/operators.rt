use crate::values::{shown, shown_number, shown_text, value};
use anyhow::{Result, bail};
use case_tables::split_cell;
use sr_ast::{BinaryOp, UnaryOp, UpdateOp};
use sr_conv::{
    Computed, Operated, operate, operate_one, step_number, to_boolean, to_number, to_text,
};
use sr_num::NumStop;
use std::alloc::Global;

/// The operator between two values.
fn binary(operator: &str) -> Result<BinaryOp> {
    Ok(match operator {
        "**" => BinaryOp::Power,
        "*" => BinaryOp::Multiply,
        "/" => BinaryOp::Divide,
        "%" => BinaryOp::Remainder,
        "+" => BinaryOp::Add,
        "-" => BinaryOp::Subtract,
        "<<" => BinaryOp::ShiftLeft,
        ">>" => BinaryOp::ShiftRight,
        ">>>" => BinaryOp::ShiftRightUnsigned,
        "<" => BinaryOp::Less,
        ">" => BinaryOp::Greater,
        "<=" => BinaryOp::LessOrEqual,
        ">=" => BinaryOp::GreaterOrEqual,
        "instanceof" => BinaryOp::InstanceOf,
        "in" => BinaryOp::In,
        "==" => BinaryOp::Equal,
        "!=" => BinaryOp::NotEqual,
        "===" => BinaryOp::StrictEqual,
        "!==" => BinaryOp::StrictNotEqual,
        "&" => BinaryOp::And,
        "^" => BinaryOp::Xor,
        "|" => BinaryOp::Or,
        _ => bail!("no such operator: {operator}"),
    })
}

/// The operator before a value.
fn unary(operator: &str) -> Result<UnaryOp> {
    Ok(match operator {
        "delete" => UnaryOp::Delete,
        "void" => UnaryOp::Void,
        "typeof" => UnaryOp::Typeof,
        "+" => UnaryOp::Plus,
        "-" => UnaryOp::Minus,
        "~" => UnaryOp::BitNot,
        "!" => UnaryOp::Not,
        _ => bail!("no such operator: {operator}"),
    })
}

/// `++` or `--`, before or after a value.
fn update(operator: &str) -> Result<UpdateOp> {
    Ok(match operator {
        "++x" => UpdateOp::PreIncrement,
        "--x" => UpdateOp::PreDecrement,
        "x++" => UpdateOp::PostIncrement,
        "x--" => UpdateOp::PostDecrement,
        _ => bail!("no such operator: {operator}"),
    })
}

fn stopped(alloc: Global, stop: NumStop) -> Result<String> {
    Ok(format!(in alloc; "stop: {stop}")?)
}

fn rejected(alloc: Global) -> Result<String> {
    Ok(String::from_str(alloc, "TypeError")?)
}

/// What an operator came to.
fn told(alloc: Global, operated: Operated) -> Result<String> {
    match operated {
        Operated::Gives(value) => shown(alloc, &value),
        Operated::Joins(left, right) => {
            let left = shown_text(alloc, &left)?;
            let right = shown_text(alloc, &right)?;
            Ok(format!(in alloc; "{left} and {right}")?)
        }
        Operated::Halts(stop) => stopped(alloc, stop),
        Operated::Rejects => rejected(alloc),
    }
}

/// What an operator between two values comes to.
pub fn between(alloc: Global, case: &str) -> Result<String> {
    let (left, others) = split_cell(case)?;
    let (operator, right) = split_cell(others)?;
    let left = value(alloc, left)?;
    let right = value(alloc, right)?;
    told(alloc, operate(alloc, binary(operator)?, &left, &right)?)
}

/// What an operator before a value comes to.
pub fn before(alloc: Global, case: &str) -> Result<String> {
    let (operator, operand) = split_cell(case)?;
    let operand = value(alloc, operand)?;
    told(alloc, operate_one(alloc, unary(operator)?, &operand)?)
}

/// The value of `++` or `--` on a value, and the number after.
pub fn updated(alloc: Global, case: &str) -> Result<String> {
    let (operator, operand) = split_cell(case)?;
    let operator = update(operator)?;
    match step_number(operator, &value(alloc, operand)?) {
        Computed::Is(stepped) => {
            let value = shown_number(alloc, sr_conv::shown(operator, stepped))?;
            let after = shown_number(alloc, stepped.after)?;
            Ok(format!(in alloc; "{value}, {after}")?)
        }
        Computed::Stops(stop) => stopped(alloc, stop),
        Computed::Fails => rejected(alloc),
    }
}

/// A value as a boolean, a number or a string.
pub fn converted(alloc: Global, case: &str) -> Result<String> {
    let (kind, operand) = split_cell(case)?;
    let operand = value(alloc, operand)?;
    match kind {
        "boolean" => {
            let truth = to_boolean(&operand);
            Ok(format!(in alloc; "{truth}")?)
        }
        "number" => match to_number(&operand) {
            Computed::Is(number) => shown_number(alloc, number),
            Computed::Stops(stop) => stopped(alloc, stop),
            Computed::Fails => rejected(alloc),
        },
        "string" => match to_text(alloc, &operand)? {
            Computed::Is(text) => shown_text(alloc, &text),
            Computed::Stops(stop) => stopped(alloc, stop),
            Computed::Fails => rejected(alloc),
        },
        _ => bail!("no such conversion: {kind}"),
    }
}
