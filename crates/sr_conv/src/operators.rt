ghost use Rattle.std.specs.Prelude.{◌≡◌, IfOk};
ghost use Rattle.sr_num.specs.Arithmetic.{negation};
ghost use Rattle.sr_num.specs.Bits.{bitwise_not};
ghost use Rattle.sr_conv.specs.Plain.{value_of};
ghost use Rattle.sr_conv.specs.Computed.{Is, and_then, counted};
ghost use Rattle.sr_conv.specs.Conversions.{type_word};
ghost use Rattle.sr_conv.specs.Comparison.{is_loosely_equal, same_truth};
ghost use Rattle.sr_conv.specs.Operators as spec;
ghost use Rattle.sr_conv.specs.Operators.{to_numeric};
ghost use Rattle.sr_conv.specs.Answers.{GivesPrimitive, number_computed, computed_of, stepped_of, operated_of};
ghost use Rattle.sr_conv.specs.Steps as steps;

use crate::answers::{Computed, Operated, Stepped};
use crate::comparison::{less, loosely_equal, strictly_equal};
use crate::conversions::{both_numbers, to_boolean, to_number, to_text, word};
use sr_ast::{BinaryOp, UnaryOp, UpdateOp};
use sr_num::{Num, NumStop};
use sr_text::Str;
use sr_value::Value;
use std::alloc::{AllocError, Global};

/// What an operator of arithmetic or of bits makes of two numbers; the sum for all others.
fn of_numbers(op: BinaryOp, m: Num, n: Num) -> Result<Num, NumStop>
    ensures { result ≡ steps.of_numbers op m n }
{
    match op {
        BinaryOp::Power => m.pow(n),
        BinaryOp::Multiply => m.mul(n),
        BinaryOp::Divide => m.div(n),
        BinaryOp::Remainder => m.rem(n),
        BinaryOp::Subtract => m.sub(n),
        BinaryOp::ShiftLeft => Ok(m.shl(n)),
        BinaryOp::ShiftRight => Ok(m.shr(n)),
        BinaryOp::ShiftRightUnsigned => Ok(m.ushr(n)),
        BinaryOp::And => Ok(m.and(n)),
        BinaryOp::Xor => Ok(m.xor(n)),
        BinaryOp::Or => Ok(m.or(n)),
        _ => m.add(n),
    }
}

/// A number, or the stop in place of one.
fn gives_number(outcome: Result<Num, NumStop>) -> Operated
    ensures same { operated_of result ≡ spec.gives_number (counted outcome) }
    ensures primitive { GivesPrimitive result }
{
    match outcome {
        Ok(n) => Operated::Gives(Value::Num(n)),
        Err(stop) => Operated::Halts(stop),
    }
}

/// What such an operator makes of two values, the left one made a number first (ECMA-262 13.15.3).
fn arithmetic(op: BinaryOp, x: &Value, y: &Value) -> Operated
    ensures same { operated_of result ≡ steps.arithmetic op (value_of x.now) (value_of y.now) }
    ensures primitive { GivesPrimitive result }
{
    match both_numbers(x, y) {
        Computed::Is((m, n)) => gives_number(of_numbers(op, m, n)),
        Computed::Stops(stop) => Operated::Halts(stop),
        Computed::Fails => Operated::Rejects,
    }
}

/// Both values as strings, the left one made a string first.
fn joined(alloc: Global, x: &Value, y: &Value) -> Result<Operated, AllocError>
    ensures same { IfOk result (λ r. operated_of r ≡ steps.joined (value_of x.now) (value_of y.now)) }
    ensures primitive { IfOk result GivesPrimitive }
{
    let left = match to_text(alloc, x)? {
        Computed::Is(text) => text,
        Computed::Stops(stop) => return Ok(Operated::Halts(stop)),
        Computed::Fails => return Ok(Operated::Rejects),
    };
    match to_text(alloc, y)? {
        Computed::Is(right) => Ok(Operated::Joins(left, right)),
        Computed::Stops(stop) => Ok(Operated::Halts(stop)),
        Computed::Fails => Ok(Operated::Rejects),
    }
}

fn is_string(x: &Value) -> bool
    ensures { result ≡ steps.is_string (value_of x.now) }
{
    match x {
        Value::Str(_) => true,
        _ => false,
    }
}

/// The operator `+` (ECMA-262 13.15.3): where either value is a string both are joined, else they are added.
#[tactic(auto, using(crate::proofs::Cuts::added_text, crate::proofs::Cuts::added_numbers))]
fn added(alloc: Global, x: &Value, y: &Value) -> Result<Operated, AllocError>
    ensures same { IfOk result (λ r. operated_of r ≡ spec.added (value_of x.now) (value_of y.now)) }
    ensures primitive { IfOk result GivesPrimitive }
{
    if is_string(x) || is_string(y) {
        joined(alloc, x, y)
    } else {
        Ok(arithmetic(BinaryOp::Add, x, y))
    }
}

fn gives_truth(b: bool) -> Operated
    ensures same { operated_of result ≡ spec.gives_truth b }
    ensures primitive { GivesPrimitive result }
{
    Operated::Gives(Value::Bool(b))
}

/// Whether a comparison is told and holds (ECMA-262 13.10.1).
fn holds(comparison: Computed<Option<bool>>) -> Operated
    ensures same { operated_of result ≡ spec.operated (computed_of (λ b. b) comparison) spec.holds }
    ensures primitive { GivesPrimitive result }
{
    match comparison {
        Computed::Is(told) => gives_truth(told.unwrap_or(false)),
        Computed::Stops(stop) => Operated::Halts(stop),
        Computed::Fails => Operated::Rejects,
    }
}

/// Whether a comparison is told and does not hold (ECMA-262 13.10.1).
fn fails(comparison: Computed<Option<bool>>) -> Operated
    ensures same { operated_of result ≡ spec.operated (computed_of (λ b. b) comparison) spec.fails }
    ensures primitive { GivesPrimitive result }
{
    match comparison {
        Computed::Is(told) => gives_truth(!told.unwrap_or(true)),
        Computed::Stops(stop) => Operated::Halts(stop),
        Computed::Fails => Operated::Rejects,
    }
}

/// Whether it is as wanted that two values are loosely equal (ECMA-262 13.11.1).
fn equality(x: &Value, y: &Value, wanted: bool) -> Operated
    ensures same { operated_of result ≡ spec.operated (is_loosely_equal (value_of x.now) (value_of y.now)) (λ b. spec.gives_truth (same_truth b wanted)) }
    ensures primitive { GivesPrimitive result }
{
    match loosely_equal(x, y) {
        Computed::Is(equal) => gives_truth(equal == wanted),
        Computed::Stops(stop) => Operated::Halts(stop),
        Computed::Fails => Operated::Rejects,
    }
}

/// An operator between two values (ECMA-262 13.15.3, 13.10.1 and 13.11.1). `Halts` comes where the result leaves the
/// integers of the profile, `Rejects` where a symbol or an object would be converted, and for `in` and `instanceof`, which
/// want an object on the right (13.10.1, 13.10.2) and with one are not built.
#[tactic(auto, unfolding(crate::specs::Operators::operate), using(crate::proofs::Cuts::less_right))]
pub fn operate(alloc: Global, op: BinaryOp, x: &Value, y: &Value) -> Result<Operated, AllocError>
    ensures same { IfOk result (λ r. operated_of r ≡ spec.operate op (value_of x.now) (value_of y.now)) }
    ensures primitive { IfOk result GivesPrimitive }
{
    match op {
        BinaryOp::Add => added(alloc, x, y),
        BinaryOp::Less => Ok(holds(less(x, y))),
        BinaryOp::Greater => Ok(holds(less(y, x))),
        BinaryOp::LessOrEqual => Ok(fails(less(y, x))),
        BinaryOp::GreaterOrEqual => Ok(fails(less(x, y))),
        BinaryOp::InstanceOf | BinaryOp::In => Ok(Operated::Rejects),
        BinaryOp::Equal => Ok(equality(x, y, true)),
        BinaryOp::NotEqual => Ok(equality(x, y, false)),
        BinaryOp::StrictEqual => Ok(gives_truth(strictly_equal(x, y))),
        BinaryOp::StrictNotEqual => Ok(gives_truth(!strictly_equal(x, y))),
        BinaryOp::Power
        | BinaryOp::Multiply
        | BinaryOp::Divide
        | BinaryOp::Remainder
        | BinaryOp::Subtract
        | BinaryOp::ShiftLeft
        | BinaryOp::ShiftRight
        | BinaryOp::ShiftRightUnsigned
        | BinaryOp::And
        | BinaryOp::Xor
        | BinaryOp::Or => Ok(arithmetic(op, x, y)),
    }
}

/// The word that `typeof` gives (ECMA-262 13.5.3).
fn type_word(alloc: Global, x: &Value) -> Result<Str, AllocError>
    ensures { IfOk result (λ s. s ≡ type_word (value_of x.now)) }
{
    match x {
        Value::Undefined => word(alloc, b"undefined"),
        Value::Null | Value::Obj(_) => word(alloc, b"object"),
        Value::Bool(_) => word(alloc, b"boolean"),
        Value::Num(_) => word(alloc, b"number"),
        Value::Str(_) => word(alloc, b"string"),
        Value::Sym(_) => word(alloc, b"symbol"),
    }
}

/// Minus a value (ECMA-262 13.5.5).
fn negated(x: &Value) -> Operated
    ensures same { operated_of result ≡ spec.gives_number (and_then (to_numeric (value_of x.now)) (λ n. counted (negation n))) }
    ensures primitive { GivesPrimitive result }
{
    match to_number(x) {
        Computed::Is(n) => gives_number(n.neg()),
        Computed::Stops(stop) => Operated::Halts(stop),
        Computed::Fails => Operated::Rejects,
    }
}

/// A computed number.
fn gives_computed(computed: Computed<Num>) -> Operated
    ensures same { operated_of result ≡ spec.gives_number (number_computed computed) }
    ensures primitive { GivesPrimitive result }
{
    match computed {
        Computed::Is(n) => Operated::Gives(Value::Num(n)),
        Computed::Stops(stop) => Operated::Halts(stop),
        Computed::Fails => Operated::Rejects,
    }
}

/// The bits of a value turned over (ECMA-262 13.5.6).
fn bits_turned(x: &Value) -> Operated
    ensures same { operated_of result ≡ spec.gives_number (and_then (to_numeric (value_of x.now)) (λ n. Is (bitwise_not n))) }
    ensures primitive { GivesPrimitive result }
{
    match to_number(x) {
        Computed::Is(n) => gives_number(Ok(n.not())),
        Computed::Stops(stop) => Operated::Halts(stop),
        Computed::Fails => Operated::Rejects,
    }
}

/// An operator before a value (ECMA-262 13.5). `delete` of what is no reference is true (13.5.1.2).
#[tactic(auto, unfolding(crate::specs::Operators::operate_one))]
pub fn operate_one(alloc: Global, op: UnaryOp, x: &Value) -> Result<Operated, AllocError>
    ensures same { IfOk result (λ r. operated_of r ≡ spec.operate_one op (value_of x.now)) }
    ensures primitive { IfOk result GivesPrimitive }
{
    match op {
        UnaryOp::Delete => Ok(gives_truth(true)),
        UnaryOp::Void => Ok(Operated::Gives(Value::Undefined)),
        UnaryOp::Typeof => Ok(Operated::Gives(Value::Str(type_word(alloc, x)?))),
        UnaryOp::Plus => Ok(gives_computed(to_number(x))),
        UnaryOp::Minus => Ok(negated(x)),
        UnaryOp::BitNot => Ok(bits_turned(x)),
        UnaryOp::Not => Ok(gives_truth(!to_boolean(x))),
    }
}

/// The number after `++` or `--` (13.4).
fn stepped(op: UpdateOp, n: Num) -> Result<Num, NumStop>
    ensures { result ≡ spec.stepped op n }
{
    match (op, Num::of(1)) {
        (_, Err(stop)) => Err(stop),
        (UpdateOp::PreIncrement | UpdateOp::PostIncrement, Ok(one)) => n.add(one),
        (UpdateOp::PreDecrement | UpdateOp::PostDecrement, Ok(one)) => n.sub(one),
    }
}

/// The numbers before and after `++` or `--` (13.4). `Stops` comes where one is no number of the profile.
#[tactic(auto, unfolding(crate::specs::Operators::step_number))]
pub fn step_number(op: UpdateOp, x: &Value) -> Computed<Stepped>
    ensures { computed_of stepped_of result ≡ spec.step_number op (value_of x.now) }
{
    match to_number(x) {
        Computed::Is(before) => match stepped(op, before) {
            Ok(after) => Computed::Is(Stepped { before, after }),
            Err(stop) => Computed::Stops(stop),
        },
        Computed::Stops(stop) => Computed::Stops(stop),
        Computed::Fails => Computed::Fails,
    }
}

/// The number that an expression of `++` or `--` gives.
pub fn shown(op: UpdateOp, stepped: Stepped) -> Num
    ensures { result ≡ spec.shown op stepped.before stepped.after }
{
    match op {
        UpdateOp::PreIncrement | UpdateOp::PreDecrement => stepped.after,
        UpdateOp::PostIncrement | UpdateOp::PostDecrement => stepped.before,
    }
}
