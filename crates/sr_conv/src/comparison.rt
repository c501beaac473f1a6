ghost use Rattle.std.specs.Prelude.{◌≡◌};
ghost use Rattle.sr_conv.specs.Plain.{value_of};
ghost use Rattle.sr_conv.specs.Comparison as spec;
ghost use Rattle.sr_conv.specs.Answers.{computed_of};
ghost use Rattle.sr_conv.specs.Steps.{less_as_numbers, equal_as_numbers};

use crate::answers::Computed;
use crate::conversions::both_numbers;
use sr_num::Num;
use sr_value::{Value, strict_equal};
use std::cmp::Ordering;

/// Number::equal (ECMA-262 6.1.6.1.13).
fn numbers_equal(m: Num, n: Num) -> bool
    ensures { result ≡ spec.numbers_equal m n }
{
    match (m.get(), n.get()) {
        (Some(a), Some(b)) => a == b,
        _ => false,
    }
}

/// Number::lessThan (ECMA-262 6.1.6.1.12): none where an operand is NaN.
fn number_less(m: Num, n: Num) -> Option<bool>
    ensures { result ≡ spec.number_less m n }
{
    let (Some(a), Some(b)) = (m.get(), n.get()) else {
        return None;
    };
    Some(a.cmp(&b) == Ordering::Less)
}

/// IsLessThan (ECMA-262 7.2.13): none where an operand is NaN.
pub(crate) fn less(x: &Value, y: &Value) -> Computed<Option<bool>>
    ensures { computed_of (λ b. b) result ≡ spec.is_less_than (value_of x.now) (value_of y.now) }
{
    match (x, y) {
        (Value::Obj(_), _) | (_, Value::Obj(_)) => Computed::Fails,
        (Value::Str(s), Value::Str(t)) => Computed::Is(Some(s.compare(t) == Ordering::Less)),
        _ => less_as_numbers(x, y),
    }
}

/// The comparison of both as numbers.
fn less_as_numbers(x: &Value, y: &Value) -> Computed<Option<bool>>
    ensures { computed_of (λ b. b) result ≡ less_as_numbers (value_of x.now) (value_of y.now) }
{
    match both_numbers(x, y) {
        Computed::Is((m, n)) => Computed::Is(number_less(m, n)),
        Computed::Stops(stop) => Computed::Stops(stop),
        Computed::Fails => Computed::Fails,
    }
}

/// IsStrictlyEqual (ECMA-262 7.2.15), of values of one realm.
pub(crate) fn strictly_equal(x: &Value, y: &Value) -> bool
    ensures { result ≡ spec.is_strictly_equal (value_of x.now) (value_of y.now) }
{
    match x {
        Value::Obj(a) => match y {
            Value::Obj(b) => a.place() == b.place(),
            _ => false,
        },
        _ => strict_equal(x, y),
    }
}

/// Whether both are equal as numbers.
fn equal_as_numbers(x: &Value, y: &Value) -> Computed<bool>
    ensures { computed_of (λ b. b) result ≡ equal_as_numbers (value_of x.now) (value_of y.now) }
{
    match both_numbers(x, y) {
        Computed::Is((m, n)) => Computed::Is(numbers_equal(m, n)),
        Computed::Stops(stop) => Computed::Stops(stop),
        Computed::Fails => Computed::Fails,
    }
}

/// IsLooselyEqual (ECMA-262 7.2.14), of values of one realm.
pub(crate) fn loosely_equal(x: &Value, y: &Value) -> Computed<bool>
    ensures { computed_of (λ b. b) result ≡ spec.is_loosely_equal (value_of x.now) (value_of y.now) }
{
    match (x, y) {
        (Value::Undefined | Value::Null, Value::Undefined | Value::Null) => Computed::Is(true),
        (Value::Undefined | Value::Null, _) | (_, Value::Undefined | Value::Null) => {
            Computed::Is(false)
        }
        (Value::Obj(a), Value::Obj(b)) => Computed::Is(a.place() == b.place()),
        (Value::Obj(_), _) | (_, Value::Obj(_)) => Computed::Fails,
        (Value::Str(_), Value::Str(_)) | (Value::Sym(_), _) | (_, Value::Sym(_)) => {
            Computed::Is(strictly_equal(x, y))
        }
        _ => equal_as_numbers(x, y),
    }
}
