ghost use Rattle.std.specs.Prelude.{◌≡◌, ◌↔◌, IsTrue};
ghost use Rattle.sr_value.specs.Equality.{IsSameValue, IsSameValueZero, IsStrictlyEqual};

use crate::Value;
use crate::symbol::same_text;

/// SameValue (ECMA-262 7.2): whether both are one value, where NaN is one with NaN.
pub fn same_value(a: &Value, b: &Value) -> bool
    ensures { IsTrue result ↔ IsSameValue a.now b.now }
{
    match (a, b) {
        (Value::Undefined, Value::Undefined) | (Value::Null, Value::Null) => true,
        (Value::Bool(x), Value::Bool(y)) => *x == *y,
        (Value::Num(x), Value::Num(y)) => *x == *y,
        (Value::Str(x), Value::Str(y)) => same_text(x, y),
        (Value::Sym(x), Value::Sym(y)) => x.same(y),
        (Value::Obj(x), Value::Obj(y)) => x.same(y),
        _ => false,
    }
}

/// SameValueZero (ECMA-262 7.2), which is SameValue, since there is one zero.
pub fn same_value_zero(a: &Value, b: &Value) -> bool
    ensures { IsTrue result ↔ IsSameValueZero a.now b.now }
{
    same_value(a, b)
}

/// IsStrictlyEqual (ECMA-262 7.2), the operator `===`: whether both are one value, and not NaN.
pub fn strict_equal(a: &Value, b: &Value) -> bool
    ensures { IsTrue result ↔ IsStrictlyEqual a.now b.now }
{
    match a {
        Value::Num(x) if x.get().is_none() => false,
        _ => same_value(a, b),
    }
}
