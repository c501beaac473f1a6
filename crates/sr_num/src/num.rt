ghost use Rattle.std.specs.Prelude.{◌≡◌, pos, None, Some, IfSome};
ghost use Rattle.sr_num.specs.Integer.{IsSafe, checked};

use crate::NumStop;
use std::marker::Model;

/// A number: NaN, or an integer of at most 2^53 - 1 in absolute value. Contracts see `None` or `Some` of the integer.
/// `==` compares numbers as data, so NaN is one with NaN; the operator of the language is not this one.
#[derive(Clone, Copy, Debug, PartialEq, Eq, Hash)]
pub struct Num {
    integer: Option<i64>,
}

impl Model for Num {
    ghost use Rattle.std.specs.Prelude.{Option, ℤ};
    ghost use Rattle.sr_num.specs.Integer.{IsNumber};

    ghost Value = { Option ℤ };

    ghost view = { λ n. n.integer };

    ghost invariant = { λ n. IsNumber n.integer };

    ghost inverse = { λ v. record { integer = v } };
}

/// Number.MAX_SAFE_INTEGER (ECMA-262 21.1.2.6).
const MAX_SAFE: i64 = 9_007_199_254_740_991;

impl Num {
    /// NaN.
    pub fn nan() -> Num
        ensures { result ≡ None }
    {
        Num { integer: None }
    }

    /// The number of an integer, or `Unsafe` where it is out of the range.
    pub fn of(v: i64) -> Result<Num, NumStop>
        ensures { result ≡ checked v }
    {
        if v < -MAX_SAFE || MAX_SAFE < v {
            return Err(NumStop::Unsafe);
        }
        Ok(Num { integer: Some(v) })
    }

    /// The number of an integer of 32 bits.
    pub(crate) fn of_int32(v: i32) -> Num
        ensures { result ≡ Some v }
    {
        Num {
            integer: Some(i64::from(v)),
        }
    }

    /// The number of an integer of 32 bits without a sign.
    pub(crate) fn of_uint32(v: u32) -> Num
        ensures { result ≡ Some (pos v) }
    {
        Num {
            integer: Some(i64::from(v)),
        }
    }

    /// The integer, or `None` exactly for NaN.
    pub fn get(&self) -> Option<i64>
        ensures value { result ≡ self.now }
        ensures safe { IfSome result IsSafe }
    {
        self.integer
    }
}
