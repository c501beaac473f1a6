ghost use Rattle.std.specs.Prelude.{◌≡◌, ◌≢◌, pos, int_div, int_rem};
ghost use Rattle.sr_num.specs.Integer.{IsSafe};
ghost use Rattle.sr_num.specs.Arithmetic.{is_zero, is_zero_by_negative, integer_quotient, integer_remainder, sum, difference, product, quotient, remainder, negation};

use crate::{Num, NumStop};

pub(crate) fn is_zero(v: i64) -> bool
    ensures { result ≡ is_zero v }
{
    v == 0
}

fn is_zero_by_negative(a: i64, b: i64) -> bool
    ensures { result ≡ is_zero_by_negative a b }
{
    is_zero(a) && b < 0
}

/// The quotient rounded toward 0.
fn whole_quotient(a: i64, b: i64) -> i64
    requires dividend { IsSafe a }
    requires divisor { IsSafe b }
    requires not_zero { b ≢ pos 0 }
    ensures { result ≡ int_div a b }
{
    a / b
}

/// What that quotient leaves, with the sign of the dividend.
fn rest(a: i64, b: i64) -> i64
    requires dividend { IsSafe a }
    requires divisor { IsSafe b }
    requires not_zero { b ≢ pos 0 }
    ensures { result ≡ int_rem a b }
{
    a % b
}

fn integer_quotient(a: i64, b: i64) -> Result<Num, NumStop>
    requires dividend { IsSafe a }
    requires divisor { IsSafe b }
    ensures { result ≡ integer_quotient a b }
{
    if is_zero(b) {
        return if is_zero(a) {
            Ok(Num::nan())
        } else {
            Err(NumStop::Infinite)
        };
    }
    if is_zero_by_negative(a, b) {
        return Err(NumStop::NegativeZero);
    }
    if is_zero(rest(a, b)) {
        Num::of(whole_quotient(a, b))
    } else {
        Err(NumStop::Fraction)
    }
}

fn integer_remainder(a: i64, b: i64) -> Result<Num, NumStop>
    requires dividend { IsSafe a }
    requires divisor { IsSafe b }
    ensures { result ≡ integer_remainder a b }
{
    if is_zero(b) {
        return Ok(Num::nan());
    }
    let rest = rest(a, b);
    if a < 0 && is_zero(rest) {
        return Err(NumStop::NegativeZero);
    }
    Num::of(rest)
}

impl Num {
    /// `self + r` (ECMA-262 6.1.6.1.7). `Unsafe` where the sum is out of the range.
    #[tactic(auto, unfolding(crate::specs::Arithmetic::sum))]
    pub fn add(self, r: Num) -> Result<Num, NumStop>
        ensures { result ≡ sum self r }
    {
        let (Some(a), Some(b)) = (self.get(), r.get()) else {
            return Ok(Num::nan());
        };
        Num::of(a + b)
    }

    /// `self - r` (ECMA-262 6.1.6.1.8). `Unsafe` where the difference is out of the range.
    #[tactic(auto, unfolding(crate::specs::Arithmetic::difference))]
    pub fn sub(self, r: Num) -> Result<Num, NumStop>
        ensures { result ≡ difference self r }
    {
        let (Some(a), Some(b)) = (self.get(), r.get()) else {
            return Ok(Num::nan());
        };
        Num::of(a - b)
    }

    /// `self * r` (ECMA-262 6.1.6.1.4). `NegativeZero` for 0 times a negative, `Unsafe` where the product is out of the range.
    #[tactic(auto, unfolding(crate::specs::Arithmetic::product))]
    pub fn mul(self, r: Num) -> Result<Num, NumStop>
        ensures { result ≡ product self r }
    {
        let (Some(a), Some(b)) = (self.get(), r.get()) else {
            return Ok(Num::nan());
        };
        if is_zero_by_negative(a, b) || is_zero_by_negative(b, a) {
            return Err(NumStop::NegativeZero);
        }
        match a.checked_mul(b) {
            Some(v) => Num::of(v),
            None => Err(NumStop::Unsafe),
        }
    }

    /// `self / r` (ECMA-262 6.1.6.1.5). 0 by 0 is NaN. `Infinite` for another integer by 0, `NegativeZero` for 0 by a
    /// negative, `Fraction` where the quotient is no integer.
    #[tactic(auto, unfolding(crate::specs::Arithmetic::quotient))]
    pub fn div(self, r: Num) -> Result<Num, NumStop>
        ensures { result ≡ quotient self r }
    {
        let (Some(a), Some(b)) = (self.get(), r.get()) else {
            return Ok(Num::nan());
        };
        integer_quotient(a, b)
    }

    /// `self % r` (ECMA-262 6.1.6.1.6), which has the sign of `self`. By 0 it is NaN. `NegativeZero` for a zero
    /// remainder of a negative.
    #[tactic(auto, unfolding(crate::specs::Arithmetic::remainder))]
    pub fn rem(self, r: Num) -> Result<Num, NumStop>
        ensures { result ≡ remainder self r }
    {
        let (Some(a), Some(b)) = (self.get(), r.get()) else {
            return Ok(Num::nan());
        };
        integer_remainder(a, b)
    }

    /// `-self` (ECMA-262 6.1.6.1.1). `NegativeZero` for minus 0.
    #[tactic(auto, unfolding(crate::specs::Arithmetic::negation))]
    pub fn neg(self) -> Result<Num, NumStop>
        ensures { result ≡ negation self }
    {
        match self.get() {
            None => Ok(Num::nan()),
            Some(0) => Err(NumStop::NegativeZero),
            Some(a) => Num::of(-a),
        }
    }
}
