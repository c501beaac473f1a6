ghost use Rattle.std.specs.Prelude.{◌≡◌, ◌*◌, ◌%◌, ◌^◌, ◌≤◌, ◌&&◌, ◌==◌, if◌then◌else◌, pos, neg_ℤ};
ghost use Rattle.std.specs.Option.{SomeIff};
ghost use Rattle.std.specs.Int.{int_pow, is_negative};
ghost use Rattle.sr_num.specs.Integer.{IsSafe, checked};
ghost use Rattle.sr_num.specs.Power.{is_unit, integer_power, power};

use crate::arithmetic::is_zero;
use crate::{Num, NumStop};

/// Number.MAX_SAFE_INTEGER (ECMA-262 21.1.2.6).
const MAX_SIZE: u64 = 9_007_199_254_740_991;

/// `a * b`, where that is in the range.
fn product_in_range(a: u64, b: u64) -> Option<u64>
    ensures { SomeIff result (a * b ≤ MAX_SIZE) (a * b) }
{
    match a.checked_mul(b) {
        Some(product) => {
            if product <= MAX_SIZE {
                Some(product)
            } else {
                None
            }
        }
        None => None,
    }
}

/// `base` to the power `exponent`, where that is in the range: the square of the power to half the exponent, and once
/// more the base where the exponent is odd. So it takes as many steps as the exponent has bits.
fn natural_power(base: u64, exponent: u64) -> Option<u64>
    ensures { SomeIff result (base ^ exponent ≤ MAX_SIZE) (base ^ exponent) }
{
    if exponent == 0 {
        return Some(1);
    }
    if base == 0 {
        return Some(0);
    }
    let root = natural_power(base, exponent / 2)?;
    let square = product_in_range(root, root)?;
    if exponent % 2 == 0 {
        Some(square)
    } else {
        product_in_range(square, base)
    }
}

fn is_negative_power(a: i64, n: u64) -> bool
    ensures { result ≡ (is_negative a && (n % 2 == 1)) }
{
    a < 0 && n % 2 == 1
}

fn with_sign(size: u64, is_negative: bool) -> i64
    requires { size ≤ MAX_SIZE }
    ensures { result ≡ (if is_negative then neg_ℤ (pos size) else pos size) }
{
    if is_negative {
        -(size as i64)
    } else {
        size as i64
    }
}

fn whole_power(a: i64, n: u64) -> Result<Num, NumStop>
    ensures { result ≡ checked (int_pow a n) }
{
    match natural_power(a.unsigned_abs(), n) {
        None => Err(NumStop::Unsafe),
        Some(size) => Num::of(with_sign(size, is_negative_power(a, n))),
    }
}

fn is_unit(v: i64) -> bool
    ensures { result ≡ is_unit v }
{
    v == 1 || v == -1
}

fn integer_power(a: i64, e: i64) -> Result<Num, NumStop>
    requires base { IsSafe a }
    requires exponent { IsSafe e }
    ensures { result ≡ integer_power a e }
{
    if e >= 0 {
        whole_power(a, e as u64)
    } else if is_zero(a) {
        Err(NumStop::Infinite)
    } else if is_unit(a) {
        whole_power(a, e.unsigned_abs())
    } else {
        Err(NumStop::Fraction)
    }
}

impl Num {
    /// `self ** r` (ECMA-262 6.1.6.1.3): 1 for any number raised to 0, NaN too. `Infinite` for 0 raised to a negative,
    /// `Fraction` for a negative exponent on a base other than 0, 1 and -1, `Unsafe` where the power is out of the range.
    #[tactic(auto, unfolding(crate::specs::Power::power))]
    pub fn pow(self, r: Num) -> Result<Num, NumStop>
        ensures { result ≡ power self r }
    {
        match (self.get(), r.get()) {
            (_, None) => Ok(Num::nan()),
            (Some(a), Some(e)) => integer_power(a, e),
            (None, Some(0)) => Num::of(1),
            (None, Some(_)) => Ok(Num::nan()),
        }
    }
}
