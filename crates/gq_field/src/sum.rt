//! Sums and differences of fractions within a limit.
ghost use Rattle.std.specs.Prelude.{◌≡◌, ◌<◌, ◌+◌, ◌^◌, ◌+ℤ◌, true, IfOk};
ghost use Rattle.gq_number.specs.Number.{◌+ℚ◌, ◌-ℚ◌, neg_ℚ};
ghost use Rattle.gq_field.specs.Fits.{fits, sum_fits, Answers};
ghost use Rattle.gq_field.specs.Values.{fraction_value, signed};

use crate::divisor::{gcd, over};
use crate::field::Limit;
use crate::fraction::Fraction;
use crate::product::product_within;

/// The sum of two integers. Each of the two, and the result, is a bool, whether it is negated, and
/// a magnitude.
#[inline(always)]
pub fn signed_sum(
    negative: bool,
    magnitude: u128,
    other_negative: bool,
    other: u128,
) -> (bool, u128)
    requires { magnitude + other < 2 ^ 128 }
    ensures { signed result.0 result.1 ≡ signed negative magnitude +ℤ signed other_negative other }
{
    if negative == other_negative {
        (negative, magnitude + other)
    } else if magnitude >= other {
        (negative, magnitude - other)
    } else {
        (other_negative, other - magnitude)
    }
}

/// The sum of two fractions with the same denominator, as whole numbers are.
#[inline(always)]
fn sum_over_same(limit: u128, x: Fraction, y: Fraction) -> Result<Fraction, Limit>
    requires limit { limit < 2 ^ 127 }
    requires same { x.denominator ≡ y.denominator }
    ensures value { Answers fraction_value result (sum_fits limit (fraction_value x) (fraction_value y))
        (fraction_value x +ℚ fraction_value y) }
    ensures within { IfOk result (λ f. fits limit (fraction_value f) ≡ true) }
{
    if x.magnitude > limit || y.magnitude > limit {
        return Err(Limit);
    }
    let (negative, top) = signed_sum(x.negative, x.magnitude, y.negative, y.magnitude);
    let shared = gcd(top, x.denominator);
    let denominator = over(x.denominator, shared);
    if top > limit || denominator > limit {
        return Err(Limit);
    }
    Ok(Fraction {
        negative,
        magnitude: over(top, shared),
        denominator,
    })
}

/// The sum over the common denominator, then divided by the common divisor of its numerator and the
/// greatest common divisor of the denominators.
#[inline(never)]
fn sum_over_common(limit: u128, x: Fraction, y: Fraction) -> Result<Fraction, Limit>
    requires { limit < 2 ^ 127 }
    ensures value { Answers fraction_value result (sum_fits limit (fraction_value x) (fraction_value y))
        (fraction_value x +ℚ fraction_value y) }
    ensures within { IfOk result (λ f. fits limit (fraction_value f) ≡ true) }
{
    let common = gcd(x.denominator, y.denominator);
    let left = over(x.denominator, common);
    let first = product_within(limit, x.magnitude, over(y.denominator, common))?;
    let second = product_within(limit, y.magnitude, left)?;
    let (negative, top) = signed_sum(x.negative, first, y.negative, second);
    if top > limit {
        return Err(Limit);
    }
    let shared = gcd(top, common);
    let denominator = product_within(limit, left, over(y.denominator, shared))?;
    Ok(Fraction {
        negative,
        magnitude: over(top, shared),
        denominator,
    })
}

/// The sum of `x` and `y`. The result is the error `Limit` exactly if one of these integers exceeds
/// `limit` in magnitude: the numerators of `x` and `y` over their least common denominator, the sum
/// of these two numerators, and the denominator of the reduced result.
#[inline(always)]
pub fn sum(limit: u128, x: Fraction, y: Fraction) -> Result<Fraction, Limit>
    requires { limit < 2 ^ 127 }
    ensures value { Answers fraction_value result (sum_fits limit (fraction_value x) (fraction_value y))
        (fraction_value x +ℚ fraction_value y) }
    ensures within { IfOk result (λ f. fits limit (fraction_value f) ≡ true) }
{
    if x.denominator == y.denominator {
        sum_over_same(limit, x, y)
    } else {
        sum_over_common(limit, x, y)
    }
}

/// The difference of `x` and `y`, computed as the sum of `x` and the negated `y`. The error `Limit`
/// comes exactly if that sum (`sum`) has this error.
#[inline(always)]
pub fn difference(limit: u128, x: Fraction, y: Fraction) -> Result<Fraction, Limit>
    requires { limit < 2 ^ 127 }
    ensures value { Answers fraction_value result (sum_fits limit (fraction_value x) (neg_ℚ (fraction_value y)))
        (fraction_value x -ℚ fraction_value y) }
    ensures within { IfOk result (λ f. fits limit (fraction_value f) ≡ true) }
{
    sum(limit, x, y.negated())
}
