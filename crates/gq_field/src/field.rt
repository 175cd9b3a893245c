//! What a field of exact numbers with a limit is: its calls, each exact both ways, and its laws.
ghost use Rattle.std.specs.Prelude.{◌≡◌, ◌≢◌, ◌↔◌, ℕ, ◌<◌, ◌≤◌, ◌^◌, ℤ, pos, nat_abs, true, IsTrue};
ghost use Rattle.gq_number.specs.Number.{Number, whole, ratio, ◌+ℚ◌, ◌-ℚ◌, ◌*ℚ◌, ◌/ℚ◌, neg_ℚ, sign_of, truncated, floor_of, ceiling_of, rounded};
ghost use Rattle.gq_number.specs.Order.{number_cmp};

use crate::compare::compare;
use crate::fraction::Fraction;
use crate::product::{product, quotient, reduced};
use crate::rounding::{down, to_nearest, towards_zero, up};
use crate::sum::{difference, sum};
use std::cmp::Ordering;
use thiserror::Error;

/// Why an operation of a field has no result: a numerator or a denominator that it computes exceeds
/// the field's limit in magnitude.
#[derive(Clone, Copy, Debug, PartialEq, Eq, Error)]
#[error("beyond the field's limit")]
pub struct Limit;

/// A type of exact rational numbers whose numerators and denominators are at most a limit in
/// magnitude.
///
/// Each value of the type means a number (`value`). An operation returns the exact result if that
/// fits under the limit, and otherwise the error `Limit`. A sum or a difference fits if each
/// of these integers is at most the limit in magnitude: the two numerators over the least common
/// denominator, their sum or difference, and the denominator of the reduced result. Any other
/// result fits if its reduced numerator and denominator are at most the limit in magnitude.
pub trait ExactField: Copy {
    ghost use Rattle.gq_field.specs.Fits.{fits, sum_fits, Answers};
    ghost use Rattle.gq_field.specs.Values.{fraction_value};

    /// The greatest magnitude that a numerator or a denominator may have.
    ghost limit: { ℕ };

    /// The number that a value means.
    ghost value: { Self → Number };

    /// The greatest magnitude that a numerator or a denominator may have.
    fn limit() -> u128
        ensures { result ≡ limit };

    /// The value as a fraction, in which every field computes.
    fn widened(self) -> Fraction
        ensures { fraction_value result ≡ value self };

    /// The value that means this fraction, which has to fit under the limit.
    fn narrowed(fraction: Fraction) -> Self
        requires { fits limit (fraction_value fraction) ≡ true }
        ensures { value result ≡ fraction_value fraction };

    /// 0.
    final fn zero() -> Self
        ensures { value result ≡ whole (pos 0) }
    {
        Self::from_int(0)
    }

    /// 1.
    final fn one() -> Self
        ensures { value result ≡ whole (pos 1) }
    {
        Self::from_int(1)
    }

    /// The value of the integer `n`, whose magnitude has to be at most the limit.
    final fn from_int(n: i64) -> Self
        requires { nat_abs n ≤ limit }
        ensures { value result ≡ whole n }
    {
        Self::narrowed(Fraction::whole(n < 0, n.unsigned_abs() as u128))
    }

    /// The reduced fraction of `num` over `den`, which is not 0. `Limit` exactly if the reduced
    /// numerator or denominator exceeds the limit in magnitude.
    final fn from_parts(num: i128, den: u128) -> Result<Self, Limit>
        requires { 0 < den }
        ensures { Answers value result (fits limit (ratio num den)) (ratio num den) }
    {
        let fraction = reduced(Self::limit(), num < 0, num.unsigned_abs(), den)?;
        Ok(Self::narrowed(fraction))
    }

    /// The numerator and the denominator of the reduced fraction.
    final fn parts(self) -> (i128, u128)
        ensures numerator { result.0 ≡ (value self).numerator }
        ensures denominator { result.1 ≡ (value self).denominator }
    {
        let fraction = self.widened();
        (fraction.numerator(), fraction.denominator)
    }

    /// Whether the value is 0.
    final fn is_zero(self) -> bool
        ensures { IsTrue result ↔ (value self ≡ whole (pos 0)) }
    {
        self.widened().magnitude == 0
    }

    /// -1, 0 or 1, as the value is below, at or above 0.
    final fn sign(self) -> i8
        ensures { result ≡ sign_of (value self) }
    {
        let fraction = self.widened();
        if fraction.magnitude == 0 {
            0
        } else if fraction.negative {
            -1
        } else {
            1
        }
    }

    /// The value with its sign changed.
    final fn neg(self) -> Self
        ensures { value result ≡ neg_ℚ (value self) }
    {
        Self::narrowed(self.widened().negated())
    }

    /// How the two values compare as numbers.
    final fn cmp_value(self, other: Self) -> Ordering
        ensures { result ≡ number_cmp (value self) (value other) }
    {
        compare(self.widened(), other.widened())
    }

    /// The value without its fractional part: rounded to a whole number towards 0.
    final fn trunc(self) -> Self
        ensures { value result ≡ whole (truncated (value self)) }
    {
        Self::narrowed(towards_zero(self.widened()))
    }

    /// The greatest whole number that is at most the value.
    final fn floor(self) -> Self
        ensures { value result ≡ whole (floor_of (value self)) }
    {
        Self::narrowed(down(self.widened()))
    }

    /// The least whole number that is at least the value.
    final fn ceil(self) -> Self
        ensures { value result ≡ whole (ceiling_of (value self)) }
    {
        Self::narrowed(up(self.widened()))
    }

    /// The nearest whole number; a half is rounded away from 0.
    final fn round_whole(self) -> Self
        ensures { value result ≡ whole (rounded (value self)) }
    {
        Self::narrowed(to_nearest(self.widened()))
    }

    /// The sum. `Limit` exactly if an intermediate number does not fit: the numerators over the
    /// common denominator, their sum, or the denominator of the result.
    final fn add(self, other: Self) -> Result<Self, Limit>
        ensures { Answers value result (sum_fits limit (value self) (value other))
            (value self +ℚ value other) }
    {
        let fraction = sum(Self::limit(), self.widened(), other.widened())?;
        Ok(Self::narrowed(fraction))
    }

    /// The difference: the sum of the value and the negated `other`. `Limit` exactly if that sum
    /// is.
    final fn sub(self, other: Self) -> Result<Self, Limit>
        ensures { Answers value result (sum_fits limit (value self) (neg_ℚ (value other)))
            (value self -ℚ value other) }
    {
        let fraction = difference(Self::limit(), self.widened(), other.widened())?;
        Ok(Self::narrowed(fraction))
    }

    /// The product. `Limit` exactly if the numerator or denominator of the reduced product does not
    /// fit.
    final fn mul(self, other: Self) -> Result<Self, Limit>
        ensures { Answers value result (fits limit (value self *ℚ value other))
            (value self *ℚ value other) }
    {
        let fraction = product(Self::limit(), self.widened(), other.widened())?;
        Ok(Self::narrowed(fraction))
    }

    /// The quotient by `d`, which is not 0. `Limit` exactly if the numerator or denominator of the
    /// reduced quotient does not fit.
    final fn div(self, d: Self) -> Result<Self, Limit>
        requires { value d ≢ whole (pos 0) }
        ensures { Answers value result (fits limit (value self /ℚ value d))
            (value self /ℚ value d) }
    {
        let fraction = quotient(Self::limit(), self.widened(), d.widened())?;
        Ok(Self::narrowed(fraction))
    }

    /// The least limit is 127, and the greatest 2^127 - 1.
    ghost limit_range: { (127 ≤ limit) × (limit < 2 ^ 127) };

    /// Each value fits under the limit.
    ghost within: { (x : Self) → fits limit (value x) ≡ true };

    /// Values that mean the same number are the same.
    ghost same_value: { (x y : Self) → value x ≡ value y → x ≡ y };

    /// Each number that fits under the limit is the number of some value.
    ghost each_number: { (x : Number) → fits limit x ≡ true → (y : Self) × (value y ≡ x) };
}
