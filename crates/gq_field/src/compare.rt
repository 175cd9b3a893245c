//! How two fractions compare, without a product that could overflow.
ghost use Rattle.std.specs.Prelude.{◌≡◌, ◌<◌, ◌*◌};
ghost use Rattle.std.specs.Ordering.{nat_cmp};
ghost use Rattle.gq_number.specs.Order.{number_cmp};
ghost use Rattle.gq_field.specs.Values.{fraction_value};

use crate::divisor::WORD;
use crate::fraction::Fraction;
use std::cmp::Ordering;

/// How a/b and c/d compare, of any size. If their integer parts are equal, the remainders decide:
/// two proper fractions compare as the reverse of their reciprocals.
#[inline(never)]
fn compare_by_turns(a: u128, b: u128, c: u128, d: u128) -> Ordering
    requires first { 0 < b }
    requires second { 0 < d }
    ensures { result ≡ nat_cmp (a * d) (c * b) }
{
    let mut left = (a, b);
    let mut right = (c, d);
    'turns: loop {
        let whole = left.0 / left.1;
        let other_whole = right.0 / right.1;
        if whole != other_whole {
            return whole.cmp(&other_whole);
        }
        let rest = left.0 % left.1;
        let other_rest = right.0 % right.1;
        if rest == 0 || other_rest == 0 {
            return rest.cmp(&other_rest);
        }
        let turned = (right.1, other_rest);
        right = (left.1, rest);
        left = turned;
    }
}

/// How the fractions a/b and c/d compare. Neither has to be reduced, and no product overflows.
#[inline(always)]
pub fn compare_magnitudes(a: u128, b: u128, c: u128, d: u128) -> Ordering
    requires first { 0 < b }
    requires second { 0 < d }
    ensures { result ≡ nat_cmp (a * d) (c * b) }
{
    if b == d {
        a.cmp(&c)
    } else if a <= WORD && b <= WORD && c <= WORD && d <= WORD {
        let left = a as u64 as u128 * d as u64 as u128;
        let right = c as u64 as u128 * b as u64 as u128;
        left.cmp(&right)
    } else {
        compare_by_turns(a, b, c, d)
    }
}

/// How two fractions compare as numbers.
#[inline(always)]
pub fn compare(x: Fraction, y: Fraction) -> Ordering
    ensures { result ≡ number_cmp (fraction_value x) (fraction_value y) }
{
    match (x.is_negative(), y.is_negative()) {
        (false, false) => compare_magnitudes(
            x.magnitude,
            x.denominator,
            y.magnitude,
            y.denominator,
        ),
        (false, true) => Ordering::Greater,
        (true, false) => Ordering::Less,
        (true, true) => compare_magnitudes(y.magnitude, y.denominator, x.magnitude, x.denominator),
    }
}
