//! The comparison of two ratios, without a product that could overflow.
ghost use Rattle.std.specs.Prelude.{◌≡◌, ◌<◌, ◌*◌, pos, ◌*ℤ◌};
ghost use Rattle.std.specs.Ordering.{nat_cmp, int_cmp};

use crate::common::WORD;
use std::cmp::Ordering;

/// How a/b and c/d compare, of any size. If their integer parts are equal, the remainders decide:
/// two proper fractions compare as the reverse of their reciprocals.
#[inline(never)]
fn compare_by_turns(a: u128, b: u128, c: u128, d: u128) -> Ordering
    requires first { 0 < b }
    requires second { 0 < d }
    ensures { result ≡ nat_cmp (a * d) (c * b) }
{
    let mut left = (a, b);
    let mut right = (c, d);
    'turns: loop {
        let whole = left.0 / left.1;
        let other_whole = right.0 / right.1;
        if whole != other_whole {
            return whole.cmp(&other_whole);
        }
        let rest = left.0 % left.1;
        let other_rest = right.0 % right.1;
        if rest == 0 || other_rest == 0 {
            return rest.cmp(&other_rest);
        }
        let turned = (right.1, other_rest);
        right = (left.1, rest);
        left = turned;
    }
}

/// How a/b and c/d compare. Words are multiplied crosswise.
#[inline(always)]
fn compare_magnitudes(a: u128, b: u128, c: u128, d: u128) -> Ordering
    requires first { 0 < b }
    requires second { 0 < d }
    ensures { result ≡ nat_cmp (a * d) (c * b) }
{
    if a <= WORD && b <= WORD && c <= WORD && d <= WORD {
        let left = a as u64 as u128 * d as u64 as u128;
        let right = c as u64 as u128 * b as u64 as u128;
        left.cmp(&right)
    } else {
        compare_by_turns(a, b, c, d)
    }
}

/// How the quotient `r` / `a` compares with the quotient `s` / `b`.
#[inline(always)]
pub fn compare_ratios(r: i128, a: u128, s: i128, b: u128) -> Ordering
    requires first { 0 < a }
    requires second { 0 < b }
    ensures { result ≡ int_cmp (r *ℤ pos b) (s *ℤ pos a) }
{
    let left = r.unsigned_abs();
    let right = s.unsigned_abs();
    if r < 0 {
        if s < 0 {
            compare_magnitudes(right, b, left, a)
        } else {
            Ordering::Less
        }
    } else if s < 0 {
        Ordering::Greater
    } else {
        compare_magnitudes(left, a, right, b)
    }
}
