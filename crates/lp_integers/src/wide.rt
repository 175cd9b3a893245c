//! The loops over integers of two words each.
ghost use Rattle.std.specs.Prelude.{◌≡◌, ◌⊎◌, ℕ, ◌+◌, ◌*◌, ◌<◌, ◌≤◌, ◌^◌, ◌-◌, pos, ◌-ℤ◌, ◌*ℤ◌, neg_ℤ, nat_abs, length, IfOk};
ghost use Rattle.std.specs.Int.{◌∣◌};
ghost use Rattle.lp_integers.specs.Lines.{whole_at, AreWithin, AreDivided, CombinationsStayWithin, AreLessened, AreOver, AreNegated};

use crate::narrow::spread;
use std::alloc::{AllocError, Global};

/// The product of two whole numbers.
#[inline(always)]
fn product(a: i128, n: i128) -> i128
    requires { nat_abs (a *ℤ n) < 2 ^ 127 }
    ensures { result ≡ a *ℤ n }
{
    a * n
}

/// The difference of two whole numbers.
#[inline(always)]
fn difference(a: i128, b: i128) -> i128
    requires { nat_abs (a -ℤ b) < 2 ^ 127 }
    ensures { result ≡ a -ℤ b }
{
    a - b
}

/// `a` times `n` less `b` times `x`.
#[inline(always)]
pub fn cross_difference(a: i128, n: i128, b: i128, x: i128) -> i128
    requires { nat_abs a * nat_abs n + nat_abs b * nat_abs x < 2 ^ 127 }
    ensures { result ≡ a *ℤ n -ℤ b *ℤ x }
{
    let first = product(a, n);
    let second = product(b, x);
    difference(first, second)
}

/// The greater of a magnitude and that of a number.
#[inline(always)]
fn greater(most: u128, n: i128) -> u128
    ensures above { (most ≤ result) × (nat_abs n ≤ result) }
    ensures one { (result ≡ most) ⊎ (result ≡ nat_abs n) }
{
    let magnitude = n.unsigned_abs();
    if magnitude > most { magnitude } else { most }
}

/// Replaces each number with `a` times it less `b` times the other list's number, and answers a
/// bound of the magnitudes of the results.
pub(crate) fn lessen(numbers: &mut [i128], a: i128, b: i128, others: &[i128]) -> u128
    requires sized { length others.now ≡ length numbers.old }
    requires within_bound { CombinationsStayWithin (2 ^ 127 - 1) a b numbers.old others.now }
    ensures { AreLessened a b numbers.old others.now numbers.new result }
{
    let mut most = 0;
    for c in 0..numbers.len() {
        let first = product(a, numbers[c]);
        let second = product(b, others[c]);
        let left = difference(first, second);
        numbers[c] = left;
        most = greater(most, left);
    }
    most
}

/// The quotient of a multiple of a divisor. 0, which most integers of a row are, is not divided.
#[inline(always)]
fn quotient(n: i128, divisor: u128) -> i128
    requires positive { 0 < divisor }
    requires small { divisor < 2 ^ 127 }
    requires divides { divisor ∣ nat_abs n }
    ensures { result *ℤ pos divisor ≡ n }
{
    if n == 0 {
        return 0;
    }
    n / divisor as i128
}

/// Divides each number by a common divisor.
pub(crate) fn divide(numbers: &mut [i128], divisor: u128)
    requires positive { 0 < divisor }
    requires small { divisor < 2 ^ 127 }
    requires divides { AreDivided numbers.old divisor }
    ensures { AreOver divisor numbers.old numbers.new }
{
    for c in 0..numbers.len() {
        let over = quotient(numbers[c], divisor);
        numbers[c] = over;
    }
}

/// Negates each number.
pub(crate) fn negate(numbers: &mut [i128])
    requires { (c : ℕ) → nat_abs (whole_at numbers.old c) < 2 ^ 127 }
    ensures { AreNegated numbers.old numbers.new }
{
    for c in 0..numbers.len() {
        let negated = difference(0, numbers[c]);
        numbers[c] = negated;
    }
}

/// The greatest magnitude of the numbers, or `least` if `least` is greater.
pub fn greatest(numbers: &[i128], least: u128) -> u128
    ensures within { AreWithin numbers.now result }
    ensures above { least ≤ result }
    ensures small { (m : ℕ) → AreWithin numbers.now m → least ≤ m → result ≤ m }
{
    let mut most = least;
    for n in numbers {
        most = greater(most, *n);
    }
    most
}

/// The same numbers in two words each.
pub(crate) fn widened(alloc: Global, numbers: &[i64]) -> Result<Vec<i128>, AllocError>
    ensures { IfOk result (λ list. list.items ≡ numbers.now) }
{
    let mut list = Vec::with_capacity(alloc, numbers.len())?;
    for n in numbers {
        list.push(*n as i128)?;
    }
    Ok(list)
}

/// The same numbers in one word each.
pub(crate) fn narrowed(alloc: Global, numbers: &[i128]) -> Result<Vec<i64>, AllocError>
    requires { AreWithin numbers.now (2 ^ 63 - 1) }
    ensures { IfOk result (λ list. list.items ≡ numbers.now) }
{
    let mut list = Vec::with_capacity(alloc, spread(numbers.len()))?;
    for n in numbers {
        list.push(*n as i64)?;
    }
    Ok(list)
}
