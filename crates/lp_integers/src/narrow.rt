//! The loops over integers of one word each.
ghost use Rattle.std.specs.Prelude.{◌≡◌, ◌⊎◌, ℕ, ◌+◌, ◌*◌, ◌<◌, ◌≤◌, ◌^◌, ◌-◌, pos, ◌-ℤ◌, ◌*ℤ◌, neg_ℤ, nat_abs, length, IfOk};
ghost use Rattle.std.specs.Int.{◌∣◌};
ghost use Rattle.lp_integers.specs.Lines.{whole_at, AreWithin, AreDivided, CombinationsStayWithin, AreLessened, ArePlaces, AreLessenedFrom, AreOver, AreNegated};
ghost use Rattle.lp_integers.specs.Words.{IsFirstAbove, IsGreatestAbove};

use crate::divisor::Divisor;
use std::alloc::{AllocError, Global};

/// The product of two whole numbers.
#[inline(always)]
pub(crate) fn product(a: i64, n: i64) -> i64
    requires { nat_abs (a *ℤ n) < 2 ^ 63 }
    ensures { result ≡ a *ℤ n }
{
    a * n
}

/// The difference of two whole numbers.
#[inline(always)]
pub(crate) fn difference(a: i64, b: i64) -> i64
    requires { nat_abs (a -ℤ b) < 2 ^ 63 }
    ensures { result ≡ a -ℤ b }
{
    a - b
}

/// The greater of a magnitude and that of a number.
#[inline(always)]
pub(crate) fn greater(most: u64, n: i64) -> u64
    ensures above { (most ≤ result) × (nat_abs n ≤ result) }
    ensures one { (result ≡ most) ⊎ (result ≡ nat_abs n) }
{
    let magnitude = n.unsigned_abs();
    if magnitude > most { magnitude } else { most }
}

/// The capacity of a list of `len` words. Lists of one length then lie an odd number of cache lines
/// apart, which spreads the numbers at one place of many lists over the cache.
pub(crate) fn spread(len: usize) -> usize {
    let lines = (len / 8).saturating_add(2) | 1;
    lines.saturating_mul(8).saturating_sub(2)
}

/// A copy of the numbers. The error is out of memory.
pub(crate) fn copied(alloc: Global, numbers: &[i64]) -> Result<Vec<i64>, AllocError>
    ensures { IfOk result (λ list. list.items ≡ numbers.now) }
{
    let mut list = Vec::with_capacity(alloc, spread(numbers.len()))?;
    list.extend_from_slice(numbers)?;
    Ok(list)
}

/// A list of `count` zeros of one word each. The error is out of memory.
pub fn zero_words(alloc: Global, count: usize) -> Result<Vec<i64>, AllocError>
    ensures sized { IfOk result (λ list. length list.items ≡ count) }
    ensures zeros { IfOk result (λ list. (c : ℕ) → whole_at list.items c ≡ pos 0) }
{
    let mut list = Vec::with_capacity(alloc, spread(count))?;
    list.resize(count, 0)?;
    Ok(list)
}

/// The greatest magnitude of the numbers; 0 without numbers.
pub(crate) fn greatest(numbers: &[i64]) -> u64
    ensures within { AreWithin numbers.now result }
    ensures small { (m : ℕ) → AreWithin numbers.now m → result ≤ m }
{
    let mut most = 0;
    for n in numbers {
        most = greater(most, *n);
    }
    most
}

/// The distinct places of the numbers other than 0. The error is out of memory.
pub(crate) fn places(alloc: Global, numbers: &[i64]) -> Result<Vec<usize>, AllocError>
    ensures { IfOk result (λ places. ArePlaces numbers.now (length numbers.now) places.items) }
{
    let mut places = Vec::new(alloc);
    for place in 0..numbers.len() {
        if numbers[place] != 0 {
            places.push(place)?;
        }
    }
    Ok(places)
}

/// The least place from `start` on whose number is above 0; `None` if there is none.
pub(crate) fn first_above(numbers: &[i64], start: usize) -> Option<usize>
    ensures { IsFirstAbove numbers.now start result }
{
    for place in start..numbers.len() {
        if numbers[place] > 0 {
            return Some(place);
        }
    }
    None
}

/// The place from `start` on of the greatest number, if that is above 0, and of equal ones the
/// least; `None` if no number from there on is above 0.
pub(crate) fn greatest_above(numbers: &[i64], start: usize) -> Option<usize>
    ensures { IsGreatestAbove numbers.now start result }
{
    let mut best = None;
    let mut most = 0;
    for place in start..numbers.len() {
        let number = numbers[place];
        if number > most {
            most = number;
            best = Some(place);
        }
    }
    best
}

/// Replaces each number with `a` times it less `b` times the other list's number, and answers a
/// bound of the magnitudes of the results.
pub(crate) fn lessen(numbers: &mut [i64], a: i64, b: i64, others: &[i64]) -> u64
    requires sized { length others.now ≡ length numbers.old }
    requires within_bound { CombinationsStayWithin (2 ^ 63 - 1) a b numbers.old others.now }
    ensures { AreLessened a b numbers.old others.now numbers.new result }
{
    let mut most = 0;
    for c in 0..numbers.len() {
        let first = product(a, numbers[c]);
        let second = product(b, others[c]);
        let left = difference(first, second);
        numbers[c] = left;
        most = greater(most, left);
    }
    most
}

/// Subtracts `b` times the other list's number from each number, at `places`, the columns at which
/// the other list is not 0. Answers a bound of the magnitudes of all numbers, which is at least
/// `least`.
pub(crate) fn lessen_at(
    numbers: &mut [i64],
    b: i64,
    others: &[i64],
    places: &[usize],
    least: u64,
) -> u64
    requires sized { length others.now ≡ length numbers.old }
    requires places { ArePlaces others.now (length others.now) places.now }
    requires within { AreWithin numbers.old least }
    requires within_bound { CombinationsStayWithin (2 ^ 63 - 1) (pos 1) b numbers.old others.now }
    ensures { AreLessenedFrom least b numbers.old others.now numbers.new result }
{
    let mut most = least;
    for i in 0..places.len() {
        let c = places[i];
        let second = product(b, others[c]);
        let left = difference(numbers[c], second);
        numbers[c] = left;
        most = greater(most, left);
    }
    most
}

/// The greatest common divisor of all numbers and a denominator.
pub(crate) fn divisor_of(numbers: &[i64], denominator: u64) -> u64
    requires { 0 < denominator }
    ensures positive { 0 < result }
    ensures denominator { result ∣ denominator }
    ensures numbers { AreDivided numbers.now result }
    ensures greatest { (k : ℕ) → k ∣ denominator → AreDivided numbers.now k → k ∣ result }
{
    let mut divisor = Divisor::of(denominator);
    for n in numbers {
        if divisor.value == 1 {
            return 1;
        }
        divisor = divisor.shared_with(*n);
    }
    divisor.value
}

/// Divides each number by a common divisor.
pub(crate) fn divide(numbers: &mut [i64], divisor: u64)
    requires positive { 0 < divisor }
    requires small { divisor < 2 ^ 63 }
    requires divides { AreDivided numbers.old divisor }
    ensures { AreOver divisor numbers.old numbers.new }
{
    let quick = Divisor::of(divisor);
    for c in 0..numbers.len() {
        let over = quick.quotient(numbers[c]);
        numbers[c] = over;
    }
}

/// Negates each number.
pub(crate) fn negate(numbers: &mut [i64])
    requires { (c : ℕ) → nat_abs (whole_at numbers.old c) < 2 ^ 63 }
    ensures { AreNegated numbers.old numbers.new }
{
    for c in 0..numbers.len() {
        let negated = difference(0, numbers[c]);
        numbers[c] = negated;
    }
}
