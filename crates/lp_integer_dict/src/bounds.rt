//! Whether the dictionary that stored rows mean stays within the bound if variable 0 is deferred.
ghost use Rattle.std.specs.Prelude.{◌≡◌, ℕ, ◌+◌, ◌-◌, ◌*◌, ◌<◌, ◌≤◌, ◌^◌, ◌-ℤ◌, ◌*ℤ◌, nat_abs, length, slice_get, Some, false, IsTrue, ◌↔◌};
ghost use Rattle.lp_integer_rows.specs.declared.line.Line.{Line};
ghost use Rattle.lp_integer_rows.specs.declared.line.Factors.{Factors};
ghost use Rattle.lp_integers.specs.Lines.{whole_at};
ghost use Rattle.lp_integer_rows.specs.Form.{wholes, IsLine, AreLines, AreBounded, IsPlan};
ghost use Rattle.lp_integer_dict.specs.WithinBound.{DeferredStaysWithin, DeferredStaysWithinAfter, AreFactorsWithin, IsSomeGreat};

use lp_integer_rows::{Factors, Line, magnitude_at, marked_number_at};
use lp_integers::{cross_difference, sum_within};

/// Whether `most` times `u` plus `zero` times `other` is at most a bound.
#[inline(always)]
fn fits(most: u128, u: u128, zero: u128, other: u128, bound: u128) -> bool
    requires { bound < 2 ^ 127 }
    ensures { IsTrue result ↔ (most * u + zero * other ≤ bound) }
{
    sum_within(bound, most, u, zero, other).is_some()
}

/// The magnitude of a row's integer for variable 0 after an exchange by its factors.
fn magnitude_after(line: &Line, pivot: &Line, factors: Factors) -> u128
    requires line { IsLine line.now }
    requires pivot { IsLine pivot.now }
    requires within { 1 < length (wholes line.now) }
    requires also_within { 1 < length (wholes pivot.now) }
    requires within_bound { nat_abs factors.line * line.now.most + nat_abs factors.pivot * pivot.now.most ≤ 2 ^ 127 - 1 }
    ensures value { result ≡ nat_abs (factors.line *ℤ whole_at (wholes line.now) 1 -ℤ factors.pivot *ℤ whole_at (wholes pivot.now) 1) }
    ensures small { result < 2 ^ 127 }
{
    let left = cross_difference(
        factors.line,
        marked_number_at(line, 1),
        factors.pivot,
        marked_number_at(pivot, 1),
    );
    left.unsigned_abs()
}

/// Whether the exchange of variable 0 into row `k` keeps the estimate of each row within the bound.
pub(crate) fn deferred_stays_within(lines: &[Line], k: usize, bound: u128) -> bool
    requires small { bound < 2 ^ 127 }
    requires lines { (width : ℕ) × AreLines width lines.now × (1 < width) }
    requires within { k < length lines.now }
    ensures { (p : Line) → slice_get lines.now k ≡ Some p → IsTrue result ↔ DeferredStaysWithin k p lines.now bound }
{
    let pivot = &lines[k];
    let u = magnitude_at(pivot, 1);
    for i in 0..lines.len() {
        let line = &lines[i];
        let zero = magnitude_at(line, 1);
        if i != k && !fits(line.most, u, zero, pivot.most, bound) {
            return false;
        }
    }
    pivot.most <= bound
}

/// A bound of the magnitudes of all rows after an exchange by these factors.
fn top_after(plans: &[Factors]) -> u128
    ensures { AreFactorsWithin result plans.now }
{
    let mut top = 0;
    for i in 0..plans.len() {
        top = top.max(plans[i].most);
    }
    top
}

/// Whether twice the square of the greatest magnitude after an exchange by these factors is at most
/// the bound.
fn is_small_after(plans: &[Factors], bound: u128) -> bool
    requires { bound < 2 ^ 127 }
    ensures { IsTrue result → (top : ℕ) × AreFactorsWithin top plans.now × (top * top + top * top ≤ bound) }
{
    let top = top_after(plans);
    fits(top, top, top, top, bound)
}

/// Whether after an exchange by these factors the exchange of variable 0 into the leaving
/// variable's row stays within the bound, row by row.
fn keeps_each(lines: &[Line], plans: &[Factors], place: usize, leaving: usize, bound: u128) -> bool
    requires small { bound < 2 ^ 127 }
    requires lines { (width : ℕ) × AreLines width lines.now × (1 < width) }
    requires within { (place < length lines.now) × (leaving < length lines.now) }
    requires planned { (column : ℕ) × ((p : Line) → slice_get lines.now place ≡ Some p → IsPlan bound column place lines.now p plans.now) }
    ensures { (p l : Line) (g : Factors) → slice_get lines.now place ≡ Some p → slice_get lines.now leaving ≡ Some l →
        slice_get plans.now leaving ≡ Some g → IsTrue result ↔ DeferredStaysWithinAfter leaving p l g lines.now plans.now bound }
{
    let pivot = &lines[place];
    let of_leaving = plans[leaving];
    let u = magnitude_after(&lines[leaving], pivot, of_leaving);
    for i in 0..lines.len() {
        let factors = plans[i];
        let zero = magnitude_after(&lines[i], pivot, factors);
        if i != leaving && !fits(factors.most, u, zero, of_leaving.most, bound) {
            return false;
        }
    }
    true
}

/// Whether after an exchange by these factors the exchange of variable 0 into the row `leaving`
/// keeps each estimate within the bound: first by one magnitude for all rows, then row by row.
pub(crate) fn deferred_stays_within_after(
    lines: &[Line],
    plans: &[Factors],
    place: usize,
    leaving: usize,
    bound: u128,
) -> bool
    requires small { bound < 2 ^ 127 }
    requires lines { (width : ℕ) × AreLines width lines.now × (1 < width) }
    requires within { (place < length lines.now) × (leaving < length lines.now) }
    requires planned { (column : ℕ) × ((p : Line) → slice_get lines.now place ≡ Some p → IsPlan bound column place lines.now p plans.now) }
    ensures { (p l : Line) (g : Factors) → slice_get lines.now place ≡ Some p → slice_get lines.now leaving ≡ Some l →
        slice_get plans.now leaving ≡ Some g → IsTrue result ↔ DeferredStaysWithinAfter leaving p l g lines.now plans.now bound }
{
    if is_small_after(plans, bound) {
        return true;
    }
    keeps_each(lines, plans, place, leaving, bound)
}

/// Whether the stored greatest magnitude of each of these rows is at most the bound.
pub(crate) fn all_within(lines: &[Line], bound: u128) -> bool
    ensures within { IsTrue result → AreBounded bound lines.now }
    ensures great { result ≡ false → IsSomeGreat bound lines.now }
{
    for i in 0..lines.len() {
        if lines[i].most > bound {
            return false;
        }
    }
    true
}
