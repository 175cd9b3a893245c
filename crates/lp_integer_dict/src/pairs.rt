//! Whether each step of an exchange fits, by an estimate for two rows at a time.
ghost use Rattle.std.specs.Prelude.{◌≡◌, ◌≢◌, ℕ, ◌<◌, ◌≤◌, ◌^◌, pos, ◌*ℤ◌, nat_abs, length, false, IsTrue, IfSome};
ghost use Rattle.std.specs.Int.{◌∣◌};
ghost use Rattle.lp_integer_rows.specs.Form.{AreBounded};
ghost use Rattle.lp_integer_dict.specs.WithinBound.{AreWhole, row_most, line_denominator, row_number};
ghost use Rattle.lp_integer_dict.specs.Pairs.{IsPairWithin, PairExceeds, IsPairFit, ArePairsFit, IsSomePairCrowded, IsMeasured, IsLowestRow, IsRoomy, rows_top};

use crate::read::read;
use lp_integer_rows::{Line, magnitude_at, reduced_pair, within_bound};
use lp_integers::{gcd, sum_within};

/// A row in an exchange: its integer for the entering variable, and a bound of the magnitudes of
/// its integers and denominator.
#[derive(Clone, Copy)]
pub(crate) struct Measure {
    pub(crate) number: i128,
    pub(crate) most: u128,
}

/// A bound of the magnitudes of a row.
#[inline(always)]
fn most_of(lines: &[Line], deferred: Option<usize>, place: usize) -> u128
    requires lines { (width bound : ℕ) × AreWhole lines.now deferred width bound }
    requires within { place < length lines.now }
    ensures { result ≡ row_most deferred lines.now place }
{
    let line = &lines[place];
    let Some(k) = deferred else {
        return line.most;
    };
    let pivot = &lines[k];
    if place == k {
        return pivot.most;
    }
    line.most * magnitude_at(pivot, 1) + magnitude_at(line, 1) * pivot.most
}

/// The measure of a row at a column.
fn measured(lines: &[Line], deferred: Option<usize>, place: usize, column: usize) -> Measure
    requires lines { (width bound : ℕ) × AreWhole lines.now deferred width bound × (column < width) }
    requires within { place < length lines.now }
    ensures { IsMeasured lines.now deferred place column result }
{
    let number = read(lines, deferred, place, column);
    Measure {
        number: number.numerator,
        most: most_of(lines, deferred, place),
    }
}

/// The greatest common divisor of the integers and the denominator of a row with `width` columns.
fn divisor_of_row(lines: &[Line], deferred: Option<usize>, place: usize, width: usize) -> u128
    requires lines { (bound : ℕ) × AreWhole lines.now deferred width bound }
    requires within { place < length lines.now }
    ensures positive { 0 < result }
    ensures denominator { result ∣ line_denominator deferred lines.now place }
    ensures numbers { (c : ℕ) → c < width → result ∣ nat_abs (row_number deferred lines.now place c) }
    ensures greatest { (d : ℕ) → d ∣ line_denominator deferred lines.now place →
        ((c : ℕ) → c < width → d ∣ nat_abs (row_number deferred lines.now place c)) → d ∣ result }
{
    let mut divisor = read(lines, deferred, place, 0).denominator;
    for c in 0..width {
        let number = read(lines, deferred, place, c).numerator;
        divisor = gcd(number.unsigned_abs(), divisor);
    }
    divisor
}

/// The greatest magnitude of the integers and the denominator of a row with `width` columns.
fn most_of_row(lines: &[Line], deferred: Option<usize>, place: usize, width: usize) -> u128
    requires lines { (bound : ℕ) × AreWhole lines.now deferred width bound }
    requires within { place < length lines.now }
    ensures denominator { line_denominator deferred lines.now place ≤ result }
    ensures numbers { (c : ℕ) → c < width → nat_abs (row_number deferred lines.now place c) ≤ result }
    ensures least { (b : ℕ) → line_denominator deferred lines.now place ≤ b →
        ((c : ℕ) → c < width → nat_abs (row_number deferred lines.now place c) ≤ b) → result ≤ b }
{
    let mut most = read(lines, deferred, place, 0).denominator;
    for c in 0..width {
        let number = read(lines, deferred, place, c).numerator;
        most = most.max(number.unsigned_abs());
    }
    most
}

/// An integer divided by a divisor of it.
fn quotient(n: i128, divisor: u128) -> i128
    requires positive { 0 < divisor }
    requires small { divisor < 2 ^ 127 }
    requires divides { divisor ∣ nat_abs n }
    ensures { result *ℤ pos divisor ≡ n }
{
    n / divisor as i128
}

/// The measure of a row at a column in lowest terms.
fn measured_lowest(lines: &[Line], deferred: Option<usize>, place: usize, column: usize) -> Measure
    requires lines { (width bound : ℕ) × AreWhole lines.now deferred width bound × (column < width) }
    requires within { place < length lines.now }
    ensures { IsLowestRow lines.now deferred place column result }
{
    let width = lines[place].numbers.len();
    let divisor = divisor_of_row(lines, deferred, place, width);
    let most = most_of_row(lines, deferred, place, width);
    let number = read(lines, deferred, place, column).numerator;
    Measure {
        number: quotient(number, divisor),
        most: most / divisor,
    }
}

/// Whether two rows together stay within the bound: first as they are, then without a common factor
/// of their integers.
fn is_pair_within(row: Measure, leaving: Measure, bound: u128) -> bool
    requires { bound < 2 ^ 127 }
    ensures fits { IsTrue result → IsPairWithin row.number leaving.number row.most leaving.most bound }
    ensures none { result ≡ false → PairExceeds row.number leaving.number row.most leaving.most bound }
{
    if within_bound(leaving.number, row.most, row.number, leaving.most, bound).is_some() {
        return true;
    }
    if leaving.number <= 0 {
        return false;
    }
    let (a, b) = reduced_pair(row.number, leaving.number);
    within_bound(a, row.most, b, leaving.most, bound).is_some()
}

/// A bound of the magnitudes of all stored rows.
fn top_of(lines: &[Line]) -> u128
    ensures { AreBounded result lines.now }
{
    let mut top = 0;
    for i in 0..lines.len() {
        top = top.max(lines[i].most);
    }
    top
}

/// A bound of the magnitudes of all rows, by one of all stored rows. None if it exceeds `bound`.
fn top_of_rows(top: u128, deferred: Option<usize>, bound: u128) -> Option<u128>
    requires { bound < 2 ^ 127 }
    ensures { IfSome result (λ rows. rows ≡ rows_top deferred top) }
{
    match deferred {
        Some(_k) => sum_within(bound, top, top, top, top),
        None => Some(top),
    }
}

/// Whether all rows together stay within the bound, by the greatest magnitude of the stored rows.
/// It reads no numbers.
fn lines_are_roomy(lines: &[Line], deferred: Option<usize>, bound: u128) -> bool
    requires lines { (width most : ℕ) × AreWhole lines.now deferred width most }
    requires small { bound < 2 ^ 127 }
    ensures { IsTrue result → IsRoomy lines.now deferred bound }
{
    let Some(top) = top_of_rows(top_of(lines), deferred, bound) else {
        return false;
    };
    sum_within(bound, top, top, top, top).is_some()
}

/// Whether all rows together stay within the bound: twice the square of their greatest magnitude is
/// at most the bound.
fn rows_are_roomy(lines: &[Line], deferred: Option<usize>, bound: u128) -> bool
    requires lines { (width most : ℕ) × AreWhole lines.now deferred width most }
    requires small { bound < 2 ^ 127 }
    ensures { IsTrue result → IsRoomy lines.now deferred bound }
{
    let mut top = 0;
    for i in 0..lines.len() {
        top = top.max(most_of(lines, deferred, i));
    }
    sum_within(bound, top, top, top, top).is_some()
}

/// Whether all rows together stay within the bound: first by the stored rows, then row by row.
fn is_roomy(lines: &[Line], deferred: Option<usize>, bound: u128) -> bool
    requires lines { (width most : ℕ) × AreWhole lines.now deferred width most }
    requires small { bound < 2 ^ 127 }
    ensures { IsTrue result → IsRoomy lines.now deferred bound }
{
    if lines_are_roomy(lines, deferred, bound) {
        return true;
    }
    rows_are_roomy(lines, deferred, bound)
}

/// Whether a row, together with that of the leaving variable, stays within the bound: first by the
/// measures of both as stored, then with both in lowest terms.
fn pair_fits(
    lines: &[Line],
    deferred: Option<usize>,
    place: usize,
    leaving: usize,
    of_leaving: Measure,
    column: usize,
    bound: u128,
) -> bool
    requires lines { (width : ℕ) × AreWhole lines.now deferred width bound × (column < width) }
    requires within { (place < length lines.now) × (leaving < length lines.now) }
    requires other { place ≢ leaving }
    requires measured { IsMeasured lines.now deferred leaving column of_leaving }
    ensures fits { IsTrue result → IsPairFit lines.now deferred leaving column bound place }
    ensures none { result ≡ false → IsSomePairCrowded lines.now deferred leaving column bound }
{
    let row = measured(lines, deferred, place, column);
    if is_pair_within(row, of_leaving, bound) {
        return true;
    }
    let lowest = measured_lowest(lines, deferred, place, column);
    let lowest_leaving = measured_lowest(lines, deferred, leaving, column);
    is_pair_within(lowest, lowest_leaving, bound)
}

/// Whether, for each row and that of the leaving variable, the estimate of an exchange at `column`
/// is at most the bound.
pub(crate) fn pairs_fit(
    lines: &[Line],
    deferred: Option<usize>,
    leaving: usize,
    column: usize,
    bound: u128,
) -> bool
    requires lines { (width : ℕ) × AreWhole lines.now deferred width bound × (column < width) }
    requires within { leaving < length lines.now }
    ensures fits { IsTrue result → ArePairsFit lines.now deferred leaving column bound (length lines.now) }
    ensures none { result ≡ false → IsSomePairCrowded lines.now deferred leaving column bound }
{
    if is_roomy(lines, deferred, bound) {
        return true;
    }
    let of_leaving = measured(lines, deferred, leaving, column);
    for i in 0..lines.len() {
        if i != leaving && !pair_fits(lines, deferred, i, leaving, of_leaving, column, bound) {
            return false;
        }
    }
    true
}
