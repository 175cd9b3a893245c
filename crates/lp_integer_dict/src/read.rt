//! The numbers of the dictionary that stored rows mean.
ghost use Rattle.std.specs.Prelude.{◌≡◌, ℕ, ◌+◌, ◌*◌, ◌<◌, ◌≤◌, ◌^◌, pos, ◌<ℤ◌, ◌-ℤ◌, ◌*ℤ◌, nat_abs, length};
ghost use Rattle.gq_number.specs.Number.{ratio};
ghost use Rattle.lp_integers.specs.Lines.{whole_at};
ghost use Rattle.lp_integer_rows.specs.Form.{wholes, IsLine, lines_number, numbers_above};
ghost use Rattle.lp_integer_dict.specs.WithinBound.{AreWhole, RowsStayWithin, IsNumberAbove, line_denominator, row_number};

use lp_integer_rows::{Line, magnitude_at, marked_number_at, number_at};
use lp_integers::cross_difference;

/// A rational number: an integer over a denominator above 0. The two may have a common factor.
#[derive(Clone, Copy)]
pub struct Fraction {
    /// The numerator of the number; it may have a common factor with the denominator.
    pub numerator: i128,
    /// The denominator of the number, above 0; it may have a common factor with the numerator.
    pub denominator: u128,
}

/// The number of a stored row at a column.
#[inline(always)]
fn read_own(line: &Line, column: usize) -> Fraction
    requires line { IsLine line.now }
    requires within { column < length (wholes line.now) }
    ensures numerator { result.numerator ≡ whole_at (wholes line.now) column }
    ensures denominator { result.denominator ≡ line.now.denominator }
{
    Fraction {
        numerator: marked_number_at(line, column),
        denominator: line.denominator,
    }
}

/// The number at a column of the row in which variable 0 is deferred.
#[inline(always)]
fn read_pivot(pivot: &Line, column: usize) -> Fraction
    requires line { IsLine pivot.now }
    requires within { (column < length (wholes pivot.now)) × (1 < length (wholes pivot.now)) }
    ensures numerator { result.numerator ≡ whole_at (wholes pivot.now) column }
    ensures denominator { result.denominator ≡ nat_abs (whole_at (wholes pivot.now) 1) }
{
    Fraction {
        numerator: number_at(pivot, column),
        denominator: magnitude_at(pivot, 1),
    }
}

/// The integer of a row at a column, in the dictionary that the exchange of variable 0 into the
/// pivot row makes; `above` is that of the pivot row.
#[inline(always)]
fn number_above(line: &Line, pivot: &Line, column: usize, above: i128) -> i128
    requires line { IsLine line.now }
    requires pivot { IsLine pivot.now }
    requires within { column < length (wholes line.now) }
    requires sized { length (wholes pivot.now) ≡ length (wholes line.now) }
    requires zero { 1 < length (wholes line.now) }
    requires within_bound { line.now.most * nat_abs (whole_at (wholes pivot.now) 1) + nat_abs (whole_at (wholes line.now) 1) * pivot.now.most < 2 ^ 127 }
    requires above { above ≡ whole_at (wholes pivot.now) column }
    ensures { result ≡ whole_at (wholes pivot.now) 1 *ℤ whole_at (wholes line.now) column -ℤ whole_at
        (wholes line.now) 1 *ℤ whole_at (wholes pivot.now) column }
{
    cross_difference(
        marked_number_at(pivot, 1),
        marked_number_at(line, column),
        marked_number_at(line, 1),
        above,
    )
}

/// The number of a row at a column, in the dictionary that the exchange of variable 0 into the
/// pivot row makes; `above` is the integer of the pivot row.
#[inline(always)]
fn read_above(line: &Line, pivot: &Line, column: usize, above: i128) -> Fraction
    requires line { IsLine line.now }
    requires pivot { IsLine pivot.now }
    requires within { column < length (wholes line.now) }
    requires sized { length (wholes pivot.now) ≡ length (wholes line.now) }
    requires zero { 1 < length (wholes line.now) }
    requires within_bound { line.now.most * nat_abs (whole_at (wholes pivot.now) 1) + nat_abs (whole_at (wholes line.now) 1) * pivot.now.most < 2 ^ 127 }
    requires above { above ≡ whole_at (wholes pivot.now) column }
    ensures numerator { result.numerator ≡ whole_at (wholes pivot.now) 1 *ℤ whole_at (wholes line.now) column -ℤ whole_at
        (wholes line.now) 1 *ℤ whole_at (wholes pivot.now) column }
    ensures denominator { result.denominator ≡ nat_abs (whole_at (wholes pivot.now) 1) * line.now.denominator }
{
    let numerator = number_above(line, pivot, column, above);
    let denominator = magnitude_at(pivot, 1) * line.denominator;
    Fraction {
        numerator,
        denominator,
    }
}

/// The integer at `column` of the row in which variable 0 is deferred; 0 if it is in none.
#[inline(always)]
pub(crate) fn above_at(lines: &[Line], deferred: Option<usize>, column: usize) -> i128
    requires { (width bound : ℕ) × AreWhole lines.now deferred width bound × (column < width) }
    ensures { IsNumberAbove deferred lines.now column result }
{
    match deferred {
        Some(k) => marked_number_at(&lines[k], column),
        None => 0,
    }
}

/// The number of the row at `place`, or of the objective, which follows the rows, at `column`.
/// `deferred` is the row in which variable 0 is deferred, and `above` its integer at `column`.
#[inline(always)]
pub(crate) fn read_below(
    lines: &[Line],
    deferred: Option<usize>,
    place: usize,
    column: usize,
    above: i128,
) -> Fraction
    requires lines { (width bound : ℕ) × AreWhole lines.now deferred width bound × (column < width) }
    requires within { place < length lines.now }
    requires above { IsNumberAbove deferred lines.now column above }
    ensures positive { 0 < result.denominator }
    ensures number { ratio result.numerator result.denominator ≡ numbers_above deferred (lines_number lines.now) place column }
    ensures numerator { result.numerator ≡ row_number deferred lines.now place column }
    ensures shared { result.denominator ≡ line_denominator deferred lines.now place }
    ensures within { (bound : ℕ) → RowsStayWithin deferred lines.now bound → (nat_abs result.numerator ≤ bound) × (result.denominator ≤ bound) }
{
    let line = &lines[place];
    let Some(k) = deferred else {
        return read_own(line, column);
    };
    let pivot = &lines[k];
    if place == k {
        return read_pivot(pivot, column);
    }
    read_above(line, pivot, column, above)
}

/// The number of the row at `place`, or of the objective, which follows the rows, at `column`.
/// `deferred` is the row in which variable 0 is deferred.
#[inline(always)]
pub(crate) fn read(lines: &[Line], deferred: Option<usize>, place: usize, column: usize) -> Fraction
    requires lines { (width bound : ℕ) × AreWhole lines.now deferred width bound × (column < width) }
    requires within { place < length lines.now }
    ensures positive { 0 < result.denominator }
    ensures number { ratio result.numerator result.denominator ≡ numbers_above deferred (lines_number lines.now) place column }
    ensures numerator { result.numerator ≡ row_number deferred lines.now place column }
    ensures shared { result.denominator ≡ line_denominator deferred lines.now place }
    ensures within { (bound : ℕ) → RowsStayWithin deferred lines.now bound → (nat_abs result.numerator ≤ bound) × (result.denominator ≤ bound) }
{
    let above = above_at(lines, deferred, column);
    read_below(lines, deferred, place, column, above)
}
