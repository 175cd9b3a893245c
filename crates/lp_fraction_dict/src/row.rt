//! The rows of a dictionary: entries that are not 0, by ascending column.
ghost use Rattle.std.specs.Prelude.{◌≡◌, ◌≢◌, ◌<◌, ℕ, pos, [], length, slice_index_or, OnOk};
ghost use Rattle.gq_number.specs.Number.{whole};
ghost use Rattle.lp_fraction_dict.specs.Rows.{IsRow, number_in, IsNextColumn, SplitsAt, Lessens, PushesUnlessZero, OnRow, IsLessened, IsFirstMisfit, IsDivided, IsFirstUndivided};
ghost use Rattle.lp_fraction_dict.specs.Lines.{entries_of_rows};

use crate::fault::{Part, RowFault};
use gq_field::ExactField;
use std::alloc::{AllocError, Global};
use std::cmp::Ordering;

/// An entry of a row: the constant in column 0, or the coefficient of variable v in column v + 1.
#[derive(Clone, Copy)]
pub struct Entry<F> {
    /// The column: 0 for the constant, v + 1 for variable v.
    pub column: u32,
    /// The constant or coefficient in this column; it is not 0.
    pub number: F,
}

/// The number of a row at a column, found by bisection; 0 if no entry has that column.
pub(crate) fn number_at<F: ExactField>(row: &[Entry<F>], column: u32) -> F
    requires { (high : ℕ) × IsRow F.value 0 high row.now }
    ensures { F.value result ≡ number_in F.value row.now column }
{
    let mut rest = row;
    loop {
        let (prefix, back) = rest.split_at(rest.len() / 2);
        let Some((entry, after)) = back.split_first() else {
            return F::zero();
        };
        match entry.column.cmp(&column) {
            Ordering::Less => rest = after,
            Ordering::Equal => return entry.number,
            Ordering::Greater => rest = prefix,
        }
    }
}

/// The number at `column` of the row at `place`.
pub(crate) fn number_of_row<F: ExactField>(rows: &[Vec<Entry<F>>], place: usize, column: u32) -> F
    requires within { place < length rows.now }
    requires row { (high : ℕ) × IsRow F.value 0 high (slice_index_or (entries_of_rows rows.now) place []) }
    ensures { F.value result ≡ number_in F.value (slice_index_or (entries_of_rows rows.now) place []) column }
{
    number_at(rows[place].as_slice(), column)
}

/// The least column at which one of two rows has an entry; none if both are empty.
fn next_column<F>(row: &[Entry<F>], other: &[Entry<F>]) -> Option<u32>
    ensures { IsNextColumn row.now other.now result }
{
    match (row.first(), other.first()) {
        (None, None) => None,
        (Some(entry), None) => Some(entry.column),
        (None, Some(entry)) => Some(entry.column),
        (Some(entry), Some(another)) => Some(entry.column.min(another.column)),
    }
}

/// The number of the first entry if it is at this column, and the remaining entries.
fn split_column<F: ExactField>(row: &[Entry<F>], column: u32) -> (Option<F>, &[Entry<F>])
    ensures { SplitsAt row.now column result.0 result.1.now }
{
    match row.split_first() {
        Some((entry, rest)) if entry.column == column => (Some(entry.number), rest),
        _ => (None, row),
    }
}

/// A number less a factor times another; an absent number is 0, and takes no step.
fn lessened<F: ExactField>(number: Option<F>, factor: F, other: Option<F>) -> Result<F, Part>
    ensures { Lessens F.value F.limit number factor other result }
{
    let Some(other) = other else {
        return Ok(number.unwrap_or(F::zero()));
    };
    let Ok(product) = factor.mul(other) else {
        return Err(Part::Product);
    };
    let Some(number) = number else {
        return Ok(product.neg());
    };
    match number.sub(product) {
        Ok(difference) => Ok(difference),
        Err(_) => Err(Part::Difference),
    }
}

/// Appends the number to the row at this column, unless it is 0. The only error is out of memory.
pub fn push_unless_zero<F: ExactField>(
    row: &mut Vec<Entry<F>>,
    column: u32,
    number: F,
) -> Result<(), AllocError>
    ensures { OnOk result (PushesUnlessZero F.value column number row.old.items row.new.items) }
{
    if number.is_zero() {
        return Ok(());
    }
    row.push(Entry { column, number })?;
    Ok(())
}

/// Replaces `made` with `row` less a factor times `other`.
pub(crate) fn lessen_into<F: ExactField>(
    made: &mut Vec<Entry<F>>,
    row: &[Entry<F>],
    factor: F,
    other: &[Entry<F>],
) -> Result<(), RowFault>
    ensures { (high : ℕ) → IsRow F.value 0 high row.now → IsRow F.value 0 high other.now → OnRow
        (λ _. IsLessened F.value F.limit high row.now (F.value factor) other.now made.new.items)
        (IsFirstMisfit F.value F.limit high row.now (F.value factor) other.now) result }
{
    made.clear();
    let mut left = row;
    let mut right = other;
    while let Some(column) = next_column(left, right) {
        let (number, left_after) = split_column(left, column);
        let (another, right_after) = split_column(right, column);
        let number = match lessened(number, factor, another) {
            Ok(number) => number,
            Err(part) => return Err(RowFault::Limit(column, part)),
        };
        push_unless_zero(made, column, number)?;
        left = left_after;
        right = right_after;
    }
    Ok(())
}

/// A row over a divisor.
pub(crate) fn row_over<F: ExactField>(
    alloc: Global,
    row: &[Entry<F>],
    divisor: F,
) -> Result<Vec<Entry<F>>, RowFault>
    requires { F.value divisor ≢ whole (pos 0) }
    ensures { (high : ℕ) → IsRow F.value 0 high row.now → OnRow
        (λ made. IsDivided F.value F.limit high row.now (F.value divisor) made.items)
        (IsFirstUndivided F.value F.limit high row.now (F.value divisor)) result }
{
    let mut made = Vec::new(alloc);
    let mut left = row;
    while let Some((entry, rest)) = left.split_first() {
        let column = entry.column;
        let Ok(number) = entry.number.div(divisor) else {
            return Err(RowFault::Limit(column, Part::Product));
        };
        made.push(Entry { column, number })?;
        left = rest;
    }
    Ok(made)
}
