//! The exchange over the rows and the objective.
ghost use Rattle.std.specs.Prelude.{◌≡◌, ◌≢◌, ◌≤◌, ◌<◌, ℕ, pos, List, [], length, map, slice_index_or, slice_set};
ghost use Rattle.gq_number.specs.Number.{whole};
ghost use Rattle.lp_fraction_dict.specs.Rows.{IsRow, number_in, OnRow, IsLessened, IsFirstMisfit};
ghost use Rattle.lp_fraction_dict.specs.Lines.{entries_of_rows, line, OnLine, AreExchanged, IsFirstLine, IsTurned, IsFirstTurn, without, kept_after};

use crate::fault::{LineFault, RowFault};
use crate::row::{Entry, lessen_into, number_at, row_over};
use gq_field::ExactField;
use std::alloc::Global;
use std::mem;

/// Subtracts from a row the multiple of the pivot row that makes its number at the column 0; a row
/// without that column is unchanged.
fn exchange_row<F: ExactField>(
    row: &mut Vec<Entry<F>>,
    column: u32,
    pivot_row: &[Entry<F>],
    buffer: &mut Vec<Entry<F>>,
) -> Result<(), RowFault>
    requires { (high : ℕ) × IsRow F.value 0 high row.old.items }
    ensures { (high : ℕ) → IsRow F.value 0 high row.old.items → IsRow F.value 0 high pivot_row.now → OnRow
        (λ _. IsLessened F.value F.limit high row.old.items (number_in F.value row.old.items column) pivot_row.now row.new.items)
        (IsFirstMisfit F.value F.limit high row.old.items (number_in F.value row.old.items column) pivot_row.now) result }
{
    let factor = number_at(row.as_slice(), column);
    if factor.is_zero() {
        return Ok(());
    }
    lessen_into(buffer, row.as_slice(), factor, pivot_row)?;
    mem::swap(row, buffer);
    Ok(())
}

/// Subtracts from each row the multiple of the pivot row that makes its number at the column 0.
fn exchange_rows<F: ExactField>(
    rows: &mut Vec<Vec<Entry<F>>>,
    column: u32,
    pivot_row: &[Entry<F>],
    buffer: &mut Vec<Entry<F>>,
) -> Result<(), LineFault>
    requires { (high : ℕ) × ((k : ℕ) → IsRow F.value 0 high (slice_index_or (entries_of_rows rows.old.items) k [])) × IsRow F.value 0 high pivot_row.now }
    ensures { (high : ℕ) → ((k : ℕ) → IsRow F.value 0 high (slice_index_or (entries_of_rows rows.old.items) k [])) → IsRow F.value 0 high pivot_row.now → OnLine
        (λ _. AreExchanged F.value F.limit high column pivot_row.now (entries_of_rows rows.old.items) (entries_of_rows rows.new.items))
        (IsFirstLine F.value F.limit high column pivot_row.now (entries_of_rows rows.old.items)) result }
{
    for place in 0..rows.len() {
        let row = &mut rows[place];
        if let Err(fault) = exchange_row(row, column, pivot_row, buffer) {
            return Err(fault.in_line(place));
        }
    }
    Ok(())
}

/// Puts a row at a place, and returns the one that it replaces.
fn put_row<F: ExactField>(
    rows: &mut Vec<Vec<Entry<F>>>,
    place: usize,
    row: Vec<Entry<F>>,
) -> Vec<Entry<F>>
    requires { place < length rows.old.items }
    ensures given { result.items ≡ slice_index_or (entries_of_rows rows.old.items) place [] }
    ensures put { entries_of_rows rows.new.items ≡ slice_set (entries_of_rows rows.old.items) place row.items }
{
    let old = &mut rows[place];
    mem::replace(old, row)
}

/// The exchange: the row at `place` is divided by its number at `column`, and from each other row
/// and the objective the multiple of it is subtracted that makes their number there 0.
///
/// The error is the first step that does not fit, or out of memory.
pub(crate) fn turn<F: ExactField>(
    alloc: Global,
    rows: &mut Vec<Vec<Entry<F>>>,
    objective: &mut Vec<Entry<F>>,
    place: usize,
    column: u32,
) -> Result<(), LineFault>
    requires within { place < length rows.old.items }
    requires rows { (high : ℕ) × ((k : ℕ) → IsRow F.value 0 high (slice_index_or (entries_of_rows rows.old.items) k [])) ×
        IsRow F.value 0 high objective.old.items }
    requires some { number_in F.value (slice_index_or (entries_of_rows rows.old.items) place []) column ≢ whole (pos 0) }
    ensures { (high : ℕ) → ((k : ℕ) → IsRow F.value 0 high (slice_index_or (entries_of_rows rows.old.items) k [])) →
        IsRow F.value 0 high objective.old.items → OnLine
        (λ _. (length (entries_of_rows rows.new.items) ≡ length (entries_of_rows rows.old.items)) × IsTurned F.value F.limit high
        (line (entries_of_rows rows.old.items) objective.old.items) place column
        (line (entries_of_rows rows.new.items) objective.new.items))
        (λ i at p. (i ≤ length (entries_of_rows rows.old.items)) × (at < high) × IsFirstTurn F.value F.limit high
        (line (entries_of_rows rows.old.items) objective.old.items) place column i at p) result }
{
    let mut buffer = put_row(rows, place, Vec::new(alloc));
    let divisor = number_at(buffer.as_slice(), column);
    let pivot_row = match row_over(alloc, buffer.as_slice(), divisor) {
        Ok(pivot_row) => pivot_row,
        Err(fault) => return Err(fault.in_line(place)),
    };
    if let Err(fault) = exchange_rows(rows, column, pivot_row.as_slice(), &mut buffer) {
        return Err(fault);
    }
    if let Err(fault) = exchange_row(objective, column, pivot_row.as_slice(), &mut buffer) {
        return Err(fault.in_line(rows.len()));
    }
    let _ = put_row(rows, place, pivot_row);
    Ok(())
}

/// Removes the entry of variable 0 from a row.
fn forget_zero<F: ExactField>(row: &mut Vec<Entry<F>>)
    ensures { row.new.items ≡ without 1 row.old.items }
{
    row.retain(|entry| entry.column != 1);
}

/// Removes the entries of variable 0 from each row and the objective, if that variable leaves.
pub(crate) fn forget_leaving<F: ExactField>(
    leave: u32,
    rows: &mut Vec<Vec<Entry<F>>>,
    objective: &mut Vec<Entry<F>>,
)
    ensures rows { entries_of_rows rows.new.items ≡ map (kept_after leave) (entries_of_rows rows.old.items) }
    ensures objective { objective.new.items ≡ kept_after leave objective.old.items }
{
    if leave != 0 {
        return;
    }
    for place in 0..rows.len() {
        let row = &mut rows[place];
        forget_zero(row);
    }
    forget_zero(objective);
}
