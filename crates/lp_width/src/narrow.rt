//! A program over numbers of 127 bits as one over numbers of 63.
ghost use Rattle.std.specs.Prelude.{◌≡◌, ◌↔◌, ◌-◌, ◌^◌, true, map, IfOk, IfSome, IsSome};
ghost use Rattle.std.specs.List.{All};
ghost use Rattle.gq_field.specs.Values.{half_value};
ghost use Rattle.gq_frac.specs.Frac.{frac_value};
ghost use Rattle.gq_field.specs.Fits.{fits};
ghost use Rattle.lp_core.specs.Feasible.{bound_value};
ghost use Rattle.lp_width.specs.declared.narrow.Wide.TheVariants as kinds;
ghost use Rattle.lp_core.specs.WellFormed.{IsWellFormed};
ghost use Rattle.lp_core.specs.Numbers.{entries_numbers, column_numbers, row_numbers, lp_numbers, ColumnIsWithin, RowIsWithin, IsWithin};
ghost use Rattle.lp_width.specs.InnerNarrowing.{Narrows};

use gq_field::Half;
use gq_frac::{Frac, narrow};
use lp_core::{Column, Lp, Row, Sequence};
use std::alloc::{AllocError, AllocFailed, Global};

/// Why something is not narrowed.
#[derive(Clone, Copy)]
enum Wide {
    /// A numerator or denominator is too great.
    Number,
    /// Out of memory.
    Memory,
}

impl From<AllocError> for Wide {
    ghost from_gives = { λ _ wide. wide ≡ kinds.Memory };

    fn from(_error: AllocError) -> Wide {
        Wide::Memory
    }
}

impl<T: Drop> From<AllocFailed<T>> for Wide {
    ghost from_gives = { λ _ wide. wide ≡ kinds.Memory };

    fn from(_error: AllocFailed<T>) -> Wide {
        Wide::Memory
    }
}

/// The narrowed number.
fn narrow_number(number: Frac) -> Result<Half, Wide>
    ensures { Narrows (λ made. half_value made ≡ frac_value number) (fits (2 ^ 63 - 1) (frac_value number) ≡ true) result }
{
    match narrow(number) {
        Some(number) => Ok(number),
        None => Err(Wide::Number),
    }
}

/// The narrowed bound.
fn narrow_bound(bound: Option<Frac>) -> Result<Option<Half>, Wide>
    ensures { Narrows (λ made. bound_value half_value made ≡ bound_value frac_value bound)
        (IfSome (bound_value frac_value bound) (λ b. fits (2 ^ 63 - 1) b ≡ true)) result }
{
    match bound {
        Some(bound) => Ok(Some(narrow_number(bound)?)),
        None => Ok(None),
    }
}

/// The narrowed column.
fn narrow_column(alloc: Global, column: &Column<Frac>) -> Result<Column<Half>, Wide>
    ensures { Narrows (λ made. column_numbers half_value made ≡ column_numbers frac_value column.now)
        (ColumnIsWithin (2 ^ 63 - 1) (column_numbers frac_value column.now)) result }
{
    let lower = narrow_bound(column.lower)?;
    let upper = narrow_bound(column.upper)?;
    let key = column.key.copy(alloc)?;
    Ok(Column { lower, upper, key })
}

/// The narrowed columns.
fn narrow_columns(alloc: Global, columns: &[Column<Frac>]) -> Result<Vec<Column<Half>>, Wide>
    ensures { Narrows (λ made. map (column_numbers half_value) made.items ≡ map (column_numbers frac_value) columns.now)
        (All (ColumnIsWithin (2 ^ 63 - 1)) (map (column_numbers frac_value) columns.now)) result }
{
    let mut made = Vec::new(alloc);
    for column in columns {
        made.push(narrow_column(alloc, column)?)?;
    }
    Ok(made)
}

/// The narrowed entries.
fn narrow_entries(alloc: Global, entries: &[(u32, Frac)]) -> Result<Vec<(u32, Half)>, Wide>
    ensures { Narrows (λ made. entries_numbers half_value made.items ≡ entries_numbers frac_value entries.now)
        (All (λ e. fits (2 ^ 63 - 1) e.1 ≡ true) (entries_numbers frac_value entries.now)) result }
{
    let mut made = Vec::new(alloc);
    for (column, coefficient) in entries {
        made.push((*column, narrow_number(*coefficient)?))?;
    }
    Ok(made)
}

/// The narrowed row.
fn narrow_row(alloc: Global, row: &Row<Frac>) -> Result<Row<Half>, Wide>
    ensures { Narrows (λ made. row_numbers half_value made ≡ row_numbers frac_value row.now)
        (RowIsWithin (2 ^ 63 - 1) (row_numbers frac_value row.now)) result }
{
    let right = narrow_number(row.right)?;
    let key = row.key.copy(alloc)?;
    let entries = narrow_entries(alloc, row.entries.as_slice())?;
    Ok(Row {
        key,
        sense: row.sense,
        right,
        entries: Sequence::new(entries),
    })
}

/// The narrowed rows.
fn narrow_rows(alloc: Global, rows: &[Row<Frac>]) -> Result<Vec<Row<Half>>, Wide>
    ensures { Narrows (λ made. map (row_numbers half_value) made.items ≡ map (row_numbers frac_value) rows.now)
        (All (RowIsWithin (2 ^ 63 - 1)) (map (row_numbers frac_value) rows.now)) result }
{
    let mut made = Vec::new(alloc);
    for row in rows {
        made.push(narrow_row(alloc, row)?)?;
    }
    Ok(made)
}

/// The narrowed program.
fn narrowed(alloc: Global, lp: &Lp<Frac>) -> Result<Lp<Half>, Wide>
    ensures { Narrows (λ made. lp_numbers half_value made ≡ lp_numbers frac_value lp.now)
        (IsWithin (2 ^ 63 - 1) (lp_numbers frac_value lp.now)) result }
{
    let columns = narrow_columns(alloc, lp.columns.as_slice())?;
    let rows = narrow_rows(alloc, lp.rows.as_slice())?;
    Ok(Lp {
        columns: Sequence::new(columns),
        rows: Sequence::new(rows),
        objective: lp.objective,
        maximize: lp.maximize,
    })
}

/// The same program, with numerators and denominators in 63 bits instead of 127; well formed if
/// `lp` is. `None` exactly if a numerator or denominator of a number of `lp` exceeds 2^63 - 1 in
/// magnitude. The only error is out of memory.
pub fn narrow_lp(alloc: Global, lp: &Lp<Frac>) -> Result<Option<Lp<Half>>, AllocError>
    ensures same { IfOk result (λ found. IfSome found (λ narrow. lp_numbers half_value narrow ≡ lp_numbers frac_value lp.now)) }
    ensures within { IfOk result (λ found. IsSome found ↔ IsWithin (2 ^ 63 - 1) (lp_numbers frac_value lp.now)) }
    ensures well_formed { IfOk result (λ found. IfSome found (λ narrow. IsWellFormed frac_value lp.now → IsWellFormed half_value narrow)) }
{
    match narrowed(alloc, lp) {
        Ok(narrow) => Ok(Some(narrow)),
        Err(Wide::Number) => Ok(None),
        Err(Wide::Memory) => Err(AllocError),
    }
}
