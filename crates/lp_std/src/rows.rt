//! Rows of the standard form: those of the program's rows, and those of its columns with two
//! bounds.
ghost use Rattle.std.specs.Prelude.{◌≡◌, ◌≤◌, ◌<◌, ◌+◌, ◌-◌, ◌^◌, ◌++◌, length, map, sum_by, None, Some, IfOk, IfErr, OnOk};
ghost use Rattle.std.specs.List.{All};
ghost use Rattle.gq_number.specs.Number.{◌-ℚ◌, ◌*ℚ◌, neg_ℚ};
ghost use Rattle.lp_core.specs.Feasible.{bound_value};
ghost use Rattle.lp_core.specs.StandardForm as form;
ghost use Rattle.lp_core.specs.Steps.{shifting, row_steps, rows_steps, bound_step, bounds_steps, count_of_rows};
ghost use Rattle.lp_std.specs.Meaning.{shift_value, entries_value, row_value};
ghost use Rattle.lp_std.specs.InnerSteps.{first_stop, StopsAt, placed_value, right_after, spread_entries, shifted_over, sense_steps, rows_over, bounds_over, bound_of_shift, bound_row_of, BoundsPush};

use crate::stop::Stop;
use crate::types::{Origin, Shift, StdRow};
use gq_field::ExactField;
use lp_core::{Column, Row, Sense, Sequence, StepName};
use std::alloc::{AllocError, Global};

/// The bound that a shift counts from.
fn bound_of<F: ExactField>(shift: Shift<F>) -> Option<F>
    ensures { result ≡ bound_of_shift shift }
{
    match shift {
        Shift::Lower(bound) => Some(bound),
        Shift::Upper(bound) => Some(bound),
        Shift::Free => None,
    }
}

/// The right side of a standard row after the bound of one column is taken out, or the step that
/// does not fit.
fn taken_out<F: ExactField>(
    row: u32,
    column: u32,
    shift: Shift<F>,
    coefficient: F,
    right: F,
) -> Result<F, StepName>
    requires { column + 1 < 2 ^ 32 }
    ensures ok { IfOk result (λ next.
        (first_stop (shifting F.limit row column (shift_value F.value shift) (F.value coefficient) (F.value right)) ≡ None)
        × (F.value next ≡ F.value right -ℚ F.value coefficient *ℚ form.base (shift_value F.value shift))) }
    ensures err { IfErr result (λ step.
        first_stop (shifting F.limit row column (shift_value F.value shift) (F.value coefficient) (F.value right))
        ≡ Some step) }
{
    let Some(bound) = bound_of(shift) else {
        return Ok(right);
    };
    let column = column + 1;
    let Ok(product) = coefficient.mul(bound) else {
        let part = 0;
        return Err(StepName::Standard { row, column, part });
    };
    let Ok(next) = right.sub(product) else {
        let part = 1;
        return Err(StepName::Standard { row, column, part });
    };
    Ok(next)
}

/// The right side of a standard row after the bounds of its columns are taken out, or the first
/// step that does not fit.
fn right_of<F: ExactField>(
    row: u32,
    columns: &[(u32, Shift<F>)],
    right: F,
    entries: &[(u32, F)],
) -> Result<F, StepName>
    requires few { length columns.now ≤ 3000 }
    requires there { All (λ e. e.0 < length columns.now) entries.now }
    ensures ok { IfOk result (λ next.
        (first_stop (row_steps F.value F.limit (placed_value F.value columns.now) row (F.value right) entries.now) ≡ None)
        × (F.value next ≡ right_after F.value (placed_value F.value columns.now) (F.value right) entries.now)) }
    ensures err { IfErr result (λ step.
        first_stop (row_steps F.value F.limit (placed_value F.value columns.now) row (F.value right) entries.now)
        ≡ Some step) }
{
    let mut left = right;
    for (column, coefficient) in entries {
        let place = columns[*column as usize];
        left = taken_out(row, *column, place.1, *coefficient, left)?;
    }
    Ok(left)
}

/// Appends a coefficient of a column, expressed by the column's variables.
fn push_spread<F: ExactField>(
    entries: &mut Vec<(u32, F)>,
    first: u32,
    shift: Shift<F>,
    coefficient: F,
) -> Result<(), AllocError>
    requires { first + 1 < 2 ^ 32 }
    ensures { OnOk result (entries_value F.value entries.new.items
        ≡ entries_value F.value entries.old.items ++ form.spread first (shift_value F.value shift) (F.value coefficient)) }
{
    match shift {
        Shift::Lower(_) => entries.push((first, coefficient))?,
        Shift::Upper(_) => entries.push((first, coefficient.neg()))?,
        Shift::Free => {
            entries.push((first, coefficient))?;
            entries.push((first + 1, coefficient.neg()))?;
        }
    }
    Ok(())
}

/// The entries of a row, each column expressed by its variables.
fn spread_row<F: ExactField>(
    alloc: Global,
    columns: &[(u32, Shift<F>)],
    entries: &[(u32, F)],
) -> Result<Vec<(u32, F)>, AllocError>
    requires low { All (λ p. p.0 + 1 < 2 ^ 32) columns.now }
    requires there { All (λ e. e.0 < length columns.now) entries.now }
    ensures { IfOk result (λ spread. entries_value F.value spread.items
        ≡ spread_entries F.value (placed_value F.value columns.now) entries.now) }
{
    let mut spread = Vec::new(alloc);
    for (column, coefficient) in entries {
        let place = columns[*column as usize];
        push_spread(&mut spread, place.0, place.1, *coefficient)?;
    }
    Ok(spread)
}

/// Entries with each coefficient negated.
fn negated_entries<F: ExactField>(
    alloc: Global,
    entries: &[(u32, F)],
) -> Result<Vec<(u32, F)>, AllocError>
    ensures { IfOk result (λ negated. entries_value F.value negated.items
        ≡ map (λ e. (e.0, neg_ℚ (F.value e.1))) entries.now) }
{
    let mut negated = Vec::new(alloc);
    for (variable, coefficient) in entries {
        negated.push((*variable, coefficient.neg()))?;
    }
    Ok(negated)
}

/// A row with its sign changed.
fn negated_row<F: ExactField>(
    alloc: Global,
    i: u64,
    row: &StdRow<F>,
) -> Result<StdRow<F>, AllocError>
    ensures { IfOk result (λ negated. row_value F.value negated ≡ form.negated_row i (row_value F.value row.now)) }
{
    let entries = negated_entries(alloc, row.entries.as_slice())?;
    Ok(StdRow {
        right: row.right.neg(),
        entries: Sequence::new(entries),
        origin: Origin::Negated(i),
    })
}

/// A row of the program as the standard row of this number, its sign kept.
fn shifted_row<F: ExactField>(
    alloc: Global,
    number: u32,
    i: u64,
    columns: &[(u32, Shift<F>)],
    row: &Row<F>,
) -> Result<StdRow<F>, Stop>
    requires few { length columns.now ≤ 3000 }
    requires low { All (λ p. p.0 + 1 < 2 ^ 32) columns.now }
    requires there { All (λ e. e.0 < length columns.now) row.now.entries }
    ensures ok { IfOk result (λ made.
        (first_stop (row_steps F.value F.limit (placed_value F.value columns.now) number (F.value row.now.right) row.now.entries) ≡ None)
        × (row_value F.value made ≡ shifted_over F.value (placed_value F.value columns.now) i row.now)) }
    ensures err { IfErr result
        (StopsAt (row_steps F.value F.limit (placed_value F.value columns.now) number (F.value row.now.right) row.now.entries)) }
{
    let right = right_of(number, columns, row.right, row.entries.as_slice())?;
    let entries = spread_row(alloc, columns, row.entries.as_slice())?;
    Ok(StdRow {
        right,
        entries: Sequence::new(entries),
        origin: Origin::Row(i),
    })
}

/// Appends the standard rows of a row, by its sense.
fn push_by_sense<F: ExactField>(
    alloc: Global,
    rows: &mut Vec<StdRow<F>>,
    i: u64,
    sense: Sense,
    row: StdRow<F>,
) -> Result<(), AllocError>
    ensures { OnOk result (map (row_value F.value) rows.new.items
        ≡ map (row_value F.value) rows.old.items ++ form.rows_by_sense sense i (row_value F.value row)) }
{
    match sense {
        Sense::E => {
            let negated = negated_row(alloc, i, &row)?;
            rows.push(row)?;
            rows.push(negated)?;
        }
        Sense::L => rows.push(row)?,
        Sense::G => rows.push(negated_row(alloc, i, &row)?)?,
        Sense::N => {}
    }
    Ok(())
}

/// Appends the standard rows of a row of the program.
fn push_row<F: ExactField>(
    alloc: Global,
    rows: &mut Vec<StdRow<F>>,
    i: u64,
    columns: &[(u32, Shift<F>)],
    row: &Row<F>,
) -> Result<(), Stop>
    requires within_bound { length rows.old.items ≤ 1500 }
    requires few { length columns.now ≤ 3000 }
    requires low { All (λ p. p.0 + 1 < 2 ^ 32) columns.now }
    requires there { All (λ e. e.0 < length columns.now) row.now.entries }
    ensures steps { OnOk result
        (first_stop (sense_steps F.value F.limit (placed_value F.value columns.now) (length rows.old.items + 1) row.now) ≡ None) }
    ensures rows { OnOk result (map (row_value F.value) rows.new.items
        ≡ map (row_value F.value) rows.old.items
        ++ form.rows_by_sense row.now.sense i (shifted_over F.value (placed_value F.value columns.now) i row.now)) }
    ensures err { IfErr result
        (StopsAt (sense_steps F.value F.limit (placed_value F.value columns.now) (length rows.old.items + 1) row.now)) }
{
    if let Sense::N = row.sense {
        return Ok(());
    }
    let number = rows.len() as u32 + 1;
    let shifted = shifted_row(alloc, number, i, columns, row)?;
    push_by_sense(alloc, rows, i, row.sense, shifted)?;
    Ok(())
}

/// The rows of the standard form that come from the program's rows.
pub(crate) fn rows_of<F: ExactField>(
    alloc: Global,
    columns: &[(u32, Shift<F>)],
    program: &[Row<F>],
) -> Result<Vec<StdRow<F>>, Stop>
    requires within_bound { count_of_rows program.now ≤ 1500 }
    requires few { length columns.now ≤ 3000 }
    requires low { All (λ p. p.0 + 1 < 2 ^ 32) columns.now }
    requires there { All (λ row. All (λ e. e.0 < length columns.now) row.entries) program.now }
    ensures ok { IfOk result (λ rows.
        (first_stop (rows_steps F.value F.limit (placed_value F.value columns.now) 1 program.now) ≡ None)
        × (map (row_value F.value) rows.items ≡ rows_over F.value (placed_value F.value columns.now) 0 program.now)
        × (length rows.items ≡ count_of_rows program.now)) }
    ensures err { IfErr result
        (StopsAt (rows_steps F.value F.limit (placed_value F.value columns.now) 1 program.now)) }
{
    let mut rows = Vec::new(alloc);
    for (i, row) in program.iter().enumerate() {
        push_row(alloc, &mut rows, i as u64, columns, row)?;
    }
    Ok(rows)
}

/// The row of a column with two bounds: its variable is at most their difference.
fn bound_row<F: ExactField>(
    alloc: Global,
    column: u32,
    variable: u32,
    right: F,
) -> Result<StdRow<F>, AllocError>
    ensures { IfOk result (λ row. row_value F.value row ≡ bound_row_of column variable (F.value right)) }
{
    let mut entries = Vec::new(alloc);
    entries.push((variable, F::one()))?;
    Ok(StdRow {
        right,
        entries: Sequence::new(entries),
        origin: Origin::Bound(column),
    })
}

/// Appends the row of a column, if the column has two bounds.
fn push_bound_row<F: ExactField>(
    alloc: Global,
    rows: &mut Vec<StdRow<F>>,
    j: u32,
    variable: u32,
    column: &Column<F>,
) -> Result<(), Stop>
    requires within_bound { length rows.old.items ≤ 1500 }
    requires within { j + 1 < 2 ^ 32 }
    ensures { BoundsPush F.value F.limit j variable column.now rows.old.items rows.new.items result }
{
    let (Some(lower), Some(upper)) = (column.lower, column.upper) else {
        return Ok(());
    };
    let Ok(right) = upper.sub(lower) else {
        let row = rows.len() as u32 + 1;
        return Err(Stop::Limit(StepName::Standard {
            row,
            column: j + 1,
            part: 1,
        }));
    };
    rows.push(bound_row(alloc, j, variable, right)?)?;
    Ok(())
}

/// These rows of the standard form, followed by those of columns with two bounds.
pub(crate) fn with_bound_rows<F: ExactField>(
    alloc: Global,
    rows: Vec<StdRow<F>>,
    columns: &[(u32, Shift<F>)],
    bounded: &[Column<F>],
) -> Result<Vec<StdRow<F>>, Stop>
    requires within_bound { length rows.items + sum_by (λ column. form.rows_of_bounds column.lower column.upper) bounded.now ≤ 1500 }
    requires few { length columns.now ≤ 3000 }
    requires sized { length bounded.now ≡ length columns.now }
    ensures ok { IfOk result (λ all.
        (first_stop (bounds_steps F.value F.limit (length rows.items + 1) 0 bounded.now) ≡ None)
        × (map (row_value F.value) all.items
        ≡ map (row_value F.value) rows.items ++ bounds_over F.value (placed_value F.value columns.now) 0 bounded.now)) }
    ensures err { IfErr result
        (StopsAt (bounds_steps F.value F.limit (length rows.items + 1) 0 bounded.now)) }
{
    let mut all = rows;
    for (j, column) in bounded.iter().enumerate() {
        let place = columns[j];
        push_bound_row(alloc, &mut all, j as u32, place.0, column)?;
    }
    Ok(all)
}
