//! How many rows and variables the standard form of a model's rows has, and whether they are too
//! many.
ghost use Rattle.std.specs.Prelude.{◌≡◌, ◌≤◌, ◌+◌, [], min, sum_by, OnOk};
ghost use Rattle.gq_number.specs.Number.{Number};
ghost use Rattle.lp_core.specs.WellFormed.{rows_of_sense, rows_of_bounds, variables_of_bounds, standard_rows, standard_columns};
ghost use Rattle.lp_core.specs.declared.program.Lp.{Lp};
ghost use Rattle.gms_eval.specs.Domain.{most_counted};
ghost use Rattle.gms_eval.specs.Faults.{nothing};
ghost use Rattle.gms_eval.specs.Gives.{Gives, Shows};
ghost use Rattle.gms_rows.specs.ProgramLp.{sized_program};

use crate::form_row::FormRow;
use gms_eval::{Binding, ExecStopOrMemory, StopKind};
use gms_labels::Place;
use gq_field::ExactField;
use lp_core::{Column, MOST_COLUMNS, MOST_ROWS, count_bounds, count_variables, rows_by_sense};
use std::alloc::Global;

/// How many rows the standard form has, at most the greatest `usize`: those of the rows, and one
/// for each column with two bounds.
fn standard_rows<F: ExactField>(rows: &[FormRow<F>], columns: &[Column<F>]) -> usize
    ensures { result ≡ min (sum_by (λ row. rows_of_sense row.sense) rows.now + sum_by
        (λ column. rows_of_bounds column.lower column.upper) columns.now) most_counted }
{
    let mut count: usize = 0;
    for row in rows {
        count = count.saturating_add(rows_by_sense(row.sense));
    }
    count.saturating_add(count_bounds(columns))
}

/// The stop of a linear program that is too large.
fn too_many<F: ExactField>(
    alloc: Global,
    kind: StopKind,
    at: Place,
    count: usize,
) -> ExecStopOrMemory<F>
    ensures { Shows F.value result (record { kind = kind; at = at; binding = []; left = nothing; right = nothing; count = count }) }
{
    let none = Binding::new(alloc);
    ExecStopOrMemory::counted(alloc, kind, at, count as u64, &none)
}

/// Whether rows and columns are few enough for a linear program. `TooManyRows` at the place of the
/// solve where the standard form has over 1,500 rows, or else `TooManyColumns` where it has over
/// 3,000 columns.
pub(crate) fn check_size<F: ExactField>(
    alloc: Global,
    rows: &[FormRow<F>],
    columns: &[Column<F>],
    at: Place,
) -> Result<(), ExecStopOrMemory<F>>
    ensures stop { (lp : Lp Number) →
        standard_rows lp ≡ sum_by (λ row. rows_of_sense row.sense) rows.now + sum_by (λ column. rows_of_bounds column.lower column.upper) columns.now →
        standard_columns lp ≡ sum_by (λ column. variables_of_bounds column.lower column.upper) columns.now →
        Gives F.value (λ _. lp) result (sized_program at lp) }
    ensures rows { OnOk result (sum_by (λ row. rows_of_sense row.sense) rows.now + sum_by
        (λ column. rows_of_bounds column.lower column.upper) columns.now ≤ 1500) }
    ensures columns { OnOk result (sum_by (λ column. variables_of_bounds column.lower column.upper) columns.now ≤ 3000) }
{
    let count = standard_rows(rows, columns);
    if count > MOST_ROWS {
        return Err(too_many(alloc, StopKind::TooManyRows, at, count));
    }
    let count = count_variables(columns);
    if count > MOST_COLUMNS {
        return Err(too_many(alloc, StopKind::TooManyColumns, at, count));
    }
    Ok(())
}
