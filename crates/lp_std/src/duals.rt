//! The recovery of the duals of rows and the reduced costs of columns.
ghost use Rattle.std.specs.Prelude.{◌≡◌, ◌≤◌, ◌<◌, ◌+◌, length, map, sum_by};
ghost use Rattle.std.specs.List.{All};
ghost use Rattle.gq_number.specs.Number.{neg_ℚ};
ghost use Rattle.lp_core.specs.Sums.{value_of_column};
ghost use Rattle.lp_core.specs.StandardForm as form;
ghost use Rattle.lp_core.specs.Steps.{count_of_rows, dual_steps, reduced_steps};
ghost use Rattle.lp_std.specs.InnerSteps.{placed_value, slack_multiplier, dual_step, reduced_step, Computes, ComputesAll};

use crate::form::directed;
use crate::levels::or_step;
use crate::stop::Stop;
use crate::types::Shift;
use gq_field::ExactField;
use lp_core::{Column, Row, Sense, StepName};
use std::alloc::Global;

/// How many rows of the standard form a row of this sense has.
fn rows_by_sense(sense: Sense) -> u32
    ensures { result ≡ form.rows_of_sense sense }
{
    match sense {
        Sense::E => 2,
        Sense::L => 1,
        Sense::G => 1,
        Sense::N => 0,
    }
}

/// How many rows of the standard form these rows have in all.
pub(crate) fn count_rows<F: ExactField>(rows: &[Row<F>]) -> u32
    requires { count_of_rows rows.now ≤ 1500 }
    ensures { result ≡ count_of_rows rows.now }
{
    let mut count = 0;
    for row in rows {
        count += rows_by_sense(row.sense);
    }
    count
}

/// The dual of a row of this sense, whose first standard row has this place, or the step that does
/// not fit.
fn dual_of<F: ExactField>(i: u64, sense: Sense, slacks: &[F], place: u32) -> Result<F, StepName>
    requires { place + form.rows_of_sense sense ≤ length slacks.now }
    ensures { Computes F.value (dual_step F.limit (slack_multiplier F.value slacks.now) i place sense)
        (form.dual_by_sense sense (slack_multiplier F.value slacks.now) place) result }
{
    let place = place as usize;
    match sense {
        Sense::E => {
            let step = StepName::Recover {
                what: 2,
                index: i,
                entry: 0,
                part: 1,
            };
            or_step(slacks[place].neg().sub(slacks[place + 1].neg()), step)
        }
        Sense::L => Ok(slacks[place].neg()),
        Sense::G => Ok(slacks[place].neg().neg()),
        Sense::N => Ok(F::zero()),
    }
}

/// The dual of each row, from the final coefficients of the slacks; negated when minimizing.
pub(crate) fn duals_of<F: ExactField>(
    alloc: Global,
    rows: &[Row<F>],
    slacks: &[F],
    maximize: bool,
) -> Result<Vec<F>, Stop>
    requires few { count_of_rows rows.now ≤ 1500 }
    requires within_bound { count_of_rows rows.now ≤ length slacks.now }
    ensures { ComputesAll F.value (dual_steps F.limit (slack_multiplier F.value slacks.now) 0 0 rows.now)
        (map (form.directed maximize) (form.duals_from (slack_multiplier F.value slacks.now) 0 rows.now)) result }
{
    let mut duals = Vec::new(alloc);
    let mut place = 0;
    for (i, row) in rows.iter().enumerate() {
        let dual = dual_of(i as u64, row.sense, slacks, place)?;
        duals.push(directed(maximize, dual))?;
        place += rows_by_sense(row.sense);
    }
    Ok(duals)
}

/// How many rows of the standard form a column's bounds add.
fn rows_by_bounds<F: ExactField>(column: &Column<F>) -> u32
    ensures { result ≡ form.rows_of_bounds column.now.lower column.now.upper }
{
    match (column.lower, column.upper) {
        (Some(_), Some(_)) => 1,
        _ => 0,
    }
}

/// The reduced cost of a column, given its first variable and its standard row, or the step that
/// does not fit.
fn reduced_of<F: ExactField>(
    j: u64,
    column: &Column<F>,
    costs: &[F],
    variable: u32,
    slacks: &[F],
    place: u32,
) -> Result<F, StepName>
    requires there { variable < length costs.now }
    requires within_bound { place + form.rows_of_bounds column.now.lower column.now.upper ≤ length slacks.now }
    ensures { Computes F.value
        (reduced_step F.limit (map F.value costs.now) (slack_multiplier F.value slacks.now) j variable place column.now.lower column.now.upper)
        (form.reduced_by_bounds (map F.value costs.now) (slack_multiplier F.value slacks.now) variable place column.now.lower column.now.upper)
        result }
{
    let cost = costs[variable as usize];
    match (column.lower, column.upper) {
        (Some(_), Some(_)) => {
            let step = StepName::Recover {
                what: 3,
                index: j,
                entry: 0,
                part: 1,
            };
            or_step(cost.add(slacks[place as usize].neg()), step)
        }
        (Some(_), None) => Ok(cost),
        (None, Some(_)) => Ok(cost.neg()),
        (None, None) => Ok(F::zero()),
    }
}

/// The reduced cost of each column, from the final coefficients of all variables; negated when
/// minimizing.
///
/// `first` is the position of the first row of the standard form that comes from a column's two
/// bounds.
pub(crate) fn reduced_costs_of<F: ExactField>(
    alloc: Global,
    bounded: &[Column<F>],
    columns: &[(u32, Shift<F>)],
    costs: &[F],
    slacks: &[F],
    first: u32,
    maximize: bool,
) -> Result<Vec<F>, Stop>
    requires sized { length bounded.now ≡ length columns.now }
    requires there { All (λ p. p.0 < length costs.now) columns.now }
    requires few { first + sum_by (λ column. form.rows_of_bounds column.lower column.upper) bounded.now ≤ 1500 }
    requires within_bound { first + sum_by (λ column. form.rows_of_bounds column.lower column.upper) bounded.now ≤ length slacks.now }
    ensures { ComputesAll F.value
        (reduced_steps F.limit (map F.value costs.now) (slack_multiplier F.value slacks.now) 0 first (placed_value F.value columns.now) bounded.now)
        (map (form.directed maximize)
        (form.reduced_from (map F.value costs.now) (slack_multiplier F.value slacks.now) first (placed_value F.value columns.now) bounded.now))
        result }
{
    let mut reduced = Vec::new(alloc);
    let mut place = first;
    for (j, column) in bounded.iter().enumerate() {
        let numbered = columns[j];
        let cost = reduced_of(j as u64, column, costs, numbered.0, slacks, place)?;
        reduced.push(directed(maximize, cost))?;
        place += rows_by_bounds(column);
    }
    Ok(reduced)
}
