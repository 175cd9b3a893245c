//! The steps over the rows: the reduced cost of a column, and the rows' part of the bound.
ghost use Rattle.std.specs.Prelude.{◌≡◌, ◌+◌, ◌<◌, ◌^◌, length, map};
ghost use Rattle.std.specs.List.{All, AllPairs};
ghost use Rattle.lp_core.specs.Feasible.{bound_value};
ghost use Rattle.lp_core.specs.DualBound.{row_lower, row_upper};
ghost use Rattle.lp_check.specs.BoundSteps.{entry_of, entry_in, row_bound, reduced_cost_bound_steps, row_bound_steps, rows_sum};
ghost use Rattle.lp_check.specs.Partials.{Reaches, reduced_sum};

use crate::partial::{Partial, bound_used};
use gq_field::ExactField;
use lp_core::{Row, Sense, StepName};

/// The entry of a column, found by bisection, if any.
fn entry_of<F: ExactField>(entries: &[(u32, F)], column: u32) -> Option<F>
    requires { AllPairs (λ a b. a.0 < b.0) entries.now }
    ensures { bound_value F.value result ≡ entry_of F.value entries.now column }
{
    let first = entries.partition_point(|entry| entry.0 < column);
    match entries.get(first) {
        Some((place, number)) if *place == column => Some(*number),
        _ => None,
    }
}

/// The entry of a column in a binding row, if any.
fn entry_in<F: ExactField>(row: &Row<F>, column: u32) -> Option<F>
    requires { AllPairs (λ a b. a.0 < b.0) row.now.entries }
    ensures { bound_value F.value result ≡ entry_in F.value column row.now }
{
    match row.sense {
        Sense::N => None,
        _ => entry_of(row.entries.as_slice(), column),
    }
}

/// The reduced cost of a column, from its cost on: less each row's dual times its entry there.
pub(crate) fn reduced_cost<F: ExactField>(
    rows: &[Row<F>],
    duals: &[F],
    column: u32,
    cost: Partial<F>,
) -> Result<Partial<F>, StepName>
    requires sized { length duals.now ≡ length rows.now }
    requires ordered { All (λ row. AllPairs (λ a b. a.0 < b.0) row.entries) rows.now }
    requires within_bound { cost.taken + length (reduced_cost_bound_steps F.value F.limit column (F.value cost.sum) rows.now (map F.value duals.now)) < 2 ^ 64 }
    ensures { Reaches F.value cost.taken
        (reduced_cost_bound_steps F.value F.limit column (F.value cost.sum) rows.now (map F.value duals.now))
        (reduced_sum F.value column (F.value cost.sum) rows.now (map F.value duals.now)) result }
{
    let mut partial = cost;
    for (i, row) in rows.iter().enumerate() {
        let dual = duals[i];
        let entry = entry_in(row, column);
        partial = partial.less(dual, entry)?;
    }
    Ok(partial)
}

/// The lower and the upper bound of a row's sum.
fn bounds_of<F: ExactField>(row: &Row<F>) -> (Option<F>, Option<F>)
    ensures lower { bound_value F.value result.0 ≡ row_lower row.now.sense (F.value row.now.right) }
    ensures upper { bound_value F.value result.1 ≡ row_upper row.now.sense (F.value row.now.right) }
{
    match row.sense {
        Sense::E => (Some(row.right), Some(row.right)),
        Sense::L => (None, Some(row.right)),
        Sense::G => (Some(row.right), None),
        Sense::N => (None, None),
    }
}

/// The bound of a row that its dual uses, for an upper or a lower bound of the objective.
fn row_bound<F: ExactField>(above: bool, row: &Row<F>, dual: F) -> Option<F>
    ensures { bound_value F.value result ≡ row_bound F.value above row.now (F.value dual) }
{
    let (lower, upper) = bounds_of(row);
    if above {
        bound_used(dual, upper, lower)
    } else {
        bound_used(dual, lower, upper)
    }
}

/// The rows' part of the bound: each dual times the bound of its row that it uses, added to the sum
/// so far.
pub(crate) fn rows_part<F: ExactField>(
    rows: &[Row<F>],
    duals: &[F],
    above: bool,
    start: Partial<F>,
) -> Result<Partial<F>, StepName>
    requires sized { length duals.now ≡ length rows.now }
    requires within_bound { start.taken + length (row_bound_steps F.value F.limit above (F.value start.sum) rows.now (map F.value duals.now)) < 2 ^ 64 }
    ensures { Reaches F.value start.taken
        (row_bound_steps F.value F.limit above (F.value start.sum) rows.now (map F.value duals.now))
        (rows_sum F.value above (F.value start.sum) rows.now (map F.value duals.now)) result }
{
    let mut partial = start;
    for (i, row) in rows.iter().enumerate() {
        let dual = duals[i];
        let bound = row_bound(above, row, dual);
        partial = partial.plus(dual, bound)?;
    }
    Ok(partial)
}
