//! The steps over the columns: their reduced costs, and their part of the bound.
ghost use Rattle.std.specs.Prelude.{◌≡◌, ◌+◌, ◌<◌, ◌≤◌, ◌^◌, length, map, None};
ghost use Rattle.std.specs.List.{All, AllPairs};
ghost use Rattle.lp_core.specs.Feasible.{bound_value};
ghost use Rattle.lp_core.specs.Sums.{value_of_column};
ghost use Rattle.lp_check.specs.BoundSteps.{column_bound, all_reduced_steps, columns_steps, columns_sum};
ghost use Rattle.lp_check.specs.Partials.{Reaches, TakesSteps, costs_of, reduced_costs, first_unfit};

use crate::partial::{Partial, bound_used};
use crate::rows::reduced_cost;
use gq_field::ExactField;
use lp_core::{Column, Row, StepName};

/// The cost of a column: 1 at the objective, if any.
fn cost_of<F: ExactField>(objective: Option<u32>, column: u32) -> F
    ensures { F.value result ≡ costs_of objective column }
{
    match objective {
        Some(place) if place == column => F::one(),
        _ => F::zero(),
    }
}

/// Makes the steps of all reduced costs, and answers how many they are.
///
/// The numbers are not stored, since that would use memory: each is computed again when it is used.
pub(crate) fn reduced_costs_fit<F: ExactField>(
    rows: &[Row<F>],
    columns: &[Column<F>],
    objective: Option<u32>,
    duals: &[F],
) -> Result<u64, StepName>
    requires sized { length duals.now ≡ length rows.now }
    requires ordered { All (λ row. AllPairs (λ a b. a.0 < b.0) row.entries) rows.now }
    requires few { length columns.now ≤ 3000 }
    requires within_bound { length (all_reduced_steps F.value F.limit (costs_of objective) rows.now (map F.value duals.now) 0 columns.now) < 2 ^ 64 }
    ensures { TakesSteps 0 (all_reduced_steps F.value F.limit (costs_of objective) rows.now (map F.value duals.now) 0 columns.now) result }
{
    let mut taken = 0;
    for (j, _column) in columns.iter().enumerate() {
        let sum = cost_of(objective, j as u32);
        let cost = Partial { sum, taken };
        let reduced = reduced_cost(rows, duals, j as u32, cost)?;
        taken = reduced.taken;
    }
    Ok(taken)
}

/// The bound of a column that its reduced cost uses, for an upper or a lower bound of the
/// objective.
fn column_bound<F: ExactField>(above: bool, column: &Column<F>, reduced: F) -> Option<F>
    ensures { bound_value F.value result ≡ column_bound F.value above column.now (F.value reduced) }
{
    if above {
        bound_used(reduced, column.upper, column.lower)
    } else {
        bound_used(reduced, column.lower, column.upper)
    }
}

/// The columns' part of the bound: each reduced cost times the bound of its column that it uses,
/// added to the sum so far.
///
/// The steps of the reduced costs, which are made once more, all fit.
pub(crate) fn columns_part<F: ExactField>(
    rows: &[Row<F>],
    columns: &[Column<F>],
    objective: Option<u32>,
    duals: &[F],
    above: bool,
    start: Partial<F>,
) -> Result<Partial<F>, StepName>
    requires sized { length duals.now ≡ length rows.now }
    requires ordered { All (λ row. AllPairs (λ a b. a.0 < b.0) row.entries) rows.now }
    requires few { length columns.now ≤ 3000 }
    requires bounded { length (all_reduced_steps F.value F.limit (costs_of objective) rows.now (map F.value duals.now) 0 columns.now) < 2 ^ 64 }
    requires fit { first_unfit (all_reduced_steps F.value F.limit (costs_of objective) rows.now (map F.value duals.now) 0 columns.now) ≡ None }
    requires within_bound { start.taken + length (columns_steps F.value F.limit above
        (reduced_costs F.value (costs_of objective) rows.now (map F.value duals.now)) (F.value start.sum) 0 columns.now) <
        2 ^ 64 }
    ensures { Reaches F.value start.taken
        (columns_steps F.value F.limit above (reduced_costs F.value (costs_of objective) rows.now (map F.value duals.now)) (F.value start.sum) 0 columns.now)
        (columns_sum F.value above (reduced_costs F.value (costs_of objective) rows.now (map F.value duals.now)) (F.value start.sum) 0 columns.now) result }
{
    let mut partial = start;
    for (j, column) in columns.iter().enumerate() {
        let sum = cost_of(objective, j as u32);
        let cost = Partial { sum, taken: 0 };
        let reduced = reduced_cost(rows, duals, j as u32, cost)?;
        let bound = column_bound(above, column, reduced.sum);
        partial = partial.plus(reduced.sum, bound)?;
    }
    Ok(partial)
}

/// The columns' part of the bound from their known reduced costs: each times the bound of its
/// column that it uses, added to the sum so far.
pub(crate) fn columns_part_by<F: ExactField>(
    columns: &[Column<F>],
    costs: &[F],
    above: bool,
    start: Partial<F>,
) -> Result<Partial<F>, StepName>
    requires sized { length costs.now ≡ length columns.now }
    requires within_bound { start.taken + length (columns_steps F.value F.limit above (value_of_column (map F.value costs.now))
        (F.value start.sum) 0 columns.now) < 2 ^ 64 }
    ensures { Reaches F.value start.taken
        (columns_steps F.value F.limit above (value_of_column (map F.value costs.now)) (F.value start.sum) 0 columns.now)
        (columns_sum F.value above (value_of_column (map F.value costs.now)) (F.value start.sum) 0 columns.now) result }
{
    let mut partial = start;
    for (j, column) in columns.iter().enumerate() {
        let reduced = costs[j];
        let bound = column_bound(above, column, reduced);
        partial = partial.plus(reduced, bound)?;
    }
    Ok(partial)
}
