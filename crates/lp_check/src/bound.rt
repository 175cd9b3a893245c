//! The dual bound.
ghost use Rattle.std.specs.Prelude.{◌≡◌, ◌≢◌, ◌<◌, ◌≤◌, ◌^◌, ℕ, List, length, map, pos, None, IfOk, IfSome, true, false};
ghost use Rattle.std.specs.List.{All, AllPairs};
ghost use Rattle.gq_number.specs.Number.{Number, whole};
ghost use Rattle.gq_number.specs.Order.{◌≤ℚ◌};
ghost use Rattle.lp_core.specs.WellFormed.{IsWellFormed};
ghost use Rattle.lp_core.specs.Feasible.{Feasible};
ghost use Rattle.lp_core.specs.Sums.{value_of_column};
ghost use Rattle.lp_check.specs.BoundSteps.{bound_steps, objective_bound, Bounds};
ghost use Rattle.lp_check.specs.Partials.{Reaches, costs_of, is_above, first_unfit, steps_over, sum_over};

use crate::columns::{columns_part, columns_part_by, reduced_costs_fit};
use crate::costs::all_reduced_costs;
use crate::partial::Partial;
use crate::rows::rows_part;
use gq_field::ExactField;
use lp_core::{Column, Lp, Row, StepName};
use std::alloc::Global;

/// Whether the bound is an upper bound.
fn is_above<F: ExactField>(lp: &Lp<F>, with_objective: bool) -> bool
    ensures { result ≡ is_above with_objective lp.now }
{
    with_objective && lp.maximize
}

/// The bound over rows and columns, if each of its steps fits and there is memory for the reduced
/// costs.
///
/// It visits each entry once, and does not report which step does not fit.
fn bound_at_once<F: ExactField>(
    alloc: Global,
    rows: &[Row<F>],
    columns: &[Column<F>],
    objective: Option<u32>,
    above: bool,
    duals: &[F],
) -> Option<F>
    requires sized { length duals.now ≡ length rows.now }
    requires ordered { All (λ row. AllPairs (λ a b. a.0 < b.0) row.entries) rows.now }
    requires there { All (λ row. All (λ e. e.0 < length columns.now) row.entries) rows.now }
    requires objective { IfSome objective (λ column. column < length columns.now) }
    requires within_bound { length (steps_over F.value above (costs_of objective) rows.now columns.now (map F.value duals.now) F.limit) < 2 ^ 64 }
    ensures fit { IfSome result (λ bound. first_unfit
        (steps_over F.value above (costs_of objective) rows.now columns.now (map F.value duals.now) F.limit) ≡ None) }
    ensures value { IfSome result (λ bound. F.value bound ≡ sum_over F.value above (costs_of objective) rows.now columns.now (map F.value duals.now)) }
{
    let costs = all_reduced_costs(alloc, columns.len(), rows, objective, duals)?;
    let sum = F::zero();
    let start = Partial { sum, taken: 0 };
    let Ok(part) = rows_part(rows, duals, above, start) else {
        return None;
    };
    let Ok(bound) = columns_part_by(columns, costs.as_slice(), above, part) else {
        return None;
    };
    Some(bound.sum)
}

/// The bound over rows and columns, with its steps.
fn bound_over<F: ExactField>(
    rows: &[Row<F>],
    columns: &[Column<F>],
    objective: Option<u32>,
    above: bool,
    duals: &[F],
) -> Result<Partial<F>, StepName>
    requires sized { length duals.now ≡ length rows.now }
    requires ordered { All (λ row. AllPairs (λ a b. a.0 < b.0) row.entries) rows.now }
    requires few { length columns.now ≤ 3000 }
    requires within_bound { length (steps_over F.value above (costs_of objective) rows.now columns.now (map F.value duals.now) F.limit) < 2 ^ 64 }
    ensures { Reaches F.value 0
        (steps_over F.value above (costs_of objective) rows.now columns.now (map F.value duals.now) F.limit)
        (sum_over F.value above (costs_of objective) rows.now columns.now (map F.value duals.now)) result }
{
    let taken = reduced_costs_fit(rows, columns, objective, duals)?;
    let sum = F::zero();
    let start = Partial { sum, taken };
    let part = rows_part(rows, duals, above, start)?;
    columns_part(rows, columns, objective, duals, above, part)
}

/// The bound of the objective that `duals`, a factor for each row, give. If `with_objective` is
/// false, the objective is the number 0, minimized. The bound is a sum: for each row the dual times
/// a bound of the row's sum, and for each column the reduced cost times a bound of the column. When
/// minimizing, a dual or reduced cost above 0 uses the lower bound, and one below 0 the upper; when
/// maximizing, the reverse. One that is 0 uses no bound. Each bound that is used must exist.
///
/// When minimizing, the result is at most the objective's value at each feasible point; when
/// maximizing, at least. If `with_objective` is false and a point is feasible, the result is at
/// most 0. The error is `Check` with the number, from 0, of the first step that computes an integer
/// above the field's limit in magnitude. The steps of the reduced costs come first, column by
/// column: for each entry of the column in a row that is not `=n=`, a product and a difference.
/// Then come the terms of the sum, all rows before all columns: for each bound that is used, a
/// product and a sum. Chvatal, Linear Programming, chapters 5 and 9.
///
/// Out of memory is no error: without memory for the reduced costs, each column is looked for in
/// each row.
pub fn dual_bound<F: ExactField>(
    alloc: Global,
    lp: &Lp<F>,
    with_objective: bool,
    duals: &[F],
) -> Result<F, StepName>
    requires formed { IsWellFormed F.value lp.now }
    requires sized { length duals.now ≡ length lp.now.rows }
    requires there { objective_bound F.value with_objective lp.now (map F.value duals.now) ≢ None }
    ensures value { Bounds F.value (bound_steps F.value F.limit with_objective lp.now (map F.value duals.now))
        (objective_bound F.value with_objective lp.now (map F.value duals.now)) result }
    ensures least { IfOk result (λ bound. (x : List Number) → Feasible F.value lp.now x → with_objective ≡ true → lp.now.maximize ≡ false →
        F.value bound ≤ℚ value_of_column x lp.now.objective) }
    ensures greatest { IfOk result (λ bound. (x : List Number) → Feasible F.value lp.now x → with_objective ≡ true → lp.now.maximize ≡ true →
        value_of_column x lp.now.objective ≤ℚ F.value bound) }
    ensures none { IfOk result (λ bound. (x : List Number) → Feasible F.value lp.now x → with_objective ≡ false →
        F.value bound ≤ℚ whole (pos 0)) }
{
    let objective = with_objective.then_some(lp.objective);
    let above = is_above(lp, with_objective);
    let rows = lp.rows.as_slice();
    let columns = lp.columns.as_slice();
    if let Some(bound) = bound_at_once(alloc, rows, columns, objective, above, duals) {
        return Ok(bound);
    }
    let bound = bound_over(rows, columns, objective, above, duals)?;
    Ok(bound.sum)
}
