//! The reduced costs of all columns at once: each entry is visited in order, row by row.
ghost use Rattle.std.specs.Prelude.{◌≡◌, ◌<◌, ℕ, length, map, pos, None, Some, IfOk, IfSome};
ghost use Rattle.std.specs.List.{All, AllPairs};
ghost use Rattle.gq_number.specs.Number.{whole};
ghost use Rattle.lp_core.specs.Sums.{value_of_column};
ghost use Rattle.lp_core.specs.Steps.{asks_nothing};
ghost use Rattle.lp_check.specs.BoundSteps.{entry_of, entry_in, reduced_cost_bound_steps};
ghost use Rattle.lp_check.specs.Partials.{Lessened, costs_of, reduced_costs, first_unfit};

use crate::partial::Partial;
use gq_field::ExactField;
use lp_core::{Row, Sense};
use std::alloc::{AllocError, Global};

/// A list of `count` zeros.
fn zeros<F: ExactField>(alloc: Global, count: usize) -> Result<Vec<F>, AllocError>
    ensures sized { IfOk result (λ list. length list.items ≡ count) }
    ensures zeros { IfOk result (λ list. (j : ℕ) → value_of_column (map F.value list.items) j ≡ whole (pos 0)) }
{
    let mut list = Vec::with_capacity(alloc, count)?;
    for _column in 0..count {
        list.push(F::zero())?;
    }
    Ok(list)
}

/// The costs of `count` columns: 1 at the objective, if any, and else 0.
fn all_costs<F: ExactField>(
    alloc: Global,
    count: usize,
    objective: Option<u32>,
) -> Result<Vec<F>, AllocError>
    requires { IfSome objective (λ column. column < count) }
    ensures sized { IfOk result (λ list. length list.items ≡ count) }
    ensures costs { IfOk result (λ list. (j : ℕ) → value_of_column (map F.value list.items) j ≡ costs_of objective j) }
{
    let mut list = zeros(alloc, count)?;
    let Some(column) = objective else {
        return Ok(list);
    };
    list[column as usize] = F::one();
    Ok(list)
}

/// Whether a row is nonbinding (`=n=`).
fn asks_nothing<F: ExactField>(row: &Row<F>) -> bool
    ensures { result ≡ asks_nothing row.now.sense }
{
    matches!(row.sense, Sense::N)
}

/// Subtracts a factor times each entry from the number of its column. None if a step does not fit.
fn less_entries<F: ExactField>(costs: &mut [F], entries: &[(u32, F)], factor: F) -> Option<()>
    requires ordered { AllPairs (λ a b. a.0 < b.0) entries.now }
    requires there { All (λ e. e.0 < length costs.old) entries.now }
    ensures sized { length costs.new ≡ length costs.old }
    ensures less { IfSome result (λ done. Lessened F.limit (F.value factor) (entry_of F.value entries.now)
        (value_of_column (map F.value costs.old)) (value_of_column (map F.value costs.new))) }
{
    for entry in entries {
        let column = entry.0 as usize;
        let sum = costs[column];
        let cost = Partial { sum, taken: 0 };
        let Ok(less) = cost.less(factor, Some(entry.1)) else {
            return None;
        };
        costs[column] = less.sum;
    }
    Some(())
}

/// Subtracts a row's dual times its entries from the costs, if the row is binding. None if a step
/// does not fit.
fn less_row<F: ExactField>(costs: &mut [F], row: &Row<F>, dual: F) -> Option<()>
    requires ordered { AllPairs (λ a b. a.0 < b.0) row.now.entries }
    requires there { All (λ e. e.0 < length costs.old) row.now.entries }
    ensures sized { length costs.new ≡ length costs.old }
    ensures less { IfSome result (λ done. Lessened F.limit (F.value dual) (λ j. entry_in F.value j row.now)
        (value_of_column (map F.value costs.old)) (value_of_column (map F.value costs.new))) }
{
    if asks_nothing(row) {
        return Some(());
    }
    less_entries(costs, row.entries.as_slice(), dual)
}

/// The reduced costs of `count` columns, if each of their steps fits and there is memory for them.
pub(crate) fn all_reduced_costs<F: ExactField>(
    alloc: Global,
    count: usize,
    rows: &[Row<F>],
    objective: Option<u32>,
    duals: &[F],
) -> Option<Vec<F>>
    requires sized { length duals.now ≡ length rows.now }
    requires ordered { All (λ row. AllPairs (λ a b. a.0 < b.0) row.entries) rows.now }
    requires there { All (λ row. All (λ e. e.0 < count) row.entries) rows.now }
    requires objective { IfSome objective (λ column. column < count) }
    ensures sized { IfSome result (λ costs. length costs.items ≡ count) }
    ensures fit { IfSome result (λ costs. (j : ℕ) →
        first_unfit (reduced_cost_bound_steps F.value F.limit j (costs_of objective j) rows.now (map F.value duals.now)) ≡ None) }
    ensures costs { IfSome result (λ costs. (j : ℕ) → value_of_column (map F.value costs.items) j ≡
        reduced_costs F.value (costs_of objective) rows.now (map F.value duals.now) j) }
{
    let Ok(mut costs) = all_costs(alloc, count, objective) else {
        return None;
    };
    for (i, row) in rows.iter().enumerate() {
        less_row(costs.as_mut_slice(), row, duals[i])?;
    }
    Some(costs)
}
