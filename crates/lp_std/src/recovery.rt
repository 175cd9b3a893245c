//! The recovery: from what is read from a final dictionary to an answer of the program.
ghost use Rattle.std.specs.Prelude.{◌≡◌, ◌≤◌, ◌+◌, ◌++◌, length, map, None, IfOk, IfErr};
ghost use Rattle.std.specs.List.{All};
ghost use Rattle.lp_core.specs.Proofs.{row_sums, IsProved};
ghost use Rattle.lp_core.specs.Ends.{LeadsTo};
ghost use Rattle.lp_core.specs.StandardForm as form;
ghost use Rattle.lp_core.specs.Steps.{AllFit, levels_steps, row_levels_steps, duals_steps, reduced_costs_steps, optimal_steps, infeasible_steps, unbounded_steps, interrupted_steps, steps_back};
ghost use Rattle.lp_core.specs.WellFormed.{IsWellFormed};
ghost use Rattle.lp_std.specs.Recovery.{IsFormOf, HasNoRecovery};
ghost use Rattle.lp_std.specs.Last.{last_value, IsLast};
ghost use Rattle.lp_core.specs.declared.answer.EndKind.TheVariants as kind;
ghost use Rattle.lp_std.specs.InnerSteps.{first_stop, StopsAt, placed_value, ComputesAll, ComputesEnd, IsSized, AreSized};

use crate::bounds::{placed, variables_of};
use crate::duals::{count_rows, duals_of, reduced_costs_of};
use crate::levels::{levels_of, ray_of, row_levels_of};
use crate::stop::Stop;
use crate::types::{Final, Shift, Standard};
use gq_field::ExactField;
use lp_core::{End, EndKind, Lp, Sequence};
use std::alloc::Global;

/// A point: the value of each column, and the sum of each row.
#[derive(Drop)]
struct Point<F> {
    /// The value of each column.
    levels: Vec<F>,
    /// The sum of each row.
    row_levels: Vec<F>,
}

/// The point of a final dictionary.
fn point_of<F: ExactField>(
    alloc: Global,
    lp: &Lp<F>,
    columns: &[(u32, Shift<F>)],
    dict: &Final<F>,
) -> Result<Point<F>, Stop>
    requires well_formed { IsWellFormed F.value lp.now }
    requires numbered { placed_value F.value columns.now ≡ form.columns_of F.value lp.now }
    requires sized { IsSized F.value lp.now (length dict.now.values) }
    ensures levels { IfOk result (λ point. map F.value point.levels.items ≡ form.levels_back F.value lp.now (last_value F.value dict.now)) }
    ensures row_levels { IfOk result (λ point. map F.value point.row_levels.items
        ≡ row_sums F.value lp.now (form.levels_back F.value lp.now (last_value F.value dict.now))) }
    ensures all_fit { IfOk result (λ point. first_stop
        (levels_steps F.value F.limit lp.now (last_value F.value dict.now)
        ++ row_levels_steps F.value F.limit lp.now (last_value F.value dict.now)) ≡ None) }
    ensures err { IfErr result (StopsAt
        (levels_steps F.value F.limit lp.now (last_value F.value dict.now)
        ++ row_levels_steps F.value F.limit lp.now (last_value F.value dict.now))) }
{
    let levels = levels_of(alloc, columns, dict.values.as_slice())?;
    let row_levels = row_levels_of(alloc, lp.rows.as_slice(), levels.as_slice())?;
    Ok(Point { levels, row_levels })
}

/// The duals of an optimum, or the factors of rows where no point is feasible.
fn rows_back<F: ExactField>(
    alloc: Global,
    lp: &Lp<F>,
    variables: u32,
    dict: &Final<F>,
    maximize: bool,
) -> Result<Vec<F>, Stop>
    requires well_formed { IsWellFormed F.value lp.now }
    requires variables { variables ≡ form.variables_of F.value lp.now }
    requires sized { IsSized F.value lp.now (length dict.now.costs) }
    ensures { ComputesAll F.value (duals_steps F.value F.limit lp.now (last_value F.value dict.now))
        (map (form.directed maximize) (form.duals_from (form.multiplier variables (map F.value dict.now.costs)) 0 lp.now.rows)) result }
{
    let costs = dict.costs.as_slice();
    let slacks = &costs[variables as usize + 1..];
    duals_of(alloc, lp.rows.as_slice(), slacks, maximize)
}

/// The reduced costs of an optimum.
fn columns_back<F: ExactField>(
    alloc: Global,
    lp: &Lp<F>,
    variables: u32,
    columns: &[(u32, Shift<F>)],
    dict: &Final<F>,
) -> Result<Vec<F>, Stop>
    requires well_formed { IsWellFormed F.value lp.now }
    requires variables { variables ≡ form.variables_of F.value lp.now }
    requires numbered { placed_value F.value columns.now ≡ form.columns_of F.value lp.now }
    requires sized { IsSized F.value lp.now (length dict.now.costs) }
    ensures { ComputesAll F.value (reduced_costs_steps F.value F.limit lp.now (last_value F.value dict.now))
        (form.reduced_back F.value lp.now (last_value F.value dict.now)) result }
{
    let costs = dict.costs.as_slice();
    let slacks = &costs[variables as usize + 1..];
    let first = count_rows(lp.rows.as_slice());
    reduced_costs_of(
        alloc,
        lp.columns.as_slice(),
        columns,
        costs,
        slacks,
        first,
        lp.maximize,
    )
}

/// The optimum of a final dictionary.
fn optimum<F: ExactField>(
    alloc: Global,
    lp: &Lp<F>,
    variables: u32,
    columns: &[(u32, Shift<F>)],
    dict: &Final<F>,
) -> Result<End<F>, Stop>
    requires well_formed { IsWellFormed F.value lp.now }
    requires variables { variables ≡ form.variables_of F.value lp.now }
    requires numbered { placed_value F.value columns.now ≡ form.columns_of F.value lp.now }
    requires values { IsSized F.value lp.now (length dict.now.values) }
    requires costs { IsSized F.value lp.now (length dict.now.costs) }
    ensures { ComputesEnd (optimal_steps F.value F.limit lp.now (last_value F.value dict.now))
        (LeadsTo F.value lp.now kind.Optimal (last_value F.value dict.now)) result }
{
    let point = point_of(alloc, lp, columns, dict)?;
    let duals = rows_back(alloc, lp, variables, dict, lp.maximize)?;
    let reduced = columns_back(alloc, lp, variables, columns, dict)?;
    Ok(End::Optimal {
        levels: Sequence::new(point.levels),
        row_levels: Sequence::new(point.row_levels),
        duals: Sequence::new(duals),
        reduced: Sequence::new(reduced),
    })
}

/// The factors of rows from a final dictionary of phase 1.
fn infeasible<F: ExactField>(
    alloc: Global,
    lp: &Lp<F>,
    variables: u32,
    dict: &Final<F>,
) -> Result<End<F>, Stop>
    requires well_formed { IsWellFormed F.value lp.now }
    requires variables { variables ≡ form.variables_of F.value lp.now }
    requires costs { IsSized F.value lp.now (length dict.now.costs) }
    ensures { ComputesEnd (infeasible_steps F.value F.limit lp.now (last_value F.value dict.now))
        (LeadsTo F.value lp.now kind.Infeasible (last_value F.value dict.now)) result }
{
    let duals = rows_back(alloc, lp, variables, dict, false)?;
    Ok(End::Infeasible {
        duals: Sequence::new(duals),
        crossed: None,
    })
}

/// The point and the ray of a final dictionary.
fn unbounded<F: ExactField>(
    alloc: Global,
    lp: &Lp<F>,
    columns: &[(u32, Shift<F>)],
    dict: &Final<F>,
) -> Result<End<F>, Stop>
    requires well_formed { IsWellFormed F.value lp.now }
    requires numbered { placed_value F.value columns.now ≡ form.columns_of F.value lp.now }
    requires values { IsSized F.value lp.now (length dict.now.values) }
    requires ray { IsSized F.value lp.now (length dict.now.ray) }
    ensures { ComputesEnd (unbounded_steps F.value F.limit lp.now (last_value F.value dict.now))
        (LeadsTo F.value lp.now kind.Unbounded (last_value F.value dict.now)) result }
{
    let point = point_of(alloc, lp, columns, dict)?;
    let ray = ray_of(alloc, columns, dict.ray.as_slice())?;
    Ok(End::Unbounded {
        levels: Sequence::new(point.levels),
        row_levels: Sequence::new(point.row_levels),
        ray: Sequence::new(ray),
    })
}

/// The point at which the search was broken off.
fn interrupted<F: ExactField>(
    alloc: Global,
    lp: &Lp<F>,
    columns: &[(u32, Shift<F>)],
    dict: &Final<F>,
) -> Result<End<F>, Stop>
    requires well_formed { IsWellFormed F.value lp.now }
    requires numbered { placed_value F.value columns.now ≡ form.columns_of F.value lp.now }
    requires values { IsSized F.value lp.now (length dict.now.values) }
    ensures { ComputesEnd (interrupted_steps F.value F.limit lp.now (last_value F.value dict.now))
        (LeadsTo F.value lp.now kind.Interrupted (last_value F.value dict.now)) result }
{
    let point = point_of(alloc, lp, columns, dict)?;
    Ok(End::Interrupted {
        phase: 2,
        levels: Sequence::new(point.levels),
        row_levels: Sequence::new(point.row_levels),
    })
}

/// The end of the final dictionary's kind, with the lists that the recovery computes from what was
/// read.
pub(crate) fn led_back<F: ExactField>(
    alloc: Global,
    lp: &Lp<F>,
    s: &Standard<F>,
    dict: &Final<F>,
) -> Result<End<F>, Stop>
    requires well_formed { IsWellFormed F.value lp.now }
    requires form { IsFormOf F.value lp.now s.now }
    requires sized { AreSized F.value lp.now dict.now }
    ensures { ComputesEnd (steps_back F.value F.limit lp.now dict.now.kind (last_value F.value dict.now))
        (LeadsTo F.value lp.now dict.now.kind (last_value F.value dict.now)) result }
{
    let columns = placed(alloc, s.shifts.as_slice())?;
    let columns = columns.as_slice();
    let variables = variables_of(s.shifts.as_slice());
    match dict.kind {
        EndKind::Optimal => optimum(alloc, lp, variables, columns, dict),
        EndKind::Infeasible => infeasible(alloc, lp, variables, dict),
        EndKind::Unbounded => unbounded(alloc, lp, columns, dict),
        EndKind::Interrupted => interrupted(alloc, lp, columns, dict),
    }
}

/// The end of a search for an answer of `lp`, recovered from the final dictionary of its standard
/// form `s`, as in Chvatal, Linear Programming, chapters 1, 5 and 9.
///
/// `dict` has what was read from the dictionary. At `Optimal` the end has the levels of columns and
/// rows, the duals of rows and the reduced costs of columns; at `Infeasible` Farkas multipliers of
/// the rows; at `Unbounded` the levels of columns and rows, and a ray; at `Interrupted` phase 2 and
/// the levels of columns and rows. These values prove the end from the program's rows and bounds;
/// for `Interrupted` only that the levels are feasible.
///
/// `Limit` names the first step that does not fit under the limit of the field, in this order:
/// levels of columns, levels of rows, duals or multipliers of rows, reduced costs, ray. `Memory`
/// means out of memory, and can always occur. `Crossed` does not occur.
pub fn recover<F: ExactField>(
    alloc: Global,
    lp: &Lp<F>,
    s: &Standard<F>,
    dict: &Final<F>,
) -> Result<End<F>, Stop>
    requires well_formed { IsWellFormed F.value lp.now }
    requires form { IsFormOf F.value lp.now s.now }
    requires last { IsLast F.value s.now dict.now }
    ensures end { IfOk result (LeadsTo F.value lp.now dict.now.kind (last_value F.value dict.now)) }
    ensures all_fit { IfOk result (λ end. AllFit (steps_back F.value F.limit lp.now dict.now.kind (last_value F.value dict.now))) }
    ensures proved { IfOk result (IsProved F.value lp.now) }
    ensures stop { IfErr result (HasNoRecovery F.value F.limit lp.now dict.now.kind (last_value F.value dict.now)) }
{
    led_back(alloc, lp, s, dict)
}
