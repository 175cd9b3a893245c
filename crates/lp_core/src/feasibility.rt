//! Whether a point is feasible, computed exactly with steps that are counted.
ghost use Rattle.std.specs.Prelude.{◌≡◌, ◌+◌, ◌*◌, ◌<◌, ◌^◌, ◌↔◌, ℕ, map, length, pos, Ok, IsTrue, IfOk};
ghost use Rattle.std.specs.List.{All};
ghost use Rattle.std.specs.Result.{result_map_both};
ghost use Rattle.gq_number.specs.Number.{whole};
ghost use Rattle.lp_core.specs.Feasible.{Feasible, bound_value};
ghost use Rattle.lp_core.specs.WellFormed.{IsWellFormed};
ghost use Rattle.lp_core.specs.Steps.{checked_sum, at_most, keeps_lower, keeps_upper, bounds_hold, keeps_sense, asks_nothing, checked_rows, steps_of_rows, checked_point};

use crate::answer::StepName;
use crate::program::{Column, Lp, Row, Sense};
use gq_field::ExactField;
use std::cmp::Ordering;

/// Whether a number is at most another.
fn at_most_of<F: ExactField>(x: F, y: F) -> bool
    ensures { result ≡ at_most (F.value x) (F.value y) }
{
    match x.cmp_value(y) {
        Ordering::Greater => false,
        _ => true,
    }
}

/// Whether a value keeps a lower bound, if there is one.
fn keeps_lower_of<F: ExactField>(bound: Option<F>, x: F) -> bool
    ensures { result ≡ keeps_lower (bound_value F.value bound) (F.value x) }
{
    match bound {
        None => true,
        Some(bound) => at_most_of(bound, x),
    }
}

/// Whether a value keeps an upper bound, if there is one.
fn keeps_upper_of<F: ExactField>(bound: Option<F>, x: F) -> bool
    ensures { result ≡ keeps_upper (bound_value F.value bound) (F.value x) }
{
    match bound {
        None => true,
        Some(bound) => at_most_of(x, bound),
    }
}

/// Whether each value keeps the bounds of its column.
fn keep_bounds<F: ExactField>(columns: &[Column<F>], x: &[F]) -> bool
    requires { length x.now ≡ length columns.now }
    ensures { result ≡ bounds_hold F.value (map F.value x.now) 0 columns.now }
{
    for (j, column) in columns.iter().enumerate() {
        let level = x[j];
        if !keeps_lower_of(column.lower, level) {
            return false;
        }
        if !keeps_upper_of(column.upper, level) {
            return false;
        }
    }
    true
}

/// The sum of a row at a point, or the first step that does not fit. `first` is the number of the
/// first step.
fn sum_of<F: ExactField>(entries: &[(u32, F)], x: &[F], first: u64) -> Result<F, StepName>
    requires there { All (λ e. e.0 < length x.now) entries.now }
    requires within_bound { first + 2 * length entries.now < 2 ^ 64 }
    ensures { result_map_both F.value (λ step. step) result
        ≡ checked_sum F.value F.limit (map F.value x.now) first (whole (pos 0)) entries.now }
{
    let mut sum = F::zero();
    let mut step = first;
    for (column, coefficient) in entries {
        let level = x[*column as usize];
        let Ok(product) = coefficient.mul(level) else {
            return Err(StepName::Check { part: step });
        };
        let Ok(next) = sum.add(product) else {
            return Err(StepName::Check { part: step + 1 });
        };
        sum = next;
        step += 2;
    }
    Ok(sum)
}

/// Whether the sum of a row and its right side compare as the sense says.
fn keeps_sense_of<F: ExactField>(sense: Sense, sum: F, right: F) -> bool
    ensures { result ≡ keeps_sense sense (F.value sum) (F.value right) }
{
    match sense {
        Sense::E => at_most_of(sum, right) && at_most_of(right, sum),
        Sense::L => at_most_of(sum, right),
        Sense::G => at_most_of(right, sum),
        Sense::N => true,
    }
}

/// Whether a row of this sense is nonbinding.
fn asks_nothing_of(sense: Sense) -> bool
    ensures { result ≡ asks_nothing sense }
{
    match sense {
        Sense::N => true,
        _ => false,
    }
}

/// Whether the sum of each row compares with its right side as its sense says, or the first step
/// that does not fit.
fn keep_rows<F: ExactField>(rows: &[Row<F>], x: &[F]) -> Result<bool, StepName>
    requires there { All (λ row. All (λ e. e.0 < length x.now) row.entries) rows.now }
    requires within_bound { steps_of_rows rows.now < 2 ^ 64 }
    ensures { result ≡ checked_rows F.value F.limit (map F.value x.now) 0 rows.now }
{
    let mut step = 0;
    for row in rows {
        if asks_nothing_of(row.sense) {
            continue;
        }
        let sum = sum_of(row.entries.as_slice(), x, step)?;
        if !keeps_sense_of(row.sense, sum, row.right) {
            return Ok(false);
        }
        step += 2 * row.entries.len() as u64;
    }
    Ok(true)
}

/// Whether the point `x` is feasible: each value is within the bounds of its column, and the sum of
/// each row compares with the row's right side as the row's sense says. `x` must have one value for
/// each column, in the order of the columns.
///
/// The bounds are checked first, then the rows except those of the sense N (`=n=`), in order.
/// Before a row is compared, each of its entries takes two steps: a product, then a sum. A step is
/// named `Check` with its number, from 0 over these rows. The check ends at the first bound or row
/// not satisfied, with `Ok(false)`, or at the first step with a numerator or denominator beyond the
/// field's limit, the error.
pub fn feasible_at<F: ExactField>(lp: &Lp<F>, x: &[F]) -> Result<bool, StepName>
    requires well_formed { IsWellFormed F.value lp.now }
    requires sized { length x.now ≡ length lp.now.columns }
    ensures outcome { result ≡ checked_point F.value F.limit lp.now (map F.value x.now) }
    ensures feasible { IfOk result (λ yes.
        IsTrue yes ↔ Feasible F.value lp.now (map F.value x.now)) }
{
    if !keep_bounds(lp.columns.as_slice(), x) {
        return Ok(false);
    }
    keep_rows(lp.rows.as_slice(), x)
}
