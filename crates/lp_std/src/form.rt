//! The standard form of a program.
ghost use Rattle.std.specs.Prelude.{◌≡◌, ◌≤◌, ◌<◌, ◌+◌, ◌^◌, ◌==◌, pos, map, length, None, IfOk, IfErr, if◌then◌else◌};
ghost use Rattle.gq_number.specs.Number.{whole};
ghost use Rattle.gq_number.specs.Sums.{sum_by_ℚ};
ghost use Rattle.lp_core.specs.WellFormed.{IsWellFormed};
ghost use Rattle.lp_core.specs.Proofs.{FirstCrossed};
ghost use Rattle.lp_core.specs.StandardForm as form;
ghost use Rattle.lp_core.specs.Steps.{AllFit, standard_steps};
ghost use Rattle.lp_std.specs.Meaning.{shift_value, row_value, standard_value, HasNoForm};
ghost use Rattle.lp_std.specs.InnerSteps.{first_stop, StopsAt, placed_value};

use crate::bounds::{first_crossed, placed, shifts_of, variables_of};
use crate::rows::{rows_of, with_bound_rows};
use crate::stop::Stop;
use crate::types::{Shift, Standard, StdRow};
use gq_field::ExactField;
use lp_core::{Lp, Sequence};
use std::alloc::{AllocError, Global};

/// A number when maximizing, the negated number when minimizing.
pub(crate) fn directed<F: ExactField>(maximize: bool, x: F) -> F
    ensures { F.value result ≡ form.directed maximize (F.value x) }
{
    if maximize { x } else { x.neg() }
}

/// The bound that a shift counts from; 0 without one.
fn base_of<F: ExactField>(shift: Shift<F>) -> F
    ensures { F.value result ≡ form.base (shift_value F.value shift) }
{
    match shift {
        Shift::Lower(bound) => bound,
        Shift::Upper(bound) => bound,
        Shift::Free => F::zero(),
    }
}

/// A number if a test holds, else 0.
fn kept_if<F: ExactField>(kept: bool, x: F) -> F
    ensures { F.value result ≡ if kept then F.value x else whole (pos 0) }
{
    if kept { x } else { F::zero() }
}

/// The coefficient of a variable in a multiple of a column whose first variable has this number.
fn coefficient_at<F: ExactField>(variable: u32, first: u32, shift: Shift<F>, factor: F) -> F
    requires { first + 1 < 2 ^ 32 }
    ensures { F.value result ≡ sum_by_ℚ (λ e. if e.0 == variable then e.1 else whole (pos 0))
        (form.spread first (shift_value F.value shift) (F.value factor)) }
{
    match shift {
        Shift::Lower(_) => kept_if(first == variable, factor),
        Shift::Upper(_) => kept_if(first == variable, factor.neg()),
        Shift::Free => {
            if first == variable {
                return factor;
            }
            kept_if(first + 1 == variable, factor.neg())
        }
    }
}

/// The coefficients of a multiple of a column, for `count` variables from number 1.
fn objective_of<F: ExactField>(
    alloc: Global,
    count: u32,
    first: u32,
    shift: Shift<F>,
    factor: F,
) -> Result<Vec<F>, AllocError>
    requires few { count ≤ 3000 }
    requires low { first + 1 < 2 ^ 32 }
    ensures { IfOk result (λ made. map F.value made.items
        ≡ form.objective_of count (form.spread first (shift_value F.value shift) (F.value factor))) }
{
    let mut coefficients = Vec::new(alloc);
    for variable in 1..count + 1 {
        coefficients.push(coefficient_at(variable, first, shift, factor))?;
    }
    Ok(coefficients)
}

/// The objective of a standard form.
#[derive(Drop)]
struct Objective<F> {
    /// The coefficient of each variable, from number 1.
    coefficients: Vec<F>,
    /// The constant.
    constant: F,
}

/// The objective for an objective column with this first variable and this shift.
fn objective_at<F: ExactField>(
    alloc: Global,
    count: u32,
    place: (u32, Shift<F>),
    maximize: bool,
) -> Result<Objective<F>, AllocError>
    requires few { count ≤ 3000 }
    requires low { place.0 + 1 < 2 ^ 32 }
    ensures coefficients { IfOk result (λ made. map F.value made.coefficients.items
        ≡ form.objective_of count (form.spread place.0 (shift_value F.value place.1) (form.directed maximize (whole (pos 1))))) }
    ensures constant { IfOk result (λ made. F.value made.constant
        ≡ form.directed maximize (form.base (shift_value F.value place.1))) }
{
    let factor = directed(maximize, F::one());
    let coefficients = objective_of(alloc, count, place.0, place.1, factor)?;
    let constant = directed(maximize, base_of(place.1));
    Ok(Objective {
        coefficients,
        constant,
    })
}

/// The rows of the standard form of a program, by its columns with the numbers of their first
/// variables.
fn all_rows<F: ExactField>(
    alloc: Global,
    columns: &[(u32, Shift<F>)],
    lp: &Lp<F>,
) -> Result<Vec<StdRow<F>>, Stop>
    requires well_formed { IsWellFormed F.value lp.now }
    requires numbered { placed_value F.value columns.now ≡ form.columns_of F.value lp.now }
    ensures ok { IfOk result (λ rows.
        (first_stop (standard_steps F.value F.limit lp.now) ≡ None)
        × (map (row_value F.value) rows.items ≡ form.rows_of F.value lp.now)) }
    ensures err { IfErr result (StopsAt (standard_steps F.value F.limit lp.now)) }
{
    let made = rows_of(alloc, columns, lp.rows.as_slice())?;
    let all = with_bound_rows(alloc, made, columns, lp.columns.as_slice())?;
    Ok(all)
}

/// The standard form of a program in which no bounds cross.
fn formed<F: ExactField>(alloc: Global, lp: &Lp<F>) -> Result<Standard<F>, Stop>
    requires well_formed { IsWellFormed F.value lp.now }
    ensures form { IfOk result (λ s. standard_value F.value s ≡ form.standard_form F.value lp.now) }
    ensures all_fit { IfOk result (λ s. first_stop (standard_steps F.value F.limit lp.now) ≡ None) }
    ensures err { IfErr result (StopsAt (standard_steps F.value F.limit lp.now)) }
{
    let shifts = shifts_of(alloc, lp.columns.as_slice())?;
    let columns = placed(alloc, shifts.as_slice())?;
    let rows = all_rows(alloc, columns.as_slice(), lp)?;
    let count = variables_of(shifts.as_slice());
    let place = columns[lp.objective as usize];
    let objective = objective_at(alloc, count, place, lp.maximize)?;
    Ok(Standard {
        shifts: Sequence::new(shifts),
        rows: Sequence::new(rows),
        objective: Sequence::new(objective.coefficients),
        constant: objective.constant,
    })
}

/// The standard form of a linear program, as in Chvatal, Linear Programming, chapter 1: maximize
/// the objective, negated when minimizing, over variables that are at least 0; the sum of each row
/// is at most its right side.
///
/// A column with a lower bound is replaced by that bound plus a variable; one with only an upper
/// bound by that bound less a variable; one without bounds by the difference of two variables. The
/// constants of rows move to the right sides. A `=l=` row is kept, a `=g=` row is negated, an `=e=`
/// row gives itself, then its negation; an `=n=` row gives none. Then each column with two bounds
/// gives a row: its variable is at most the bounds' difference.
///
/// If a lower bound exceeds the upper bound, `Crossed` has the first such column. Else `Limit`
/// names the first step whose result does not fit under the field's limit, in the order of the
/// rows, then of the columns with two bounds. `Memory`, out of memory, can always occur.
pub fn standard<F: ExactField>(alloc: Global, lp: &Lp<F>) -> Result<Standard<F>, Stop>
    requires well_formed { IsWellFormed F.value lp.now }
    ensures form { IfOk result (λ s. standard_value F.value s ≡ form.standard_form F.value lp.now) }
    ensures none_crosses { IfOk result (λ s. FirstCrossed F.value lp.now.columns None) }
    ensures all_fit { IfOk result (λ s. AllFit (standard_steps F.value F.limit lp.now)) }
    ensures stop { IfErr result (HasNoForm F.value F.limit lp.now) }
{
    if let Some(column) = first_crossed(lp.columns.as_slice()) {
        return Err(Stop::Crossed(column));
    }
    formed(alloc, lp)
}
