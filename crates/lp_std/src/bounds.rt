//! Columns: whether bounds cross, the shift of a column, and the numbers of variables.
ghost use Rattle.std.specs.Prelude.{◌≡◌, ◌≤◌, ◌<◌, ◌+◌, ◌^◌, ◌↔◌, length, map, sum_by, IfOk, IsTrue};
ghost use Rattle.lp_core.specs.Feasible.{bound_value};
ghost use Rattle.lp_core.specs.Proofs.{Crosses, FirstCrossed};
ghost use Rattle.lp_core.specs.StandardForm as form;
ghost use Rattle.lp_std.specs.Meaning.{shift_value};
ghost use Rattle.lp_std.specs.InnerSteps.{placed_value};

use crate::types::Shift;
use gq_field::ExactField;
use lp_core::Column;
use std::alloc::{AllocError, Global};

/// Whether the lower bound of a column exceeds its upper bound.
fn crosses<F: ExactField>(column: &Column<F>) -> bool
    ensures { IsTrue result ↔ Crosses F.value column.now.lower column.now.upper }
{
    match (column.lower, column.upper) {
        (Some(lower), Some(upper)) => upper.cmp_value(lower).is_lt(),
        _ => false,
    }
}

/// The first column whose lower bound exceeds its upper bound, from 0; `None` if no bounds cross.
pub(crate) fn first_crossed<F: ExactField>(columns: &[Column<F>]) -> Option<u32>
    requires { length columns.now < 2 ^ 32 }
    ensures { FirstCrossed F.value columns.now result }
{
    for (j, column) in columns.iter().enumerate() {
        if crosses(column) {
            return Some(j as u32);
        }
    }
    None
}

/// The shift of a column.
fn shift_of<F: ExactField>(column: &Column<F>) -> Shift<F>
    ensures { shift_value F.value result
        ≡ form.shift_of (bound_value F.value column.now.lower) (bound_value F.value column.now.upper) }
{
    match (column.lower, column.upper) {
        (Some(lower), _) => Shift::Lower(lower),
        (None, Some(upper)) => Shift::Upper(upper),
        (None, None) => Shift::Free,
    }
}

/// The shift of each column. The error is out of memory.
pub(crate) fn shifts_of<F: ExactField>(
    alloc: Global,
    columns: &[Column<F>],
) -> Result<Vec<Shift<F>>, AllocError>
    ensures { IfOk result (λ shifts. map (shift_value F.value) shifts.items
        ≡ map (λ column. form.shift_of (bound_value F.value column.lower) (bound_value F.value column.upper)) columns.now) }
{
    let mut shifts = Vec::new(alloc);
    for column in columns {
        shifts.push(shift_of(column))?;
    }
    Ok(shifts)
}

/// How many variables a shift has.
fn width_of<F: ExactField>(shift: Shift<F>) -> u32
    ensures { result ≡ form.width (shift_value F.value shift) }
{
    match shift {
        Shift::Free => 2,
        _ => 1,
    }
}

/// How many variables express the columns with these shifts.
pub(crate) fn variables_of<F: ExactField>(shifts: &[Shift<F>]) -> u32
    requires { sum_by (λ shift. form.width (shift_value F.value shift)) shifts.now ≤ 3000 }
    ensures { result ≡ sum_by (λ shift. form.width (shift_value F.value shift)) shifts.now }
{
    let mut count = 0;
    for shift in shifts {
        count += width_of(*shift);
    }
    count
}

/// Each column's shift with the number of the column's first variable; the variables are numbered
/// from 1.
pub(crate) fn placed<F: ExactField>(
    alloc: Global,
    shifts: &[Shift<F>],
) -> Result<Vec<(u32, Shift<F>)>, AllocError>
    requires { sum_by (λ shift. form.width (shift_value F.value shift)) shifts.now ≤ 3000 }
    ensures { IfOk result (λ placed. placed_value F.value placed.items
        ≡ form.numbered 1 (map (shift_value F.value) shifts.now)) }
{
    let mut placed = Vec::new(alloc);
    let mut next = 1;
    for shift in shifts {
        placed.push((next, *shift))?;
        next += width_of(*shift);
    }
    Ok(placed)
}
