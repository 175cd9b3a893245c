//! The exchange of all rows: those of the basic variables, and the objective after them.
ghost use Rattle.std.specs.Prelude.{◌≡◌, ℕ, ◌<◌, ◌≤◌, ◌^◌, pos, ◌<ℤ◌, length, slice_get, slice_set, Some, IfOk, MatchOption};
ghost use Rattle.lp_integer_rows.specs.declared.line.Line.{Line};
ghost use Rattle.lp_integers.specs.Lines.{whole_at, ArePlaces};
ghost use Rattle.lp_integer_rows.specs.Form.{wholes, IsLine, AreLines, AreLinesBut, AreBounded, AreSameLines, IsDividedLine, ArePlanned, AreLinesExchanged, AreTurned, IsPlan, IsSomeCrowded};

use crate::leading::Leading;
use crate::line::{Factors, Line, apply, divide_pivot, plan, reduce};
use crate::marks::Marks;
use lp_integers::Numbers;
use std::alloc::{AllocError, Global};
use std::mem;

/// The factors of each row of `lines` for the exchange that makes the variable at `column` basic in
/// the pivot row. The pivot row is at `place` in `lines` and passed as `pivot` too; its integer at
/// `column` must be above 0. Each row is multiplied by its factor `line`, and the pivot row times
/// its factor `pivot` is subtracted, which makes the row 0 at `column`. The factors for the pivot
/// row itself leave it unchanged.
///
/// No integer of a row exceeds |`line`| times the row's `most` plus |`pivot`| times the pivot row's
/// `most` in magnitude after the exchange. `None` means that this exceeds `bound` for some row but
/// the pivot row. Before the call no row's `most` may exceed `bound`. The error is out of memory.
pub fn plan_lines(
    alloc: Global,
    lines: &[Line],
    place: usize,
    column: usize,
    pivot: &Line,
    bound: u128,
) -> Result<Option<Vec<Factors>>, AllocError>
    requires lines { (width : ℕ) × AreLines width lines.now × (length (wholes pivot.now) ≡ width) × (column < width) }
    requires small { bound < 2 ^ 127 }
    requires pivot { IsLine pivot.now }
    requires above { pos 0 <ℤ whole_at (wholes pivot.now) column }
    requires bounded { AreBounded bound lines.now }
    ensures { IfOk result (λ o. MatchOption o (IsSomeCrowded bound column place lines.now pivot.now)
        (λ plans. ArePlanned bound column place lines.now pivot.now plans.items (length lines.now))) }
{
    let mut plans = Vec::with_capacity(alloc, lines.len())?;
    for i in 0..lines.len() {
        let factors = if i == place {
            Factors::of_own(pivot)
        } else {
            let Some(factors) = plan(&lines[i], column, pivot, bound) else {
                return Ok(None);
            };
            factors
        };
        plans.push(factors)?;
    }
    Ok(Some(plans))
}

/// Subtracts from each row, except that of the place, its multiple of the pivot row, and divides
/// rows with great or scaled integers. `places` are the places at which the pivot row is not 0. The
/// only error is out of memory.
fn apply_plans(
    alloc: Global,
    lines: &mut Vec<Line>,
    plans: &[Factors],
    place: usize,
    pivot: &Line,
    places: &[usize],
) -> Result<(), AllocError>
    requires lines { (width : ℕ) × AreLinesBut place width lines.old.items × (length (wholes pivot.now) ≡ width) }
    requires pivot { IsLine pivot.now }
    requires places { ArePlaces (wholes pivot.now) (length (wholes pivot.now)) places.now }
    requires planned { (bound column : ℕ) × IsPlan bound column place lines.old.items pivot.now plans.now }
    ensures { IfOk result (λ _. (bound column : ℕ) → IsPlan bound column place lines.old.items pivot.now plans.now →
        AreLinesExchanged column place pivot.now plans.now lines.old.items lines.new.items (length lines.old.items)) }
{
    for i in 0..lines.len() {
        if i != place {
            let factors = plans[i];
            let line = &mut lines[i];
            apply(alloc, line, factors, pivot, places)?;
        }
    }
    Ok(())
}

/// Replaces the row at `place` with this one, and returns the row that was there.
pub(crate) fn put_line(lines: &mut Vec<Line>, place: usize, line: Line) -> Line
    requires { place < length lines.old.items }
    ensures given { slice_get lines.old.items place ≡ Some result }
    ensures put { lines.new.items ≡ slice_set lines.old.items place line }
{
    let old = &mut lines[place];
    mem::replace(old, line)
}

/// Divides the pivot row by its number at a column, and by the common divisor of the result. The
/// only error is out of memory.
fn turn_pivot(alloc: Global, line: &mut Line, column: usize) -> Result<(), AllocError>
    requires line { IsLine line.old }
    requires within { column < length (wholes line.old) }
    requires above { pos 0 <ℤ whole_at (wholes line.old) column }
    ensures { IfOk result (λ _. IsDividedLine column line.old line.new) }
{
    divide_pivot(line, column);
    reduce(alloc, line)
}

/// Stores only the integers of a row that are not 0, if `count`, the number of these, is at most
/// one in 16 of its columns. The integers stay. The only error is out of memory.
fn spare_zeros(alloc: Global, line: &mut Line, count: usize) -> Result<(), AllocError>
    ensures { IfOk result (λ _. line.new ≡ line.old) }
{
    line.numbers.spare_zeros(alloc, count)
}

/// A row without columns.
pub(crate) fn no_line(alloc: Global) -> Line {
    Line {
        numbers: Numbers::empty(alloc),
        denominator: 1,
        most: 1,
        marks: Marks::everywhere(),
        leading: Leading {
            constant: 0,
            zero: 0,
        },
    }
}

/// Exchanges, in all rows, the basic variable of the row at `place` and the variable at `column`.
/// `plans` must have, in the order of the rows, the factors that `plan_lines` gives for this
/// exchange. Each changed row may also be divided, integers and denominator, by a common divisor,
/// which leaves its fractions the same. The only error is out of memory.
pub fn exchange_lines(
    alloc: Global,
    lines: &mut Vec<Line>,
    plans: &[Factors],
    place: usize,
    column: usize,
) -> Result<(), AllocError>
    requires within { place < length lines.old.items }
    requires lines { (width : ℕ) × AreLines width lines.old.items × (column < width) }
    requires planned { (bound : ℕ) × ((l : Line) → slice_get lines.old.items place ≡ Some l → IsPlan bound column place lines.old.items l plans.now) }
    ensures { IfOk result (λ _. AreTurned column place plans.now lines.old.items lines.new.items) }
{
    let mut pivot = put_line(lines, place, no_line(alloc));
    let places = pivot.numbers.places(alloc)?;
    spare_zeros(alloc, &mut pivot, places.len())?;
    apply_plans(alloc, lines, plans, place, &pivot, places.as_slice())?;
    turn_pivot(alloc, &mut pivot, column)?;
    let _ = put_line(lines, place, pivot);
    Ok(())
}

/// Divides the integers and the denominator of each row by their greatest common divisor. The
/// fractions that they represent stay the same. The only error is out of memory.
pub fn reduce_lines(alloc: Global, lines: &mut Vec<Line>) -> Result<(), AllocError>
    requires { (width : ℕ) × AreLines width lines.old.items }
    ensures { IfOk result (λ _. AreSameLines lines.old.items lines.new.items) }
{
    for i in 0..lines.len() {
        let line = &mut lines[i];
        reduce(alloc, line)?;
    }
    Ok(())
}
