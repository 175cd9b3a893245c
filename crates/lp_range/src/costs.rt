//! The ranges of costs.
ghost use Rattle.std.specs.Prelude.{◌≡◌, ◌+◌, ◌≤◌, length, map, sum_by, true, IfOk};
ghost use Rattle.gq_number.specs.Number.{neg_ℚ};
ghost use Rattle.lp_core.specs.Dictionary.{IsDictionaryOf};
ghost use Rattle.lp_core.specs.WellFormed.{IsWellFormed};
ghost use Rattle.lp_core.specs.DualBound.{objective_costs};
ghost use Rattle.lp_core.specs.StandardForm.{standard_form, directed as directed_number, width, numbered};
ghost use Rattle.lp_std.specs.Meaning.{standard_value, shift_value};
ghost use Rattle.lp_fraction_dict.specs.Tableau.{IsPlace};
ghost use Rattle.lp_dict.specs.Tableau.{dictionary};
ghost use Rattle.lp_range.specs.Spans.{span};
ghost use Rattle.lp_range.specs.Ranges as of;
ghost use Rattle.lp_range.specs.Ranges.{span_value, change, cost_gain, cost_gains, cost_spans};
ghost use Rattle.lp_range.specs.InnerSteps.{IsFound, EndsWith, IsPlaced, FindsChange};

use crate::interval::{Interval, all_numbers, around, with_amount};
use gq_field::ExactField;
use lp_core::Lp;
use lp_dict::Dict;
use lp_std::{Shift, Standard};
use std::alloc::{AllocError, Global};
use std::cmp::Ordering;

/// A variable, and the row in which it is basic.
#[derive(Clone, Copy)]
pub(crate) struct Placed {
    pub(crate) variable: u32,
    pub(crate) row: Option<usize>,
}

/// A column by its shift and its variables, each with its row. Only a column without bounds uses
/// the second.
#[derive(Clone, Copy)]
pub(crate) struct ColumnPlace<F> {
    pub(crate) shift: Shift<F>,
    pub(crate) first: Placed,
    pub(crate) second: Placed,
}

/// A variable with its row.
fn place_of<F: ExactField>(dict: &Dict<F>, variable: u32) -> Placed
    ensures variable { result.variable ≡ variable }
    ensures row { IsPlace dict.now.basic variable result.row }
{
    Placed {
        variable,
        row: dict.row_of(variable),
    }
}

/// The nonbasic variables from number 1. The only error is out of memory.
fn others_of<F: ExactField>(alloc: Global, dict: &Dict<F>) -> Result<Vec<u32>, AllocError>
    ensures { IfOk result (λ made. made.items ≡ of.nonbasic_variables F.limit (dictionary F.value dict.now)) }
{
    let mut others = Vec::new(alloc);
    dict.keeps();
    for variable in 1..dict.variables() + 1 {
        if !dict.is_basic(variable) {
            others.push(variable)?;
        }
    }
    Ok(others)
}

/// What a variable gains when a nonbasic variable rises by 1.
fn change_of<F: ExactField>(dict: &Dict<F>, other: u32, placed: Placed) -> F
    requires there { other ≤ dict.now.variables }
    requires placed { IsPlace dict.now.basic placed.variable placed.row }
    ensures { F.value result ≡ change F.limit (dictionary F.value dict.now) other placed.variable }
{
    dict.keeps();
    match placed.row {
        Some(row) => dict.number(row, other as usize + 1).neg(),
        None => {
            if placed.variable == other {
                F::one()
            } else {
                F::zero()
            }
        }
    }
}

/// What a column gains when a nonbasic variable rises by 1. None if the difference of its two
/// variables' gains does not fit.
fn column_change_of<F: ExactField>(dict: &Dict<F>, other: u32, column: ColumnPlace<F>) -> Option<F>
    requires there { other ≤ dict.now.variables }
    requires placed { IsPlaced dict.now.basic column }
    ensures { FindsChange F.value F.limit (dictionary F.value dict.now) column other result }
{
    let first = change_of(dict, other, column.first);
    match column.shift {
        Shift::Lower(_) => Some(first),
        Shift::Upper(_) => Some(first.neg()),
        Shift::Free => match first.sub(change_of(dict, other, column.second)) {
            Ok(difference) => Some(difference),
            Err(_) => None,
        },
    }
}

/// A number unchanged when maximizing, and negated when minimizing.
fn directed<F: ExactField>(maximize: bool, x: F) -> F
    ensures { F.value result ≡ directed_number maximize (F.value x) }
{
    if maximize { x } else { x.neg() }
}

/// What keeps a variable from entering, and its loss for each unit by which the cost of a column
/// rises.
fn gain_of<F: ExactField>(
    dict: &Dict<F>,
    maximize: bool,
    other: u32,
    column: ColumnPlace<F>,
) -> Option<F>
    requires there { other ≤ dict.now.variables }
    requires placed { IsPlaced dict.now.basic column }
    ensures { IsFound F.value (cost_gain F.limit (dictionary F.value dict.now) maximize
        (column.first.variable, shift_value F.value column.shift) other) result }
{
    match column_change_of(dict, other, column) {
        Some(gained) => Some(directed(maximize, gained).neg()),
        None => None,
    }
}

/// The moves so far, narrowed to those that keep a nonbasic variable from entering, whose loss
/// gains `each` for a unit of the move. Its coefficient is read only if that is not 0. None if the
/// quotient of the two, which is an end, does not fit.
fn with_coefficient<F: ExactField>(
    dict: &Dict<F>,
    other: u32,
    moves: Interval<F>,
    each: F,
) -> Option<Interval<F>>
    requires { other ≤ dict.now.variables }
    ensures { EndsWith F.value F.limit moves
        (record { amount = neg_ℚ ((dictionary F.value dict.now).numbers (length dict.now.basic) (other + 1)); each = F.value each; fits = true }) result }
{
    match each.cmp_value(F::zero()) {
        Ordering::Equal => Some(moves),
        _ => {
            dict.keeps();
            let amount = dict.number(dict.len(), other as usize + 1).neg();
            with_amount(moves, amount, each)
        }
    }
}

/// The range of the cost of a column at a final dictionary, whose nonbasic variables are `others`.
/// None if a step does not fit.
fn range_of<F: ExactField>(
    dict: &Dict<F>,
    others: &[u32],
    maximize: bool,
    column: ColumnPlace<F>,
    cost: F,
) -> Option<Interval<F>>
    requires others { others.now ≡ of.nonbasic_variables F.limit (dictionary F.value dict.now) }
    requires placed { IsPlaced dict.now.basic column }
    ensures { span_value F.value result ≡ span F.limit (F.value cost)
        (cost_gains F.limit (dictionary F.value dict.now) maximize (column.first.variable, shift_value F.value column.shift)) }
{
    dict.keeps();
    let mut moves = all_numbers();
    for other in others {
        let Some(each) = gain_of(dict, maximize, *other, column) else {
            return None;
        };
        let Some(after) = with_coefficient(dict, *other, moves, each) else {
            return None;
        };
        moves = after;
    }
    around(cost, moves)
}

/// How many variables a shift has.
fn width_of<F: ExactField>(shift: Shift<F>) -> u32
    ensures { result ≡ width (shift_value F.value shift) }
{
    match shift {
        Shift::Free => 2,
        _ => 1,
    }
}

/// The cost of the column at a place: 1 for the objective, 0 for each other.
fn cost_of<F: ExactField>(lp: &Lp<F>, place: usize) -> F
    ensures { F.value result ≡ objective_costs lp.now place }
{
    if lp.objective as usize == place {
        F::one()
    } else {
        F::zero()
    }
}

/// The range of the cost of each column, by its shift, at a final dictionary whose nonbasic
/// variables are `others`.
fn ranges_of<F: ExactField>(
    alloc: Global,
    lp: &Lp<F>,
    shifts: &[Shift<F>],
    others: &[u32],
    dict: &Dict<F>,
) -> Result<Vec<Option<Interval<F>>>, AllocError>
    requires others { others.now ≡ of.nonbasic_variables F.limit (dictionary F.value dict.now) }
    requires few { sum_by (λ shift. width (shift_value F.value shift)) shifts.now ≤ 3000 }
    ensures { IfOk result (λ made. map (span_value F.value) made.items
        ≡ cost_spans F.limit (dictionary F.value dict.now) lp.now 0 (numbered 1 (map (shift_value F.value) shifts.now))) }
{
    let mut made = Vec::new(alloc);
    let mut variable = 1;
    for (place, shift) in shifts.iter().enumerate() {
        let column = ColumnPlace {
            shift: *shift,
            first: place_of(dict, variable),
            second: place_of(dict, variable + 1),
        };
        let cost = cost_of(lp, place);
        made.push(range_of(dict, others, lp.maximize, column, cost))?;
        variable += width_of(*shift);
    }
    Ok(made)
}

/// The range of the cost of each column at a final dictionary; `None` for a column if a step does
/// not fit. The only error is out of memory.
pub(crate) fn costs_of<F: ExactField>(
    alloc: Global,
    lp: &Lp<F>,
    s: &Standard<F>,
    dict: &Dict<F>,
) -> Result<Vec<Option<Interval<F>>>, AllocError>
    requires well_formed { IsWellFormed F.value lp.now }
    requires form { standard_value F.value s.now ≡ standard_form F.value lp.now }
    ensures { IfOk result (λ made. map (span_value F.value) made.items ≡ of.costs F.value F.limit lp.now (dictionary F.value dict.now)) }
{
    let others = others_of(alloc, dict)?;
    ranges_of(alloc, lp, s.shifts.as_slice(), others.as_slice(), dict)
}
