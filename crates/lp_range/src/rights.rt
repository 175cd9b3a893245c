//! The ranges of right sides.
ghost use Rattle.std.specs.Prelude.{◌≡◌, ◌+◌, ◌<◌, ◌≤◌, map, length, true, IfOk};
ghost use Rattle.lp_core.specs.Dictionary.{IsDictionaryOf};
ghost use Rattle.lp_core.specs.WellFormed.{IsWellFormed};
ghost use Rattle.lp_core.specs.StandardForm.{standard_form, rows_of_sense};
ghost use Rattle.lp_core.specs.Steps.{count_of_rows};
ghost use Rattle.lp_dict.specs.Tableau.{dictionary};
ghost use Rattle.lp_range.specs.Spans.{span};
ghost use Rattle.lp_range.specs.Ranges as of;
ghost use Rattle.lp_range.specs.Ranges.{span_value, right_gain, right_gains, right_spans};
ghost use Rattle.lp_range.specs.InnerSteps.{IsFound, EndsWith};

use crate::interval::{Interval, all_numbers, around, with_amount};
use gq_field::ExactField;
use lp_core::{Lp, Row, Sense, rows_by_sense};
use lp_dict::Dict;
use std::alloc::{AllocError, Global};
use std::cmp::Ordering;

/// What the constant of a row gains when the right side of a row of this sense moves; `slack` is
/// the first slack of that row. None if the difference of the two slacks of an equation does not
/// fit.
fn gain_of<F: ExactField>(dict: &Dict<F>, sense: Sense, slack: usize, row: usize) -> Option<F>
    requires row { row < length dict.now.basic }
    requires within_bound { slack + rows_of_sense sense ≤ dict.now.variables + 1 }
    ensures { IsFound F.value (right_gain F.limit (dictionary F.value dict.now) sense slack row) result }
{
    dict.keeps();
    match sense {
        Sense::E => match dict.number(row, slack + 1).sub(dict.number(row, slack + 2)) {
            Ok(difference) => Some(difference),
            Err(_) => None,
        },
        Sense::L => Some(dict.number(row, slack + 1)),
        Sense::G => Some(dict.number(row, slack + 1).neg()),
        Sense::N => Some(F::zero()),
    }
}

/// The moves so far, narrowed to those that keep the constant of a row at least 0, which gains
/// `each` for a unit of the move. It is read only if that is not 0. None if the quotient of the
/// two, which is an end, does not fit.
fn with_constant<F: ExactField>(
    dict: &Dict<F>,
    row: usize,
    moves: Interval<F>,
    each: F,
) -> Option<Interval<F>>
    requires { row < length dict.now.basic }
    ensures { EndsWith F.value F.limit moves
        (record { amount = (dictionary F.value dict.now).numbers row 0; each = F.value each; fits = true }) result }
{
    match each.cmp_value(F::zero()) {
        Ordering::Equal => Some(moves),
        _ => with_amount(moves, dict.number(row, 0), each),
    }
}

/// The range of the right side of a row of this sense, whose first slack is `slack`. None if a step
/// does not fit.
fn range_of<F: ExactField>(
    dict: &Dict<F>,
    sense: Sense,
    slack: usize,
    right: F,
) -> Option<Interval<F>>
    requires { slack + rows_of_sense sense ≤ dict.now.variables + 1 }
    ensures { span_value F.value result ≡ span F.limit (F.value right) (right_gains F.limit (dictionary F.value dict.now) sense slack) }
{
    let mut moves = all_numbers();
    for row in 0..dict.len() {
        let Some(each) = gain_of(dict, sense, slack, row) else {
            return None;
        };
        let Some(after) = with_constant(dict, row, moves, each) else {
            return None;
        };
        moves = after;
    }
    around(right, moves)
}

/// The range of the right side of each of these rows; the first row has this first slack.
fn ranges_of<F: ExactField>(
    alloc: Global,
    rows: &[Row<F>],
    first: usize,
    dict: &Dict<F>,
) -> Result<Vec<Option<Interval<F>>>, AllocError>
    requires { first + count_of_rows rows.now ≤ dict.now.variables + 1 }
    ensures { IfOk result (λ made. map (span_value F.value) made.items ≡ right_spans F.limit (dictionary F.value dict.now) F.value first rows.now) }
{
    dict.keeps();
    let mut made = Vec::new(alloc);
    let mut slack = first;
    for row in rows {
        made.push(range_of(dict, row.sense, slack, row.right))?;
        slack += rows_by_sense(row.sense);
    }
    Ok(made)
}

/// The range of the right side of each row at a final dictionary; `None` for a row if a step does
/// not fit. The only error is out of memory.
pub(crate) fn rights_of<F: ExactField>(
    alloc: Global,
    lp: &Lp<F>,
    dict: &Dict<F>,
) -> Result<Vec<Option<Interval<F>>>, AllocError>
    requires well_formed { IsWellFormed F.value lp.now }
    requires of_form { IsDictionaryOf (standard_form F.value lp.now) (dictionary F.value dict.now) }
    ensures { IfOk result (λ made. map (span_value F.value) made.items ≡ of.rights F.value F.limit lp.now (dictionary F.value dict.now)) }
{
    dict.keeps();
    let first = dict.variables() as usize - dict.len() + 1;
    ranges_of(alloc, lp.rows.as_slice(), first, dict)
}
