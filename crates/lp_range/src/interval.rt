//! Intervals of numbers, and the ranges of a program.
ghost use Rattle.std.specs.Prelude.{◌≡◌, true, [], None, Some};
ghost use Rattle.lp_core.specs.Feasible.{bound_value};
ghost use Rattle.lp_range.specs.Spans as spans;
ghost use Rattle.lp_range.specs.Ranges.{span_value};
ghost use Rattle.lp_range.specs.InnerSteps.{EndsWith, AddsTo};

use gq_field::ExactField;
use lp_core::Sequence;
use std::cmp::Ordering;

/// An interval of numbers that includes its ends. The lower end, the upper end or both may be
/// missing.
#[derive(Clone, Copy)]
pub struct Interval<F> {
    /// The least number of the interval; `None` if the interval has no lower end.
    pub low: Option<F>,
    /// The greatest number of the interval; `None` if the interval has no upper end.
    pub high: Option<F>,
}

/// The sensitivity ranges of a solved linear program: for each right side and each cost, its values
/// at which the final basis remains optimal if all other numbers of the program stay the same.
#[derive(Drop)]
pub struct Ranges<F> {
    /// For each row, in order, the right sides at which the final basis remains optimal while all
    /// other numbers of the program stay the same. An entry is `None` if a step that computes it
    /// exceeds the field's limit.
    pub rights: Sequence<Option<Interval<F>>>,
    /// For each column, in order, the costs at which the final basis remains optimal while all
    /// other numbers of the program stay the same. A column's cost is its factor in the objective:
    /// in the program itself 1 for the objective's column, 0 for any other. An entry is `None` if a
    /// step that computes it exceeds the field's limit.
    pub costs: Sequence<Option<Interval<F>>>,
}

/// The interval of all numbers, which has no end.
pub(crate) fn all_numbers<F: ExactField>() -> Interval<F>
    ensures low { result.low ≡ None }
    ensures high { result.high ≡ None }
{
    Interval {
        low: None,
        high: None,
    }
}

/// The greater of an end so far, if there is one, and another.
fn greater<F: ExactField>(end: Option<F>, x: F) -> F
    ensures { Some (F.value result) ≡ spans.greater_end (bound_value F.value end) (F.value x) }
{
    match end {
        None => x,
        Some(end) => { if end.cmp_value(x).is_lt() { x } else { end } }
    }
}

/// The lesser of an end so far, if there is one, and another.
fn lesser<F: ExactField>(end: Option<F>, x: F) -> F
    ensures { Some (F.value result) ≡ spans.lesser_end (bound_value F.value end) (F.value x) }
{
    match end {
        None => x,
        Some(end) => { if x.cmp_value(end).is_lt() { x } else { end } }
    }
}

/// The moves so far, narrowed to those that keep an amount at least 0, which gains `each` for a
/// unit of the move. `None` if the quotient of the two, which gives an end, does not fit.
pub(crate) fn with_amount<F: ExactField>(
    moves: Interval<F>,
    amount: F,
    each: F,
) -> Option<Interval<F>>
    ensures { EndsWith F.value F.limit moves (record { amount = F.value amount; each = F.value each; fits = true }) result }
{
    match each.cmp_value(F::zero()) {
        Ordering::Equal => Some(moves),
        Ordering::Greater => {
            let Ok(quotient) = amount.div(each) else {
                return None;
            };
            Some(Interval {
                low: Some(greater(moves.low, quotient.neg())),
                high: moves.high,
            })
        }
        Ordering::Less => {
            let Ok(quotient) = amount.div(each) else {
                return None;
            };
            Some(Interval {
                low: moves.low,
                high: Some(lesser(moves.high, quotient.neg())),
            })
        }
    }
}

/// A number moved to an end of the moves, if there is one; `Err` if the sum does not fit.
fn moved<F: ExactField>(given: F, end: Option<F>) -> Result<Option<F>, ()>
    ensures { AddsTo F.value F.limit (F.value given) (bound_value F.value end) result }
{
    let Some(end) = end else {
        return Ok(None);
    };
    match given.add(end) {
        Ok(sum) => Ok(Some(sum)),
        Err(_) => Err(()),
    }
}

/// The values that a number takes by these moves; `None` if the sum of the number and an end does
/// not fit.
pub(crate) fn around<F: ExactField>(given: F, moves: Interval<F>) -> Option<Interval<F>>
    ensures { span_value F.value result ≡ spans.span_from F.limit (F.value given) (bound_value F.value moves.low) (bound_value F.value moves.high) [] }
{
    let Ok(low) = moved(given, moves.low) else {
        return None;
    };
    let Ok(high) = moved(given, moves.high) else {
        return None;
    };
    Some(Interval { low, high })
}
