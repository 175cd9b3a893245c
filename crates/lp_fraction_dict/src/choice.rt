//! The choice of the leaving variable: by the least constant, or by the least ratio.
ghost use Rattle.std.specs.Prelude.{◌≡◌, ◌↔◌, ℕ, pos, [], length, slice_index_or, IsTrue};
ghost use Rattle.gq_number.specs.Number.{whole};
ghost use Rattle.gq_number.specs.Order.{◌<ℚ◌};
ghost use Rattle.lp_fraction_dict.specs.Rows.{IsRow};
ghost use Rattle.lp_fraction_dict.specs.Lines.{entries_of_rows};
ghost use Rattle.lp_fraction_dict.specs.InnerChoice.{IsLesser, IsLeastConstant, IsLeastRatio};

use crate::row::{Entry, number_of_row};
use gq_field::ExactField;
use std::cmp::Ordering;

/// A basic variable that may leave, and its measure: the constant or the ratio of its row.
#[derive(Clone, Copy)]
pub(crate) struct Candidate<F> {
    pub(crate) measure: F,
    pub(crate) variable: u32,
}

/// Whether a number is above 0.
pub fn is_above_zero<F: ExactField>(x: F) -> bool
    ensures { IsTrue result ↔ (whole (pos 0) <ℚ F.value x) }
{
    x.cmp_value(F::zero()).is_gt()
}

/// Whether a number is below 0.
pub(crate) fn is_below_zero<F: ExactField>(x: F) -> bool
    ensures { IsTrue result ↔ (F.value x <ℚ whole (pos 0)) }
{
    F::zero().cmp_value(x).is_gt()
}

/// The candidate with the lesser number, and of equal ones the one with the lesser variable.
fn lesser<F: ExactField>(best: Option<Candidate<F>>, other: Candidate<F>) -> Candidate<F>
    ensures { IsLesser F.value best other result }
{
    let Some(best) = best else {
        return other;
    };
    match other.measure.cmp_value(best.measure) {
        Ordering::Less => other,
        Ordering::Greater => best,
        Ordering::Equal => {
            if other.variable < best.variable {
                other
            } else {
                best
            }
        }
    }
}

/// The basic variable of a row with the least constant below 0, and of several such the one with
/// the least number. None if no constant is below 0.
pub(crate) fn least_constant<F: ExactField>(
    rows: &[Vec<Entry<F>>],
    basic: &[u32],
) -> Option<Candidate<F>>
    requires paired { length rows.now ≡ length basic.now }
    requires rows { (high : ℕ) × ((k : ℕ) → IsRow F.value 0 high (slice_index_or (entries_of_rows rows.now) k [])) }
    ensures { IsLeastConstant F.value (entries_of_rows rows.now) basic.now (length basic.now) result }
{
    let mut best = None;
    for (place, variable) in basic.iter().enumerate() {
        let constant = number_of_row(rows, place, 0);
        if !is_below_zero(constant) {
            continue;
        }
        let candidate = Candidate {
            measure: constant,
            variable: *variable,
        };
        best = Some(lesser(best, candidate));
    }
    best
}

/// The basic variable of a row with the least ratio of its constant to its number at a column,
/// among rows where that number is above 0, and of several such the one with the least number.
/// `None` if there is no such row. The error is the first row, from 0, whose ratio does not fit.
pub(crate) fn least_ratio<F: ExactField>(
    rows: &[Vec<Entry<F>>],
    basic: &[u32],
    column: u32,
) -> Result<Option<Candidate<F>>, usize>
    requires paired { length rows.now ≡ length basic.now }
    requires rows { (high : ℕ) × ((k : ℕ) → IsRow F.value 0 high (slice_index_or (entries_of_rows rows.now) k [])) }
    ensures { IsLeastRatio F.value F.limit (entries_of_rows rows.now) basic.now column (length basic.now) result }
{
    let mut best = None;
    for (place, variable) in basic.iter().enumerate() {
        let number = number_of_row(rows, place, column);
        if !is_above_zero(number) {
            continue;
        }
        let Ok(ratio) = number_of_row(rows, place, 0).div(number) else {
            return Err(place);
        };
        let candidate = Candidate {
            measure: ratio,
            variable: *variable,
        };
        best = Some(lesser(best, candidate));
    }
    Ok(best)
}
