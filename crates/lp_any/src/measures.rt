//! Rules that depend on the pivot number of a variable, its coefficient in the row of the leaving
//! variable.
ghost use Rattle.std.specs.Prelude.{◌≡◌, ◌≤◌};
ghost use Rattle.lp_any.specs.Costs.{IsCheapest, cheapest_improves};
ghost use Rattle.lp_any.specs.Measures as measures;

use crate::common::{denominator_of_column, denominator_of_row};
use crate::costs::{Costing, cheapest};
use gq_field::ExactField;
use lp_dict::Dict;
use lp_simplex::Picking;

/// The cost of a variable if a step of its ratio test does not fit: greater than any other cost.
pub(crate) const STOPS: u32 = 10_000;

/// The rule of the shortest pivot number: the variable enters whose pivot number has the fewest
/// bits, numerator and denominator together, which keeps the next dictionary's numbers short. It
/// remembers no pivots.
#[derive(Drop)]
pub(crate) struct Shortest;

/// The rule of gain for bits: the variable enters whose pivot has the most bits of gain, less the
/// bits of its pivot number's numerator. The gain is the coefficient times the leaving row's
/// constant over the pivot number. The rule remembers no pivots.
#[derive(Drop)]
pub(crate) struct GainForBits;

/// The variable enters whose pivot number has the fewest bits, counted twice, less the bits of the
/// gain. The bits are those of the pivot number over the common denominator of its row. The rule
/// remembers no pivots.
#[derive(Drop)]
pub(crate) struct ShortInRow;

/// The variable enters whose pivot number has the fewest bits, less three times the bits of the
/// gain. The bits are those of the pivot number over the common denominator of its row, plus those
/// over that of its column. The rule remembers no pivots.
#[derive(Drop)]
pub(crate) struct ShortInBoth;

/// How many bits an unsigned integer has; 0 for 0.
pub(crate) fn bits(number: u128) -> u32
    ensures value { result ≡ measures.bits number }
    ensures most { result ≤ 128 }
{
    128 - number.leading_zeros()
}

/// How many bits the numerator and the denominator of a number have.
fn length_of<F: ExactField>(number: F) -> u32
    ensures { result ≡ measures.length_of (F.value number) }
{
    let (numerator, denominator) = number.parts();
    bits(numerator.unsigned_abs()) + bits(denominator)
}

/// The bits of a pivot's gain: those of the integers in its numerator (`above`) and in its
/// denominator (`below`).
#[derive(Clone, Copy)]
pub(crate) struct Gain {
    pub(crate) above: u32,
    pub(crate) below: u32,
}

/// The bits of a pivot's gain, from the entering variable's coefficient in the priced row, the
/// constant of the leaving variable's row, and the pivot number in that row.
pub(crate) fn gain_of<F: ExactField>(coefficient: F, constant: F, number: F) -> Gain
    ensures above { result.above ≡ measures.gain_above (F.value coefficient) (F.value constant) (F.value number) }
    ensures below { result.below ≡ measures.gain_below (F.value coefficient) (F.value constant) (F.value number) }
    ensures few_above { result.above ≤ 384 }
    ensures few_below { result.below ≤ 384 }
{
    let (rise, rise_over) = coefficient.parts();
    let (amount, amount_over) = constant.parts();
    let (pivot, pivot_over) = number.parts();
    Gain {
        above: bits(rise.unsigned_abs()) + bits(amount.unsigned_abs()) + bits(pivot_over),
        below: bits(rise_over) + bits(amount_over) + bits(pivot.unsigned_abs()),
    }
}

/// The bits of the pivot number's numerator, less those of the gain, and 1000.
fn cost_of_gain<F: ExactField>(coefficient: F, constant: F, number: F) -> u32
    ensures { result ≡ measures.cost_of_gain (F.value coefficient) (F.value constant) (F.value number) }
{
    let gain = gain_of(coefficient, constant, number);
    let (pivot, _pivot_over) = number.parts();
    1_000 + bits(pivot.unsigned_abs()) + gain.below - gain.above
}

/// How many bits a number has when written over this multiple of its denominator.
fn bits_over<F: ExactField>(number: F, denominator: u128) -> u32
    ensures value { result ≡ measures.bits_over (F.value number) denominator }
    ensures most { result ≤ 256 }
{
    let (numerator, own) = number.parts();
    let times = denominator / own;
    bits(numerator.unsigned_abs()) + bits(times)
}

/// Twice the bits of the pivot number over its row's denominator, less those of the gain, and 1000.
fn cost_in_row<F: ExactField>(coefficient: F, constant: F, number: F, in_row: u128) -> u32
    ensures { result ≡ measures.cost_in_row (F.value coefficient) (F.value constant) (F.value number) in_row }
{
    let gain = gain_of(coefficient, constant, number);
    let short = bits_over(number, in_row);
    1_000 + 2 * short + gain.below - gain.above
}

/// The bits of the pivot number over its row's denominator and over its column's, less three times
/// those of the gain, and 2000.
fn cost_in_both<F: ExactField>(
    coefficient: F,
    constant: F,
    number: F,
    in_row: u128,
    in_column: u128,
) -> u32
    ensures { result ≡ measures.cost_in_both (F.value coefficient) (F.value constant) (F.value number) in_row in_column }
{
    let gain = gain_of(coefficient, constant, number);
    let short = bits_over(number, in_row);
    let narrow = bits_over(number, in_column);
    2_000 + short + narrow + 3 * gain.below - 3 * gain.above
}

impl<F: ExactField> Costing<F> for Shortest {
    ghost costs = { λ _. measures.IsCostBy F.limit measures.LengthAt };

    fn cost(&self, dict: &Dict<F>, variable: u32) -> u32 {
        match dict.leaving(variable) {
            Ok(Some(leave)) => length_of(dict.entry(leave, variable)),
            Ok(None) => 0,
            Err(_) => STOPS,
        }
    }
}

impl<F: ExactField> Costing<F> for GainForBits {
    ghost costs = { λ _. measures.IsCostBy F.limit measures.GainAt };

    fn cost(&self, dict: &Dict<F>, variable: u32) -> u32 {
        match dict.leaving(variable) {
            Ok(Some(leave)) => {
                let coefficient = dict.coefficient(variable);
                cost_of_gain(coefficient, dict.amount(leave), dict.entry(leave, variable))
            }
            Ok(None) => 0,
            Err(_) => STOPS,
        }
    }
}

impl<F: ExactField> Costing<F> for ShortInRow {
    ghost costs = { λ _. measures.IsCostBy F.limit measures.RowAt };

    fn cost(&self, dict: &Dict<F>, variable: u32) -> u32 {
        match dict.leaving(variable) {
            Ok(Some(leave)) => {
                let coefficient = dict.coefficient(variable);
                let in_row = denominator_of_row(dict, leave);
                cost_in_row(
                    coefficient,
                    dict.amount(leave),
                    dict.entry(leave, variable),
                    in_row,
                )
            }
            Ok(None) => 0,
            Err(_) => STOPS,
        }
    }
}

impl<F: ExactField> Costing<F> for ShortInBoth {
    ghost costs = { λ _. measures.IsCostBy F.limit measures.BothAt };

    fn cost(&self, dict: &Dict<F>, variable: u32) -> u32 {
        match dict.leaving(variable) {
            Ok(Some(leave)) => {
                let coefficient = dict.coefficient(variable);
                let number = dict.entry(leave, variable);
                let in_row = denominator_of_row(dict, leave);
                let in_column = denominator_of_column(dict, variable);
                cost_in_both(coefficient, dict.amount(leave), number, in_row, in_column)
            }
            Ok(None) => 0,
            Err(_) => STOPS,
        }
    }
}

impl<F: ExactField> Picking<F> for Shortest {
    ghost picks = { λ _. IsCheapest (measures.IsCostBy F.limit measures.LengthAt) };

    fn pick(&self, dict: &Dict<F>) -> Option<u32> {
        cheapest(self, dict)
    }

    ghost improving = { λ _. cheapest_improves (measures.IsCostBy F.limit measures.LengthAt) };
}

impl<F: ExactField> Picking<F> for GainForBits {
    ghost picks = { λ _. IsCheapest (measures.IsCostBy F.limit measures.GainAt) };

    fn pick(&self, dict: &Dict<F>) -> Option<u32> {
        cheapest(self, dict)
    }

    ghost improving = { λ _. cheapest_improves (measures.IsCostBy F.limit measures.GainAt) };
}

impl<F: ExactField> Picking<F> for ShortInRow {
    ghost picks = { λ _. IsCheapest (measures.IsCostBy F.limit measures.RowAt) };

    fn pick(&self, dict: &Dict<F>) -> Option<u32> {
        cheapest(self, dict)
    }

    ghost improving = { λ _. cheapest_improves (measures.IsCostBy F.limit measures.RowAt) };
}

impl<F: ExactField> Picking<F> for ShortInBoth {
    ghost picks = { λ _. IsCheapest (measures.IsCostBy F.limit measures.BothAt) };

    fn pick(&self, dict: &Dict<F>) -> Option<u32> {
        cheapest(self, dict)
    }

    ghost improving = { λ _. cheapest_improves (measures.IsCostBy F.limit measures.BothAt) };
}
