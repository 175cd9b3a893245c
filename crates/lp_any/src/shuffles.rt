//! The rule by the gain for bits and a handicap that a shuffle gives each variable.
ghost use Rattle.std.specs.Prelude.{◌≡◌, ◌≤◌};
ghost use Rattle.lp_any.specs.Costs.{IsCheapest, cheapest_improves};
ghost use Rattle.lp_any.specs.Measures as measures;
ghost use Rattle.lp_any.specs.Shuffles as shuffles;

use crate::costs::{Costing, cheapest};
use crate::measures::{STOPS, bits, gain_of};
use gq_field::ExactField;
use lp_dict::Dict;
use lp_simplex::Picking;

/// The factor of a shuffle, by which a variable's number is multiplied.
fn factor(shuffle: u8) -> u32
    ensures { result ≡ shuffles.factor shuffle }
{
    let odd = 2 * shuffle as u32 + 1;
    odd.wrapping_mul(2_654_435_761)
}

/// The handicap of a variable, the same on every machine: the four highest of the 32 bits of its
/// number times the shuffle's factor.
fn handicap(shuffle: u8, variable: u32) -> u32
    ensures value { result ≡ shuffles.handicap shuffle variable }
    ensures most { result ≤ 15 }
{
    variable.wrapping_mul(factor(shuffle)) / 268_435_456
}

/// The bits of the pivot number's numerator and a handicap, less twice the bits of the gain, and
/// 2000.
fn cost_with_handicap<F: ExactField>(coefficient: F, constant: F, number: F, handicap: u32) -> u32
    requires { handicap ≤ 15 }
    ensures { result ≡ shuffles.cost_with_handicap (F.value coefficient) (F.value constant) (F.value number) handicap }
{
    let gain = gain_of(coefficient, constant, number);
    let (pivot, _pivot_over) = number.parts();
    2_000 + bits(pivot.unsigned_abs()) + handicap + 2 * gain.below - 2 * gain.above
}

/// The rule of a shuffle: the variable enters with the most bits of gain, counted twice, less those
/// of its pivot number's numerator and less the handicap that the shuffle gives it. The rule
/// remembers no pivots.
#[derive(Drop)]
pub(crate) struct Shuffle {
    /// The shuffle's number, from 0 on.
    pub(crate) number: u8,
}

impl<F: ExactField> Costing<F> for Shuffle {
    ghost costs = { λ rule. measures.IsCostBy F.limit (shuffles.ShuffledAt rule.number) };

    fn cost(&self, dict: &Dict<F>, variable: u32) -> u32 {
        match dict.leaving(variable) {
            Ok(Some(leave)) => {
                let coefficient = dict.coefficient(variable);
                let number = dict.entry(leave, variable);
                let handicap = handicap(self.number, variable);
                cost_with_handicap(coefficient, dict.amount(leave), number, handicap)
            }
            Ok(None) => 0,
            Err(_) => STOPS,
        }
    }
}

impl<F: ExactField> Picking<F> for Shuffle {
    ghost picks = { λ rule. IsCheapest (measures.IsCostBy F.limit (shuffles.ShuffledAt rule.number)) };

    fn pick(&self, dict: &Dict<F>) -> Option<u32> {
        cheapest(self, dict)
    }

    ghost improving = { λ rule. cheapest_improves (measures.IsCostBy F.limit (shuffles.ShuffledAt rule.number)) };
}
