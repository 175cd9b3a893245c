//! Steepest edge over the rows that limit a variable.
ghost use Rattle.lp_core.specs.Dictionary.{Improves};
ghost use Rattle.lp_any.specs.InnerImproving.{itself};

use crate::weighing::worthiest;
use gq_field::ExactField;
use lp_dict::Dict;
use lp_simplex::Picking;

/// Steepest edge over limiting rows: the variable enters along whose edge the objective grows most
/// for the edge's length. The length counts only the rows that limit the variable, those with a
/// coefficient above 0: Goldfarb and Reid, "A practicable steepest-edge simplex algorithm";
/// Chvatal, Linear Programming, chapter 2. The rule remembers no pivots.
#[derive(Drop)]
pub(crate) struct Limiting;

impl<F: ExactField> Picking<F> for Limiting {
    ghost picks = { λ _. Improves };

    fn pick(&self, dict: &Dict<F>) -> Option<u32> {
        worthiest(dict)
    }

    ghost improving = { λ _. itself };
}
