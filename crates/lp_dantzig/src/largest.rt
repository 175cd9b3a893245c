//! The rule of the largest coefficient.
ghost use Rattle.lp_core.specs.LargestCoefficient.{HasGreatest};
ghost use Rattle.lp_dantzig.specs.InnerGreatest.{greatest_improves};

use gq_field::ExactField;
use lp_dict::Dict;
use lp_simplex::Picking;

/// The rule of the largest coefficient: the variable enters that improves with the greatest
/// coefficient in the priced row, and of several such the one with the least number (Chvatal,
/// Linear Programming, chapter 2). It remembers no pivots.
#[derive(Drop)]
pub(crate) struct Largest;

impl<F: ExactField> Picking<F> for Largest {
    ghost picks = { λ _. HasGreatest };

    fn pick(&self, dict: &Dict<F>) -> Option<u32> {
        dict.greatest()
    }

    ghost improving = { λ _. greatest_improves };
}
