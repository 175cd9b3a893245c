//! A solver of another rule than Bland's: the improving variable with the greatest number enters.
ghost use Rattle.std.specs.Prelude.{⊤, ◌≡◌, ◌∷◌, ◌++◌, [], codes};
ghost use Rattle.lp_slot.specs.declared.solver.SolverRule.TheVariants as slot;
ghost use Rattle.lp_core.specs.Dictionary.{Improves};
ghost use Rattle.lp_bland.specs.Name.{greatest_is_name};

use gq_field::ExactField;
use gq_frac::Frac;
use lp_core::{Answer, Lp, Pivot, Sequence};
use lp_dict::Dict;
use lp_simplex::{Choosing, solve_by};
use lp_slot::{LpSolver, SolverRule};
use std::alloc::{AllocError, Global};
use std::marker::Model;

/// The programs of these tests have fewer variables.
const VARIABLES: u32 = 1_000;

/// The rule by which of the improving variables the one with the greatest number enters.
#[derive(Drop)]
pub(crate) struct Greatest;

impl<F: ExactField> Choosing<F> for Greatest {
    ghost Rule = { ⊤ };

    ghost rule = { λ _. tt };

    ghost chooses = { λ _ _ _ d q. Improves d q };

    ghost remembers = { λ _ _ _ _. ⊤ };

    fn entering(&self, dict: &Dict<F>) -> Option<u32> {
        for variable in (0..VARIABLES).rev() {
            if dict.improves(variable) {
                return Some(variable);
            }
        }
        dict.entering()
    }

    fn note(&mut self, _dict: &Dict<F>, _pivot: Pivot) {}

    ghost improving = { λ _ _ _ _ _ improves. improves };
}

/// The solver by that rule.
#[derive(Drop)]
pub(crate) struct GreatestFirst {
    taken: Vec<Sequence<Pivot>>,
}

impl Model for GreatestFirst {
    ghost use Rattle.std.specs.Prelude.{List};
    ghost use Rattle.lp_core.specs.declared.answer.Pivot.{Pivot};

    ghost Value = { List (List Pivot) };

    ghost view = { λ s. s.taken.items };
}

impl GreatestFirst {
    /// A solver that has given no answer.
    pub(crate) fn new(alloc: Global) -> GreatestFirst
        ensures { result ≡ [] }
    {
        GreatestFirst {
            taken: Vec::new(alloc),
        }
    }
}

impl LpSolver for GreatestFirst {
    ghost name = { λ _. codes "greatest" };

    ghost rule = { λ _. slot.Legal };

    ghost paths = { λ s. s };

    fn name(&self) -> &str {
        "greatest"
    }

    fn rule(&self) -> SolverRule {
        SolverRule::Legal
    }

    fn paths(&self) -> &[Sequence<Pivot>] {
        self.taken.as_slice()
    }

    fn solve(
        &mut self,
        alloc: Global,
        lp: &Lp<Frac>,
        iterlim: u64,
    ) -> Result<Answer<Frac>, AllocError> {
        let answer = solve_by(alloc, lp, iterlim, &mut Greatest)?;
        let path = Vec::from_slice(alloc, answer.pivots.as_slice())?;
        self.taken.push(Sequence::new(path))?;
        Ok(answer)
    }

    ghost named = { λ _. greatest_is_name };
}
