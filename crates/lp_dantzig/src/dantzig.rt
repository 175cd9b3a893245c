//! The solver by the rule of the largest coefficient.
ghost use Rattle.std.specs.Prelude.{◌≡◌, ◌∷◌, ◌++◌, [], codes, IfOk, OnErr};
ghost use Rattle.gq_frac.specs.Frac.{frac_limit, frac_value};
ghost use Rattle.lp_core.specs.declared.answer.Rule.TheVariants as by;
ghost use Rattle.lp_core.specs.Answers.{IsAnswer};
ghost use Rattle.lp_core.specs.LargestCoefficient.{IsLargestAnswer};
ghost use Rattle.lp_slot.specs.declared.solver.SolverRule.TheVariants as slot;
ghost use Rattle.lp_core.specs.WellFormed.{IsWellFormed};
ghost use Rattle.lp_simplex.specs.Only.{IsOnly};
ghost use Rattle.lp_nocycle.specs.Turns.{HasFewPivotsByTurn, EndsUninterruptedByTurn};
ghost use Rattle.lp_dantzig.specs.Name.{dantzig_is_name};

use crate::answer::solve_in;
use gq_frac::Frac;
use lp_core::{Answer, Lp, Pivot, Sequence};
use lp_slot::{LpSolver, SolverRule};
use std::alloc::{AllocError, Global};
use std::marker::Model;

/// Dantzig's solver. The priced row is that of variable 0 while variable 0 is basic, and otherwise
/// the objective. Of the variables other than variable 0 with coefficients above 0 in it, the one
/// with the greatest enters, and of several the one with the least number. A row equates the sum of
/// its terms with a constant, so variable 0 falls as such a variable rises. Of the basic variables
/// with the least ratio, the one with the least number leaves. After v successive degenerate pivots
/// of one phase, where v is the number of variables, slacks and variable 0 included, the solver
/// follows Bland's rule to the end of the phase.
#[derive(Drop)]
pub struct Dantzig {
    taken: Vec<Sequence<Pivot>>,
}

impl Model for Dantzig {
    ghost use Rattle.std.specs.Prelude.{List};
    ghost use Rattle.lp_core.specs.declared.answer.Pivot.{Pivot};

    ghost Value = { List (List Pivot) };

    ghost view = { λ d. d.taken.items };
}

impl Dantzig {
    /// A solver that has given no answer. It stores the allocator and allocates nothing.
    pub fn new(alloc: Global) -> Dantzig
        ensures { result ≡ [] }
    {
        Dantzig {
            taken: Vec::new(alloc),
        }
    }
}

impl LpSolver for Dantzig {
    ghost name = { λ _. codes "dantzig" };

    ghost rule = { λ _. slot.LargestCoefficient };

    ghost paths = { λ d. d };

    fn name(&self) -> &str {
        "dantzig"
    }

    fn rule(&self) -> SolverRule {
        SolverRule::LargestCoefficient
    }

    fn paths(&self) -> &[Sequence<Pivot>] {
        self.taken.as_slice()
    }

    /// The only answer of a program by the rule of the largest coefficient, which turns to Bland's
    /// rule after a long run of degenerate pivots. Its pivots are legal. The turn bounds their
    /// number, and if `iterlim` is at least this bound, the end is not Interrupted.
    fn solve(
        &mut self,
        alloc: Global,
        lp: &Lp<Frac>,
        iterlim: u64,
    ) -> Result<Answer<Frac>, AllocError>
        requires { IsWellFormed frac_value lp.now }
        ensures legal { IfOk result (IsAnswer frac_value frac_limit lp.now iterlim by.Legal) }
        ensures answers { IfOk result (IsLargestAnswer frac_value frac_limit lp.now iterlim) }
        ensures only { IfOk result (IsOnly (IsLargestAnswer frac_value frac_limit lp.now iterlim)) }
        ensures few { IfOk result (HasFewPivotsByTurn frac_value lp.now) }
        ensures to_the_end { IfOk result (EndsUninterruptedByTurn frac_value lp.now iterlim) }
        ensures paths { IfOk result (λ answer. self.new ≡ self.old ++ answer.pivots ∷ []) }
        ensures unchanged { OnErr result (self.new ≡ self.old) }
    {
        let answer = solve_in(alloc, lp, iterlim)?;
        let path = Vec::from_slice(alloc, answer.pivots.as_slice())?;
        self.taken.push(Sequence::new(path))?;
        Ok(answer)
    }

    ghost named = { λ _. dantzig_is_name };
}
