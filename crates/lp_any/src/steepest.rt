//! The solver by steepest edge.
ghost use Rattle.std.specs.Prelude.{◌≡◌, ◌∷◌, ◌++◌, [], codes, IfOk, OnErr};
ghost use Rattle.gq_frac.specs.Frac.{frac_limit, frac_value};
ghost use Rattle.lp_core.specs.declared.answer.Rule.TheVariants as by;
ghost use Rattle.lp_core.specs.Answers.{IsAnswer};
ghost use Rattle.lp_core.specs.Dictionary.{Improves};
ghost use Rattle.lp_slot.specs.declared.solver.SolverRule.TheVariants as slot;
ghost use Rattle.lp_core.specs.WellFormed.{IsWellFormed};
ghost use Rattle.lp_nocycle.specs.Turns.{HasFewPivotsByTurn, EndsUninterruptedByTurn};
ghost use Rattle.lp_any.specs.SteepestName.{steepest_is_name};
ghost use Rattle.lp_simplex.specs.Turn.{IsTurningAnswer};

use crate::steepest_answer::solve_in;
use gq_frac::Frac;
use lp_core::{Answer, Lp, Pivot, Sequence};
use lp_slot::{LpSolver, SolverRule};
use std::alloc::{AllocError, Global};
use std::marker::Model;

/// The solver by steepest edge: Goldfarb and Reid, "A practicable steepest-edge simplex algorithm".
/// The length of a variable's edge counts only the rows that limit the rise of this variable. Of
/// the variables that tie in the ratio test the one with the least number leaves. After as many
/// successive degenerate pivots of a phase as there are variables, slacks and the artificial
/// variable 0 included, Bland's rule, which does not cycle, picks until the phase ends.
#[derive(Drop)]
pub struct Steepest {
    taken: Vec<Sequence<Pivot>>,
}

impl Model for Steepest {
    ghost use Rattle.std.specs.Prelude.{List};
    ghost use Rattle.lp_core.specs.declared.answer.Pivot.{Pivot};

    ghost Value = { List (List Pivot) };

    ghost view = { λ d. d.taken.items };
}

impl Steepest {
    /// A solver that has given no answer yet. It stores the allocator; this call allocates nothing.
    pub fn new(alloc: Global) -> Steepest
        ensures { result ≡ [] }
    {
        Steepest {
            taken: Vec::new(alloc),
        }
    }
}

impl LpSolver for Steepest {
    ghost name = { λ _. codes "steepest" };

    ghost rule = { λ _. slot.Turning };

    ghost paths = { λ d. d };

    fn name(&self) -> &str {
        "steepest"
    }

    fn rule(&self) -> SolverRule {
        SolverRule::Turning
    }

    fn paths(&self) -> &[Sequence<Pivot>] {
        self.taken.as_slice()
    }

    /// An answer of a program by steepest edge, which turns to Bland's rule after a long run of
    /// degenerate pivots. Its pivots are legal, and Bland's after the turn. The turn bounds their
    /// number, and if `iterlim` is at least this bound, the end is not Interrupted.
    fn solve(
        &mut self,
        alloc: Global,
        lp: &Lp<Frac>,
        iterlim: u64,
    ) -> Result<Answer<Frac>, AllocError>
        requires { IsWellFormed frac_value lp.now }
        ensures legal { IfOk result (IsAnswer frac_value frac_limit lp.now iterlim by.Legal) }
        ensures answers { IfOk result (IsTurningAnswer frac_value frac_limit Improves lp.now iterlim) }
        ensures few { IfOk result (HasFewPivotsByTurn frac_value lp.now) }
        ensures to_the_end { IfOk result (EndsUninterruptedByTurn frac_value lp.now iterlim) }
        ensures paths { IfOk result (λ answer. self.new ≡ self.old ++ answer.pivots ∷ []) }
        ensures unchanged { OnErr result (self.new ≡ self.old) }
    {
        let answer = solve_in(alloc, lp, iterlim)?;
        let path = Vec::from_slice(alloc, answer.pivots.as_slice())?;
        self.taken.push(Sequence::new(path))?;
        Ok(answer)
    }

    ghost named = { λ _. steepest_is_name };
}
