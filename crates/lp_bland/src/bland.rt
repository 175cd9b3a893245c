//! The solver by Bland's rule.
ghost use Rattle.std.specs.Prelude.{◌≡◌, ◌∷◌, ◌++◌, [], codes, IfOk, OnErr};
ghost use Rattle.gq_frac.specs.Frac.{frac_limit, frac_value};
ghost use Rattle.lp_core.specs.declared.answer.Rule.TheVariants as by;
ghost use Rattle.lp_core.specs.Answers.{IsAnswer};
ghost use Rattle.lp_simplex.specs.Only.{IsOnly};
ghost use Rattle.lp_nocycle.specs.PivotCount.{HasFewPivots, EndsUninterrupted};
ghost use Rattle.lp_bland.specs.Name.{bland_is_name};
ghost use Rattle.lp_slot.specs.declared.solver.SolverRule.TheVariants as slot;
ghost use Rattle.lp_core.specs.WellFormed.{IsWellFormed};

use crate::answer::solve_in;
use gq_frac::Frac;
use lp_core::{Answer, Lp, Pivot, Sequence};
use lp_slot::{LpSolver, SolverRule};
use std::alloc::{AllocError, Global};
use std::marker::Model;

/// The solver by Bland's rule. Of the variables that improve the phase's objective, the one with
/// the least number enters; of those with the least ratio, the one with the least number leaves.
/// Contracts view the solver as a list with the list of pivots of each answer that it gave.
#[derive(Drop)]
pub struct Bland {
    taken: Vec<Sequence<Pivot>>,
}

impl Model for Bland {
    ghost use Rattle.std.specs.Prelude.{List};
    ghost use Rattle.lp_core.specs.declared.answer.Pivot.{Pivot};

    ghost Value = { List (List Pivot) };

    ghost view = { λ b. b.taken.items };
}

impl Bland {
    /// A solver that has not given any answer yet. It stores the allocator and allocates nothing.
    pub fn new(alloc: Global) -> Bland
        ensures { result ≡ [] }
    {
        Bland {
            taken: Vec::new(alloc),
        }
    }
}

impl LpSolver for Bland {
    ghost name = { λ _. codes "bland" };

    ghost rule = { λ _. slot.Bland };

    ghost paths = { λ b. b };

    fn name(&self) -> &str {
        "bland"
    }

    fn rule(&self) -> SolverRule {
        SolverRule::Bland
    }

    fn paths(&self) -> &[Sequence<Pivot>] {
        self.taken.as_slice()
    }

    /// The only answer of a program under Bland's rule. No basis repeats in a phase, so there are
    /// fewer pivots than twice the number of subsets of the variables of the standard form, slacks
    /// and variable 0 included. If `iterlim` is at least that many, the end is not Interrupted.
    fn solve(
        &mut self,
        alloc: Global,
        lp: &Lp<Frac>,
        iterlim: u64,
    ) -> Result<Answer<Frac>, AllocError>
        requires { IsWellFormed frac_value lp.now }
        ensures answers { IfOk result (IsAnswer frac_value frac_limit lp.now iterlim by.Bland) }
        ensures only { IfOk result (IsOnly (IsAnswer frac_value frac_limit lp.now iterlim by.Bland)) }
        ensures few { IfOk result (HasFewPivots frac_value lp.now) }
        ensures to_the_end { IfOk result (EndsUninterrupted frac_value lp.now iterlim) }
        ensures paths { IfOk result (λ answer. self.new ≡ self.old ++ answer.pivots ∷ []) }
        ensures unchanged { OnErr result (self.new ≡ self.old) }
    {
        let answer = solve_in(alloc, lp, iterlim)?;
        let path = Vec::from_slice(alloc, answer.pivots.as_slice())?;
        self.taken.push(Sequence::new(path))?;
        Ok(answer)
    }

    ghost named = { λ _. bland_is_name };
}
