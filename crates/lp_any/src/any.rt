//! The solver by several rules in turn.
ghost use Rattle.std.specs.Prelude.{◌≡◌, ◌∷◌, ◌++◌, [], codes, IfOk, OnErr};
ghost use Rattle.gq_frac.specs.Frac.{frac_limit, frac_value};
ghost use Rattle.lp_core.specs.declared.answer.Rule.TheVariants as by;
ghost use Rattle.lp_core.specs.Answers.{IsAnswer};
ghost use Rattle.lp_slot.specs.declared.solver.SolverRule.TheVariants as slot;
ghost use Rattle.lp_core.specs.WellFormed.{IsWellFormed};
ghost use Rattle.lp_nocycle.specs.Turns.{HasFewPivotsByTurn, EndsUninterruptedByTurn};
ghost use Rattle.lp_any.specs.Name.{any_is_name};
ghost use Rattle.lp_bland.specs.Ends.{IsRefusedEnd};
ghost use Rattle.lp_any.specs.Members.{IsAnswerInTurn, AreRefused, rule_count};

use crate::answer::solve_in;
use gq_frac::Frac;
use lp_core::{Answer, Lp, Pivot, Sequence};
use lp_slot::{LpSolver, SolverRule};
use std::alloc::{AllocError, Global};
use std::marker::Model;

/// The solver that tries 23 rules in sequence. It gives the first answer that is not Refused or, if
/// all are Refused, the answer by Bland's rule. An answer is Refused if a step computes a numerator
/// or a denominator above 2^127 - 1. `taken` has the pivots of each answer so far.
#[derive(Drop)]
pub struct Any {
    taken: Vec<Sequence<Pivot>>,
}

impl Model for Any {
    ghost use Rattle.std.specs.Prelude.{List};
    ghost use Rattle.lp_core.specs.declared.answer.Pivot.{Pivot};

    ghost Value = { List (List Pivot) };

    ghost view = { λ d. d.taken.items };
}

impl Any {
    /// A solver that has given no answer yet. It stores the allocator; this call allocates nothing.
    pub fn new(alloc: Global) -> Any
        ensures { result ≡ [] }
    {
        Any {
            taken: Vec::new(alloc),
        }
    }
}

impl LpSolver for Any {
    ghost name = { λ _. codes "any" };

    ghost rule = { λ _. slot.Legal };

    ghost paths = { λ d. d };

    fn name(&self) -> &str {
        "any"
    }

    fn rule(&self) -> SolverRule {
        SolverRule::Legal
    }

    fn paths(&self) -> &[Sequence<Pivot>] {
        self.taken.as_slice()
    }

    /// The answer of a program by the first rule whose answer is not Refused. It is Refused only if
    /// that of each rule is, Bland's included. Let v be the number of variables of the standard
    /// form, slacks and variable 0 included. Each rule turns to Bland's rule, to the end of the
    /// phase, after v successive degenerate pivots. There are fewer than `2 * 2^v * (v + 1)`
    /// pivots. If `iterlim` is at least this bound, the end is not Interrupted, which is the end
    /// after exactly `iterlim` pivots if a further one is required.
    fn solve(
        &mut self,
        alloc: Global,
        lp: &Lp<Frac>,
        iterlim: u64,
    ) -> Result<Answer<Frac>, AllocError>
        requires { IsWellFormed frac_value lp.now }
        ensures answers { IfOk result (IsAnswer frac_value frac_limit lp.now iterlim by.Legal) }
        ensures in_turn { IfOk result (IsAnswerInTurn frac_value frac_limit lp.now iterlim) }
        ensures refused { IfOk result (λ answer. IsRefusedEnd answer.end → AreRefused frac_value frac_limit rule_count lp.now iterlim) }
        ensures by_bland { IfOk result (λ answer. IsRefusedEnd answer.end → IsAnswer frac_value frac_limit lp.now iterlim by.Bland answer) }
        ensures few { IfOk result (HasFewPivotsByTurn frac_value lp.now) }
        ensures to_the_end { IfOk result (EndsUninterruptedByTurn frac_value lp.now iterlim) }
        ensures paths { IfOk result (λ answer. self.new ≡ self.old ++ answer.pivots ∷ []) }
        ensures unchanged { OnErr result (self.new ≡ self.old) }
    {
        let answer = solve_in(alloc, lp, iterlim)?;
        let path = Vec::from_slice(alloc, answer.pivots.as_slice())?;
        self.taken.push(Sequence::new(path))?;
        Ok(answer)
    }

    ghost named = { λ _. any_is_name };
}
