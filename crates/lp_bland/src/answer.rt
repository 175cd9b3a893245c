//! Bland's choice, and the answer of a program by it.
ghost use Rattle.std.specs.Prelude.{⊤, IfOk};
ghost use Rattle.lp_core.specs.declared.answer.Rule.TheVariants as by;
ghost use Rattle.lp_core.specs.Answers.{IsAnswer};
ghost use Rattle.lp_core.specs.Pivots.{IsChosen};
ghost use Rattle.lp_core.specs.WellFormed.{IsWellFormed};
ghost use Rattle.lp_simplex.specs.Only.{IsOnly};
ghost use Rattle.lp_nocycle.specs.PivotCount.{HasFewPivots, EndsUninterrupted};
ghost use Rattle.lp_bland.specs.Least.{least_improves};

use gq_field::ExactField;
use lp_core::{Answer, Lp, Pivot};
use lp_dict::Dict;
use lp_simplex::{Choosing, solve_by};
use std::alloc::{AllocError, Global};

/// Bland's choice of the entering variable: of the variables that improve the phase's objective,
/// the one with the least number. Only the dictionary decides the choice, not the pivots before it.
#[derive(Drop)]
pub struct Least;

impl<F: ExactField> Choosing<F> for Least {
    ghost Rule = { ⊤ };

    ghost rule = { λ _. tt };

    ghost chooses = { λ _ _ _ d q. IsChosen by.Bland d q };

    ghost remembers = { λ _ _ _ _. ⊤ };

    fn entering(&self, dict: &Dict<F>) -> Option<u32> {
        dict.entering()
    }

    fn note(&mut self, _dict: &Dict<F>, _pivot: Pivot) {}

    ghost improving = { λ _ _ _ d q chosen. least_improves d q chosen };
}

/// The only answer of a program under Bland's rule, with at most `iterlim` pivots (Bland, "New
/// finite pivoting rules for the simplex method"; Chvatal, Linear Programming, chapter 3).
///
/// An end Optimal, Infeasible or Unbounded has a certificate. Interrupted is the end after exactly
/// `iterlim` pivots if a further one is required. Refused has the first step that computes a
/// numerator or a denominator beyond the limit of the field. Let v be the number of variables of
/// the standard form, slacks and variable 0 included. There are fewer than `2 * 2^v` pivots. If
/// `iterlim` is at least this bound, the end is not Interrupted. The only error is out of memory.
pub fn solve_in<F: ExactField>(
    alloc: Global,
    lp: &Lp<F>,
    iterlim: u64,
) -> Result<Answer<F>, AllocError>
    requires { IsWellFormed F.value lp.now }
    ensures answers { IfOk result (IsAnswer F.value F.limit lp.now iterlim by.Bland) }
    ensures only { IfOk result (IsOnly (IsAnswer F.value F.limit lp.now iterlim by.Bland)) }
    ensures few { IfOk result (HasFewPivots F.value lp.now) }
    ensures to_the_end { IfOk result (EndsUninterrupted F.value lp.now iterlim) }
{
    solve_by(alloc, lp, iterlim, &mut Least)
}
