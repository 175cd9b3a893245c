//! The answer of a program by steepest edge.
ghost use Rattle.std.specs.Prelude.{IfOk};
ghost use Rattle.lp_core.specs.declared.answer.Rule.TheVariants as by;
ghost use Rattle.lp_core.specs.Answers.{IsAnswer};
ghost use Rattle.lp_core.specs.Dictionary.{Improves};
ghost use Rattle.lp_core.specs.WellFormed.{IsWellFormed};
ghost use Rattle.lp_nocycle.specs.Turns.{HasFewPivotsByTurn, EndsUninterruptedByTurn};
ghost use Rattle.lp_simplex.specs.Turn.{IsTurningAnswer};

use crate::limiting::Limiting;
use gq_field::ExactField;
use lp_core::{Answer, Lp};
use lp_simplex::solve_with;
use std::alloc::{AllocError, Global};

/// An answer of the well-formed linear program `lp` by steepest edge: Goldfarb and Reid, "A
/// practicable steepest-edge simplex algorithm"; Chvatal, Linear Programming, chapters 2 and 3. The
/// length of a variable's edge counts only the rows that limit the rise of this variable.
///
/// Let v be the number of variables of the standard form, slacks and the artificial variable 0
/// included. Of the variables that tie in the ratio test the one with the least number leaves.
/// After v successive degenerate pivots of one phase, Bland's rule picks the entering variable
/// until the phase ends. No contract states which improving variable enters before that. Optimal,
/// Infeasible and Unbounded come with their certificates. The end is Interrupted if a pivot is
/// required after `iterlim` pivots. There are fewer than `2 * 2^v * (v + 1)` pivots; so if
/// `iterlim` is at least this, the end is not Interrupted. The end is Refused if a step computes a
/// numerator or a denominator above `F.limit`, and has the first such step. The error is out of
/// memory.
pub fn solve_in<F: ExactField>(
    alloc: Global,
    lp: &Lp<F>,
    iterlim: u64,
) -> Result<Answer<F>, AllocError>
    requires { IsWellFormed F.value lp.now }
    ensures turning { IfOk result (IsTurningAnswer F.value F.limit Improves lp.now iterlim) }
    ensures answers { IfOk result (IsAnswer F.value F.limit lp.now iterlim by.Legal) }
    ensures few { IfOk result (HasFewPivotsByTurn F.value lp.now) }
    ensures to_the_end { IfOk result (EndsUninterruptedByTurn F.value lp.now iterlim) }
{
    solve_with(alloc, lp, iterlim, Limiting)
}
