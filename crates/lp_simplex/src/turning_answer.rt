//! The answer of a program by a rule of choice with the turn to Bland's rule.
ghost use Rattle.std.specs.Prelude.{IfOk};
ghost use Rattle.lp_core.specs.declared.answer.Rule.TheVariants as by;
ghost use Rattle.lp_core.specs.Answers.{IsAnswer};
ghost use Rattle.lp_core.specs.WellFormed.{IsWellFormed};
ghost use Rattle.lp_nocycle.specs.Turns.{HasFewPivotsByTurn, EndsUninterruptedByTurn};
ghost use Rattle.lp_simplex.specs.Turn.{IsTurningAnswer};

use crate::answer::solve_by;
use crate::picking::Picking;
use crate::turning::Turning;
use gq_field::ExactField;
use lp_core::{Answer, Lp};
use std::alloc::{AllocError, Global};

/// An answer of the linear program `lp`, found by at most `iterlim` pivots: Chvatal, Linear
/// Programming, chapters 2 and 3.
///
/// Let n be the number of variables of the standard form, slacks and variable 0 included. In the
/// opening pivot variable 0 enters, and of the variables whose rows have the least constant the one
/// with the least number leaves. In each other pivot an improving variable enters. `rule` picks it,
/// but after n successive degenerate pivots of one phase Bland's rule picks it, to the end of this
/// phase. Of the variables that tie in the ratio test the one with the least number leaves.
///
/// The answer has fewer than 2 * 2^n * (n + 1) pivots; if `iterlim` is at least this number, its
/// end is not Interrupted. An end Optimal, Infeasible or Unbounded has a certificate. The end is
/// Interrupted if a further pivot is required after `iterlim` pivots. The end Refused has the first
/// step that computes a numerator or a denominator beyond the field's limit. The only error is out
/// of memory.
pub fn solve_with<P: Picking<F>, F: ExactField>(
    alloc: Global,
    lp: &Lp<F>,
    iterlim: u64,
    rule: P,
) -> Result<Answer<F>, AllocError>
    requires { IsWellFormed F.value lp.now }
    ensures turning { IfOk result (IsTurningAnswer F.value F.limit (P.picks rule) lp.now iterlim) }
    ensures legal { IfOk result (IsAnswer F.value F.limit lp.now iterlim by.Legal) }
    ensures few { IfOk result (HasFewPivotsByTurn F.value lp.now) }
    ensures to_the_end { IfOk result (EndsUninterruptedByTurn F.value lp.now iterlim) }
{
    let mut choice = Turning::new(rule);
    solve_by(alloc, lp, iterlim, &mut choice)
}
