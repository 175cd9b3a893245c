//! The answer of a program by the rule of the largest coefficient.
ghost use Rattle.std.specs.Prelude.{IfOk};
ghost use Rattle.lp_core.specs.declared.answer.Rule.TheVariants as by;
ghost use Rattle.lp_core.specs.Answers.{IsAnswer};
ghost use Rattle.lp_core.specs.LargestCoefficient.{IsLargestAnswer};
ghost use Rattle.lp_core.specs.WellFormed.{IsWellFormed};
ghost use Rattle.lp_simplex.specs.Only.{IsOnly};
ghost use Rattle.lp_nocycle.specs.Turns.{HasFewPivotsByTurn, EndsUninterruptedByTurn};

use crate::largest::Largest;
use gq_field::ExactField;
use lp_core::{Answer, Lp};
use lp_simplex::solve_with;
use std::alloc::{AllocError, Global};

/// The only answer of a program by the rule of the largest coefficient, with at most `iterlim`
/// pivots (Chvatal, Linear Programming, chapters 2 and 3).
///
/// Of the variables that improve the phase's objective, the one with the greatest coefficient in it
/// enters, and of several the one with the least number. Of the basic variables with the least
/// ratio, the one with the least number leaves. Let v be the number of variables of the standard
/// form, slacks and variable 0 included. After v successive degenerate pivots of one phase, Bland's
/// rule applies until the phase ends. An end Optimal, Infeasible or Unbounded has a certificate.
/// Interrupted is the end after exactly `iterlim` pivots if a further one is required. Refused has
/// the first step that computes a numerator or denominator above the field's limit. There are fewer
/// than `2 * 2^v * (v + 1)` pivots. If `iterlim` is at least this bound, the end is not
/// Interrupted. The only error is out of memory.
pub fn solve_in<F: ExactField>(
    alloc: Global,
    lp: &Lp<F>,
    iterlim: u64,
) -> Result<Answer<F>, AllocError>
    requires { IsWellFormed F.value lp.now }
    ensures largest { IfOk result (IsLargestAnswer F.value F.limit lp.now iterlim) }
    ensures answers { IfOk result (IsAnswer F.value F.limit lp.now iterlim by.Legal) }
    ensures only { IfOk result (IsOnly (IsLargestAnswer F.value F.limit lp.now iterlim)) }
    ensures few { IfOk result (HasFewPivotsByTurn F.value lp.now) }
    ensures to_the_end { IfOk result (EndsUninterruptedByTurn F.value lp.now iterlim) }
{
    solve_with(alloc, lp, iterlim, Largest)
}
