//! The first answer of several rules that is not Refused.
ghost use Rattle.std.specs.Prelude.{◌↔◌, IsTrue, IfOk};
ghost use Rattle.lp_core.specs.declared.answer.Rule.TheVariants as by;
ghost use Rattle.lp_core.specs.Answers.{IsAnswer};
ghost use Rattle.lp_core.specs.WellFormed.{IsWellFormed};
ghost use Rattle.lp_nocycle.specs.Turns.{HasFewPivotsByTurn, EndsUninterruptedByTurn};
ghost use Rattle.lp_bland.specs.Ends.{IsRefusedEnd};
ghost use Rattle.lp_any.specs.Members.{IsAnswerInTurn, AreRefused, rule_count};

use crate::members::{Member, RULES, answer_of, rule_at};
use gq_field::ExactField;
use lp_core::{Answer, End, Lp};
use std::alloc::{AllocError, Global};

/// Whether an end is Refused.
fn is_refused<F: ExactField>(end: &End<F>) -> bool
    ensures { IsTrue result ↔ IsRefusedEnd end.now }
{
    match end {
        End::Refused { .. } => true,
        _ => false,
    }
}

/// The answer of the well-formed linear program `lp` by the first of 23 rules whose answer is not
/// Refused; if all are Refused, the answer by Bland's rule, one of the 23 (Chvatal, Linear
/// Programming, chapters 2 and 3). The answer has only the pivots of the rule that gives it.
///
/// An answer is Refused if a step computes a numerator or a denominator above `F.limit`. The pivots
/// of another rule may keep the numbers within the limit. An answer is Interrupted if its rule
/// requires a pivot after `iterlim` pivots by this rule. Let v be the number of variables of the
/// standard form, slacks and the artificial variable 0 included. Each rule turns to Bland's rule,
/// to the end of the phase, after v successive degenerate pivots. So an answer has fewer than
/// `2 * 2^v * (v + 1)` pivots, and is not Interrupted if `iterlim` is at least this bound. The
/// error is out of memory.
pub fn solve_in<F: ExactField>(
    alloc: Global,
    lp: &Lp<F>,
    iterlim: u64,
) -> Result<Answer<F>, AllocError>
    requires { IsWellFormed F.value lp.now }
    ensures in_turn { IfOk result (IsAnswerInTurn F.value F.limit lp.now iterlim) }
    ensures refused { IfOk result (λ answer. IsRefusedEnd answer.end → AreRefused F.value F.limit rule_count lp.now iterlim) }
    ensures by_bland { IfOk result (λ answer. IsRefusedEnd answer.end → IsAnswer F.value F.limit lp.now iterlim by.Bland answer) }
    ensures answers { IfOk result (IsAnswer F.value F.limit lp.now iterlim by.Legal) }
    ensures few { IfOk result (HasFewPivotsByTurn F.value lp.now) }
    ensures to_the_end { IfOk result (EndsUninterruptedByTurn F.value lp.now iterlim) }
{
    for place in 0..RULES {
        let answer = answer_of(alloc, lp, iterlim, rule_at(place))?;
        if !is_refused(&answer.end) {
            return Ok(answer);
        }
    }
    answer_of(alloc, lp, iterlim, Member::Bland)
}
