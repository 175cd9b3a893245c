//! The rules that are tried, and the answer by each.
ghost use Rattle.std.specs.Prelude.{◌≡◌, IfOk};
ghost use Rattle.lp_core.specs.declared.answer.Rule.TheVariants as by;
ghost use Rattle.lp_core.specs.Answers.{IsAnswer};
ghost use Rattle.lp_core.specs.WellFormed.{IsWellFormed};
ghost use Rattle.lp_nocycle.specs.Turns.{HasFewPivotsByTurn, EndsUninterruptedByTurn};
ghost use Rattle.lp_any.specs.Members as members;

use crate::measures::{GainForBits, ShortInBoth, ShortInRow, Shortest};
use crate::shuffles::Shuffle;
use gq_field::ExactField;
use lp_core::{Answer, Lp};
use lp_simplex::solve_with;
use std::alloc::{AllocError, Global};

/// A rule for the entering variable in the solver `any`. All but Steepest, Largest and Bland
/// compare the pivots of the improving variables, and pick the variable whose pivot costs least.
#[derive(Clone, Copy)]
pub enum Member {
    /// Steepest edge, where an edge's length counts only the rows that limit the entering variable.
    Steepest,
    /// The pivot number with the fewest bits.
    Shortest,
    /// The most bits of the pivot's gain, less those of the pivot number.
    GainForBits,
    /// The fewest bits of the pivot number over the common denominator of its row, less those of
    /// the gain.
    ShortInRow,
    /// The fewest bits of the pivot number over the common denominators of its row and of its
    /// column, less those of the gain.
    ShortInBoth,
    /// The largest coefficient in the priced row.
    Largest,
    /// Bland's rule.
    Bland,
    /// The most bits of the gain, counted twice, less those of the pivot number and less a
    /// handicap, a number from 0 to 15 that the shuffle with this number gives the variable.
    Shuffle(u8),
}

/// How many rules are tried at most.
pub(crate) const RULES: u8 = 23;

/// The rule that is tried at this place in the sequence, from 0: first these seven, then the
/// shuffles.
pub(crate) fn rule_at(place: u8) -> Member
    ensures { result ≡ members.rule_at place }
{
    match place {
        0 => Member::Steepest,
        1 => Member::Shortest,
        2 => Member::GainForBits,
        3 => Member::ShortInRow,
        4 => Member::ShortInBoth,
        5 => Member::Largest,
        6 => Member::Bland,
        _ => Member::Shuffle(place - 7),
    }
}

/// An answer of the well-formed linear program `lp` by the rule `member`: Chvatal, Linear
/// Programming, chapters 2 and 3. Let v be the number of variables of the standard form, slacks and
/// the artificial variable 0 included. Each rule turns to Bland's rule, to the end of the phase,
/// after v successive degenerate pivots. The answer is Interrupted if a pivot is required after
/// `iterlim` pivots. It has fewer than `2 * 2^v * (v + 1)` pivots, and is not Interrupted if
/// `iterlim` is at least this bound. It is Refused if a step computes a numerator or a denominator
/// above `F.limit`. The error is out of memory.
pub fn answer_of<F: ExactField>(
    alloc: Global,
    lp: &Lp<F>,
    iterlim: u64,
    member: Member,
) -> Result<Answer<F>, AllocError>
    requires { IsWellFormed F.value lp.now }
    ensures answer { IfOk result (members.IsAnswerOf F.value F.limit member lp.now iterlim) }
    ensures legal { IfOk result (IsAnswer F.value F.limit lp.now iterlim by.Legal) }
    ensures few { IfOk result (HasFewPivotsByTurn F.value lp.now) }
    ensures to_the_end { IfOk result (EndsUninterruptedByTurn F.value lp.now iterlim) }
{
    match member {
        Member::Steepest => crate::steepest_answer::solve_in(alloc, lp, iterlim),
        Member::Shortest => solve_with(alloc, lp, iterlim, Shortest),
        Member::GainForBits => solve_with(alloc, lp, iterlim, GainForBits),
        Member::ShortInRow => solve_with(alloc, lp, iterlim, ShortInRow),
        Member::ShortInBoth => solve_with(alloc, lp, iterlim, ShortInBoth),
        Member::Largest => lp_dantzig::solve_in(alloc, lp, iterlim),
        Member::Bland => lp_bland::solve_in(alloc, lp, iterlim),
        Member::Shuffle(number) => solve_with(alloc, lp, iterlim, Shuffle { number }),
    }
}
