//! From a linear program to its answer.
ghost use Rattle.std.specs.Prelude.{◌≡◌, ◌≢◌, ℕ, pos, [], map, replicate, Some, IfOk};
ghost use Rattle.gq_number.specs.Number.{whole};
ghost use Rattle.lp_core.specs.Ends.{IsDone};
ghost use Rattle.lp_core.specs.declared.answer.Rule.TheVariants.{Legal};
ghost use Rattle.lp_core.specs.Proofs.{FirstCrossed};
ghost use Rattle.lp_core.specs.declared.answer.StepName.{StepName};
ghost use Rattle.lp_core.specs.declared.answer.End.TheVariants.{Refused};
ghost use Rattle.lp_core.specs.Dictionary.{Dictionary, IsDictionaryOf};
ghost use Rattle.lp_core.specs.Answers.{EndsCrossed, IsAnswer, IsAnswerByChoice};
ghost use Rattle.lp_core.specs.Steps.{AllFit, standard_steps};
ghost use Rattle.lp_core.specs.WellFormed.{IsWellFormed};
ghost use Rattle.lp_std.specs.declared.stop.Stop.TheVariants as stops;
ghost use Rattle.lp_std.specs.Meaning.{standard_value, HasNoForm};
ghost use Rattle.lp_std.specs.Recovery.{IsFormOf};
ghost use Rattle.lp_dict.specs.Tableau.{dictionary};
ghost use Rattle.lp_simplex.specs.InnerEnds.{MayContinue, CanEnd, IsLedBack, IsBrokenOff, EndsHalted, EndsFormless};

use crate::choosing::Choosing;
use crate::pivoting::{Halt, run_of_pivots};
use gq_field::ExactField;
use lp_core::{Answer, End, Lp, Sequence, StepName};
use lp_dict::Dict;
use lp_std::{Standard, Stop, recover, standard};
use std::alloc::{AllocError, Global};

/// The end if this step does not fit. Out of memory is passed on.
fn refused<F>(stop: Stop) -> Result<End<F>, AllocError>
    requires { (j : ℕ) → stop ≢ stops.Crossed j }
    ensures { IfOk result (λ end. (step : StepName) × (stop ≡ stops.Limit step) × (end ≡ Refused step)) }
{
    match stop {
        Stop::Limit(step) => Ok(End::Refused { step }),
        Stop::Memory => Err(AllocError),
        Stop::Crossed(_) => unreachable!(),
    }
}

/// The end recovered from a final dictionary, or the first step of the recovery that does not fit.
fn led_back<F: ExactField>(
    alloc: Global,
    lp: &Lp<F>,
    s: &Standard<F>,
    dict: &Dict<F>,
    enter: Option<u32>,
) -> Result<End<F>, AllocError>
    requires well_formed { IsWellFormed F.value lp.now }
    requires form { IsFormOf F.value lp.now s.now }
    requires of_form { IsDictionaryOf (standard_value F.value s.now) (dictionary F.value dict.now) }
    requires done { IsDone (dictionary F.value dict.now) enter }
    ensures { IfOk result (IsLedBack F.value F.limit lp.now (dictionary F.value dict.now) enter) }
{
    let last = dict.done(alloc, enter)?;
    match recover(alloc, lp, s, &last) {
        Ok(end) => Ok(end),
        Err(stop) => refused(stop),
    }
}

/// The end when the limit of pivots is met: it shows nothing in phase 1, and the run's point in
/// phase 2.
fn interrupted<F: ExactField>(
    alloc: Global,
    lp: &Lp<F>,
    s: &Standard<F>,
    dict: &Dict<F>,
) -> Result<End<F>, AllocError>
    requires well_formed { IsWellFormed F.value lp.now }
    requires form { IsFormOf F.value lp.now s.now }
    requires of_form { IsDictionaryOf (standard_value F.value s.now) (dictionary F.value dict.now) }
    requires continues { MayContinue (dictionary F.value dict.now) }
    ensures { IfOk result (IsBrokenOff F.value F.limit lp.now (dictionary F.value dict.now)) }
{
    if dict.phase() == 2 {
        return led_back(alloc, lp, s, dict, None);
    }
    Ok(End::Interrupted {
        phase: 1,
        levels: Sequence::new(Vec::new(alloc)),
        row_levels: Sequence::new(Vec::new(alloc)),
    })
}

/// The end of a run that halted so.
fn end_of<F: ExactField>(
    alloc: Global,
    lp: &Lp<F>,
    s: &Standard<F>,
    halt: Halt<F>,
) -> Result<End<F>, AllocError>
    requires well_formed { IsWellFormed F.value lp.now }
    requires form { IsFormOf F.value lp.now s.now }
    requires halted { CanEnd F.value (standard_value F.value s.now) halt }
    ensures { IfOk result (EndsHalted F.value F.limit lp.now halt) }
{
    match halt {
        Halt::Ended(dict, enter) => led_back(alloc, lp, s, &dict, enter),
        Halt::Interrupted(dict) => interrupted(alloc, lp, s, &dict),
        Halt::Refused(step) => Ok(End::Refused { step }),
    }
}

/// The answer of a program with this standard form.
fn searched<C: Choosing<F>, F: ExactField>(
    alloc: Global,
    lp: &Lp<F>,
    s: &Standard<F>,
    iterlim: u64,
    choice: &mut C,
) -> Result<Answer<F>, AllocError>
    requires well_formed { IsWellFormed F.value lp.now }
    requires form { IsFormOf F.value lp.now s.now }
    requires all_fit { AllFit (standard_steps F.value F.limit lp.now) }
    requires fresh { (d : Dictionary) → C.remembers choice.old d [] d }
    ensures { IfOk result (IsAnswerByChoice F.value F.limit lp.now iterlim (C.chooses (C.rule choice.old))) }
{
    let first = Dict::of(alloc, s)?;
    let pivot_run = run_of_pivots(alloc, first, iterlim, choice)?;
    let end = end_of(alloc, lp, s, pivot_run.halt)?;
    Ok(Answer {
        pivots: Sequence::new(pivot_run.pivots),
        end,
    })
}

/// A list of zeros.
fn zeros<F: ExactField>(alloc: Global, count: usize) -> Result<Vec<F>, AllocError>
    ensures { IfOk result (λ list. map F.value list.items ≡ replicate count (whole (pos 0))) }
{
    let mut list = Vec::new(alloc);
    for _place in 0..count {
        list.push(F::zero())?;
    }
    Ok(list)
}

/// The end of a program in which the bounds of this column cross, and those of no earlier one: all
/// factors of rows are 0.
fn crossed<F: ExactField>(alloc: Global, lp: &Lp<F>, column: u32) -> Result<End<F>, AllocError>
    requires { FirstCrossed F.value lp.now.columns (Some column) }
    ensures { IfOk result (EndsCrossed F.value lp.now) }
{
    let duals = zeros(alloc, lp.rows.len())?;
    Ok(End::Infeasible {
        duals: Sequence::new(duals),
        crossed: Some(column),
    })
}

/// The end of a program that has no standard form.
fn formless<F: ExactField>(alloc: Global, lp: &Lp<F>, stop: Stop) -> Result<End<F>, AllocError>
    requires { HasNoForm F.value F.limit lp.now stop }
    ensures { IfOk result (EndsFormless F.value F.limit lp.now) }
{
    match stop {
        Stop::Crossed(column) => crossed(alloc, lp, column),
        Stop::Limit(step) => Ok(End::Refused { step }),
        Stop::Memory => Err(AllocError),
    }
}

/// An answer of the program `lp`, found by at most `iterlim` pivots: Chvatal, Linear Programming,
/// chapters 2, 3 and 8. In the opening pivot variable 0 enters, and of the variables whose rows
/// have the least constant the one with the least number leaves. In each other pivot `choice` picks
/// the variable that enters, and of the variables that tie in the ratio test the one with the least
/// number leaves. The caller must ensure that `choice` remembers no pivot at the start.
///
/// If the bounds of a column cross, the end is Infeasible with the first such column. Otherwise
/// pivots are made until none is required, or `iterlim` are made. If a further pivot is then
/// required, the end is Interrupted, else Optimal, Infeasible or Unbounded. If a step of the
/// standard form, of a pivot or of reading the end from the final dictionary computes a numerator
/// or a denominator beyond the field's limit, the end is Refused with the first such step. The only
/// error is out of memory.
pub fn solve_by<C: Choosing<F>, F: ExactField>(
    alloc: Global,
    lp: &Lp<F>,
    iterlim: u64,
    choice: &mut C,
) -> Result<Answer<F>, AllocError>
    requires well_formed { IsWellFormed F.value lp.now }
    requires fresh { (d : Dictionary) → C.remembers choice.old d [] d }
    ensures chosen { IfOk result (IsAnswerByChoice F.value F.limit lp.now iterlim (C.chooses (C.rule choice.old))) }
    ensures legal { IfOk result (IsAnswer F.value F.limit lp.now iterlim Legal) }
{
    match standard(alloc, lp) {
        Ok(s) => searched(alloc, lp, &s, iterlim, choice),
        Err(stop) => Ok(Answer {
            pivots: Sequence::new(Vec::new(alloc)),
            end: formless(alloc, lp, stop)?,
        }),
    }
}
