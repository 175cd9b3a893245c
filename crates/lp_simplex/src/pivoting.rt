//! The pivot loop, from the first dictionary to the final one.
ghost use Rattle.std.specs.Prelude.{◌≡◌, ℕ, List, [], IfOk};
ghost use Rattle.lp_core.specs.declared.answer.Pivot.{Pivot};
ghost use Rattle.lp_core.specs.Dictionary.{Dictionary, Improves, IsLegal, IsProper};
ghost use Rattle.lp_core.specs.Pivots.{TestFits, IsTaken};
ghost use Rattle.lp_dict.specs.Tableau.{dictionary};
ghost use Rattle.lp_simplex.specs.InnerStates as walks;

use crate::choosing::Choosing;
use gq_field::ExactField;
use lp_core::{Pivot, StepName};
use lp_dict::Dict;
use lp_std::Stop;
use std::alloc::{AllocError, Global};

/// What follows at a dictionary.
#[derive(Clone, Copy)]
enum NextStep {
    /// This pivot.
    Pivot(Pivot),
    /// This step of a pivot's ratio test does not fit.
    Stop(StepName),
    /// No pivot: nothing improves, or this variable improves and no row limits it.
    End(Option<u32>),
}

/// How a run of pivots halts.
#[derive(Drop)]
pub(crate) enum Halt<F: ExactField> {
    /// No pivot is required at the final dictionary: nothing improves, or this variable improves
    /// and no row limits it.
    Ended(Dict<F>, Option<u32>),
    /// The limit of pivots is met at this dictionary, and a further pivot is required.
    Interrupted(Dict<F>),
    /// This step of a further pivot does not fit under the limit of the numbers.
    Refused(StepName),
}

/// The result of one pivot.
#[derive(Drop)]
enum Step<F: ExactField> {
    /// The pivot was made, and this is the dictionary after it.
    Pivoted(Pivot, Dict<F>),
    /// No pivot was made.
    Halted(Halt<F>),
}

/// A run of pivots: the pivots made, and how it halts.
#[derive(Drop)]
pub(crate) struct PivotRun<F: ExactField> {
    pub(crate) pivots: Vec<Pivot>,
    pub(crate) halt: Halt<F>,
}

/// What follows when this variable enters: a pivot with the variable that leaves, or an end if none
/// leaves.
fn next_with(enter: u32, leave: Option<u32>) -> NextStep
    ensures { result ≡ walks.next_with enter leave }
{
    match leave {
        Some(leave) => NextStep::Pivot(Pivot { enter, leave }),
        None => NextStep::End(Some(enter)),
    }
}

/// What follows at a dictionary.
fn next_at<C: Choosing<F>, F: ExactField>(dict: &Dict<F>, choice: &C) -> NextStep
    ensures legal { walks.IsNextStep F.limit (Improves (dictionary F.value dict.now)) dict.now.upcoming (dictionary F.value dict.now) result }
    ensures chosen { (first : Dictionary) (pivots : List Pivot) → C.remembers choice.now first pivots (dictionary F.value dict.now) →
        walks.IsNextStep F.limit (C.chooses (C.rule choice.now) first pivots (dictionary F.value dict.now)) dict.now.upcoming (dictionary F.value dict.now) result }
{
    if let Some(pivot) = dict.opening() {
        return NextStep::Pivot(pivot);
    }
    let Some(enter) = choice.entering(dict) else {
        return NextStep::End(None);
    };
    match dict.leaving(enter) {
        Ok(leave) => next_with(enter, leave),
        Err(Stop::Limit(step)) => NextStep::Stop(step),
        Err(Stop::Crossed(_)) => unreachable!(),
        Err(Stop::Memory) => unreachable!(),
    }
}

/// The dictionary after this pivot, or where the run halts before it.
fn pivoted<C: Choosing<F>, F: ExactField>(
    alloc: Global,
    dict: Dict<F>,
    pivot: Pivot,
    choice: &mut C,
) -> Result<Step<F>, AllocError>
    requires proper { IsProper (dictionary F.value dict) }
    requires legal { (k : ℕ) × IsLegal (dictionary F.value dict) pivot k × TestFits F.limit dict.upcoming (dictionary F.value dict) pivot }
    ensures rule { C.rule choice.new ≡ C.rule choice.old }
    ensures steps { IfOk result (λ step. (first : Dictionary) (pivots : List Pivot) → C.remembers choice.old first pivots (dictionary F.value dict) →
        IsTaken (C.chooses (C.rule choice.old) first pivots (dictionary F.value dict)) (dictionary F.value dict) pivot →
        walks.StepsTo F.limit F.value (C.chooses (C.rule choice.old) first pivots (dictionary F.value dict)) (C.remembers choice.new first) pivots dict step) }
{
    choice.note(&dict, pivot);
    match dict.pivot(alloc, pivot) {
        Ok(after) => Ok(Step::Pivoted(pivot, after)),
        Err(Stop::Limit(step)) => Ok(Step::Halted(Halt::Refused(step))),
        Err(Stop::Memory) => Err(AllocError),
        Err(Stop::Crossed(_)) => unreachable!(),
    }
}

/// The result of one pivot at a dictionary.
fn stepped<C: Choosing<F>, F: ExactField>(
    alloc: Global,
    dict: Dict<F>,
    choice: &mut C,
) -> Result<Step<F>, AllocError>
    requires { IsProper (dictionary F.value dict) }
    ensures rule { C.rule choice.new ≡ C.rule choice.old }
    ensures steps { IfOk result (λ step. (first : Dictionary) (pivots : List Pivot) → C.remembers choice.old first pivots (dictionary F.value dict) →
        walks.StepsTo F.limit F.value (C.chooses (C.rule choice.old) first pivots (dictionary F.value dict)) (C.remembers choice.new first) pivots dict step) }
{
    match next_at(&dict, choice) {
        NextStep::Pivot(pivot) => pivoted(alloc, dict, pivot, choice),
        NextStep::Stop(step) => Ok(Step::Halted(Halt::Refused(step))),
        NextStep::End(enter) => Ok(Step::Halted(Halt::Ended(dict, enter))),
    }
}

/// Where a run halts that may make no further pivot.
fn halted<C: Choosing<F>, F: ExactField>(dict: Dict<F>, choice: &C) -> Halt<F>
    ensures { (first : Dictionary) (pivots : List Pivot) → C.remembers choice.now first pivots (dictionary F.value dict) →
        walks.HaltsAtLimit F.limit F.value (C.chooses (C.rule choice.now) first pivots (dictionary F.value dict)) dict result }
{
    match next_at(&dict, choice) {
        NextStep::Pivot(_) => Halt::Interrupted(dict),
        NextStep::Stop(_) => Halt::Interrupted(dict),
        NextStep::End(enter) => Halt::Ended(dict, enter),
    }
}

/// The run of at most `iterlim` pivots from a program's first dictionary. The error is out of
/// memory.
pub(crate) fn run_of_pivots<C: Choosing<F>, F: ExactField>(
    alloc: Global,
    first: Dict<F>,
    iterlim: u64,
    choice: &mut C,
) -> Result<PivotRun<F>, AllocError>
    requires upcoming { first.upcoming ≡ 1 }
    requires proper { IsProper (dictionary F.value first) }
    requires fresh { C.remembers choice.old (dictionary F.value first) [] (dictionary F.value first) }
    ensures { IfOk result (walks.IsPivotRun F.limit F.value (C.chooses (C.rule choice.old)) (dictionary F.value first) iterlim) }
{
    let mut pivots = Vec::new(alloc);
    let mut dict = first;
    for _taken in 0..iterlim {
        match stepped(alloc, dict, choice)? {
            Step::Pivoted(pivot, after) => {
                pivots.push(pivot)?;
                dict = after;
            }
            Step::Halted(halt) => return Ok(PivotRun { pivots, halt }),
        }
    }
    let halt = halted(dict, choice);
    Ok(PivotRun { pivots, halt })
}
