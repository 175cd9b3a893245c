//! What is printed of the ranges of solves, by their programs and their answers.
ghost use Rattle.std.specs.Prelude.{◌≡◌, ◌++◌, ℕ, List, map, length, IfOk, OnOk, string_bytes};
ghost use Rattle.lp_core.specs.declared.answer.Rule.TheVariants.{Legal};
ghost use Rattle.lp_core.specs.Answers.{IsAnswer};
ghost use Rattle.lp_core.specs.Dictionary.{Dictionary};
ghost use Rattle.lp_core.specs.Numbers.{lp_numbers, answer_numbers};
ghost use Rattle.lp_core.specs.WellFormed.{IsWellFormed};
ghost use Rattle.lp_range.specs.Ranges.{IsOptimum, LeadTo, rights, costs};
ghost use Rattle.gms_command.specs.RangeTexts.{spans_text, SaysAnswer, SaysRanges};
ghost use Rattle.gms_command.specs.Answered.{IsSomeAnswer, AreSomeAnswers};

use crate::command_line::ranges_line;
use crate::lines::{push_costs, push_rights};
use gms_labels::Labels;
use gq_field::ExactField;
use lp_core::{Answer, End, Lp};
use lp_range::ranges;
use std::alloc::{AllocError, Global};

/// Appends what is printed of an optimum, the answer of this solve.
fn push_optimum<F: ExactField>(
    alloc: Global,
    names: &Labels,
    labels: &Labels,
    solve: usize,
    lp: &Lp<F>,
    answer: &Answer<F>,
    text: &mut String,
) -> Result<(), AllocError>
    requires formed { IsWellFormed F.value lp.now }
    requires is_answer { IsAnswer F.value F.limit lp.now (length answer.now.pivots) Legal answer.now }
    requires optimal { IsOptimum answer.now }
    ensures { OnOk result ((last : Dictionary) × LeadTo F.value F.limit lp.now answer.now.pivots last
        × (string_bytes text.new ≡ string_bytes text.old ++
        spans_text names.now labels.now solve (lp_numbers F.value lp.now) (rights F.value F.limit lp.now last)
        (costs F.value F.limit lp.now last))) }
{
    let found = ranges(alloc, lp, answer)?;
    let head = ranges_line(alloc, solve)?;
    text.push_str(head.as_str())?;
    let (rights, costs) = (found.rights.as_slice(), found.costs.as_slice());
    push_rights(alloc, names, labels, lp.rows.as_slice(), rights, text)?;
    push_costs(alloc, names, labels, lp.columns.as_slice(), costs, text)
}

/// Appends what is printed of the answer of a solve: of an optimum its ranges, of any other answer
/// nothing.
fn push_answer<F: ExactField>(
    alloc: Global,
    names: &Labels,
    labels: &Labels,
    solve: usize,
    lp: &Lp<F>,
    answer: &Answer<F>,
    text: &mut String,
) -> Result<(), AllocError>
    requires { IsSomeAnswer F.value F.limit lp.now answer.now }
    ensures { OnOk result ((said : List ℕ) × SaysAnswer names.now labels.now F.limit solve (lp_numbers F.value lp.now) (answer_numbers F.value answer.now) said
        × (string_bytes text.new ≡ string_bytes text.old ++ said)) }
{
    match &answer.end {
        End::Optimal { .. } => push_optimum(alloc, names, labels, solve, lp, answer, text),
        _ => Ok(()),
    }
}

/// The text of the sensitivity ranges that are printed for the solves of a run. `solved` has the
/// linear program of each solve, and `answers` its answer, in the order of the solves. Each program
/// must be well formed, and its answer one under some `iterlim` and some pivot rule. `names` and
/// `labels` are the tables of the GAMS program.
///
/// For each answer that is an optimum, and no other, the text has a line with the solve's number,
/// from 1; then a line for the right side of each row, except nonbinding rows (`=n=`); then one for
/// the cost of each column. The range of a right side has the values for which the basis of the
/// final dictionary remains feasible, and that of a cost those for which this basis remains
/// optimal, if all other numbers stay the same (Chvatal, Linear Programming, chapter 10). If the
/// computation of a range exceeds the field's limit on the size of numbers, its line says
/// `not shown`. The error is out of memory.
pub fn ranges_text<F: ExactField>(
    alloc: Global,
    names: &Labels,
    labels: &Labels,
    solved: &[Lp<F>],
    answers: &[Answer<F>],
) -> Result<String, AllocError>
    requires { AreSomeAnswers F.value F.limit solved.now answers.now }
    ensures { IfOk result (λ text. SaysRanges names.now labels.now F.limit 1 (map (lp_numbers F.value) solved.now)
        (map (answer_numbers F.value) answers.now) (string_bytes text)) }
{
    let mut text = String::new(alloc);
    for (place, answer) in answers.iter().enumerate() {
        push_answer(
            alloc,
            names,
            labels,
            place + 1,
            &solved[place],
            answer,
            &mut text,
        )?;
    }
    Ok(text)
}
