//! From a solved program to its ranges.
ghost use Rattle.std.specs.Prelude.{◌≡◌, ℕ, List, map, length, slice_get, Some, IfOk};
ghost use Rattle.gq_number.specs.Number.{Number};
ghost use Rattle.lp_core.specs.declared.answer.Rule.TheVariants.{Legal};
ghost use Rattle.lp_core.specs.declared.answer.End.TheVariants.{Optimal};
ghost use Rattle.lp_core.specs.Dictionary.{Dictionary};
ghost use Rattle.lp_core.specs.Answers.{IsAnswer};
ghost use Rattle.lp_core.specs.WellFormed.{IsWellFormed};
ghost use Rattle.lp_range.specs.Spans.{IsInSpan};
ghost use Rattle.lp_range.specs.Ranges as of;
ghost use Rattle.lp_range.specs.Ranges.{IsOptimum, LeadTo, interval_value, span_value};
ghost use Rattle.lp_range.specs.Moved.{MeetsBoundWithRight, MeetsBoundWithCost};
ghost use Rattle.lp_range.specs.declared.interval.Interval.{Interval};

use crate::costs::costs_of;
use crate::interval::Ranges;
use crate::replay::{form_of, replayed};
use crate::rights::rights_of;
use gq_field::ExactField;
use lp_core::{Answer, Lp, Sequence};
use lp_dict::Dict;
use std::alloc::{AllocError, Global};

/// The ranges of a linear program: the values to which one right side or one cost may move while
/// all other numbers stay and the final basis remains optimal (Chvatal, Linear Programming, chapter
/// 10). `answer` must be an optimum with legal pivots.
///
/// These pivots lead to the final dictionary. A right side may move while each row's constant
/// there, except the objective's, remains at least 0: then the answer's duals certify an optimum of
/// the moved program. A cost may move while no variable improves the objective there: then some
/// duals certify the answer's levels for the moved cost.
///
/// An interval is `None` exactly if one of its steps does not fit under the limit of the field. For
/// a right side these are steps for each row except the objective's: for the right side of an
/// equation, the difference of the row's coefficients of the equation's two slacks; then, if the
/// row's constant changes with the right side, the quotient of the constant and its change per
/// unit. For a cost these are steps for each nonbasic variable except variable 0: if the column has
/// no bounds, the difference of the changes of the column's two variables as the nonbasic variable
/// rises by 1; then, if the nonbasic variable's coefficient in the objective changes with the cost,
/// the quotient of the coefficient and its change per unit. The last steps add the least and the
/// greatest move, if any, to the right side or to the cost.
///
/// The only error is out of memory.
pub fn ranges<F: ExactField>(
    alloc: Global,
    lp: &Lp<F>,
    answer: &Answer<F>,
) -> Result<Ranges<F>, AllocError>
    requires well_formed { IsWellFormed F.value lp.now }
    requires answer { IsAnswer F.value F.limit lp.now (length answer.now.pivots) Legal answer.now }
    requires optimal { IsOptimum answer.now }
    ensures entries { IfOk result (λ made. (last : Dictionary) × LeadTo F.value F.limit lp.now answer.now.pivots last
        × (map (span_value F.value) made.rights ≡ of.rights F.value F.limit lp.now last)
        × (map (span_value F.value) made.costs ≡ of.costs F.value F.limit lp.now last)) }
    ensures rights { IfOk result (λ made. (levels row_levels duals reduced : List F) (i : ℕ) (interval : Interval F) (right : Number) →
        answer.now.end ≡ Optimal levels row_levels duals reduced → slice_get made.rights i ≡ Some (Some interval) →
        IsInSpan (interval_value F.value interval) right → MeetsBoundWithRight F.value lp.now (map F.value duals) i right) }
    ensures costs { IfOk result (λ made. (levels row_levels duals reduced : List F) (j : ℕ) (interval : Interval F) (cost : Number) →
        answer.now.end ≡ Optimal levels row_levels duals reduced → slice_get made.costs j ≡ Some (Some interval) →
        IsInSpan (interval_value F.value interval) cost → MeetsBoundWithCost F.value lp.now (map F.value levels) j cost) }
{
    let s = form_of(alloc, lp)?;
    let first = Dict::of(alloc, &s)?;
    let last = replayed(alloc, first, answer.pivots.as_slice())?;
    let rights = rights_of(alloc, lp, &last)?;
    let costs = costs_of(alloc, lp, &s, &last)?;
    Ok(Ranges {
        rights: Sequence::new(rights),
        costs: Sequence::new(costs),
    })
}
