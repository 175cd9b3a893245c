//! From a program and its pivots to the final dictionary.
ghost use Rattle.std.specs.Prelude.{◌≡◌, ◌+◌, ℕ, [], slice_get, Some, IfOk};
ghost use Rattle.lp_core.specs.Counts.{counted};
ghost use Rattle.lp_core.specs.Dictionary.{Dictionary, IsLegal, exchanged, first_dictionary, IsDictionaryOf};
ghost use Rattle.lp_core.specs.Proofs.{FirstCrossed};
ghost use Rattle.lp_core.specs.Pivots.{ByRule, LeadsWithin};
ghost use Rattle.lp_core.specs.StandardForm.{Standard as StandardNumbers, standard_form};
ghost use Rattle.lp_core.specs.Steps.{AllFit, exchange_steps, standard_steps};
ghost use Rattle.lp_core.specs.declared.answer.Rule.TheVariants.{Legal};
ghost use Rattle.lp_core.specs.WellFormed.{IsWellFormed};
ghost use Rattle.lp_std.specs.Meaning.{standard_value};
ghost use Rattle.lp_dict.specs.Tableau.{dictionary};
ghost use Rattle.std.specs.Prelude.{None};

use gq_field::ExactField;
use lp_core::{Lp, Pivot};
use lp_dict::Dict;
use lp_std::{Standard, Stop, standard};
use std::alloc::{AllocError, Global};

/// The standard form of a program that has one. The only error is out of memory.
pub(crate) fn form_of<F: ExactField>(alloc: Global, lp: &Lp<F>) -> Result<Standard<F>, AllocError>
    requires well_formed { IsWellFormed F.value lp.now }
    requires none_crosses { FirstCrossed F.value lp.now.columns None }
    requires all_fit { AllFit (standard_steps F.value F.limit lp.now) }
    ensures { IfOk result (λ s. standard_value F.value s ≡ standard_form F.value lp.now) }
{
    match standard(alloc, lp) {
        Ok(s) => Ok(s),
        Err(Stop::Memory) => Err(AllocError),
        Err(Stop::Limit(_)) => unreachable!(),
        Err(Stop::Crossed(_)) => unreachable!(),
    }
}

/// The dictionary after a pivot whose steps all fit. The only error is out of memory.
fn after<F: ExactField>(alloc: Global, dict: Dict<F>, pivot: Pivot) -> Result<Dict<F>, AllocError>
    requires { (k : ℕ) × IsLegal (dictionary F.value dict) pivot k × AllFit (exchange_steps F.limit dict.upcoming (dictionary F.value dict) pivot.enter k) }
    ensures exchanged { IfOk result (λ made. (k : ℕ) → slice_get dict.basic k ≡ Some pivot.leave → dictionary F.value made ≡
        exchanged (dictionary F.value dict) pivot.enter k) }
    ensures of_form { IfOk result (λ made. (s : StandardNumbers) → IsDictionaryOf s (dictionary F.value dict) → IsDictionaryOf s (dictionary F.value made)) }
    ensures upcoming { IfOk result (λ made. made.upcoming ≡ counted (dict.upcoming + 1)) }
{
    match dict.pivot(alloc, pivot) {
        Ok(made) => Ok(made),
        Err(Stop::Memory) => Err(AllocError),
        Err(Stop::Limit(_)) => unreachable!(),
        Err(Stop::Crossed(_)) => unreachable!(),
    }
}

/// The dictionary to which these legal pivots, whose steps all fit, lead from a first one. The only
/// error is out of memory.
pub(crate) fn replayed<F: ExactField>(
    alloc: Global,
    first: Dict<F>,
    pivots: &[Pivot],
) -> Result<Dict<F>, AllocError>
    requires upcoming { first.upcoming ≡ 1 }
    requires leads { (last : Dictionary) × LeadsWithin (ByRule Legal) F.limit 1 [] (dictionary F.value first) pivots.now last }
    ensures reached { IfOk result (λ made. (last : Dictionary) →
        LeadsWithin (ByRule Legal) F.limit 1 [] (dictionary F.value first) pivots.now last → dictionary F.value made ≡ last) }
    ensures of_form { IfOk result (λ made. (s : StandardNumbers) → IsDictionaryOf s (dictionary F.value first) → IsDictionaryOf s (dictionary F.value made)) }
{
    let mut dict = first;
    for pivot in pivots {
        dict = after(alloc, dict, *pivot)?;
    }
    Ok(dict)
}
