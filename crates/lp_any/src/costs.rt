//! Rules that pick the variable with the least cost.
ghost use Rattle.std.specs.Prelude.{ℕ, MatchOption};
ghost use Rattle.lp_core.specs.Dictionary.{Dictionary, OpeningIsRequired, Improves};
ghost use Rattle.lp_dict.specs.Tableau.{dictionary};
ghost use Rattle.lp_any.specs.Costs.{IsCheaper, IsCheapest, IsTried};

use gq_field::ExactField;
use lp_dict::Dict;

/// A rule that gives each improving variable a cost, and picks the cheapest to enter.
pub(crate) trait Costing<F: ExactField>: Drop {
    /// Whether this number is the cost of a variable at a dictionary by a rule.
    ghost costs: { Self → Dictionary → ℕ → ℕ → Type 0 };

    /// The cost of an improving variable at a dictionary.
    fn cost(&self, dict: &Dict<F>, variable: u32) -> u32
        requires { Improves (dictionary F.value dict.now) variable }
        ensures { costs self.now (dictionary F.value dict.now) variable result };
}

/// An improving variable, and its cost.
#[derive(Clone, Copy)]
pub(crate) struct Candidate {
    variable: u32,
    cost: u32,
}

/// The better of two: the one that costs less, and of equal ones the first.
fn better(best: Option<Candidate>, other: Candidate) -> Candidate
    ensures { IsCheaper best other result }
{
    let Some(best) = best else {
        return other;
    };
    if other.cost < best.cost { other } else { best }
}

/// The better of the best variable so far and another, if that improves.
fn tried<C: Costing<F>, F: ExactField>(
    rule: &C,
    dict: &Dict<F>,
    best: Option<Candidate>,
    variable: u32,
) -> Option<Candidate>
    ensures { IsTried (C.costs rule.now) (dictionary F.value dict.now) variable best result }
{
    if !dict.improves(variable) {
        return best;
    }
    let cost = rule.cost(dict, variable);
    Some(better(best, Candidate { variable, cost }))
}

/// The improving variable that costs least, and of several such the one with the least number.
/// `None` exactly if no variable improves.
pub(crate) fn cheapest<C: Costing<F>, F: ExactField>(rule: &C, dict: &Dict<F>) -> Option<u32>
    ensures { MatchOption result ((v : ℕ) → ¬ (Improves (dictionary F.value dict.now) v)) (IsCheapest (C.costs rule.now) (dictionary F.value dict.now)) }
{
    dict.keeps();
    let mut best = None;
    for variable in 0..dict.variables() + 1 {
        best = tried(rule, dict, best, variable);
    }
    match best {
        Some(best) => Some(best.variable),
        None => None,
    }
}
