//! Which of the variables that improve enters.
ghost use Rattle.std.specs.Prelude.{◌≡◌, ℕ, List, [], ◌∷◌, ◌++◌, slice_get, Some, MatchOption};
ghost use Rattle.lp_core.specs.declared.answer.Pivot.{Pivot};
ghost use Rattle.lp_core.specs.Dictionary.{Dictionary, OpeningIsRequired, Improves, IsLegal, exchanged, IsProper};
ghost use Rattle.lp_dict.specs.Tableau.{dictionary};

use gq_field::ExactField;
use lp_core::Pivot;
use lp_dict::Dict;

/// A choice of the entering variable among those that improve (Chvatal, Linear Programming,
/// chapters 2 and 3). It may depend on the dictionary, the first one and the pivots so far, which a
/// value of the type may remember.
pub trait Choosing<F: ExactField> {
    /// The type of the rules that choosers of this type have.
    ghost Rule: { Type 0 };

    /// The rule that a chooser has. No pivot changes it.
    ghost rule: { Self → Rule };

    /// Whether a rule allows a variable to enter, by the first dictionary, the pivots so far, and
    /// the dictionary they lead to.
    ghost chooses: { Rule → Dictionary → List Pivot → Dictionary → ℕ → Type 0 };

    /// Whether the chooser remembers what its rule depends on, for this first dictionary, the
    /// pivots so far, and the dictionary they lead to.
    ghost remembers: { Self → Dictionary → List Pivot → Dictionary → Type 0 };

    /// The variable that enters: it improves, and the rule allows it after the pivots that the
    /// chooser remembers. `None` exactly if no variable improves.
    fn entering(&self, dict: &Dict<F>) -> Option<u32>
        requires { ¬ (OpeningIsRequired (dictionary F.value dict.now)) }
        ensures { MatchOption result ((v : ℕ) → ¬ (Improves (dictionary F.value dict.now) v))
            (λ q. Improves (dictionary F.value dict.now) q × ((first : Dictionary) (pivots : List Pivot) →
            remembers self.now first pivots (dictionary F.value dict.now) → chooses (rule self.now) first pivots (dictionary F.value dict.now) q)) };

    /// Adds to what the chooser remembers a pivot that is about to be made at this dictionary.
    fn note(&mut self, dict: &Dict<F>, pivot: Pivot)
        requires proper { IsProper (dictionary F.value dict.now) }
        requires legal { (k : ℕ) × IsLegal (dictionary F.value dict.now) pivot k }
        ensures rule { rule self.new ≡ rule self.old }
        ensures remembered { (first : Dictionary) (pivots : List Pivot) (k : ℕ) → slice_get dict.now.basic k ≡ Some pivot.leave →
            remembers self.old first pivots (dictionary F.value dict.now) →
            remembers self.new first (pivots ++ pivot ∷ []) (exchanged (dictionary F.value dict.now) pivot.enter k) };

    /// A variable that a rule allows to enter improves.
    ghost improving: { (by : Rule) (first : Dictionary) (pivots : List Pivot) (d : Dictionary) (q : ℕ) → chooses by first pivots d q → Improves d q };
}
