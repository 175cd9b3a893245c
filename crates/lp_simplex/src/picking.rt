//! A rule of choice: which of the improving variables enters, by the dictionary alone.
ghost use Rattle.std.specs.Prelude.{ℕ, MatchOption};
ghost use Rattle.lp_core.specs.Dictionary.{Dictionary, OpeningIsRequired, Improves};
ghost use Rattle.lp_dict.specs.Tableau.{dictionary};

use gq_field::ExactField;
use lp_dict::Dict;

/// A rule that picks the entering variable among those that improve. It depends on the dictionary
/// alone, not on the pivots so far: Chvatal, Linear Programming, chapters 2 and 3.
pub trait Picking<F: ExactField>: Drop {
    /// Whether the rule may pick this variable at this dictionary.
    ghost picks: { Self → Dictionary → ℕ → Type 0 };

    /// A variable that the rule picks. `None` exactly if no variable improves.
    fn pick(&self, dict: &Dict<F>) -> Option<u32>
        requires { ¬ (OpeningIsRequired (dictionary F.value dict.now)) }
        ensures { MatchOption result ((v : ℕ) → ¬ (Improves (dictionary F.value dict.now) v)) (picks self.now (dictionary F.value dict.now)) };

    /// A variable that the rule may pick improves.
    ghost improving: { (rule : Self) (d : Dictionary) (q : ℕ) → picks rule d q → Improves d q };
}
