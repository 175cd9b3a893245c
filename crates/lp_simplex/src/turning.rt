//! A rule with the turn to Bland's: what it remembers of the pivots, and what enters.
ghost use Rattle.std.specs.Prelude.{◌≡◌, ◌↔◌, pos, IsTrue};
ghost use Rattle.gq_number.specs.Number.{whole};
ghost use Rattle.lp_simplex.specs.declared.turning.Count.TheVariants.{Still};
ghost use Rattle.lp_simplex.specs.InnerCounting.{Remembers, after};
ghost use Rattle.lp_simplex.specs.InnerNext.{next_improves};
ghost use Rattle.lp_simplex.specs.Turn.{IsNextBy};

use crate::choosing::Choosing;
use crate::picking::Picking;
use gq_field::ExactField;
use lp_core::Pivot;
use lp_dict::Dict;

/// What is remembered of the pivots of a phase.
///
/// The rule picks the entering variable until as many successive pivots were degenerate as there
/// are variables. From then on, to the end of the phase, the improving variable with the least
/// number enters: Chvatal, Linear Programming, chapters 2 and 3.
#[derive(Clone, Copy)]
pub(crate) enum Count {
    /// This many pivots were degenerate in succession, since the phase began or since a pivot that
    /// was not.
    Still(u32),
    /// The search has turned to Bland's rule.
    Turned,
}

impl Count {
    /// What is remembered after one more pivot, which may end the phase, and may gain something.
    fn after(self, ends_phase: bool, gains: bool, variables: u32) -> Count
        ensures { result ≡ after self ends_phase gains variables }
    {
        if ends_phase {
            return Count::Still(0);
        }
        match self {
            Count::Turned => Count::Turned,
            Count::Still(still) => {
                if gains {
                    Count::Still(0)
                } else if still < variables {
                    Count::Still(still + 1)
                } else {
                    Count::Turned
                }
            }
        }
    }
}

/// Whether a number is 0.
fn is_zero<F: ExactField>(x: F) -> bool
    ensures { IsTrue result ↔ (F.value x ≡ whole (pos 0)) }
{
    x.cmp_value(F::zero()).is_eq()
}

/// A rule that picks the entering variable, and what is remembered of the pivots of a phase.
#[derive(Drop)]
pub(crate) struct Turning<P: Drop> {
    rule: P,
    count: Count,
}

impl<P: Drop> Turning<P> {
    /// The rule before any pivot.
    pub(crate) fn new(rule: P) -> Turning<P>
        ensures rule { result.rule ≡ rule }
        ensures count { result.count ≡ Still 0 }
    {
        Turning {
            rule,
            count: Count::Still(0),
        }
    }
}

impl<P: Picking<F>, F: ExactField> Choosing<F> for Turning<P> {
    ghost Rule = { P };

    ghost rule = { λ t. t.rule };

    ghost chooses = { λ rule. IsNextBy (P.picks rule) };

    ghost remembers = { λ t. Remembers t.count };

    fn entering(&self, dict: &Dict<F>) -> Option<u32> {
        match self.count {
            Count::Still(_) => self.rule.pick(dict),
            Count::Turned => dict.entering(),
        }
    }

    fn note(&mut self, dict: &Dict<F>, pivot: Pivot) {
        let gains = !is_zero(dict.amount(pivot.leave));
        self.count = self.count.after(pivot.leave == 0, gains, dict.variables());
    }

    ghost improving = { λ rule. next_improves (P.picks rule) (P.improving rule) };
}
