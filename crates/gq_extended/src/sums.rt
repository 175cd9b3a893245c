//! The change of a sign, sums and differences.
ghost use Rattle.std.specs.Prelude.{◌≡◌};
ghost use Rattle.gq_extended.specs.Extended.{negated, sum, difference};
ghost use Rattle.gq_extended.specs.Meaning.{extended, outcome};

use crate::extended::Ext;
use crate::fault::ExtendedFault;
use gq_field::ExactField;

impl<F: ExactField> Ext<F> {
    /// The value with its sign changed: an infinity becomes the opposite one, and NA stays NA.
    #[tactic(auto, unfolding(crate::specs::Extended::negated))]
    pub fn neg(self) -> Ext<F>
        ensures { extended F.value result ≡ negated (extended F.value self) }
    {
        match self {
            Ext::Number(x) => Ext::Number(x.neg()),
            Ext::PlusInf => Ext::MinusInf,
            Ext::MinusInf => Ext::PlusInf,
            Ext::Na => Ext::Na,
        }
    }

    /// The sum of the value and `other`; NA if either is NA. `Limit` exactly if the sum of two
    /// numbers computes an integer beyond `F.limit`, `Undefined` exactly for two opposite
    /// infinities. Else a sum with an infinity is this infinity.
    #[tactic(auto, unfolding(crate::specs::Extended::sum))]
    pub fn add(self, other: Ext<F>) -> Result<Ext<F>, ExtendedFault>
        ensures { outcome F.value result
            ≡ sum F.limit (extended F.value self) (extended F.value other) }
    {
        match (self, other) {
            (Ext::Na, _) | (_, Ext::Na) => Ok(Ext::Na),
            (Ext::Number(x), Ext::Number(y)) => Ok(Ext::Number(x.add(y)?)),
            (Ext::PlusInf, Ext::MinusInf) | (Ext::MinusInf, Ext::PlusInf) => {
                Err(ExtendedFault::Undefined)
            }
            (Ext::PlusInf, _) | (_, Ext::PlusInf) => Ok(Ext::PlusInf),
            (Ext::MinusInf, _) | (_, Ext::MinusInf) => Ok(Ext::MinusInf),
        }
    }

    /// The value less `other`: the sum of the value and the negated `other`, with the faults of
    /// that sum.
    #[tactic(auto, unfolding(crate::specs::Extended::difference))]
    pub fn sub(self, other: Ext<F>) -> Result<Ext<F>, ExtendedFault>
        ensures { outcome F.value result
            ≡ difference F.limit (extended F.value self) (extended F.value other) }
    {
        self.add(other.neg())
    }
}
