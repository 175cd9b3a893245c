//! Magnitudes, signs and roundings, which always fit.
ghost use Rattle.std.specs.Prelude.{◌≡◌};
ghost use Rattle.gq_number.specs.Order.{abs_ℚ};
ghost use Rattle.gq_extended.specs.Extended.{magnitude, sign, nearest, floor, ceiling, truncation};
ghost use Rattle.gq_extended.specs.Meaning.{extended};

use crate::extended::Ext;
use gq_field::ExactField;

/// The magnitude of a number.
fn number_abs<F: ExactField>(x: F) -> F
    ensures { F.value result ≡ abs_ℚ (F.value x) }
{
    if x.sign() < 0 { x.neg() } else { x }
}

impl<F: ExactField> Ext<F> {
    /// The absolute value: `inf` for both infinities; NA stays NA.
    #[tactic(auto, unfolding(crate::specs::Extended::magnitude))]
    pub fn abs(self) -> Ext<F>
        ensures { extended F.value result ≡ magnitude (extended F.value self) }
    {
        match self {
            Ext::Number(x) => Ext::Number(number_abs(x)),
            Ext::PlusInf | Ext::MinusInf => Ext::PlusInf,
            Ext::Na => Ext::Na,
        }
    }

    /// The number -1, 0 or 1, as the value is below, at or above 0; NA stays NA.
    #[tactic(auto, unfolding(crate::specs::Extended::sign))]
    pub fn sign(self) -> Ext<F>
        ensures { extended F.value result ≡ sign (extended F.value self) }
    {
        match self {
            Ext::Na => Ext::Na,
            _ => Ext::Number(F::from_int(i64::from(self.direction()))),
        }
    }

    /// The nearest integer, halves away from 0; an infinity and NA are unchanged.
    #[tactic(auto, unfolding(crate::specs::Extended::nearest))]
    pub fn round(self) -> Ext<F>
        ensures { extended F.value result ≡ nearest (extended F.value self) }
    {
        match self {
            Ext::Number(x) => Ext::Number(x.round_whole()),
            _ => self,
        }
    }

    /// The greatest integer that is at most the value; an infinity and NA are unchanged.
    #[tactic(auto, unfolding(crate::specs::Extended::floor))]
    pub fn floor(self) -> Ext<F>
        ensures { extended F.value result ≡ floor (extended F.value self) }
    {
        match self {
            Ext::Number(x) => Ext::Number(x.floor()),
            _ => self,
        }
    }

    /// The least integer that is at least the value; an infinity and NA are unchanged.
    #[tactic(auto, unfolding(crate::specs::Extended::ceiling))]
    pub fn ceil(self) -> Ext<F>
        ensures { extended F.value result ≡ ceiling (extended F.value self) }
    {
        match self {
            Ext::Number(x) => Ext::Number(x.ceil()),
            _ => self,
        }
    }

    /// The value without its fractional part; an infinity and NA are unchanged.
    #[tactic(auto, unfolding(crate::specs::Extended::truncation))]
    pub fn trunc(self) -> Ext<F>
        ensures { extended F.value result ≡ truncation (extended F.value self) }
    {
        match self {
            Ext::Number(x) => Ext::Number(x.trunc()),
            _ => self,
        }
    }
}
