//! Products, quotients and remainders.
ghost use Rattle.std.specs.Prelude.{◌≡◌, ◌*ℤ◌};
ghost use Rattle.gq_extended.specs.Extended.{number, infinity_of, product, quotient, remainder};
ghost use Rattle.gq_extended.specs.Meaning.{extended, outcome};

use crate::extended::Ext;
use crate::fault::ExtendedFault;
use gq_field::ExactField;

/// The infinity that an infinity becomes by two signs, one of which is its own; by 0 there is none.
fn infinity<F: ExactField>(sign: i8, other: i8) -> Result<Ext<F>, ExtendedFault>
    ensures { outcome F.value result ≡ infinity_of (sign *ℤ other) }
{
    if sign == 0 || other == 0 {
        Err(ExtendedFault::Undefined)
    } else if (sign < 0) == (other < 0) {
        Ok(Ext::PlusInf)
    } else {
        Ok(Ext::MinusInf)
    }
}

impl<F: ExactField> Ext<F> {
    /// The product of the value and `other`; NA if either is NA. The error is `Limit` exactly for
    /// two numbers whose product's numerator or denominator exceeds `F.limit`, `Undefined` exactly
    /// for an infinity times 0. Any other product with an infinity is one with the product of the
    /// signs.
    #[tactic(auto, unfolding(crate::specs::Extended::product))]
    pub fn mul(self, other: Ext<F>) -> Result<Ext<F>, ExtendedFault>
        ensures { outcome F.value result
            ≡ product F.limit (extended F.value self) (extended F.value other) }
    {
        match (self, other) {
            (Ext::Na, _) | (_, Ext::Na) => Ok(Ext::Na),
            (Ext::Number(x), Ext::Number(y)) => Ok(Ext::Number(x.mul(y)?)),
            _ => infinity(self.direction(), other.direction()),
        }
    }

    /// The quotient by a number.
    fn over_number(self, divisor: F) -> Result<Ext<F>, ExtendedFault>
        ensures { outcome F.value result
            ≡ quotient F.limit (extended F.value self) (number (F.value divisor)) }
    {
        if divisor.is_zero() {
            return Err(ExtendedFault::Divide);
        }
        match self {
            Ext::Number(x) => Ok(Ext::Number(x.div(divisor)?)),
            Ext::Na => Ok(Ext::Na),
            _ => infinity(self.direction(), divisor.sign()),
        }
    }

    /// The value divided by `other`. The error is `Divide` exactly if `other` is the number 0, even
    /// for NA; `Undefined` exactly for an infinity over an infinity; `Limit` exactly for two
    /// numbers whose quotient's numerator or denominator exceeds `F.limit`. Else NA if either is
    /// NA, 0 for a number over an infinity, and for an infinity over a number one with the product
    /// of the signs.
    #[tactic(auto, unfolding(crate::specs::Extended::quotient))]
    pub fn div(self, other: Ext<F>) -> Result<Ext<F>, ExtendedFault>
        ensures { outcome F.value result
            ≡ quotient F.limit (extended F.value self) (extended F.value other) }
    {
        match (self, other) {
            (_, Ext::Number(divisor)) => self.over_number(divisor),
            (Ext::Na, _) | (_, Ext::Na) => Ok(Ext::Na),
            (Ext::Number(_), _) => Ok(Ext::Number(F::zero())),
            _ => Err(ExtendedFault::Undefined),
        }
    }

    /// The remainder of the value divided by `other`, in four steps: the quotient; t, the quotient
    /// without its fractional part; t times `other`; the value less this product. The error is that
    /// of the first step that has one.
    #[tactic(auto, unfolding(crate::specs::Extended::remainder))]
    pub fn remainder(self, other: Ext<F>) -> Result<Ext<F>, ExtendedFault>
        ensures { outcome F.value result
            ≡ remainder F.limit (extended F.value self) (extended F.value other) }
    {
        let whole = self.div(other)?.trunc();
        self.sub(other.mul(whole)?)
    }
}
