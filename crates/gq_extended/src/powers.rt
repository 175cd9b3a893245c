//! Powers.
ghost use Rattle.std.specs.Prelude.{◌≡◌, ◌≤◌, pos, negsuc, nat_abs};
ghost use Rattle.gq_field.specs.Fits.{fits, Answers};
ghost use Rattle.gq_extended.specs.Powers.{repeated_product, power_ℚ};
ghost use Rattle.gq_extended.specs.Extended.{exponent_of, raised, number, power};
ghost use Rattle.gq_extended.specs.Meaning.{extended, outcome};

use crate::extended::Ext;
use crate::fault::ExtendedFault;
use gq_field::{ExactField, Limit};

/// The greatest magnitude of an exponent.
const GREATEST_EXPONENT: u128 = 1024;

/// The whole number that an exponent is, if it is one that may be.
fn whole_exponent<F: ExactField>(exponent: Ext<F>) -> Option<i32>
    ensures { result ≡ exponent_of (extended F.value exponent) }
{
    let Ext::Number(value) = exponent else {
        return None;
    };
    let (numerator, denominator) = value.parts();
    if denominator == 1 && numerator.unsigned_abs() <= GREATEST_EXPONENT {
        Some(numerator as i32)
    } else {
        None
    }
}

/// The product of `exponent` factors `base`, by squares from the exponent's highest bit down. Each
/// intermediate number is a lower power, whose numerator and denominator are at most those of the
/// result.
fn times_itself<F: ExactField>(base: F, exponent: u32) -> Result<F, Limit>
    ensures { Answers F.value result (fits F.limit (repeated_product exponent (F.value base)))
        (repeated_product exponent (F.value base)) }
{
    if exponent == 0 {
        return Ok(F::one());
    }
    let root = times_itself(base, exponent / 2)?;
    let square = root.mul(root)?;
    if exponent % 2 == 0 {
        Ok(square)
    } else {
        square.mul(base)
    }
}

/// A number to a whole power. `Divide` exactly for 0 to a power below 0.
fn number_power<F: ExactField>(base: F, exponent: i32) -> Result<Ext<F>, ExtendedFault>
    ensures { outcome F.value result ≡ raised F.limit (number (F.value base)) exponent }
{
    if exponent >= 0 {
        return Ok(Ext::Number(times_itself(base, exponent.unsigned_abs())?));
    }
    if base.is_zero() {
        return Err(ExtendedFault::Divide);
    }
    let reciprocal = F::one().div(base)?;
    Ok(Ext::Number(times_itself(reciprocal, exponent.unsigned_abs())?))
}

impl<F: ExactField> Ext<F> {
    /// The value to the power `exponent`. The error is `Exponent` exactly if `exponent` is no
    /// integer, or above 1,024 in magnitude; else `Divide` exactly for 0 to a power below 0, and
    /// `Limit` exactly for a number whose power's numerator or denominator exceeds `F.limit`. To
    /// the power 0 everything is 1, NA too; to any other power NA is NA. An infinity is 0 to a
    /// power below 0. To a power above 0 it is `inf`, except that `-inf` to an odd power is `-inf`.
    #[tactic(auto, unfolding(crate::specs::Extended::power))]
    pub fn power(self, exponent: Ext<F>) -> Result<Ext<F>, ExtendedFault>
        ensures { outcome F.value result
            ≡ power F.limit (extended F.value self) (extended F.value exponent) }
    {
        let exponent = whole_exponent(exponent).ok_or(ExtendedFault::Exponent)?;
        match self {
            _ if exponent == 0 => Ok(Ext::Number(F::one())),
            Ext::Na => Ok(Ext::Na),
            Ext::Number(x) => number_power(x, exponent),
            _ if exponent < 0 => Ok(Ext::Number(F::zero())),
            Ext::MinusInf if exponent % 2 != 0 => Ok(Ext::MinusInf),
            _ => Ok(Ext::PlusInf),
        }
    }
}
