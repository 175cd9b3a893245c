//! The four roundings of a fraction to a whole number.
ghost use Rattle.std.specs.Prelude.{◌≡◌};
ghost use Rattle.gq_number.specs.Number.{whole, truncated, floor_of, ceiling_of, rounded};
ghost use Rattle.gq_field.specs.Values.{fraction_value};

use crate::fraction::Fraction;

/// The fraction without its fractional part: rounded to a whole number towards 0.
pub fn towards_zero(x: Fraction) -> Fraction
    ensures { fraction_value result ≡ whole (truncated (fraction_value x)) }
{
    Fraction::whole(x.negative, x.magnitude / x.denominator)
}

/// The greatest whole number that is at most the fraction.
pub fn down(x: Fraction) -> Fraction
    ensures { fraction_value result ≡ whole (floor_of (fraction_value x)) }
{
    if x.is_negative() {
        Fraction::whole(true, (x.magnitude - 1) / x.denominator + 1)
    } else {
        Fraction::whole(false, x.magnitude / x.denominator)
    }
}

/// The least whole number that is at least the fraction.
pub fn up(x: Fraction) -> Fraction
    ensures { fraction_value result ≡ whole (ceiling_of (fraction_value x)) }
{
    down(x.negated()).negated()
}

/// The whole number nearest to the fraction. If two are equally near, it is the one farther from 0.
pub fn to_nearest(x: Fraction) -> Fraction
    ensures { fraction_value result ≡ whole (rounded (fraction_value x)) }
{
    let below = x.magnitude / x.denominator;
    let rest = x.magnitude % x.denominator;
    if rest >= x.denominator - rest {
        Fraction::whole(x.negative, below + 1)
    } else {
        Fraction::whole(x.negative, below)
    }
}
