//! Products and quotients of fractions, and reduced pairs, each within a limit.
ghost use Rattle.std.specs.Prelude.{◌≡◌, ◌≢◌, ◌<◌, ◌≤◌, ◌*◌, ◌^◌, OkIff};
ghost use Rattle.gq_number.specs.Number.{ratio, ◌*ℚ◌, ◌/ℚ◌, inv_ℚ};
ghost use Rattle.gq_field.specs.Fits.{fits, Answers};
ghost use Rattle.gq_field.specs.Values.{fraction_value, signed};

use crate::divisor::{WORD, gcd, over};
use crate::field::Limit;
use crate::fraction::Fraction;

/// The product of two magnitudes. The error `Limit` comes exactly if the product exceeds `limit`.
#[inline(always)]
pub fn product_within(limit: u128, a: u128, b: u128) -> Result<u128, Limit>
    ensures { OkIff result (a * b ≤ limit) (a * b) }
{
    let product = if a <= WORD && b <= WORD {
        Some(a as u64 as u128 * b as u64 as u128)
    } else {
        a.checked_mul(b)
    };
    match product {
        Some(product) if product <= limit => Ok(product),
        _ => Err(Limit),
    }
}

/// The reduced fraction of `magnitude` over `denominator`, negated if `negative`. The error `Limit`
/// comes exactly if the numerator or the denominator of the reduced fraction exceeds `limit`.
pub fn reduced(
    limit: u128,
    negative: bool,
    magnitude: u128,
    denominator: u128,
) -> Result<Fraction, Limit>
    requires limit { limit < 2 ^ 127 }
    requires denominator { 0 < denominator }
    ensures { Answers fraction_value result (fits limit (ratio (signed negative magnitude) denominator))
        (ratio (signed negative magnitude) denominator) }
{
    let common = gcd(magnitude, denominator);
    let magnitude = over(magnitude, common);
    let denominator = over(denominator, common);
    if magnitude <= limit && denominator <= limit {
        Ok(Fraction {
            negative,
            magnitude,
            denominator,
        })
    } else {
        Err(Limit)
    }
}

/// The product of two whole numbers.
#[inline(always)]
fn whole_product(limit: u128, x: Fraction, y: Fraction) -> Result<Fraction, Limit>
    requires limit { limit < 2 ^ 127 }
    requires least { 0 < limit }
    requires first { x.denominator ≡ 1 }
    requires second { y.denominator ≡ 1 }
    ensures { Answers fraction_value result (fits limit (fraction_value x *ℚ fraction_value y))
        (fraction_value x *ℚ fraction_value y) }
{
    let magnitude = product_within(limit, x.magnitude, y.magnitude)?;
    Ok(Fraction {
        negative: x.negative != y.negative,
        magnitude,
        denominator: 1,
    })
}

/// The product with 1 or -1.
#[inline(always)]
fn unit_product(limit: u128, unit: Fraction, y: Fraction) -> Result<Fraction, Limit>
    requires limit { limit < 2 ^ 127 }
    requires magnitude { unit.magnitude ≡ 1 }
    requires denominator { unit.denominator ≡ 1 }
    ensures { Answers fraction_value result (fits limit (fraction_value unit *ℚ fraction_value y))
        (fraction_value unit *ℚ fraction_value y) }
{
    if y.magnitude > limit || y.denominator > limit {
        return Err(Limit);
    }
    Ok(Fraction {
        negative: unit.negative != y.negative,
        magnitude: y.magnitude,
        denominator: y.denominator,
    })
}

/// The product, each numerator divided first by what it has in common with the other denominator.
#[inline(never)]
fn reduced_product(limit: u128, x: Fraction, y: Fraction) -> Result<Fraction, Limit>
    requires { limit < 2 ^ 127 }
    ensures { Answers fraction_value result (fits limit (fraction_value x *ℚ fraction_value y))
        (fraction_value x *ℚ fraction_value y) }
{
    let left = gcd(x.magnitude, y.denominator);
    let right = gcd(y.magnitude, x.denominator);
    let magnitude = product_within(limit, over(x.magnitude, left), over(y.magnitude, right))?;
    let denominator = product_within(limit, over(x.denominator, right), over(y.denominator, left))?;
    Ok(Fraction {
        negative: x.negative != y.negative,
        magnitude,
        denominator,
    })
}

/// The product of `x` and `y`. The error `Limit` comes exactly if the numerator or the denominator
/// of the reduced product exceeds `limit` in magnitude.
#[inline(always)]
pub fn product(limit: u128, x: Fraction, y: Fraction) -> Result<Fraction, Limit>
    requires limit { limit < 2 ^ 127 }
    requires least { 0 < limit }
    ensures { Answers fraction_value result (fits limit (fraction_value x *ℚ fraction_value y))
        (fraction_value x *ℚ fraction_value y) }
{
    if x.denominator == 1 && y.denominator == 1 {
        whole_product(limit, x, y)
    } else if x.denominator == 1 && x.magnitude == 1 {
        unit_product(limit, x, y)
    } else if y.denominator == 1 && y.magnitude == 1 {
        unit_product(limit, y, x)
    } else if x.magnitude == 0 || y.magnitude == 0 {
        Ok(Fraction::whole(false, 0))
    } else {
        reduced_product(limit, x, y)
    }
}

/// The reciprocal of a fraction that is not 0.
#[inline(always)]
pub fn reciprocal(x: Fraction) -> Fraction
    requires { x.magnitude ≢ 0 }
    ensures { fraction_value result ≡ inv_ℚ (fraction_value x) }
{
    Fraction {
        negative: x.negative,
        magnitude: x.denominator,
        denominator: x.magnitude,
    }
}

/// The quotient of `x` over `y`, which is not 0. The error `Limit` comes exactly if the numerator
/// or the denominator of the reduced quotient exceeds `limit` in magnitude.
#[inline(always)]
pub fn quotient(limit: u128, x: Fraction, y: Fraction) -> Result<Fraction, Limit>
    requires limit { limit < 2 ^ 127 }
    requires least { 0 < limit }
    requires divisor { y.magnitude ≢ 0 }
    ensures { Answers fraction_value result (fits limit (fraction_value x /ℚ fraction_value y))
        (fraction_value x /ℚ fraction_value y) }
{
    product(limit, x, reciprocal(y))
}
