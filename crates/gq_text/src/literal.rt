//! The value of a literal: its digits as one whole number and a power of ten, and whether they are
//! within the limit.
ghost use Rattle.std.specs.Prelude.{◌≡◌, ◌≢◌, ◌+◌, ◌-◌, ◌*◌, ◌^◌, ◌<◌, ◌≤◌, ◌++◌, length, slice_index, replicate, pos, SomeIff};
ghost use Rattle.gq_number.specs.Number.{ratio};
ghost use Rattle.gq_text.specs.Numeral.{AreDigits, spelled};
ghost use Rattle.gq_text.specs.Decimal.{number_of};
ghost use Rattle.gq_text.specs.Literal.{HasNoTrailingZero, AnswersLiteral};
ghost use Rattle.gq_text.specs.InnerParts.{exponent_of};
ghost use Rattle.gq_text.specs.InnerShortest.{Shortens, added};

use crate::fault::NumberFault;
use crate::parts::Exponent;
use gq_field::ExactField;

/// The number that the digits of `prefix` followed by `digits` spell, if it is below 2^128.
pub(crate) fn spelled(prefix: u128, digits: &[u8]) -> Option<u128>
    requires { AreDigits digits.now }
    ensures { SomeIff result (prefix * 10 ^ length digits.now + spelled digits.now < 2 ^ 128)
        (prefix * 10 ^ length digits.now + spelled digits.now) }
{
    let mut value = prefix;
    for digit in digits {
        value = value.checked_mul(10)?.checked_add((digit - b'0') as u128)?;
    }
    Some(value)
}

/// The number that the digits before a point and after it spell, if it is below 2^128.
fn digits_together(whole: &[u8], fraction: &[u8]) -> Option<u128>
    requires whole_digits { AreDigits whole.now }
    requires fraction_digits { AreDigits fraction.now }
    ensures { SomeIff result (spelled (whole.now ++ fraction.now) < 2 ^ 128)
        (spelled (whole.now ++ fraction.now)) }
{
    spelled(spelled(0, whole)?, fraction)
}

/// The digits without the zeros at their end.
fn without_zeros(digits: &[u8]) -> &[u8]
    ensures zeros { digits.now ≡ result.now ++ replicate (length digits.now - length result.now) 48 }
    ensures shorter { length result.now ≤ length digits.now }
    ensures last { slice_index result.now (length result.now - 1) ≢ 48 }
{
    let mut kept = digits;
    while let [prefix @ .., b'0'] = kept {
        kept = prefix;
    }
    kept
}

/// The digits before a point and after it without those zeros at the end that only move the point.
fn shortest<'a>(before: &'a [u8], following: &'a [u8]) -> (&'a [u8], &'a [u8])
    requires before_digits { AreDigits before.now }
    requires after_digits { AreDigits following.now }
    ensures { Shortens before.now following.now result.0.now result.1.now }
{
    let following = without_zeros(following);
    if following.is_empty() {
        (without_zeros(before), following)
    } else {
        (before, following)
    }
}

/// Ten to a power, where it is below 2^128.
fn power_of_ten(power: u128) -> Option<u128>
    ensures { SomeIff result (10 ^ power < 2 ^ 128) (10 ^ power) }
{
    10u128.checked_pow(u32::try_from(power).ok()?)
}

/// How many tens a number is multiplied or divided by: a count and, if it adds, the number that
/// digits spell, if that is below 2^128.
fn tens(count: usize, adds: bool, digits: &[u8]) -> Option<u128>
    requires { AreDigits digits.now }
    ensures value { SomeIff result (count + added adds (spelled digits.now) < 2 ^ 128)
        (count + added adds (spelled digits.now)) }
    ensures count_small { count < 2 ^ 64 }
{
    if adds {
        spelled(0, digits)?.checked_add(count as u128)
    } else {
        Some(count as u128)
    }
}

/// The numerator and denominator of `digits` times ten to the power `up` over ten to the power
/// `down`: the product over 1, or the digits over the power. `None` if one of these is 2^128 or
/// more.
fn parts_of(digits: u128, up: u128, down: u128) -> Option<(u128, u128)>
    requires { 0 < digits }
    ensures whole { down ≤ up → SomeIff result (digits * 10 ^ (up - down) < 2 ^ 128) (digits * 10 ^ (up - down), 1) }
    ensures fraction { up < down → SomeIff result (10 ^ (down - up) < 2 ^ 128) (digits, 10 ^ (down - up)) }
{
    if down <= up {
        Some((digits.checked_mul(power_of_ten(up - down)?)?, 1))
    } else {
        Some((digits, power_of_ten(down - up)?))
    }
}

/// The numerator and denominator of `parts_of`, if both are within the limit.
fn parts_within(limit: u128, digits: u128, up: u128, down: u128) -> Option<(u128, u128)>
    requires limit { 0 < limit }
    requires some { 0 < digits }
    ensures whole { down ≤ up → SomeIff result (digits * 10 ^ (up - down) ≤ limit) (digits * 10 ^ (up - down), 1) }
    ensures fraction { up < down → SomeIff result ((digits ≤ limit) × (10 ^ (down - up) ≤ limit)) (digits, 10 ^ (down - up)) }
{
    let (above, below) = parts_of(digits, up, down)?;
    if above.max(below) <= limit {
        Some((above, below))
    } else {
        None
    }
}

/// The value of digits times ten to the power `up` over ten to the power `down`, by the literal
/// rule.
fn scaled<F: ExactField>(digits: u128, up: u128, down: u128) -> Result<F, NumberFault>
    requires some { 0 < digits }
    requires shortest { HasNoTrailingZero digits }
    ensures { AnswersLiteral F.limit F.value (ratio (pos (digits * 10 ^ up)) (10 ^ down)) result }
{
    match parts_within(F::limit(), digits, up, down) {
        Some((above, below)) => Ok(F::from_parts(above as i128, below)?),
        None => Err(NumberFault::Limit),
    }
}

/// The value of a decimal, by the literal rule.
pub(crate) fn literal<F: ExactField>(
    before: &[u8],
    following: &[u8],
    exponent: Exponent<'_>,
) -> Result<F, NumberFault>
    requires before_digits { AreDigits before.now }
    requires after_digits { AreDigits following.now }
    requires exponent_digits { AreDigits exponent.digits.now }
    ensures { AnswersLiteral F.limit F.value (number_of (record {
      before = before.now;
      following = following.now;
      exponent = exponent_of exponent.entry.negative exponent.entry.digits.now;
    })) result }
{
    let (whole, fraction) = shortest(before, following);
    let Some(digits) = digits_together(whole, fraction) else {
        return Err(NumberFault::Limit);
    };
    if digits == 0 {
        return Ok(F::zero());
    }
    let raised = tens(
        before.len() - whole.len(),
        !exponent.negative,
        exponent.digits,
    );
    let lowered = tens(fraction.len(), exponent.negative, exponent.digits);
    let Some(up) = raised else {
        return Err(NumberFault::Limit);
    };
    let Some(down) = lowered else {
        return Err(NumberFault::Limit);
    };
    scaled(digits, up, down)
}
