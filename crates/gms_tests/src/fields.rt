//! Tests of the calls, once each, and of the exact answers at the edges of the smallest field.
use gq_field::{ExactField, Half, Limit, Tiny};
use std::alloc::{AllocError, Global};
use std::cmp::Ordering;
use std::process::Abort;
use std::test::Fail;

/// Numerators and denominators of the tested values: small ones, some that have many divisors, and
/// those next to the limit.
const PARTS: [u8; 22] = [
    1, 2, 3, 4, 5, 6, 7, 8, 9, 10, 11, 12, 42, 63, 64, 85, 96, 100, 120, 125, 126, 127,
];

/// A reduced fraction, and the value that means it.
type Pair = (i64, i64, Tiny);

/// What a call answered: the parts, or none where it was `Limit`.
type Answer = Option<(i128, u128)>;

fn answer(called: Result<Tiny, Limit>) -> Answer {
    match called {
        Ok(value) => Some(value.parts()),
        Err(Limit) => None,
    }
}

/// The greatest common divisor, in plain integers.
fn common(a: u64, b: u64) -> u64 {
    let mut x = a;
    let mut y = b;
    while y != 0 {
        let rest = x % y;
        x = y;
        y = rest;
    }
    x
}

/// The quotient by a divisor that is not 0.
fn over(a: u64, b: u64) -> u64 {
    a.checked_div(b).unwrap_or(0)
}

fn signed(magnitude: u64) -> i64 {
    i64::try_from(magnitude).unwrap_or(0)
}

/// The parts where both are at most 127.
fn within(negative: bool, magnitude: u64, denominator: u64) -> Answer {
    if magnitude > 127 || denominator > 127 {
        return None;
    }
    let numerator = magnitude as i128;
    Some((
        if negative { -numerator } else { numerator },
        denominator as u128,
    ))
}

/// The answer that the rule of products, quotients and pairs gives for a fraction.
fn reduced(numerator: i64, denominator: i64) -> Answer {
    let magnitude = numerator.unsigned_abs();
    let below = denominator.unsigned_abs();
    let shared = common(magnitude, below);
    within(numerator < 0, over(magnitude, shared), over(below, shared))
}

/// The answer that the rule of sums gives.
fn summed(x: &Pair, y: &Pair) -> Answer {
    let shared = common(x.1.unsigned_abs(), y.1.unsigned_abs());
    let left = over(x.1.unsigned_abs(), shared);
    let first = x.0.wrapping_mul(signed(over(y.1.unsigned_abs(), shared)));
    let second = y.0.wrapping_mul(signed(left));
    let top = first.wrapping_add(second);
    if first.unsigned_abs() > 127 || second.unsigned_abs() > 127 || top.unsigned_abs() > 127 {
        return None;
    }
    let rest = common(top.unsigned_abs(), shared);
    let below = left.wrapping_mul(over(y.1.unsigned_abs(), rest));
    within(top < 0, over(top.unsigned_abs(), rest), below)
}

/// Adds the values with this denominator.
fn add_values(values: &mut Vec<Pair>, denominator: u8) -> Result<(), AllocError> {
    for magnitude in PARTS {
        if denominator == 0 || common(magnitude as u64, denominator as u64) != 1 {
            continue;
        }
        if let Ok(value) = Tiny::from_parts(magnitude as i128, denominator as u128) {
            values.push((magnitude as i64, denominator as i64, value))?;
            values.push((-(magnitude as i64), denominator as i64, value.neg()))?;
        }
    }
    Ok(())
}

/// The values that are tried.
fn values(alloc: Global) -> Result<Vec<Pair>, AllocError> {
    let mut values = Vec::new(alloc);
    values.push((0, 1, Tiny::zero()))?;
    for denominator in PARTS {
        add_values(&mut values, denominator)?;
    }
    Ok(values)
}

/// Whether the sum and the difference of two values are those of the rules.
fn sums_are_expected(x: &Pair, y: &Pair) -> bool {
    let minus = (y.0.wrapping_neg(), y.1, y.2.neg());
    answer(x.2.add(y.2)) == summed(x, y) && answer(x.2.sub(y.2)) == summed(x, &minus)
}

/// Whether the product and the order of two values are those of the rules.
fn products_are_expected(x: &Pair, y: &Pair) -> bool {
    let (a, b, c, d) = (x.0, x.1, y.0, y.1);
    let product = reduced(a.wrapping_mul(c), b.wrapping_mul(d));
    let order = a.wrapping_mul(d).cmp(&c.wrapping_mul(b));
    answer(x.2.mul(y.2)) == product && x.2.cmp_value(y.2) == order
}

/// Whether the quotient of two values is that of the rules, where the second is not 0.
fn quotient_is_expected(x: &Pair, y: &Pair) -> bool {
    let (a, b, c, d) = (x.0, x.1, y.0, y.1);
    let top = a.wrapping_mul(d).wrapping_mul(c.signum());
    let below = b.wrapping_mul(c.wrapping_abs());
    y.2.is_zero() || answer(x.2.div(y.2)) == reduced(top, below)
}

/// Compares the answers of the calls on a value and each of these with those of the rules.
fn check_row(rt: &impl Abort, x: &Pair, values: &[Pair]) {
    for y in values {
        let are_expected = sums_are_expected(x, y)
            && products_are_expected(x, y)
            && quotient_is_expected(x, y);
        assert!(rt; are_expected, "{}/{} and {}/{}", x.0, x.1, y.0, y.1);
    }
}

#[test]
fn tiny_answers_by_the_rules(rt: HostRuntime) -> Result<(), Fail> {
    let values = values(rt.alloc())?;
    assert!(rt; values.len() > 500);
    for x in &values {
        check_row(&rt, x, &values);
    }
    Ok(())
}

/// Whether each call of a sign or an order answers as expected, on numbers that fit every field.
fn signs_are_expected<F: ExactField>(half: F, seven: F) -> bool {
    half.parts() == (-1, 2)
        && half.neg().parts() == (1, 2)
        && (half.sign(), F::zero().sign(), seven.sign()) == (-1, 0, 1)
        && F::zero().is_zero()
        && !F::one().is_zero()
        && half.cmp_value(seven) == Ordering::Less
}

/// Whether each call of arithmetic answers as expected, on numbers that fit every field.
fn steps_are_expected<F: ExactField>(half: F, seven: F) -> Result<bool, Limit> {
    let sum = half.add(F::one())?;
    let difference = half.sub(seven)?;
    let product = half.mul(seven)?;
    let is_expected = sum.parts() == (1, 2)
        && difference.parts() == (-15, 2)
        && product.parts() == (-7, 2);
    if seven.is_zero() {
        return Ok(false);
    }
    let quotient = half.div(seven)?;
    Ok(is_expected && quotient.parts() == (-1, 14))
}

/// Whether each call that rounds answers as expected for -7/2.
fn wholes_are_expected<F: ExactField>(fraction: F) -> bool {
    fraction.trunc().parts() == (-3, 1)
        && fraction.floor().parts() == (-4, 1)
        && fraction.ceil().parts() == (-3, 1)
        && fraction.round_whole().parts() == (-4, 1)
}

/// Whether each call answers as expected, on numbers that fit every field.
fn calls_are_expected<F: ExactField>() -> Result<bool, Limit> {
    let half = F::from_parts(-3, 6)?;
    let seven = F::from_int(7);
    let fraction = half.mul(seven)?;
    let steps = steps_are_expected(half, seven)?;
    Ok(steps && signs_are_expected(half, seven) && wholes_are_expected(fraction))
}

#[test]
fn half_and_tiny_answer_each_call(rt: HostRuntime) {
    assert!(rt; Half::limit() == 9223372036854775807 && Tiny::limit() == 127);
    assert!(rt; calls_are_expected::<Half>() == Ok(true));
    assert!(rt; calls_are_expected::<Tiny>() == Ok(true));
}

/// Whether products next to the limit of `Half` are as expected.
fn products_end_at_the_limit() -> Result<bool, Limit> {
    let large = Half::from_parts(9223372036854775807, 2)?;
    let small = Half::from_parts(2, 9223372036854775807)?;
    let four = Half::from_int(4);
    Ok(large.mul(small) == Ok(Half::one()) && large.mul(four) == Err(Limit))
}

/// Whether sums next to the limit of `Half` are as expected: one whose numerators have too large a
/// sum is refused, though its half would fit.
fn sums_end_at_the_limit() -> Result<bool, Limit> {
    let large = Half::from_parts(9223372036854775807, 2)?;
    let third = Half::from_parts(4000000000, 3)?;
    let sum = third.add(Half::from_parts(1, 2000000000)?)?;
    Ok(large.add(large) == Err(Limit) && sum.parts() == (8000000000000000003, 6000000000))
}

#[test]
fn half_ends_at_its_limit(rt: HostRuntime) {
    assert!(rt; products_end_at_the_limit() == Ok(true));
    assert!(rt; sums_end_at_the_limit() == Ok(true));
}
