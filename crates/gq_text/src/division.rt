//! Division into decimals, digit by digit, since a product with a power of ten may pass 128 bits.
ghost use Rattle.std.specs.Prelude.{◌≡◌, ◌+◌, ◌*◌, ◌/◌, ◌^◌, ◌<◌, ◌≤◌};

/// Ten times a rest below the divisor, divided, if the product exceeds 128 bits: the digit and the
/// remainder.
fn divided_by_sums(rest: u128, divisor: u128) -> (u128, u128)
    requires rest { rest < divisor }
    requires divisor { divisor < 2 ^ 127 }
    ensures quotient { result.0 * divisor + result.1 ≡ rest * 10 }
    ensures left { result.1 < divisor }
{
    let mut digit = 0;
    let mut sum = 0;
    for _turn in 0..10u8 {
        sum += rest;
        if sum >= divisor {
            sum -= divisor;
            digit += 1;
        }
    }
    (digit, sum)
}

/// Ten times a rest below the divisor, divided: the digit and the remainder.
fn next_digit(rest: u128, divisor: u128) -> (u128, u128)
    requires rest { rest < divisor }
    requires divisor { divisor < 2 ^ 127 }
    ensures quotient { result.0 * divisor + result.1 ≡ rest * 10 }
    ensures left { result.1 < divisor }
{
    match rest.checked_mul(10) {
        Some(product) => (product / divisor, product % divisor),
        None => divided_by_sums(rest, divisor),
    }
}

/// The decimals of a rest over the divisor as one number, and the remainder.
fn decimals_of(rest: u128, divisor: u128, decimals: u8) -> (u128, u128)
    requires rest { rest < divisor }
    requires divisor { divisor < 2 ^ 127 }
    requires decimals { decimals ≤ 8 }
    ensures quotient { result.0 * divisor + result.1 ≡ rest * 10 ^ decimals }
    ensures left { result.1 < divisor }
    ensures fraction { result.0 < 10 ^ decimals }
{
    let mut fraction = 0;
    let mut left = rest;
    for _place in 0..decimals {
        let (digit, less) = next_digit(left, divisor);
        fraction = fraction * 10 + digit;
        left = less;
    }
    (fraction, left)
}

/// A fraction in units of the last of `decimals` decimals, rounded, from the middle of two up: the
/// whole part, and the decimals as one number.
pub(crate) fn rounded(above: u128, below: u128, decimals: u8) -> (u128, u128)
    requires above { above < 2 ^ 127 }
    requires below { below < 2 ^ 127 }
    requires some { 0 < below }
    requires decimals { decimals ≤ 8 }
    ensures units { result.0 * 10 ^ decimals + result.1
        ≡ (2 * (above * 10 ^ decimals) + below) / (2 * below) }
    ensures whole { result.0 ≤ 2 ^ 127 }
    ensures fraction { result.1 < 10 ^ decimals }
{
    let whole = above / below;
    let (fraction, left) = decimals_of(above % below, below, decimals);
    if left < below - left {
        (whole, fraction)
    } else if fraction + 1 < 10u128.pow(decimals as u32) {
        (whole, fraction + 1)
    } else {
        (whole + 1, 0)
    }
}
