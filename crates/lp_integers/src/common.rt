//! The greatest common divisor of two magnitudes.
ghost use Rattle.std.specs.Prelude.{◌≡◌, ◌<◌};
ghost use Rattle.gq_number.specs.Gcd.{gcd};

use gq_field::gcd_of_words;

/// The greatest unsigned number of one word, which has 64 bits.
pub(crate) const WORD: u128 = u64::MAX as u128;

/// The greatest common divisor of `a` and `b`, by Euclid's algorithm; that of 0 and `b` is `b`.
pub fn gcd(a: u128, b: u128) -> u128
    ensures { result ≡ gcd a b }
{
    let mut x = a;
    let mut y = b;
    while x > WORD || y > WORD {
        if y == 0 {
            return x;
        }
        let rest = x % y;
        x = y;
        y = rest;
    }
    gcd_of_words(x as u64, y as u64) as u128
}

/// The greatest common divisor of a number and a divisor. It is fast if the number is a multiple of
/// the divisor, as is often so.
#[inline(always)]
pub(crate) fn shared_by(n: u64, divisor: u64) -> u64
    requires { 0 < divisor }
    ensures { result ≡ gcd n divisor }
{
    if n == 0 {
        return divisor;
    }
    if n < divisor {
        return gcd_of_words(n, divisor);
    }
    let rest = n % divisor;
    if rest == 0 {
        return divisor;
    }
    gcd_of_words(rest, divisor)
}
