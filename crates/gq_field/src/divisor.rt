//! The greatest common divisor and the quotient of two magnitudes. Numbers of one word take no
//! division of 128 bits.
ghost use Rattle.std.specs.Prelude.{◌≡◌, ◌<◌, ◌/◌, ◌%◌};
ghost use Rattle.gq_number.specs.Gcd.{gcd};

/// The greatest number of one word, that is, of 64 bits.
pub const WORD: u128 = u64::MAX as u128;

/// The greatest common divisor of `a` and `b`; that of 0 and a number is the number.
#[inline(always)]
pub fn gcd(a: u128, b: u128) -> u128
    ensures value { result ≡ gcd a b }
    ensures positive { 0 < b → 0 < result }
{
    if a == 1 || b == 1 {
        return 1;
    }
    gcd_of_any(a, b)
}

/// The greatest common divisor by Euclid's algorithm, until both numbers are words.
#[inline(never)]
fn gcd_of_any(a: u128, b: u128) -> u128
    ensures { result ≡ gcd a b }
{
    let mut x = a;
    let mut y = b;
    while x > WORD || y > WORD {
        if y == 0 {
            return x;
        }
        let rest = x % y;
        x = y;
        y = rest;
    }
    gcd_of_words(x as u64, y as u64) as u128
}

/// The greatest common divisor of `a` and `b`; that of 0 and a number is the number. The binary
/// algorithm of Knuth, The Art of Computer Programming, volume 2, 4.5.2.
pub fn gcd_of_words(a: u64, b: u64) -> u64
    ensures { result ≡ gcd a b }
{
    if a == 0 {
        return b;
    }
    if b == 0 {
        return a;
    }
    let left = a.trailing_zeros();
    let right = b.trailing_zeros();
    let odd = gcd_of_odds(a >> left, b >> right);
    if left < right {
        odd << left
    } else {
        odd << right
    }
}

/// The greatest common divisor of two odd numbers. Until the lesser is 1 or both are equal, their
/// difference, divided by 2 until it is odd, replaces the greater.
pub fn gcd_of_odds(a: u64, b: u64) -> u64
    requires first { a % 2 ≡ 1 }
    requires second { b % 2 ≡ 1 }
    ensures { result ≡ gcd a b }
{
    let (mut low, mut high) = if a < b { (a, b) } else { (b, a) };
    while low != 1 && low != high {
        let difference = high - low;
        let odd = difference >> difference.trailing_zeros();
        (low, high) = if odd < low { (odd, low) } else { (low, odd) };
    }
    low
}

/// The quotient `n / d`, rounded down to an integer.
#[inline(always)]
pub fn over(n: u128, d: u128) -> u128
    requires { 0 < d }
    ensures { result ≡ n / d }
{
    if d == 1 {
        n
    } else if n <= WORD && d <= WORD {
        (n as u64 / d as u64) as u128
    } else {
        n / d
    }
}
