//! Divisions by one divisor, most of which leave no remainder.
ghost use Rattle.std.specs.Prelude.{◌≡◌, ◌<◌, ◌^◌, pos, ◌*ℤ◌, nat_abs, MatchOption};
ghost use Rattle.std.specs.Int.{◌∣◌};
ghost use Rattle.gq_number.specs.Gcd.{gcd};

use crate::common::shared_by;

/// The inverse of an odd number modulo 2 to the power of 64, by Newton's steps: each doubles the
/// number of bits that are right. No contract states this: a quotient by the inverse is tested
/// before it is used.
fn inverse_of(odd: i64) -> i64 {
    let two: i64 = 2;
    let mut inverse = odd;
    for _step in 0..5 {
        inverse = inverse.wrapping_mul(two.wrapping_sub(odd.wrapping_mul(inverse)));
    }
    inverse
}

/// A divisor, with the power of 2 in it and the inverse of its odd factor. With these a quotient
/// takes two products and no division.
#[derive(Clone, Copy)]
pub(crate) struct Divisor {
    pub(crate) value: u64,
    shift: u32,
    inverse: i64,
}

impl Divisor {
    /// The divisor with this value.
    pub(crate) fn of(value: u64) -> Divisor
        ensures { result.value ≡ value }
    {
        let shift = value.trailing_zeros();
        let odd = value.wrapping_shr(shift) % (1 << 63);
        Divisor {
            value,
            shift,
            inverse: inverse_of(odd as i64),
        }
    }

    /// The quotient of a number, if the inverse gives one that leaves no remainder.
    #[inline(always)]
    fn quick_quotient(self, n: i64) -> Option<i64>
        ensures { MatchOption result (Unit {0}) (λ q. q *ℤ pos self.value ≡ n) }
    {
        let quotient = n.wrapping_shr(self.shift).wrapping_mul(self.inverse);
        if quotient as i128 * self.value as i128 == n as i128 {
            return Some(quotient);
        }
        None
    }

    /// The quotient of a multiple of this divisor.
    #[inline(always)]
    pub(crate) fn quotient(self, n: i64) -> i64
        requires positive { 0 < self.value }
        requires small { self.value < 2 ^ 63 }
        requires divides { self.value ∣ nat_abs n }
        ensures { result *ℤ pos self.value ≡ n }
    {
        match self.quick_quotient(n) {
            Some(quotient) => quotient,
            None => n / self.value as i64,
        }
    }

    /// The greatest common divisor of a number and this divisor. It is fast if the number is a
    /// multiple of the divisor, as is often so.
    #[inline(always)]
    pub(crate) fn shared_with(self, n: i64) -> Divisor
        requires { 0 < self.value }
        ensures { result.value ≡ gcd (nat_abs n) self.value }
    {
        match self.quick_quotient(n) {
            Some(_) => self,
            None => Divisor::of(shared_by(n.unsigned_abs(), self.value)),
        }
    }
}
