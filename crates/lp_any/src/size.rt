//! Sizes of numbers, to 32 leading bits.
use std::cmp::Ordering;

/// The exponent of the size of 0: below that of any other.
const LEAST: i32 = -1_000_000;

/// The least number of more than one word.
const WORD: u128 = 1 << 64;

/// A divisor for a number of one word in one word, to at least 32 bits.
const HALF: u128 = 1 << 32;

/// A divisor for any number in two words, to at least 32 bits.
const SHORT: u128 = 1 << 95;

/// A number of at least 0, to its 32 leading bits: a word times a power of two. The steps are the
/// same on every machine.
///
/// A size only orders variables: no contract states how near it is to the number, and no answer
/// depends on it.
#[derive(Clone, Copy)]
pub(crate) struct Size {
    /// The exponent of two.
    exponent: i32,
    /// The leading bits, of which the first is 1; 0 for the number 0.
    word: u64,
}

/// The leading 32 bits of a word times a power of two.
fn leading(word: u64, exponent: i32) -> Size {
    if word == 0 {
        return Size {
            exponent: LEAST,
            word: 0,
        };
    }
    let zeros = word.leading_zeros();
    Size {
        exponent: exponent.wrapping_add(32 - zeros as i32),
        word: word.wrapping_shl(zeros).wrapping_shr(32),
    }
}

/// The leading 32 bits of two words times a power of two.
fn leading_of_two(words: u128, exponent: i32) -> Size {
    let zeros = words.leading_zeros();
    let top = words.wrapping_shl(zeros).wrapping_shr(64) as u64;
    leading(top, exponent.wrapping_add(64 - zeros as i32))
}

/// A quotient to its leading 64 bits, found bit by bit: at most the quotient times a power of two.
/// It fits in two words if the quotient is below 2^64.
fn quotient_by_bits(numerator: u128, denominator: u128) -> u128 {
    let Some(mut quotient) = numerator.checked_div(denominator) else {
        return 0;
    };
    let mut rest = numerator.wrapping_sub(quotient.wrapping_mul(denominator));
    for _bit in 0..64 {
        rest = rest.wrapping_shl(1);
        quotient = quotient.wrapping_shl(1);
        if rest >= denominator {
            rest = rest.wrapping_sub(denominator);
            quotient = quotient.wrapping_add(1);
        }
    }
    quotient
}

impl Size {
    /// A size greater than that of any number.
    pub(crate) fn endless() -> Size {
        Size {
            exponent: i32::MAX,
            word: 0,
        }
    }

    /// A somewhat greater size, by more than the rounding of a few operations on sizes loses.
    pub(crate) fn raised(self) -> Size {
        leading(self.word.wrapping_add(8), self.exponent)
    }

    /// The size of an integer.
    pub(crate) fn of(number: u128) -> Size {
        leading_of_two(number, 0)
    }

    /// The size of a fraction of two numbers below 2^127; 0 if the denominator is 0.
    pub(crate) fn of_ratio(numerator: u128, denominator: u128) -> Size {
        if denominator == 1 {
            return Size::of(numerator);
        }
        if numerator < WORD && denominator < HALF {
            return Size::of_short(numerator as u64, denominator as u64);
        }
        let zeros = numerator.leading_zeros();
        let exponent = 0 - zeros as i32;
        let shifted = numerator.wrapping_shl(zeros);
        if denominator < SHORT {
            return match shifted.checked_div(denominator) {
                Some(quotient) => leading_of_two(quotient, exponent),
                None => Size::of(0),
            };
        }
        leading_of_two(
            quotient_by_bits(shifted, denominator),
            exponent.wrapping_sub(64),
        )
    }

    /// The size of a fraction of two words.
    #[inline(always)]
    fn of_short(numerator: u64, denominator: u64) -> Size {
        let zeros = numerator.leading_zeros();
        match numerator.wrapping_shl(zeros).checked_div(denominator) {
            Some(quotient) => leading(quotient, 0 - zeros as i32),
            None => Size::of(0),
        }
    }

    /// The size of the product of two numbers of these sizes.
    pub(crate) fn times(self, other: Size) -> Size {
        leading(
            self.word.wrapping_mul(other.word),
            self.exponent.wrapping_add(other.exponent),
        )
    }

    /// The size of the quotient of two numbers of these sizes; 0 if the divisor has the size 0.
    pub(crate) fn over(self, other: Size) -> Size {
        let word = match self.word.wrapping_shl(32).checked_div(other.word) {
            Some(word) => word,
            None => 0,
        };
        let exponent = self.exponent.wrapping_sub(other.exponent);
        leading(word, exponent.wrapping_sub(32))
    }

    /// The size of the sum of two numbers of these sizes.
    pub(crate) fn plus(self, other: Size) -> Size {
        if self.exponent < other.exponent {
            return other.above(self);
        }
        self.above(other)
    }

    /// The size of the sum with a size of at most the same exponent.
    fn above(self, other: Size) -> Size {
        let apart = self.exponent.wrapping_sub(other.exponent).unsigned_abs();
        if apart >= 32 {
            return self;
        }
        leading(
            self.word.wrapping_add(other.word.wrapping_shr(apart)),
            self.exponent,
        )
    }

    /// How two sizes compare.
    pub(crate) fn compare(self, other: Size) -> Ordering {
        self.exponent
            .cmp(&other.exponent)
            .then(self.word.cmp(&other.word))
    }
}
