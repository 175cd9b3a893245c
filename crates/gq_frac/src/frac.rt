//! The field whose parts are at most 2^127 - 1, the widest that there is.
ghost use Rattle.gq_field.specs.Parts.{IsFraction};

use gq_field::{ExactField, Fraction};

/// A reduced fraction whose numerator and denominator are at most 2^127 - 1 in magnitude.
#[derive(Clone, Copy, Debug, PartialEq, Eq)]
pub struct Frac {
    numerator: i128,
    denominator: u128,
    ghost parts: { IsFraction 127 numerator denominator },
}

impl ExactField for Frac {
    ghost use Rattle.gq_frac.specs.Frac.{frac_limit, frac_value, frac_range, frac_within, frac_same_value, frac_each_number};

    ghost limit = { frac_limit };

    ghost value = { frac_value };

    fn limit() -> u128 {
        i128::MAX as u128
    }

    fn widened(self) -> Fraction {
        Fraction::new(self.numerator, self.denominator)
    }

    fn narrowed(fraction: Fraction) -> Self {
        Frac {
            numerator: fraction.numerator(),
            denominator: fraction.denominator,
        }
    }

    ghost limit_range = { frac_range };

    ghost within = { frac_within };

    ghost same_value = { frac_same_value };

    ghost each_number = { frac_each_number };
}
