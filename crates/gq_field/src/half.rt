//! The field whose parts are at most 2^63 - 1.
ghost use Rattle.gq_field.specs.Parts.{IsFraction};

use crate::field::ExactField;
use crate::fraction::Fraction;

/// A reduced fraction whose numerator and denominator are at most 2^63 - 1 in magnitude.
#[derive(Clone, Copy, Debug, PartialEq, Eq)]
pub struct Half {
    numerator: i64,
    denominator: u64,
    ghost parts: { IsFraction 63 numerator denominator },
}

impl ExactField for Half {
    ghost use Rattle.std.specs.Prelude.{◌-◌, ◌^◌};
    ghost use Rattle.gq_field.specs.Values.{half_value};
    ghost use Rattle.gq_field.specs.FieldLaws.{half_range, half_within, half_same_value, half_each_number};

    ghost limit = { 2 ^ 63 - 1 };

    ghost value = { half_value };

    fn limit() -> u128 {
        i64::MAX as u128
    }

    fn widened(self) -> Fraction {
        Fraction::new(self.numerator as i128, self.denominator as u128)
    }

    fn narrowed(fraction: Fraction) -> Self {
        Half {
            numerator: fraction.numerator() as i64,
            denominator: fraction.denominator as u64,
        }
    }

    ghost limit_range = { half_range };

    ghost within = { half_within };

    ghost same_value = { half_same_value };

    ghost each_number = { half_each_number };
}
