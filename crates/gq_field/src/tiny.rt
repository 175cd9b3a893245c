//! The field whose parts are at most 127, the smallest that there is: for tests at its edges.
ghost use Rattle.gq_field.specs.Parts.{IsFraction};

use crate::field::ExactField;
use crate::fraction::Fraction;

/// A reduced fraction whose numerator and denominator are at most 127 in magnitude.
#[derive(Clone, Copy, Debug, PartialEq, Eq)]
pub struct Tiny {
    numerator: i8,
    denominator: u8,
    ghost parts: { IsFraction 7 numerator denominator },
}

impl ExactField for Tiny {
    ghost use Rattle.std.specs.Prelude.{◌-◌, ◌^◌};
    ghost use Rattle.gq_field.specs.Values.{tiny_value};
    ghost use Rattle.gq_field.specs.FieldLaws.{tiny_range, tiny_within, tiny_same_value, tiny_each_number};

    ghost limit = { 127 };

    ghost value = { tiny_value };

    fn limit() -> u128 {
        i8::MAX as u128
    }

    fn widened(self) -> Fraction {
        Fraction::new(self.numerator as i128, self.denominator as u128)
    }

    fn narrowed(fraction: Fraction) -> Self {
        Tiny {
            numerator: fraction.numerator() as i8,
            denominator: fraction.denominator as u8,
        }
    }

    ghost limit_range = { tiny_range };

    ghost within = { tiny_within };

    ghost same_value = { tiny_same_value };

    ghost each_number = { tiny_each_number };
}
