//! Numbers of a field from integers.
ghost use Rattle.std.specs.Prelude.{◌≡◌, ◌+◌, ◌≤◌, length};
ghost use Rattle.lp_integer_dict.specs.Whole.{integer_dictionary as dictionary_of};

use gq_field::ExactField;
use lp_integer_dict::Whole;

/// The number at `column` of a row, or of the objective, which follows the rows, in the field.
pub(crate) fn number_at<F: ExactField>(whole: &Whole, row: usize, column: usize) -> F
    requires bounded { whole.now.bound ≤ F.limit }
    requires row { row ≤ length (dictionary_of whole.now).basic }
    requires column { column ≤ (dictionary_of whole.now).variables + 1 }
    ensures { F.value result ≡ (dictionary_of whole.now).numbers row column }
{
    let fraction = whole.number(row, column);
    match F::from_parts(fraction.numerator, fraction.denominator) {
        Ok(number) => number,
        Err(_) => unreachable!(),
    }
}
