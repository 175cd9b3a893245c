//! The first two integers of a row, which are stored once more since each pivot reads them of each
//! row.
ghost use Rattle.std.specs.Prelude.{◌≡◌};
ghost use Rattle.lp_integers.specs.Lines.{whole_at};
ghost use Rattle.lp_integer_rows.specs.Marks.{AreLeading};

use lp_integers::Numbers;

/// The first two integers of a row: that of its constant, `constant`, and that of its coefficient
/// of variable 0, `zero`.
#[derive(Clone, Copy)]
pub struct Leading {
    pub constant: i128,
    pub zero: i128,
}

/// The integer at a place of a list; 0 past its end.
fn number_or_zero(numbers: &Numbers, place: usize) -> i128
    ensures { result ≡ whole_at numbers.now place }
{
    if place < numbers.len() {
        return numbers.at(place);
    }
    0
}

impl Leading {
    /// The first two integers of this list.
    pub(crate) fn of(numbers: &Numbers) -> Leading
        ensures { AreLeading numbers.now result }
    {
        let constant = number_or_zero(numbers, 0);
        let zero = number_or_zero(numbers, 1);
        Leading { constant, zero }
    }
}
