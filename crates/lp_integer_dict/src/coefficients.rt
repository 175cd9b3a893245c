//! The variable whose number in a row is greatest.
ghost use Rattle.std.specs.Prelude.{◌<◌, ◌^◌, length};
ghost use Rattle.lp_integer_rows.specs.Form.{wholes};
ghost use Rattle.lp_integer_dict.specs.InnerChoice.{IsGreatestAbove};

use lp_integer_rows::Line;

/// The variable from 1 on with the greatest integer above 0 in a row, and of equal ones the least;
/// `None` if no integer of such a variable is above 0.
pub(crate) fn greatest_above(line: &Line) -> Option<u32>
    requires { length (wholes line.now) < 2 ^ 32 }
    ensures { IsGreatestAbove line.now result }
{
    match line.numbers.greatest_above(2) {
        Some(column) => Some(column as u32 - 1),
        None => None,
    }
}
