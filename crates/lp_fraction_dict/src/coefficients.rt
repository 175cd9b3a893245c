//! The variable whose number in a row is greatest.
ghost use Rattle.std.specs.Prelude.{◌↔◌, ℕ, IsTrue};
ghost use Rattle.lp_fraction_dict.specs.Rows.{IsRow};
ghost use Rattle.lp_fraction_dict.specs.InnerPricing.{IsBetter, IsBest, IsGreatestAbove};

use crate::choice::is_above_zero;
use crate::row::Entry;
use gq_field::ExactField;

/// Whether an entry belongs to a variable from 1 on and its number is above 0 and greater than that
/// of the best entry so far.
fn is_better<F: ExactField>(entry: Entry<F>, best: Option<Entry<F>>) -> bool
    ensures { IsTrue result ↔ IsBetter F.value entry best }
{
    if entry.column < 2 {
        return false;
    }
    match best {
        Some(best) => entry.number.cmp_value(best.number).is_gt(),
        None => is_above_zero(entry.number),
    }
}

/// The better of the best entry so far and another.
fn better<F: ExactField>(best: Option<Entry<F>>, entry: Entry<F>) -> Option<Entry<F>>
    ensures { IsBest F.value best entry result }
{
    if is_better(entry, best) {
        Some(entry)
    } else {
        best
    }
}

/// The variable from 1 on with the greatest number above 0, and of equal ones the least.
pub(crate) fn greatest_above<F: ExactField>(row: &[Entry<F>]) -> Option<u32>
    requires { (high : ℕ) × IsRow F.value 0 high row.now }
    ensures { IsGreatestAbove F.value row.now result }
{
    let mut best = None;
    for entry in row {
        best = better(best, *entry);
    }
    match best {
        Some(entry) => Some(entry.column - 1),
        None => None,
    }
}
