//! The first dictionary of a standard form.
ghost use Rattle.std.specs.Prelude.{◌≡◌, ◌+◌, ◌-◌, ◌^◌, ◌<◌, ◌≤◌, ℕ, pos, map, length, slice_index_or, IfOk, if◌then◌else◌};
ghost use Rattle.std.specs.List.{All, list_any, range_with_len};
ghost use Rattle.std.specs.Ordering.{is_lt};
ghost use Rattle.gq_number.specs.Number.{whole, neg_ℚ};
ghost use Rattle.gq_number.specs.Order.{number_cmp};
ghost use Rattle.lp_core.specs.Dictionary.{first_row, first_objective};
ghost use Rattle.lp_std.specs.declared.types.StdRow.{StdRow};
ghost use Rattle.lp_std.specs.Meaning.{entries_value, row_value, standard_value};
ghost use Rattle.lp_fraction_dict.specs.Lines.{entries_of_rows};
ghost use Rattle.lp_fraction_dict.specs.First.{InOrder, IsFilled, AreFirst};

use crate::choice::is_below_zero;
use crate::row::{Entry, push_unless_zero};
use gq_field::ExactField;
use lp_std::{Standard, StdRow};
use std::alloc::{AllocError, Global};

/// Whether some right side is below 0.
pub(crate) fn is_some_below<F: ExactField>(rows: &[StdRow<F>]) -> bool
    ensures { result ≡ list_any (λ row. is_lt (number_cmp row.right (whole (pos 0)))) (map (row_value F.value) rows.now) }
{
    for row in rows {
        if is_below_zero(row.right) {
            return true;
        }
    }
    false
}

/// The coefficient of variable 0 in each row: -1 if phase 1 is needed, else 0.
fn number_of_zero<F: ExactField>(needed: bool) -> F
    ensures { F.value result ≡ (if needed then neg_ℚ (whole (pos 1)) else whole (pos 0)) }
{
    if needed { F::one().neg() } else { F::zero() }
}

/// A row with its slack, whose variable number is greater than those of the row's entries.
fn row_with_slack<F: ExactField>(
    alloc: Global,
    row: &StdRow<F>,
    needed: bool,
    slack: u32,
) -> Result<Vec<Entry<F>>, AllocError>
    requires in_order { InOrder 1 slack (entries_value F.value row.now.entries) }
    requires some { 1 ≤ slack }
    requires within_bound { slack + 2 < 2 ^ 32 }
    ensures { IfOk result (λ made. IsFilled F.value (first_row needed slack (row_value F.value row.now)) (slack + 2) made.items) }
{
    let mut made = Vec::new(alloc);
    push_unless_zero(&mut made, 0, row.right)?;
    push_unless_zero(&mut made, 1, number_of_zero(needed))?;
    for (variable, coefficient) in row.entries.as_slice() {
        push_unless_zero(&mut made, *variable + 1, *coefficient)?;
    }
    push_unless_zero(&mut made, slack + 1, F::one())?;
    Ok(made)
}

/// The rows of the first dictionary, each with its slack variable. `slack` is the first row's, and
/// `needed` says whether phase 1 is needed.
pub(crate) fn rows_with_slacks<F: ExactField>(
    alloc: Global,
    rows: &[StdRow<F>],
    needed: bool,
    slack: u32,
) -> Result<Vec<Vec<Entry<F>>>, AllocError>
    requires in_order { All (λ (row : StdRow F). InOrder 1 slack (entries_value F.value row.entries)) rows.now }
    requires some { 1 ≤ slack }
    requires within_bound { slack + length rows.now + 2 < 2 ^ 32 }
    ensures { IfOk result (λ made. AreFirst F.value needed slack (map (row_value F.value) rows.now) (entries_of_rows made.items) (length rows.now)) }
{
    let mut made = Vec::new(alloc);
    for (place, row) in rows.iter().enumerate() {
        made.push(row_with_slack(alloc, row, needed, slack + place as u32)?)?;
    }
    Ok(made)
}

/// The objective, its constant negated.
pub(crate) fn objective_row<F: ExactField>(
    alloc: Global,
    s: &Standard<F>,
) -> Result<Vec<Entry<F>>, AllocError>
    requires { length s.now.objective + 2 < 2 ^ 32 }
    ensures { IfOk result (λ made. IsFilled F.value (first_objective (standard_value F.value s.now)) (length s.now.objective + 2) made.items) }
{
    let mut made = Vec::new(alloc);
    push_unless_zero(&mut made, 0, s.constant.neg())?;
    for (place, coefficient) in s.objective.as_slice().iter().enumerate() {
        push_unless_zero(&mut made, place as u32 + 2, *coefficient)?;
    }
    Ok(made)
}

/// `count` numbers from `first` on.
pub(crate) fn numbers_from(alloc: Global, first: u32, count: usize) -> Result<Vec<u32>, AllocError>
    requires { first + count < 2 ^ 32 }
    ensures { IfOk result (λ numbers. numbers.items ≡ range_with_len first count) }
{
    let mut numbers = Vec::new(alloc);
    for place in 0..count {
        numbers.push(first + place as u32)?;
    }
    Ok(numbers)
}
