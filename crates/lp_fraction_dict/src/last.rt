//! What is read from a final dictionary.
ghost use Rattle.std.specs.Prelude.{◌≡◌, ◌+◌, ◌-◌, ◌^◌, ◌<◌, ◌≤◌, ℕ, List, [], map, length, slice_get, slice_index_or, Some, IfOk};
ghost use Rattle.std.specs.List.{All};
ghost use Rattle.gq_number.specs.Number.{neg_ℚ};
ghost use Rattle.lp_fraction_dict.specs.Rows.{IsRow};
ghost use Rattle.lp_fraction_dict.specs.Lines.{entries_of_rows};
ghost use Rattle.lp_fraction_dict.specs.Reading.{AreNumbers, AreByVariable, AreByColumn, AreChanges};

use crate::row::{Entry, number_of_row};
use gq_field::ExactField;
use std::alloc::{AllocError, Global};

/// A list of `count` zeros. The only error is out of memory.
pub fn zeros<F: ExactField>(alloc: Global, count: usize) -> Result<Vec<F>, AllocError>
    ensures { IfOk result (λ list. AreNumbers F.value count list.items) }
{
    let mut list = Vec::with_capacity(alloc, count)?;
    for _place in 0..count {
        list.push(F::zero())?;
    }
    Ok(list)
}

/// For each of `count` variables the number, at `column`, of the row in which it is basic; 0 if it
/// is not basic.
pub(crate) fn by_variable<F: ExactField>(
    alloc: Global,
    rows: &[Vec<Entry<F>>],
    basic: &[u32],
    count: usize,
    column: u32,
) -> Result<Vec<F>, AllocError>
    requires paired { length rows.now ≡ length basic.now }
    requires rows { (high : ℕ) × ((k : ℕ) → IsRow F.value 0 high (slice_index_or (entries_of_rows rows.now) k [])) }
    requires distinct { (i j v : ℕ) → slice_get basic.now i ≡ Some v → slice_get basic.now j ≡ Some v → i ≡ j }
    requires there { (k v : ℕ) → slice_get basic.now k ≡ Some v → v < count }
    ensures { IfOk result (λ list. AreByVariable F.value (entries_of_rows rows.now) basic.now count column (length basic.now) list.items) }
{
    let mut list = zeros(alloc, count)?;
    for (place, variable) in basic.iter().enumerate() {
        list[*variable as usize] = number_of_row(rows, place, column);
    }
    Ok(list)
}

/// For each of `count` variables its coefficient in a row.
pub(crate) fn by_column<F: ExactField>(
    alloc: Global,
    row: &[Entry<F>],
    count: usize,
) -> Result<Vec<F>, AllocError>
    requires { IsRow F.value 0 (count + 1) row.now }
    ensures { IfOk result (λ list. AreByColumn F.value row.now count (length row.now) list.items) }
{
    let mut list = zeros(alloc, count)?;
    for entry in row {
        if entry.column == 0 {
            continue;
        }
        list[entry.column as usize - 1] = entry.number;
    }
    Ok(list)
}

/// Changes the sign of each number.
fn negate<F: ExactField>(list: &mut [F])
    ensures { map F.value list.new ≡ map (λ x. neg_ℚ (F.value x)) list.old }
{
    for number in list.iter_mut() {
        *number = number.neg();
    }
}

/// The change of each variable if the nonbasic variable `enter` rises by 1 and the other nonbasic
/// ones stay: 1 for `enter`, and the negated `numbers[v]` for any other variable v. `numbers[v]` is
/// the coefficient of `enter` in the row in which v is basic, or 0 if v is not basic.
pub fn changes<F: ExactField>(mut numbers: Vec<F>, enter: u32) -> Vec<F>
    requires { enter < length numbers.items }
    ensures { AreChanges F.value numbers.items enter result.items }
{
    negate(numbers.as_mut_slice());
    numbers[enter as usize] = F::one();
    numbers
}
