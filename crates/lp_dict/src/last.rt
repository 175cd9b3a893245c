//! What is read from a final dictionary with integer rows.
ghost use Rattle.std.specs.Prelude.{◌≡◌, ◌+◌, ◌≤◌, ◌<◌, map, length, Some, Contains, IfOk};
ghost use Rattle.lp_core.specs.Pivots.{last_of, last_along};
ghost use Rattle.lp_integer_dict.specs.Whole.{integer_dictionary as dictionary_of};
ghost use Rattle.lp_dict.specs.InnerReading.{AreByVariable, AreOfRow};

use crate::number::number_at;
use crate::reading::priced;
use gq_field::ExactField;
use lp_fraction_dict::{changes, zeros};
use lp_integer_dict::Whole;
use std::alloc::{AllocError, Global};

/// For each variable the number of its row at a column; 0 if it is not basic.
fn by_variable<F: ExactField>(
    alloc: Global,
    rows: &Whole,
    column: usize,
) -> Result<Vec<F>, AllocError>
    requires bounded { rows.now.bound ≤ F.limit }
    requires column { column ≤ (dictionary_of rows.now).variables + 1 }
    ensures { IfOk result (λ list. AreByVariable F.value (dictionary_of rows.now) ((dictionary_of rows.now).variables + 1) column
        (length (dictionary_of rows.now).basic) list.items) }
{
    rows.keeps();
    let mut list = zeros(alloc, rows.variables() as usize + 1)?;
    for (place, variable) in rows.basic().iter().enumerate() {
        list[*variable as usize] = number_at(rows, place, column);
    }
    Ok(list)
}

/// The number of each variable in a row.
fn row_of<F: ExactField>(alloc: Global, rows: &Whole, row: usize) -> Result<Vec<F>, AllocError>
    requires bounded { rows.now.bound ≤ F.limit }
    requires row { row ≤ length (dictionary_of rows.now).basic }
    ensures { IfOk result (λ list. AreOfRow F.value (dictionary_of rows.now) row ((dictionary_of rows.now).variables + 1) list.items) }
{
    rows.keeps();
    let mut list = Vec::new(alloc);
    for variable in 0..rows.variables() as usize + 1 {
        list.push(number_at(rows, row, variable + 1))?;
    }
    Ok(list)
}

/// The value of each variable when the nonbasic ones are 0.
pub(crate) fn values<F: ExactField>(alloc: Global, rows: &Whole) -> Result<Vec<F>, AllocError>
    requires { rows.now.bound ≤ F.limit }
    ensures { IfOk result (λ list. map F.value list.items ≡ (last_of (dictionary_of rows.now)).values) }
{
    rows.keeps();
    by_variable(alloc, rows, 0)
}

/// The coefficient of each variable in the priced row; 0 for a basic one.
pub(crate) fn costs<F: ExactField>(alloc: Global, rows: &Whole) -> Result<Vec<F>, AllocError>
    requires { rows.now.bound ≤ F.limit }
    ensures { IfOk result (λ list. map F.value list.items ≡ (last_of (dictionary_of rows.now)).costs) }
{
    rows.keeps();
    let row = priced(rows);
    let mut costs = row_of(alloc, rows, row)?;
    if row < rows.basic().len() {
        costs[0] = F::zero();
    }
    Ok(costs)
}

/// The change of each variable if `enter`, which is not basic, rises by 1.
pub(crate) fn ray<F: ExactField>(
    alloc: Global,
    rows: &Whole,
    enter: u32,
) -> Result<Vec<F>, AllocError>
    requires bounded { rows.now.bound ≤ F.limit }
    requires there { enter ≤ (dictionary_of rows.now).variables }
    requires free { ¬ (Contains (dictionary_of rows.now).basic enter) }
    ensures { IfOk result (λ list. map F.value list.items ≡ (last_along (dictionary_of rows.now) enter).changes) }
{
    rows.keeps();
    let numbers = by_variable(alloc, rows, enter as usize + 1)?;
    Ok(changes(numbers, enter))
}
