//! Denominators that the numbers of a row or of a column have in common.
ghost use Rattle.std.specs.Prelude.{◌≡◌, ℕ, ◌+◌, ◌≤◌, ◌<◌, length, slice_get, Some};
ghost use Rattle.lp_dict.specs.Tableau.{dictionary};
ghost use Rattle.lp_any.specs.Denominators as common;

use gq_field::ExactField;
use lp_dict::Dict;
use lp_integers::gcd;

/// The least common multiple of two numbers, capped at 2^128 - 1.
fn multiple_of(first: u128, second: u128) -> u128
    requires { 0 < second }
    ensures { result ≡ common.multiple_of first second }
{
    let shared = gcd(first, second);
    let part = first / shared;
    part.saturating_mul(second)
}

/// The denominator of a number of the dictionary.
fn denominator_at<F: ExactField>(dict: &Dict<F>, row: usize, column: usize) -> u128
    requires row { row ≤ length dict.now.basic }
    requires column { column ≤ dict.now.variables + 1 }
    ensures value { result ≡ ((dictionary F.value dict.now).numbers row column).denominator }
    ensures positive { 0 < result }
{
    let (_numerator, denominator) = dict.number(row, column).parts();
    denominator
}

/// The least common denominator of the numbers of a row, or the greatest number of two words if
/// that is less.
fn denominator_in<F: ExactField>(dict: &Dict<F>, row: usize) -> u128
    requires { row ≤ length dict.now.basic }
    ensures { result ≡ common.row_denominator (dictionary F.value dict.now) row (dict.now.variables + 2) }
{
    let mut common = 1;
    for column in 0..dict.variables() as usize + 2 {
        common = multiple_of(common, denominator_at(dict, row, column));
    }
    common
}

/// The common denominator of the numbers in the row of a basic variable, but at most 2^128 - 1; 1
/// if the variable is not basic.
pub(crate) fn denominator_of_row<F: ExactField>(dict: &Dict<F>, basic: u32) -> u128
    ensures { (k : ℕ) → slice_get dict.now.basic k ≡ Some basic → result ≡ common.row_denominator (dictionary F.value dict.now) k (dict.now.variables + 2) }
{
    dict.keeps();
    match dict.row_of(basic) {
        Some(row) => denominator_in(dict, row),
        None => 1,
    }
}

/// The common denominator of a variable's coefficients in the rows and in the objective, but at
/// most 2^128 - 1.
pub(crate) fn denominator_of_column<F: ExactField>(dict: &Dict<F>, variable: u32) -> u128
    requires { variable ≤ dict.now.variables }
    ensures { result ≡ common.column_denominator (dictionary F.value dict.now) (variable + 1) (length dict.now.basic + 1) }
{
    dict.keeps();
    let mut common = 1;
    for row in 0..dict.len() + 1 {
        common = multiple_of(common, denominator_at(dict, row, variable as usize + 1));
    }
    common
}
