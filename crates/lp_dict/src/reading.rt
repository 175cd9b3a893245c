//! What is read from integer rows, and from rows of fractions.
ghost use Rattle.std.specs.Prelude.{◌≡◌, ◌≢◌, ◌+◌, ◌≤◌, ◌<◌, ◌↔◌, ℕ, pos, length, slice_get, Some, Contains, IsTrue, MatchOption};
ghost use Rattle.gq_number.specs.Number.{whole};
ghost use Rattle.lp_core.specs.Dictionary.{constant_at, entry_at, basic_at, IsPriced, OpeningIsRequired, IsOpening, IsLeast};
ghost use Rattle.lp_core.specs.Pivots.{priced_row};
ghost use Rattle.lp_fraction_dict.specs.Rows.{IsRow, number_in};
ghost use Rattle.lp_fraction_dict.specs.Tableau as exact;
ghost use Rattle.lp_fraction_dict.specs.Tableau.{IsPlace};
ghost use Rattle.lp_integer_dict.specs.Whole.{integer_dictionary as dictionary_of};

use crate::number::number_at;
use gq_field::ExactField;
use lp_core::Pivot;
use lp_fraction_dict::{Entry, ExactDict};
use lp_integer_dict::Whole;
use std::cmp::Ordering;

/// The opening pivot of integer rows, if it is required. `upcoming` is the number of the next
/// pivot: the opening pivot can be required only before pivot 1.
pub(crate) fn opening_of(rows: &Whole, upcoming: u64) -> Option<Pivot>
    requires { upcoming ≢ 1 → ¬ (OpeningIsRequired (dictionary_of rows.now)) }
    ensures { MatchOption result (¬ (OpeningIsRequired (dictionary_of rows.now)))
        (λ p. ((k : ℕ) × IsOpening (dictionary_of rows.now) p k) ×
        ((i : ℕ) → IsLeast (dictionary_of rows.now) i → p.leave ≤ basic_at (dictionary_of rows.now) i)) }
{
    if upcoming != 1 {
        return None;
    }
    rows.opening()
}

/// The row in which a variable is basic; `None` if it is not basic.
pub(crate) fn place_among(basic: &[u32], variable: u32) -> Option<usize>
    ensures { IsPlace basic.now variable result }
{
    for (i, other) in basic.iter().enumerate() {
        if *other == variable {
            return Some(i);
        }
    }
    None
}

/// The number of a row of fractions at a column, found by bisection; 0 if no entry has that column.
fn number_in_row<F: ExactField>(row: &[Entry<F>], column: usize) -> F
    requires { (high : ℕ) × IsRow F.value 0 high row.now }
    ensures { F.value result ≡ number_in F.value row.now column }
{
    let mut rest = row;
    loop {
        let (prefix, back) = rest.split_at(rest.len() / 2);
        let Some((entry, after)) = back.split_first() else {
            return F::zero();
        };
        let here = entry.column as usize;
        match here.cmp(&column) {
            Ordering::Less => rest = after,
            Ordering::Equal => return entry.number,
            Ordering::Greater => rest = prefix,
        }
    }
}

/// The number at a column of a row of fractions, or of the objective, which follows the rows.
pub(crate) fn number_of<F: ExactField>(dict: &ExactDict<F>, row: usize, column: usize) -> F
    ensures { F.value result ≡ (exact.fraction_dictionary F.value dict.now).numbers row column }
{
    dict.keeps();
    let rows = dict.rows();
    if row < rows.len() {
        return number_in_row(rows[row].as_slice(), column);
    }
    number_in_row(dict.objective(), column)
}

/// Whether a variable is basic.
pub(crate) fn is_basic(rows: &Whole, v: u32) -> bool
    ensures { IsTrue result ↔ Contains (dictionary_of rows.now).basic v }
{
    rows.place_of(v).is_some()
}

/// The number of the priced row: that of variable 0 while this is basic, else the objective, which
/// follows the rows.
pub(crate) fn priced(rows: &Whole) -> usize
    ensures { result ≡ priced_row (dictionary_of rows.now) }
{
    rows.keeps();
    match rows.place_of(0) {
        Some(place) => place,
        None => rows.basic().len(),
    }
}

/// The constant of the row in which variable `v` is basic; 0 if it is not basic.
pub(crate) fn amount<F: ExactField>(rows: &Whole, v: u32) -> F
    requires { rows.now.bound ≤ F.limit }
    ensures basic { (k : ℕ) → slice_get (dictionary_of rows.now).basic k ≡ Some v → F.value result ≡ constant_at (dictionary_of rows.now) k }
    ensures other { ¬ (Contains (dictionary_of rows.now).basic v) → F.value result ≡ whole (pos 0) }
{
    rows.keeps();
    match rows.place_of(v) {
        Some(place) => number_at(rows, place, 0),
        None => F::zero(),
    }
}

/// The number of a variable in a row; 0 if it is basic or no variable.
fn free_entry<F: ExactField>(rows: &Whole, row: usize, v: u32) -> F
    requires bounded { rows.now.bound ≤ F.limit }
    requires row { row ≤ length (dictionary_of rows.now).basic }
    ensures free { ¬ (Contains (dictionary_of rows.now).basic v) → F.value result ≡ entry_at (dictionary_of rows.now) row v }
    ensures basic { Contains (dictionary_of rows.now).basic v → F.value result ≡ whole (pos 0) }
    ensures no_variable { (dictionary_of rows.now).variables < v → F.value result ≡ whole (pos 0) }
{
    rows.keeps();
    if v > rows.variables() || is_basic(rows, v) {
        return F::zero();
    }
    number_at(rows, row, v as usize + 1)
}

/// The coefficient of the variable `other` in the row in which `basic` is basic. It is 0 if `basic`
/// is not basic, if `other` is basic, and if `other` is no variable.
pub(crate) fn entry<F: ExactField>(rows: &Whole, basic: u32, other: u32) -> F
    requires { rows.now.bound ≤ F.limit }
    ensures row { (k : ℕ) → slice_get (dictionary_of rows.now).basic k ≡ Some basic →
        ¬ (Contains (dictionary_of rows.now).basic other) → F.value result ≡ entry_at (dictionary_of rows.now) k other }
    ensures not_basic { ¬ (Contains (dictionary_of rows.now).basic basic) → F.value result ≡ whole (pos 0) }
    ensures both_basic { Contains (dictionary_of rows.now).basic other → F.value result ≡ whole (pos 0) }
    ensures no_variable { (dictionary_of rows.now).variables < other → F.value result ≡ whole (pos 0) }
{
    rows.keeps();
    match rows.place_of(basic) {
        Some(place) => free_entry(rows, place, other),
        None => F::zero(),
    }
}

/// The coefficient of variable `v` in the priced row; 0 if `v` is basic or no variable.
pub(crate) fn coefficient<F: ExactField>(rows: &Whole, v: u32) -> F
    requires { rows.now.bound ≤ F.limit }
    ensures priced { (k : ℕ) → IsPriced (dictionary_of rows.now) k → ¬ (Contains (dictionary_of rows.now).basic v) →
        F.value result ≡ entry_at (dictionary_of rows.now) k v }
    ensures basic { Contains (dictionary_of rows.now).basic v → F.value result ≡ whole (pos 0) }
    ensures no_variable { (dictionary_of rows.now).variables < v → F.value result ≡ whole (pos 0) }
{
    rows.keeps();
    free_entry(rows, priced(rows), v)
}
