//! Whether a program is well formed.
ghost use Rattle.std.specs.Prelude.{◌≡◌, ◌≢◌, ◌≤◌, ◌+◌, ◌↔◌, ℕ, IsTrue, sum_by};
ghost use Rattle.std.specs.List.{All, AllPairs};
ghost use Rattle.lp_core.specs.WellFormed.{IsWellFormed, AreRowEntries, rows_of_sense, rows_of_bounds, variables_of_bounds, count_of_rows};
ghost use Rattle.lp_core.specs.Counts.{counted};
ghost use Rattle.lp_core.specs.InnerEntries.{are_in_order};

use crate::program::{Column, Lp, Row, Sense};
use gq_field::ExactField;
use lp_form::Key;
use std::cmp::Ordering;

/// The most rows that a standard form may have.
pub const MOST_ROWS: usize = 1500;

/// The most variables, except slacks and variable 0, of a standard form.
pub const MOST_COLUMNS: usize = 3000;

/// Whether two keys are the same.
fn is_same(key: &Key, other: &Key) -> bool
    ensures { IsTrue result ↔ (key.now ≡ other.now) }
{
    match key.cmp(other) {
        Ordering::Equal => true,
        _ => false,
    }
}

/// Whether no column has this key.
fn is_new_column<F>(key: &Key, columns: &[Column<F>]) -> bool
    ensures { IsTrue result ↔ All (λ column. key.now ≢ column.key) columns.now }
{
    for column in columns {
        if is_same(key, &column.key) {
            return false;
        }
    }
    true
}

/// Whether the keys of columns differ.
fn columns_differ<F>(columns: &[Column<F>]) -> bool
    ensures { IsTrue result ↔ AllPairs (λ a b. a.key ≢ b.key) columns.now }
{
    for (i, column) in columns.iter().enumerate() {
        if !is_new_column(&column.key, &columns[i + 1..]) {
            return false;
        }
    }
    true
}

/// Whether no row has this key.
fn is_new_row<F>(key: &Key, rows: &[Row<F>]) -> bool
    ensures { IsTrue result ↔ All (λ row. key.now ≢ row.key) rows.now }
{
    for row in rows {
        if is_same(key, &row.key) {
            return false;
        }
    }
    true
}

/// Whether the keys of rows differ.
fn rows_differ<F>(rows: &[Row<F>]) -> bool
    ensures { IsTrue result ↔ AllPairs (λ a b. a.key ≢ b.key) rows.now }
{
    for (i, row) in rows.iter().enumerate() {
        if !is_new_row(&row.key, &rows[i + 1..]) {
            return false;
        }
    }
    true
}

/// Whether entries ascend by column, name columns below `columns`, and are not 0.
fn are_entries<F: ExactField>(entries: &[(u32, F)], columns: usize) -> bool
    ensures { IsTrue result ↔ AreRowEntries F.value columns entries.now }
{
    let mut least: usize = 0;
    for (column, coefficient) in entries {
        let place = *column as usize;
        if place < least {
            return false;
        }
        if place >= columns {
            return false;
        }
        if coefficient.is_zero() {
            return false;
        }
        least = place + 1;
    }
    true
}

/// Whether the entries of each row are in order.
fn have_entries<F: ExactField>(rows: &[Row<F>], columns: usize) -> bool
    ensures { IsTrue result ↔ All (λ row. AreRowEntries F.value columns row.entries) rows.now }
{
    for row in rows {
        if !are_entries(row.entries.as_slice(), columns) {
            return false;
        }
    }
    true
}

/// How many rows a row of this sense has in the standard form: two for an equality (`=e=`), one for
/// an inequality (`=l=` or `=g=`), none for a nonbinding row (`=n=`).
pub fn rows_by_sense(sense: Sense) -> usize
    ensures { result ≡ rows_of_sense sense }
{
    match sense {
        Sense::E => 2,
        Sense::L => 1,
        Sense::G => 1,
        Sense::N => 0,
    }
}

/// How many rows of the standard form rows have, or the greatest `usize`.
fn count_rows<F>(rows: &[Row<F>]) -> usize
    ensures { result ≡ counted (count_of_rows rows.now) }
{
    let mut count: usize = 0;
    for row in rows {
        count = count.saturating_add(rows_by_sense(row.sense));
    }
    count
}

/// How many rows of the standard form the bounds of a column have.
fn rows_by_bounds<F>(column: &Column<F>) -> usize
    ensures { result ≡ rows_of_bounds column.now.lower column.now.upper }
{
    match (&column.lower, &column.upper) {
        (Some(_), Some(_)) => 1,
        _ => 0,
    }
}

/// How many variables of the standard form a column has.
fn variables_by_bounds<F>(column: &Column<F>) -> usize
    ensures { result ≡ variables_of_bounds column.now.lower column.now.upper }
{
    match (&column.lower, &column.upper) {
        (None, None) => 2,
        _ => 1,
    }
}

/// How many rows the bounds of these columns have in the standard form: one for each column that
/// has both a lower and an upper bound. The count saturates at the greatest `usize`.
pub fn count_bounds<F>(columns: &[Column<F>]) -> usize
    ensures { result ≡ counted (sum_by (λ column. rows_of_bounds column.lower column.upper) columns.now) }
{
    let mut count: usize = 0;
    for column in columns {
        count = count.saturating_add(rows_by_bounds(column));
    }
    count
}

/// How many variables these columns have in the standard form, slacks not counted: two for each
/// column without bounds, one for each other column. The count saturates at the greatest `usize`.
pub fn count_variables<F>(columns: &[Column<F>]) -> usize
    ensures { result ≡ counted (sum_by (λ column. variables_of_bounds column.lower column.upper) columns.now) }
{
    let mut count: usize = 0;
    for column in columns {
        count = count.saturating_add(variables_by_bounds(column));
    }
    count
}

/// Whether a program is well formed: the objective is a column; no two columns have the same key,
/// and no two rows; each row's entries ascend by column, name columns of the program and are not 0;
/// the standard form has at most 1,500 rows and, without slacks and variable 0, 3,000 variables.
pub fn well_formed<F: ExactField>(lp: &Lp<F>) -> bool
    ensures { IsTrue result ↔ IsWellFormed F.value lp.now }
{
    let columns = lp.columns.as_slice();
    let rows = lp.rows.as_slice();
    let standard_rows = count_rows(rows).saturating_add(count_bounds(columns));
    if lp.objective as usize >= columns.len() {
        return false;
    }
    if standard_rows > MOST_ROWS {
        return false;
    }
    if count_variables(columns) > MOST_COLUMNS {
        return false;
    }
    if !columns_differ(columns) {
        return false;
    }
    if !rows_differ(rows) {
        return false;
    }
    have_entries(rows, columns.len())
}
