//! The columns of a linear program, and its rows by the places of their columns.
ghost use Rattle.std.specs.Prelude.{◌≡◌, ◌++◌, ◌<◌, ◌^◌, [], map, length, true, IfOk, OnOk};
ghost use Rattle.std.specs.List.{All};
ghost use Rattle.lp_form.specs.Affine.{IsForm};
ghost use Rattle.lp_form.specs.Keys.{AreOrdered};
ghost use Rattle.lp_core.specs.WellFormed.{AreRowEntries};
ghost use Rattle.lp_core.specs.Numbers.{column_numbers, row_numbers};
ghost use Rattle.gms_rows.specs.ProgramLp.{column_keys, column_of, place_of_key, placed};
ghost use Rattle.gms_rows.specs.InnerContracts.{form_row_in, is_among, placed_numbers, OrdersOnce};

use crate::form_row::FormRow;
use gms_store::Store;
use gms_tuple::Tuple;
use gq_field::ExactField;
use lp_core::{Column, Row, Sequence};
use lp_form::Key;
use std::alloc::{AllocError, Global};

/// Adds copies of keys at the end of others.
fn push_keys(alloc: Global, keys: &[Key], all: &mut Vec<Key>) -> Result<(), AllocError>
    ensures { OnOk result (all.new.items ≡ all.old.items ++ keys.now) }
{
    for key in keys {
        all.push(key.copy(alloc)?)?;
    }
    Ok(())
}

/// Sorts values, and removes repetitions.
fn order_once<T: Ord + Drop>(values: &mut Vec<T>) -> Result<(), AllocError>
    ensures { OnOk result (OrdersOnce T.cmp values.old.items values.new.items) }
{
    values.sort()?;
    values.dedup();
    Ok(())
}

/// The keys that occur in the rows, and that of the objective, in order, without repetition.
pub(crate) fn keys_of<F: ExactField>(
    alloc: Global,
    rows: &[FormRow<F>],
    objective: u32,
) -> Result<Vec<Key>, AllocError>
    ensures keys { IfOk result (λ keys. keys.items ≡ column_keys (map (form_row_in F.value) rows.now) (record { symbol = objective; tuple = [] })) }
    ensures forms { OnOk result (All (λ row. IsForm F.value row.form) rows.now) }
{
    let mut keys = Vec::new(alloc);
    keys.push(Key {
        symbol: objective,
        tuple: Tuple::new(alloc),
    })?;
    for row in rows {
        push_keys(alloc, row.form.keys(), &mut keys)?;
    }
    order_once(&mut keys)?;
    Ok(keys)
}

/// The position of a key among keys that are in order, of which it is one.
pub(crate) fn place_of(keys: &[Key], key: &Key) -> u32
    requires ordered { AreOrdered keys.now }
    requires there { is_among keys.now key.now ≡ true }
    requires few { length keys.now < 2 ^ 32 }
    ensures { result ≡ place_of_key keys.now key.now }
{
    match keys.binary_search(key) {
        Ok(place) => place as u32,
        Err(_) => 0,
    }
}

/// The entries of a row: its numbers with the places of their columns.
fn entries_of<F: ExactField>(
    alloc: Global,
    keys: &[Key],
    row: &FormRow<F>,
) -> Result<Vec<(u32, F)>, AllocError>
    requires ordered { AreOrdered keys.now }
    requires there { All (λ key. is_among keys.now key ≡ true) row.now.form.keys }
    requires few { length keys.now < 2 ^ 32 }
    ensures entries { IfOk result (λ entries. entries.items ≡ placed_numbers keys.now row.now.form.keys row.now.form.numbers) }
    ensures form { IsForm F.value row.now.form }
{
    let mut entries = Vec::new(alloc);
    let numbers = row.form.numbers();
    for (place, key) in row.form.keys().iter().enumerate() {
        entries.push((place_of(keys, key), numbers[place]))?;
    }
    Ok(entries)
}

/// The rows of a linear program whose columns have these keys.
pub(crate) fn placed_rows<F: ExactField>(
    alloc: Global,
    keys: &[Key],
    rows: &[FormRow<F>],
) -> Result<Vec<Row<F>>, AllocError>
    requires ordered { AreOrdered keys.now }
    requires there { All (λ row. All (λ key. is_among keys.now key ≡ true) row.form.keys) rows.now }
    requires few { length keys.now < 2 ^ 32 }
    ensures rows { IfOk result (λ made. map (row_numbers F.value) made.items ≡ map (placed keys.now) (map (form_row_in F.value) rows.now)) }
    ensures entries { IfOk result (λ made. All (λ row. AreRowEntries F.value (length keys.now) row.entries) made.items) }
{
    let mut placed = Vec::new(alloc);
    for row in rows {
        placed.push(Row {
            key: row.key.copy(alloc)?,
            sense: row.sense,
            right: row.form.offset().neg(),
            entries: Sequence::new(entries_of(alloc, keys, row)?),
        })?;
    }
    Ok(placed)
}

/// The columns of these keys, with their bounds.
pub(crate) fn columns_of<F: ExactField>(
    alloc: Global,
    store: &Store<F>,
    keys: &[Key],
) -> Result<Vec<Column<F>>, AllocError>
    ensures { IfOk result (λ columns. map (column_numbers F.value) columns.items ≡ map (column_of store.now) keys.now) }
{
    let mut columns = Vec::new(alloc);
    for key in keys {
        columns.push(Column {
            key: key.copy(alloc)?,
            lower: store.lower(key.symbol, &key.tuple),
            upper: store.upper(key.symbol, &key.tuple),
        })?;
    }
    Ok(columns)
}
