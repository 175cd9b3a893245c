//! The rows of an equation.
ghost use Rattle.std.specs.Prelude.{◌≡◌, ◌∷◌, [], ◌++◌, map, Ok, option_map, IfOk, OnOk};
ghost use Rattle.gms_ast.specs.TreeView.{index_tree, indices_of};
ghost use Rattle.gms_eval.specs.Faults.{◌and_then◌};
ghost use Rattle.gms_eval.specs.Gives.{Gives};
ghost use Rattle.gms_rows.specs.Rows.{distinct_numbers, sets_among, sense_of, present_rows, row_under, rows_of_definition};
ghost use Rattle.gms_rows.specs.InnerContracts.{with_once, definition_in, form_row_in, HaveOrder};
ghost use Rattle.gms_rows.specs.ElementRows.{AreInOrder};

use crate::equations::Definition;
use crate::form_row::FormRow;
use crate::linear::affine;
use crate::steps::add;
use gms_ast::{Index, Side};
use gms_eval::{Binding, ExecStopOrMemory, domain_over, tuple_of};
use gms_store::Store;
use gq_field::ExactField;
use lp_core::Sense;
use lp_form::Key;
use std::alloc::{AllocError, Global};

/// Adds a name at the end of others, if it is not among them. They are few: the indices of a
/// definition.
fn push_once(names: &mut Vec<u32>, name: u32) -> Result<(), AllocError>
    ensures { OnOk result (names.new.items ≡ with_once names.old.items name) }
{
    for other in names.as_slice() {
        if *other == name {
            return Ok(());
        }
    }
    names.push(name)?;
    Ok(())
}

/// The sets among indices, in order, without repetition.
fn sets_of<F: ExactField>(alloc: Global, indices: &[Index<F>]) -> Result<Vec<u32>, AllocError>
    ensures { IfOk result (λ sets. sets.items ≡ distinct_numbers (sets_among (indices_of (map index_tree indices.now)))) }
{
    let mut sets: Vec<u32> = Vec::new(alloc);
    for index in indices {
        match index {
            Index::Set { name, .. } => push_once(&mut sets, *name)?,
            Index::Label(_) => {}
        }
    }
    Ok(sets)
}

/// How the sum of a row and its right side compare.
fn sense_of(side: Side) -> Sense
    ensures { result ≡ sense_of side }
{
    match side {
        Side::E => Sense::E,
        Side::L => Sense::L,
        Side::G => Sense::G,
        Side::N => Sense::N,
    }
}

/// The row of an element of an equation, if it exists.
fn row<F: ExactField>(
    alloc: Global,
    store: &Store<F>,
    definition: &Definition<'_, F>,
    b: &Binding,
) -> Result<Option<FormRow<F>>, ExecStopOrMemory<F>>
    ensures { Gives F.value (option_map (form_row_in F.value)) result (row_under F.value F.limit store.now (definition_in definition.now) b.now) }
{
    let Some(tuple) = tuple_of(alloc, store, definition.indices, b)? else {
        return Ok(None);
    };
    let left = affine(alloc, store, definition.left, definition.left_at, b)?;
    let right = affine(alloc, store, definition.right, definition.right_at, b)?;
    let form = add(alloc, left, &right, true, definition.right_at, b)?;
    Ok(Some(FormRow {
        key: Key {
            symbol: definition.equation,
            tuple,
        },
        sense: sense_of(definition.side),
        form,
    }))
}

/// Adds a row, if it exists.
fn push_row<F: ExactField>(
    rows: &mut Vec<FormRow<F>>,
    row: Option<FormRow<F>>,
) -> Result<(), AllocError>
    ensures { OnOk result (map (form_row_in F.value) rows.new.items
        ≡ map (form_row_in F.value) rows.old.items ++ present_rows (option_map (form_row_in F.value) row ∷ [])) }
{
    if let Some(row) = row {
        rows.push(row)?;
    }
    Ok(())
}

/// Looks at the members of sets, which the store keeps in order.
fn look_at<F: ExactField>(store: &Store<F>, sets: &[u32])
    ensures { AreInOrder store.now sets.now }
{
    for set in sets {
        let _members = store.members(*set);
    }
}

/// Adds the rows of an equation, one for each element of its domain.
pub(crate) fn push_rows<F: ExactField>(
    alloc: Global,
    store: &Store<F>,
    definition: &Definition<'_, F>,
    rows: &mut Vec<FormRow<F>>,
) -> Result<(), ExecStopOrMemory<F>>
    ensures rows { Gives F.value (λ _. map (form_row_in F.value) rows.new.items) result
        (rows_of_definition F.value F.limit store.now (definition_in definition.now) and_then λ those. Ok (map (form_row_in F.value) rows.old.items ++ those)) }
    ensures ordered { OnOk result (HaveOrder store.now (definition_in definition.now ∷ [])) }
{
    let sets = sets_of(alloc, definition.indices)?;
    look_at(store, &sets);
    let mut inner = Binding::new(alloc);
    let elements = domain_over(
        alloc,
        store,
        &sets,
        definition.condition,
        definition.at,
        &inner,
    )?;
    for element in &elements {
        inner.control(0, &sets, element.as_slice())?;
        let row = row(alloc, store, definition, &inner)?;
        push_row(rows, row)?;
    }
    Ok(())
}
