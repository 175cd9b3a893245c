//! The data of a declaration: the positions for which they are given, and the order of their
//! labels.
ghost use Rattle.std.specs.Prelude.{◌≡◌, ℕ, List, true, flat_map, length, IfOk, OnOk};
ghost use Rattle.gms_tuple.specs.TupleSet.{has};
ghost use Rattle.gms_store.specs.State.{given_of, symbol_of};
ghost use Rattle.gms_store.specs.Declarations.{names_of, positions_of};
ghost use Rattle.gms_scope.specs.Data.{with_no_data, given_to, is_ascending, labels_of_items, least_after};

use gms_ast::{DeclKind, Item, Named, Sequence};
use gms_store::Store;
use gms_tuple::Tuple;
use gq_extended::Ext;
use gq_field::ExactField;
use std::alloc::{AllocError, Global};

/// Tuples with their values, in the order in which the data of a name give them. The value is
/// `None` for an element of a set.
pub type Data<F> = Vec<(Tuple, Option<Ext<F>>)>;

/// For each position of a name that is declared as `kind` with the domain `domain`, the number of
/// its set's name; `None` if the position admits any label. If `domain` is empty, a set has one
/// position, `None`, and any other name has none (GAMS User's Guide, "Set Definition"). The error
/// is out of memory.
pub fn positions(
    alloc: Global,
    kind: DeclKind,
    domain: &[Option<Named>],
) -> Result<Vec<Option<u32>>, AllocError>
    ensures { IfOk result (λ positions. positions.items ≡ positions_of kind (names_of domain.now)) }
{
    if kind != DeclKind::Set || !domain.is_empty() {
        return names(alloc, domain);
    }
    let mut positions = Vec::new(alloc);
    positions.push(None)?;
    Ok(positions)
}

/// The sets of a domain, by the numbers of their names.
fn names(alloc: Global, domain: &[Option<Named>]) -> Result<Vec<Option<u32>>, AllocError>
    ensures { IfOk result (λ sets. sets.items ≡ names_of domain.now) }
{
    let mut sets = Vec::new(alloc);
    for position in domain {
        sets.push(position.map(|named| named.name))?;
    }
    Ok(sets)
}

/// Writes the data `given` of the name `name` to the state `store`, in order. A tuple without a
/// value becomes a member of the set `name`. At a tuple with a value the parameter `name` gets this
/// value (GAMS User's Guide, "Data Entry: Parameters, Scalars and Tables"). The error is out of
/// memory.
pub fn put_data<F: ExactField>(
    alloc: Global,
    store: &mut Store<F>,
    name: u32,
    given: &[(Tuple, Option<Ext<F>>)],
) -> Result<(), AllocError>
    ensures { OnOk result (store.new ≡ given_to F.value name store.old given.now) }
{
    for (tuple, value) in given {
        match value {
            Some(value) => store.put(alloc, name, tuple, *value)?,
            None => store.set_member(alloc, name, tuple, true)?,
        }
    }
    Ok(())
}

/// Removes all data of a name from a state: the members of a set or the values of a parameter.
pub(crate) fn take_out_data<F: ExactField>(
    alloc: Global,
    store: &mut Store<F>,
    name: u32,
) -> Result<(), AllocError>
    ensures { OnOk result (store.new ≡ with_no_data store.old name) }
{
    let tuples = given_tuples(alloc, store, name)?;
    for tuple in &tuples {
        store.set_member(alloc, name, tuple, false)?;
        store.put(alloc, name, tuple, Ext::Number(F::zero()))?;
    }
    Ok(())
}

/// The tuples with data of a name.
fn given_tuples<F: ExactField>(
    alloc: Global,
    store: &Store<F>,
    name: u32,
) -> Result<Vec<Tuple>, AllocError>
    ensures given { IfOk result (λ tuples. tuples.items ≡ given_of store.now name) }
    ensures arity { (t : List ℕ) → has (given_of store.now name) t ≡ true → length t ≡ length (symbol_of store.now name).domain }
{
    let given = store.given(name);
    let mut tuples = Vec::new(alloc);
    for place in 0..given.len() {
        let tuple = given.get(place).copy(alloc)?;
        tuples.push(tuple)?;
    }
    Ok(tuples)
}

/// Whether the labels of items, in the order of writing, have strictly ascending numbers in the
/// table of labels. An item has the labels of its first position, then those of its second, and so
/// on; a range has all of its labels (GAMS User's Guide, "Sets as Sequences: Ordered Sets").
pub fn are_ascending<F>(items: &[Item<F>]) -> bool
    ensures { result ≡ is_ascending (labels_of_items items.now) }
{
    let mut least = 0;
    for item in items {
        match least_after_parts(least, item.parts.as_slice()) {
            Some(next) => least = next,
            None => return false,
        }
    }
    true
}

/// The least number that may follow the labels of these parts in an ascending list whose numbers
/// are `least` or more; `None` if the labels do not ascend so.
fn least_after_parts(least: u64, parts: &[Sequence<u32>]) -> Option<u64>
    ensures { result ≡ least_after least (flat_map (λ labels. labels) parts.now) }
{
    let mut least = least;
    for part in parts {
        match least_after(least, part.as_slice()) {
            Some(next) => least = next,
            None => return None,
        }
    }
    Some(least)
}

/// The least number that may follow these labels in an ascending list whose numbers are `least` or
/// more; `None` if the labels do not ascend so.
fn least_after(least: u64, labels: &[u32]) -> Option<u64>
    ensures { result ≡ least_after least labels.now }
{
    let mut least = least;
    for label in labels {
        let label = u64::from(*label);
        if label < least {
            return None;
        }
        least = label + 1;
    }
    Some(least)
}
