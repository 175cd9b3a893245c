//! Traversals of the stored tuples of a name, in place of the whole product of sets.
ghost use Rattle.std.specs.Prelude.{◌≡◌, ◌≤◌, ℕ, ◌∷◌, [], ◌++◌, ◌&&◌, ◌||◌, List, length, slice_index, All, IfOk, IsTrue, IsFalse};
ghost use Rattle.gms_tuple.specs.TupleOrder.{IsOrdered};
ghost use Rattle.gms_tuple.specs.TupleSet.{has};
ghost use Rattle.gms_store.specs.State.{given_of, symbol_of};
ghost use Rattle.gms_eval.specs.Domain.{elements, IsSimple};
ghost use Rattle.gms_eval.specs.InnerLeading.{picked, spread_over, traversed};

use crate::elements::element;
use gms_store::Store;
use gms_tuple::{MOST_LABELS, Tuple, TupleSet};
use gq_field::ExactField;
use std::alloc::{AllocError, Global};

/// A traversal of stored tuples of a name, which finds elements of a product of sets. The label of
/// one of these sets is taken from the tuple or, if the tuple does not determine it, runs through
/// the members of the set.
///
/// In `sum((i,j,k)$s(j,i), w(i,k))` the traversal visits the tuples of `s`, each followed by each
/// label of `k`. In the list of these labels that of `j` has the index 0, that of `i` 1, and that
/// of `k` 2.
#[derive(Drop)]
pub(crate) struct Traversal {
    /// The number of the name whose tuples are traversed.
    pub name: u32,
    /// The index of the first traversed tuple among the stored tuples of the name `name`, from 0.
    pub from: usize,
    /// The index in the stored tuples of `name` after the last traversed one; `from` if there is
    /// none.
    pub upto: usize,
    /// The sets of the fold (such as `sum`), the loop or the left side whose labels a traversed
    /// tuple does not determine: the numbers of their names, in the order of these sets.
    pub free: Vec<u32>,
    /// The number of elements of the product of the sets `free`; 1 if there are no such sets.
    pub spread: usize,
    /// For each set of the fold (such as `sum`), the loop or the left side, in order: the index,
    /// from 0, of the set's label in the list of a traversed tuple's labels, followed by one label
    /// of each of the sets `free`.
    pub places: Vec<usize>,
}

/// The label of a tuple at the index `place`, from 0; 0 if the tuple has no label at this index.
fn label_in(tuple: &Tuple, place: usize) -> u32
    ensures { result ≡ slice_index tuple.now place }
{
    match tuple.as_slice().get(place) {
        Some(label) => *label,
        None => 0,
    }
}

/// The label at a place of a tuple followed by another; 0 if there is none.
fn label_at(tuple: &Tuple, rest: &Tuple, place: usize) -> u32
    ensures { result ≡ slice_index (tuple.now ++ rest.now) place }
{
    let count = tuple.as_slice().len();
    if place < count {
        label_in(tuple, place)
    } else {
        label_in(rest, place - count)
    }
}

/// The labels at these places of a tuple followed by another; 0 where there is none.
fn picked(alloc: Global, tuple: &Tuple, rest: &Tuple, places: &[usize]) -> Result<Tuple, AllocError>
    requires { length places.now ≤ MOST_LABELS }
    ensures { IfOk result (λ element. element ≡ picked places.now (tuple.now ++ rest.now)) }
{
    let mut element = Tuple::new(alloc);
    for place in places {
        element.push(alloc, label_at(tuple, rest, *place))?;
    }
    Ok(element)
}

/// Whether a set has one dimension.
fn is_simple<F: ExactField>(store: &Store<F>, set: u32) -> bool
    ensures simple { IsTrue result → IsSimple store.now set }
    ensures other { IsFalse result → length (symbol_of store.now set).domain ≡ 1 → ⊥ }
{
    let _members = store.members(set);
    let _given = store.given(set);
    store.domain_of(set).len() == 1
}

/// Whether each set has one dimension.
pub(crate) fn are_simple<F: ExactField>(store: &Store<F>, sets: &[u32]) -> bool
    ensures simple { IsTrue result → All (IsSimple store.now) sets.now }
    ensures other { IsFalse result → All (λ set. length (symbol_of store.now set).domain ≡ 1) sets.now → ⊥ }
{
    for set in sets {
        if !is_simple(store, *set) {
            return false;
        }
    }
    true
}

/// Whether a set of one dimension has a label.
fn has_label(alloc: Global, members: &TupleSet, label: u32) -> Result<bool, AllocError>
    ensures { IfOk result (λ found. found ≡ has members.now (label ∷ [])) }
{
    let mut member = Tuple::new(alloc);
    member.push(alloc, label)?;
    Ok(members.contains(&member))
}

/// Whether a tuple is an element of the product of sets of one dimension.
fn is_element<F: ExactField>(
    alloc: Global,
    store: &Store<F>,
    sets: &[u32],
    tuple: &Tuple,
) -> Result<bool, AllocError>
    requires { All (IsSimple store.now) sets.now }
    ensures { IfOk result (λ found. found ≡ has (elements store.now sets.now) tuple.now) }
{
    let labels = tuple.as_slice();
    if labels.len() != sets.len() {
        return Ok(false);
    }
    for place in 0..sets.len() {
        if !has_label(alloc, store.members(sets[place]), labels[place])? {
            return Ok(false);
        }
    }
    Ok(true)
}

/// Appends the elements of the product of sets of one dimension that a traversal visits at a tuple.
fn spread<F: ExactField>(
    alloc: Global,
    store: &Store<F>,
    sets: &[u32],
    traversal: &Traversal,
    tuple: &Tuple,
    found: TupleSet,
) -> Result<TupleSet, AllocError>
    requires simple { All (IsSimple store.now) sets.now }
    requires few { length traversal.now.places.items ≤ MOST_LABELS }
    requires counted { traversal.now.spread ≡ length (elements store.now traversal.now.free.items) }
    requires ordered { IsOrdered found }
    ensures members { IfOk result (λ more. (t : List ℕ) → has more t ≡
        (has found t || (has (spread_over store.now traversal.now.free.items traversal.now.places.items tuple.now) t && has (elements store.now sets.now) t))) }
    ensures ordered { IfOk result IsOrdered }
{
    let mut more = found;
    for number in 0..traversal.spread {
        let rest = element(
            alloc,
            store,
            traversal.free.as_slice(),
            traversal.spread,
            number,
        )?;
        let element = picked(alloc, tuple, &rest, traversal.places.as_slice())?;
        if !is_element(alloc, store, sets, &element)? {
            continue;
        }
        more.insert(alloc, element)?;
    }
    Ok(more)
}

/// The elements of the product of sets that a traversal visits; each set has one dimension.
pub(crate) fn gathered<F: ExactField>(
    alloc: Global,
    store: &Store<F>,
    sets: &[u32],
    traversal: &Traversal,
) -> Result<TupleSet, AllocError>
    requires simple { All (IsSimple store.now) sets.now }
    requires few { length traversal.now.places.items ≤ MOST_LABELS }
    requires range { traversal.now.from ≤ traversal.now.upto }
    requires within { traversal.now.upto ≤ length (given_of store.now traversal.now.name) }
    requires counted { traversal.now.spread ≡ length (elements store.now traversal.now.free.items) }
    ensures members { IfOk result (λ found.
        (t : List ℕ) → has found t ≡ (has (traversed store.now traversal.now) t && has (elements store.now sets.now) t)) }
    ensures ordered { IfOk result IsOrdered }
{
    let mut found = TupleSet::new(alloc);
    let given = store.given(traversal.name);
    for place in traversal.from..traversal.upto {
        found = spread(alloc, store, sets, traversal, given.get(place), found)?;
    }
    Ok(found)
}

/// The members of a set of tuples, in order, as a list.
pub(crate) fn listed(alloc: Global, tuples: &TupleSet) -> Result<Vec<Tuple>, AllocError>
    ensures { IfOk result (λ list. list.items ≡ tuples.now) }
{
    let mut list = Vec::new(alloc);
    for place in 0..tuples.len() {
        list.push(tuples.get(place).copy(alloc)?)?;
    }
    Ok(list)
}
