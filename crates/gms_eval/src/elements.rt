//! The elements of the product of sets, by their indices.
ghost use Rattle.std.specs.Prelude.{◌≡◌, ◌<◌, [], min, length, slice_index_or, IfOk, OnOk};
ghost use Rattle.gms_eval.specs.Domain.{most_counted, elements, sized};
ghost use Rattle.gms_eval.specs.Gives.{Gives};
ghost use Rattle.gms_eval.specs.InnerContracts.{those_of, IsCounted, with_element};

use crate::binding::Binding;
use crate::indices::label_at;
use crate::stop::ExecStopOrMemory;
use gms_labels::Place;
use gms_store::Store;
use gms_tuple::{MOST_LABELS, Tuple};
use gq_field::ExactField;
use std::alloc::{AllocError, Global};

/// How many elements the product of the sets of a domain may have at most.
pub(crate) const MOST_ELEMENTS: u64 = 16_777_216;

/// How many elements the product of sets has, or the greatest `u64` if they are more.
pub(crate) fn count<F: ExactField>(store: &Store<F>, sets: &[u32]) -> u64
    ensures { result ≡ min (length (elements store.now sets.now)) most_counted }
{
    if sets.len() > MOST_LABELS {
        return 0;
    }
    let mut count: u64 = 1;
    for set in sets {
        count = count.saturating_mul(store.members(*set).len() as u64);
    }
    count
}

/// How many elements the product of sets has. The error `DomainSize` comes if and only if they are
/// more than 16,777,216.
#[inline(never)]
pub(crate) fn size<F: ExactField>(
    alloc: Global,
    store: &Store<F>,
    sets: &[u32],
    at: Place,
    b: &Binding,
) -> Result<usize, ExecStopOrMemory<F>>
    ensures value { Gives F.value (λ size. elements store.now sets.now) result (sized at b.now (elements store.now sets.now)) }
    ensures count { IfOk result (λ size. size ≡ length (elements store.now sets.now)) }
{
    let count = count(store, sets);
    if count > MOST_ELEMENTS {
        return Err(ExecStopOrMemory::too_large(alloc, at, count, b));
    }
    Ok(count as usize)
}

/// The element at the index `number` among the `size` elements of the product of sets.
pub(crate) fn element<F: ExactField>(
    alloc: Global,
    store: &Store<F>,
    sets: &[u32],
    size: usize,
    number: usize,
) -> Result<Tuple, AllocError>
    requires size { size ≡ length (elements store.now sets.now) }
    requires below { number < size }
    ensures { IfOk result (λ element. element ≡ slice_index_or (elements store.now sets.now) number []) }
{
    let mut element = Tuple::new(alloc);
    let mut size = size;
    let mut number = number;
    for set in sets {
        let members = store.members(*set);
        size /= members.len();
        element.push(alloc, label_at(members, number / size))?;
        number %= size;
    }
    Ok(element)
}

/// All elements of the product of sets, which are `size`, in order.
pub(crate) fn all<F: ExactField>(
    alloc: Global,
    store: &Store<F>,
    sets: &[u32],
    size: usize,
) -> Result<Vec<Tuple>, AllocError>
    requires size { size ≡ length (elements store.now sets.now) }
    ensures { IfOk result (λ all. all.items ≡ elements store.now sets.now) }
{
    let mut all = Vec::new(alloc);
    for number in 0..size {
        all.push(element(alloc, store, sets, size, number)?)?;
    }
    Ok(all)
}

/// Appends an element to `those` if `holds`.
#[inline(never)]
pub(crate) fn keep(those: &mut Vec<Tuple>, element: Tuple, holds: bool) -> Result<(), AllocError>
    ensures { OnOk result (those.new.items ≡ with_element those.old.items element holds) }
{
    if holds {
        those.push(element)?;
    }
    Ok(())
}

/// The elements at which a condition is to be tested.
#[derive(Drop)]
pub(crate) enum Elements {
    /// All elements of the product of the sets, with their number.
    Every(usize),
    /// The listed elements.
    Those(Vec<Tuple>),
}

impl Elements {
    /// How many elements there are.
    pub(crate) fn count<F: ExactField>(&self, store: &Store<F>, sets: &[u32]) -> usize
        requires { IsCounted store.now sets.now self.now }
        ensures { result ≡ length (those_of store.now sets.now self.now) }
    {
        match self {
            Elements::Every(size) => *size,
            Elements::Those(those) => those.len(),
        }
    }

    /// The element at the index `number`.
    pub(crate) fn element<F: ExactField>(
        &self,
        alloc: Global,
        store: &Store<F>,
        sets: &[u32],
        number: usize,
    ) -> Result<Tuple, AllocError>
        requires counted { IsCounted store.now sets.now self.now }
        requires below { number < length (those_of store.now sets.now self.now) }
        ensures { IfOk result (λ element. element ≡ slice_index_or (those_of store.now sets.now self.now) number []) }
    {
        match self {
            Elements::Every(size) => element(alloc, store, sets, *size, number),
            Elements::Those(those) => those[number].copy(alloc),
        }
    }
}
