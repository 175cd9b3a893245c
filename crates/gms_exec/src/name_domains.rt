//! The elements of the domain of a name, by their indices.
ghost use Rattle.std.specs.Prelude.{◌≡◌, ◌<◌, [], map, length, min, slice_index_or, IfOk};
ghost use Rattle.gms_store.specs.State.{symbol_of};
ghost use Rattle.gms_eval.specs.Domain.{most_counted};
ghost use Rattle.gms_eval.specs.Lag.{label_of_element};
ghost use Rattle.gms_exec.specs.Showing.{labels_at, elements_at};

use gms_store::Store;
use gms_tuple::{MOST_LABELS, Tuple, TupleSet};
use gq_field::ExactField;
use std::alloc::{AllocError, Global};

/// The label at a place of a set of one dimension.
fn label_of(members: &TupleSet, place: usize) -> u32
    requires { place < length members.now }
    ensures { result ≡ slice_index_or (map label_of_element members.now) place 0 }
{
    match members.get(place).as_slice().first() {
        Some(label) => *label,
        None => 0,
    }
}

/// The label of a number among those of a program.
fn label_numbered(labels: u32, number: usize) -> u32
    requires { number < labels }
    ensures { result ≡ number }
{
    number as u32
}

/// The domain of a name: the set of each position, `None` for one that admits any label of the
/// program, which has `labels` labels.
#[derive(Clone, Copy)]
pub(crate) struct NameDomain<'s, F: ExactField> {
    store: &'s Store<F>,
    labels: u32,
    positions: &'s [Option<u32>],
}

impl<'s, F: ExactField> NameDomain<'s, F> {
    /// The domain of a name of a program that has `labels` labels.
    pub(crate) fn new(store: &'s Store<F>, labels: u32, name: u32) -> NameDomain<'s, F>
        ensures store { result.store.now ≡ store.now }
        ensures labels { result.labels ≡ labels }
        ensures positions { result.positions.now ≡ (symbol_of store.now name).domain }
    {
        NameDomain {
            store,
            labels,
            positions: store.domain_of(name),
        }
    }

    /// How many labels may occur at a position.
    fn count_at(&self, position: Option<u32>) -> usize
        ensures { result ≡ length (labels_at self.now.labels self.now.store.now position) }
    {
        match position {
            Some(set) => self.store.members(set).len(),
            None => self.labels as usize,
        }
    }

    /// The label of a number among those that may occur at a position.
    fn label_at(&self, position: Option<u32>, number: usize) -> u32
        requires { number < length (labels_at self.now.labels self.now.store.now position) }
        ensures { result ≡ slice_index_or (labels_at self.now.labels self.now.store.now position) number 0 }
    {
        match position {
            Some(set) => label_of(self.store.members(set), number),
            None => label_numbered(self.labels, number),
        }
    }

    /// How many elements the domain has, or the greatest `u64` if they are more.
    pub(crate) fn count(&self) -> u64
        ensures { result ≡ min (length (elements_at self.now.labels self.now.store.now self.now.positions.now)) most_counted }
    {
        if self.positions.len() > MOST_LABELS {
            return 0;
        }
        let mut count: u64 = 1;
        for position in self.positions {
            let labels = self.count_at(*position);
            count = count.saturating_mul(labels as u64);
        }
        count
    }

    /// The element at the index `number` among the `size` elements of the domain.
    pub(crate) fn element(
        &self,
        alloc: Global,
        size: usize,
        number: usize,
    ) -> Result<Tuple, AllocError>
        requires size { size ≡ length (elements_at self.now.labels self.now.store.now self.now.positions.now) }
        requires below { number < size }
        ensures { IfOk result (λ element. element ≡ slice_index_or (elements_at self.now.labels self.now.store.now self.now.positions.now) number []) }
    {
        let mut element = Tuple::new(alloc);
        let mut size = size;
        let mut number = number;
        for position in self.positions {
            let labels = self.count_at(*position);
            size /= labels;
            let label = self.label_at(*position, number / size);
            element.push(alloc, label)?;
            number %= size;
        }
        Ok(element)
    }
}
