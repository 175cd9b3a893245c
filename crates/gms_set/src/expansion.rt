//! The tuples that are given so far.
ghost use Rattle.std.specs.Prelude.{◌≡◌, ◌≤◌, ◌++◌, ◌∷◌, [], false, not, length, None, IfOk, IsTrue};
ghost use Rattle.gms_tuple.specs.TupleSet.{has};
ghost use Rattle.gms_tuple.specs.Products.{tuple_product};
ghost use Rattle.gms_set.specs.Expansion.{error_of, has_repeat, tuples_of, tuples_with_value};

use crate::fault::SetError;
use crate::outside::has_outside;
use crate::product::{count, tuple_at};
use crate::seen::see;
use gms_ast::{Item, Sequence};
use gms_store::Store;
use gms_tuple::{Tuple, TupleSet};
use gq_extended::Ext;
use gq_field::ExactField;
use std::alloc::{AllocError, Global};
use std::marker::Model;

/// How many tuples the data of a symbol may have at most.
pub(crate) const MOST_TUPLES: usize = 1_048_576;

/// The tuples that the items of a data list gave so far, each with the value of its item. No tuple
/// occurs twice.
///
/// `seen` is the set of all these tuples. It may be `None` if each tuple is greater than the one
/// before it. Tuples compare by the numbers of the first labels that differ; a prefix is less.
#[derive(Drop)]
pub struct Expansion<F> {
    given: Vec<(Tuple, Option<Ext<F>>)>,
    seen: Option<TupleSet>,
}

impl<F> Model for Expansion<F> {
    ghost use Rattle.std.specs.Prelude.{◌≡◌, false};
    ghost use Rattle.gms_set.specs.Expansion.{ExpandedData, has_repeat, tuples_of};
    ghost use Rattle.gms_set.specs.InnerGiven.{AreGiven};

    ghost Value = { ExpandedData F };

    ghost view = { λ e. e.given.items };

    ghost invariant = { λ e. AreGiven e.seen (tuples_of e.given.items) × (has_repeat (tuples_of e.given.items) ≡ false) };
}

impl<F: ExactField> Expansion<F> {
    /// The expansion before the first item: no tuples.
    pub fn new(alloc: Global) -> Expansion<F>
        ensures { result ≡ [] }
    {
        Expansion {
            given: Vec::new(alloc),
            seen: None,
        }
    }

    /// The tuples in the order of the data, each with the value of its item, or `None` if the item
    /// gives no value.
    pub fn into_given(self) -> Vec<(Tuple, Option<Ext<F>>)>
        ensures { result.items ≡ self }
    {
        let Expansion { given, seen } = self;
        drop(seen);
        given
    }

    /// Appends the tuples of `item`, each with the item's value; the last position varies fastest.
    /// `Ok(None)`: the item has no error. `Ok(Some(e))`: e is the item's first error in this order:
    /// a label that the set of its position does not have; two labels that are no range; more than
    /// 1,048,576 tuples in all, with those so far; a tuple that the item repeats, or that was given
    /// before. `Err`: out of memory. In the last two cases no contract states which tuples were
    /// appended.
    ///
    /// `domain` has the set of each position, `None` for a position that admits any label; `store`
    /// has the members of these sets. The item must have one list of labels for each position, and
    /// at most ten positions.
    pub fn add(
        &mut self,
        alloc: Global,
        item: &Item<F>,
        domain: &[Option<u32>],
        store: &Store<F>,
    ) -> Result<Option<SetError>, AllocError>
        requires parts { length item.now.parts ≡ length domain.now }
        requires few { length domain.now ≤ 10 }
        ensures error { IfOk result (λ error. error ≡ error_of store.now domain.now (tuples_of self.old) item.now) }
        ensures given { IfOk result (λ error. error ≡ None → self.new ≡ self.old ++ tuples_with_value item.now.value (tuple_product item.now.parts)) }
    {
        let parts = item.parts.as_slice();
        if has_outside(alloc, store, domain, parts)? {
            return Ok(Some(SetError::Outside));
        }
        if item.bad_range {
            return Ok(Some(SetError::BadRange));
        }
        let count = count(parts);
        if self.given.len().saturating_add(count) > MOST_TUPLES {
            return Ok(Some(SetError::Full));
        }
        if self.add_product(alloc, parts, count, item.value)? {
            Ok(None)
        } else {
            Ok(Some(SetError::Repeated))
        }
    }

    /// Appends the tuples of a product, each with this value. The result is false if one of them
    /// occurs twice.
    fn add_product(
        &mut self,
        alloc: Global,
        parts: &[Sequence<u32>],
        count: usize,
        value: Option<Ext<F>>,
    ) -> Result<bool, AllocError>
        requires distinct { has_repeat (tuples_of self.old) ≡ false }
        requires count { count ≡ length (tuple_product parts.now) }
        requires few { length parts.now ≤ 10 }
        ensures new { IfOk result (λ new. new ≡ not (has_repeat (tuples_of self.old ++ tuple_product parts.now))) }
        ensures given { IfOk result (λ new. IsTrue new → self.new ≡ self.old ++ tuples_with_value value (tuple_product parts.now)) }
    {
        self.given.reserve(count)?;
        for place in 0..count {
            let tuple = tuple_at(alloc, parts, count, place)?;
            if !self.add_tuple(alloc, tuple, value)? {
                return Ok(false);
            }
        }
        Ok(true)
    }

    /// Appends a tuple with this value. The result is false if it occurred before.
    fn add_tuple(
        &mut self,
        alloc: Global,
        tuple: Tuple,
        value: Option<Ext<F>>,
    ) -> Result<bool, AllocError>
        ensures new { IfOk result (λ new. new ≡ not (has (tuples_of self.old) tuple)) }
        ensures given { IfOk result (λ new. IsTrue new → self.new ≡ self.old ++ (tuple, value) ∷ []) }
        ensures distinct { has_repeat (tuples_of self.new) ≡ false }
    {
        self.given.reserve(1)?;
        if !see(alloc, &mut self.seen, &self.given, &tuple)? {
            return Ok(false);
        }
        self.given.push((tuple, value))?;
        Ok(true)
    }
}
