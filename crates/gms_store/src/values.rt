//! Values at tuples: a finite map in two parts.
ghost use Rattle.std.specs.Prelude.{◌≡◌, ◌<◌, ◌++◌, ◌∷◌, [], ℕ, List, length, IsTrue, IfSome, IfNone, OnOk, OnErr, set};
ghost use Rattle.std.specs.Map.{keys_of};
ghost use Rattle.std.specs.FinMap as finite;
ghost use Rattle.gms_tuple.specs.TupleOrder.{tuple_cmp, IsOrdered};
ghost use Rattle.gms_store.specs.InnerParts.{IsAtPlace};

use gms_tuple::Tuple;
use std::alloc::{AllocError, Global};
use std::cmp::Ordering;
use std::collections::BTreeMap;
use std::marker::Model;

/// Values at tuples. A value at a tuple after all others is appended to `following` without a
/// search, and takes precedence over the one in the tree. A removed value leaves `None` in
/// `following`.
pub(crate) struct Values<X> {
    tree: BTreeMap<Tuple, X>,
    following: Vec<(Tuple, Option<X>)>,
}

// Written out, so that it is proved here once, and not in each crate that drops such a value.
impl<X: Drop> Drop for Values<X> {
    fn drop(self) {
        let Self {
            tree: _,
            following: _,
        } = self;
    }
}

impl<X> Model for Values<X> {
    ghost use Rattle.std.specs.Coded.{coded_list, coded_ℕ};
    ghost use Rattle.std.specs.Map.{keys_of};
    ghost use Rattle.std.specs.FinMap as finite;
    ghost use Rattle.gms_tuple.specs.TupleOrder.{tuple_cmp, IsOrdered};
    ghost use Rattle.gms_store.specs.InnerParts.{in_two_parts};

    ghost Value = { finite.FinMap tuple_cmp X };

    ghost coded = { finite.code (coded_list coded_ℕ) X.code };

    ghost view = { λ v. in_two_parts v.following.items v.tree.entries };

    ghost invariant = { λ v. IsOrdered (keys_of v.following.items) };
}

impl<X: Copy> Values<X> {
    /// The map that has no value at any tuple.
    pub fn new(alloc: Global) -> Values<X>
        ensures { result ≡ finite.empty }
    {
        Values {
            tree: BTreeMap::new(alloc),
            following: Vec::new(alloc),
        }
    }

    /// The value at a tuple; `None` if the map has no value there.
    pub fn get(&self, t: &Tuple) -> Option<X>
        ensures { result ≡ finite.get self.now t.now }
    {
        match place_in(&self.following, t) {
            Some(place) => self.following[place].1,
            None => self.tree.get(t).copied(),
        }
    }

    /// The value at the tuple `t`; `None` if the map has none there. `place` affects speed only: no
    /// search is made if `t` has the index `place`, from 0, in `following`, the list of the values
    /// that were appended in the order of tuples.
    pub fn get_near(&self, t: &Tuple, place: usize) -> Option<X>
        ensures { result ≡ finite.get self.now t.now }
    {
        if is_at_place(&self.following, place, t) {
            return self.following[place].1;
        }
        self.get(t)
    }

    /// Puts a value at a tuple, in place of the value there, if any. If out of memory, the map is
    /// unchanged.
    pub fn insert(&mut self, alloc: Global, t: &Tuple, value: X) -> Result<(), AllocError>
        ensures ok { OnOk result (self.new ≡ finite.insert self.old t.now value) }
        ensures err { OnErr result (self.new ≡ self.old) }
    {
        if comes_last(&self.following, t) {
            let tuple = t.copy(alloc)?;
            self.following.push((tuple, Some(value)))?;
            return Ok(());
        }
        if let Some(place) = place_in(&self.following, t) {
            put_at(&mut self.following, place, Some(value));
            return Ok(());
        }
        let tuple = t.copy(alloc)?;
        self.tree.insert(tuple, value)?;
        Ok(())
    }

    /// Removes the value at a tuple, if the map has one there.
    pub fn remove(&mut self, t: &Tuple)
        ensures { self.new ≡ finite.remove self.old t.now }
    {
        match place_in(&self.following, t) {
            Some(place) => put_at(&mut self.following, place, None),
            None => {
                self.tree.remove(t);
            }
        }
    }
}

/// Whether the index `place` of the list has this tuple.
fn is_at_place<X>(following: &[(Tuple, Option<X>)], place: usize, t: &Tuple) -> bool
    ensures { IsTrue result → IsAtPlace following.now place t.now }
{
    match following.get(place) {
        Some(entry) => entry.0 == *t,
        None => false,
    }
}

/// The index of a tuple in an ordered list; `None` if the list does not have it.
fn place_in<X>(following: &[(Tuple, Option<X>)], t: &Tuple) -> Option<usize>
    requires { IsOrdered (keys_of following.now) }
    ensures there { IfSome result (λ place. IsAtPlace following.now place t.now) }
    ensures absent { IfNone result (finite.find tuple_cmp t.now following.now ≡ None) }
{
    match following.binary_search_by(|entry| entry.0.order(t)) {
        Ok(place) => Some(place),
        Err(_) => None,
    }
}

/// Whether a tuple comes after all tuples that are in order.
fn comes_last<X>(following: &[(Tuple, Option<X>)], t: &Tuple) -> bool
    requires { IsOrdered (keys_of following.now) }
    ensures { IsTrue result → IsOrdered (keys_of following.now ++ t.now ∷ []) }
{
    match following.last() {
        Some(last) => last.0.order(t) == Ordering::Less,
        None => true,
    }
}

/// Puts a value, or `None`, at the index `place` of the list.
fn put_at<X: Copy>(following: &mut Vec<(Tuple, Option<X>)>, place: usize, value: Option<X>)
    requires { place < length following.old.items }
    ensures { (t : List ℕ) → IsAtPlace following.old.items place t → following.new.items ≡ set following.old.items place (t, value) }
{
    following[place].1 = value;
}
