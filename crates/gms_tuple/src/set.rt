//! A set of tuples, stored in order in a balanced tree.
ghost use Rattle.std.specs.Prelude.{◌≡◌, ◌<◌, ◌≤◌, ◌+◌, ◌^◌, ◌↔◌, ◌||◌, ◌&&◌, ℕ, List, [], length, not, slice_get, slice_range, Contains, IsTrue, IsOk, IfOk, IfErr, OnOk, OnErr, Some, false};
ghost use Rattle.gms_tuple.specs.TupleOrder.{same_tuple, IsOrdered};
ghost use Rattle.gms_tuple.specs.TupleSet.{has, place_of_tuple, inserted, removed, set_difference, intersection, count_before, count_with, those_with};
ghost use Rattle.gms_tuple.specs.InnerOperations.{takes};

use crate::line::Line;
use crate::merge::{Operation, combined};
use crate::tuple::Tuple;
use std::alloc::{AllocError, Global};
use std::marker::Model;

/// A set of tuples. Contracts view it as the list of its members: distinct, and in the order of
/// tuples (label by label, a proper prefix first).
///
/// A member is found by its labels or its index, and inserted and removed by its labels, in
/// logarithmic time. A tuple that comes after all members is inserted without a search.
pub struct TupleSet {
    line: Line,
}

// Written out, so that it is proved once, and not in each crate that drops one.
impl Drop for TupleSet {
    fn drop(self) {
        let Self { line: _ } = self;
    }
}

impl Model for TupleSet {
    ghost use Rattle.std.specs.Prelude.{List, ℕ};
    ghost use Rattle.gms_tuple.specs.TupleOrder.{IsOrdered};

    ghost Value = { List (List ℕ) };

    ghost view = { λ s. s.line };

    ghost invariant = { λ s. IsOrdered s.line };
}

impl TupleSet {
    /// A set without members.
    pub fn new(alloc: Global) -> TupleSet
        ensures { result ≡ [] }
    {
        TupleSet {
            line: Line::new(alloc),
        }
    }

    /// How many members the set has.
    pub fn len(&self) -> usize
        ensures len { result ≡ length self.now }
        ensures ordered { IsOrdered self.now }
    {
        self.line.len()
    }

    /// Whether the set has no member.
    pub fn is_empty(&self) -> bool
        ensures { IsTrue result ↔ (self.now ≡ []) }
    {
        self.line.len() == 0
    }

    /// The member at the index `n` in the order of tuples, from 0.
    pub fn get(&self, n: usize) -> &Tuple
        requires { n < length self.now }
        ensures { slice_get self.now n ≡ Some result.now }
    {
        self.line.get(n)
    }

    /// Whether the tuple is a member.
    pub fn contains(&self, t: &Tuple) -> bool
        ensures value { result ≡ has self.now t.now }
        ensures member { IsTrue result ↔ Contains self.now t.now }
        ensures ordered { IsOrdered self.now }
    {
        self.place(t).is_ok()
    }

    /// Inserts `t` in the order of tuples (label by label, a proper prefix first), and returns
    /// true. If `t` is a member, the call only returns false. On the error, out of memory, the set
    /// is unchanged.
    pub fn insert(&mut self, alloc: Global, t: Tuple) -> Result<bool, AllocError>
        ensures new { IfOk result (λ new. new ≡ not (has self.old t)) }
        ensures ok { OnOk result (self.new ≡ inserted self.old t) }
        ensures err { OnErr result (self.new ≡ self.old) }
        ensures known { IsTrue (has self.old t) → IsOk result }

        // The members are the old ones and the tuple, and are in order.
        ensures members { OnOk result
            ((other : List ℕ) → has self.new other ≡ (same_tuple t other || has self.old other)) }
        ensures ordered { IsOrdered self.new }
    {
        let Err(place) = self.place(&t) else {
            return Ok(false);
        };
        if self.line.len() == usize::MAX {
            return Err(AllocError);
        }
        self.line.insert(alloc, place, t)?;
        Ok(true)
    }

    /// Removes a tuple from the set. The result is true if the tuple was a member, and false if it
    /// was not, in which case the set stays as it is.
    pub fn remove(&mut self, t: &Tuple) -> bool
        ensures had { result ≡ has self.old t.now }
        ensures rest { self.new ≡ removed self.old t.now }

        // The members are the old ones other than the tuple, and are in order.
        ensures members { (other : List ℕ) → has self.new other ≡ (has self.old other && not (same_tuple t.now other)) }
        ensures ordered { IsOrdered self.new }
    {
        let Ok(place) = self.place(t) else {
            return false;
        };
        self.line.remove(place);
        true
    }

    /// The range of the indices, from 0, of the members that begin with all labels of `prefix`: the
    /// index of the first such member, and the index after the last one.
    ///
    /// Without such a member both are the index at which `prefix` would be inserted.
    pub fn span(&self, prefix: &Tuple) -> (usize, usize)
        ensures from { result.0 ≡ count_before self.now prefix.now }
        ensures upto { result.1 ≡ result.0 + count_with self.now prefix.now }
        ensures within { result.1 ≤ length self.now }
        ensures range { slice_range self.now result.0 result.1 ≡ those_with self.now prefix.now }
    {
        (
            self.line.count(prefix, false),
            self.line.count(prefix, true),
        )
    }

    /// Where a tuple is in the order of the members. `Ok` has the index of the tuple, from 0, if it
    /// is a member. Otherwise `Err` has the index at which it would be inserted.
    pub fn place(&self, t: &Tuple) -> Result<usize, usize>
        ensures member { IfOk result (λ place. place_of_tuple self.now t.now ≡ Some place) }
        ensures absent { IfErr result (λ place. (has self.now t.now ≡ false) × (place ≡ count_before self.now t.now)) }
        ensures ordered { IsOrdered self.now }
    {
        let place = self.line.count(t, false);
        if place < self.line.len() && self.line.get(place) == t {
            Ok(place)
        } else {
            Err(place)
        }
    }

    /// The set of the tuples that are members of this set, of the set `o`, or of both. The error is
    /// out of memory.
    pub fn union(&self, alloc: Global, o: &TupleSet) -> Result<TupleSet, AllocError>
        ensures members { IfOk result (λ set.
            (t : List ℕ) → has set t ≡ (has self.now t || has o.now t)) }
        ensures ordered { IfOk result IsOrdered }

        // No other list in order has these members.
        ensures only { IfOk result (λ set. (other : List (List ℕ)) → IsOrdered other →
            ((t : List ℕ) → has other t ≡ (has self.now t || has o.now t)) → other ≡ set) }
    {
        self.combined(alloc, Operation::Union, o)
    }

    /// The set of this set's members that are no members of the set `o`. The error is out of
    /// memory.
    pub fn difference(&self, alloc: Global, o: &TupleSet) -> Result<TupleSet, AllocError>
        ensures value { IfOk result (λ set. set ≡ set_difference self.now o.now) }
        ensures members { IfOk result (λ set.
            (t : List ℕ) → has set t ≡ (has self.now t && not (has o.now t))) }
        ensures ordered { IfOk result IsOrdered }
    {
        self.combined(alloc, Operation::Difference, o)
    }

    /// The set of this set's members that are also members of the set `o`. The error is out of
    /// memory.
    pub fn intersection(&self, alloc: Global, o: &TupleSet) -> Result<TupleSet, AllocError>
        ensures value { IfOk result (λ set. set ≡ intersection self.now o.now) }
        ensures members { IfOk result (λ set.
            (t : List ℕ) → has set t ≡ (has self.now t && has o.now t)) }
        ensures ordered { IfOk result IsOrdered }
    {
        self.combined(alloc, Operation::Intersection, o)
    }

    /// A copy of the set. The error is out of memory.
    pub fn copy(&self, alloc: Global) -> Result<TupleSet, AllocError>
        ensures value { IfOk result (λ copy. copy ≡ self.now) }
        ensures ordered { IsOrdered self.now }
    {
        Ok(TupleSet {
            line: self.line.copy(alloc)?,
        })
    }

    /// The result of an operation on this set and `o`.
    fn combined(
        &self,
        alloc: Global,
        operation: Operation,
        o: &TupleSet,
    ) -> Result<TupleSet, AllocError>
        ensures members { IfOk result (λ set.
            (t : List ℕ) → has set t ≡ takes operation (has self.now t) (has o.now t)) }
        ensures ordered { IfOk result IsOrdered }
        ensures first { IsOrdered self.now }
    {
        let first = self.members(alloc)?;
        let second = o.members(alloc)?;
        let mut made = combined(alloc, operation, &first, &second)?;
        let size = made.len();
        Ok(TupleSet {
            line: Line::build(alloc, &mut made, size)?,
        })
    }

    /// Copies of the members, in order.
    fn members(&self, alloc: Global) -> Result<Vec<Tuple>, AllocError>
        ensures value { IfOk result (λ members. members.items ≡ self.now) }
        ensures ordered { IsOrdered self.now }
    {
        let mut members = Vec::with_capacity(alloc, self.line.len())?;
        self.line.push_all(alloc, &mut members)?;
        Ok(members)
    }
}
