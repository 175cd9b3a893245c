//! A list of tuples: a tree, followed by the tuples that were appended last.
ghost use Rattle.std.specs.Prelude.{◌≡◌, ◌<◌, ◌≤◌, ◌+◌, ◌^◌, ◌++◌, [], length, count_by, slice_get, Some, IfOk, OnOk, OnErr};
ghost use Rattle.std.specs.List.{insert, remove};
ghost use Rattle.gms_tuple.specs.TupleOrder.{IsOrdered};
ghost use Rattle.gms_tuple.specs.TupleSet.{is_within};

use crate::tree::{Tree, push_copies};
use crate::tuple::Tuple;
use std::alloc::{AllocError, Global};
use std::marker::Model;

/// How many tuples follow the tree at most.
const MOST_BEHIND: usize = 64;

/// A list of tuples: those of a tree, followed by those of the vector `following`. A tuple is
/// reached, inserted and removed by its index, in logarithmic time. A tuple is appended to
/// `following` without a search. If `following` has 64 tuples (`MOST_BEHIND`), the next insertion
/// moves them into the tree.
pub struct Line {
    tree: Tree,
    following: Vec<Tuple>,
}

// Written out, so that it is proved once, and not in each crate that drops one.
impl Drop for Line {
    fn drop(self) {
        let Self {
            tree: _,
            following: _,
        } = self;
    }
}

impl Model for Line {
    ghost use Rattle.std.specs.Prelude.{List, ℕ, length, ◌++◌, ◌<◌, ◌^◌};

    ghost Value = { List (List ℕ) };

    ghost view = { λ l. l.tree ++ l.following.items };

    ghost invariant = { λ l. length (l.tree ++ l.following.items) < 2 ^ 64 };
}

impl Line {
    /// A list without tuples.
    pub fn new(alloc: Global) -> Line
        ensures { result ≡ [] }
    {
        Line {
            tree: Tree::new(),
            following: Vec::new(alloc),
        }
    }

    /// How many tuples the list has.
    pub fn len(&self) -> usize
        ensures { result ≡ length self.now }
    {
        self.tree.len() + self.following.len()
    }

    /// The tuple at the index `place`, from 0.
    pub fn get(&self, place: usize) -> &Tuple
        requires { place < length self.now }
        ensures { slice_get self.now place ≡ Some result.now }
    {
        let before = self.tree.len();
        if place < before {
            self.tree.get(place)
        } else {
            &self.following[place - before]
        }
    }

    /// How many tuples of this list come before `t` in the order of tuples: label by label, a
    /// proper prefix first. If `through`, the tuples that begin with all labels of `t` are counted
    /// as well. The list is required to be in this order, without repetition.
    pub fn count(&self, t: &Tuple, through: bool) -> usize
        requires { IsOrdered self.now }
        ensures { result ≡ count_by (is_within through t.now) self.now }
    {
        let Some(last) = self.following.last() else {
            return self.tree.count(t, through);
        };
        if last.is_within(t, through) {
            return self.len();
        }
        if !self.following[0].is_within(t, through) {
            return self.tree.count(t, through);
        }
        let within = self
            .following
            .partition_point(|other| other.is_within(t, through));
        self.tree.len() + within
    }

    /// Moves the tuples of `following` into the tree, if they are many. No tuple changes its index.
    fn settle(&mut self, alloc: Global) -> Result<(), AllocError>
        ensures { self.new ≡ self.old }
    {
        if self.following.len() < MOST_BEHIND {
            return Ok(());
        }
        self.tree.take_in(alloc, &mut self.following)
    }

    /// Inserts a tuple at the index `place`, from 0; the tuples from there on move up by one index.
    /// If memory runs out, the list is unchanged.
    pub fn insert(&mut self, alloc: Global, place: usize, tuple: Tuple) -> Result<(), AllocError>
        requires place { place ≤ length self.old }
        requires within_bound { length self.old + 1 < 2 ^ 64 }
        ensures ok { OnOk result (self.new ≡ insert self.old place tuple) }
        ensures err { OnErr result (self.new ≡ self.old) }
    {
        self.settle(alloc)?;
        let before = self.tree.len();
        if place < before {
            self.tree.insert(alloc, place, tuple)?;
        } else {
            self.following.insert(place - before, tuple)?;
        }
        Ok(())
    }

    /// Removes the tuple at the index `place`, from 0.
    pub fn remove(&mut self, place: usize)
        requires { place < length self.old }
        ensures { self.new ≡ remove self.old place }
    {
        let before = self.tree.len();
        if place < before {
            self.tree.remove(place);
        } else {
            let _taken = self.following.remove(place - before);
        }
    }

    /// A copy of the list. The error is out of memory.
    pub fn copy(&self, alloc: Global) -> Result<Line, AllocError>
        ensures { IfOk result (λ copy. copy ≡ self.now) }
    {
        let tree = self.tree.copy(alloc)?;
        let mut following = Vec::with_capacity(alloc, self.following.len())?;
        push_copies(alloc, &self.following, &mut following)?;
        Ok(Line { tree, following })
    }

    /// Appends a copy of each tuple of this list, in order, to `list`. The error is out of memory.
    pub fn push_all(&self, alloc: Global, list: &mut Vec<Tuple>) -> Result<(), AllocError>
        ensures { OnOk result (list.new.items ≡ list.old.items ++ self.now) }
    {
        self.tree.push_all(alloc, list)?;
        push_copies(alloc, &self.following, list)
    }

    /// A list of the last `size` tuples of `tuples`, in their order. They are moved out of
    /// `tuples`, which keeps the tuples before them. The error is out of memory.
    pub fn build(alloc: Global, tuples: &mut Vec<Tuple>, size: usize) -> Result<Line, AllocError>
        requires { size ≤ length tuples.old.items }
        ensures { IfOk result (λ line. (tuples.old.items ≡ tuples.new.items ++ line) × (length line ≡ size)) }
    {
        Ok(Line {
            tree: Tree::build(alloc, tuples, size)?,
            following: Vec::new(alloc),
        })
    }
}
