//! Tuples in a list, stored in a balanced tree of blocks.
ghost use Rattle.std.specs.Prelude.{◌≡◌, ◌<◌, ◌≤◌, ◌+◌, ◌^◌, ◌++◌, ◌∷◌, [], length, count_by, get_or, slice_get, Some, true, IfOk, IfSome, IfNone, OnOk, OnErr};
ghost use Rattle.std.specs.declared.cmp.Ordering.TheVariants.{Less, Equal, Greater};
ghost use Rattle.std.specs.List.{insert, remove};
ghost use Rattle.gms_tuple.specs.TupleOrder.{IsOrdered};
ghost use Rattle.gms_tuple.specs.TupleSet.{is_within};
ghost use Rattle.gms_tuple.specs.InnerTrees.{tuples, listed, IsFork, IsCounted, IsSingle};

use crate::tuple::Tuple;
use std::alloc::{AllocError, Global};
use std::cmp::Ordering;
use std::marker::Model;
use std::mem;

/// How many tuples the block of a fork has at most. A longer block is split into two forks.
const MOST_OWN: usize = 64;

/// A list of tuples, stored as a binary tree. A tuple is reached, inserted and removed by its
/// index, in time proportional to the depth of the tree. Neither subtree of an inner node (a fork)
/// has more than about three times as many tuples as the other, so the depth is logarithmic in the
/// number of tuples.
#[cycle(tree)]
#[derive(Drop)]
pub struct Tree {
    node: Node,
}

#[cycle(tree)]
#[derive(Drop)]
enum Node {
    Leaf,
    Fork(Box<Fork>),
}

/// An inner node of a tree: a block of tuples `own`, with the tuples before it in `left` and those
/// after it in `right`. `size` is the number of the tuples of all three together.
#[cycle(tree)]
#[derive(Drop)]
pub struct Fork {
    left: Tree,
    own: Vec<Tuple>,
    right: Tree,
    size: usize,
}

impl Model for Tree {
    ghost use Rattle.std.specs.Prelude.{ℕ, List, length};

    ghost Value = { List (List ℕ) };

    ghost use Rattle.gms_tuple.specs.InnerTrees.{tuples, IsCounted};

    ghost view = { λ t. tuples t.node };

    ghost invariant = { λ t. IsCounted t.node };

    ghost size = { length };

    ghost use Rattle.std.proofs.Common.{arith, length-append};

    ghost size_decreases = { λ t h. Prim.grind (arith, length-append) };
}

impl Tree {
    /// A tree without tuples.
    pub fn new() -> Tree
        ensures { result ≡ [] }
    {
        Tree { node: Node::Leaf }
    }

    /// The tree of a fork.
    fn of(fork: Box<Fork>) -> Tree
        requires { IsFork fork.value }
        ensures { result ≡ listed fork.value }
    {
        Tree {
            node: Node::Fork(fork),
        }
    }

    /// Moves all tuples out.
    fn take(&mut self) -> Tree
        ensures all { result ≡ self.old }
        ensures none { self.new ≡ [] }
    {
        mem::replace(self, Tree::new())
    }

    /// The root.
    fn into_node(self) -> Node
        ensures tuples { tuples result ≡ self }
        ensures counted { IsCounted result }
    {
        self.node
    }

    /// How many tuples the tree has.
    pub fn len(&self) -> usize
        ensures { result ≡ length self.now }
    {
        match &self.node {
            Node::Leaf => 0,
            Node::Fork(fork) => fork.size,
        }
    }

    /// The tuple at the index `place`, from 0.
    pub fn get(&self, place: usize) -> &Tuple
        requires { place < length self.now }
        ensures { slice_get self.now place ≡ Some result.now }
    {
        let Node::Fork(fork) = &self.node else {
            unreachable!()
        };
        let before = fork.left.len();
        if place < before {
            return fork.left.get(place);
        }
        let rest = place - before;
        if rest < fork.own.len() {
            &fork.own[rest]
        } else {
            fork.right.get(rest - fork.own.len())
        }
    }

    /// How many tuples of this tree come before `t` in the order of tuples: label by label, a
    /// proper prefix first. If `through`, the tuples that begin with all labels of `t` are counted
    /// as well. The tree is required to be in this order, without repetition.
    pub fn count(&self, t: &Tuple, through: bool) -> usize
        requires { IsOrdered self.now }
        ensures { result ≡ count_by (is_within through t.now) self.now }
    {
        let Node::Fork(fork) = &self.node else {
            return 0;
        };
        if !fork.own[0].is_within(t, through) {
            return fork.left.count(t, through);
        }
        let after = fork.right.count(t, through);
        fork.count_past(t, through, after)
    }

    /// Inserts a tuple at the index `place`, from 0; the tuples from there on move up by one index.
    /// If memory runs out, the list is unchanged.
    pub fn insert(&mut self, alloc: Global, place: usize, tuple: Tuple) -> Result<(), AllocError>
        requires place { place ≤ length self.old }
        requires within_bound { length self.old + 1 < 2 ^ 64 }
        ensures ok { OnOk result (self.new ≡ insert self.old place tuple) }
        ensures err { OnErr result (self.new ≡ self.old) }
    {
        let Node::Fork(mut fork) = self.take().into_node() else {
            *self = Tree::single(alloc, tuple)?;
            return Ok(());
        };
        let put = match fork.side(place) {
            Ordering::Less => fork.left.insert(alloc, place, tuple),
            Ordering::Equal => {
                let before = fork.left.len();
                fork.insert_own(alloc, place - before, tuple)
            }
            Ordering::Greater => {
                let upto = fork.left.len() + fork.own.len();
                fork.right.insert(alloc, place - upto, tuple)
            }
        };
        *self = Tree::made(fork);
        put
    }

    /// Removes the tuple at the index `place`, from 0.
    pub fn remove(&mut self, place: usize)
        requires place { place < length self.old }
        requires within_bound { length self.old < 2 ^ 64 }
        ensures { self.new ≡ remove self.old place }
    {
        let Node::Fork(mut fork) = self.take().into_node() else {
            unreachable!()
        };
        let before = fork.left.len();
        let upto = before + fork.own.len();
        if place < before {
            fork.left.remove(place);
        } else if place < upto {
            let _taken = fork.own.remove(place - before);
        } else {
            fork.right.remove(place - upto);
        }
        *self = Tree::made(fork);
    }

    /// The tree of one tuple.
    fn single(alloc: Global, tuple: Tuple) -> Result<Tree, AllocError>
        ensures { IfOk result (λ tree. tree ≡ tuple ∷ []) }
    {
        let mut own = Vec::new(alloc);
        own.push(tuple)?;
        let fork = Fork::single(alloc, own)?;
        Ok(Tree::of(fork))
    }

    /// The tree of a fork. If its block is empty the sides are joined; the number of tuples is
    /// counted.
    fn made(mut fork: Box<Fork>) -> Tree
        requires { length (listed fork.value) < 2 ^ 64 }
        ensures { result ≡ listed fork.value }
    {
        let size = fork.left.len() + fork.own.len() + fork.right.len();
        if fork.own.is_empty() {
            return Tree::joined(fork.left.take(), fork.right.take(), size);
        }
        fork.size = size;
        fork.balance();
        Tree::of(fork)
    }

    /// Puts the tuples of a fork without sides before all others.
    fn prepend(&mut self, new: Box<Fork>)
        requires within_bound { length new.value.own.items + length self.old < 2 ^ 64 }
        requires single { IsSingle new.value }
        ensures { self.new ≡ new.value.own.items ++ self.old }
    {
        let Node::Fork(mut fork) = self.take().into_node() else {
            *self = Tree::made(new);
            return;
        };
        fork.left.prepend(new);
        *self = Tree::made(fork);
    }

    /// The tuples of two trees in sequence; their number is `size`.
    fn joined(left: Tree, mut right: Tree, size: usize) -> Tree
        requires { size ≡ length left + length right }
        ensures { result ≡ left ++ right }
    {
        let Some(mut fork) = right.take_first() else {
            return left;
        };
        fork.left = left;
        fork.right = right;
        fork.size = size;
        fork.balance();
        Tree::of(fork)
    }

    /// Removes the first block, and answers it in a fork in which only the block counts.
    fn take_first(&mut self) -> Option<Box<Fork>>
        ensures first { IfSome result (λ fork. self.old ≡ fork.value.own.items ++ self.new) }
        ensures some { IfSome result (λ fork. 0 < length fork.value.own.items) }
        ensures none { IfNone result (self.old ≡ []) }
    {
        let Node::Fork(mut fork) = self.take().into_node() else {
            return None;
        };
        let Some(first) = fork.left.take_first() else {
            *self = fork.right.take();
            return Some(fork);
        };
        fork.size -= first.own.len();
        fork.balance();
        *self = Tree::of(fork);
        Some(first)
    }

    /// A copy of the tree: another tree of the same tuples, in the same order. The error is out of
    /// memory.
    pub fn copy(&self, alloc: Global) -> Result<Tree, AllocError>
        ensures { IfOk result (λ copy. copy ≡ self.now) }
    {
        let Node::Fork(fork) = &self.node else {
            return Ok(Tree::new());
        };
        let mut own = Vec::with_capacity(alloc, fork.own.len())?;
        push_copies(alloc, &fork.own, &mut own)?;
        let copy = Fork {
            left: fork.left.copy(alloc)?,
            own,
            right: fork.right.copy(alloc)?,
            size: fork.size,
        };
        Ok(Tree::of(Box::new(alloc, copy)?))
    }

    /// Appends a copy of each tuple of this tree, in order, to `list`. The error is out of memory.
    pub fn push_all(&self, alloc: Global, list: &mut Vec<Tuple>) -> Result<(), AllocError>
        ensures { OnOk result (list.new.items ≡ list.old.items ++ self.now) }
    {
        let Node::Fork(fork) = &self.node else {
            return Ok(());
        };
        fork.left.push_all(alloc, list)?;
        push_copies(alloc, &fork.own, list)?;
        fork.right.push_all(alloc, list)
    }

    /// A tree of the last `size` tuples of `tuples`, in their order. They are moved out of
    /// `tuples`, which keeps the tuples before them. The error is out of memory.
    pub fn build(alloc: Global, tuples: &mut Vec<Tuple>, size: usize) -> Result<Tree, AllocError>
        requires { size ≤ length tuples.old.items }
        ensures { IfOk result (λ tree. (tuples.old.items ≡ tuples.new.items ++ tree) × (length tree ≡ size)) }
    {
        if size == 0 {
            return Ok(Tree::new());
        }
        let most = size.min(MOST_OWN);
        let before = (size - most) / 2;
        let right = Tree::build(alloc, tuples, size - most - before)?;
        let own = tuples.split_off(tuples.len() - most)?;
        let left = Tree::build(alloc, tuples, before)?;
        let fork = Fork {
            left,
            own,
            right,
            size,
        };
        Ok(Tree::of(Box::new(alloc, fork)?))
    }

    /// Appends the tuples of the vector `following` to this tree, and empties the vector. If memory
    /// runs out, both the tree and the vector are unchanged.
    pub fn take_in(&mut self, alloc: Global, following: &mut Vec<Tuple>) -> Result<(), AllocError>
        requires { length self.old + length following.old.items < 2 ^ 64 }
        ensures ok { OnOk result ((self.new ≡ self.old ++ following.old.items) × (following.new.items ≡ [])) }
        ensures err { OnErr result ((self.new ≡ self.old) × (following.new.items ≡ following.old.items)) }
    {
        let mut fork = Fork::single(alloc, Vec::new(alloc))?;
        fork.size = following.len();
        mem::swap(&mut fork.own, following);
        self.append(Tree::made(fork));
        Ok(())
    }

    /// Appends the tuples of the tree `following`.
    pub fn append(&mut self, following: Tree)
        requires { length self.old + length following < 2 ^ 64 }
        ensures { self.new ≡ self.old ++ following }
    {
        let size = self.len() + following.len();
        let Node::Fork(mut fork) = self.take().into_node() else {
            *self = following;
            return;
        };
        if fork.size / 2 < following.len() {
            *self = Tree::joined(Tree::of(fork), following, size);
            return;
        }
        fork.right.append(following);
        fork.size = size;
        fork.balance();
        *self = Tree::of(fork);
    }

    /// Rotates the right side of the tree up if it is the longer one, or else the left one if that
    /// is longer.
    fn lean(&mut self, to_left: bool)
        ensures { self.new ≡ self.old }
    {
        let Node::Fork(fork) = &mut self.node else {
            return;
        };
        let left = fork.left.len();
        let right = fork.right.len();
        if to_left && is_longer(right, left) {
            fork.turn_left();
        } else if !to_left && is_longer(left, right) {
            fork.turn_right();
        }
    }
}

impl Fork {
    /// A fork of one block.
    fn single(alloc: Global, own: Vec<Tuple>) -> Result<Box<Fork>, AllocError>
        ensures { IfOk result (λ fork. IsSingle fork.value × (fork.value.own.items ≡ own.items)) }
    {
        let size = own.len();
        let fork = Fork {
            left: Tree::new(),
            own,
            right: Tree::new(),
            size,
        };
        Ok(Box::new(alloc, fork)?)
    }

    /// How many tuples of this fork's list, which is required to be ordered, come before `t`. If
    /// `through`, the tuples that begin with all labels of `t` are counted as well. The fork's
    /// first own tuple is required to be counted, and `after` to be the count of the right side.
    fn count_past(&self, t: &Tuple, through: bool, after: usize) -> usize
        requires fork { IsFork self.now }
        requires ordered { IsOrdered (listed self.now) }
        requires first { is_within through t.now (get_or self.now.own.items 0 []) ≡ true }
        requires after { after ≡ count_by (is_within through t.now) self.now.right }
        ensures { result ≡ count_by (is_within through t.now) (listed self.now) }
    {
        let upto = self.size - self.right.len();
        if after > 0 {
            return upto + after;
        }
        upto - self.own.len() + count_in(&self.own, t, through)
    }

    /// Where a tuple of the index `place` is inserted: `Less` for the left side, `Equal` for the
    /// fork's own block, `Greater` for the right side.
    fn side(&self, place: usize) -> Ordering
        requires { length (listed self.now) < 2 ^ 64 }
        ensures left { result ≡ Less → place ≤ length self.now.left }
        ensures own { result ≡ Equal → (length self.now.left ≤ place) × (place ≤ length self.now.left + length self.now.own.items) }
        ensures right { result ≡ Greater → length self.now.left + length self.now.own.items ≤ place }
    {
        let before = self.left.len();
        let upto = before + self.own.len();
        let is_full = self.own.len() >= MOST_OWN;
        if place < before || is_full && place == before {
            Ordering::Less
        } else if upto < place || is_full && place == upto {
            Ordering::Greater
        } else {
            Ordering::Equal
        }
    }

    /// Inserts a tuple into the fork's block, at the index `at` of the block.
    fn insert_own(&mut self, alloc: Global, at: usize, tuple: Tuple) -> Result<(), AllocError>
        requires at { at ≤ length self.old.own.items }
        requires within_bound { length (listed self.old) + 1 < 2 ^ 64 }
        ensures ok { OnOk result (listed self.new ≡ self.old.left ++ (insert self.old.own.items at tuple ++ self.old.right)) }
        ensures err { OnErr result (listed self.new ≡ listed self.old) }
    {
        if self.own.len() >= MOST_OWN {
            return self.halve(alloc, at, tuple);
        }
        self.own.insert(at, tuple)?;
        Ok(())
    }

    /// Inserts a tuple into the fork's full block, at the index `at`. The second half of the block
    /// becomes a fork on the right.
    fn halve(&mut self, alloc: Global, at: usize, tuple: Tuple) -> Result<(), AllocError>
        requires at { at ≤ length self.old.own.items }
        requires within_bound { length (listed self.old) + 1 < 2 ^ 64 }
        ensures ok { OnOk result (listed self.new ≡ self.old.left ++ (insert self.old.own.items at tuple ++ self.old.right)) }
        ensures err { OnErr result (listed self.new ≡ listed self.old) }
    {
        let mut fork = Fork::single(alloc, Vec::new(alloc))?;
        let half = self.own.len() / 2;
        let mut rest = self.own.split_off(half)?;
        let put = insert_in(&mut self.own, &mut rest, at, tuple);
        fork.size = rest.len();
        fork.own = rest;
        self.right.prepend(fork);
        put
    }

    /// Rotates the longer side up if it is more than about three times as long as the other and
    /// some blocks.
    fn balance(&mut self)
        requires { IsFork self.old }
        ensures tuples { listed self.new ≡ listed self.old }
        ensures counted { IsFork self.new }
    {
        let left = self.left.len();
        let right = self.right.len();
        if (right / 3).saturating_sub(MOST_OWN) > left {
            self.right.lean(false);
            self.turn_left();
        } else if (left / 3).saturating_sub(MOST_OWN) > right {
            self.left.lean(true);
            self.turn_right();
        }
    }

    /// Rotates `(a, x, (b, y, c))` into `((a, x, b), y, c)`.
    fn turn_left(&mut self)
        requires { IsFork self.old }
        ensures tuples { listed self.new ≡ listed self.old }
        ensures counted { IsFork self.new }
    {
        let Node::Fork(mut other) = self.right.take().into_node() else {
            return;
        };
        mem::swap(&mut self.own, &mut other.own);
        self.right = other.right.take();
        other.right = other.left.take();
        other.left = self.left.take();
        other.size = other.left.len() + other.own.len() + other.right.len();
        self.left = Tree::of(other);
    }

    /// Rotates `((a, x, b), y, c)` into `(a, x, (b, y, c))`.
    fn turn_right(&mut self)
        requires { IsFork self.old }
        ensures tuples { listed self.new ≡ listed self.old }
        ensures counted { IsFork self.new }
    {
        let Node::Fork(mut other) = self.left.take().into_node() else {
            return;
        };
        mem::swap(&mut self.own, &mut other.own);
        self.left = other.left.take();
        other.left = other.right.take();
        other.right = self.right.take();
        other.size = other.left.len() + other.own.len() + other.right.len();
        self.right = Tree::of(other);
    }
}

/// Whether a side is more than twice as long as the other.
fn is_longer(side: usize, other: usize) -> bool {
    side > other.saturating_mul(2)
}

/// Inserts a tuple at the index `at` of the list `first` followed by `second`. If memory runs out,
/// both are unchanged.
fn insert_in(
    first: &mut Vec<Tuple>,
    second: &mut Vec<Tuple>,
    at: usize,
    tuple: Tuple,
) -> Result<(), AllocError>
    requires { at ≤ length first.old.items + length second.old.items }
    ensures ok { OnOk result (first.new.items ++ second.new.items ≡ insert (first.old.items ++ second.old.items) at tuple) }
    ensures err { OnErr result ((first.new.items ≡ first.old.items) × (second.new.items ≡ second.old.items)) }
    ensures most { length second.new.items ≤ length second.old.items + 1 }
{
    let before = first.len();
    if at <= before {
        first.insert(at, tuple)?;
    } else {
        second.insert(at - before, tuple)?;
    }
    Ok(())
}

/// How many of these tuples, which are ordered, come before `t`. If `through`, the tuples that
/// begin with all labels of `t` are counted as well.
fn count_in(tuples: &[Tuple], t: &Tuple, through: bool) -> usize
    requires { IsOrdered tuples.now }
    ensures { result ≡ count_by (is_within through t.now) tuples.now }
{
    tuples.partition_point(|other| other.is_within(t, through))
}

/// Appends a copy of each of `tuples`, in order, to `list`. The error is out of memory.
pub fn push_copies(alloc: Global, tuples: &[Tuple], list: &mut Vec<Tuple>) -> Result<(), AllocError>
    ensures { OnOk result (list.new.items ≡ list.old.items ++ tuples.now) }
{
    for tuple in tuples {
        list.push(tuple.copy(alloc)?)?;
    }
    Ok(())
}
