//! The sets that are controlled.
ghost use Rattle.std.specs.Prelude.{◌≡◌, ◌<◌, ◌-◌, ◌++◌, ◌∷◌, ℕ, [], length, slice_index_or, take, OnOk};
ghost use Rattle.gms_check.specs.Past.{is_among};

use std::alloc::{AllocError, Global};
use std::marker::Model;

/// The sets that folds, loops and left sides control, in the order of addition, with repetitions.
/// The index of each one's first occurrence is stored, so a set is looked up in constant time.
#[derive(Drop)]
pub struct Controlled {
    sets: Vec<u32>,
    /// By the number of a set: the index of its first occurrence, plus 1; 0 if it is not
    /// controlled.
    firsts: Vec<usize>,
}

impl Model for Controlled {
    ghost use Rattle.std.specs.Prelude.{◌≡◌, List, ℕ, slice_index_or};
    ghost use Rattle.gms_scope.specs.Order.{order_of};

    ghost Value = { List ℕ };

    ghost view = { λ c. c.sets.items };

    ghost invariant = { λ c. (set : ℕ) → slice_index_or c.firsts.items set 0 ≡ order_of c.sets.items set };
}

impl Controlled {
    /// An empty list of controlled sets.
    pub fn new(alloc: Global) -> Controlled
        ensures { result ≡ [] }
    {
        Controlled {
            sets: Vec::new(alloc),
            firsts: Vec::new(alloc),
        }
    }

    /// How many controlled sets the list has, repetitions included.
    pub fn len(&self) -> usize
        ensures { result ≡ length self.now }
    {
        self.sets.len()
    }

    /// Whether this set, given by the number of its name, is controlled.
    pub fn has(&self, set: u32) -> bool
        ensures { result ≡ is_among self.now set }
    {
        match self.firsts.get(set as usize) {
            Some(first) => *first != 0,
            None => false,
        }
    }

    /// Adds a controlled set after the others. The error is out of memory.
    pub fn push(&mut self, set: u32) -> Result<(), AllocError>
        ensures { OnOk result (self.new ≡ self.old ++ set ∷ []) }
    {
        reach(&mut self.firsts, set)?;
        self.sets.push(set)?;
        let at = set as usize;
        if self.firsts[at] == 0 {
            self.firsts[at] = self.sets.len();
        }
        Ok(())
    }

    /// Keeps only the first `count` of the controlled sets, repetitions included.
    pub fn truncate(&mut self, count: usize)
        ensures { self.new ≡ take count self.old }
    {
        while count < self.sets.len() {
            self.pop();
        }
    }

    /// Removes the last controlled set.
    fn pop(&mut self)
        ensures { self.new ≡ take (length self.old - 1) self.old }
    {
        let count = self.sets.len();
        if let Some(set) = self.sets.pop() {
            let at = set as usize;
            if at < self.firsts.len() && self.firsts[at] == count {
                self.firsts[at] = 0;
            }
        }
    }
}

/// Extends a list so that the number of a set has an entry: the new entries are 0.
fn reach(firsts: &mut Vec<usize>, set: u32) -> Result<(), AllocError>
    ensures there { OnOk result (set < length firsts.new.items) }
    ensures same { (n : ℕ) → slice_index_or firsts.new.items n 0 ≡ slice_index_or firsts.old.items n 0 }
{
    let count = set as usize + 1;
    for _ in firsts.len()..count {
        firsts.push(0)?;
    }
    Ok(())
}
