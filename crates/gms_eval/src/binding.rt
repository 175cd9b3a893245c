//! The labels that controlled sets have within a fold, a loop or an assignment.
ghost use Rattle.std.specs.Prelude.{◌≡◌, ◌∷◌, ◌++◌, [], length, take, IfOk, OnOk};
ghost use Rattle.gms_eval.specs.Bindings.{label_of, paired};

use std::alloc::{AllocError, Global};
use std::marker::Model;

/// The sets that are controlled at a place in a program, each in a pair with the label that it has
/// there, outermost first.
///
/// In `loop(i, s = sum(j, p(i,j)))` the entry `p(i,j)` is read under a binding of `i` and of `j`,
/// each to a label. A set is given by the number of its name, so a set and an alias of it may have
/// different labels. GAMS User's Guide, "Data Manipulations with Parameters".
#[derive(Debug)]
pub struct Binding {
    pairs: Vec<(u32, u32)>,
}

// Written out, so that it is proved once, and not in each crate that drops one.
impl Drop for Binding {
    fn drop(self) {
        let Self { pairs: _ } = self;
    }
}

impl Model for Binding {
    ghost use Rattle.std.specs.Prelude.{List, ℕ};

    ghost Value = { List (ℕ × ℕ) };

    ghost view = { λ b. b.pairs.items };
}

impl Binding {
    /// A binding without pairs: no set is controlled.
    pub fn new(alloc: Global) -> Binding
        ensures { result ≡ [] }
    {
        Binding {
            pairs: Vec::new(alloc),
        }
    }

    /// A copy of the binding with one more pair at the end: the set with this name number, and this
    /// label.
    pub fn extended(&self, alloc: Global, set: u32, label: u32) -> Result<Binding, AllocError>
        ensures { IfOk result (λ binding. binding ≡ self.now ++ (set, label) ∷ []) }
    {
        let mut binding = self.copy(alloc)?;
        binding.pairs.push((set, label))?;
        Ok(binding)
    }

    /// The label of the set with this name number, which is the label of the first pair of the set;
    /// `None` if the set has no pair.
    pub fn label(&self, set: u32) -> Option<u32>
        ensures { result ≡ label_of self.now set }
    {
        for (name, label) in self.pairs.iter() {
            if *name == set {
                return Some(*label);
            }
        }
        None
    }

    /// The pairs, outermost first: the number of a set's name, and the label of the set.
    pub fn pairs(&self) -> &[(u32, u32)]
        ensures { result.now ≡ self.now }
    {
        self.pairs.as_slice()
    }

    /// A copy of the binding, with the same pairs in the same order.
    pub fn copy(&self, alloc: Global) -> Result<Binding, AllocError>
        ensures { IfOk result (λ copy. copy ≡ self.now) }
    {
        Ok(Binding {
            pairs: Vec::from_slice(alloc, self.pairs.as_slice())?,
        })
    }

    /// How many pairs of a set and a label the binding has.
    pub fn len(&self) -> usize
        ensures { result ≡ length self.now }
    {
        self.pairs.len()
    }

    /// Keeps at most the first `outer` pairs, drops the others, and appends pairs of a set, by the
    /// number of its name, and a label: one pair for each position that both `sets` and `labels`
    /// have. If memory runs out, no contract states which pairs remain.
    pub fn control(&mut self, outer: usize, sets: &[u32], labels: &[u32]) -> Result<(), AllocError>
        ensures { OnOk result (self.new ≡ take outer self.old ++ paired sets.now labels.now) }
    {
        self.pairs.truncate(outer);
        let count = sets.len().min(labels.len());
        for place in 0..count {
            self.pairs.push((sets[place], labels[place]))?;
        }
        Ok(())
    }
}
