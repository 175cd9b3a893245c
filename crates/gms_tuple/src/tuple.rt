//! A tuple of labels, and the order of tuples.
ghost use Rattle.std.specs.Prelude.{◌≡◌, ◌<◌, ◌≤◌, ℕ, List, [], ◌∷◌, ◌++◌, length, nat_eq, IfOk, OnOk, OnErr};
ghost use Rattle.gms_tuple.specs.TupleOrder.{tuple_cmp, begins_with};
ghost use Rattle.gms_tuple.specs.TupleSet.{is_within};

use smallvec::SmallVec;
use std::alloc::{AllocError, Global};
use std::cmp::Ordering;
use std::marker::Model;

/// How many labels a tuple has at most.
pub const MOST_LABELS: usize = 10;

/// How many labels at most a tuple stores inside itself.
const MOST_INSIDE: usize = 4;

/// A tuple of at most 10 labels, each by its number in the table of labels. It takes 32 bytes, and
/// with over four labels up to 40 allocated bytes more.
///
/// Tuples are ordered label by label, by number; a proper prefix comes before the longer tuple. In
/// `parameter c(i,j) /seattle.chicago 1.7/` the element is a tuple of two labels.
pub struct Tuple {
    labels: SmallVec<u32, 4>,
}

// Written out, so that it is proved once, and not in each crate that drops one.
impl Drop for Tuple {
    fn drop(self) {
        let Self { labels: _ } = self;
    }
}

impl Model for Tuple {
    ghost use Rattle.std.specs.Prelude.{List, ℕ, length, ◌≤◌};

    ghost Value = { List ℕ };

    ghost view = { λ t. t.labels.items };

    ghost invariant = { λ t. length t.labels.items ≤ 10 };
}

impl Tuple {
    /// A tuple without labels.
    pub fn new(alloc: Global) -> Tuple
        ensures { result ≡ [] }
    {
        Tuple {
            labels: SmallVec::new(alloc),
        }
    }

    /// Adds a label at the end of the tuple, which is required to have fewer than 10 labels. If
    /// memory runs out, the tuple is unchanged.
    pub fn push(&mut self, _alloc: Global, label: u32) -> Result<(), AllocError>
        requires { length self.old < 10 }
        ensures ok { OnOk result (self.new ≡ self.old ++ label ∷ []) }
        ensures err { OnErr result (self.new ≡ self.old) }
    {
        if self.labels.len() == MOST_INSIDE {
            self.labels.reserve_exact(MOST_LABELS - MOST_INSIDE)?;
        }
        self.labels.push(label)?;
        Ok(())
    }

    /// A copy of the tuple. The error is out of memory.
    pub fn copy(&self, alloc: Global) -> Result<Tuple, AllocError>
        ensures { IfOk result (λ copy. copy ≡ self.now) }
    {
        let labels = SmallVec::from_slice(alloc, self.labels.as_slice())?;
        Ok(Tuple { labels })
    }

    /// The labels of the tuple by their numbers, in order.
    pub fn as_slice(&self) -> &[u32]
        ensures value { result.now ≡ self.now }
        ensures most { length result.now ≤ 10 }
    {
        self.labels.as_slice()
    }

    /// How this tuple compares with the tuple `o`: by the first labels that differ, or else the
    /// shorter tuple is less.
    pub fn order(&self, o: &Tuple) -> Ordering
        ensures { result ≡ tuple_cmp self.now o.now }
    {
        compared(self.labels.as_slice(), o.labels.as_slice())
    }

    /// Whether this tuple begins with all labels of `prefix`, in order.
    pub fn begins_with(&self, prefix: &Tuple) -> bool
        ensures { result ≡ begins_with self.now prefix.now }
    {
        self.labels.as_slice().starts_with(prefix.labels.as_slice())
    }

    /// Whether the tuple comes before `prefix` or, if `through`, begins with its labels.
    pub(crate) fn is_within(&self, prefix: &Tuple, through: bool) -> bool
        ensures { result ≡ is_within through prefix.now self.now }
    {
        comes_within(self.labels.as_slice(), prefix.labels.as_slice(), through)
    }
}

/// How two lists of labels compare: label by label, a proper prefix first.
fn compared(labels: &[u32], others: &[u32]) -> Ordering
    ensures { result ≡ tuple_cmp labels.now others.now }
{
    let Some((label, rest)) = labels.split_first() else {
        return if others.is_empty() {
            Ordering::Equal
        } else {
            Ordering::Less
        };
    };
    let Some((other, others)) = others.split_first() else {
        return Ordering::Greater;
    };
    if label == other {
        compared(rest, others)
    } else {
        label.cmp(other)
    }
}

/// Whether a list of labels comes before `prefix` or, if `through`, begins with it.
fn comes_within(labels: &[u32], prefix: &[u32], through: bool) -> bool
    ensures { result ≡ is_within through prefix.now labels.now }
{
    let Some((first, prefix)) = prefix.split_first() else {
        return through;
    };
    let Some((label, rest)) = labels.split_first() else {
        return true;
    };
    if label == first {
        comes_within(rest, prefix, through)
    } else {
        label < first
    }
}

impl PartialEq for Tuple {
    ghost use Rattle.std.specs.Prelude.{nat_eq};
    ghost use Rattle.std.proofs.lemmas.Cmp.{nat_list_eq_equiv};
    ghost use Rattle.std.specs.Cmp.{partial_equiv_from_equiv};
    ghost use Rattle.gms_tuple.specs.TupleOrder.{same_tuple};

    ghost eq = { same_tuple };

    ghost laws = { partial_equiv_from_equiv nat_list_eq_equiv };

    fn eq(&self, other: &Tuple) -> bool {
        self.labels.as_slice() == other.labels.as_slice()
    }
}

impl Eq for Tuple {
    ghost use Rattle.std.proofs.lemmas.Cmp.{nat_list_eq_equiv};

    ghost laws = { nat_list_eq_equiv };
}

impl PartialOrd for Tuple {
    ghost use Rattle.std.specs.Ordering.{as_partial_cmp};
    ghost use Rattle.gms_tuple.specs.TupleOrder.{tuple_cmp};
    ghost use Rattle.gms_tuple.specs.OrderLaws.{tuple_cmp-partial};

    ghost partial_cmp = { as_partial_cmp tuple_cmp };

    ghost laws = { tuple_cmp-partial };

    fn partial_cmp(&self, other: &Tuple) -> Option<Ordering> {
        Some(self.order(other))
    }
}

impl Ord for Tuple {
    ghost use Rattle.std.specs.Prelude.{refl};
    ghost use Rattle.gms_tuple.specs.TupleOrder.{tuple_cmp};
    ghost use Rattle.gms_tuple.specs.OrderLaws.{tuple_cmp-total, same_tuple-tuple_cmp};

    ghost cmp = { tuple_cmp };

    ghost total = { tuple_cmp-total };

    ghost matches_partial_cmp = { λ x y. refl };

    ghost matches_eq = { same_tuple-tuple_cmp };

    fn cmp(&self, other: &Tuple) -> Ordering {
        self.order(other)
    }
}
