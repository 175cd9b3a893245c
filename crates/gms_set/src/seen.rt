//! Which tuples occurred before in the data.
ghost use Rattle.std.specs.Prelude.{◌≡◌, ◌++◌, ◌∷◌, [], ℕ, List, false, not, IfOk, IsTrue, OnErr};
ghost use Rattle.gms_tuple.specs.TupleOrder.{IsOrdered};
ghost use Rattle.gms_tuple.specs.TupleSet.{has};
ghost use Rattle.gms_set.specs.Expansion.{tuples_of};
ghost use Rattle.gms_set.specs.InnerGiven.{AreGiven};

use gms_tuple::{Tuple, TupleSet};
use gq_extended::Ext;
use std::alloc::{AllocError, Global};
use std::cmp::Ordering;

/// Whether `tuple` is new, that is, not in `given`. Before the call, `seen` must describe the
/// tuples of `given`. If `tuple` is new, `seen` afterwards describes those of `given` followed by
/// `tuple`. If it is not new, or memory runs out, `seen` describes those of `given` alone.
///
/// `seen` describes tuples if it is their set, or is `None` and each tuple is greater than the one
/// before it. Tuples compare by the numbers of the first labels that differ; a prefix is less.
pub fn see<F>(
    alloc: Global,
    seen: &mut Option<TupleSet>,
    given: &[(Tuple, Option<Ext<F>>)],
    tuple: &Tuple,
) -> Result<bool, AllocError>
    requires { AreGiven seen.old (tuples_of given.now) }
    ensures new { IfOk result (λ new. new ≡ not (has (tuples_of given.now) tuple.now)) }
    ensures more { IfOk result (λ new. IsTrue new → AreGiven seen.new (tuples_of given.now ++ tuple.now ∷ [])) }
    ensures known { IfOk result (λ new. new ≡ false → AreGiven seen.new (tuples_of given.now)) }
    ensures err { OnErr result (AreGiven seen.new (tuples_of given.now)) }
{
    if let Some(set) = seen {
        let member = tuple.copy(alloc)?;
        return set.insert(alloc, member);
    }
    if is_after(given, tuple) {
        return Ok(true);
    }
    let mut set = set_of(alloc, given)?;
    let member = tuple.copy(alloc)?;
    let new = set.insert(alloc, member)?;
    *seen = Some(set);
    Ok(new)
}

/// Whether a tuple comes after the last of those that are given in order, and so after all.
fn is_after<F>(given: &[(Tuple, Option<Ext<F>>)], tuple: &Tuple) -> bool
    requires { IsOrdered (tuples_of given.now) }
    ensures { IsTrue result → IsOrdered (tuples_of given.now ++ tuple.now ∷ []) }
{
    match given.last() {
        Some((last, _)) => last.order(tuple) == Ordering::Less,
        None => true,
    }
}

/// The set of the tuples that were given.
fn set_of<F>(alloc: Global, given: &[(Tuple, Option<Ext<F>>)]) -> Result<TupleSet, AllocError>
    ensures { IfOk result (λ set. (tuple : List ℕ) → has set tuple ≡ has (tuples_of given.now) tuple) }
{
    let mut set = TupleSet::new(alloc);
    for (tuple, _) in given {
        let member = tuple.copy(alloc)?;
        set.insert(alloc, member)?;
    }
    Ok(set)
}
