//! Two ordered lists of tuples, traversed side by side.
ghost use Rattle.std.specs.Prelude.{◌≡◌, ◌<◌, ◌+◌, ℕ, List, [], length, IfOk};
ghost use Rattle.gms_tuple.specs.TupleOrder.{IsOrdered};
ghost use Rattle.gms_tuple.specs.TupleSet.{has};
ghost use Rattle.gms_tuple.specs.InnerOperations.{takes, turn};

use crate::tuple::Tuple;
use std::alloc::{AllocError, Global};
use std::cmp::Ordering;

/// An operation on two sets of tuples, `first` and `second`.
#[derive(Clone, Copy)]
pub enum Operation {
    /// The members of either.
    Union,
    /// The members of the first that the second lacks.
    Difference,
    /// The members of both.
    Intersection,
}

impl Operation {
    /// Whether the result of the operation has a tuple, where `first` and `second` are whether each
    /// of the two sets has it.
    fn takes(self, first: bool, second: bool) -> bool
        ensures { result ≡ takes self first second }
    {
        match self {
            Operation::Union => first || second,
            Operation::Difference => first && !second,
            Operation::Intersection => first && second,
        }
    }
}

/// The tuples of the union, difference or intersection (`operation`) of the sets `first` and
/// `second`. Each set is the list of its tuples, distinct and in order (label by label, a proper
/// prefix first). The error is out of memory.
pub fn combined(
    alloc: Global,
    operation: Operation,
    first: &[Tuple],
    second: &[Tuple],
) -> Result<Vec<Tuple>, AllocError>
    requires first { IsOrdered first.now }
    requires second { IsOrdered second.now }
    ensures members { IfOk result (λ made. (t : List ℕ) → has made.items t ≡ takes operation (has first.now t) (has second.now t)) }
    ensures ordered { IfOk result (λ made. IsOrdered made.items) }
{
    let mut made = Vec::new(alloc);
    let mut i = 0;
    let mut j = 0;
    while i < first.len() || j < second.len() {
        let (in_first, in_second) = turn(&first[i..], &second[j..]);
        let next = if in_first { &first[i] } else { &second[j] };
        if operation.takes(in_first, in_second) {
            made.push(next.copy(alloc)?)?;
        }
        i += usize::from(in_first);
        j += usize::from(in_second);
    }
    Ok(made)
}

/// Of two lists, not both empty, whether the least of their first tuples is the first of each.
fn turn(first: &[Tuple], second: &[Tuple]) -> (bool, bool)
    ensures { result ≡ turn first.now second.now }
{
    match (first.first(), second.first()) {
        (Some(t), Some(other)) => {
            let order = t.order(other);
            (order != Ordering::Greater, order != Ordering::Less)
        }
        (first, second) => (first.is_some(), second.is_some()),
    }
}
