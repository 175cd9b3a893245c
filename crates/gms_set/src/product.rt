//! The tuples that have at each position one of the labels that an item lists for it.
ghost use Rattle.std.specs.Prelude.{◌≡◌, ◌≤◌, ◌<◌, ◌^◌, ◌-◌, min, Some, IfOk, length, slice_get};
ghost use Rattle.gms_tuple.specs.Products.{tuple_product};

use gms_ast::Sequence;
use gms_tuple::Tuple;
use std::alloc::{AllocError, Global};

/// The number of tuples with one of the listed labels at each position, or the greatest `usize` if
/// there are more. `parts` are the labels that an item lists for each position.
pub fn count(parts: &[Sequence<u32>]) -> usize
    ensures { result ≡ min (length (tuple_product parts.now)) (2 ^ 64 - 1) }
{
    let mut count: usize = 1;
    for part in parts {
        count = count.saturating_mul(part.len());
    }
    count
}

/// The tuple at the index `place`, from 0 and below `count`, of the `count` tuples with one label
/// of `parts` at each of their at most ten positions; the last position varies fastest. The error
/// is out of memory.
pub fn tuple_at(
    alloc: Global,
    parts: &[Sequence<u32>],
    count: usize,
    place: usize,
) -> Result<Tuple, AllocError>
    requires count { count ≡ length (tuple_product parts.now) }
    requires place { place < count }
    requires few { length parts.now ≤ 10 }
    ensures { IfOk result (λ tuple. slice_get (tuple_product parts.now) place ≡ Some tuple) }
{
    let mut tuple = Tuple::new(alloc);
    let mut below = count;
    let mut rest = place;
    for part in parts {
        let labels = part.as_slice();
        below /= labels.len();
        tuple.push(alloc, labels[rest / below])?;
        rest %= below;
    }
    Ok(tuple)
}
