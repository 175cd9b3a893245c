//! Whether labels are in the sets of their positions.
ghost use Rattle.std.specs.Prelude.{◌≡◌, ◌∷◌, [], IfOk, length};
ghost use Rattle.std.specs.List.{list_any};
ghost use Rattle.gms_tuple.specs.TupleSet.{has};
ghost use Rattle.gms_store.specs.State.{members_of};
ghost use Rattle.gms_set.specs.Expansion.{has_outside, is_outside};

use gms_ast::Sequence;
use gms_store::Store;
use gms_tuple::Tuple;
use gq_field::ExactField;
use std::alloc::{AllocError, Global};

/// Whether an item has, at some position, a label that is no member of the position's set in
/// `store`. `parts` has the item's labels for each position; `domain`, of the same length, has the
/// set of each position, `None` if it admits any label. The error is out of memory.
pub fn has_outside<F: ExactField>(
    alloc: Global,
    store: &Store<F>,
    domain: &[Option<u32>],
    parts: &[Sequence<u32>],
) -> Result<bool, AllocError>
    requires parts { length parts.now ≡ length domain.now }
    ensures { IfOk result (λ outside. outside ≡ has_outside store.now domain.now parts.now) }
{
    for position in 0..domain.len() {
        if is_part_outside(alloc, store, domain[position], parts[position].as_slice())? {
            return Ok(true);
        }
    }
    Ok(false)
}

/// Whether some label is not in the position's set.
fn is_part_outside<F: ExactField>(
    alloc: Global,
    store: &Store<F>,
    set: Option<u32>,
    labels: &[u32],
) -> Result<bool, AllocError>
    ensures { IfOk result (λ outside. outside ≡ list_any (is_outside store.now set) labels.now) }
{
    let Some(name) = set else {
        return Ok(false);
    };
    for label in labels {
        if !is_member(alloc, store, name, *label)? {
            return Ok(true);
        }
    }
    Ok(false)
}

/// Whether a label is in a set of one dimension.
fn is_member<F: ExactField>(
    alloc: Global,
    store: &Store<F>,
    set: u32,
    label: u32,
) -> Result<bool, AllocError>
    ensures { IfOk result (λ there. there ≡ has (members_of store.now set) (label ∷ [])) }
{
    let mut tuple = Tuple::new(alloc);
    tuple.push(alloc, label)?;
    Ok(store.member(set, &tuple))
}
