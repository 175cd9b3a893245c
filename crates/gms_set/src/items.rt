//! The tuples that the items of a data list give.
ghost use Rattle.std.specs.Prelude.{◌≡◌, ◌≤◌, All, length, Ok, MatchResult};
ghost use Rattle.gms_set.specs.Expansion.{expanded, IsFaultOf};

use crate::expansion::Expansion;
use crate::fault::{SetFault, SetFaultOrMemory};
use gms_ast::Item;
use gms_store::Store;
use gms_tuple::Tuple;
use gq_extended::Ext;
use gq_field::ExactField;
use std::alloc::Global;

/// The tuples that `items` give, in order, each with the value of its item, or `None` if the item
/// has no value. The item `(a1*a3).x 5` gives three tuples; the last position varies fastest.
/// `domain` has the set of each position, `None` for a position that admits any label; `store` has
/// the members of these sets. Each item must have one list of labels for each position, and at most
/// ten positions.
///
/// The error is out of memory, or that of the first item with an error, at its place. Of the item's
/// errors it is the first in this order: a label that the set of its position does not have; two
/// labels that are no range; more than 1,048,576 tuples in all, with those of the items before; a
/// tuple that the item repeats, or that an item before gives. GAMS User's Guide, "Set Definition",
/// "Data Entry: Parameters, Scalars and Tables".
pub fn expand<F: ExactField>(
    alloc: Global,
    items: &[Item<F>],
    domain: &[Option<u32>],
    store: &Store<F>,
) -> Result<Vec<(Tuple, Option<Ext<F>>)>, SetFaultOrMemory>
    requires parts { All (λ item. length item.parts ≡ length domain.now) items.now }
    requires few { length domain.now ≤ 10 }
    ensures { MatchResult result
        (λ given. expanded store.now domain.now items.now ≡ Ok given.items)
        (IsFaultOf (expanded store.now domain.now items.now)) }
{
    let mut expansion = Expansion::new(alloc);
    for item in items {
        if let Some(error) = expansion.add(alloc, item, domain, store)? {
            return Err(SetFaultOrMemory::Fault(SetFault { error, at: item.at }));
        }
    }
    Ok(expansion.into_given())
}
