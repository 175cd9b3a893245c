//! Questions on the indices of a reference, and on the sets among them.
ghost use Rattle.std.specs.Prelude.{◌≡◌, ℕ, List, drop, not, IfOk};
ghost use Rattle.std.specs.List.{list_any};
ghost use Rattle.gms_scope.specs.Entries.{above_of};
ghost use Rattle.gms_scope.specs.Facts.{is_known_ordered, names};
ghost use Rattle.gms_scope.specs.Names.{is_index_set, has_no_declaration, positions};
ghost use Rattle.gms_check.specs.Controls.{lagged_sets};
ghost use Rattle.gms_check.specs.Domains.{is_wrong_count};
ghost use Rattle.gms_check.specs.IndexList.{have_unfit_label, have_unfit_set};
ghost use Rattle.gms_check.specs.Past.{is_among};
ghost use Rattle.gms_check.specs.StatementUses.{index_list};
ghost use Rattle.gms_check.specs.Uses.{index_sets};

use crate::controlled::Controlled;
use gms_ast::Index;
use gms_scope::Known;
use gq_field::ExactField;
use std::alloc::{AllocError, Global};

/// The most sets in the control of one fold, such as `sum`, or of one loop, and the most indices of
/// one reference.
pub const MOST: usize = 10;

/// Whether a number of indices, `count`, is other than `expected` or over 10.
pub fn is_wrong_count(expected: usize, count: usize) -> bool
    ensures { result ≡ is_wrong_count expected count }
{
    count != expected || count > MOST
}

/// The sets among indices, with a lag or without, in the order of the indices and with repetitions,
/// by the numbers of their names. The error is out of memory.
pub fn index_sets<F>(alloc: Global, indices: &[Index<F>]) -> Result<Vec<u32>, AllocError>
    ensures { IfOk result (λ sets. sets.items ≡ index_sets (index_list indices.now)) }
{
    let mut sets = Vec::new(alloc);
    for index in indices {
        if let Index::Set { name, .. } = index {
            sets.push(*name)?;
        }
    }
    Ok(sets)
}

/// The sets among indices that have a lag, in the order of the indices and with repetitions, by the
/// numbers of their names. The error is out of memory.
pub fn lagged_sets<F>(alloc: Global, indices: &[Index<F>]) -> Result<Vec<u32>, AllocError>
    ensures { IfOk result (λ sets. sets.items ≡ lagged_sets (index_list indices.now)) }
{
    let mut sets = Vec::new(alloc);
    for index in indices {
        if let Index::Set { name, lag } = index
            && lag.is_some()
        {
            sets.push(*name)?;
        }
    }
    Ok(sets)
}

/// Whether at least one of these names is unknown: no statement before declares it.
pub fn has_unknown<F: ExactField>(known: &Known<F>, names: &[u32]) -> bool
    ensures { result ≡ list_any (has_no_declaration known.now.state) names.now }
{
    for name in names {
        if known.is_unknown(*name) {
            return true;
        }
    }
    false
}

/// Whether at least one of these names is not that of a one-dimensional set.
pub fn has_wrong_set<F: ExactField>(known: &Known<F>, names: &[u32]) -> bool
    ensures { result ≡ list_any (λ name. not (is_index_set known.now.state name)) names.now }
{
    for name in names {
        if !known.is_index_set(*name) {
            return true;
        }
    }
    false
}

/// Whether at least one of these sets is not ordered. A set is ordered if it is one-dimensional, no
/// statement of the program assigns it, and its labels are given in the order in which labels first
/// occur in the program. An alias is ordered if its set is.
pub fn has_unordered<F: ExactField>(known: &Known<F>, sets: &[u32]) -> bool
    ensures { result ≡ list_any (λ set. not (is_known_ordered known.now set)) sets.now }
{
    for set in sets {
        if !known.is_ordered(*set) {
            return true;
        }
    }
    false
}

/// Whether at least one of these sets is not among the controlled ones.
pub fn has_uncontrolled(controlled: &Controlled, sets: &[u32]) -> bool
    ensures { result ≡ list_any (λ set. not (is_among controlled.now set)) sets.now }
{
    for set in sets {
        if !controlled.has(*set) {
            return true;
        }
    }
    false
}

/// Whether at least one set S among the indices of a reference to `name` does not fit its position.
/// S fits where the domain of `name` has `*`. S also fits where the domain has a one-dimensional
/// set D that is declared before `name`, if S is D or is declared as a subset of D, directly or
/// through other sets. An alias counts as its set. Indices after the last position of `name` are
/// not checked.
pub fn has_unfit_set<F: ExactField>(known: &Known<F>, name: u32, indices: &[Index<F>]) -> bool
    ensures { result ≡ have_unfit_set known.now.state (names known.now) (above_of known.now.declared) name
        (positions known.now.state name) (index_list indices.now) }
{
    for (place, index) in indices.iter().enumerate() {
        if let Index::Set { name: set, .. } = index
            && let Some(position) = known.position(name, place)
            && !known.fits(name, position, *set)
        {
            return true;
        }
    }
    false
}

/// Whether at least one label L among the indices of a reference to `name` does not fit its
/// position. L fits where the domain of `name` has `*`. L also fits where the domain has a
/// one-dimensional set D with the member L, if D is declared before `name` or, if `name` is an
/// alias, before the set of this alias. Indices after the last position of `name` are not checked.
/// The error is out of memory.
pub fn has_unfit_label<F: ExactField>(
    alloc: Global,
    known: &Known<F>,
    name: u32,
    indices: &[Index<F>],
) -> Result<bool, AllocError>
    ensures { IfOk result (λ unfit. unfit ≡ have_unfit_label known.now.state (names known.now) name (positions known.now.state name) (index_list indices.now)) }
{
    for (place, index) in indices.iter().enumerate() {
        if let Index::Label(label) = index
            && let Some(position) = known.position(name, place)
        {
            let holds = known.holds(alloc, name, position, *label)?;
            if !holds {
                return Ok(true);
            }
        }
    }
    Ok(false)
}
