//! Whether a state is a saved state of a program.
ghost use Rattle.std.specs.Prelude.{◌≡◌, ◌↔◌, ◌&&◌, true, nat_le, length, IsTrue, IfOk};
ghost use Rattle.std.specs.List.{list_all};
ghost use Rattle.gms_tuple.specs.TupleSet.{has};
ghost use Rattle.gms_store.specs.State.{members_of, symbol_at};
ghost use Rattle.gms_save_text.specs.Validity.{IsGivenWell, are_in_range, are_statuses, is_solver_byte, is_solver_name, fits_position, fits_domain};

use gms_store::{Settings, Store};
use gms_tuple::{Tuple, TupleSet};
use gq_field::ExactField;
use std::alloc::{AllocError, Global};

/// Whether two statuses are those of a model before a solve, or after one (GAMS User's Guide,
/// "Model and Solve Statements").
fn are_statuses(model: u8, solver: u8) -> bool
    ensures { result ≡ are_statuses model solver }
{
    match (model, solver) {
        (0, 0) | (1, 1) | (3, 1) | (4, 1) | (6, 2) | (7, 2) | (13, 4) => true,
        _ => false,
    }
}

/// Whether the settings are in the ranges of their options: `limrow`, `limcol` and `iterlim` at
/// most 2,147,483,647, and `decimals` at most 8 (GAMS User's Guide, "The Option Statement").
pub fn are_in_range(settings: Settings) -> bool
    ensures { result ≡ are_in_range settings }
{
    settings.limrow <= 2_147_483_647
        && settings.limcol <= 2_147_483_647
        && settings.iterlim <= 2_147_483_647
        && settings.decimals <= 8
}

/// Whether a text has the form of a solver's name in a save: a letter, followed by at most 62
/// letters, digits and `_`.
pub fn is_solver_name(text: &[u8]) -> bool
    ensures { result ≡ is_solver_name text.now }
{
    match text {
        [] => false,
        [first, rest @ ..] => first.is_ascii_alphabetic() && is_solver_rest(rest),
    }
}

/// Whether a text may follow the first letter of the name of a solver: at most 62 letters, digits
/// and `_`.
fn is_solver_rest(text: &[u8]) -> bool
    ensures { result ≡ (list_all is_solver_byte text.now && nat_le (length text.now) 62) }
{
    are_solver_bytes(text) && text.len() <= 62
}

/// Whether each byte may occur in the name of a solver.
fn are_solver_bytes(text: &[u8]) -> bool
    ensures { result ≡ list_all is_solver_byte text.now }
{
    text.iter().all(|byte| is_solver_byte(*byte))
}

/// Whether a byte may occur in the name of a solver: a letter, a digit or `_`.
fn is_solver_byte(byte: u8) -> bool
    ensures { result ≡ is_solver_byte byte }
{
    byte.is_ascii_alphanumeric() || byte == b'_'
}

/// Whether a label fits a position: it is a member of the position's set, if it has one.
fn fits_position<F: ExactField>(
    alloc: Global,
    store: &Store<F>,
    set: Option<u32>,
    label: u32,
) -> Result<bool, AllocError>
    ensures { IfOk result (λ occurs. occurs ≡ fits_position store.now set label) }
{
    let Some(set) = set else {
        return Ok(true);
    };
    let mut tuple = Tuple::new(alloc);
    tuple.push(alloc, label)?;
    let members = store.members(set);
    if is_near(members, label, &tuple) {
        return Ok(true);
    }
    Ok(members.contains(&tuple))
}

/// Whether the member at the place of a label, counted from the first member's label, is this
/// tuple. That is so where the tuple is the label alone, and the set has all labels between.
fn is_near(members: &TupleSet, label: u32, tuple: &Tuple) -> bool
    ensures { IsTrue result → has members.now tuple.now ≡ true }
{
    let count = members.len();
    if count == 0 {
        return false;
    }
    let Some(first) = members.get(0).as_slice().first() else {
        return false;
    };
    let place = label.saturating_sub(*first) as usize;
    if place >= count {
        return false;
    }
    members.get(place) == tuple
}

/// Whether the labels of a tuple are below `labels`, and each fits its position; positions and
/// labels are equally many.
fn fits_domain<F: ExactField>(
    alloc: Global,
    store: &Store<F>,
    labels: u32,
    domain: &[Option<u32>],
    tuple: &[u32],
) -> Result<bool, AllocError>
    ensures { IfOk result (λ occurs. occurs ≡ fits_domain labels store.now domain.now tuple.now) }
{
    if domain.len() != tuple.len() {
        return Ok(false);
    }
    for place in 0..domain.len() {
        let label = tuple[place];
        if label >= labels || !fits_position(alloc, store, domain[place], label)? {
            return Ok(false);
        }
    }
    Ok(true)
}

/// Whether the data of the name with the number `name` in `store` are valid in a program with
/// `labels` labels: the tuples ascend by the first label numbers that differ, and are those at
/// which the data differ from those of an element without data. Each has at most 10 labels, one for
/// each position. A label's number is below `labels`, and the label is in the position's set, if
/// any. Numerators and denominators are at most `F.limit` in magnitude. A model has the two
/// statuses of some end of a solve, or those before any solve. The error is out of memory.
pub fn is_given_well<F: ExactField>(
    alloc: Global,
    store: &Store<F>,
    labels: u32,
    name: u32,
) -> Result<bool, AllocError>
    ensures { IfOk result (λ well. IsTrue well ↔ IsGivenWell F.limit labels store.now (symbol_at store.now name)) }
{
    if store.is_alias(name) {
        return Ok(true);
    }
    let (model, solver) = store.status(name);
    if !are_statuses(model, solver) {
        return Ok(false);
    }
    let domain = store.domain_of(name);
    let given = store.given(name);
    for place in 0..given.len() {
        if !fits_domain(alloc, store, labels, domain, given.get(place).as_slice())? {
            return Ok(false);
        }
    }
    Ok(true)
}

/// Whether a set has the same members in the states `store` and `other`. `set` is the number of the
/// set's name.
pub fn has_same_members<F: ExactField>(store: &Store<F>, other: &Store<F>, set: u32) -> bool
    ensures { IsTrue result ↔ (members_of store.now set ≡ members_of other.now set) }
{
    let members = store.members(set);
    let others = other.members(set);
    if members.len() != others.len() {
        return false;
    }
    for place in 0..members.len() {
        if members.get(place) != others.get(place) {
            return false;
        }
    }
    true
}
