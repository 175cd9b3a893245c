//! The labels of indices: the position of a set's label in the set, and the label that a lag
//! reaches.
ghost use Rattle.std.specs.Prelude.{◌≡◌, ◌<◌, ◌^◌, ◌∷◌, [], map, pos, ◌+ℤ◌, length, nat_abs, slice_get, slice_index, Some, IsTrue, IfOk, IfSome};
ghost use Rattle.std.specs.Int.{int_rem_euclid};
ghost use Rattle.gq_extended.specs.Meaning.{extended};
ghost use Rattle.gms_tuple.specs.TupleSet.{place_of_tuple};
ghost use Rattle.gms_eval.specs.Gives.{Gives};
ghost use Rattle.gms_eval.specs.Lag.{label_of_element, lagged_label, whole_number};
ghost use Rattle.gms_eval.specs.References.{place_in_set, reached_label};
ghost use Rattle.gms_eval.specs.InnerContracts.{within, moved_place, with_label};

use crate::binding::Binding;
use crate::steps::zero;
use crate::stop::{ExecStopOrMemory, StopKind};
use gms_ast::LagOp;
use gms_labels::Place;
use gms_store::Store;
use gms_tuple::{MOST_LABELS, Tuple, TupleSet};
use gq_extended::Ext;
use gq_field::ExactField;
use std::alloc::{AllocError, Global};

/// The label of the member at the index `place` of a one-dimensional set.
pub(crate) fn label_at(members: &TupleSet, place: usize) -> u32
    requires { place < length members.now }
    ensures { result ≡ slice_index (map label_of_element members.now) place }
{
    match members.get(place).as_slice().first() {
        Some(label) => *label,
        None => 0,
    }
}

/// The place of a label in a set of one dimension, if the labels between the set's first and it are
/// all in the set.
fn likely_place(members: &TupleSet, label: u32) -> usize {
    if members.is_empty() {
        return 0;
    }
    label.saturating_sub(label_at(members, 0)) as usize
}

/// Whether the tuple at a place of a set consists of this one label.
fn is_at(members: &TupleSet, place: usize, label: u32) -> bool
    ensures { IsTrue result → slice_get members.now place ≡ Some (label ∷ []) }
{
    if place >= members.len() {
        return false;
    }
    let labels = members.get(place).as_slice();
    labels.len() == 1 && labels[0] == label
}

/// The place of a label in a set of one dimension. The likely place is tried before the set is
/// searched.
fn place_in(alloc: Global, members: &TupleSet, label: u32) -> Result<Option<usize>, AllocError>
    ensures value { IfOk result (λ place. place ≡ place_of_tuple members.now (label ∷ [])) }
    ensures within { IfOk result (λ place. IfSome place (λ n. n < length members.now)) }
{
    let _count = members.len();
    let likely = likely_place(members, label);
    if is_at(members, likely, label) {
        return Ok(Some(likely));
    }
    let mut element = Tuple::new(alloc);
    element.push(alloc, label)?;
    match members.place(&element) {
        Ok(place) => Ok(Some(place)),
        Err(_) => Ok(None),
    }
}

/// The position of a set's label among the members of the set, from 1; 0 if the set has no label,
/// or one that is no member.
#[inline(never)]
pub(crate) fn place_in_set<F: ExactField>(
    alloc: Global,
    store: &Store<F>,
    set: u32,
    b: &Binding,
) -> Result<usize, AllocError>
    ensures { IfOk result (λ place. place ≡ place_in_set store.now b.now set) }
{
    let Some(label) = b.label(set) else {
        return Ok(0);
    };
    let members = store.members(set);
    let _count = members.len();
    match place_in(alloc, members, label)? {
        Some(place) => Ok(place + 1),
        None => Ok(0),
    }
}

/// The integer that a value is, if it is one.
fn whole_number<F: ExactField>(value: Ext<F>) -> Option<i128>
    ensures value { result ≡ whole_number (extended F.value value) }
    ensures within_bound { IfSome result (λ n. nat_abs n < 2 ^ 127) }
{
    let Ext::Number(number) = value else {
        return None;
    };
    let (numerator, denominator) = number.parts();
    if denominator == 1 {
        Some(numerator)
    } else {
        None
    }
}

/// The place `amount` after one of `count` places, if it is one of them.
fn ahead(count: usize, amount: i128, place: usize) -> Option<usize>
    ensures { result ≡ within count (pos place +ℤ amount) }
{
    let moved = (place as i128).checked_add(amount)?;
    if moved >= 0 && moved < count as i128 {
        Some(moved as usize)
    } else {
        None
    }
}

/// The place `amount` after one of `count` places, counted in a circle.
fn around(count: usize, amount: i128, place: usize) -> usize
    requires { place < count }
    ensures { pos result ≡ int_rem_euclid (pos place +ℤ amount) (pos count) }
{
    let shift = amount.rem_euclid(count as i128) as usize;
    let following = count - place;
    if shift < following {
        place + shift
    } else {
        shift - following
    }
}

/// The place to which a lead or a lag goes from one of `count` places.
fn moved(count: usize, op: LagOp, amount: i128, place: usize) -> Option<usize>
    requires place { place < count }
    requires within_bound { nat_abs amount < 2 ^ 127 }
    ensures value { result ≡ moved_place count op amount (pos place) }
    ensures within { IfSome result (λ n. n < count) }
{
    match op {
        LagOp::Lead => ahead(count, amount, place),
        LagOp::Lag => ahead(count, -amount, place),
        LagOp::CircularLead => Some(around(count, amount, place)),
        LagOp::CircularLag => Some(around(count, -amount, place)),
    }
}

/// The label that a lead or a lag of `amount` places reaches from a label.
fn lagged(
    alloc: Global,
    members: &TupleSet,
    op: LagOp,
    amount: i128,
    label: u32,
) -> Result<Option<u32>, AllocError>
    requires { nat_abs amount < 2 ^ 127 }
    ensures { IfOk result (λ reached. reached ≡ lagged_label members.now op amount label) }
{
    let Some(place) = place_in(alloc, members, label)? else {
        return Ok(None);
    };
    match moved(members.len(), op, amount, place) {
        Some(place) => Ok(Some(label_at(members, place))),
        None => Ok(None),
    }
}

/// The label that a lag of this amount reaches from the label of its set; `None` beyond the end of
/// the set, or if the set has no label. The stop is `LagNotWhole` if and only if the amount is no
/// integer.
#[inline(never)]
pub(crate) fn reached<F: ExactField>(
    alloc: Global,
    store: &Store<F>,
    set: u32,
    op: LagOp,
    at: Place,
    amount: Ext<F>,
    b: &Binding,
) -> Result<Option<u32>, ExecStopOrMemory<F>>
    ensures { Gives F.value (λ label. label) result (reached_label store.now b.now set op at (extended F.value amount)) }
{
    let Some(places) = whole_number(amount) else {
        return Err(ExecStopOrMemory::at_step(alloc, StopKind::LagNotWhole, at, amount, zero(), b));
    };
    match b.label(set) {
        Some(label) => Ok(lagged(alloc, store.members(set), op, places, label)?),
        None => Ok(None),
    }
}

/// A tuple with one more label; `None` if either does not exist or the tuple has 10 labels already.
#[inline(never)]
pub(crate) fn with_label(
    alloc: Global,
    tuple: Option<Tuple>,
    label: Option<u32>,
) -> Result<Option<Tuple>, AllocError>
    ensures { IfOk result (λ longer. longer ≡ with_label tuple label) }
{
    let (Some(mut tuple), Some(label)) = (tuple, label) else {
        return Ok(None);
    };
    if tuple.as_slice().len() >= MOST_LABELS {
        return Ok(None);
    }
    tuple.push(alloc, label)?;
    Ok(Some(tuple))
}
