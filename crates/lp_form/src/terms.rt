//! Keys and their numbers in parallel lists: how two lists merge into one, and how one is changed
//! number by number.
ghost use Rattle.std.specs.Prelude.{◌≡◌, ◌++◌, ◌∷◌, [], length, map, Ok, IfOk, IfErr, IsErr, IsTrue, OnOk, OnErr};
ghost use Rattle.std.specs.List.{All};
ghost use Rattle.gq_number.specs.Number.{neg_ℚ};
ghost use Rattle.gq_field.specs.Fits.{Answers};
ghost use Rattle.lp_form.specs.InnerMerging.{IsBeforeFirst, Comes, OnOutcome, Joins, PushesUnlessZero, IsFaultAt, Merges, Changes};
ghost use Rattle.lp_form.specs.Keys.{AreOrdered};
ghost use Rattle.lp_form.specs.InnerOperations.{step_by, CanDivide};

use crate::fault::FormFault;
use crate::key::Key;
use gq_field::{ExactField, Limit};
use std::alloc::{AllocError, Global};
use std::cmp::Ordering;

/// Keys and their numbers, in parallel lists.
#[derive(Drop)]
pub(crate) struct Terms<F> {
    pub(crate) keys: Vec<Key>,
    pub(crate) numbers: Vec<F>,
}

impl<F> Terms<F> {
    fn new(alloc: Global) -> Terms<F>
        ensures keys { result.keys.items ≡ [] }
        ensures numbers { result.numbers.items ≡ [] }
    {
        Terms {
            keys: Vec::new(alloc),
            numbers: Vec::new(alloc),
        }
    }
}

impl<F: ExactField> Terms<F> {
    /// Appends a key and its number.
    fn push(&mut self, alloc: Global, key: &Key, number: F) -> Result<(), AllocError>
        ensures keys { OnOk result (self.new.keys.items ≡ self.old.keys.items ++ key.now ∷ []) }
        ensures numbers { OnOk result
            (self.new.numbers.items ≡ self.old.numbers.items ++ number ∷ []) }
    {
        self.keys.push(key.copy(alloc)?)?;
        self.numbers.push(number)?;
        Ok(())
    }

    /// Appends a key and its number, unless the number is 0.
    fn push_unless_zero(&mut self, alloc: Global, key: &Key, number: F) -> Result<(), AllocError>
        ensures { OnOk result (PushesUnlessZero F.value key.now number self.old self.new) }
    {
        if number.is_zero() {
            return Ok(());
        }
        self.push(alloc, key, number)
    }
}

/// From which of two lists of keys the next key comes.
#[derive(Clone, Copy)]
pub(crate) enum Turn {
    Left,
    Right,
    Both,
}

/// From which of two lists of keys the next key comes; none if both are empty.
fn next_turn(keys: &[Key], others: &[Key]) -> Option<Turn>
    ensures { Comes keys.now others.now result }
{
    match (keys.first(), others.first()) {
        (None, None) => None,
        (Some(_), None) => Some(Turn::Left),
        (None, Some(_)) => Some(Turn::Right),
        (Some(key), Some(other)) => Some(match key.cmp(other) {
            Ordering::Less => Turn::Left,
            Ordering::Equal => Turn::Both,
            Ordering::Greater => Turn::Right,
        }),
    }
}

/// The value of a step at a key, or the fault there.
fn checked<F: ExactField>(
    alloc: Global,
    key: &Key,
    answer: Result<F, Limit>,
) -> Result<F, FormFault>
    ensures ok { IfOk result (λ x. answer ≡ Ok x) }
    ensures err { IfErr result (λ fault. IsErr answer × IsFaultAt key.now fault) }
{
    match answer {
        Ok(number) => Ok(number),
        Err(_) => Err(FormFault::Limit(Some(key.copy(alloc)?))),
    }
}

/// The entries of two sides in the order of keys, with the numbers of one key added.
fn merged<F: ExactField>(
    alloc: Global,
    keys: &[Key],
    numbers: &[F],
    other_keys: &[Key],
    other_numbers: &[F],
) -> Result<Terms<F>, FormFault>
    requires paired { length numbers.now ≡ length keys.now }
    requires others_paired { length other_numbers.now ≡ length other_keys.now }
    ensures { OnOutcome
        (Merges F.value F.limit keys.now numbers.now other_keys.now other_numbers.now) result }
{
    let mut made = Terms::new(alloc);
    let mut i = 0;
    let mut j = 0;
    while let Some(turn) = next_turn(&keys[i..], &other_keys[j..]) {
        match turn {
            Turn::Left => {
                made.push(alloc, &keys[i], numbers[i])?;
                i += 1;
            }
            Turn::Right => {
                made.push(alloc, &other_keys[j], other_numbers[j])?;
                j += 1;
            }
            Turn::Both => {
                let key = &keys[i];
                let sum = checked(alloc, key, numbers[i].add(other_numbers[j]))?;
                made.push_unless_zero(alloc, key, sum)?;
                i += 1;
                j += 1;
            }
        }
    }
    Ok(made)
}

/// What is done with each number of a form.
#[derive(Clone, Copy)]
pub(crate) enum Operation<F> {
    /// Times this number.
    Times(F),
    /// Over this number, which is not 0.
    Over(F),
}

impl<F: ExactField> Operation<F> {
    /// The number after the operation.
    pub(crate) fn apply(self, x: F) -> Result<F, Limit>
        requires { CanDivide F.value self }
        ensures { Answers F.value result
            (step_by F.value F.limit self (F.value x)).fits (step_by F.value F.limit self (F.value x)).number }
    {
        match self {
            Operation::Times(y) => x.mul(y),
            Operation::Over(y) => x.div(y),
        }
    }
}

/// The entries of a side with each number changed by an operation.
pub(crate) fn changed<F: ExactField>(
    alloc: Global,
    operation: Operation<F>,
    keys: &[Key],
    numbers: &[F],
) -> Result<Terms<F>, FormFault>
    requires paired { length numbers.now ≡ length keys.now }
    requires can_divide { CanDivide F.value operation }
    ensures { OnOutcome (Changes F.value (step_by F.value F.limit operation) keys.now numbers.now) result }
{
    let mut made = Terms::new(alloc);
    for (i, key) in keys.iter().enumerate() {
        let changed = checked(alloc, key, operation.apply(numbers[i]))?;
        made.push_unless_zero(alloc, key, changed)?;
    }
    Ok(made)
}

/// A copy of the keys.
pub(crate) fn copied(alloc: Global, keys: &[Key]) -> Result<Vec<Key>, AllocError>
    ensures { IfOk result (λ copies. copies.items ≡ keys.now) }
{
    let mut copies = Vec::new(alloc);
    for key in keys {
        copies.push(key.copy(alloc)?)?;
    }
    Ok(copies)
}

/// Each number negated.
pub(crate) fn negated<F: ExactField>(alloc: Global, numbers: &[F]) -> Result<Vec<F>, AllocError>
    ensures { IfOk result (λ negated. map F.value negated.items ≡ map (λ x. neg_ℚ (F.value x)) numbers.now) }
{
    let mut negated = Vec::new(alloc);
    for number in numbers {
        negated.push(number.neg())?;
    }
    Ok(negated)
}

/// Whether all keys of the first list follow all of the second. Each list is in order.
fn is_after(keys: &[Key], others: &[Key]) -> bool
    requires { AreOrdered others.now }
    ensures { IsTrue result → All (λ other. IsBeforeFirst other keys.now) others.now }
{
    match (keys.first(), others.last()) {
        (Some(key), Some(other)) => other.cmp(key).is_lt(),
        _ => true,
    }
}

/// Appends keys and their numbers. If out of memory, all is as it was.
fn extend<F: ExactField>(
    alloc: Global,
    keys: &mut Vec<Key>,
    numbers: &mut Vec<F>,
    more_keys: &[Key],
    more_numbers: &[F],
) -> Result<(), AllocError>
    ensures keys { OnOk result (keys.new.items ≡ keys.old.items ++ more_keys.now) }
    ensures numbers { OnOk result (numbers.new.items ≡ numbers.old.items ++ more_numbers.now) }
    ensures keys_kept { OnErr result (keys.new.items ≡ keys.old.items) }
    ensures numbers_kept { OnErr result (numbers.new.items ≡ numbers.old.items) }
{
    let mut copies = copied(alloc, more_keys)?;
    let there = numbers.len();
    numbers.extend_from_slice(more_numbers)?;
    if let Err(error) = keys.append(&mut copies) {
        numbers.truncate(there);
        return Err(error);
    }
    Ok(())
}

/// Merges the entries of the second side into those of the first, adding the numbers of one key.
/// After a fault all is as it was.
pub(crate) fn join<F: ExactField>(
    alloc: Global,
    keys: &mut Vec<Key>,
    numbers: &mut Vec<F>,
    more_keys: &[Key],
    more_numbers: &[F],
) -> Result<(), FormFault>
    requires ordered { AreOrdered keys.old.items }
    requires paired { length numbers.old.items ≡ length keys.old.items }
    requires others_paired { length more_numbers.now ≡ length more_keys.now }
    ensures joined { Joins
        (Merges F.value F.limit keys.old.items numbers.old.items more_keys.now more_numbers.now)
        keys.new.items numbers.new.items result }
    ensures keys_kept { OnErr result (keys.new.items ≡ keys.old.items) }
    ensures numbers_kept { OnErr result (numbers.new.items ≡ numbers.old.items) }
{
    if is_after(more_keys, keys.as_slice()) {
        extend(alloc, keys, numbers, more_keys, more_numbers)?;
        return Ok(());
    }
    let Terms {
        keys: joined_keys,
        numbers: joined_numbers,
    } = merged(
        alloc,
        keys.as_slice(),
        numbers.as_slice(),
        more_keys,
        more_numbers,
    )?;
    *keys = joined_keys;
    *numbers = joined_numbers;
    Ok(())
}
