//! A constant, and the numbers of keys in a map.
ghost use Rattle.std.specs.Prelude.{◌≡◌, [], pos, length, IfOk, OnOk, if◌then◌else◌};
ghost use Rattle.gq_number.specs.Number.{whole};
ghost use Rattle.lp_form.specs.declared.key.Key.{Key};
ghost use Rattle.lp_form.specs.Affine.{IsForm};
ghost use Rattle.lp_form.specs.Forms.{coefficient};
ghost use Rattle.lp_form.specs.Keys.{same_key, AreOrdered};
ghost use Rattle.lp_form.specs.Sums.{number_or};

use crate::fault::FormFault;
use crate::form::Form;
use crate::key::Key;
use gq_field::ExactField;
use std::alloc::{AllocError, Global};
use std::collections::BTreeMap;
use std::marker::Model;

/// A constant, and a number that is not 0 for each of finitely many keys, in a map from the keys.
#[derive(Drop)]
pub(crate) struct Entries<F: ExactField> {
    constant: F,
    numbers: BTreeMap<Key, F>,
}

impl<F: ExactField> Model for Entries<F> {
    ghost use Rattle.std.specs.Map.{keys_of, values_of};
    ghost use Rattle.lp_form.specs.Affine.{Affine, IsForm};

    ghost Value = { Affine F };

    ghost view = { λ e. record { constant = e.constant; keys = keys_of e.numbers.entries; numbers = values_of e.numbers.entries } };

    ghost invariant = { λ e. IsForm F.value (record { constant = e.constant; keys = keys_of e.numbers.entries; numbers = values_of e.numbers.entries }) };
}

impl<F: ExactField> Entries<F> {
    /// A constant without keys.
    fn new(alloc: Global, constant: F) -> Entries<F>
        ensures constant { result.constant ≡ constant }
        ensures keys { result.keys ≡ [] }
    {
        Entries {
            constant,
            numbers: BTreeMap::new(alloc),
        }
    }

    /// The constant and the numbers of a form.
    pub(crate) fn of_form(alloc: Global, form: &Form<F>) -> Result<Entries<F>, AllocError>
        ensures constant { IfOk result (λ entries. entries.constant ≡ form.now.constant) }
        ensures numbers { IfOk result (λ entries. (key : Key) → coefficient F.value entries key ≡ coefficient F.value form.now key) }
    {
        let mut entries = Entries::new(alloc, form.offset());
        entries.put_all(alloc, form.keys(), form.numbers())?;
        Ok(entries)
    }

    /// The constant.
    pub(crate) fn offset(&self) -> F
        ensures constant { result ≡ self.now.constant }
        ensures form { IsForm F.value self.now }
    {
        self.constant
    }

    /// The number of a key, which is 0 if the map does not have the key.
    pub(crate) fn get(&self, k: &Key) -> F
        ensures { F.value result ≡ coefficient F.value self.now k.now }
    {
        match self.numbers.get(k) {
            Some(number) => *number,
            None => F::zero(),
        }
    }

    /// Replaces the constant.
    pub(crate) fn set_offset(&mut self, constant: F)
        ensures constant { self.new.constant ≡ constant }
        ensures keys { self.new.keys ≡ self.old.keys }
        ensures numbers { self.new.numbers ≡ self.old.numbers }
        ensures form { IsForm F.value self.new }
    {
        self.constant = constant;
    }

    /// Puts a number at a key; a key with the number 0 leaves the map.
    fn put(&mut self, k: Key, number: F) -> Result<(), AllocError>
        ensures constant { self.new.constant ≡ self.old.constant }
        ensures numbers { OnOk result ((key : Key) → coefficient F.value self.new key ≡
            (if same_key k key then F.value number else coefficient F.value self.old key)) }
    {
        if number.is_zero() {
            self.numbers.remove(&k);
            return Ok(());
        }
        self.numbers.insert(k, number)?;
        Ok(())
    }

    /// Puts numbers at keys.
    pub(crate) fn put_all(
        &mut self,
        alloc: Global,
        keys: &[Key],
        numbers: &[F],
    ) -> Result<(), AllocError>
        requires ordered { AreOrdered keys.now }
        requires paired { length numbers.now ≡ length keys.now }
        ensures constant { self.new.constant ≡ self.old.constant }
        ensures numbers { OnOk result ((key : Key) → coefficient F.value self.new key ≡
            number_or F.value (coefficient F.value self.old key) keys.now numbers.now key) }
    {
        for (i, key) in keys.iter().enumerate() {
            let copy = key.copy(alloc)?;
            self.put(copy, numbers[i])?;
        }
        Ok(())
    }

    /// The form with this constant and these numbers.
    pub(crate) fn into_form(self, alloc: Global) -> Result<Form<F>, AllocError>
        ensures constant { IfOk result (λ form. F.value form.constant ≡ F.value self.constant) }
        ensures numbers { IfOk result (λ form. (key : Key) → coefficient F.value form key ≡ coefficient F.value self key) }
    {
        let Entries { constant, numbers } = self;
        let mut form = Form::constant(alloc, constant);
        for (key, number) in numbers {
            add_term(alloc, &mut form, key, number)?;
        }
        Ok(form)
    }
}

/// The form of a number at one key.
fn term<F: ExactField>(alloc: Global, key: Key, number: F) -> Result<Form<F>, AllocError>
    ensures constant { IfOk result (λ form. F.value form.constant ≡ whole (pos 0)) }
    ensures numbers { IfOk result (λ form. (k : Key) → coefficient F.value form k ≡ (if same_key key k then F.value number else whole (pos 0))) }
{
    let column = Form::column(alloc, key)?;
    match column.scale(alloc, number) {
        Ok(form) => Ok(form),
        Err(FormFault::Memory) => Err(AllocError),
        // 0 and 1 times a number fit
        Err(FormFault::Limit(_)) => unreachable!(),
    }
}

/// Puts a number at a key at which a form has 0.
fn add_term<F: ExactField>(
    alloc: Global,
    form: &mut Form<F>,
    key: Key,
    number: F,
) -> Result<(), AllocError>
    requires absent { coefficient F.value form.old key ≡ whole (pos 0) }
    ensures constant { OnOk result (F.value form.new.constant ≡ F.value form.old.constant) }
    ensures numbers { OnOk result ((k : Key) → coefficient F.value form.new k ≡ (if same_key key k then F.value number else coefficient F.value form.old k)) }
{
    let term = term(alloc, key, number)?;
    match form.add_assign(alloc, &term) {
        Ok(()) => Ok(()),
        Err(FormFault::Memory) => Err(AllocError),
        // a sum with 0 fits
        Err(FormFault::Limit(_)) => unreachable!(),
    }
}
