//! An affine form and the calls on it.
ghost use Rattle.std.specs.Prelude.{◌≡◌, ◌≢◌, ◌∷◌, [], pos, map, IfOk, OnErr};
ghost use Rattle.std.specs.Result.{result_map_both};
ghost use Rattle.gq_number.specs.Number.{whole};
ghost use Rattle.lp_form.specs.Affine.{IsForm};
ghost use Rattle.lp_form.specs.Forms.{coefficient, sum_form_step, difference_step, product_form_step, quotient_step, of_two, by_number, changed_form, IsEntrywiseAnswer, IsNegated};
ghost use Rattle.lp_form.specs.InnerOperations.{step_by, CanDivide};

use crate::fault::FormFault;
use crate::key::Key;
use crate::terms::{Operation, Terms, changed, copied, join, negated};
use gq_field::ExactField;
use std::alloc::{AllocError, Global};
use std::marker::Model;

/// An affine form: a constant, and for each of finitely many keys a coefficient that is not 0, in
/// the order of keys. A key is an element of a symbol, such as `x(seattle,chicago)`.
///
/// The left side of `cost.. z - 2*x =e= 5;` is the form with the constant 0, the coefficient 1 at
/// `z` and -2 at `x`. At a key that the form does not have, its coefficient is 0.
pub struct Form<F: ExactField> {
    constant: F,
    keys: Vec<Key>,
    numbers: Vec<F>,
}

// Written out, so that it is proved once, and not in each crate that drops one.
impl<F: ExactField> Drop for Form<F> {
    fn drop(self) {
        let Self {
            constant: _,
            keys: _,
            numbers: _,
        } = self;
    }
}

impl<F: ExactField> Model for Form<F> {
    ghost use Rattle.lp_form.specs.Affine.{Affine, IsForm};

    ghost Value = { Affine F };

    ghost view = { λ f. record { constant = f.constant; keys = f.keys.items; numbers = f.numbers.items } };

    ghost invariant = { λ f. IsForm F.value (record { constant = f.constant; keys = f.keys.items; numbers = f.numbers.items }) };
}

impl<F: ExactField> Form<F> {
    /// The form with the constant `v` and without keys.
    pub fn constant(alloc: Global, v: F) -> Form<F>
        ensures constant { result.constant ≡ v }
        ensures keys { result.keys ≡ [] }
        ensures form { IsForm F.value result }
    {
        Form {
            constant: v,
            keys: Vec::new(alloc),
            numbers: Vec::new(alloc),
        }
    }

    /// The form with the constant 0 and the only key `k`, which has the coefficient 1. The error is
    /// out of memory.
    pub fn column(alloc: Global, k: Key) -> Result<Form<F>, AllocError>
        ensures constant { IfOk result (λ form. F.value form.constant ≡ whole (pos 0)) }
        ensures keys { IfOk result (λ form. form.keys ≡ k ∷ []) }
        ensures number { IfOk result (λ form. map F.value form.numbers ≡ whole (pos 1) ∷ []) }
        ensures form { IfOk result (IsForm F.value) }
    {
        let mut keys = Vec::new(alloc);
        let mut numbers = Vec::new(alloc);
        keys.push(k)?;
        numbers.push(F::one())?;
        Ok(Form {
            constant: F::zero(),
            keys,
            numbers,
        })
    }

    /// The coefficient of the key `k`; 0 if the form does not have the key.
    pub fn get(&self, k: &Key) -> F
        ensures { F.value result ≡ coefficient F.value self.now k.now }
    {
        match self.keys.as_slice().binary_search(k) {
            Ok(place) => self.numbers[place],
            Err(_) => F::zero(),
        }
    }

    /// The constant of the form.
    pub fn offset(&self) -> F
        ensures { result ≡ self.now.constant }
    {
        self.constant
    }

    /// The keys of the form, in the order of keys.
    pub fn keys(&self) -> &[Key]
        ensures keys { result.now ≡ self.now.keys }
        ensures form { IsForm F.value self.now }
    {
        self.keys.as_slice()
    }

    /// The coefficients of the form, in the order of their keys.
    pub fn numbers(&self) -> &[F]
        ensures numbers { result.now ≡ self.now.numbers }
        ensures form { IsForm F.value self.now }
    {
        self.numbers.as_slice()
    }

    /// A copy, equal to this form.
    pub fn copy(&self, alloc: Global) -> Result<Form<F>, AllocError>
        ensures { IfOk result (λ copy. copy ≡ self.now) }
    {
        Ok(Form {
            constant: self.constant,
            keys: copied(alloc, self.keys.as_slice())?,
            numbers: Vec::from_slice(alloc, self.numbers.as_slice())?,
        })
    }

    /// Adds the form `o` to this form: constant to constant, and coefficient to coefficient at each
    /// key, 0 if absent. A key whose sum is 0 is dropped.
    ///
    /// An addition fits if no integer that it computes exceeds the field's limit in magnitude. On
    /// success all additions fit. `Limit` names the first that does not fit: the constant (`None`)
    /// comes first, then the keys in order. Out of memory can always occur. After either fault this
    /// form is unchanged. If all keys of `o` come after those of this form, the time depends on the
    /// entries of `o` alone.
    pub fn add_assign(&mut self, alloc: Global, o: &Form<F>) -> Result<(), FormFault>
        ensures value { IsEntrywiseAnswer F.value (of_two (sum_form_step F.limit) F.value self.old o.now)
            (result_map_both (λ _. self.new) (λ fault. fault) result) }
        ensures unchanged { OnErr result (self.new ≡ self.old) }
    {
        let Ok(constant) = self.constant.add(o.constant) else {
            return Err(FormFault::Limit(None));
        };
        join(
            alloc,
            &mut self.keys,
            &mut self.numbers,
            o.keys.as_slice(),
            o.numbers.as_slice(),
        )?;
        self.constant = constant;
        Ok(())
    }

    /// The sum of this form and the form `o`: of the constants and, at each key, of the
    /// coefficients. A sum fits if no number computed on the way to it exceeds the field's limit in
    /// magnitude. On success all sums fit. `Limit` names the first that does not fit: the constant
    /// (`None`) comes first, then the keys in order. Out of memory can always occur.
    pub fn add(&self, alloc: Global, o: &Form<F>) -> Result<Form<F>, FormFault>
        ensures { IsEntrywiseAnswer F.value (of_two (sum_form_step F.limit) F.value self.now o.now) result }
    {
        let mut sum = self.copy(alloc)?;
        sum.add_assign(alloc, o)?;
        Ok(sum)
    }

    /// This form minus the form `o`: the difference of the constants and, at each key, of the
    /// coefficients, 0 if absent.
    ///
    /// A difference x - y fits if no integer that the addition of x and -y computes exceeds the
    /// field's limit in magnitude. On success all differences fit. `Limit` names the first that
    /// does not fit: the constant (`None`) comes first, then the keys in order. Out of memory can
    /// always occur.
    pub fn sub(&self, alloc: Global, o: &Form<F>) -> Result<Form<F>, FormFault>
        ensures { IsEntrywiseAnswer F.value (of_two (difference_step F.limit) F.value self.now o.now) result }
    {
        let negated = o.negated(alloc)?;
        self.add(alloc, &negated)
    }

    /// This form times `v`: the constant and each coefficient times `v`. A product fits if its
    /// reduced numerator and denominator are at most the field's limit in magnitude. On success all
    /// products fit. `Limit` names the first that does not fit: the constant (`None`) comes first,
    /// then the keys in order. Out of memory can always occur.
    pub fn scale(&self, alloc: Global, v: F) -> Result<Form<F>, FormFault>
        ensures { IsEntrywiseAnswer F.value (by_number (product_form_step F.limit) F.value self.now (F.value v)) result }
    {
        self.after(alloc, Operation::Times(v))
    }

    /// This form divided by `v`, which must not be 0: the constant and each coefficient over `v`. A
    /// quotient fits if its reduced numerator and denominator are at most the field's limit in
    /// magnitude. On success all quotients fit. `Limit` names the first that does not fit: the
    /// constant (`None`) comes first, then the keys in order. Out of memory can always occur.
    pub fn divide(&self, alloc: Global, v: F) -> Result<Form<F>, FormFault>
        requires { F.value v ≢ whole (pos 0) }
        ensures { IsEntrywiseAnswer F.value (by_number (quotient_step F.limit) F.value self.now (F.value v)) result }
    {
        self.after(alloc, Operation::Over(v))
    }

    /// The form with each number negated.
    fn negated(&self, alloc: Global) -> Result<Form<F>, AllocError>
        ensures { IfOk result (IsNegated F.value self.now) }
    {
        Ok(Form {
            constant: self.constant.neg(),
            keys: copied(alloc, self.keys.as_slice())?,
            numbers: negated(alloc, self.numbers.as_slice())?,
        })
    }

    /// The form with each number after an operation.
    fn after(&self, alloc: Global, operation: Operation<F>) -> Result<Form<F>, FormFault>
        requires { CanDivide F.value operation }
        ensures { IsEntrywiseAnswer F.value (changed_form F.value (step_by F.value F.limit operation) self.now) result }
    {
        let Ok(constant) = operation.apply(self.constant) else {
            return Err(FormFault::Limit(None));
        };
        let Terms { keys, numbers } = changed(
            alloc,
            operation,
            self.keys.as_slice(),
            self.numbers.as_slice(),
        )?;
        Ok(Form {
            constant,
            keys,
            numbers,
        })
    }
}
