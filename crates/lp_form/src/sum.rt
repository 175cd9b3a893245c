//! A sum of affine forms and the calls on it.
ghost use Rattle.std.specs.Prelude.{◌≡◌, [], pos, length, IfOk, IfErr, OnOk};
ghost use Rattle.std.specs.Result.{result_map_both};
ghost use Rattle.gq_number.specs.Number.{whole};
ghost use Rattle.lp_form.specs.declared.key.Key.{Key};
ghost use Rattle.lp_form.specs.Affine.{IsForm};
ghost use Rattle.lp_form.specs.Forms.{coefficient, sum_form_step, of_two, IsEntrywiseAnswer};
ghost use Rattle.lp_form.specs.Keys.{AreOrdered};
ghost use Rattle.lp_form.specs.Sums.{IsUnchangedByFault, Sums};
ghost use Rattle.lp_form.specs.Shown.{shown};

use crate::entries::Entries;
use crate::fault::FormFault;
use crate::form::Form;
use crate::key::Key;
use gq_field::ExactField;
use std::alloc::{AllocError, Global};
use std::marker::Model;
use std::mem;

/// A sum with at most this many entries is stored as a form, whatever is added.
const FEW: usize = 16;

/// A sum of affine forms. Each form is a constant and entries by ascending key: a key (an element
/// of a variable) and its coefficient, not 0. Contracts view the sum as the form that it equals.
///
/// Adding a form of n entries to a sum of m takes time in proportion to n log m, or to n if all
/// keys of the form come after those of the sum.
#[derive(Drop)]
pub struct FormSum<F: ExactField> {
    kept: Kept<F>,
}

/// How a sum is stored.
#[derive(Drop)]
enum Kept<F: ExactField> {
    /// As a form, while each added entry follows those before it.
    List(Form<F>),
    /// In a map from the keys.
    Map(Entries<F>),
}

impl<F: ExactField> Model for FormSum<F> {
    ghost use Rattle.lp_form.specs.Affine.{Affine};
    ghost use Rattle.lp_form.specs.Shown.{shown};

    ghost Value = { Affine F };

    ghost view = { λ s. shown s.kept };
}

impl<F: ExactField> FormSum<F> {
    /// The sum of no forms: the constant 0, and no keys.
    pub fn new(alloc: Global) -> FormSum<F>
        ensures constant { F.value result.constant ≡ whole (pos 0) }
        ensures keys { result.keys ≡ [] }
    {
        FormSum {
            kept: Kept::List(Form::constant(alloc, F::zero())),
        }
    }

    /// The coefficient of the key `k` in the sum; 0 if the sum does not have the key.
    pub fn get(&self, k: &Key) -> F
        ensures { F.value result ≡ coefficient F.value self.now k.now }
    {
        match &self.kept {
            Kept::List(form) => form.get(k),
            Kept::Map(entries) => entries.get(k),
        }
    }

    /// The constant of the sum. Also, the view of the sum is a form: its keys ascend strictly, each
    /// with its coefficient, and no coefficient is 0.
    pub fn offset(&self) -> F
        ensures constant { result ≡ self.now.constant }
        ensures form { IsForm F.value self.now }
    {
        match &self.kept {
            Kept::List(form) => {
                let _ = form.keys();
                form.offset()
            }
            Kept::Map(entries) => entries.offset(),
        }
    }

    /// Adds the affine form `o` to this sum: constant to constant, and coefficient to coefficient
    /// at each key, 0 if absent.
    ///
    /// An addition fits if no integer that it computes exceeds the field's limit in magnitude. On
    /// success all additions fit. `Limit` names the first that does not fit: the constant (`None`)
    /// comes first, then the keys in order. With `Limit` the sum is unchanged. If memory runs out,
    /// which can always occur, the sum may have any value.
    pub fn add_assign(&mut self, alloc: Global, o: &Form<F>) -> Result<(), FormFault>
        ensures value { IsEntrywiseAnswer F.value (of_two (sum_form_step F.limit) F.value self.old o.now)
            (result_map_both (λ _. self.new) (λ fault. fault) result) }
        ensures unchanged { IfErr result (IsUnchangedByFault self.old self.new) }
    {
        if let Kept::List(form) = &mut self.kept {
            if is_cheap(form, o) {
                return form.add_assign(alloc, o);
            }
        }
        self.add_among(alloc, o)
    }

    /// The form that the sum equals: it has the sum's constant, and the sum's coefficient of each
    /// key. The error is out of memory.
    pub fn into_form(self, alloc: Global) -> Result<Form<F>, AllocError>
        ensures constant { IfOk result (λ form. F.value form.constant ≡ F.value self.constant) }
        ensures numbers { IfOk result (λ form. (key : Key) → coefficient F.value form key ≡ coefficient F.value self key) }
    {
        let FormSum { kept } = self;
        match kept {
            Kept::List(form) => Ok(form),
            Kept::Map(entries) => entries.into_form(alloc),
        }
    }

    /// Adds a form whose entries belong among those of the sum.
    fn add_among(&mut self, alloc: Global, o: &Form<F>) -> Result<(), FormFault>
        ensures value { IsEntrywiseAnswer F.value (of_two (sum_form_step F.limit) F.value self.old o.now)
            (result_map_both (λ _. self.new) (λ fault. fault) result) }
        ensures unchanged { IfErr result (IsUnchangedByFault self.old self.new) }
    {
        let Ok(constant) = self.offset().add(o.offset()) else {
            return Err(FormFault::Limit(None));
        };
        let keys = o.keys();
        let sums = self.sums(alloc, keys, o.numbers())?;
        let kept = mem::replace(&mut self.kept, Kept::List(Form::constant(alloc, F::zero())));
        let mut entries = entries_of(alloc, kept)?;
        entries.put_all(alloc, keys, sums.as_slice())?;
        entries.set_offset(constant);
        self.kept = Kept::Map(entries);
        Ok(())
    }

    /// The numbers of the sum at some keys after adding these numbers.
    fn sums(&self, alloc: Global, keys: &[Key], numbers: &[F]) -> Result<Vec<F>, FormFault>
        requires ordered { AreOrdered keys.now }
        requires paired { length numbers.now ≡ length keys.now }
        ensures { Sums F.value F.limit (coefficient F.value self.now) keys.now numbers.now (result_map_both (λ sums. sums.items) (λ fault. fault) result) }
    {
        let mut sums = Vec::new(alloc);
        for (i, key) in keys.iter().enumerate() {
            let Ok(sum) = self.get(key).add(numbers[i]) else {
                let at = key.copy(alloc)?;
                return Err(FormFault::Limit(Some(at)));
            };
            sums.push(sum)?;
        }
        Ok(sums)
    }
}

/// Whether adding a form to another is cheap: all its keys follow the other's, or the other has
/// few.
fn is_cheap<F: ExactField>(form: &Form<F>, o: &Form<F>) -> bool {
    match (form.keys().last(), o.keys().first()) {
        (Some(last), Some(key)) => form.keys().len() < FEW || last.cmp(key).is_lt(),
        _ => true,
    }
}

/// The entries of a sum, in a map.
fn entries_of<F: ExactField>(alloc: Global, kept: Kept<F>) -> Result<Entries<F>, AllocError>
    ensures { IfOk result (λ entries. (key : Key) → coefficient F.value entries key ≡ coefficient F.value (shown kept) key) }
{
    match kept {
        Kept::List(form) => Entries::of_form(alloc, &form),
        Kept::Map(entries) => Ok(entries),
    }
}
