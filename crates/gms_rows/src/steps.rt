//! The steps on forms, with the faults of a run.
ghost use Rattle.std.specs.Prelude.{◌≡◌, IfOk, OnErr, false, if◌then◌else◌};
ghost use Rattle.std.specs.Result.{result_map_both};
ghost use Rattle.gq_extended.specs.Extended.{number};
ghost use Rattle.gq_extended.specs.Meaning.{extended};
ghost use Rattle.lp_form.specs.Forms.{sum_form_step, difference_step};
ghost use Rattle.gms_eval.specs.Gives.{Gives};
ghost use Rattle.gms_rows.specs.Forms.{form_in, number_in_form, entries_of_two, sum_of_forms, scaled_form, multiple, product_of_forms, quotient_of};
ghost use Rattle.gms_rows.specs.InnerContracts.{Told, ShowsFault};

use gms_eval::{Binding, ExecStopOrMemory, StopKind};
use gms_labels::Place;
use gq_extended::Ext;
use gq_field::ExactField;
use lp_form::{Form, FormFault, FormSum, Key};
use std::alloc::{AllocError, Global};

/// The number that a step reads: the constant of a form, or the number of a key.
fn entry<F: ExactField>(form: &Form<F>, key: &Option<Key>) -> Ext<F>
    ensures { extended F.value result ≡ number_in_form (form_in F.value form.now) key.now }
{
    let _ = form.keys();
    match key {
        None => Ext::Number(form.offset()),
        Some(key) => Ext::Number(form.get(key)),
    }
}

/// The stop of a step on two forms that does not fit.
#[inline(never)]
fn of_two<F: ExactField>(
    alloc: Global,
    fault: FormFault,
    left: &Form<F>,
    right: &Form<F>,
    at: Place,
    b: &Binding,
) -> ExecStopOrMemory<F>
    ensures { ShowsFault F.value at b.now (number_in_form (form_in F.value left.now)) (number_in_form (form_in F.value right.now)) fault result }
{
    match fault {
        FormFault::Memory => ExecStopOrMemory::Memory,
        FormFault::Limit(key) => {
            let left = entry(left, &key);
            let right = entry(right, &key);
            ExecStopOrMemory::at_step(alloc, StopKind::Limit, at, left, right, b)
        }
    }
}

/// Adds another form, or subtracts it. After a fault the form is unchanged.
fn increase<F: ExactField>(
    alloc: Global,
    form: &mut Form<F>,
    other: &Form<F>,
    subtracts: bool,
) -> Result<(), FormFault>
    ensures value { Told F.value (result_map_both (λ _. form.new) (λ fault. fault) result)
        (entries_of_two (if subtracts then difference_step F.limit else sum_form_step F.limit) (form_in F.value form.old) (form_in F.value other.now)) }
    ensures unchanged { OnErr result (form.new ≡ form.old) }
{
    let _ = form.keys();
    let _ = other.keys();
    if !subtracts {
        return form.add_assign(alloc, other);
    }
    let negated = other.scale(alloc, F::one().neg())?;
    form.add_assign(alloc, &negated)
}

/// The sum of two forms, or their difference, entry by entry. `Limit` at the place where one does
/// not fit.
#[inline(never)]
pub(crate) fn add<F: ExactField>(
    alloc: Global,
    left: Form<F>,
    right: &Form<F>,
    subtracts: bool,
    at: Place,
    b: &Binding,
) -> Result<Form<F>, ExecStopOrMemory<F>>
    ensures { Gives F.value (form_in F.value) result (sum_of_forms F.limit at b.now subtracts (form_in F.value left) (form_in F.value right.now)) }
{
    let mut sum = left;
    match increase(alloc, &mut sum, right, subtracts) {
        Ok(()) => Ok(sum),
        Err(fault) => Err(of_two(alloc, fault, &sum, right, at, b)),
    }
}

/// The number that a step reads: the constant of a sum in progress, or the number of a key.
fn entry_of_sum<F: ExactField>(sum: &FormSum<F>, key: &Option<Key>) -> Ext<F>
    ensures { extended F.value result ≡ number_in_form (form_in F.value sum.now) key.now }
{
    let constant = sum.offset();
    match key {
        None => Ext::Number(constant),
        Some(key) => Ext::Number(sum.get(key)),
    }
}

/// The stop of a step on a sum in progress and a form that does not fit.
#[inline(never)]
fn of_sum<F: ExactField>(
    alloc: Global,
    fault: FormFault,
    sum: &FormSum<F>,
    form: &Form<F>,
    at: Place,
    b: &Binding,
) -> ExecStopOrMemory<F>
    ensures { ShowsFault F.value at b.now (number_in_form (form_in F.value sum.now)) (number_in_form (form_in F.value form.now)) fault result }
{
    match fault {
        FormFault::Memory => ExecStopOrMemory::Memory,
        FormFault::Limit(key) => {
            let left = entry_of_sum(sum, &key);
            let right = entry(form, &key);
            ExecStopOrMemory::at_step(alloc, StopKind::Limit, at, left, right, b)
        }
    }
}

/// Adds a form to a sum in progress, entry by entry. `Limit` at the place where a step does not
/// fit.
#[inline(never)]
pub(crate) fn add_to<F: ExactField>(
    alloc: Global,
    sum: &mut FormSum<F>,
    form: &Form<F>,
    at: Place,
    b: &Binding,
) -> Result<(), ExecStopOrMemory<F>>
    ensures { Gives F.value (form_in F.value) (result_map_both (λ _. sum.new) (λ stop. stop) result)
        (sum_of_forms F.limit at b.now false (form_in F.value sum.old) (form_in F.value form.now)) }
{
    let _ = sum.offset();
    let _ = form.keys();
    match sum.add_assign(alloc, form) {
        Ok(()) => Ok(()),
        Err(fault) => Err(of_sum(alloc, fault, sum, form, at, b)),
    }
}

/// The form of a sum in progress.
#[inline(never)]
pub(crate) fn finished<F: ExactField>(alloc: Global, sum: FormSum<F>) -> Result<Form<F>, AllocError>
    ensures { IfOk result (λ form. form_in F.value form ≡ form_in F.value sum) }
{
    let _ = sum.offset();
    let form = sum.into_form(alloc)?;
    let _ = form.keys();
    Ok(form)
}

/// A form times a number, entry by entry. `Limit` at the place where a product does not fit.
#[inline(never)]
pub(crate) fn scale<F: ExactField>(
    alloc: Global,
    form: &Form<F>,
    x: F,
    at: Place,
    b: &Binding,
) -> Result<Form<F>, ExecStopOrMemory<F>>
    ensures { Gives F.value (form_in F.value) result (scaled_form F.limit at b.now false (form_in F.value form.now) (F.value x)) }
{
    let _ = form.keys();
    match form.scale(alloc, x) {
        Ok(product) => Ok(product),
        Err(fault) => Err(with_number(alloc, fault, form, x, at, b)),
    }
}

/// A number times a form, entry by entry. `Limit` at the place where a product does not fit.
fn multiple<F: ExactField>(
    alloc: Global,
    x: F,
    form: &Form<F>,
    at: Place,
    b: &Binding,
) -> Result<Form<F>, ExecStopOrMemory<F>>
    ensures { Gives F.value (form_in F.value) result (multiple F.limit at b.now (F.value x) (form_in F.value form.now)) }
{
    let _ = form.keys();
    match form.scale(alloc, x) {
        Ok(product) => Ok(product),
        Err(fault) => Err(after_number(alloc, fault, x, form, at, b)),
    }
}

/// The product of two forms, one of which is a number, entry by entry. `Limit` at the place where a
/// product does not fit.
#[inline(never)]
pub(crate) fn multiply<F: ExactField>(
    alloc: Global,
    left: &Form<F>,
    right: &Form<F>,
    at: Place,
    b: &Binding,
) -> Result<Form<F>, ExecStopOrMemory<F>>
    ensures { Gives F.value (form_in F.value) result (product_of_forms F.limit at b.now (form_in F.value left.now) (form_in F.value right.now)) }
{
    if right.keys().is_empty() {
        scale(alloc, left, right.offset(), at, b)
    } else {
        multiple(alloc, left.offset(), right, at, b)
    }
}

/// A form over a number, entry by entry. `Divide` at the place where the number is 0, `Limit` where
/// a quotient does not fit.
#[inline(never)]
pub(crate) fn divide<F: ExactField>(
    alloc: Global,
    form: &Form<F>,
    x: F,
    at: Place,
    b: &Binding,
) -> Result<Form<F>, ExecStopOrMemory<F>>
    ensures { Gives F.value (form_in F.value) result (quotient_of F.limit at b.now (form_in F.value form.now) (F.value x)) }
{
    if x.is_zero() {
        let left = Ext::Number(form.offset());
        return Err(ExecStopOrMemory::at_step(alloc, StopKind::Divide, at, left, Ext::Number(x), b));
    }
    let _ = form.keys();
    match form.divide(alloc, x) {
        Ok(quotient) => Ok(quotient),
        Err(fault) => Err(with_number(alloc, fault, form, x, at, b)),
    }
}

/// The stop of a step on a form and a number that does not fit.
#[inline(never)]
fn with_number<F: ExactField>(
    alloc: Global,
    fault: FormFault,
    form: &Form<F>,
    x: F,
    at: Place,
    b: &Binding,
) -> ExecStopOrMemory<F>
    ensures { ShowsFault F.value at b.now (number_in_form (form_in F.value form.now)) (λ _. number (F.value x)) fault result }
{
    match fault {
        FormFault::Memory => ExecStopOrMemory::Memory,
        FormFault::Limit(key) => {
            let left = entry(form, &key);
            ExecStopOrMemory::at_step(alloc, StopKind::Limit, at, left, Ext::Number(x), b)
        }
    }
}

/// The stop of a step on a number and a form that does not fit.
#[inline(never)]
fn after_number<F: ExactField>(
    alloc: Global,
    fault: FormFault,
    x: F,
    form: &Form<F>,
    at: Place,
    b: &Binding,
) -> ExecStopOrMemory<F>
    ensures { ShowsFault F.value at b.now (λ _. number (F.value x)) (number_in_form (form_in F.value form.now)) fault result }
{
    match fault {
        FormFault::Memory => ExecStopOrMemory::Memory,
        FormFault::Limit(key) => {
            let right = entry(form, &key);
            ExecStopOrMemory::at_step(alloc, StopKind::Limit, at, Ext::Number(x), right, b)
        }
    }
}
