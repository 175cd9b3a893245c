//! The affine form of an expression.
ghost use Rattle.std.specs.Prelude.{map, option_map, Ok, ◌≡◌};
ghost use Rattle.gq_extended.specs.Meaning.{extended};
ghost use Rattle.gms_ast.specs.Trees.{signed};
ghost use Rattle.gms_ast.specs.TreeView.{tree_of, control_tree, index_tree, indices_of};
ghost use Rattle.gms_eval.specs.Faults.{◌and_then◌};
ghost use Rattle.gms_eval.specs.Gives.{Gives};
ghost use Rattle.gms_eval.specs.Nodes.{in_order, signed_step};
ghost use Rattle.gms_eval.specs.References.{tuple_of};
ghost use Rattle.gms_eval.specs.Value.{value, labels};
ghost use Rattle.gms_rows.specs.Affine.{affine, form_of_constant, element_form, form_of, prefix, with_next};
ghost use Rattle.gms_rows.specs.Forms.{form_in};
ghost use Rattle.gms_rows.specs.InnerContracts.{parts_in, added_at, chain_form, signed_join, total_form};

use crate::steps::{add, add_to, divide, finished, multiply, scale};
use crate::variables::{count_before_variables, has_variables};
use gms_ast::{Control, Expr, Index};
use gms_eval::{
    Binding, ExecStopOrMemory, Signed, StopKind, all_hold, domain, signed_chain, tuple_of, value,
};
use gms_labels::Place;
use gms_store::Store;
use gms_tuple::Tuple;
use gq_extended::Ext;
use gq_field::ExactField;
use lp_form::{Form, FormSum, Key};
use std::alloc::Global;

/// The affine form of the expression `e` in a state: a constant, and a coefficient for each element
/// of a variable. `e` begins at the place `at`. The binding `b` gives each controlled set its
/// label. A variable with a suffix, such as `x.l`, is a value. Callers pass a linear expression; no
/// contract states this.
///
/// The error is the first stop (an execution error), or out of memory. The terms or factors before
/// the first with variables are joined as values; if the result is no number, the stop is
/// `Undefined` at the first of them. Any other operand without variables, or `e` without them, has
/// its value as a constant form; if that is no number, the stop is `Undefined` at its place. Forms
/// are joined entry by entry, the constant first: the stop is `Limit` if a number exceeds the
/// field's limit, `Divide` if a divisor is 0. Values, guards, lags and domains of folds have their
/// own stops. GAMS User's Guide, "Equations".
#[cycle(affine)]
pub fn affine<F: ExactField>(
    alloc: Global,
    store: &Store<F>,
    e: &Expr<F>,
    at: Place,
    b: &Binding,
) -> Result<Form<F>, ExecStopOrMemory<F>>
    ensures { Gives F.value (form_in F.value) result (affine F.value F.limit store.now at b.now (tree_of e.now)) }
{
    if !has_variables(store, e) {
        return constant(alloc, store, e, at, b);
    }
    match e {
        Expr::Ref { name, indices, .. } => variable(alloc, store, *name, indices, b),
        Expr::Fold {
            at,
            control,
            body,
            ..
        } => total(alloc, store, body, control, *at, b),
        Expr::Neg(operand) => {
            let form = affine(alloc, store, operand, at, b)?;
            scale(alloc, &form, F::one().neg(), at, b)
        }
        Expr::Plus(parts) => chain(alloc, store, Signed::Sum, parts, b),
        Expr::Times(parts) => chain(alloc, store, Signed::Product, parts, b),
        Expr::Guard { operand, guards } => {
            if all_hold(alloc, store, guards, b)? {
                affine(alloc, store, operand, at, b)
            } else {
                Ok(Form::constant(alloc, F::zero()))
            }
        }
        other => constant(alloc, store, other, at, b),
    }
}

/// The form of a value. `Undefined` at a place if it is no number.
#[inline(never)]
fn number<F: ExactField>(
    alloc: Global,
    value: Ext<F>,
    at: Place,
    b: &Binding,
) -> Result<Form<F>, ExecStopOrMemory<F>>
    ensures { Gives F.value (form_in F.value) result (form_of at b.now (extended F.value value)) }
{
    match value {
        Ext::Number(x) => Ok(Form::constant(alloc, x)),
        _ => {
            let zero = Ext::Number(F::zero());
            Err(ExecStopOrMemory::at_step(alloc, StopKind::Undefined, at, value, zero, b))
        }
    }
}

/// The form of an expression without variables: its value.
#[inline(never)]
fn constant<F: ExactField>(
    alloc: Global,
    store: &Store<F>,
    e: &Expr<F>,
    at: Place,
    b: &Binding,
) -> Result<Form<F>, ExecStopOrMemory<F>>
    ensures { Gives F.value (form_in F.value) result (form_of_constant F.value F.limit store.now at b.now (tree_of e.now)) }
{
    let value = value(alloc, store, e, b)?;
    number(alloc, value, at, b)
}

/// The form of an element of a variable; 0 if a lag goes past the ends of its set.
#[inline(never)]
fn variable<F: ExactField>(
    alloc: Global,
    store: &Store<F>,
    name: u32,
    indices: &[Index<F>],
    b: &Binding,
) -> Result<Form<F>, ExecStopOrMemory<F>>
    ensures { Gives F.value (form_in F.value) result
        (in_order (labels F.value F.limit store.now b.now (indices_of (map index_tree indices.now))) and_then
        λ those. Ok (element_form name (tuple_of those))) }
{
    match tuple_of(alloc, store, indices, b)? {
        Some(tuple) => Ok(Form::column(
            alloc,
            Key {
                symbol: name,
                tuple,
            },
        )?),
        None => Ok(Form::constant(alloc, F::zero())),
    }
}

/// The form of a sum over a domain.
#[cycle(affine)]
#[inline(never)]
fn total<F: ExactField>(
    alloc: Global,
    store: &Store<F>,
    body: &Expr<F>,
    control: &Control<F>,
    at: Place,
    b: &Binding,
) -> Result<Form<F>, ExecStopOrMemory<F>>
    ensures { Gives F.value (form_in F.value) result (total_form F.value F.limit store.now at b.now (control_tree control.now) (tree_of body.now)) }
{
    let mut inner = b.copy(alloc)?;
    let elements = domain(alloc, store, control, at, b)?;
    let mut total = FormSum::new(alloc);
    add_elements(
        alloc,
        store,
        body,
        control.sets.as_slice(),
        at,
        b,
        &elements,
        &mut inner,
        &mut total,
    )?;
    let sum = finished(alloc, total)?;
    Ok(sum)
}

/// Adds the forms of an expression at elements: these sets are bound to the labels of each element,
/// after the pairs of a binding.
#[cycle(affine)]
#[inline(never)]
fn add_elements<F: ExactField>(
    alloc: Global,
    store: &Store<F>,
    body: &Expr<F>,
    sets: &[u32],
    at: Place,
    b: &Binding,
    elements: &[Tuple],
    inner: &mut Binding,
    so_far: &mut FormSum<F>,
) -> Result<(), ExecStopOrMemory<F>>
    requires { inner.old ≡ b.now }
    ensures { Gives F.value (λ _. form_in F.value so_far.new) result
        (added_at F.value F.limit store.now at b.now sets.now (tree_of body.now) (form_in F.value so_far.old) elements.now) }
{
    for element in elements {
        inner.control(b.len(), sets, element.as_slice())?;
        let form = affine(alloc, store, body, at, inner)?;
        add_to(alloc, so_far, &form, at, b)?;
    }
    Ok(())
}

/// The form of a sum or a product: the parts before the first with variables make one number, and
/// each other part is one step on forms.
#[cycle(affine)]
#[inline(never)]
fn chain<F: ExactField>(
    alloc: Global,
    store: &Store<F>,
    kind: Signed,
    parts: &[(Place, bool, Expr<F>)],
    b: &Binding,
) -> Result<Form<F>, ExecStopOrMemory<F>>
    ensures { Gives F.value (form_in F.value) result (chain_form F.value F.limit store.now b.now kind (parts_in parts.now)) }
{
    let count = count_before_variables(store, parts);
    let (values, rest) = parts.split_at(count);
    let mut so_far = prefix(alloc, store, kind, values, b)?;
    for (at, inverse, part) in rest {
        let form = affine(alloc, store, part, *at, b)?;
        let next = join(alloc, kind, so_far, form, *at, *inverse, b)?;
        so_far = Some(next);
    }
    match so_far {
        Some(form) => Ok(form),
        None => Ok(Form::constant(alloc, F::zero())),
    }
}

/// The form of the parts before the first with variables: the number that they make. `Undefined` at
/// the first part if it is none.
#[inline(never)]
fn prefix<F: ExactField>(
    alloc: Global,
    store: &Store<F>,
    kind: Signed,
    parts: &[(Place, bool, Expr<F>)],
    b: &Binding,
) -> Result<Option<Form<F>>, ExecStopOrMemory<F>>
    ensures { Gives F.value (option_map (form_in F.value)) result (prefix b.now (signed_step F.limit b.now kind)
        (map (λ part. (signed part.0 part.1, value F.value F.limit store.now b.now (tree_of part.2))) parts.now)) }
{
    let Some((first, _)) = parts.split_first() else {
        return Ok(None);
    };
    let value = signed_chain(alloc, store, kind, parts, b)?;
    let form = number(alloc, value, first.0, b)?;
    Ok(Some(form))
}

/// The form so far joined with that of the next part of a sum or a product, which gives the first
/// form.
#[inline(never)]
fn join<F: ExactField>(
    alloc: Global,
    kind: Signed,
    so_far: Option<Form<F>>,
    form: Form<F>,
    at: Place,
    inverse: bool,
    b: &Binding,
) -> Result<Form<F>, ExecStopOrMemory<F>>
    ensures { Gives F.value (form_in F.value) result
        (with_next (signed_join F.limit b.now kind) (signed at inverse) (option_map (form_in F.value) so_far) (form_in F.value form)) }
{
    let Some(left) = so_far else {
        return Ok(form);
    };
    match kind {
        Signed::Sum => add(alloc, left, &form, inverse, at, b),
        Signed::Product => {
            if inverse {
                divide(alloc, &left, form.offset(), at, b)
            } else {
                multiply(alloc, &left, &form, at, b)
            }
        }
    }
}
