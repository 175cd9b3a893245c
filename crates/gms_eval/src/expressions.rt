//! The value of an expression, whether a condition holds, and the elements of a domain.
ghost use Rattle.std.specs.Prelude.{◌≡◌, map, not, Ok, IfOk, option_map, option_copied};
ghost use Rattle.gq_extended.specs.Extended.{negated};
ghost use Rattle.gq_extended.specs.Meaning.{extended};
ghost use Rattle.gms_ast.specs.TreeView.{tree_of, control_tree};
ghost use Rattle.gms_ast.specs.Trees.{plain, signed, placed, related, chosen};
ghost use Rattle.gms_eval.specs.Nodes.{chain, power_step, relation_step, all_step, one_step, in_order, each_holds, folded, signed_step, called, is_so, truth};
ghost use Rattle.gms_eval.specs.Bindings.{controlled};
ghost use Rattle.gms_eval.specs.Domain.{those_where};
ghost use Rattle.gms_eval.specs.Faults.{◌and_then◌};
ghost use Rattle.gms_eval.specs.Gives.{Gives};
ghost use Rattle.gms_eval.specs.Holds.{holds};
ghost use Rattle.gms_eval.specs.References.{tuple_of, entry_or_zero};
ghost use Rattle.gms_eval.specs.Value.{value, domain, control_over, label_answer};
ghost use Rattle.gms_eval.specs.InnerContracts.{those_of, IsCounted};

use crate::binding::Binding;
use crate::elements::{Elements, all, keep, size};
use crate::functions::called;
use crate::indices::{place_in_set, reached, with_label};
use crate::leading::candidates;
use crate::references::entry_of;
use crate::steps::{
    Signed, all_part, counted, fold_part, is_left_by_and, is_left_by_or, is_so, one_part,
    power_part, related_part, signed_part, start, truth, zero,
};
use crate::stop::{ExecStopOrMemory, StopKind};
use gms_ast::{Control, Expr, FoldOp, Function, Index, RelOp, Suffix};
use gms_labels::Place;
use gms_store::Store;
use gms_tuple::Tuple;
use gq_extended::Ext;
use gq_field::ExactField;
use std::alloc::Global;

/// The value of the expression `e` in the state `store`, under the labels that the binding `b`
/// gives the controlled sets.
///
/// The error is `Memory` or the first fault. Operands are evaluated from the left to the right; the
/// conditions after `$` from the last to the first and before the operand of the `$`; the amounts
/// of all lags of a reference before the data that it reads; and the condition of a fold, such as
/// `sum`, for all elements before the fold's body for any element. Not evaluated are: the right
/// operand of `and` if the left one is 0; that of `or` if the left one is not 0; and, if a
/// condition after `$` is 0, the operand and the conditions before: the value is 0. The kinds of
/// fault are `Limit`, `Divide`, `LagNotWhole`, `EmptyExtreme`, `Exponent`, `DomainSize` and
/// `Undefined`. GAMS User's Guide, "Data Manipulations with Parameters", "Conditional Expressions,
/// Assignments and Equations".
///
/// A name that the program does not have reads as a name without data, and a set without a label in
/// the binding as an index without an element; an accepted program has neither.
#[cycle(value)]
pub fn value<F: ExactField>(
    alloc: Global,
    store: &Store<F>,
    e: &Expr<F>,
    b: &Binding,
) -> Result<Ext<F>, ExecStopOrMemory<F>>
    ensures { Gives F.value (extended F.value) result (value F.value F.limit store.now b.now (tree_of e.now)) }
{
    match e {
        Expr::Number(number) => Ok(Ext::Number(*number)),
        Expr::PlusInf => Ok(Ext::PlusInf),
        Expr::Na => Ok(Ext::Na),
        Expr::Yes => Ok(truth(true)),
        Expr::No => Ok(truth(false)),
        Expr::Ref {
            at,
            name,
            suffix,
            indices,
        } => referred(alloc, store, *at, *name, *suffix, indices, b),
        Expr::Ord { at, set } => counted(alloc, *at, place_in_set(alloc, store, *set, b)?, b),
        Expr::Card { at, set } => counted(alloc, *at, store.members(*set).len(), b),
        Expr::Call { at, function, args } => call(alloc, store, *at, *function, args, b),
        Expr::Fold {
            at,
            op,
            control,
            body,
        } => {
            let those = elements_of(alloc, store, control, *at, b)?;
            folded(
                alloc,
                store,
                *op,
                *at,
                control.sets.as_slice(),
                &those,
                body,
                b,
            )
        }
        Expr::Neg(operand) => negative(alloc, store, operand, b),
        Expr::Plus(parts) => signed_chain(alloc, store, Signed::Sum, parts, b),
        Expr::Times(parts) => signed_chain(alloc, store, Signed::Product, parts, b),
        Expr::Power(parts) => powers(alloc, store, parts, b),
        Expr::Relate(parts) => relations(alloc, store, parts, b),
        Expr::Not(operand) => denied(alloc, store, operand, b),
        Expr::And(parts) => all_of(alloc, store, parts, b),
        Expr::Or(parts) => one_of(alloc, store, parts, b),
        Expr::Guard { operand, guards } => {
            if all_hold(alloc, store, guards, b)? {
                value(alloc, store, operand, b)
            } else {
                Ok(zero())
            }
        }
    }
}

/// What a reference reads at the tuple of its indices.
#[cycle(value)]
#[inline(never)]
fn referred<F: ExactField>(
    alloc: Global,
    store: &Store<F>,
    at: Place,
    name: u32,
    suffix: Suffix,
    indices: &[Index<F>],
    b: &Binding,
) -> Result<Ext<F>, ExecStopOrMemory<F>>
    ensures { Gives F.value (extended F.value) result
        ((in_order (map (λ index. label_answer F.value F.limit store.now b.now index) indices.now) and_then
        λ those. Ok (tuple_of those)) and_then entry_or_zero F.limit store.now b.now at name suffix) }
{
    let tuple = tuple_of(alloc, store, indices, b)?;
    entry_of(alloc, store, at, name, suffix, tuple, b)
}

/// The value of a function at the values of its arguments.
#[cycle(value)]
#[inline(never)]
fn call<F: ExactField>(
    alloc: Global,
    store: &Store<F>,
    at: Place,
    function: Function,
    args: &[Expr<F>],
    b: &Binding,
) -> Result<Ext<F>, ExecStopOrMemory<F>>
    ensures { Gives F.value (extended F.value) result
        (in_order (map (λ arg. value F.value F.limit store.now b.now (tree_of arg)) args.now) and_then λ xs. called F.limit b.now at function xs) }
{
    let values = arguments(alloc, store, args, b)?;
    called(alloc, at, function, values.as_slice(), b)
}

/// The value of an operand after a minus sign.
#[cycle(value)]
#[inline(never)]
fn negative<F: ExactField>(
    alloc: Global,
    store: &Store<F>,
    operand: &Expr<F>,
    b: &Binding,
) -> Result<Ext<F>, ExecStopOrMemory<F>>
    ensures { Gives F.value (extended F.value) result
        (value F.value F.limit store.now b.now (tree_of operand.now) and_then λ x. Ok (negated x)) }
{
    let x = value(alloc, store, operand, b)?;
    Ok(x.neg())
}

/// The value of an operand after `not`, 1 or 0.
#[cycle(value)]
#[inline(never)]
fn denied<F: ExactField>(
    alloc: Global,
    store: &Store<F>,
    operand: &Expr<F>,
    b: &Binding,
) -> Result<Ext<F>, ExecStopOrMemory<F>>
    ensures { Gives F.value (extended F.value) result
        (value F.value F.limit store.now b.now (tree_of operand.now) and_then λ x. Ok (truth (not (is_so x)))) }
{
    let x = value(alloc, store, operand, b)?;
    Ok(truth(!is_so(x)))
}

/// The value of a sum or a product, as `kind` says; 0 without operands. From left to right each
/// operand is evaluated and joined.
///
/// An entry of `parts` is an operand's place in the source, whether a sum subtracts it or a product
/// divides by it, and the operand. The first place and bool have no effect. The error is `Memory`
/// or the first fault of an operand or an operation.
#[cycle(value)]
#[inline(never)]
pub fn signed_chain<F: ExactField>(
    alloc: Global,
    store: &Store<F>,
    kind: Signed,
    parts: &[(Place, bool, Expr<F>)],
    b: &Binding,
) -> Result<Ext<F>, ExecStopOrMemory<F>>
    ensures { Gives F.value (extended F.value) result (chain (signed_step F.limit b.now kind)
        (map (λ part. (signed part.0 part.1, value F.value F.limit store.now b.now (tree_of part.2))) parts.now)) }
{
    let mut so_far = None;
    for (at, inverse, part) in parts {
        let y = value(alloc, store, part, b)?;
        so_far = Some(signed_part(alloc, kind, *at, *inverse, so_far, y, b)?);
    }
    Ok(so_far.unwrap_or(zero()))
}

/// The value of a power.
#[cycle(value)]
#[inline(never)]
fn powers<F: ExactField>(
    alloc: Global,
    store: &Store<F>,
    parts: &[(Place, Expr<F>)],
    b: &Binding,
) -> Result<Ext<F>, ExecStopOrMemory<F>>
    ensures { Gives F.value (extended F.value) result (chain (power_step F.limit b.now)
        (map (λ part. (placed part.0, value F.value F.limit store.now b.now (tree_of part.1))) parts.now)) }
{
    let mut so_far = None;
    for (at, part) in parts {
        let y = value(alloc, store, part, b)?;
        so_far = Some(power_part(alloc, *at, so_far, y, b)?);
    }
    Ok(so_far.unwrap_or(zero()))
}

/// The value of relations, 1 or 0.
#[cycle(value)]
#[inline(never)]
fn relations<F: ExactField>(
    alloc: Global,
    store: &Store<F>,
    parts: &[(RelOp, Expr<F>)],
    b: &Binding,
) -> Result<Ext<F>, ExecStopOrMemory<F>>
    ensures { Gives F.value (extended F.value) result (chain relation_step
        (map (λ part. (related part.0, value F.value F.limit store.now b.now (tree_of part.1))) parts.now)) }
{
    let mut so_far = None;
    for (op, part) in parts {
        let y = value(alloc, store, part, b)?;
        so_far = Some(related_part(*op, so_far, y));
    }
    Ok(so_far.unwrap_or(zero()))
}

/// 1 if each part holds, else 0. No part after one that does not hold is evaluated.
#[cycle(value)]
#[inline(never)]
fn all_of<F: ExactField>(
    alloc: Global,
    store: &Store<F>,
    parts: &[Expr<F>],
    b: &Binding,
) -> Result<Ext<F>, ExecStopOrMemory<F>>
    ensures { Gives F.value (extended F.value) result (chain all_step
        (map (λ part. (plain, value F.value F.limit store.now b.now (tree_of part))) parts.now)) }
{
    let mut so_far = None;
    for part in parts {
        if is_left_by_and(so_far) {
            so_far = Some(zero());
            continue;
        }
        let y = value(alloc, store, part, b)?;
        so_far = Some(all_part(so_far, y));
    }
    Ok(so_far.unwrap_or(zero()))
}

/// The value of a choice, 1 or 0: a part joined by `or` is not evaluated if the parts before it
/// hold.
#[cycle(value)]
#[inline(never)]
fn one_of<F: ExactField>(
    alloc: Global,
    store: &Store<F>,
    parts: &[(bool, Expr<F>)],
    b: &Binding,
) -> Result<Ext<F>, ExecStopOrMemory<F>>
    ensures { Gives F.value (extended F.value) result (chain one_step
        (map (λ part. (chosen part.0, value F.value F.limit store.now b.now (tree_of part.1))) parts.now)) }
{
    let mut so_far = None;
    for (exclusive, part) in parts {
        if is_left_by_or(*exclusive, so_far) {
            so_far = Some(truth(true));
            continue;
        }
        let y = value(alloc, store, part, b)?;
        so_far = Some(one_part(*exclusive, so_far, y));
    }
    Ok(so_far.unwrap_or(zero()))
}

/// Whether all guards, the conditions after `$`, hold; true if there is none. A guard holds if its
/// value is not the number 0. They are evaluated from the last to the first, until one does not
/// hold. The error is `Memory` or the first fault.
#[cycle(value)]
#[inline(never)]
pub fn all_hold<F: ExactField>(
    alloc: Global,
    store: &Store<F>,
    guards: &[Expr<F>],
    b: &Binding,
) -> Result<bool, ExecStopOrMemory<F>>
    ensures { Gives F.value (λ hold. hold) result
        (each_holds (map (λ guard. value F.value F.limit store.now b.now (tree_of guard)) guards.now)) }
{
    for place in (0..guards.len()).rev() {
        let guard = value(alloc, store, &guards[place], b)?;
        if !is_so(guard) {
            return Ok(false);
        }
    }
    Ok(true)
}

/// The values of arguments, in order.
#[cycle(value)]
#[inline(never)]
fn arguments<F: ExactField>(
    alloc: Global,
    store: &Store<F>,
    args: &[Expr<F>],
    b: &Binding,
) -> Result<Vec<Ext<F>>, ExecStopOrMemory<F>>
    ensures { Gives F.value (λ values. map (extended F.value) values.items) result
        (in_order (map (λ arg. value F.value F.limit store.now b.now (tree_of arg)) args.now)) }
{
    let mut values = Vec::new(alloc);
    for arg in args {
        values.push(value(alloc, store, arg, b)?)?;
    }
    Ok(values)
}

/// The tuple of the labels of the indices, in order; `None` if an index has no label or there are
/// over 10 indices. A set has no label if `b` gives it none, or if its lag leads from that label to
/// none. The error is `Memory` or the first fault of a lag: in the evaluation of its amount, or
/// `LagNotWhole` if that is no whole number.
#[cycle(value)]
#[inline(never)]
pub fn tuple_of<F: ExactField>(
    alloc: Global,
    store: &Store<F>,
    indices: &[Index<F>],
    b: &Binding,
) -> Result<Option<Tuple>, ExecStopOrMemory<F>>
    ensures { Gives F.value (λ tuple. tuple) result (in_order
        (map (λ index. label_answer F.value F.limit store.now b.now index) indices.now) and_then λ those. Ok (tuple_of those)) }
{
    let mut tuple = Some(Tuple::new(alloc));
    for index in indices {
        let label = label_of(alloc, store, index, b)?;
        tuple = with_label(alloc, tuple, label)?;
    }
    Ok(tuple)
}

/// The label of an index, if any: that of its set, or the one that its lag reaches.
#[cycle(value)]
#[inline(never)]
fn label_of<F: ExactField>(
    alloc: Global,
    store: &Store<F>,
    index: &Index<F>,
    b: &Binding,
) -> Result<Option<u32>, ExecStopOrMemory<F>>
    ensures { Gives F.value (λ label. label) result (label_answer F.value F.limit store.now b.now index.now) }
{
    match index {
        Index::Label(label) => Ok(Some(*label)),
        Index::Set { name, lag } => match lag {
            None => Ok(b.label(*name)),
            Some((op, at, amount)) => {
                let amount = value(alloc, store, amount, b)?;
                reached(alloc, store, *name, *op, *at, amount, b)
            }
        },
    }
}

/// The elements of a control, in order.
#[cycle(value)]
#[inline(never)]
fn elements_of<F: ExactField>(
    alloc: Global,
    store: &Store<F>,
    control: &Control<F>,
    at: Place,
    b: &Binding,
) -> Result<Elements, ExecStopOrMemory<F>>
    ensures value { Gives F.value (those_of store.now control.now.sets) result
        (domain F.value F.limit store.now b.now at (control_tree control.now)) }
    ensures counted { IfOk result (IsCounted store.now control.now.sets) }
{
    let sets = control.sets.as_slice();
    let size = size(alloc, store, sets, at, b)?;
    match &control.condition {
        Some(condition) => {
            let among = candidates(alloc, store, sets, size, condition, b)?;
            let those = chosen(alloc, store, sets, &among, condition, b)?;
            Ok(Elements::Those(those))
        }
        None => Ok(Elements::Every(size)),
    }
}

/// The elements for which a condition holds, in order.
#[cycle(value)]
#[inline(never)]
fn chosen<F: ExactField>(
    alloc: Global,
    store: &Store<F>,
    sets: &[u32],
    among: &Elements,
    condition: &Expr<F>,
    b: &Binding,
) -> Result<Vec<Tuple>, ExecStopOrMemory<F>>
    requires { IsCounted store.now sets.now among.now }
    ensures { Gives F.value (λ those. those.items) result
        (those_where (λ element. holds F.value F.limit store.now (controlled b.now sets.now element) (tree_of condition.now))
        (those_of store.now sets.now among.now)) }
{
    let mut those = Vec::new(alloc);
    let mut inner = b.copy(alloc)?;
    for number in 0..among.count(store, sets) {
        let element = among.element(alloc, store, sets, number)?;
        inner.control(b.len(), sets, element.as_slice())?;
        let value = value(alloc, store, condition, &inner)?;
        keep(&mut those, element, is_so(value))?;
    }
    Ok(those)
}

/// The values of a fold's bodies, joined in sequence.
#[cycle(value)]
#[inline(never)]
fn folded<F: ExactField>(
    alloc: Global,
    store: &Store<F>,
    op: FoldOp,
    at: Place,
    sets: &[u32],
    those: &Elements,
    body: &Expr<F>,
    b: &Binding,
) -> Result<Ext<F>, ExecStopOrMemory<F>>
    requires { IsCounted store.now sets.now those.now }
    ensures { Gives F.value (extended F.value) result (folded F.limit b.now op at
        (map (λ element. (plain, value F.value F.limit store.now (controlled b.now sets.now element) (tree_of body.now)))
        (those_of store.now sets.now those.now))) }
{
    let mut so_far = start(op);
    let mut inner = b.copy(alloc)?;
    for number in 0..those.count(store, sets) {
        let element = those.element(alloc, store, sets, number)?;
        inner.control(b.len(), sets, element.as_slice())?;
        let y = value(alloc, store, body, &inner)?;
        so_far = Some(fold_part(alloc, op, at, so_far, y, b)?);
    }
    match so_far {
        Some(value) => Ok(value),
        None => Err(ExecStopOrMemory::at_step(
            alloc,
            StopKind::EmptyExtreme,
            at,
            zero(),
            zero(),
            b,
        )),
    }
}

/// Whether the condition `e` holds in the state `store`, under the binding `b`: whether its value
/// is not the number 0.
///
/// The error is `Memory`, or the first fault in the evaluation of `e`. GAMS User's Guide,
/// "Conditional Expressions, Assignments and Equations".
pub fn holds<F: ExactField>(
    alloc: Global,
    store: &Store<F>,
    e: &Expr<F>,
    b: &Binding,
) -> Result<bool, ExecStopOrMemory<F>>
    ensures { Gives F.value (λ holds. holds) result (holds F.value F.limit store.now b.now (tree_of e.now)) }
{
    Ok(is_so(value(alloc, store, e, b)?))
}

/// The elements of the control `c`, such as `(i,j)$p(i,j)`, in the state `store`, under the binding
/// `b`: those elements of the product of its sets for which its condition, if any, holds. They are
/// in the order of tuples: by the number of the first label, then of the second, and so on.
///
/// If the product has more than 16,777,216 elements, the error is the stop `DomainSize` at the
/// place `at`. Otherwise it is the fault of the condition for the first element with a fault. The
/// condition is evaluated under `b` extended by the element's labels. The error may always be
/// `Memory` instead. GAMS User's Guide, "Data Manipulations with Parameters", "Conditional
/// Expressions, Assignments and Equations".
pub fn domain<F: ExactField>(
    alloc: Global,
    store: &Store<F>,
    c: &Control<F>,
    at: Place,
    b: &Binding,
) -> Result<Vec<Tuple>, ExecStopOrMemory<F>>
    ensures { Gives F.value (λ those. those.items) result
        (domain F.value F.limit store.now b.now at (control_tree c.now)) }
{
    match elements_of(alloc, store, c, at, b)? {
        Elements::Every(size) => Ok(all(alloc, store, c.sets.as_slice(), size)?),
        Elements::Those(those) => Ok(those),
    }
}

/// The elements of the product of `sets`, which are numbers of names, for which the condition, if
/// any, holds in the state `store` under the binding `b`. They are in the order of tuples: by the
/// number of the first label, then of the second, and so on.
///
/// The sets and the condition need not be one control of the source: on a left side they are its
/// index sets and its condition. If the product has more than 16,777,216 elements, the error is the
/// stop `DomainSize` at `at`. Otherwise it is the fault of the condition for the first element with
/// a fault, under `b` extended by the element's labels. The error may always be `Memory` instead.
pub fn domain_over<F: ExactField>(
    alloc: Global,
    store: &Store<F>,
    sets: &[u32],
    condition: Option<&Expr<F>>,
    at: Place,
    b: &Binding,
) -> Result<Vec<Tuple>, ExecStopOrMemory<F>>
    ensures { Gives F.value (λ those. those.items) result
        (domain F.value F.limit store.now b.now at (control_over sets.now (option_map tree_of (option_copied condition.entry)))) }
{
    let size = size(alloc, store, sets, at, b)?;
    match condition {
        Some(condition) => {
            let among = candidates(alloc, store, sets, size, condition, b)?;
            chosen(alloc, store, sets, &among, condition, b)
        }
        None => Ok(all(alloc, store, sets, size)?),
    }
}
