//! The operations by which values are joined: those of chains, of counts and of folds.
ghost use Rattle.std.specs.Prelude.{◌≡◌, ◌||◌, not, true, option_map, if◌then◌else◌};
ghost use Rattle.gq_extended.specs.Meaning.{extended, outcome};
ghost use Rattle.gms_ast.specs.Trees.{signed, placed, related, chosen, plain};
ghost use Rattle.gms_eval.specs.Faults.{nothing};
ghost use Rattle.gms_eval.specs.Nodes.{is_so, truth, holds_between, count_value, start_of, fold_step, power_step, relation_step, all_step, one_step, signed_step};
ghost use Rattle.gms_eval.specs.Gives.{Gives};
ghost use Rattle.gms_eval.specs.InnerSteps.{after, signed_outcome, is_left_by_and, is_left_by_or};

use crate::binding::Binding;
use crate::stop::{ExecStopOrMemory, StopKind, taken};
use gms_ast::{FoldOp, RelOp};
use gms_labels::Place;
use gq_extended::{Ext, ExtendedFault};
use gq_field::{ExactField, Limit};
use std::alloc::Global;

/// The value 0.
pub(crate) fn zero<F: ExactField>() -> Ext<F>
    ensures { extended F.value result ≡ nothing }
{
    Ext::Number(F::zero())
}

/// The value 1.
fn one<F: ExactField>() -> Ext<F>
    ensures { extended F.value result ≡ truth true }
{
    Ext::Number(F::one())
}

/// 1 for true and 0 for false.
pub(crate) fn truth<F: ExactField>(holds: bool) -> Ext<F>
    ensures { extended F.value result ≡ truth holds }
{
    if holds { one() } else { zero() }
}

/// Whether a value is not the number 0.
pub(crate) fn is_so<F: ExactField>(value: Ext<F>) -> bool
    ensures { result ≡ is_so (extended F.value value) }
{
    match value {
        Ext::Number(x) => !x.is_zero(),
        _ => true,
    }
}

/// Whether a relation holds between two values.
fn holds_between<F: ExactField>(op: RelOp, x: Ext<F>, y: Ext<F>) -> bool
    ensures { result ≡ holds_between op (extended F.value x) (extended F.value y) }
{
    match op {
        RelOp::Lt => x.is_less(y),
        RelOp::Le => x.is_at_most(y),
        RelOp::Eq => x.equals(y),
        RelOp::Ne => x.differs(y),
        RelOp::Ge => x.is_at_least(y),
        RelOp::Gt => x.is_greater(y),
    }
}

/// Whether a chain of operands is a sum or a product. GAMS User's Guide, "Data Manipulations with
/// Parameters", arithmetic operations.
#[derive(Clone, Copy)]
pub enum Signed {
    /// A sum: an operand is added or subtracted.
    Sum,
    /// A product: an operand multiplies or divides.
    Product,
}

/// A step of a sum or a product: the value so far with a part.
fn signed_outcome<F: ExactField>(
    chain: Signed,
    inverse: bool,
    x: Ext<F>,
    y: Ext<F>,
) -> Result<Ext<F>, ExtendedFault>
    ensures { outcome F.value result ≡ signed_outcome F.limit chain inverse (extended F.value x) (extended F.value y) }
{
    match chain {
        Signed::Sum if inverse => x.sub(y),
        Signed::Sum => x.add(y),
        Signed::Product if inverse => x.div(y),
        Signed::Product => x.mul(y),
    }
}

/// The value so far of a sum or a product joined with the operand `y`, which is subtracted or
/// divides if `inverse`. Without a value so far, `y` itself.
#[inline(never)]
pub(crate) fn signed_part<F: ExactField>(
    alloc: Global,
    chain: Signed,
    at: Place,
    inverse: bool,
    so_far: Option<Ext<F>>,
    y: Ext<F>,
    b: &Binding,
) -> Result<Ext<F>, ExecStopOrMemory<F>>
    ensures { Gives F.value (extended F.value) result
        (after (signed_step F.limit b.now chain) (signed at inverse) (option_map (extended F.value) so_far) (extended F.value y)) }
{
    match so_far {
        None => Ok(y),
        Some(x) => taken(alloc, at, x, y, signed_outcome(chain, inverse, x, y), b),
    }
}

/// The value so far of a power raised to `y`. Without a value so far, `y` itself.
#[inline(never)]
pub(crate) fn power_part<F: ExactField>(
    alloc: Global,
    at: Place,
    so_far: Option<Ext<F>>,
    y: Ext<F>,
    b: &Binding,
) -> Result<Ext<F>, ExecStopOrMemory<F>>
    ensures { Gives F.value (extended F.value) result
        (after (power_step F.limit b.now) (placed at) (option_map (extended F.value) so_far) (extended F.value y)) }
{
    match so_far {
        None => Ok(y),
        Some(x) => taken(alloc, at, x, y, x.power(y), b),
    }
}

/// 1 if the value so far has the relation to `y`, otherwise 0. Without a value so far, `y` itself.
#[inline(never)]
pub(crate) fn related_part<F: ExactField>(op: RelOp, so_far: Option<Ext<F>>, y: Ext<F>) -> Ext<F>
    ensures { after relation_step (related op) (option_map (extended F.value) so_far) (extended F.value y) ≡ Ok (extended F.value result) }
{
    match so_far {
        None => y,
        Some(x) => truth(holds_between(op, x, y)),
    }
}

/// Whether `and` does not evaluate its right operand: there is a value so far, and it is 0.
pub(crate) fn is_left_by_and<F: ExactField>(so_far: Option<Ext<F>>) -> bool
    ensures { result ≡ is_left_by_and (option_map (extended F.value) so_far) }
{
    match so_far {
        None => false,
        Some(x) => !is_so(x),
    }
}

/// 1 if the value so far and `y` both hold, otherwise 0. Without a value so far, `y` itself.
#[inline(never)]
pub(crate) fn all_part<F: ExactField>(so_far: Option<Ext<F>>, y: Ext<F>) -> Ext<F>
    ensures { after all_step plain (option_map (extended F.value) so_far) (extended F.value y) ≡ Ok (extended F.value result) }
{
    match so_far {
        None => y,
        Some(x) => truth(is_so(x) && is_so(y)),
    }
}

/// Whether `or` does not evaluate its right operand: there is a value so far, and it is not 0.
/// `xor` (`exclusive`) evaluates both operands.
pub(crate) fn is_left_by_or<F: ExactField>(exclusive: bool, so_far: Option<Ext<F>>) -> bool
    ensures { result ≡ is_left_by_or exclusive (option_map (extended F.value) so_far) }
{
    match so_far {
        None => false,
        Some(x) => !exclusive && is_so(x),
    }
}

/// 1 if the value so far or `y` holds, or with `xor` (`exclusive`) exactly one of them, otherwise
/// 0. Without a value so far, `y` itself.
#[inline(never)]
pub(crate) fn one_part<F: ExactField>(exclusive: bool, so_far: Option<Ext<F>>, y: Ext<F>) -> Ext<F>
    ensures { after one_step (chosen exclusive) (option_map (extended F.value) so_far) (extended F.value y) ≡ Ok (extended F.value result) }
{
    match so_far {
        None => y,
        Some(x) => one_of_two(exclusive, is_so(x), is_so(y)),
    }
}

/// 1 or 0: whether one of two holds; with `xor`, whether only one of them does.
fn one_of_two<F: ExactField>(exclusive: bool, x: bool, y: bool) -> Ext<F>
    ensures { extended F.value result ≡ truth (if exclusive then (if x then not y else y) else (x || y)) }
{
    if exclusive {
        truth(x != y)
    } else {
        truth(x || y)
    }
}

/// A count as a value. The stop is `Limit` at `at` if it does not fit under the field's limit.
#[inline(never)]
pub(crate) fn counted<F: ExactField>(
    alloc: Global,
    at: Place,
    count: usize,
    b: &Binding,
) -> Result<Ext<F>, ExecStopOrMemory<F>>
    ensures { Gives F.value (extended F.value) result (count_value F.limit b.now at count) }
{
    match F::from_parts(count as i128, 1) {
        Ok(number) => Ok(Ext::Number(number)),
        Err(Limit) => Err(ExecStopOrMemory::at_step(alloc, StopKind::Limit, at, zero(), zero(), b)),
    }
}

/// The initial value of a fold; `smin` and `smax` have none.
pub(crate) fn start<F: ExactField>(op: FoldOp) -> Option<Ext<F>>
    ensures { option_map (extended F.value) result ≡ start_of op }
{
    match op {
        FoldOp::Sum => Some(zero()),
        FoldOp::Prod => Some(one()),
        FoldOp::Smin => None,
        FoldOp::Smax => None,
    }
}

/// The value so far of a fold joined with `y`, the value of its next body. Without a value so far,
/// `y` itself.
#[inline(never)]
pub(crate) fn fold_part<F: ExactField>(
    alloc: Global,
    op: FoldOp,
    at: Place,
    so_far: Option<Ext<F>>,
    y: Ext<F>,
    b: &Binding,
) -> Result<Ext<F>, ExecStopOrMemory<F>>
    ensures { Gives F.value (extended F.value) result
        (after (fold_step F.limit b.now op at) plain (option_map (extended F.value) so_far) (extended F.value y)) }
{
    let Some(x) = so_far else {
        return Ok(y);
    };
    match op {
        FoldOp::Sum => taken(alloc, at, x, y, x.add(y), b),
        FoldOp::Prod => taken(alloc, at, x, y, x.mul(y), b),
        FoldOp::Smin => Ok(x.min(y)),
        FoldOp::Smax => Ok(x.max(y)),
    }
}
