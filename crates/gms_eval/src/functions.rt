//! The functions that an expression calls.
ghost use Rattle.std.specs.Prelude.{◌≡◌, map, fold};
ghost use Rattle.gq_extended.specs.Meaning.{extended};
ghost use Rattle.gq_extended.specs.ExtendedOrder.{lesser, greater};
ghost use Rattle.gms_eval.specs.Nodes.{called, of_one, called_with_two, remainder_of, extreme};
ghost use Rattle.gms_eval.specs.Gives.{Gives};

use crate::binding::Binding;
use crate::steps::zero;
use crate::stop::{ExecStopOrMemory, taken};
use gms_ast::Function;
use gms_labels::Place;
use gq_extended::Ext;
use gq_field::ExactField;
use std::alloc::Global;

/// The value of a function of these arguments. The stop is the fault of an operation, at `at`.
///
/// With a wrong number of arguments the value is 0, as that of a function that the language leaves
/// out.
#[inline(never)]
pub(crate) fn called<F: ExactField>(
    alloc: Global,
    at: Place,
    function: Function,
    args: &[Ext<F>],
    b: &Binding,
) -> Result<Ext<F>, ExecStopOrMemory<F>>
    ensures { Gives F.value (extended F.value) result
        (called F.limit b.now at function (map (extended F.value) args.now)) }
{
    match function {
        Function::Max => Ok(greatest(args)),
        Function::Min => Ok(least(args)),
        _ => match args {
            [x] => of_one(alloc, at, function, *x, b),
            [x, y] => of_two(alloc, at, function, *x, *y, b),
            _ => Ok(zero()),
        },
    }
}

/// The value of a function of one argument.
fn of_one<F: ExactField>(
    alloc: Global,
    at: Place,
    function: Function,
    x: Ext<F>,
    b: &Binding,
) -> Result<Ext<F>, ExecStopOrMemory<F>>
    ensures { Gives F.value (extended F.value) result (of_one F.limit b.now at function (extended F.value x)) }
{
    match function {
        Function::Abs => Ok(x.abs()),
        Function::Sqr => taken(alloc, at, x, x, x.mul(x), b),
        Function::Round => Ok(x.round()),
        Function::Floor => Ok(x.floor()),
        Function::Ceil => Ok(x.ceil()),
        Function::Trunc => Ok(x.trunc()),
        Function::Sign => Ok(x.sign()),
        _ => Ok(zero()),
    }
}

/// The value of a function of two arguments.
fn of_two<F: ExactField>(
    alloc: Global,
    at: Place,
    function: Function,
    x: Ext<F>,
    y: Ext<F>,
    b: &Binding,
) -> Result<Ext<F>, ExecStopOrMemory<F>>
    ensures { Gives F.value (extended F.value) result
        (called_with_two F.limit b.now at function (extended F.value x) (extended F.value y)) }
{
    match function {
        Function::Mod => remainder(alloc, at, x, y, b),
        Function::Power => taken(alloc, at, x, y, x.power(y), b),
        _ => Ok(zero()),
    }
}

/// The remainder of a division, by its four steps.
fn remainder<F: ExactField>(
    alloc: Global,
    at: Place,
    x: Ext<F>,
    y: Ext<F>,
    b: &Binding,
) -> Result<Ext<F>, ExecStopOrMemory<F>>
    ensures { Gives F.value (extended F.value) result
        (remainder_of F.limit b.now at (extended F.value x) (extended F.value y)) }
{
    let whole = taken(alloc, at, x, y, x.div(y), b)?.trunc();
    let part = taken(alloc, at, y, whole, y.mul(whole), b)?;
    taken(alloc, at, x, part, x.sub(part), b)
}

/// The greatest of some values: NA if one is NA, and 0 if there are none.
fn greatest<F: ExactField>(values: &[Ext<F>]) -> Ext<F>
    ensures { extended F.value result ≡ extreme greater (map (extended F.value) values.now) }
{
    let Some((first, rest)) = values.split_first() else {
        return zero();
    };
    let mut greatest = *first;
    for value in rest {
        greatest = greatest.max(*value);
    }
    greatest
}

/// The least of some values: NA if one is NA, and 0 if there are none.
fn least<F: ExactField>(values: &[Ext<F>]) -> Ext<F>
    ensures { extended F.value result ≡ extreme lesser (map (extended F.value) values.now) }
{
    let Some((first, rest)) = values.split_first() else {
        return zero();
    };
    let mut least = *first;
    for value in rest {
        least = least.min(*value);
    }
    least
}
