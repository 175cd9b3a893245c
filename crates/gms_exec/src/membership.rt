//! Which elements the right side of an assignment to a set makes members.
ghost use Rattle.std.specs.Prelude.{◌≡◌, map, true, false};
ghost use Rattle.gms_labels.specs.declared.place.Place.{Place};
ghost use Rattle.gms_ast.specs.TreeView.{tree_of};
ghost use Rattle.gms_ast.specs.Trees.{signed};
ghost use Rattle.gms_eval.specs.Gives.{Gives};
ghost use Rattle.gms_exec.specs.Membership.{membership, joined_membership, in_sum, in_product};

use gms_ast::Expr;
use gms_eval::{Binding, ExecStopOrMemory, all_hold, holds};
use gms_labels::Place;
use gms_store::Store;
use gq_field::ExactField;
use std::alloc::Global;

/// Whether an element is in a sum of sets so far, where the next one is added or subtracted.
fn with_part(subtracts: bool, so_far: bool, part: bool) -> bool
    ensures { (at : Place) → result ≡ in_sum (signed at subtracts) so_far part }
{
    if subtracts {
        so_far && !part
    } else {
        so_far || part
    }
}

/// Whether the right side of an assignment to a set makes the element of a binding a member. The
/// stop is the first fault.
///
/// `+` is in either operand, `-` in the left and not the right, `*` in both, `not` not in it, and
/// an operand under a guard that does not hold is false. Every operand is evaluated, from the left.
/// GAMS User's Guide, "Dynamic Sets".
#[cycle(membership)]
pub(crate) fn membership<F: ExactField>(
    alloc: Global,
    store: &Store<F>,
    e: &Expr<F>,
    b: &Binding,
) -> Result<bool, ExecStopOrMemory<F>>
    ensures { Gives F.value (λ holds. holds) result (membership F.value F.limit store.now b.now (tree_of e.now)) }
{
    match e {
        Expr::Yes => Ok(true),
        Expr::No => Ok(false),
        Expr::Neg(operand) => membership(alloc, store, operand, b),
        Expr::Not(operand) => Ok(!membership(alloc, store, operand, b)?),
        Expr::Plus(parts) => in_sum(alloc, store, parts, b),
        Expr::Times(parts) => in_product(alloc, store, parts, b),
        Expr::Guard { operand, guards } => {
            if all_hold(alloc, store, guards, b)? {
                membership(alloc, store, operand, b)
            } else {
                Ok(false)
            }
        }
        _ => holds(alloc, store, e, b),
    }
}

/// Whether a sum of sets is in the set: what is added is in it, and what is subtracted is not.
#[cycle(membership)]
fn in_sum<F: ExactField>(
    alloc: Global,
    store: &Store<F>,
    parts: &[(Place, bool, Expr<F>)],
    b: &Binding,
) -> Result<bool, ExecStopOrMemory<F>>
    ensures { Gives F.value (λ holds. holds) result (joined_membership in_sum false
        (map (λ part. (signed part.0 part.1, membership F.value F.limit store.now b.now (tree_of part.2))) parts.now)) }
{
    let mut so_far = false;
    for (_, subtracts, part) in parts {
        let holds = membership(alloc, store, part, b)?;
        so_far = with_part(*subtracts, so_far, holds);
    }
    Ok(so_far)
}

/// Whether a product of sets is in the set: each part is in it.
#[cycle(membership)]
fn in_product<F: ExactField>(
    alloc: Global,
    store: &Store<F>,
    parts: &[(Place, bool, Expr<F>)],
    b: &Binding,
) -> Result<bool, ExecStopOrMemory<F>>
    ensures { Gives F.value (λ holds. holds) result (joined_membership in_product true
        (map (λ part. (signed part.0 part.1, membership F.value F.limit store.now b.now (tree_of part.2))) parts.now)) }
{
    let mut so_far = true;
    for (_, _, part) in parts {
        let holds = membership(alloc, store, part, b)?;
        so_far = so_far && holds;
    }
    Ok(so_far)
}
