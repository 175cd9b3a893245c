//! Nodes of trees, made of their parts.
ghost use Rattle.std.specs.Prelude.{◌≡◌, if◌then◌else◌, MatchResult};
ghost use Rattle.gms_ast.specs.Trees.{negated, not_so, fold_over};
ghost use Rattle.gms_ast.specs.TreeView.{control_tree};
ghost use Rattle.gms_expressions.specs.declared.fault.SyntaxFaultOrMemory.TheVariants.{Memory};
ghost use Rattle.gms_ast.specs.Numbers.{control_in_numbers};
ghost use Rattle.gms_expressions.specs.InnerNodes.{view};

use crate::fault::SyntaxFaultOrMemory;
use gms_ast::{Control, Expr, FoldOp};
use gms_labels::Place;
use gq_field::ExactField;
use std::alloc::Global;

/// A node, or out of memory.
type Made<F> = Result<Expr<F>, SyntaxFaultOrMemory>;

/// A negation, or the operand itself.
pub(crate) fn signed<F: ExactField>(alloc: Global, minus: bool, operand: Expr<F>) -> Made<F>
    ensures { MatchResult result
        (λ e. view F.value e ≡ (if minus then negated (view F.value operand) else view F.value operand))
        (λ e. e ≡ Memory) }
{
    if minus {
        return Ok(Expr::Neg(Box::new(alloc, operand)?));
    }
    Ok(operand)
}

/// `not` of an operand, or the operand itself.
pub(crate) fn negated<F: ExactField>(alloc: Global, not: bool, operand: Expr<F>) -> Made<F>
    ensures { MatchResult result
        (λ e. view F.value e ≡ (if not then not_so (view F.value operand) else view F.value operand))
        (λ e. e ≡ Memory) }
{
    if not {
        return Ok(Expr::Not(Box::new(alloc, operand)?));
    }
    Ok(operand)
}

/// A fold, whose body is boxed.
pub(crate) fn fold<F: ExactField>(
    alloc: Global,
    at: Place,
    op: FoldOp,
    control: Control<F>,
    body: Expr<F>,
) -> Made<F>
    ensures { MatchResult result
        (λ e. view F.value e ≡ fold_over at op (control_in_numbers F.value (control_tree control)) (view F.value body))
        (λ e. e ≡ Memory) }
{
    let body = Box::new(alloc, body)?;
    Ok(Expr::Fold {
        at,
        op,
        control,
        body,
    })
}
