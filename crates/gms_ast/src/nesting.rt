//! The nesting of an expression.
ghost use Rattle.std.specs.Prelude.{◌≡◌, map};
ghost use Rattle.gms_ast.specs.InnerGreatest.{greatest};
ghost use Rattle.gms_ast.specs.Nesting.{capped, nesting, deepest_amount, condition_nesting};
ghost use Rattle.gms_ast.specs.TreeView.{tree_of, index_tree, control_tree};
ghost use Rattle.gms_ast.specs.Trees.{no_index};

use crate::expression::{Control, Expr, Index, RelOp};
use gms_labels::Place;

/// The nesting of an expression, or the greatest `u32` if the nesting is greater than that.
///
/// The nesting is one more than the greatest nesting of the expression's direct subexpressions, and
/// 1 without these. The amounts of lags and the conditions of folds are direct subexpressions, too.
#[cycle(nesting)]
pub fn depth<F>(e: &Expr<F>) -> u32
    ensures { result ≡ capped (nesting (tree_of e.now)) }
{
    match e {
        Expr::Number(_) => 1,
        Expr::PlusInf => 1,
        Expr::Na => 1,
        Expr::Yes => 1,
        Expr::No => 1,
        Expr::Ref { indices, .. } => deepest_index(indices).saturating_add(1),
        Expr::Ord { .. } => 1,
        Expr::Card { .. } => 1,
        Expr::Call { args, .. } => deepest(args).saturating_add(1),
        Expr::Fold { control, body, .. } => depth_of_control(control)
            .max(depth(body))
            .saturating_add(1),
        Expr::Neg(operand) => depth(operand).saturating_add(1),
        Expr::Plus(parts) => deepest_signed(parts).saturating_add(1),
        Expr::Times(parts) => deepest_signed(parts).saturating_add(1),
        Expr::Power(parts) => deepest_placed(parts).saturating_add(1),
        Expr::Relate(parts) => deepest_related(parts).saturating_add(1),
        Expr::Not(operand) => depth(operand).saturating_add(1),
        Expr::And(parts) => deepest(parts).saturating_add(1),
        Expr::Or(parts) => deepest_chosen(parts).saturating_add(1),
        Expr::Guard { operand, guards } => depth(operand).max(deepest(guards)).saturating_add(1),
    }
}

/// The greatest depth of some expressions, or 0.
#[cycle(nesting)]
fn deepest<F>(parts: &[Expr<F>]) -> u32
    ensures { result ≡ capped (greatest (map (λ part. nesting (tree_of part)) parts.now)) }
{
    let mut most = 0;
    for part in parts {
        most = depth(part).max(most);
    }
    most
}

/// The greatest depth of the parts of a sum or a product, or 0.
#[cycle(nesting)]
fn deepest_signed<F>(parts: &[(Place, bool, Expr<F>)]) -> u32
    ensures { result ≡ capped (greatest (map (λ part. nesting (tree_of part.2)) parts.now)) }
{
    let mut most = 0;
    for (_, _, part) in parts {
        most = depth(part).max(most);
    }
    most
}

/// The greatest depth of the parts of a power, or 0.
#[cycle(nesting)]
fn deepest_placed<F>(parts: &[(Place, Expr<F>)]) -> u32
    ensures { result ≡ capped (greatest (map (λ part. nesting (tree_of part.1)) parts.now)) }
{
    let mut most = 0;
    for (_, part) in parts {
        most = depth(part).max(most);
    }
    most
}

/// The greatest depth of the parts of relations, or 0.
#[cycle(nesting)]
fn deepest_related<F>(parts: &[(RelOp, Expr<F>)]) -> u32
    ensures { result ≡ capped (greatest (map (λ part. nesting (tree_of part.1)) parts.now)) }
{
    let mut most = 0;
    for (_, part) in parts {
        most = depth(part).max(most);
    }
    most
}

/// The greatest depth of the parts of a choice, or 0.
#[cycle(nesting)]
fn deepest_chosen<F>(parts: &[(bool, Expr<F>)]) -> u32
    ensures { result ≡ capped (greatest (map (λ part. nesting (tree_of part.1)) parts.now)) }
{
    let mut most = 0;
    for (_, part) in parts {
        most = depth(part).max(most);
    }
    most
}

/// The greatest depth of the lags of some indices, or 0.
#[cycle(nesting)]
fn deepest_index<F>(indices: &[Index<F>]) -> u32
    ensures { result ≡ capped (greatest (map (λ index. deepest_amount (index_tree index no_index)) indices.now)) }
{
    let mut most = 0;
    for index in indices {
        most = depth_of_index(index).max(most);
    }
    most
}

/// The depth of a lag, or 0.
#[cycle(nesting)]
fn depth_of_index<F>(index: &Index<F>) -> u32
    ensures { result ≡ capped (deepest_amount (index_tree index.now no_index)) }
{
    match index {
        Index::Label(_) => 0,
        Index::Set {
            lag: Some((_, _, amount)),
            ..
        } => depth(amount),
        Index::Set { lag: None, .. } => 0,
    }
}

/// The depth of a condition, or 0.
#[cycle(nesting)]
fn depth_of_control<F>(control: &Control<F>) -> u32
    ensures { result ≡ capped (condition_nesting (control_tree control.now)) }
{
    match &control.condition {
        Some(condition) => depth(condition),
        None => 0,
    }
}
