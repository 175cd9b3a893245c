//! Whether a variable of an equation occurs in an expression.
ghost use Rattle.std.specs.Prelude.{◌≡◌, ◌≤◌, length};
ghost use Rattle.gms_ast.specs.TreeView.{tree_of};
ghost use Rattle.gms_rows.specs.Affine.{has_variables, some_has_variables, values_first};
ghost use Rattle.gms_rows.specs.InnerContracts.{parts_in};

use gms_ast::{Expr, Suffix};
use gms_labels::Place;
use gms_store::{Store, SymbolKind};
use gq_field::ExactField;

/// Whether the unknown value of a variable occurs in an expression. Conditions, relations, operands
/// of logic and amounts of lags are not searched, since a checked program has no such variable
/// there.
#[cycle(variables)]
pub(crate) fn has_variables<F: ExactField>(store: &Store<F>, e: &Expr<F>) -> bool
    ensures { result ≡ has_variables store.now (tree_of e.now) }
{
    match e {
        Expr::Ref { name, suffix, .. } => {
            *suffix == Suffix::None && store.kind_of(*name) == SymbolKind::Variable
        }
        Expr::Fold { body, .. } => has_variables(store, body),
        Expr::Neg(operand) => has_variables(store, operand),
        Expr::Plus(parts) => some_has_variables(store, parts),
        Expr::Times(parts) => some_has_variables(store, parts),
        Expr::Guard { operand, .. } => has_variables(store, operand),
        _ => false,
    }
}

/// Whether a part of a sum or a product has variables.
#[cycle(variables)]
fn some_has_variables<F: ExactField>(store: &Store<F>, parts: &[(Place, bool, Expr<F>)]) -> bool
    ensures { result ≡ some_has_variables store.now (parts_in parts.now) }
{
    for (_, _, part) in parts {
        if has_variables(store, part) {
            return true;
        }
    }
    false
}

/// How many parts of a sum or a product come before the first with variables.
pub(crate) fn count_before_variables<F: ExactField>(
    store: &Store<F>,
    parts: &[(Place, bool, Expr<F>)],
) -> usize
    ensures count { result ≡ values_first store.now (parts_in parts.now) }
    ensures few { result ≤ length parts.now }
{
    for (place, (_, _, part)) in parts.iter().enumerate() {
        if has_variables(store, part) {
            return place;
        }
    }
    parts.len()
}
