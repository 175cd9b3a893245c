//! Which kind a name is declared as.
ghost use Rattle.std.specs.Prelude.{◌≡◌};
ghost use Rattle.gms_scope.specs.Names.{is_equation, is_model};
ghost use Rattle.gms_check.specs.Kinds.{is_variable_kind};

use gms_store::SymbolKind;

/// Whether a kind is that of an equation.
pub fn is_equation(kind: SymbolKind) -> bool
    ensures { result ≡ is_equation kind }
{
    matches!(kind, SymbolKind::Equation)
}

/// Whether a kind is that of a model.
pub fn is_model(kind: SymbolKind) -> bool
    ensures { result ≡ is_model kind }
{
    matches!(kind, SymbolKind::Model)
}

/// Whether a kind is that of a variable.
pub fn is_variable(kind: SymbolKind) -> bool
    ensures { result ≡ is_variable_kind kind }
{
    matches!(kind, SymbolKind::Variable)
}
