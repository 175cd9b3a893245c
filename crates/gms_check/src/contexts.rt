//! The context of an expression, and so what may occur in it.
ghost use Rattle.std.specs.Prelude.{◌≡◌};
ghost use Rattle.gms_check.specs.Contexts.{as_condition, as_denied, as_guarded, as_inner, as_members, as_number, as_part, as_side, may_be_assigned, may_occur};

use gms_ast::Suffix;
use gms_store::SymbolKind;

/// What may occur at a place of an expression. Each field is whether one kind of operand may occur
/// there.
#[derive(Clone, Copy, Debug, PartialEq, Eq)]
pub struct Context {
    /// Whether numbers may occur: literals, parameters, attributes, functions, `ord`, `card`, `sum`
    /// and the other folds, divisions, powers, relations, `and`, `or` and `xor`.
    pub numbers: bool,
    /// Whether a variable without suffix may occur.
    pub variables: bool,
    /// Whether a reference to a set may occur.
    pub sets: bool,
    /// Whether `yes` and `no` may occur.
    pub membership: bool,
}

impl Context {
    /// The context of what has to be a number: the right side of an assignment to a parameter or an
    /// attribute, an operand of a relation, the amount of a lag.
    pub(crate) const NUMBER: Context = Context {
        numbers: true,
        variables: false,
        sets: false,
        membership: false,
    };

    /// One side of an equation, in which variables may occur.
    pub(crate) const SIDE: Context = Context {
        numbers: true,
        variables: true,
        sets: false,
        membership: false,
    };

    /// A condition, or an operand of `and`, `or`, `xor` and `not`.
    pub(crate) const CONDITION: Context = Context {
        numbers: true,
        variables: false,
        sets: true,
        membership: false,
    };

    /// The right side of an assignment to a set.
    pub(crate) const MEMBERS: Context = Context {
        numbers: false,
        variables: false,
        sets: true,
        membership: true,
    };

    /// The context of an operand of a sum, a product or a power, or of one with a sign, in an
    /// expression with this context.
    pub(crate) fn part(self) -> Context
        ensures { result ≡ as_part self }
    {
        Context {
            sets: self.membership,
            ..self
        }
    }

    /// The context of the left operand of `$` in an expression with this context.
    pub(crate) fn guarded(self) -> Context
        ensures { result ≡ as_guarded self }
    {
        Context { sets: true, ..self }
    }

    /// The context of an argument of a function, or of the body of a sum and the like, in an
    /// expression with this context.
    pub(crate) fn inner(self) -> Context
        ensures { result ≡ as_inner self }
    {
        Context {
            numbers: true,
            variables: self.variables,
            sets: false,
            membership: false,
        }
    }

    /// The context of the operand of `not` in an expression with this context.
    pub(crate) fn denied(self) -> Context
        ensures { result ≡ as_denied self }
    {
        if self.membership {
            self
        } else {
            Context::CONDITION
        }
    }

    /// Whether a symbol of this kind, with this suffix, may occur in this context. A variable
    /// without suffix always may, since another error, Endogenous, tells where it may not.
    pub(crate) fn admits(self, kind: SymbolKind, suffix: Suffix) -> bool
        ensures { result ≡ may_occur self kind suffix }
    {
        match (kind, suffix) {
            (SymbolKind::Set, Suffix::None) => self.sets,
            (SymbolKind::Parameter, Suffix::None) => self.numbers,
            (SymbolKind::Variable, Suffix::None) => true,
            (SymbolKind::Variable, Suffix::Lo | Suffix::Up | Suffix::L | Suffix::M) => self.numbers,
            (SymbolKind::Equation, Suffix::L | Suffix::M) => self.numbers,
            (SymbolKind::Model, Suffix::ModelStat | Suffix::SolveStat) => self.numbers,
            _ => false,
        }
    }
}

/// Whether an assignment to a symbol of this kind, with this suffix, is possible.
pub(crate) fn may_be_assigned(kind: SymbolKind, suffix: Suffix) -> bool
    ensures { result ≡ may_be_assigned kind suffix }
{
    match (kind, suffix) {
        (SymbolKind::Set | SymbolKind::Parameter, Suffix::None) => true,
        (SymbolKind::Variable, Suffix::Lo | Suffix::Up | Suffix::L | Suffix::M | Suffix::Fx) =>
            true,
        _ => false,
    }
}
