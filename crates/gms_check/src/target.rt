//! The check of left sides: the name that is assigned or defined, the amounts of its lags, and the
//! sets that it controls.
ghost use Rattle.std.specs.Prelude.{◌≡◌, ◌∷◌, ◌&&◌, [], option_map, OnOk};
ghost use Rattle.gms_ast.specs.TreeView.{tree_of};
ghost use Rattle.gms_check.specs.InnerChecking.{known_of, noted, seen, with_controlled};
ghost use Rattle.gms_scope.specs.Names.{declared_kind, positions};
ghost use Rattle.gms_check.specs.Kinds.{is_target_amount, is_without_positions, may_shift};
ghost use Rattle.gms_check.specs.OptionWords.{is_whole};
ghost use Rattle.gms_check.specs.StatementUses.{index_list};
ghost use Rattle.gms_check.specs.Contexts.{as_number};
ghost use Rattle.gms_check.specs.Uses.{assigning, condition_uses, defining, index_sets, listing, shift_uses, shifting, uses};

use crate::checker::Checker;
use crate::contexts::{Context, may_be_assigned};
use crate::error::ErrorKind;
use crate::indices::index_sets;
use crate::kinds::is_equation;
use gms_ast::{Expr, Index, Named, Suffix, Target};
use gms_labels::Place;
use gms_store::SymbolKind;
use gq_field::ExactField;
use std::alloc::AllocError;

impl<'s, F: ExactField> Checker<'s, F> {
    /// Checks the target of an assignment, except for the amounts of lags. Updates `first`, the
    /// statement's first error by place and then by error number. Errors are a name that is not
    /// declared before as a set or a parameter, without suffix, or a variable, with suffix `lo`,
    /// `up`, `fx`, `l` or `m`; over 10 indices, or not as many as the name's positions; an index
    /// unfit for its position's domain; a set as index that is not declared before, not
    /// one-dimensional or, with a lag, not ordered. The returned error is out of memory.
    pub fn target(&mut self, target: &Target<F>) -> Result<(), AllocError>
        ensures { OnOk result (seen self.new
            ≡ noted F.value (seen self.old) ((target.now.at, assigning target.now.name target.now.suffix (index_list target.now.indices)) ∷ [])) }
    {
        let kind = self.known.kind(target.name);
        let occurs = may_be_assigned(kind, target.suffix);
        let named = Named {
            at: target.at,
            name: target.name,
        };
        self.named(named, occurs, target.indices.as_slice())?;
        Ok(())
    }

    /// Checks the left side of a definition, except for the amounts of lags. Updates `first`, the
    /// statement's first error by place and then by error number. Errors are a name that is no
    /// equation's, or that an earlier statement defines; over 10 indices, or not as many as the
    /// name's positions; an index unfit for its position's domain; a set as index that is not
    /// declared before, not one-dimensional or, with a lag, not ordered. The error returned is out
    /// of memory.
    pub fn defined_equation(
        &mut self,
        equation: Named,
        indices: &[Index<F>],
    ) -> Result<(), AllocError>
        ensures { OnOk result (seen self.new
            ≡ noted F.value (seen self.old) ((equation.at, defining equation.name (index_list indices.now)) ∷ [])) }
    {
        let occurs = is_equation(self.known.kind(equation.name));
        let defined = self.known.is_defined(equation.name);
        self.named(equation, occurs, indices)?;
        self.require(!defined, ErrorKind::DefinedTwice, equation.at);
        Ok(())
    }

    /// Checks a name that is listed in a model, and notes an error unless it is that of an
    /// equation.
    pub fn listed_equation(&mut self, named: Named)
        ensures { seen self.new ≡ noted F.value (seen self.old) ((named.at, listing named.name) ∷ []) }
    {
        let equation = is_equation(self.known.kind(named.name));
        self.require_known(named.name, named.at);
        self.require(equation, ErrorKind::WrongKind, named.at);
    }

    /// Adds the sets among the indices of a left side to the controlled ones.
    pub fn control_indices(&mut self, indices: &[Index<F>]) -> Result<(), AllocError>
        ensures { OnOk result (seen self.new ≡ with_controlled (seen self.old) (index_sets (index_list indices.now))) }
    {
        let sets = index_sets(self.alloc, indices)?;
        for set in &sets {
            self.controlled.push(*set)?;
        }
        Ok(())
    }

    /// Checks the amounts of lags on the left of an assignment or a definition, and notes the first
    /// error: each must be an integer literal or a scalar.
    pub fn left_amounts(&mut self, indices: &[Index<F>]) -> Result<(), AllocError>
        ensures { OnOk result (seen self.new ≡ noted F.value (seen self.old) (shift_uses (seen self.old).controlled (index_list indices.now))) }
    {
        for index in indices {
            if let Index::Set { lag, .. } = index
                && let Some((_op, at, amount)) = lag
            {
                self.left_amount(amount, *at)?;
            }
        }
        Ok(())
    }

    /// Checks an amount of a lag on the left, and notes the first error: it must be an integer
    /// literal or a scalar.
    fn left_amount(&mut self, amount: &Expr<F>, at: Place) -> Result<(), AllocError>
        ensures { OnOk result (seen self.new
            ≡ noted F.value (seen self.old) ((at, shifting (tree_of amount.now)) ∷ uses as_number at (seen self.old).controlled (tree_of amount.now))) }
    {
        let occurs = self.is_target_amount(amount);
        self.require(occurs, ErrorKind::WrongKind, at);
        let _variable = self.expression(amount, Context::NUMBER, at)?;
        Ok(())
    }

    /// Whether an amount is a whole literal or a scalar. A variable without suffix is admitted
    /// here: it is another error.
    fn is_target_amount(&self, amount: &Expr<F>) -> bool
        ensures { result ≡ is_target_amount (known_of F.value (seen self.now)) (tree_of amount.now) }
    {
        match amount {
            Expr::Number(value) => is_whole(*value),
            Expr::Ref {
                name,
                suffix,
                indices,
                ..
            } => matches!(suffix, Suffix::None) && self.may_shift(*name, indices.is_empty()),
            _ => false,
        }
    }

    /// Whether a name without suffix, with indices or without, is that of a scalar or of a
    /// variable.
    fn may_shift(&self, name: u32, bare: bool) -> bool
        ensures { result ≡ may_shift (declared_kind (seen self.now).facts.state name)
            (is_without_positions (positions (seen self.now).facts.state name) && bare) }
    {
        match self.known.kind(name) {
            SymbolKind::Parameter => self.known.position_count(name) == 0 && bare,
            SymbolKind::Variable => true,
            _ => false,
        }
    }

    /// Checks the condition of a statement, if any: each name, operator and other part must be
    /// allowed where it occurs. Updates `first`, the statement's first error by place and then by
    /// error number. `at`, the place of the statement, is the place of an error that is in no part
    /// with a place. The only error that is returned is out of memory.
    pub fn condition(&mut self, condition: &Option<Expr<F>>, at: Place) -> Result<(), AllocError>
        ensures { OnOk result (seen self.new
            ≡ noted F.value (seen self.old) (condition_uses at (seen self.old).controlled (option_map tree_of condition.now))) }
    {
        if let Some(condition) = condition {
            let _variable = self.expression(condition, Context::CONDITION, at)?;
        }
        Ok(())
    }
}

/// Whether a number of the field is an integer.
pub fn is_whole<F: ExactField>(value: F) -> bool
    ensures { result ≡ is_whole (F.value value) }
{
    let (_, denominator) = value.parts();
    denominator == 1
}
