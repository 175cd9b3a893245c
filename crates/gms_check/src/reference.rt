//! The check of references: names, suffixes and indices.
ghost use Rattle.std.specs.Prelude.{◌≡◌, [], ◌∷◌, flat_map, IfOk, OnOk};
ghost use Rattle.gms_check.specs.InnerChecking.{faulted, known_of, noted, seen};
ghost use Rattle.gms_check.specs.InnerFaults.{index_faults};
ghost use Rattle.gms_check.specs.Linearity.{is_variable_by};
ghost use Rattle.gms_check.specs.StatementUses.{index_list, show_uses};
ghost use Rattle.gms_check.specs.Uses.{reading, showing};

use crate::checker::Checker;
use crate::contexts::Context;
use crate::error::ErrorKind;
use crate::indices::{
    has_uncontrolled, has_unfit_label, has_unfit_set, has_unknown, has_unordered, has_wrong_set,
    index_sets, is_wrong_count, lagged_sets,
};
use crate::kinds::is_variable;
use gms_ast::{Index, Named, Show, Suffix};
use gms_labels::Place;
use gq_field::ExactField;
use std::alloc::AllocError;

impl<'s, F: ExactField> Checker<'s, F> {
    /// Checks a reference, except for the amounts of its lags. Updates `first`, the statement's
    /// first error by place, then error number. Errors are a name or a set as index that is not
    /// declared before; a name that the context does not admit with this suffix; over 10 indices,
    /// or not as many as the name's positions; an index unfit for its position's domain; a set as
    /// index that is not one-dimensional, not controlled or, with a lag, not ordered. Returns
    /// whether it is a variable without suffix. The error is out of memory.
    pub fn reference(
        &mut self,
        context: Context,
        named: Named,
        suffix: Suffix,
        indices: &[Index<F>],
    ) -> Result<bool, AllocError>
        ensures noted { OnOk result (seen self.new
            ≡ noted F.value (seen self.old) ((named.at, reading context (seen self.old).controlled named.name suffix (index_list indices.now)) ∷ [])) }
        ensures variable { IfOk result (λ variable. variable ≡ is_variable_by (known_of F.value (seen self.old)) named.name suffix) }
    {
        let kind = self.known.kind(named.name);
        let variable = self.is_variable(named.name, suffix);
        let sets = index_sets(self.alloc, indices)?;
        let uncontrolled = has_uncontrolled(&self.controlled, &sets);
        self.named(named, context.admits(kind, suffix), indices)?;
        self.require(!uncontrolled, ErrorKind::Uncontrolled, named.at);
        let occurs = context.variables || !variable;
        self.require(occurs, ErrorKind::Endogenous, named.at);
        Ok(variable)
    }

    /// Whether a name by this suffix is a variable in an equation.
    fn is_variable(&self, name: u32, suffix: Suffix) -> bool
        ensures { result ≡ is_variable_by (known_of F.value (seen self.now)) name suffix }
    {
        match suffix {
            Suffix::None => is_variable(self.known.kind(name)),
            _ => false,
        }
    }

    /// Checks a name and its indices. Updates `first`, the statement's first error by place and
    /// then by error number. Errors, at the place of the name, are a name or a set as index that is
    /// not declared before; `occurs` (whether the context admits the name) if it is false; over 10
    /// indices, or not as many as the name's positions; an index unfit for its position's domain; a
    /// set as index that is not one-dimensional or, with a lag, not ordered. The only error
    /// returned is out of memory.
    pub fn named(
        &mut self,
        named: Named,
        occurs: bool,
        indices: &[Index<F>],
    ) -> Result<(), AllocError>
        ensures { OnOk result (seen self.new
            ≡ faulted (seen self.old) named.at (index_faults (known_of F.value (seen self.old)) named.name occurs (index_list indices.now))) }
    {
        let sets = index_sets(self.alloc, indices)?;
        let lagged = lagged_sets(self.alloc, indices)?;
        let unknown = self.known.is_unknown(named.name) || has_unknown(&self.known, &sets);
        let wrong = !occurs || has_wrong_set(&self.known, &sets);
        let miscounted = is_wrong_count(self.known.position_count(named.name), indices.len());
        let unfit = has_unfit_set(&self.known, named.name, indices);
        let outside = has_unfit_label(self.alloc, &self.known, named.name, indices)?;
        let unordered = has_unordered(&self.known, &lagged);
        self.require(!unknown, ErrorKind::UnknownName, named.at);
        self.require(!wrong, ErrorKind::WrongKind, named.at);
        self.require(!miscounted, ErrorKind::WrongArity, named.at);
        self.require(!unfit, ErrorKind::DomainOfSet, named.at);
        self.require(!outside, ErrorKind::DomainOfLabel, named.at);
        self.require(!unordered, ErrorKind::NotOrdered, named.at);
        Ok(())
    }

    /// Checks the items that a `display` or an `abort` shows: each symbol must be declared before
    /// and, with its suffix, allowed in a condition. Updates `first`, the statement's first error
    /// by place, then number. A text has no error.
    pub fn shows(&mut self, items: &[Show])
        ensures { seen self.new ≡ noted F.value (seen self.old) (flat_map show_uses items.now) }
    {
        for item in items {
            self.show(item);
        }
    }

    /// Checks a displayed item, a symbol or a text. A text has no error.
    fn show(&mut self, item: &Show)
        ensures { seen self.new ≡ noted F.value (seen self.old) (show_uses item.now) }
    {
        if let Show::Symbol { named, suffix } = item {
            self.symbol(*named, *suffix);
        }
    }

    /// Checks a symbol that is displayed: it is declared before, and may occur in a condition with
    /// this suffix.
    fn symbol(&mut self, named: Named, suffix: Suffix)
        ensures { seen self.new ≡ noted F.value (seen self.old) ((named.at, showing named.name suffix) ∷ []) }
    {
        let kind = self.known.kind(named.name);
        let variable = self.is_variable(named.name, suffix);
        let occurs = Context::CONDITION.admits(kind, suffix);
        self.require_known(named.name, named.at);
        self.require(occurs, ErrorKind::WrongKind, named.at);
        self.require(!variable, ErrorKind::Endogenous, named.at);
    }
}
