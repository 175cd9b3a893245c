//! The check of the sets that folds and loops control, and of `ord` and `card`.
ghost use Rattle.std.specs.Prelude.{◌≡◌, ◌++◌, [], ◌∷◌, false, not, IfOk, OnOk};
ghost use Rattle.gms_scope.specs.Names.{has_no_declaration};
ghost use Rattle.gms_check.specs.InnerChecking.{faulted, noted, seen, with_controlled};
ghost use Rattle.gms_check.specs.Controls.{is_controlled_twice};
ghost use Rattle.gms_check.specs.Uses.{cardinal, controlling, ordinal};
ghost use Rattle.gms_check.specs.declared.error.ErrorKind.TheVariants.{UnknownName};

use crate::checker::Checker;
use crate::contexts::Context;
use crate::error::ErrorKind;
use crate::indices::{MOST, has_unknown, has_wrong_set};
use gms_labels::Place;
use gq_field::ExactField;
use std::alloc::AllocError;

impl<'s, F: ExactField> Checker<'s, F> {
    /// Reports the error `UnknownName` at the place `at` if no statement before declares the name.
    pub fn require_known(&mut self, name: u32, at: Place)
        ensures { seen self.new ≡ faulted (seen self.old) at ((has_no_declaration (seen self.old).facts.state name, UnknownName) ∷ []) }
    {
        let known = !self.known.is_unknown(name);
        self.require(known, ErrorKind::UnknownName, at);
    }

    /// Checks the sets of a fold, such as `sum`, or a loop. Each must be a declared one-dimensional
    /// set, there must be at most 10, and none may be controlled already or occur twice. Updates
    /// `first`, the statement's first error by place, then error number; here the place is `at`.
    /// The sets are then controlled, even wrong ones. The error returned is out of memory.
    pub fn control_sets(&mut self, sets: &[u32], at: Place) -> Result<(), AllocError>
        ensures { OnOk result
            (seen self.new ≡ with_controlled (noted F.value (seen self.old) ((at, controlling (seen self.old).controlled sets.now) ∷ [])) sets.now) }
    {
        let unknown = has_unknown(&self.known, sets);
        let wrong = has_wrong_set(&self.known, sets);
        let twice = self.push_sets(sets)?;
        self.require(!unknown, ErrorKind::UnknownName, at);
        self.require(!wrong, ErrorKind::WrongKind, at);
        self.require(sets.len() <= MOST, ErrorKind::WrongArity, at);
        self.require(!twice, ErrorKind::ControlledTwice, at);
        Ok(())
    }

    /// Makes sets controlled. The result is whether one of them was controlled already.
    fn push_sets(&mut self, sets: &[u32]) -> Result<bool, AllocError>
        ensures twice { IfOk result (λ twice. twice ≡ is_controlled_twice (seen self.old).controlled sets.now) }
        ensures controlled { OnOk result (seen self.new ≡ with_controlled (seen self.old) sets.now) }
    {
        let mut twice = false;
        for set in sets {
            twice = twice || self.controlled.has(*set);
            self.controlled.push(*set)?;
        }
        Ok(twice)
    }

    /// Checks `ord` of `set`, at the place `at`: the context must admit a number, and `set` must be
    /// a declared, controlled, ordered set. Updates `first`, the statement's first error by place,
    /// then by number. The result is `false`: no variable.
    pub fn ordinal(&mut self, context: Context, at: Place, set: u32) -> bool
        ensures noted { seen self.new ≡ noted F.value (seen self.old) ((at, ordinal context (seen self.old).controlled set) ∷ []) }
        ensures variable { result ≡ false }
    {
        let controlled = self.controlled.has(set);
        let ordered = self.known.is_ordered(set);
        let variable = self.cardinal(context, at, set);
        self.require(controlled, ErrorKind::Uncontrolled, at);
        self.require(ordered, ErrorKind::NotOrdered, at);
        variable
    }

    /// Checks `card` of `set`, at the place `at`: the context must admit a number, and `set` must
    /// be a set declared before. Updates `first`, the statement's first error by place, then error
    /// number. The result is `false`: no variable.
    pub fn cardinal(&mut self, context: Context, at: Place, set: u32) -> bool
        ensures noted { seen self.new ≡ noted F.value (seen self.old) ((at, cardinal context set) ∷ []) }
        ensures variable { result ≡ false }
    {
        let occurs = context.numbers && self.known.is_set(set);
        self.require_known(set, at);
        self.require(occurs, ErrorKind::WrongKind, at);
        false
    }
}
