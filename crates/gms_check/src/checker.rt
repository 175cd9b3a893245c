//! The check of a program, statement by statement.
ghost use Rattle.std.specs.Prelude.{◌≡◌, [], ◌∷◌, ◌++◌, map, flat_map, not, None, Some, option_to_list, string_bytes, IfOk, OnOk};
ghost use Rattle.gms_scope.specs.Facts.{first_facts};
ghost use Rattle.gms_check.specs.InnerChecking.{faulted, seen};
ghost use Rattle.gms_check.specs.CompileErrors.{compile_errors, statement_errors};
ghost use Rattle.gms_check.specs.Errors.{sooner};

use crate::controlled::Controlled;
use crate::error::{CompileError, ErrorKind};
use gms_ast::{Program, Sequence};
use gms_labels::Place;
use gms_scope::Known;
use gq_field::ExactField;
use std::alloc::{AllocError, Global};

/// The compile errors of a program, at most one of each statement, in the order of the statements.
/// `solvers` has the names that `option lp` admits. The only error returned is out of memory.
///
/// Of several errors of a statement the first by place in the source is listed, and at one place
/// that with the least error number. A loop with its body is one statement. A statement with an
/// error declares its names, but gives them no data. The program is accepted exactly if no error is
/// listed. GAMS User's Guide, "Set Definition", "Data Manipulation", "Equations", "Model and Solve
/// Statements".
pub fn check<F: ExactField>(
    alloc: Global,
    program: &Program<F>,
    solvers: &[String],
) -> Result<Vec<CompileError>, AllocError>
    ensures { IfOk result (λ errors. errors.items ≡ compile_errors F.value program.now (map string_bytes solvers.now)) }
{
    let names = names_of(alloc, solvers)?;
    let each = statement_errors(alloc, program, &names)?;
    found_errors(alloc, &each)
}

/// The names of solvers as sequences of bytes, in the same order. The error is out of memory.
pub fn names_of(alloc: Global, solvers: &[String]) -> Result<Vec<Sequence<u8>>, AllocError>
    ensures { IfOk result (λ names. names.items ≡ map string_bytes solvers.now) }
{
    let mut names = Vec::new(alloc);
    for solver in solvers {
        let name = Vec::from_slice(alloc, solver.as_bytes())?;
        names.push(Sequence::new(name))?;
    }
    Ok(names)
}

/// The compile error of each statement of a program, in order; `None` if a statement has none. Of
/// several errors of a statement this is the first by place, and at one place the one with the
/// least number. `solvers` has the names of the solvers. The only error of the function is out of
/// memory.
pub fn statement_errors<F: ExactField>(
    alloc: Global,
    program: &Program<F>,
    solvers: &[Sequence<u8>],
) -> Result<Vec<Option<CompileError>>, AllocError>
    ensures { IfOk result (λ errors. errors.items ≡ statement_errors F.value program.now solvers.now) }
{
    let mut checker = Checker::new(alloc, program, solvers)?;
    check_statements(alloc, &mut checker, program)
}

/// The error of each statement of a program, by a check at its beginning.
fn check_statements<F: ExactField>(
    alloc: Global,
    checker: &mut Checker<'_, F>,
    program: &Program<F>,
) -> Result<Vec<Option<CompileError>>, AllocError>
    requires facts { (seen checker.old).facts ≡ first_facts program.now }
    requires first { (seen checker.old).first ≡ None }
    ensures { IfOk result (λ errors. errors.items ≡ statement_errors F.value program.now (seen checker.old).solvers) }
{
    let mut errors = Vec::new(alloc);
    for statement in &program.statements {
        let error = checker.statement(statement)?;
        errors.push(error)?;
    }
    Ok(errors)
}

/// The compile errors of this list, in order, without its entries that are `None`.
pub fn found_errors(
    alloc: Global,
    each: &[Option<CompileError>],
) -> Result<Vec<CompileError>, AllocError>
    ensures { IfOk result (λ errors. errors.items ≡ flat_map option_to_list each.now) }
{
    let mut errors = Vec::new(alloc);
    for error in each {
        put_last(&mut errors, *error)?;
    }
    Ok(errors)
}

/// Puts an error, if there is one, last among others.
fn put_last(errors: &mut Vec<CompileError>, error: Option<CompileError>) -> Result<(), AllocError>
    ensures { OnOk result (errors.new.items ≡ errors.old.items ++ option_to_list error) }
{
    if let Some(error) = error {
        errors.push(error)?;
    }
    Ok(())
}

/// A check in progress, at one statement of a program: what is known from the statements before,
/// the sets that are controlled at the current expression, and this statement's first error so far.
#[derive(Drop)]
pub struct Checker<'s, F: ExactField> {
    /// The allocator of all that the check stores.
    pub alloc: Global,
    /// The names of the solvers: the words that `option lp` admits.
    pub solvers: &'s [Sequence<u8>],
    /// What the statements before the one in check declare and define, with their data.
    pub known: Known<F>,
    /// The sets that folds (`sum` and others), loops and left sides control at the current
    /// expression.
    pub controlled: Controlled,
    /// Of the errors found so far in the statement that is being checked, the first by place, and
    /// at one place the one with the least number; `None` if no error was found.
    pub first: Option<CompileError>,
}

impl<'s, F: ExactField> Checker<'s, F> {
    /// The checker of a program before it has checked the first statement. `solvers` has the names
    /// of the solvers: the words that `option lp` admits. The error is out of memory.
    pub fn new(
        alloc: Global,
        program: &Program<F>,
        solvers: &'s [Sequence<u8>],
    ) -> Result<Checker<'s, F>, AllocError>
        ensures { IfOk result (λ checker. seen checker
            ≡ record { facts = first_facts program.now; solvers = solvers.now; controlled = []; first = None }) }
    {
        let known = Known::new(alloc, program)?;
        Ok(Checker {
            alloc,
            solvers,
            known,
            controlled: Controlled::new(alloc),
            first: None,
        })
    }

    /// Updates `first`, the statement's first error by place and then by error number, with the
    /// error of this kind at this place.
    pub fn report(&mut self, kind: ErrorKind, at: Place)
        ensures { seen self.new ≡ record (seen self.old) { first = sooner (seen self.old).first (Some (record { kind = kind; at = at })) } }
    {
        let error = CompileError { kind, at };
        self.first = Some(error.or_earlier(self.first));
    }

    /// Reports an error of this kind at the place `at` if `holds` is false.
    pub fn require(&mut self, holds: bool, kind: ErrorKind, at: Place)
        ensures { seen self.new ≡ faulted (seen self.old) at ((not holds, kind) ∷ []) }
    {
        if !holds {
            self.report(kind, at);
        }
    }

    /// Returns the first error of the statement so far, `None` if there is none, and forgets it.
    pub fn take_first(&mut self) -> Option<CompileError>
        ensures first { result ≡ (seen self.old).first }
        ensures forgotten { seen self.new ≡ record (seen self.old) { first = None } }
    {
        let first = self.first;
        self.first = None;
        first
    }

    /// Replaces `first`, the statement's first error so far, by the error `before`, unless `first`
    /// comes before it, by place, then error number. If `before` is `None`, nothing changes.
    pub fn merge(&mut self, before: Option<CompileError>)
        ensures { seen self.new ≡ record (seen self.old) { first = sooner before (seen self.old).first } }
    {
        if let Some(error) = before {
            self.first = Some(error.or_earlier(self.first));
        }
    }
}
