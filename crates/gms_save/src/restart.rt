//! The check of what a new file may not do to saved names.
ghost use Rattle.std.specs.Prelude.{◌≡◌, ◌∷◌, [], false, None, Some, flat_map, length, replicate, if◌then◌else◌, IfOk};
ghost use Rattle.gms_store.specs.Declarations.{content_of, declared_state};
ghost use Rattle.gms_scope.specs.Facts.{with_marks};
ghost use Rattle.gms_check.specs.Errors.{first_error, sooner};
ghost use Rattle.gms_check.specs.Names.{is_variable};
ghost use Rattle.gms_save.specs.JointErrors.{each_sooner, is_saved, names_typed, restart_at, restarts_at, saved_assigned, saved_names, targets, typed_names};
ghost use Rattle.gms_save.specs.InnerRestartChecks.{IsCheckOf, error_by, fixed_by, variable_in};

use gms_ast::{Act, Decl, DeclKind, Named, Program, Stmt, Target};
use gms_check::{CompileError, ErrorKind};
use gms_labels::Place;
use gms_scope::{Marks, mark_statement};
use gms_store::{Store, SymbolKind};
use gq_frac::Frac;
use std::alloc::{AllocError, Global};

/// What is known of the saved source, to check two rules for the new file, which resumes from it.
/// The new file declares no variable of the saved source as a variable again. Of the saved source's
/// sets it assigns only those that the saved source assigns too.
pub(crate) struct RestartCheck {
    /// The first line of the new file in the joint source.
    pub from: u32,
    /// The declarations, without data, of the saved source alone.
    pub saved: Store<Frac>,
    /// The declarations, without data, of the joint program: the saved source, then the new file.
    pub declared: Store<Frac>,
    /// Marks of the sets that the saved source assigns, by the numbers of names. An alias counts as
    /// its set.
    pub assigned: Marks,
}

// Written out, so that it is proved once, and not wherever a check is dropped.
impl Drop for RestartCheck {
    fn drop(self) {
        let Self {
            from: _,
            saved: _,
            declared: _,
            assigned: _,
        } = self;
    }
}

/// What the statements of a joint program that begin above a line declare.
fn declared_before(
    alloc: Global,
    joint: &Program<Frac>,
    from: u32,
) -> Result<Store<Frac>, AllocError>
    ensures { IfOk result (λ saved. saved ≡ saved_names from joint.now) }
{
    let names = joint.names.len();
    let mut saved = Store::blank(alloc, names)?;
    for statement in &joint.statements {
        if is_saved(statement, from) {
            saved.declare_act(alloc, &statement.act)?;
        }
    }
    Ok(saved)
}

/// Marks of the sets that these statements assign, an alias as its set.
fn assigned_before(
    alloc: Global,
    joint: &Program<Frac>,
    from: u32,
    declared: &Store<Frac>,
) -> Result<Marks, AllocError>
    requires { declared.now ≡ declared_state joint.now }
    ensures { IfOk result (λ assigned. assigned ≡ with_marks (replicate (length joint.now.names) false) (saved_assigned from joint.now)) }
{
    let names = joint.names.len();
    let mut assigned = Marks::new(alloc, names)?;
    for statement in &joint.statements {
        if is_saved(statement, from) {
            mark_statement(statement, declared, &mut assigned);
        }
    }
    Ok(assigned)
}

impl RestartCheck {
    /// The check for errors `Restart`, misuses of saved names in the new file. `joint` is the
    /// program of the saved source, then of this file, which begins at the line `from`. The error
    /// is out of memory.
    pub fn new(alloc: Global, joint: &Program<Frac>, from: u32) -> Result<RestartCheck, AllocError>
        ensures { IfOk result (IsCheckOf from joint.now) }
    {
        let declared = Store::new(alloc, joint)?;
        let assigned = assigned_before(alloc, joint, from, &declared)?;
        let saved = declared_before(alloc, joint, from)?;
        Ok(RestartCheck {
            from,
            saved,
            declared,
            assigned,
        })
    }

    /// Merges the errors `Restart` of `statements` into `each`, which must have for each statement
    /// its error so far, or `None`. A statement of the new file has such an error where it declares
    /// a saved variable as a variable again, or assigns a set that the saved source declares but
    /// does not assign (an alias counts as its set). Statements of that source have none.
    /// Afterwards `each` has for each statement the first of its error so far and its errors
    /// `Restart`, by place and then by the error's number.
    pub fn add_errors(&self, statements: &[Stmt<Frac>], each: &mut [Option<CompileError>])
        requires { length each.old ≡ length statements.now }
        ensures { each.new ≡ each_sooner (error_by self.now) each.old statements.now }
    {
        for (place, statement) in statements.iter().enumerate() {
            each[place] = sooner(each[place], self.error_of(statement));
        }
    }

    /// The first `Restart` of a statement of the new file, if any. The saved source has none.
    fn error_of(&self, statement: &Stmt<Frac>) -> Option<CompileError>
        ensures { result ≡ error_by self.now statement.now }
    {
        if is_saved(statement, self.from) {
            return None;
        }
        sooner(
            self.type_error(&statement.act),
            self.target_error(statement),
        )
    }

    /// The first saved variable to which an act gives a type.
    fn type_error(&self, act: &Act<Frac>) -> Option<CompileError>
        ensures { result ≡ first_error (restarts_at (variable_in self.now.saved) (typed_names act.now)) }
    {
        match act {
            Act::Declare { kind, items } => self.type_error_among(*kind, items.as_slice()),
            _ => None,
        }
    }

    /// The first saved variable among declared names, if the declaration gives them a type.
    fn type_error_among(&self, kind: DeclKind, items: &[Decl<Frac>]) -> Option<CompileError>
        ensures { result ≡ first_error (restarts_at (variable_in self.now.saved) (names_typed kind items.now)) }
    {
        if !gives_type(kind) {
            return None;
        }
        let mut first = None;
        for item in items {
            first = sooner(first, self.type_error_at(item.named));
        }
        first
    }

    /// `Restart` at a name that is given a type, if it is that of a saved variable.
    fn type_error_at(&self, named: Named) -> Option<CompileError>
        ensures { result ≡ first_error (restarts_at (variable_in self.now.saved) ((named.at, named.name) ∷ [])) }
    {
        error_where(self.is_saved_variable(named.name), named.at)
    }

    /// The first set of the saved source that a statement assigns and the saved source does not.
    #[cycle(targets)]
    fn target_error(&self, statement: &Stmt<Frac>) -> Option<CompileError>
        ensures { result ≡ first_error (restarts_at (fixed_by self.now) (targets statement.now)) }
    {
        match &statement.act {
            Act::Assign { target, .. } => self.target_error_at(target),
            Act::Loop { body, .. } => self.target_error_among(body),
            _ => None,
        }
    }

    /// The first such set among those that some statements assign.
    #[cycle(targets)]
    fn target_error_among(&self, statements: &[Stmt<Frac>]) -> Option<CompileError>
        ensures { result ≡ first_error (restarts_at (fixed_by self.now) (flat_map targets statements.now)) }
    {
        let mut first = None;
        for statement in statements {
            first = sooner(first, self.target_error(statement));
        }
        first
    }

    /// `Restart` at an assigned name, if it is that of such a set.
    fn target_error_at(&self, target: &Target<Frac>) -> Option<CompileError>
        ensures { result ≡ first_error (restarts_at (fixed_by self.now) ((target.now.at, target.now.name) ∷ [])) }
    {
        error_where(self.is_fixed(target.name), target.at)
    }

    /// Whether the saved source declares a name as a variable.
    fn is_saved_variable(&self, name: u32) -> bool
        ensures { result ≡ variable_in self.now.saved name }
    {
        self.saved.kind_of(name) == SymbolKind::Variable
    }

    /// Whether a name is that of a set that the saved source declares and does not assign, an alias
    /// as its set.
    fn is_fixed(&self, name: u32) -> bool
        ensures { result ≡ fixed_by self.now name }
    {
        let set = self.declared.base(name);
        self.saved.kind_of(set) == SymbolKind::Set && !self.assigned.is_set(set)
    }
}

/// Whether a statement is one of the saved source; `from` is the line at which the new file begins.
fn is_saved(statement: &Stmt<Frac>, from: u32) -> bool
    ensures { result ≡ is_saved from statement.now }
{
    statement.at.line < from
}

/// Whether a declaration gives variables a type.
fn gives_type(kind: DeclKind) -> bool
    ensures { result ≡ is_variable (content_of kind) }
{
    match kind {
        DeclKind::Free | DeclKind::Positive | DeclKind::Negative | DeclKind::Discrete => true,
        _ => false,
    }
}

/// `Restart` at a place, if there is an error.
fn error_where(is_error: bool, at: Place) -> Option<CompileError>
    ensures { result ≡ (if is_error then Some (restart_at at) else None) }
{
    if is_error {
        Some(CompileError {
            kind: ErrorKind::Restart,
            at,
        })
    } else {
        None
    }
}

/// The earlier of two errors, if there are any.
fn sooner(one: Option<CompileError>, other: Option<CompileError>) -> Option<CompileError>
    ensures { result ≡ sooner one other }
{
    match one {
        Some(error) => Some(error.or_earlier(other)),
        None => other,
    }
}
