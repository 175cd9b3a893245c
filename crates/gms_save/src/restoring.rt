//! Saving a state, and restoring it.
ghost use Rattle.std.specs.Prelude.{◌≡◌, ◌↔◌, ◌<◌, ◌^◌, [], ℕ, false, length, map, string_bytes, IsTrue, IfOk, MatchResult};
ghost use Rattle.gq_frac.specs.Frac.{frac_value};
ghost use Rattle.gms_store.specs.State.{members_in, symbol_at};
ghost use Rattle.gms_store.specs.Declarations.{declared_state};
ghost use Rattle.gms_scope.specs.Facts.{marked};
ghost use Rattle.gms_check.specs.CompileErrors.{compile_errors};
ghost use Rattle.gms_check.specs.Loaded.{IsAccepted};
ghost use Rattle.gms_save_text.specs.SavedState.{saved_text};
ghost use Rattle.gms_save_text.specs.Validity.{declared_symbols};
ghost use Rattle.gms_save.specs.Saves.{GivesBack, Restores, solvers_chosen, with_solver};
ghost use Rattle.gms_save.specs.InnerRestoreSteps.{IsFree, IsFaultyBy, IsNoStateBy, IsPlaced, IsSavedAt, IsSavedIn, IsStateOf, IsUnplacedBy};

use crate::fault::{SaveFault, SaveFaultOrMemory};
use crate::saved::Saved;
use crate::solvers::{place_of_solver, solvers_chosen};
use gms_ast::Program;
use gms_check::{found_errors, load, statement_errors};
use gms_parse::parse;
use gms_save_text::{
    are_in_range, has_same_members, is_given_well, is_solver_name, is_text_of, read_source,
    read_state, text_of,
};
use gms_scope::{Marks, dynamic_sets};
use gms_store::Store;
use gq_frac::Frac;
use std::alloc::{AllocError, Global};

/// The greatest number of bytes of a save that `restore` accepts.
pub const MOST_BYTES: usize = 67_108_864;

/// The save of the state `store` of the program `program`, whose source is `source`. It has the
/// name `solver`, `none` if there is no solver, in place of the solver's index in the settings
/// (GAMS User's Guide, "Save and Restart").
///
/// The error is out of memory. A save of over 67,108,864 bytes is made, but `restore` does not
/// accept it.
pub fn save(
    alloc: Global,
    source: &[u8],
    program: &Program<Frac>,
    store: &Store<Frac>,
    solver: &str,
) -> Result<Vec<u8>, AllocError>
    ensures { IfOk result (λ text. text.items ≡ saved_text source.now program.now.names store.now solver.now) }
{
    text_of(alloc, source, &program.names, store, solver.as_bytes())
}

/// The contents of the save `bytes`: its source, the program of this source, and a state, whose
/// settings have the index of the save's solver in the list `solvers` of names (GAMS User's Guide,
/// "Save and Restart").
///
/// The fault is `SaveTooLong` if there are over 67,108,864 bytes; `SaveShape` if the bytes are no
/// save; `SaveSolver` if the list lacks the save's solver, or is not empty and the save has no
/// solver; or `Memory` if memory runs out. A save is the one text of a state that fits the
/// declarations of the program of its source (`IsSavedBy`), whether or not a run reaches the state;
/// that program must have no error, except perhaps in its choice of a solver. Letter case is
/// ignored in names of solvers. The index is that of the first solver with the name; 0 if the save
/// has no solver and the list is empty. If there is no fault, the bytes are the save of what is
/// restored (`answer`).
///
/// Take any state of any program of any source whose save the bytes are. It is restored, with that
/// source and with the view of that program (its names, labels and statements), unless the fault is
/// `Memory`, `SaveTooLong` or `SaveSolver` (`back`). So no text is the save of two states that
/// differ in more than the index of the solver; and what `save` wrote is restored as it was, except
/// for that index. There must be fewer than 2^32 solvers.
pub fn restore(alloc: Global, bytes: &[u8], solvers: &[String]) -> Result<Saved, SaveFaultOrMemory>
    requires { length solvers.now < 2 ^ 32 }
    ensures answer { Restores (map string_bytes solvers.now) bytes.now result }
    ensures back { GivesBack (map string_bytes solvers.now) bytes.now result }
{
    if bytes.len() > MOST_BYTES {
        return Err(SaveFaultOrMemory::Fault(SaveFault::SaveTooLong));
    }
    let (source, text) = read_source(bytes)?;
    let copy = Vec::from_slice(alloc, source)?;
    let program = read_program(alloc, source)?;
    let (mut store, solver) = saved_state(alloc, &program, text)?;
    let place = saved_place(alloc, bytes, source, &program, &store, solver, solvers)?;
    put_solver(&mut store, place);
    Ok(Saved {
        source: copy,
        program,
        store,
    })
}

/// The program of a source, if it has no error with solvers of the names that it chooses.
fn read_program(alloc: Global, source: &[u8]) -> Result<Program<Frac>, SaveFaultOrMemory>
    ensures { MatchResult result (λ program. IsFree source.now program) (λ fault. IsFaultyBy source.now fault) }
{
    let program = parse(alloc, source)?;
    if !is_without_errors(alloc, &program)? {
        return Err(SaveFaultOrMemory::Fault(SaveFault::SaveShape));
    }
    Ok(program)
}

/// Whether a program has no error, with solvers of the names that it chooses.
fn is_without_errors(alloc: Global, program: &Program<Frac>) -> Result<bool, AllocError>
    ensures { IfOk result (λ none. IsTrue none ↔ (compile_errors frac_value program.now (solvers_chosen program.now) ≡ [])) }
{
    let solvers = solvers_chosen(alloc, program)?;
    let each = statement_errors(alloc, program, &solvers)?;
    let errors = found_errors(alloc, &each)?;
    Ok(errors.is_empty())
}

/// The saved state of a program that has this text, with the first solver in its settings, and the
/// name of its solver.
fn saved_state<'t>(
    alloc: Global,
    program: &Program<Frac>,
    text: &'t [u8],
) -> Result<(Store<Frac>, &'t [u8]), SaveFaultOrMemory>
    requires { IsAccepted frac_value program.now }
    ensures { MatchResult result (λ p. IsStateOf program.now text.now p.0 p.1.now) (λ fault. IsNoStateBy program.now text.now fault) }
{
    let _labels = program.labels.len();
    let (store, solver) = read_state(alloc, program, text)?;
    if !is_saved(alloc, program, &store, solver)? {
        return Err(SaveFaultOrMemory::Fault(SaveFault::SaveShape));
    }
    Ok((store, solver))
}

/// Whether a state that declares what a program does is a saved one of it.
fn is_saved(
    alloc: Global,
    program: &Program<Frac>,
    store: &Store<Frac>,
    solver: &[u8],
) -> Result<bool, AllocError>
    requires accepted { IsAccepted frac_value program.now }
    requires declares { declared_symbols store.now ≡ declared_symbols (declared_state program.now) }
    ensures { IfOk result (λ saved. IsTrue saved ↔ IsSavedIn program.now store.now solver.now) }
{
    if !are_in_range(store.settings()) {
        return Ok(false);
    }
    if !is_solver_name(solver) {
        return Ok(false);
    }
    let assigned = dynamic_sets(alloc, program)?;
    let first = load(alloc, program)?;
    are_saved(
        alloc,
        store,
        &first,
        &assigned,
        program.labels.len(),
        program.names.len(),
    )
}

/// Whether a state has at each of its first `names` names what a saved one may have there.
fn are_saved(
    alloc: Global,
    store: &Store<Frac>,
    first: &Store<Frac>,
    assigned: &Marks,
    labels: u32,
    names: u32,
) -> Result<bool, AllocError>
    requires { declared_symbols store.now ≡ declared_symbols first.now }
    ensures { IfOk result (λ saved. IsTrue saved ↔ ((n : ℕ) → n < names → IsSavedAt labels (marked assigned.now) first.now store.now n)) }
{
    for name in 0..names {
        if !is_saved_at(alloc, store, first, assigned, labels, name)? {
            return Ok(false);
        }
    }
    Ok(true)
}

/// Whether a state has at a name what a saved one may have there.
fn is_saved_at(
    alloc: Global,
    store: &Store<Frac>,
    first: &Store<Frac>,
    assigned: &Marks,
    labels: u32,
    name: u32,
) -> Result<bool, AllocError>
    requires { declared_symbols store.now ≡ declared_symbols first.now }
    ensures { IfOk result (λ saved. IsTrue saved ↔ IsSavedAt labels (marked assigned.now) first.now store.now name) }
{
    if !is_given_well(alloc, store, labels, name)? {
        return Ok(false);
    }
    Ok(keeps_members(store, first, assigned, name))
}

/// Whether a set that is not assigned has the members of the data.
fn keeps_members(store: &Store<Frac>, first: &Store<Frac>, assigned: &Marks, name: u32) -> bool
    requires { declared_symbols store.now ≡ declared_symbols first.now }
    ensures { IsTrue result ↔ (marked assigned.now name ≡ false → members_in (symbol_at store.now name).content ≡
        members_in (symbol_at first.now name).content) }
{
    if assigned.is_set(name) {
        return true;
    }
    if store.is_alias(name) {
        return true;
    }
    has_same_members(store, first, name)
}

/// The place of a saved solver among solvers of these names, if bytes are the text of a state with
/// a source.
fn saved_place(
    alloc: Global,
    bytes: &[u8],
    source: &[u8],
    program: &Program<Frac>,
    store: &Store<Frac>,
    solver: &[u8],
    solvers: &[String],
) -> Result<u32, SaveFaultOrMemory>
    requires { length solvers.now < 2 ^ 32 }
    ensures { MatchResult result
        (λ place. IsPlaced bytes.now (saved_text source.now program.now.names store.now solver.now) (map string_bytes solvers.now) solver.now place)
        (λ fault. IsUnplacedBy bytes.now (saved_text source.now program.now.names store.now solver.now) (map string_bytes solvers.now) solver.now fault) }
{
    if !is_text_of(alloc, bytes, source, &program.names, store, solver)? {
        return Err(SaveFaultOrMemory::Fault(SaveFault::SaveShape));
    }
    match place_of_solver(solvers, solver) {
        Some(place) => Ok(place),
        None => Err(SaveFaultOrMemory::Fault(SaveFault::SaveSolver)),
    }
}

/// Puts the solver at a place into the settings of a state.
fn put_solver(store: &mut Store<Frac>, place: u32)
    ensures { store.new ≡ with_solver store.old place }
{
    let mut settings = store.settings();
    settings.solver = place;
    store.put_settings(settings);
}
