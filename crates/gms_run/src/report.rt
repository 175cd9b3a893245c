//! The listing of the loaded input, as it is written.
ghost use Rattle.std.specs.Prelude.{◌≡◌, ◌<◌, ◌^◌, ◌++◌, true, length, map, IfOk, OnOk, string_bytes};
ghost use Rattle.std.specs.List.{All};
ghost use Rattle.gq_frac.specs.Frac.{frac_value, frac_limit};
ghost use Rattle.gms_host.specs.Rules.{CountsWriting};
ghost use Rattle.gms_store.specs.State.{State};
ghost use Rattle.gms_parse.specs.Outcomes.{IsProgram};
ghost use Rattle.gms_command.specs.CommandLine.{asked_by};
ghost use Rattle.lp_slot.specs.SolverNames.{IsSolverName};
ghost use Rattle.gms_run.specs.InnerReports.{HasRest, IsSoundInput, ListsAll, ListsBody, ListsErrors, loaded_input_in, script_in};
ghost use Rattle.gms_run.specs.InnerRuns.{IsFresh, moment};
ghost use Rattle.gms_list.specs.ListingText.{has_echo};
ghost use Rattle.gms_run.specs.Listings.{refusal_text, unrestored_text};
ghost use Rattle.gms_run.specs.Scripts.{errors_of_script, scripted};

use crate::execution::Run;
use crate::outlet::Outlet;
use crate::restart::{begin, errors_of};
use crate::script::{LoadedInput, Script};
use crate::status::Status;
use gms_ast::Program;
use gms_check::CompileError;
use gms_command::Request;
use gms_host::{Failed, Host};
use gms_labels::Place;
use gms_list::Listing;
use gms_parse::{SourceError, SourceFault, SourceFaultOrMemory, parse};
use gms_save::SaveFault;
use gq_frac::Frac;
use lp_slot::LpSolver;
use std::alloc::{AllocError, Global};

/// The name of a solver.
fn name_of(alloc: Global, solver: &Box<dyn LpSolver>) -> Result<String, AllocError>
    ensures text { IfOk result (λ text. string_bytes text ≡ name solver.now) }
    ensures named { IfOk result (λ text. IsSolverName (string_bytes text)) }
{
    String::from_str(alloc, solver.name())
}

/// The names of solvers.
pub(crate) fn names_of(
    alloc: Global,
    solvers: &[Box<dyn LpSolver>],
) -> Result<Vec<String>, AllocError>
    ensures texts { IfOk result (λ names. map string_bytes names.items ≡ map name solvers.now) }
    ensures named { IfOk result (λ names. All IsSolverName (map string_bytes names.items)) }
{
    let mut names = Vec::new(alloc);
    for solver in solvers {
        let text = name_of(alloc, solver)?;
        names.push(text)?;
    }
    Ok(names)
}

/// Whether a script that is refused for an error has an echo: one whose source is too long has
/// none.
fn has_echo(error: SourceError) -> bool
    ensures { result ≡ has_echo error }
{
    !matches!(error, SourceError::TooLong)
}

/// Lists why a script is no program. One that is too long has no echo.
fn refused(
    alloc: Global,
    script: Script,
    fault: SourceFault,
    outlet: &mut Outlet,
) -> Result<Status, AllocError>
    ensures status { IfOk result (λ status. status ≡ Status.Compile) }
    ensures text { OnOk result ((state : State) → outlet.new.listing ≡ outlet.old.listing ++ refusal_text (script_in script.entry state) fault) }
    ensures spool { outlet.new.spool ≡ outlet.old.spool }
{
    if has_echo(fault.error) {
        outlet.listing.echo_from(alloc, script.file, script.line)?;
    }
    outlet.listing.source_fault(alloc, &fault)?;
    Ok(Status::Compile)
}

/// Lists why a save cannot be restored.
fn list_unrestored(alloc: Global, fault: SaveFault, listing: &mut Listing) -> Result<(), AllocError>
    ensures { OnOk result (listing.new ≡ listing.old ++ unrestored_text fault) }
{
    let at = Place { line: 1, column: 1 };
    listing.save_fault(alloc, fault.code(), fault.name(), at)
}

/// Lists the errors of a program after the echo of its script, if it has any. Answers whether it
/// has.
fn list_errors(
    alloc: Global,
    script: Script,
    errors: &[CompileError],
    listing: &mut Listing,
) -> Result<bool, AllocError>
    ensures { IfOk result (λ some. (state : State) → ListsErrors some errors.now (script_in script.entry state) listing.old listing.new) }
{
    if errors.is_empty() {
        return Ok(false);
    }
    listing.echo_from(alloc, script.file, script.line)?;
    listing.errors(alloc, errors)?;
    Ok(true)
}

/// The errors of a program for these solvers, each of which has a name that a source can write.
fn errors_for(
    alloc: Global,
    script: Script,
    program: &Program<Frac>,
    solvers: &[Box<dyn LpSolver>],
) -> Result<Vec<CompileError>, AllocError>
    ensures errors { IfOk result (λ errors. (state : State) → errors.items ≡
        errors_of_script (script_in script.entry state).saved script.entry.line program.now (map name solvers.now)) }
    ensures named { IfOk result (λ errors. All IsSolverName (map name solvers.now)) }
{
    let names = names_of(alloc, solvers)?;
    errors_of(alloc, script, program, &names)
}

/// Finds the errors of a script's program for these solvers, each of which has a name that a source
/// can write, and lists them after the echo. Answers whether there are any; if not, nothing is
/// listed.
fn has_errors(
    alloc: Global,
    script: Script,
    program: &Program<Frac>,
    solvers: &[Box<dyn LpSolver>],
    listing: &mut Listing,
) -> Result<bool, AllocError>
    ensures listed { IfOk result (λ some. (state : State) →
        ListsErrors some (errors_of_script (script_in script.entry state).saved script.entry.line program.now
        (map name solvers.now)) (script_in script.entry state) listing.old listing.new) }
    ensures named { IfOk result (λ some. All IsSolverName (map name solvers.now)) }
{
    let errors = errors_for(alloc, script, program, solvers)?;
    list_errors(alloc, script, errors.as_slice(), listing)
}

/// Checks and executes the program of a script. Its listing is written except for its last line,
/// which is still to come, and what follows the listing is prepared.
fn checked<H: Host>(
    alloc: Global,
    host: &mut H,
    request: Request,
    script: Script,
    program: &Program<Frac>,
    solvers: &mut Vec<Box<dyn LpSolver>>,
    run: &mut Run,
) -> Result<Status, Failed>
    requires open { (H.meaning host.old).outside.writing ≡ true }
    requires few { length solvers.old.items < 2 ^ 32 }
    requires fresh { IsFresh run.old }
    requires is_program { IsProgram frac_limit script.source.now frac_value program.now }
    requires sound { IsSoundInput (map name solvers.old.items) (scripted (script_in script run.old.progress.store)) }
    ensures outside { ListsBody result (scripted (script_in script.entry run.old.progress.store))
        (moment name rule paths (H.meaning host.old) solvers.old.items run.old)
        (moment name rule paths (H.meaning host.new) solvers.new.items run.new) }
    ensures follows { HasRest result (asked_by request.entry) (scripted (script_in script.entry run.old.progress.store))
        (moment name rule paths (H.meaning host.old) solvers.old.items run.old)
        (moment name rule paths (H.meaning host.new) solvers.new.items run.new) }
    ensures counts { CountsWriting result (H.meaning host.old).counts (H.meaning host.new).counts }
{
    let listing = &mut run.outlet.listing;
    if has_errors(alloc, script, program, solvers.as_slice(), listing)? {
        return Ok(Status::Compile);
    }
    begin(alloc, script, program, &mut run.progress.store)?;
    run.execute(alloc, host, request, script, program, solvers)
}

/// Parses, checks and executes a script. Its listing is written except for its last line, which is
/// still to come, and what follows the listing is prepared.
fn parsed<H: Host>(
    alloc: Global,
    host: &mut H,
    request: Request,
    script: Script,
    solvers: &mut Vec<Box<dyn LpSolver>>,
    run: &mut Run,
) -> Result<Status, Failed>
    requires open { (H.meaning host.old).outside.writing ≡ true }
    requires few { length solvers.old.items < 2 ^ 32 }
    requires fresh { IsFresh run.old }
    requires sound { IsSoundInput (map name solvers.old.items) (scripted (script_in script run.old.progress.store)) }
    ensures outside { ListsBody result (scripted (script_in script.entry run.old.progress.store))
        (moment name rule paths (H.meaning host.old) solvers.old.items run.old)
        (moment name rule paths (H.meaning host.new) solvers.new.items run.new) }
    ensures follows { HasRest result (asked_by request.entry) (scripted (script_in script.entry run.old.progress.store))
        (moment name rule paths (H.meaning host.old) solvers.old.items run.old)
        (moment name rule paths (H.meaning host.new) solvers.new.items run.new) }
    ensures counts { CountsWriting result (H.meaning host.old).counts (H.meaning host.new).counts }
{
    match parse::<Frac>(alloc, script.source) {
        Ok(program) => checked(alloc, host, request, script, &program, solvers, run),
        Err(SourceFaultOrMemory::Memory) => Err(Failed::Memory),
        Err(SourceFaultOrMemory::Fault(fault)) => {
            let status = refused(alloc, script, fault, &mut run.outlet)?;
            Ok(status)
        }
    }
}

/// Lists the loaded input except for the last line, which is still to come: a script is executed;
/// of a save that cannot be restored the listing says why.
fn listed<H: Host>(
    alloc: Global,
    host: &mut H,
    request: Request,
    loaded_input: LoadedInput,
    solvers: &mut Vec<Box<dyn LpSolver>>,
    run: &mut Run,
) -> Result<Status, Failed>
    requires open { (H.meaning host.old).outside.writing ≡ true }
    requires few { length solvers.old.items < 2 ^ 32 }
    requires fresh { IsFresh run.old }
    requires sound { IsSoundInput (map name solvers.old.items) (loaded_input_in loaded_input run.old.progress.store) }
    ensures outside { ListsBody result (loaded_input_in loaded_input.entry run.old.progress.store)
        (moment name rule paths (H.meaning host.old) solvers.old.items run.old)
        (moment name rule paths (H.meaning host.new) solvers.new.items run.new) }
    ensures follows { HasRest result (asked_by request.entry) (loaded_input_in loaded_input.entry run.old.progress.store)
        (moment name rule paths (H.meaning host.old) solvers.old.items run.old)
        (moment name rule paths (H.meaning host.new) solvers.new.items run.new) }
    ensures counts { CountsWriting result (H.meaning host.old).counts (H.meaning host.new).counts }
{
    match loaded_input {
        LoadedInput::ToRun(script) => parsed(alloc, host, request, script, solvers, run),
        LoadedInput::Unrestored(fault) => {
            list_unrestored(alloc, fault, &mut run.outlet.listing)?;
            Ok(Status::Compile)
        }
    }
}

/// Writes the whole listing of the loaded input to the opened output, and prepares what follows it.
/// Answers how the run ends.
pub(crate) fn report<H: Host>(
    alloc: Global,
    host: &mut H,
    request: Request,
    loaded_input: LoadedInput,
    solvers: &mut Vec<Box<dyn LpSolver>>,
    run: &mut Run,
) -> Result<Status, Failed>
    requires open { (H.meaning host.old).outside.writing ≡ true }
    requires few { length solvers.old.items < 2 ^ 32 }
    requires fresh { IsFresh run.old }
    requires sound { IsSoundInput (map name solvers.old.items) (loaded_input_in loaded_input run.old.progress.store) }
    ensures outside { ListsAll result (loaded_input_in loaded_input.entry run.old.progress.store)
        (moment name rule paths (H.meaning host.old) solvers.old.items run.old)
        (moment name rule paths (H.meaning host.new) solvers.new.items run.new) }
    ensures follows { HasRest result (asked_by request.entry) (loaded_input_in loaded_input.entry run.old.progress.store)
        (moment name rule paths (H.meaning host.old) solvers.old.items run.old)
        (moment name rule paths (H.meaning host.new) solvers.new.items run.new) }
    ensures counts { CountsWriting result (H.meaning host.old).counts (H.meaning host.new).counts }
{
    let status = listed(alloc, host, request, loaded_input, solvers, run)?;
    let solves = run.progress.answers.len();
    run.outlet.end(alloc, host, status, solves)?;
    Ok(status)
}
