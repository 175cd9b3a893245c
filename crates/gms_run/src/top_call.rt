//! The top call: from the arguments of the command line to the bytes of the listing and of the
//! save.
ghost use Rattle.std.specs.Prelude.{◌≡◌, ◌<◌, ◌≤◌, ◌^◌, ◌↔◌, ◌⊎◌, ℕ, List, true, length, map, None, Some, IfOk, OnOk};
ghost use Rattle.gms_host.specs.Rules.{CountsWriting, IsThere};
ghost use Rattle.gms_lex.specs.Tokens.{most_source_bytes};
ghost use Rattle.gms_command.specs.CommandLine.{texts, request_of, asked_by, in_file, restarted, generated, read_fault_line};
ghost use Rattle.gms_run.specs.Headline.{HasListing, WritesListing, file_alone};
ghost use Rattle.gms_run.specs.InnerReports.{CanContinue, CountsMention, CountsRun, EndsAs, IsSoundInput, Reports, RunsAfter, RunsInput, RunsRequest, RunsTaken, RunsWords, loaded_input_in};
ghost use Rattle.gms_run.specs.InnerRuns.{IsFresh, moment};
ghost use Rattle.gms_run.specs.Laws.{RunIsAnsweredRightly};
ghost use Rattle.gms_run.specs.Scripts.{first_line, from_save, joint_script, joint_source, script_of, scripted};
ghost use Rattle.gms_run.specs.Solving.{solving};
ghost use Rattle.gms_run.specs.Statuses.{CanRun, CountsSo, EndsByNoFault, HasOrigin, IsReadyFor, IsRun, IsStopped, MeetsNoFault, NamesProgram, NamesSource, SaysLine};

use crate::closing::{push_closing, write_save};
use crate::execution::Run;
use crate::report::report;
use crate::restart::restored;
use crate::script::{LoadedInput, Script, first_line, joint_source};
use crate::status::Status;
use crate::transfer::{read_file, say_line};
use gms_command::{Request, Source, output_of, read_fault_line, request_of, usage_line};
use gms_gen::generate;
use gms_host::{Failed, Host};
use gms_lex::MOST_BYTES;
use gms_save::{MOST_BYTES as MOST_SAVE_BYTES, SaveFaultOrMemory, Saved};
use gq_frac::Frac;
use lp_core::Answer;
use lp_slot::LpSolver;
use std::alloc::{AllocError, Global};
use std::mem::{replace, swap};

/// How a run ended, with the answers of its solves.
#[derive(Drop)]
pub struct Ended {
    /// The status with which the run ended.
    pub status: Status,
    /// The answers that the solvers gave in the run, in the order of the solves; an empty list if
    /// nothing was solved.
    pub answers: Vec<Answer<Frac>>,
}

/// Writes the listing of the loaded input to the output that a request names, and closes the
/// output. If the request names a file for a save, and the status is Done, the state at the end of
/// the run is then saved. Last, the remarks on the run, such as requested sensitivity ranges, and
/// the closing line are printed. Returns the status. The first fault of the host ends these steps
/// with the error `Fault`, and out of memory with the error `Memory`.
fn write_report<H: Host>(
    alloc: Global,
    host: &mut H,
    request: Request,
    loaded_input: LoadedInput,
    output: &str,
    solvers: &mut Vec<Box<dyn LpSolver>>,
    run: &mut Run,
) -> Result<Status, Failed>
    requires few { length solvers.old.items < 2 ^ 32 }
    requires fresh { IsFresh run.old }
    requires sound { IsSoundInput (map name solvers.old.items) (loaded_input_in loaded_input run.old.progress.store) }
    requires named { output.now ≡ (asked_by request).output }
    ensures outside { Reports result (asked_by request.entry) (loaded_input_in loaded_input.entry run.old.progress.store)
        (moment name rule paths (H.meaning host.old) solvers.old.items run.old)
        (moment name rule paths (H.meaning host.new) solvers.new.items run.new) }
    ensures counts { CountsWriting result (H.meaning host.old).counts (H.meaning host.new).counts }
{
    host.open_out(output)?;
    let status = report(alloc, host, request, loaded_input, solvers, run)?;
    host.close_out()?;
    write_save(host, status, request, run.save.as_slice())?;
    push_closing(
        alloc,
        status,
        run.progress.answers.len(),
        output,
        &mut run.remarks,
    )?;
    say_line(host, run.remarks.as_str().as_bytes())?;
    Ok(status)
}

/// The end of a run, by the result of its report: a fault of the host is a write fault.
fn status_of(reported: Result<Status, Failed>) -> Result<Status, AllocError>
    ensures { EndsAs reported result }
{
    match reported {
        Ok(status) => Ok(status),
        Err(Failed::Fault) => Ok(Status::WriteFault),
        Err(Failed::Memory) => Err(AllocError),
    }
}

/// Prints a line. A fault in printing it changes nothing else.
fn mention<H: Host>(host: &mut H, line: &str) -> Result<(), AllocError>
    ensures said { OnOk result (SaysLine (H.meaning host.old) (H.meaning host.new) (H.meaning host.old).outside line.now) }
    ensures counts { CountsMention (H.meaning host.old).counts (H.meaning host.new).counts }
{
    match say_line(host, line.as_bytes()) {
        Ok(()) => Ok(()),
        Err(Failed::Fault) => Ok(()),
        Err(Failed::Memory) => Err(AllocError),
    }
}

/// Prints that the file could not be read.
fn report_read_fault<H: Host>(alloc: Global, host: &mut H, file: &str) -> Result<Status, AllocError>
    ensures status { IfOk result (λ status. status ≡ Status.ReadFault) }
    ensures said { OnOk result (SaysLine (H.meaning host.old) (H.meaning host.new) (H.meaning host.old).outside (read_fault_line file.now)) }
    ensures counts { CountsMention (H.meaning host.old).counts (H.meaning host.new).counts }
{
    let line = read_fault_line(alloc, file)?;
    mention(host, line.as_str())?;
    Ok(Status::ReadFault)
}

/// Runs the loaded input for a request.
fn run_loaded<H: Host>(
    alloc: Global,
    host: &mut H,
    request: Request,
    loaded_input: LoadedInput,
    solvers: &mut Vec<Box<dyn LpSolver>>,
    run: &mut Run,
) -> Result<Status, AllocError>
    requires few { length solvers.old.items < 2 ^ 32 }
    requires fresh { IsFresh run.old }
    requires sound { IsSoundInput (map name solvers.old.items) (loaded_input_in loaded_input run.old.progress.store) }
    ensures ran { RunsInput result (asked_by request.entry) (loaded_input_in loaded_input.entry run.old.progress.store)
        (moment name rule paths (H.meaning host.old) solvers.old.items run.old)
        (moment name rule paths (H.meaning host.new) solvers.new.items run.new) }
    ensures counts { CountsRun result ((H.meaning host.old).counts.reliable ≡ true) (H.meaning host.old).counts (H.meaning host.new).counts }
{
    let output = output_of(alloc, request)?;
    let name = output.as_str();
    status_of(write_report(alloc, host, request, loaded_input, name, solvers, run))
}

/// Runs a source from its start for a request.
fn run_source<H: Host>(
    alloc: Global,
    host: &mut H,
    request: Request,
    source: &[u8],
    solvers: &mut Vec<Box<dyn LpSolver>>,
    run: &mut Run,
) -> Result<Status, AllocError>
    requires few { length solvers.old.items < 2 ^ 32 }
    requires fresh { IsFresh run.old }
    ensures ran { RunsInput result (asked_by request.entry) (scripted (script_of source.now))
        (moment name rule paths (H.meaning host.old) solvers.old.items run.old)
        (moment name rule paths (H.meaning host.new) solvers.new.items run.new) }
    ensures counts { CountsRun result ((H.meaning host.old).counts.reliable ≡ true) (H.meaning host.old).counts (H.meaning host.new).counts }
{
    let script = Script {
        source,
        file: source,
        line: 1,
        joint: false,
    };
    let loaded_input = LoadedInput::ToRun(script);
    run_loaded(alloc, host, request, loaded_input, solvers, run)
}

/// Runs a file that resumes from a restored state, for a request.
fn run_joint<H: Host>(
    alloc: Global,
    host: &mut H,
    request: Request,
    saved: &mut Saved,
    file: &[u8],
    solvers: &mut Vec<Box<dyn LpSolver>>,
    run: &mut Run,
) -> Result<Status, AllocError>
    requires few { length solvers.old.items < 2 ^ 32 }
    requires fresh { IsFresh run.old }
    requires short { length saved.old.source.items ≤ most_source_bytes }
    requires sound { CanContinue (map name solvers.old.items) (joint_source saved.old.source.items file.now)
        (first_line saved.old.source.items) saved.old.store }
    ensures ran { RunsInput result (asked_by request.entry) (scripted (joint_script saved.old.source.items saved.old.store file.now))
        (moment name rule paths (H.meaning host.old) solvers.old.items run.old)
        (moment name rule paths (H.meaning host.new) solvers.new.items run.new) }
    ensures counts { CountsRun result ((H.meaning host.old).counts.reliable ≡ true) (H.meaning host.old).counts (H.meaning host.new).counts }
{
    let source = joint_source(alloc, saved.source.as_slice(), file)?;
    let line = first_line(saved.source.as_slice());
    let script = Script {
        source: source.as_slice(),
        file,
        line,
        joint: true,
    };
    let loaded_input = LoadedInput::ToRun(script);
    swap(&mut run.progress.store, &mut saved.store);
    run_loaded(alloc, host, request, loaded_input, solvers, run)
}

/// Runs a file that resumes from a save, for a request.
fn run_save<H: Host>(
    alloc: Global,
    host: &mut H,
    request: Request,
    save: Vec<u8>,
    file: &[u8],
    solvers: &mut Vec<Box<dyn LpSolver>>,
    run: &mut Run,
) -> Result<Status, AllocError>
    requires few { length solvers.old.items < 2 ^ 32 }
    requires fresh { IsFresh run.old }
    ensures ran { RunsTaken result (asked_by request.entry) (from_save save.items file.now)
        (moment name rule paths (H.meaning host.old) solvers.old.items run.old)
        (moment name rule paths (H.meaning host.new) solvers.new.items run.new) }
    ensures counts { CountsRun result ((H.meaning host.old).counts.reliable ≡ true) (H.meaning host.old).counts (H.meaning host.new).counts }
{
    match restored(alloc, save, solvers.as_slice()) {
        Ok(mut saved) => run_joint(alloc, host, request, &mut saved, file, solvers, run),
        Err(SaveFaultOrMemory::Memory) => Err(AllocError),
        Err(SaveFaultOrMemory::Fault(fault)) => {
            let loaded_input = LoadedInput::Unrestored(fault);
            run_loaded(alloc, host, request, loaded_input, solvers, run)
        }
    }
}

/// Runs the source in the requested file.
fn run_file<H: Host>(
    alloc: Global,
    host: &mut H,
    request: Request,
    file: &str,
    solvers: &mut Vec<Box<dyn LpSolver>>,
    run: &mut Run,
) -> Result<Status, AllocError>
    requires few { length solvers.old.items < 2 ^ 32 }
    requires fresh { IsFresh run.old }
    requires named { (asked_by request).source ≡ in_file file.now }
    ensures ran { RunsRequest result (asked_by request.entry)
        (moment name rule paths (H.meaning host.old) solvers.old.items run.old)
        (moment name rule paths (H.meaning host.new) solvers.new.items run.new) }
    ensures counts { CountsRun result (((H.meaning host.old).counts.reliable ≡ true) ×
        IsThere (H.meaning host.old).outside file.now) (H.meaning host.old).counts (H.meaning host.new).counts }
{
    let source = match read_file(alloc, host, file, MOST_BYTES) {
        Ok(source) => source,
        Err(Failed::Fault) => return report_read_fault(alloc, host, file),
        Err(Failed::Memory) => return Err(AllocError),
    };
    run_source(alloc, host, request, source.as_slice(), solvers, run)
}

/// Runs the requested file after the save that was read.
fn run_after_save<H: Host>(
    alloc: Global,
    host: &mut H,
    request: Request,
    save: Vec<u8>,
    file: &str,
    solvers: &mut Vec<Box<dyn LpSolver>>,
    run: &mut Run,
) -> Result<Status, AllocError>
    requires few { length solvers.old.items < 2 ^ 32 }
    requires fresh { IsFresh run.old }
    ensures ran { RunsAfter result (asked_by request.entry) save.items file.now
        (moment name rule paths (H.meaning host.old) solvers.old.items run.old)
        (moment name rule paths (H.meaning host.new) solvers.new.items run.new) }
    ensures counts { CountsRun result (((H.meaning host.old).counts.reliable ≡ true) ×
        IsThere (H.meaning host.old).outside file.now) (H.meaning host.old).counts (H.meaning host.new).counts }
{
    let source = match read_file(alloc, host, file, MOST_BYTES) {
        Ok(source) => source,
        Err(Failed::Fault) => return report_read_fault(alloc, host, file),
        Err(Failed::Memory) => return Err(AllocError),
    };
    run_save(alloc, host, request, save, source.as_slice(), solvers, run)
}

/// Runs the requested file, which resumes from the save in another file.
fn run_restart<H: Host>(
    alloc: Global,
    host: &mut H,
    request: Request,
    saved: &str,
    file: &str,
    solvers: &mut Vec<Box<dyn LpSolver>>,
    run: &mut Run,
) -> Result<Status, AllocError>
    requires few { length solvers.old.items < 2 ^ 32 }
    requires fresh { IsFresh run.old }
    requires named { (asked_by request).source ≡ restarted saved.now file.now }
    ensures ran { RunsRequest result (asked_by request.entry)
        (moment name rule paths (H.meaning host.old) solvers.old.items run.old)
        (moment name rule paths (H.meaning host.new) solvers.new.items run.new) }
    ensures counts { CountsRun result (((H.meaning host.old).counts.reliable ≡ true) ×
        (IsThere (H.meaning host.old).outside saved.now × IsThere (H.meaning host.old).outside file.now))
        (H.meaning host.old).counts (H.meaning host.new).counts }
{
    let save = match read_file(alloc, host, saved, MOST_SAVE_BYTES) {
        Ok(save) => save,
        Err(Failed::Fault) => return report_read_fault(alloc, host, saved),
        Err(Failed::Memory) => return Err(AllocError),
    };
    run_after_save(alloc, host, request, save, file, solvers, run)
}

/// Runs the generated model of the requested size.
fn run_generated<H: Host>(
    alloc: Global,
    host: &mut H,
    request: Request,
    size: u32,
    solvers: &mut Vec<Box<dyn LpSolver>>,
    run: &mut Run,
) -> Result<Status, AllocError>
    requires few { length solvers.old.items < 2 ^ 32 }
    requires fresh { IsFresh run.old }
    requires named { (asked_by request).source ≡ generated size }
    ensures ran { RunsRequest result (asked_by request.entry)
        (moment name rule paths (H.meaning host.old) solvers.old.items run.old)
        (moment name rule paths (H.meaning host.new) solvers.new.items run.new) }
    ensures counts { CountsRun result ((H.meaning host.old).counts.reliable ≡ true) (H.meaning host.old).counts (H.meaning host.new).counts }
{
    let text = generate(alloc, u64::from(size), size, size)?;
    let source = text.as_str().as_bytes();
    run_source(alloc, host, request, source, solvers, run)
}

/// Runs the requested source, and ends with its status.
fn run_request<H: Host>(
    alloc: Global,
    host: &mut H,
    request: Request,
    solvers: &mut Vec<Box<dyn LpSolver>>,
    run: &mut Run,
) -> Result<Status, AllocError>
    requires few { length solvers.old.items < 2 ^ 32 }
    requires fresh { IsFresh run.old }
    ensures ran { RunsRequest result (asked_by request.entry)
        (moment name rule paths (H.meaning host.old) solvers.old.items run.old)
        (moment name rule paths (H.meaning host.new) solvers.new.items run.new) }
    ensures counts { CountsRun result (((H.meaning host.old).counts.reliable ≡ true) ×
        HasOrigin (H.meaning host.old).outside (asked_by request.entry).source) (H.meaning host.old).counts
        (H.meaning host.new).counts }
{
    match request.source {
        Source::File(file) => run_file(alloc, host, request, file, solvers, run),
        Source::Restart { saved, file } => {
            run_restart(alloc, host, request, saved, file, solvers, run)
        }
        Source::Generate(size) => run_generated(alloc, host, request, size, solvers, run),
    }
}

/// Runs what the arguments request, and ends with its status.
fn run_words<H: Host>(
    alloc: Global,
    words: &[String],
    host: &mut H,
    solvers: &mut Vec<Box<dyn LpSolver>>,
    run: &mut Run,
) -> Result<Status, AllocError>
    requires few { length solvers.old.items < 2 ^ 32 }
    requires fresh { IsFresh run.old }
    ensures ran { RunsWords result (texts words.now)
        (moment name rule paths (H.meaning host.old) solvers.old.items run.old)
        (moment name rule paths (H.meaning host.new) solvers.new.items run.new) }
    ensures counts { CountsRun result (IsReadyFor (H.meaning host.old) (texts words.now)) (H.meaning host.old).counts (H.meaning host.new).counts }
{
    match request_of(alloc, words)? {
        Some(request) => run_request(alloc, host, request, solvers, run),
        None => {
            mention(host, usage_line())?;
            Ok(Status::Usage)
        }
    }
}

/// Runs `gams25` on the arguments of its command line, without the program's name, over a host.
///
/// The arguments are those of a `clap` command: an optional FILE; `--out` with the name of the
/// output, the listing's file (`output_of` has the default); `--generate` with a number from 1 to
/// 30; `--save` and `--restart` with the name of a file each; the flag `--ranges`. Exactly one of
/// FILE and `--generate` is required, and `--restart` requires FILE. The source is read or
/// generated before the output is opened. The listing is written statement by statement. After the
/// output is closed, the closing lines are printed (docs/LISTING.md). With `--ranges` they begin
/// with how far each right side and each cost of each optimum may move by itself while the
/// optimum's basis remains optimal.
///
/// With `--restart`, the file of this option, a save, is read before FILE, and FILE resumes from
/// the saved state: the source is the saved source followed by FILE, but only the lines of FILE are
/// echoed, and only its statements executed. With `--save`, if every statement was executed, the
/// last state is written to the file of this option, after the output is closed and before the
/// closing lines (docs/SAVES.md; GAMS User's Guide, "Save and Restart").
///
/// The clause `headline` is the promise for a FILE alone, if the status is Done, Execution or
/// Compile: the output has the listing of its source, what each answer says of plans is true, the
/// closing line is printed, and nothing else changes outside. The clause `answers` states the truth
/// of answers for every run. A plan gives each element of a variable a number. Listed elements are
/// those that occur in a row, and the objective. A plan is feasible if it satisfies the equations
/// of the model and the bounds of listed elements, with the data at the solve. Optimal: the listed
/// levels are feasible, and no feasible plan is better. Infeasible: no plan is feasible. Unbounded:
/// the levels are feasible, and for each number some feasible plan has a better objective.
/// Interrupted in phase 2: the levels are feasible. Other answers say nothing.
///
/// The clause `run` states by the status what a run did. Done and Execution: the source is
/// accepted; the solves of its run take all answers that the solvers gave, each an answer to the
/// linear program of its solve; and the listing is the text of that run. Compile: the source is
/// refused, or the save cannot be restored, and the listing says why. Usage: the arguments request
/// no source. ReadFault: a file was not read. WriteFault: a listing that was written whole is as
/// with Done, Execution or Compile; if it was cut off after something was solved, then for some n
/// the first n + 1 statements take all answers, and of the text of the first n statements the
/// listing lacks at most the last 4,096 bytes. The solvers keep their names and rules, and the
/// pivots of each answer are appended to the list of pivots of the solver that gave it; with Usage,
/// Compile and ReadFault nothing is solved. There must be fewer than 2^32 solvers.
///
/// The clauses `usage`, `compile` and `execution` state exactly when a run ends with their status;
/// `compile` and `execution` do so only if no fault of the host is met, and for a FILE only over a
/// host that exposes its files. A run ends with Execution exactly if the run that the source means
/// is stopped by an execution error, with the answers that the solvers give in this run. These
/// answers may decide whether an error occurs, since later statements read them.
///
/// The host counts its failed reads and failed writes. A run that ends with ReadFault or WriteFault
/// has such a fault counted (`counts`). A host is ready if only calls that open an input file which
/// does not exist have a fault, and it has the files that the arguments request, or hides its
/// files. A ready host counts no fault (`steady`), and no run over it ends with ReadFault or
/// WriteFault (`no_fault`). If the arguments request a program without errors or a generated model,
/// and no fault is met, the run ends with Done or Execution (`complete`).
///
/// What the clauses leave open: the error `AllocError` means out of memory, here or in the host.
/// Then only `steady` holds, and the output may have a prefix of a listing. If the host hides its
/// files, a FILE has some content, and `compile`, `execution` and `complete` say nothing of a run
/// of FILE. `RealHost`, the host over real files, hides them: that it reads and writes the files
/// that the arguments name is trusted. For a solver whose rule is Legal the clauses promise legal
/// pivots, and not which legal pivots.
pub fn run<H: Host>(
    alloc: Global,
    words: &[String],
    host: &mut H,
    solvers: &mut Vec<Box<dyn LpSolver>>,
) -> Result<Ended, AllocError>
    requires { length solvers.old.items < 2 ^ 32 }
    // If the arguments request a FILE alone: its source, the listing of that source by the status,
    // and nothing else outside.
    ensures headline { IfOk result (λ ended. (file output : List ℕ) → request_of (texts words.now) ≡ Some (file_alone file output) → HasListing ended.status →
        WritesListing ended.status (solving name rule paths solvers.old.items solvers.new.items ended.answers.items) (H.meaning host.old).outside (H.meaning host.new).outside file output) }

    // What a run of any arguments did, with saves and restarts, by its status.
    ensures run { IfOk result (λ ended. IsRun ended.status
        (solving name rule paths solvers.old.items solvers.new.items ended.answers.items) (texts words.now) (H.meaning host.old)
        (H.meaning host.new)) }

    // What each answer says of plans is true, in each run that executed its input, from its start
    // or from a save.
    ensures answers { IfOk result (λ ended. RunIsAnsweredRightly (solving name rule paths solvers.old.items solvers.new.items ended.answers.items)) }

    // A run ends with a fault of the host only if one of its kind was counted. A ready host counts
    // none, and no run over it ends with one.
    ensures counts { IfOk result (λ ended. CountsSo ended.status (H.meaning host.old).counts (H.meaning host.new).counts) }
    ensures steady { IsReadyFor (H.meaning host.old) (texts words.now) → (H.meaning host.new).counts ≡ (H.meaning host.old).counts }
    ensures no_fault { IsReadyFor (H.meaning host.old) (texts words.now) → IfOk result (λ ended. EndsByNoFault ended.status) }

    // The arguments are refused exactly if they request no source. If no fault is met, and the host
    // exposes its files, then a source is refused exactly if it cannot be run, its run ends with an
    // execution error exactly if the run with these answers is stopped by one, and a program is
    // run, as a generated model always is.
    ensures usage { IfOk result (λ ended. (ended.status ≡ Status.Usage) ↔ (request_of (texts words.now) ≡ None)) }
    ensures compile { (source : NamesSource (H.meaning host.old).outside (texts words.now)) →
        MeetsNoFault (H.meaning host.old).counts (H.meaning host.new).counts →
        IfOk result (λ ended. (ended.status ≡ Status.Compile) ↔ ¬ (CanRun (map name solvers.old.items) source.taken)) }
    ensures execution { (source : NamesSource (H.meaning host.old).outside (texts words.now)) →
        MeetsNoFault (H.meaning host.old).counts (H.meaning host.new).counts →
        IfOk result (λ ended. (ended.status ≡ Status.Execution) ↔
        IsStopped (solving name rule paths solvers.old.items solvers.new.items ended.answers.items) source.taken) }
    ensures complete { NamesProgram (map name solvers.old.items) (H.meaning host.old).outside (texts words.now) →
        MeetsNoFault (H.meaning host.old).counts (H.meaning host.new).counts →
        IfOk result (λ ended. (ended.status ≡ Status.Done) ⊎ (ended.status ≡ Status.Execution)) }
{
    let mut run = Run::new(alloc)?;
    let status = run_words(alloc, words, host, solvers, &mut run)?;
    let answers = replace(&mut run.progress.answers, Vec::new(alloc));
    Ok(Ended { status, answers })
}
