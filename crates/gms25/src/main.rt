//! Layer 7, outside. The program `gams25`: its arguments, the real files and standard output, and
//! the exit status.
#![tactic(auto)]

ghost use Rattle.std.specs.Prelude.{◌≡◌, ◌↔◌, ◌⊎◌, IfOk};
ghost use Rattle.std.specs.Process.{exit_status};
ghost use Rattle.gms_command.specs.CommandLine.{texts, request_of};
ghost use Rattle.gms_run.specs.Statuses.{CountsSo, EndsByNoFault, IsReadyFor, MeetsNoFault, NamesProgram};
ghost use Rattle.gms25.specs.Program.{EndsGiven, ExitsSo, HasWords, RunsWith, lent, exit_of, given_words};

use gms_host::{Host, RealHost};
use gms_run::{Status, run};
use lp_any::{Any, Steepest};
use lp_bland::Bland;
use lp_dantzig::Dantzig;
use lp_slot::LpSolver;
use std::alloc::{AllocError, Global};
use std::env::{self, Args};
use std::io::{self, ErrorKind};
use std::process::ExitCode;

/// The exit status where memory ran out.
const OUT_OF_MEMORY: u8 = 6;

/// The arguments of a process: all after the program's name.
///
/// If one of them is not UTF-8 there are none, which a run refuses as it refuses that argument. Any
/// other error means that memory ran out.
fn words(alloc: Global, args: io::Result<Args>) -> Result<Vec<String>, AllocError>
    ensures { IfOk result (λ words. HasWords args words.items) }
{
    match args {
        Ok(args) => args.skip(1).collect(alloc),
        Err(error) if error.kind() == ErrorKind::InvalidData => Ok(Vec::new(alloc)),
        Err(_) => Err(AllocError),
    }
}

/// Runs the arguments over a host, and answers how the run ends. It lends four solvers: by Bland's
/// rule, by the largest coefficient, by steepest edge, and by several rules in turn. A source that
/// chooses none has the first.
fn run_with_solvers<H: Host>(
    alloc: Global,
    words: &[String],
    host: &mut H,
) -> Result<Status, AllocError>
    ensures run { IfOk result (λ status. RunsWith status (texts words.now) (H.meaning host.old) (H.meaning host.new)) }
    ensures counts { IfOk result (λ status. CountsSo status (H.meaning host.old).counts (H.meaning host.new).counts) }
    ensures steady { IsReadyFor (H.meaning host.old) (texts words.now) → (H.meaning host.new).counts ≡ (H.meaning host.old).counts }
    ensures no_fault { IsReadyFor (H.meaning host.old) (texts words.now) → IfOk result EndsByNoFault }
    ensures usage { IfOk result (λ status. (status ≡ Status.Usage) ↔ (request_of (texts words.now) ≡ None)) }
    ensures complete { NamesProgram lent.names (H.meaning host.old).outside (texts words.now) →
        MeetsNoFault (H.meaning host.old).counts (H.meaning host.new).counts →
        IfOk result (λ status. (status ≡ Status.Done) ⊎ (status ≡ Status.Execution)) }
{
    let mut solvers: Vec<Box<dyn LpSolver>> = Vec::new(alloc);
    solvers.push(Box::new(alloc, Bland::new(alloc))?)?;
    solvers.push(Box::new(alloc, Dantzig::new(alloc))?)?;
    solvers.push(Box::new(alloc, Steepest::new(alloc))?)?;
    solvers.push(Box::new(alloc, Any::new(alloc))?)?;
    let ended = run(alloc, words, host, &mut solvers)?;
    Ok(ended.status)
}

/// Runs the arguments that the process gives over a host, and answers how the run ends.
fn run_given<H: Host>(
    alloc: Global,
    args: io::Result<Args>,
    host: &mut H,
) -> Result<Status, AllocError>
    ensures ends { IfOk result (λ status. EndsGiven status args (H.meaning host.old) (H.meaning host.new)) }
    ensures steady { IsReadyFor (H.meaning host.old) (texts (given_words args)) → (H.meaning host.new).counts ≡ (H.meaning host.old).counts }
{
    let words = words(alloc, args)?;
    run_with_solvers(alloc, words.as_slice(), host)
}

/// The exit status of the process.
fn exit_code(ended: Result<Status, AllocError>) -> ExitCode
    ensures { exit_status result ≡ exit_of ended }
{
    match ended {
        Ok(status) => ExitCode::from(status.code()),
        Err(AllocError) => ExitCode::from(OUT_OF_MEMORY),
    }
}

/// Runs the arguments that the process gives over a host, and answers the exit status of the
/// process.
fn run_process<H: Host>(alloc: Global, args: io::Result<Args>, host: &mut H) -> ExitCode
    ensures exits { ExitsSo (exit_status result) args (H.meaning host.old) (H.meaning host.new) }
    ensures steady { IsReadyFor (H.meaning host.old) (texts (given_words args)) → (H.meaning host.new).counts ≡ (H.meaning host.old).counts }
{
    let ended = run_given(alloc, args, host);
    exit_code(ended)
}

fn main(rt: HostRuntime) -> ExitCode {
    let alloc = rt.alloc();
    let args = env::args(&rt);
    run_process(alloc, args, &mut RealHost::new(rt))
}
