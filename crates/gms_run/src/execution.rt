//! The execution of a program, whose listing is written statement by statement.
ghost use Rattle.std.specs.Prelude.{◌≡◌, ◌<◌, ◌≤◌, ◌^◌, ◌∷◌, ◌++◌, [], true, length, map, option_to_list, IfOk, OnOk};
ghost use Rattle.std.specs.List.{All};
ghost use Rattle.gq_frac.specs.Frac.{frac_value, frac_limit};
ghost use Rattle.gms_eval.specs.Gives.{fault_of};
ghost use Rattle.gms_event.specs.EventView.{events_in};
ghost use Rattle.gms_event.specs.Events.{stops};
ghost use Rattle.gms_store.specs.State.{State};
ghost use Rattle.gms_exec.specs.Executing.{CanExecute, Leaves, run_view};
ghost use Rattle.gms_exec.specs.Run.{of_statement};
ghost use Rattle.gms_exec.specs.Stepping.{Runs, UnlessMemory};
ghost use Rattle.gms_list.specs.Conditions.{IsListable};
ghost use Rattle.gms_list.specs.ListingText.{echo_text, event_text, events_text};
ghost use Rattle.gms_host.specs.Rules.{CountsWriting};
ghost use Rattle.gms_host.specs.Spooling.{Passes, WritesPrefix};
ghost use Rattle.gms_command.specs.CommandLine.{asked_by};
ghost use Rattle.gms_run.specs.InnerReports.{Begins, HasRemarks, HasRest, HasSave, ListsBody, script_in};
ghost use Rattle.gms_run.specs.InnerRuns.{ExecutesProgram, IsFresh, IsUnsolved, ListsStatement, moment, pending};
ghost use Rattle.gms_run.specs.InnerSteps.{ResultsIn, kept_if, programs_in, work};
ghost use Rattle.gms_run.specs.Scripts.{scripted, statements_to_run};
ghost use Rattle.gms_run.specs.Solving.{numbers_of, solver_views};

use crate::outlet::Outlet;
use crate::restart::statements_of;
use crate::script::Script;
use crate::status::Status;
use gms_ast::{Program, Stmt};
use gms_command::Request;
use gms_eval::{Binding, ExecStop, ExecStopOrMemory};
use gms_event::Event;
use gms_exec::{Progress, step};
use gms_host::{Failed, Host};
use gms_list::Listing;
use gms_store::Store;
use gq_frac::Frac;
use lp_core::{Answer, Lp};
use lp_slot::LpSolver;
use std::alloc::{AllocError, Global};
use std::mem::replace;

/// A run in progress.
pub(crate) struct Run {
    /// Its progress: its state, and the answers of its solvers. Before its program begins, the
    /// state is the saved one, if it resumes from one.
    pub(crate) progress: Progress,
    /// The linear programs of its solves, in order; none, unless ranges are requested.
    pub(crate) solved: Vec<Lp<Frac>>,
    /// The part of its listing that is not written yet.
    pub(crate) outlet: Outlet,
    /// The remarks on it, which are printed after its listing.
    pub(crate) remarks: String,
    /// The save of its last state, if that is to be saved.
    pub(crate) save: Vec<u8>,
}

// Written out, so that it is proved once, and not wherever a run is dropped.
impl Drop for Run {
    fn drop(self) {
        let Self {
            progress: _,
            solved: _,
            outlet: _,
            remarks: _,
            save: _,
        } = self;
    }
}

/// Lists what a statement showed.
fn list_events(
    alloc: Global,
    program: &Program<Frac>,
    events: &[Event<Frac>],
    answers: &[Answer<Frac>],
    listing: &mut Listing,
) -> Result<(), AllocError>
    requires { All (IsListable frac_value answers.now) events.now }
    ensures { OnOk result (listing.new ≡ listing.old ++
        events_text program.now.names program.now.labels frac_limit (numbers_of answers.now) (events_in frac_value events.now)) }
{
    for event in events {
        listing.event(alloc, program, event, answers)?;
    }
    Ok(())
}

/// The linear program of an event that is a solve.
fn program_of(event: Event<Frac>) -> Option<Lp<Frac>>
    ensures { option_to_list result ≡ programs_in (event ∷ []) }
{
    match event {
        Event::Solve { lp, .. } => Some(lp),
        _ => None,
    }
}

/// Keeps the linear programs of the solves that a statement showed.
fn keep_programs(events: Vec<Event<Frac>>, solved: &mut Vec<Lp<Frac>>) -> Result<(), AllocError>
    ensures { OnOk result (solved.new.items ≡ solved.old.items ++ programs_in events.items) }
{
    for event in events {
        if let Some(lp) = program_of(event) {
            solved.push(lp)?;
        }
    }
    Ok(())
}

/// Lists what a statement showed, and keeps the linear programs of its solves if requested.
fn show(
    alloc: Global,
    program: &Program<Frac>,
    events: Vec<Event<Frac>>,
    answers: &[Answer<Frac>],
    keep: bool,
    solved: &mut Vec<Lp<Frac>>,
    listing: &mut Listing,
) -> Result<(), AllocError>
    requires { All (IsListable frac_value answers.now) events.items }
    ensures listed { OnOk result (listing.new ≡ listing.old ++
        events_text program.now.names program.now.labels frac_limit (numbers_of answers.now)
        (events_in frac_value events.items)) }
    ensures kept { OnOk result (solved.new.items ≡ solved.old.items ++ kept_if keep (programs_in events.items)) }
{
    list_events(alloc, program, &events, answers, listing)?;
    if !keep {
        return Ok(());
    }
    keep_programs(events, solved)?;
    Ok(())
}

/// Executes a statement that no loop contains.
fn step_alone(
    alloc: Global,
    run: &mut Progress,
    program: &Program<Frac>,
    s: &Stmt<Frac>,
    solvers: &mut Vec<Box<dyn LpSolver>>,
) -> Result<(), ExecStopOrMemory<Frac>>
    requires few { length solvers.old.items < 2 ^ 32 }
    requires can_execute { CanExecute (length solvers.old.items) program.now.statements.items run.old.store }
    ensures runs { Runs frac_value result
        (of_statement frac_value frac_limit (record { program = program.now; solvers = map name solvers.old.items }) s.now [])
        (run_view run.old) (run_view run.new) }
    ensures leaves { UnlessMemory result (Leaves frac_value frac_limit name rule paths program.now.statements.items solvers.old.items solvers.new.items (run_view run.old) (run_view run.new)) }
{
    let none = Binding::new(alloc);
    step(alloc, run, program, s, &none, solvers)
}

/// Lists the fault that stops a run.
fn list_fault(
    alloc: Global,
    program: &Program<Frac>,
    stop: Box<ExecStop<Frac>>,
    answers: &[Answer<Frac>],
    listing: &mut Listing,
) -> Result<(), AllocError>
    ensures { OnOk result (listing.new ≡ listing.old ++
        event_text program.now.names program.now.labels frac_limit (numbers_of answers.now) (stops (fault_of frac_value stop))) }
{
    listing.event(alloc, program, &Event::Fault(stop), answers)
}

/// Lists the echo of a script, and writes it.
fn pass_echo<H: Host>(
    alloc: Global,
    host: &mut H,
    script: Script,
    outlet: &mut Outlet,
) -> Result<(), Failed>
    requires open { (H.meaning host.old).outside.writing ≡ true }
    requires empty { outlet.old.spool ++ outlet.old.listing ≡ [] }
    ensures outside { ResultsIn result (λ _. Passes (H.meaning host.old).outside (H.meaning host.new).outside
        (echo_text script.entry.line script.entry.file.now) outlet.new.spool)
        (WritesPrefix (H.meaning host.old).outside (H.meaning host.new).outside
        (echo_text script.entry.line script.entry.file.now)) }
    ensures none { OnOk result (outlet.new.listing ≡ []) }
    ensures within_bound { OnOk result (length outlet.new.spool ≤ 4096) }
    ensures counts { CountsWriting result (H.meaning host.old).counts (H.meaning host.new).counts }
{
    outlet.listing.echo_from(alloc, script.file, script.line)?;
    outlet.pass(host)
}

impl Run {
    /// A run that has not begun, from no state.
    pub(crate) fn new(alloc: Global) -> Result<Run, AllocError>
        ensures { IfOk result IsFresh }
    {
        let outlet = Outlet::new(alloc)?;
        let store = Store::blank(alloc, 0)?;
        Ok(Run {
            progress: Progress {
                store,
                answers: Vec::new(alloc),
                events: Vec::new(alloc),
            },
            solved: Vec::new(alloc),
            outlet,
            remarks: String::new(alloc),
            save: Vec::new(alloc),
        })
    }

    /// Executes a statement that no loop contains, and lists what it shows and the fault that stops
    /// it. It keeps the linear programs of its solves if `keep`. Answers whether the run continues.
    fn statement(
        &mut self,
        alloc: Global,
        program: &Program<Frac>,
        s: &Stmt<Frac>,
        keep: bool,
        solvers: &mut Vec<Box<dyn LpSolver>>,
    ) -> Result<bool, AllocError>
        requires few { length solvers.old.items < 2 ^ 32 }
        requires can_execute { CanExecute (length solvers.old.items) program.now.statements.items self.old.progress.store }
        ensures listed { IfOk result (λ continues. ListsStatement keep continues program.now s.now
            (solver_views name rule paths solvers.old.items) self.old (solver_views name rule paths solvers.new.items) self.new) }
        ensures spool { OnOk result (self.new.outlet.spool ≡ self.old.outlet.spool) }
        ensures can_execute { OnOk result (CanExecute (length solvers.old.items) program.now.statements.items self.new.progress.store) }
    {
        self.progress.events.clear();
        let run = &mut self.progress;
        let stepped = step_alone(alloc, run, program, s, solvers);
        let events = replace(&mut self.progress.events, Vec::new(alloc));
        let answers = self.progress.answers.as_slice();
        let solved = &mut self.solved;
        let listing = &mut self.outlet.listing;
        match stepped {
            Ok(()) => {
                show(alloc, program, events, answers, keep, solved, listing)?;
                Ok(true)
            }
            Err(ExecStopOrMemory::Memory) => Err(AllocError),
            Err(ExecStopOrMemory::Fault(stop)) => {
                show(alloc, program, events, answers, keep, solved, listing)?;
                list_fault(alloc, program, stop, answers, listing)?;
                Ok(false)
            }
        }
    }

    /// Executes statements of a program. What a statement shows is written before the next one is
    /// executed; after a failed write none is.
    fn statements<H: Host>(
        &mut self,
        alloc: Global,
        host: &mut H,
        program: &Program<Frac>,
        list: &[Stmt<Frac>],
        keep: bool,
        solvers: &mut Vec<Box<dyn LpSolver>>,
    ) -> Result<Status, Failed>
        requires open { (H.meaning host.old).outside.writing ≡ true }
        requires few { length solvers.old.items < 2 ^ 32 }
        requires can_execute { CanExecute (length solvers.old.items) program.now.statements.items self.old.progress.store }
        requires unsolved { IsUnsolved self.old }
        requires within_bound { length (pending self.old) ≤ 4096 }
        ensures outside { ExecutesProgram keep result (work program.now self.old.progress.store list.now)
            (moment name rule paths (H.meaning host.old) solvers.old.items self.old)
            (moment name rule paths (H.meaning host.new) solvers.new.items self.new) }
        ensures counts { CountsWriting result (H.meaning host.old).counts (H.meaning host.new).counts }
    {
        for s in list {
            let continues = self.statement(alloc, program, s, keep, solvers)?;
            self.outlet.pass(host)?;
            if !continues {
                return Ok(Status::Execution);
            }
        }
        Ok(Status::Done)
    }

    /// Executes the statements of a script's program, and prepares what follows its listing.
    fn to_end<H: Host>(
        &mut self,
        alloc: Global,
        host: &mut H,
        request: Request,
        script: Script,
        program: &Program<Frac>,
        solvers: &mut Vec<Box<dyn LpSolver>>,
    ) -> Result<Status, Failed>
        requires open { (H.meaning host.old).outside.writing ≡ true }
        requires few { length solvers.old.items < 2 ^ 32 }
        requires can_execute { CanExecute (length solvers.old.items) program.now.statements.items self.old.progress.store }
        requires unsolved { IsUnsolved self.old }
        requires within_bound { length (pending self.old) ≤ 4096 }
        ensures outside { (state : State) → ExecutesProgram request.entry.ranges result
            (work program.now self.old.progress.store
            (statements_to_run (script_in script.entry state).saved script.entry.line program.now))
            (moment name rule paths (H.meaning host.old) solvers.old.items self.old)
            (moment name rule paths (H.meaning host.new) solvers.new.items self.new) }
        ensures remarks { IfOk result (λ status. HasRemarks (asked_by request.entry) program.now self.new) }
        ensures saved { IfOk result (λ status. HasSave status (asked_by request.entry)
            (map name solvers.new.items) script.entry.source.now program.now self.new) }
        ensures counts { CountsWriting result (H.meaning host.old).counts (H.meaning host.new).counts }
    {
        let list = statements_of(script, program);
        let status = self.statements(alloc, host, program, list, request.ranges, solvers)?;
        let given = self.progress.answers.as_slice();
        let text = self.remark(alloc, request, program, given)?;
        self.remarks = text;
        let source = script.source;
        let save = self.saved(alloc, status, request, source, program, solvers.as_slice())?;
        self.save = save;
        Ok(status)
    }

    /// Executes an accepted script from its first state on, after its echo, and prepares what
    /// follows its listing.
    pub(crate) fn execute<H: Host>(
        &mut self,
        alloc: Global,
        host: &mut H,
        request: Request,
        script: Script,
        program: &Program<Frac>,
        solvers: &mut Vec<Box<dyn LpSolver>>,
    ) -> Result<Status, Failed>
        requires open { (H.meaning host.old).outside.writing ≡ true }
        requires few { length solvers.old.items < 2 ^ 32 }
        requires can_execute { CanExecute (length solvers.old.items) program.now.statements.items self.old.progress.store }
        requires fresh { IsFresh self.old }
        ensures outside { (state : State) → Begins (map name solvers.old.items)
            (script_in script.entry state) program.now self.old.progress.store →
            ListsBody result (scripted (script_in script.entry state))
            (moment name rule paths (H.meaning host.old) solvers.old.items self.old)
            (moment name rule paths (H.meaning host.new) solvers.new.items self.new) }
        ensures follows { (state : State) → Begins (map name solvers.old.items)
            (script_in script.entry state) program.now self.old.progress.store →
            HasRest result (asked_by request.entry) (scripted (script_in script.entry state))
            (moment name rule paths (H.meaning host.old) solvers.old.items self.old)
            (moment name rule paths (H.meaning host.new) solvers.new.items self.new) }
        ensures counts { CountsWriting result (H.meaning host.old).counts (H.meaning host.new).counts }
    {
        pass_echo(alloc, host, script, &mut self.outlet)?;
        self.to_end(alloc, host, request, script, program, solvers)
    }
}
