//! What is done at the end of a run: the remarks are printed, the last state is saved, and the
//! closing line is printed.
ghost use Rattle.std.specs.Prelude.{◌≡◌, ◌<◌, ◌++◌, ℕ, List, true, codes, length, map, option_map, slice_get, unwrap_or, IfOk, OnOk, string_bytes};
ghost use Rattle.gq_frac.specs.Frac.{frac_value, frac_limit};
ghost use Rattle.gms_store.specs.State.{fits_at, symbol_of};
ghost use Rattle.gms_command.specs.Answered.{AreSomeAnswers};
ghost use Rattle.gms_command.specs.CommandLine.{asked_by, closing_line, origin};
ghost use Rattle.gms_host.specs.Rules.{CountsWriting};
ghost use Rattle.gms_run.specs.InnerReports.{IsRanged, IsRemarked, IsSave, IsTold, LosesSave, WritesSave};
ghost use Rattle.gms_run.specs.InnerSteps.{ResultsIn};
ghost use Rattle.gms_run.specs.ProgramsToRun.{solver_name, status_code};
ghost use Rattle.gms_run.specs.Listings.{IsModelLine, model_status, objective_level, pivots_of, save_file};

use crate::execution::Run;
use crate::status::Status;
use crate::transfer::write_file;
use gms_ast::Program;
use gms_command::{Request, Source, closing_line, generated_line, ranges_text};
use gms_host::{Failed, Host};
use gms_save::save;
use gms_store::Store;
use gms_tuple::Tuple;
use gq_field::ExactField;
use gq_frac::Frac;
use gq_text::{Digits, put_rounded};
use lp_core::Answer;
use lp_slot::LpSolver;
use std::alloc::{AllocError, Global};

/// With how many decimals the level of an objective is printed.
const DECIMALS: u8 = 3;

/// The name in a save of a run without solvers.
const NO_SOLVER: &str = "none";

/// The file for the last state of a run that ends so, if it is requested.
fn save_file<'a>(status: Status, request: Request<'a>) -> Option<&'a str>
    ensures { option_map (λ file. file.now) result ≡ save_file status (asked_by request.entry) }
{
    match status {
        Status::Done => request.save,
        _ => None,
    }
}

/// The name of a solver, as it gives it.
fn own_name(solver: &Box<dyn LpSolver>) -> &str
    ensures { result.now ≡ name solver.now }
{
    solver.name()
}

/// The name that a save has for the solver at a place.
fn solver_name(solvers: &[Box<dyn LpSolver>], place: u32) -> &str
    ensures { result.now ≡ unwrap_or (slice_get (map name solvers.now) place) (codes "none") }
{
    match solvers.get(place as usize) {
        Some(solver) => own_name(solver),
        None => NO_SOLVER,
    }
}

/// Looks at each of the first `names` names of a state: its numbers are within the limit, by the
/// invariant of the store.
fn look_at_numbers(store: &Store<Frac>, names: u32)
    ensures { (name : ℕ) → name < names → (t : List ℕ) → fits_at frac_limit (symbol_of store.now name).content t ≡ true }
{
    for name in 0..names {
        let _given = store.given(name);
    }
}

/// How many pivots the answers have in all.
fn pivots_of(answers: &[Answer<Frac>]) -> u128
    ensures { result ≡ pivots_of answers.now }
{
    let mut count: u128 = 0;
    for answer in answers {
        count += answer.pivots.len() as u128;
    }
    count
}

impl Run {
    /// The status of the model `t` in the state; 0 without such a name.
    fn model_status(&self, program: &Program<Frac>) -> u8
        ensures { result ≡ model_status program.now self.now.progress.store }
    {
        match program.names.find("t") {
            Some(model) => self.progress.store.status(model).0,
            None => 0,
        }
    }

    /// The level of the variable `z` in the state; 0 without such a name.
    fn objective_level(&self, alloc: Global, program: &Program<Frac>) -> Frac
        ensures { frac_value result ≡ objective_level program.now self.now.progress.store }
    {
        match program.names.find("z") {
            Some(variable) => self.progress.store.level(variable, &Tuple::new(alloc)),
            None => Frac::zero(),
        }
    }

    /// The line on the run of a generated model of a size.
    fn model_line(
        &self,
        alloc: Global,
        size: u32,
        program: &Program<Frac>,
        answers: &[Answer<Frac>],
    ) -> Result<String, AllocError>
        ensures { IfOk result (λ line. IsModelLine size program.now self.now.progress.store answers.now (string_bytes line)) }
    {
        let mut digits = Digits::new();
        put_rounded(self.objective_level(alloc, program), DECIMALS, &mut digits);
        generated_line(
            alloc,
            size,
            self.model_status(program),
            digits.as_str(),
            pivots_of(answers),
        )
    }

    /// What is printed of the run before the closing line: nothing, except for a generated model.
    fn told(
        &self,
        alloc: Global,
        source: Source,
        program: &Program<Frac>,
        answers: &[Answer<Frac>],
    ) -> Result<String, AllocError>
        ensures { IfOk result (λ line. IsTold (origin source.entry) program.now self.now.progress.store answers.now (string_bytes line)) }
    {
        match source {
            Source::Generate(size) => self.model_line(alloc, size, program, answers),
            Source::File(_) | Source::Restart { .. } => Ok(String::new(alloc)),
        }
    }

    /// What is printed of the ranges of the run, if they are requested.
    fn ranged(
        &self,
        alloc: Global,
        asked: bool,
        program: &Program<Frac>,
        answers: &[Answer<Frac>],
    ) -> Result<String, AllocError>
        requires { asked ≡ true → AreSomeAnswers frac_value frac_limit self.now.solved.items answers.now }
        ensures { IfOk result (λ text. IsRanged asked program.now self.now.solved.items answers.now (string_bytes text)) }
    {
        if !asked {
            return Ok(String::new(alloc));
        }
        let solved = self.solved.as_slice();
        ranges_text(alloc, &program.names, &program.labels, solved, answers)
    }

    /// The remarks on the run: what is printed before the closing line.
    pub(crate) fn remark(
        &self,
        alloc: Global,
        request: Request,
        program: &Program<Frac>,
        answers: &[Answer<Frac>],
    ) -> Result<String, AllocError>
        requires { request.ranges ≡ true → AreSomeAnswers frac_value frac_limit self.now.solved.items answers.now }
        ensures { IfOk result (λ text. IsRemarked
            (asked_by request.entry) program.now self.now.progress.store self.now.solved.items answers.now (string_bytes text)) }
    {
        let mut text = self.ranged(alloc, request.ranges, program, answers)?;
        let line = self.told(alloc, request.source, program, answers)?;
        text.push_str(line.as_str())?;
        Ok(text)
    }

    /// The save of the state with its source, if a run that ends so is to be saved; otherwise
    /// nothing.
    pub(crate) fn saved(
        &self,
        alloc: Global,
        status: Status,
        request: Request,
        source: &[u8],
        program: &Program<Frac>,
        solvers: &[Box<dyn LpSolver>],
    ) -> Result<Vec<u8>, AllocError>
        ensures { IfOk result (λ bytes. IsSave status (asked_by request.entry)
            (map name solvers.now) source.now program.now self.now.progress.store bytes.items) }
    {
        if save_file(status, request).is_none() {
            return Ok(Vec::new(alloc));
        }
        look_at_numbers(&self.progress.store, program.names.len());
        let solver = solver_name(solvers, self.progress.store.settings().solver);
        save(alloc, source, program, &self.progress.store, solver)
    }
}

/// Writes the save of a run that ends so to its file, if it has one.
pub(crate) fn write_save<H: Host>(
    host: &mut H,
    status: Status,
    request: Request,
    bytes: &[u8],
) -> Result<(), Failed>
    ensures outside { ResultsIn result (λ done. WritesSave status (asked_by request.entry) (H.meaning host.old).outside
        (H.meaning host.new).outside bytes.now)
        (LosesSave status (asked_by request.entry) (H.meaning host.old).outside (H.meaning host.new).outside bytes.now) }
    ensures counts { CountsWriting result (H.meaning host.old).counts (H.meaning host.new).counts }
{
    match save_file(status, request) {
        Some(file) => write_file(host, file, bytes),
        None => Ok(()),
    }
}

/// Adds the closing line of a report to the remarks on the run.
pub(crate) fn push_closing(
    alloc: Global,
    status: Status,
    solves: usize,
    output: &str,
    remarks: &mut String,
) -> Result<(), AllocError>
    ensures { OnOk result (string_bytes remarks.new ≡ string_bytes remarks.old ++ closing_line (status_code status) solves output.now) }
{
    let line = closing_line(alloc, status.code(), solves, output)?;
    remarks.push_str(line.as_str())
}
