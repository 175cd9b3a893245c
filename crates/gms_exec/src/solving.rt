//! Solves: the linear program is passed to the chosen solver, and its answer is written into the
//! state.
ghost use Rattle.std.specs.Prelude.{◌≡◌, ◌<◌, ◌^◌, ◌-◌, ◌∷◌, ◌++◌, ℕ, [], pos, length, map, slice_get, slice_index_or, option_map, IfOk, OnOk};
ghost use Rattle.std.specs.List.{fold};
ghost use Rattle.gq_number.specs.Number.{whole};
ghost use Rattle.gq_frac.specs.Frac.{frac_value};
ghost use Rattle.lp_slot.specs.Under.{IsAnswerUnder};
ghost use Rattle.lp_core.specs.WellFormed.{IsWellFormed};
ghost use Rattle.lp_core.specs.Numbers.{lp_numbers, end_numbers};
ghost use Rattle.gms_rows.specs.Plain.{HasPlainDefinitions};
ghost use Rattle.gms_rows.specs.Rows.{equations_of};
ghost use Rattle.gms_exec.specs.Executing.{run_view};
ghost use Rattle.gms_exec.specs.Run.{solve};
ghost use Rattle.gms_exec.specs.Solved.{statuses_of, with_point, points, keys_of_columns, row_keys, after_end};
ghost use Rattle.gms_exec.specs.InnerSolving.{IsExtended, ShowsSolve, Solves, AnswersAt, path_at};
ghost use Rattle.gms_exec.specs.ValidEvents.{ShowsValidEvents};
ghost use Rattle.gms_exec.specs.Stepping.{Runs, Answered, UnlessMemory};

use crate::progress::Progress;
use crate::statement::stopped;
use gms_ast::{Program, Sequence};
use gms_eval::{Binding, ExecStopOrMemory, StopKind};
use gms_event::{Event, solve_status};
use gms_labels::Place;
use gms_rows::{equations_of, generate};
use gms_store::{Settings, Store};
use gms_tuple::Tuple;
use gq_field::ExactField;
use gq_frac::Frac;
use lp_core::{Answer, End, Lp};
use lp_form::Key;
use lp_slot::LpSolver;
use std::alloc::{AllocError, Global};

/// A solve statement.
#[derive(Clone, Copy)]
pub(crate) struct Solve {
    /// The number of the model's name.
    pub(crate) model: u32,
    /// The number of the objective variable's name.
    pub(crate) objective: u32,
    /// Whether the objective is maximized.
    pub(crate) maximize: bool,
    /// The place of the statement.
    pub(crate) at: Place,
}

/// The status of a model and that of its solver after an end.
fn statuses<F>(end: &End<F>) -> (u8, u8)
    ensures { result ≡ statuses_of end.now }
{
    let status = solve_status(end);
    (status.model_number(), status.solver_number())
}

/// Writes the level and the marginal of an element.
fn put_point<F: ExactField>(
    alloc: Global,
    store: &mut Store<F>,
    key: &Key,
    level: F,
    marginal: F,
) -> Result<(), AllocError>
    ensures { OnOk result (store.new ≡ with_point store.old (record { key = key.now; level = F.value level; marginal = F.value marginal })) }
{
    store.put_level(alloc, key.symbol, &key.tuple, level)?;
    store.put_marginal(alloc, key.symbol, &key.tuple, marginal)
}

/// The number at the index `place` of the list; 0 past its end.
fn number_at<F: ExactField>(numbers: &[F], place: usize) -> F
    ensures { F.value result ≡ slice_index_or (map F.value numbers.now) place (whole (pos 0)) }
{
    match numbers.get(place) {
        Some(x) => *x,
        None => F::zero(),
    }
}

/// Writes the levels and marginals of columns. Missing marginals are 0.
fn put_columns<F: ExactField>(
    alloc: Global,
    store: &mut Store<F>,
    lp: &Lp<F>,
    levels: &[F],
    marginals: &[F],
) -> Result<(), AllocError>
    ensures { OnOk result (store.new ≡
        fold with_point store.old
        (points (keys_of_columns (lp_numbers F.value lp.now)) (map F.value levels.now) (map F.value marginals.now))) }
{
    for (place, column) in lp.columns.as_slice().iter().enumerate() {
        let level = number_at(levels, place);
        let marginal = number_at(marginals, place);
        put_point(alloc, store, &column.key, level, marginal)?;
    }
    Ok(())
}

/// Writes the levels and marginals of rows. Missing marginals are 0.
fn put_rows<F: ExactField>(
    alloc: Global,
    store: &mut Store<F>,
    lp: &Lp<F>,
    levels: &[F],
    marginals: &[F],
) -> Result<(), AllocError>
    ensures { OnOk result (store.new ≡
        fold with_point store.old
        (points (row_keys (lp_numbers F.value lp.now)) (map F.value levels.now) (map F.value marginals.now))) }
{
    for (place, row) in lp.rows.as_slice().iter().enumerate() {
        let level = number_at(levels, place);
        let marginal = number_at(marginals, place);
        put_point(alloc, store, &row.key, level, marginal)?;
    }
    Ok(())
}

/// Writes what an answer says into the state: the statuses of the model, and, if there is a
/// feasible point, levels and marginals of all columns and rows. Other elements keep their values.
fn put_answer<F: ExactField>(
    alloc: Global,
    store: &mut Store<F>,
    model: u32,
    lp: &Lp<F>,
    end: &End<F>,
) -> Result<(), AllocError>
    ensures { OnOk result (store.new ≡ after_end store.old model (lp_numbers F.value lp.now) (end_numbers F.value end.now)) }
{
    let (model_status, solver_status) = statuses(end);
    store.put_status(model, model_status, solver_status);
    match end {
        End::Optimal {
            levels,
            row_levels,
            duals,
            reduced,
        } => {
            put_columns(alloc, store, lp, levels.as_slice(), reduced.as_slice())?;
            put_rows(alloc, store, lp, row_levels.as_slice(), duals.as_slice())
        }
        End::Unbounded {
            levels,
            row_levels,
            ..
        } => {
            put_columns(alloc, store, lp, levels.as_slice(), &[])?;
            put_rows(alloc, store, lp, row_levels.as_slice(), &[])
        }
        End::Interrupted {
            phase: 2,
            levels,
            row_levels,
        } => {
            put_columns(alloc, store, lp, levels.as_slice(), &[])?;
            put_rows(alloc, store, lp, row_levels.as_slice(), &[])
        }
        End::Interrupted { .. } | End::Infeasible { .. } | End::Refused { .. } => Ok(()),
    }
}

/// The answer of a solver, and its name.
fn solve_one(
    alloc: Global,
    solver: &mut Box<dyn LpSolver>,
    lp: &Lp<Frac>,
    iterlim: u64,
) -> Result<(Answer<Frac>, Vec<u8>), AllocError>
    requires { IsWellFormed frac_value lp.now }
    ensures answer { IfOk result (λ r. IsAnswerUnder frac_value (2 ^ 127 - 1) lp.now iterlim (rule solver.old) r.0) }
    ensures paths { IfOk result (λ r. paths solver.new ≡ paths solver.old ++ r.0.pivots ∷ []) }
    ensures named { IfOk result (λ r. r.1.items ≡ name solver.old) }
    ensures name { name solver.new ≡ name solver.old }
    ensures rule { rule solver.new ≡ rule solver.old }
{
    let name = Vec::from_slice(alloc, solver.name().as_bytes())?;
    let answer = solver.solve(alloc, lp, iterlim)?;
    Ok((answer, name))
}

/// The answer of the solver at an index of the list, and its name.
fn solve_at(
    alloc: Global,
    solvers: &mut Vec<Box<dyn LpSolver>>,
    place: usize,
    lp: &Lp<Frac>,
    iterlim: u64,
) -> Result<(Answer<Frac>, Vec<u8>), AllocError>
    requires formed { IsWellFormed frac_value lp.now }
    requires there { place < length solvers.old.items }
    ensures answer { IfOk result (λ r. AnswersAt frac_value (2 ^ 127 - 1) (map rule solvers.old.items) place lp.now iterlim r.0) }
    ensures named { IfOk result (λ r. r.1.items ≡ slice_index_or (map name solvers.old.items) place []) }
    ensures names { map name solvers.new.items ≡ map name solvers.old.items }
    ensures rules { map rule solvers.new.items ≡ map rule solvers.old.items }
    ensures paths { IfOk result (λ r. (k : ℕ) → slice_get (map paths solvers.new.items) k ≡
        option_map (λ before. before ++ path_at place r.0.pivots k) (slice_get (map paths solvers.old.items) k)) }
{
    solve_one(alloc, &mut solvers[place], lp, iterlim)
}

/// Shows a solve, and appends its answer to the answers. `settings` are those at the solve, and the
/// state is the one after it.
fn show_solve<F: ExactField>(
    alloc: Global,
    store: &Store<F>,
    program: &Program<F>,
    s: Solve,
    lp: Lp<F>,
    answer: Answer<F>,
    name: Vec<u8>,
    settings: Settings,
    answers: &mut Vec<Answer<F>>,
    events: &mut Vec<Event<F>>,
) -> Result<(), AllocError>
    ensures shows { OnOk result (ShowsSolve F.value (record {
      line = s.at.line;
      model = s.model;
      equations = equations_of program.now.statements.items s.model;
      objective = s.objective;
      lp = lp;
      answer = answer;
      solver = name.items;
      settings = settings;
    }) store.now answers.old.items answers.new.items events.old.items events.new.items) }
    ensures answers { IsExtended answers.old.items answers.new.items }
    ensures events { IsExtended events.old.items events.new.items }
{
    let objective_level = store.level(s.objective, &Tuple::new(alloc));
    let equations = equations_of(alloc, program, s.model)?;
    let event = Event::Solve {
        line: s.at.line,
        model: s.model,
        equations: Sequence::new(equations),
        lp,
        answer: answers.len(),
        solver: Sequence::new(name),
        settings,
        objective_level,
    };
    answers.push(answer)?;
    events.push(event)?;
    Ok(())
}

/// Solves a linear program: the solver that the settings choose answers it, the answer is written
/// into the state, and the solve is shown.
fn solve_program(
    alloc: Global,
    run: &mut Progress,
    program: &Program<Frac>,
    s: Solve,
    lp: Lp<Frac>,
    solvers: &mut Vec<Box<dyn LpSolver>>,
) -> Result<(), AllocError>
    requires formed { IsWellFormed frac_value lp }
    requires there { run.old.store.settings.solver < length solvers.old.items }
    ensures solves { OnOk result (Solves frac_value (2 ^ 127 - 1) (map name solvers.old.items) (map rule solvers.old.items)
        (map paths solvers.old.items) (map paths solvers.new.items)
        s.at.line s.model (equations_of program.now.statements.items s.model) s.objective lp (run_view run.old) (run_view run.new)) }
    ensures names { map name solvers.new.items ≡ map name solvers.old.items }
    ensures rules { map rule solvers.new.items ≡ map rule solvers.old.items }
    ensures answers { IsExtended run.old.answers.items run.new.answers.items }
    ensures events { IsExtended run.old.events.items run.new.events.items }
{
    let settings = run.store.settings();
    let place = settings.solver as usize;
    let (answer, name) = solve_at(alloc, solvers, place, &lp, settings.iterlim as u64)?;
    put_answer(alloc, &mut run.store, s.model, &lp, &answer.end)?;
    let store = &run.store;
    let answers = &mut run.answers;
    let events = &mut run.events;
    show_solve(
        alloc, store, program, s, lp, answer, name, settings, answers, events,
    )
}

/// Solves a model: the chosen solver answers the linear program that the model means in the present
/// state, and the answer is written into the state.
///
/// A stop is `NoSolver` if and only if there is no solver, and otherwise the fault of the linear
/// program. GAMS User's Guide, "Model and Solve Statements".
pub(crate) fn solve_model(
    alloc: Global,
    run: &mut Progress,
    program: &Program<Frac>,
    s: Solve,
    b: &Binding,
    solvers: &mut Vec<Box<dyn LpSolver>>,
) -> Result<(), ExecStopOrMemory<Frac>>
    requires chosen { 0 < length solvers.old.items → run.old.store.settings.solver < length solvers.old.items }
    requires plain { HasPlainDefinitions run.old.store program.now.statements.items }
    ensures runs { Runs frac_value result
        (solve frac_value (2 ^ 127 - 1)
        (map name solvers.old.items) program.now.statements.items s.model s.objective s.maximize s.at b.now) (run_view run.old)
        (run_view run.new) }
    ensures solvers { UnlessMemory result (Answered frac_value (2 ^ 127 - 1) name rule paths solvers.old.items solvers.new.items
        (run_view run.old) (run_view run.new)) }
    ensures valid { UnlessMemory result (ShowsValidEvents frac_value (2 ^ 127 - 1)
        (map rule solvers.old.items) run.new.answers.items run.old.events.items run.new.events.items) }
{
    if solvers.is_empty() {
        return Err(stopped(alloc, StopKind::NoSolver, s.at, b));
    }
    let lp = generate(
        alloc,
        &run.store,
        program,
        s.model,
        s.objective,
        s.maximize,
        s.at,
    )?;
    solve_program(alloc, run, program, s, lp, solvers)?;
    Ok(())
}
