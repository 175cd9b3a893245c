//! One statement of a run.
ghost use Rattle.std.specs.Prelude.{◌≡◌, ◌<◌, ◌≤◌, ◌^◌, ◌-◌, List, length, map, option_map, option_copied};
ghost use Rattle.gq_frac.specs.Frac.{frac_value};
ghost use Rattle.gms_ast.specs.TreeView.{tree_of};
ghost use Rattle.gms_ast.specs.declared.expression.Expr.{Expr};
ghost use Rattle.gms_ast.specs.declared.program.Right.TheVariants.{Value};
ghost use Rattle.gms_store.specs.State.{with_settings};
ghost use Rattle.gms_eval.specs.Faults.{faulted, nothing};
ghost use Rattle.gms_eval.specs.Gives.{Shows};
ghost use Rattle.gms_exec.specs.Assignment.{target_of, after_assignment};
ghost use Rattle.gms_exec.specs.Executing.{CanExecute, Leaves, run_view};
ghost use Rattle.gms_exec.specs.Options.{after_options};
ghost use Rattle.lp_core.specs.declared.answer.Answer.{Answer};
ghost use Rattle.gms_exec.specs.Run.{of_statement, display, abort, abort_where};
ghost use Rattle.lp_slot.specs.declared.solver.SolverRule.{SolverRule};
ghost use Rattle.gms_exec.specs.ValidEvents.{ShowsValidEvents};
ghost use Rattle.gms_exec.specs.InnerContracts.{Assigns, IsOnce, AsksNoSolver, ShowsNoSolve};
ghost use Rattle.gms_exec.specs.Stepping.{Runs, UnlessMemory};

use crate::assignment::Assignment;
use crate::options::after_options;
use crate::progress::Progress;
use crate::showing::all_shown;
use crate::solving::{Solve, solve_model};
use gms_ast::{Act, Expr, Program, Right, Setting, Show, Stmt, Target, Word};
use gms_eval::{Binding, ExecStopOrMemory, StopKind, domain, holds};
use gms_event::Event;
use gms_labels::Place;
use gms_store::Store;
use gq_extended::Ext;
use gq_field::ExactField;
use gq_frac::Frac;
use lp_core::Answer;
use lp_slot::LpSolver;
use std::alloc::Global;

/// Executes the statement `s` of a checked program in a run. The binding `b` has the labels of the
/// sets that the loops around `s` control. The events of the statement and the answers of its
/// solves are appended to those of the run, and the state becomes that after the statement. A loop
/// goes over the elements that its control has when the loop begins.
///
/// There must be fewer than 2^32 solvers. The statements of the program must be executable in the
/// state: its settings have at most 8 decimals and choose one of the solvers, if there are any, and
/// the indices of each equation's definition are labels and sets of one dimension, without lags.
/// Unless memory runs out, they are executable afterwards too, and each appended solve has an
/// answer by its solver's rule.
///
/// A stop is the first fault of the statement. The events and answers before the fault are
/// appended, and the state is that at the fault. The kinds of stop are those of the statement's
/// expressions, domains and rows; `DomainSize` also if a bound over more than 16,777,216 elements
/// is shown; `NoSolver` at a solve without a solver; and `Aborted` at an `abort` whose condition,
/// if any, holds and whose items have no fault. After out of memory the store of the run must not
/// be used again. GAMS User's Guide, "GAMS Programs", "Programming Flow Control Features".
pub fn step(
    alloc: Global,
    run: &mut Progress,
    program: &Program<Frac>,
    s: &Stmt<Frac>,
    b: &Binding,
    solvers: &mut Vec<Box<dyn LpSolver>>,
) -> Result<(), ExecStopOrMemory<Frac>>
    requires few { length solvers.old.items < 2 ^ 32 }
    requires can_execute { CanExecute (length solvers.old.items) program.now.statements.items run.old.store }
    ensures runs { Runs frac_value result
        (of_statement frac_value (2 ^ 127 - 1)
        (record { program = program.now; solvers = map name solvers.old.items }) s.now b.now) (run_view run.old)
        (run_view run.new) }
    ensures leaves { UnlessMemory result (Leaves frac_value
        (2 ^ 127 - 1) name rule paths program.now.statements.items solvers.old.items solvers.new.items (run_view run.old)
        (run_view run.new)) }
{
    let Act::Loop { control, body } = &s.act else {
        return once(alloc, run, program, s, b, solvers);
    };
    let elements = domain(alloc, &run.store, control, s.at, b)?;
    let mut inner = b.copy(alloc)?;
    for element in &elements {
        inner.control(b.len(), control.sets.as_slice(), element.as_slice())?;
        for statement in body {
            step(alloc, run, program, statement, &inner, solvers)?;
        }
    }
    Ok(())
}

/// Executes a statement that is no loop.
fn once(
    alloc: Global,
    run: &mut Progress,
    program: &Program<Frac>,
    s: &Stmt<Frac>,
    b: &Binding,
    solvers: &mut Vec<Box<dyn LpSolver>>,
) -> Result<(), ExecStopOrMemory<Frac>>
    requires no_loop { IsOnce s.now.act }
    requires few { length solvers.old.items < 2 ^ 32 }
    requires can_execute { CanExecute (length solvers.old.items) program.now.statements.items run.old.store }
    ensures runs { Runs frac_value result
        (of_statement frac_value (2 ^ 127 - 1)
        (record { program = program.now; solvers = map name solvers.old.items }) s.now b.now) (run_view run.old)
        (run_view run.new) }
    ensures leaves { UnlessMemory result (Leaves frac_value
        (2 ^ 127 - 1) name rule paths program.now.statements.items solvers.old.items solvers.new.items (run_view run.old)
        (run_view run.new)) }
{
    let Act::Solve {
        model,
        objective,
        maximize,
        ..
    } = &s.act
    else {
        let store = &mut run.store;
        let events = &mut run.events;
        return without_solving(alloc, store, program, s, b, solvers.as_slice(), events);
    };
    let solve = Solve {
        model: model.name,
        objective: objective.name,
        maximize: *maximize,
        at: s.at,
    };
    solve_model(alloc, run, program, solve, b, solvers)
}

/// Executes a statement that is no loop and no solve.
fn without_solving<F: ExactField>(
    alloc: Global,
    store: &mut Store<F>,
    program: &Program<F>,
    s: &Stmt<F>,
    b: &Binding,
    solvers: &[Box<dyn LpSolver>],
    events: &mut Vec<Event<F>>,
) -> Result<(), ExecStopOrMemory<F>>
    requires no_loop { IsOnce s.now.act }
    requires no_solve { AsksNoSolver s.now.act }
    requires few { length solvers.now < 2 ^ 32 }
    requires decimals { store.old.settings.decimals ≤ 8 }
    ensures runs { (answers : List (Answer F)) →
        Runs F.value result (of_statement F.value F.limit
        (record { program = program.now; solvers = map name solvers.now }) s.now b.now)
        (record { state = store.old; events = events.old.items; answers = answers })
        (record { state = store.new; events = events.new.items; answers = answers }) }
    ensures quiet { ShowsNoSolve events.old.items events.new.items }
    ensures valid { (rules : List SolverRule) (answers : List (Answer F)) → ShowsValidEvents F.value F.limit rules answers events.old.items events.new.items }
{
    let labels = program.labels.len();
    match &s.act {
        Act::Assign {
            target,
            condition,
            right_at,
            right,
        } => {
            let condition = condition.as_ref();
            assign(alloc, store, target, condition, *right_at, right, s.at, b)
        }
        Act::Display { items } => show(alloc, store, labels, items.as_slice(), s.at, b, events),
        Act::Options { settings } => {
            set_options(store, settings.as_slice(), solvers);
            Ok(())
        }
        Act::Abort { condition, items } => {
            let condition = condition.as_ref();
            let items = items.as_slice();
            abort_where(alloc, store, labels, condition, items, s.at, b, events)
        }
        _ => Ok(()),
    }
}

/// Assigns the right side, in a statement at a place.
fn assign<F: ExactField>(
    alloc: Global,
    store: &mut Store<F>,
    target: &Target<F>,
    condition: Option<&Expr<F>>,
    right_at: Place,
    right: &Right<F>,
    at: Place,
    b: &Binding,
) -> Result<(), ExecStopOrMemory<F>>
    ensures { (e : Expr F) → right.now ≡ Value e → Assigns F.value result store.old store.new
        (after_assignment F.value F.limit store.old at b.now (target_of target.now) (option_map tree_of (option_copied condition.entry)) right_at (tree_of e)) }
{
    let Right::Value(right) = right;
    let assignment = Assignment {
        target,
        right_at,
        right,
    };
    assignment.run(alloc, store, condition, at, b)
}

/// Sets options.
fn set_options<F: ExactField>(
    store: &mut Store<F>,
    options: &[(Word, Setting<F>)],
    solvers: &[Box<dyn LpSolver>],
)
    requires { length solvers.now < 2 ^ 32 }
    ensures { store.new ≡ with_settings store.old (after_options F.value (map name solvers.now) store.old.settings options.now) }
{
    let settings = after_options(store.settings(), options, solvers);
    store.put_settings(settings);
}

/// Shows the items of a `display`.
fn show<F: ExactField>(
    alloc: Global,
    store: &Store<F>,
    labels: u32,
    items: &[Show],
    at: Place,
    b: &Binding,
    events: &mut Vec<Event<F>>,
) -> Result<(), ExecStopOrMemory<F>>
    requires decimals { store.now.settings.decimals ≤ 8 }
    ensures runs { (answers : List (Answer F)) → Runs F.value result (display F.value F.limit labels items.now at b.now)
        (record { state = store.now; events = events.old.items; answers = answers })
        (record { state = store.now; events = events.new.items; answers = answers }) }
    ensures quiet { ShowsNoSolve events.old.items events.new.items }
    ensures valid { (rules : List SolverRule) (answers : List (Answer F)) → ShowsValidEvents F.value F.limit rules answers events.old.items events.new.items }
{
    let items = all_shown(alloc, store, labels, items, b)?;
    events.push(Event::Display {
        line: at.line,
        items,
    })?;
    Ok(())
}

/// Shows the items of an `abort` and stops.
fn abort<F: ExactField>(
    alloc: Global,
    store: &Store<F>,
    labels: u32,
    items: &[Show],
    at: Place,
    b: &Binding,
    events: &mut Vec<Event<F>>,
) -> Result<(), ExecStopOrMemory<F>>
    requires decimals { store.now.settings.decimals ≤ 8 }
    ensures runs { (answers : List (Answer F)) → Runs F.value result (abort F.value F.limit labels items.now at b.now)
        (record { state = store.now; events = events.old.items; answers = answers })
        (record { state = store.now; events = events.new.items; answers = answers }) }
    ensures quiet { ShowsNoSolve events.old.items events.new.items }
    ensures valid { (rules : List SolverRule) (answers : List (Answer F)) → ShowsValidEvents F.value F.limit rules answers events.old.items events.new.items }
{
    let items = all_shown(alloc, store, labels, items, b)?;
    events.push(Event::Abort {
        line: at.line,
        items,
    })?;
    Err(stopped(alloc, StopKind::Aborted, at, b))
}

/// Shows the items of an `abort` and stops, if it has no condition or its condition holds.
fn abort_where<F: ExactField>(
    alloc: Global,
    store: &Store<F>,
    labels: u32,
    condition: Option<&Expr<F>>,
    items: &[Show],
    at: Place,
    b: &Binding,
    events: &mut Vec<Event<F>>,
) -> Result<(), ExecStopOrMemory<F>>
    requires decimals { store.now.settings.decimals ≤ 8 }
    ensures runs { (answers : List (Answer F)) →
        Runs F.value result (abort_where F.value F.limit labels
        (option_map tree_of (option_copied condition.entry)) items.now at b.now)
        (record { state = store.now; events = events.old.items; answers = answers })
        (record { state = store.now; events = events.new.items; answers = answers }) }
    ensures quiet { ShowsNoSolve events.old.items events.new.items }
    ensures valid { (rules : List SolverRule) (answers : List (Answer F)) → ShowsValidEvents F.value F.limit rules answers events.old.items events.new.items }
{
    let Some(condition) = condition else {
        return abort(alloc, store, labels, items, at, b, events);
    };
    if holds(alloc, store, condition, b)? {
        abort(alloc, store, labels, items, at, b, events)
    } else {
        Ok(())
    }
}

/// The stop of a statement that is no fault of an operation, so without operands, or out of memory.
pub(crate) fn stopped<F: ExactField>(
    alloc: Global,
    kind: StopKind,
    at: Place,
    b: &Binding,
) -> ExecStopOrMemory<F>
    ensures { Shows F.value result (faulted kind at b.now nothing nothing) }
{
    let zero = Ext::Number(F::zero());
    ExecStopOrMemory::at_step(alloc, kind, at, zero, zero, b)
}
