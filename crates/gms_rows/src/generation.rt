//! The linear program of a solve.
ghost use Rattle.std.specs.Prelude.{◌≢◌, List, [], ◌++◌, map, flat_map, IfOk, OnOk, Ok};
ghost use Rattle.std.specs.List.{All, AllPairs};
ghost use Rattle.lp_core.specs.WellFormed.{IsWellFormed};
ghost use Rattle.lp_core.specs.Numbers.{lp_numbers};
ghost use Rattle.gms_eval.specs.Nodes.{in_order};
ghost use Rattle.gms_eval.specs.Faults.{◌and_then◌};
ghost use Rattle.gms_eval.specs.Gives.{Gives};
ghost use Rattle.gms_rows.specs.Plain.{HasPlainDefinitions};
ghost use Rattle.gms_rows.specs.ProgramLp.{program_lp, program_of, sized_program};
ghost use Rattle.gms_rows.specs.Rows.{Definition, definitions, definition_of, equations_of, rows_of_definition, rows_of_model};
ghost use Rattle.gms_rows.specs.InnerContracts.{AreNoted, form_row_in, HaveOrder};

use crate::columns::{columns_of, keys_of, place_of, placed_rows};
use crate::equations::{equations_of, noted_definition, noted_statements};
use crate::form_row::FormRow;
use crate::rows::push_rows;
use crate::size::check_size;
use gms_ast::{Program, Stmt};
use gms_eval::ExecStopOrMemory;
use gms_labels::Place;
use gms_store::Store;
use gms_tuple::Tuple;
use gq_field::ExactField;
use lp_core::{Lp, Sequence};
use lp_form::Key;
use std::alloc::Global;

/// Adds the rows of an equation, if it has a definition.
fn push_equation<'s, F: ExactField>(
    alloc: Global,
    store: &Store<F>,
    noted: &[Option<&'s Stmt<F>>],
    equation: u32,
    rows: &mut Vec<FormRow<F>>,
) -> Result<(), ExecStopOrMemory<F>>
    ensures rows { (ds : List (Definition F)) → AreNoted noted.now ds → Gives F.value (λ _. map (form_row_in F.value) rows.new.items) result
        (in_order (map (rows_of_definition F.value F.limit store.now) (definition_of ds equation)) and_then
        λ those. Ok (map (form_row_in F.value) rows.old.items ++ flat_map (λ some. some) those)) }
    ensures ordered { (ds : List (Definition F)) → AreNoted noted.now ds → OnOk result (HaveOrder store.now (definition_of ds equation)) }
{
    match noted_definition(noted, equation) {
        Some(definition) => push_rows(alloc, store, &definition, rows),
        None => Ok(()),
    }
}

/// The rows of the equations of a model, in order.
fn rows_of_model<F: ExactField>(
    alloc: Global,
    store: &Store<F>,
    program: &Program<F>,
    model: u32,
) -> Result<Vec<FormRow<F>>, ExecStopOrMemory<F>>
    ensures rows { Gives F.value (λ rows. map (form_row_in F.value) rows.items) result
        (rows_of_model F.value F.limit store.now program.now.statements.items model) }
    ensures ordered { OnOk result (All (λ equation. HaveOrder store.now (definition_of (definitions program.now.statements.items) equation))
        (equations_of program.now.statements.items model)) }
{
    let equations = equations_of(alloc, program, model)?;
    let noted = noted_statements(alloc, program)?;
    let mut rows = Vec::new(alloc);
    for equation in &equations {
        push_equation(alloc, store, noted.as_slice(), *equation, &mut rows)?;
    }
    Ok(rows)
}

/// The linear program of rows with an objective, a variable without indices.
fn program_of<F: ExactField>(
    alloc: Global,
    store: &Store<F>,
    rows: &[FormRow<F>],
    objective: u32,
    maximize: bool,
    at: Place,
) -> Result<Lp<F>, ExecStopOrMemory<F>>
    ensures program { Gives F.value (lp_numbers F.value) result
        (sized_program at (program_of store.now (map (form_row_in F.value) rows.now) (record { symbol = objective; tuple = [] }) maximize)) }
    ensures formed { AllPairs (λ a b. a.key ≢ b.key) rows.now → IfOk result (IsWellFormed F.value) }
{
    let keys = keys_of(alloc, rows, objective)?;
    let columns = columns_of(alloc, store, &keys)?;
    check_size(alloc, rows, &columns, at)?;
    let placed = placed_rows(alloc, &keys, rows)?;
    let objective = Key {
        symbol: objective,
        tuple: Tuple::new(alloc),
    };
    let place = place_of(&keys, &objective);
    Ok(Lp {
        columns: Sequence::new(columns),
        rows: Sequence::new(placed),
        objective: place,
        maximize,
    })
}

/// The linear program of the solve at `at`, in a state. Rows: those of the model's equations, one
/// for each element of an equation's domain at which the condition, if any, holds. Columns: the
/// objective and the elements of variables that occur in the rows, with their bounds in the state.
///
/// The indices of each definition of the GAMS program must be labels, and sets without lags whose
/// members have one label each. The error is out of memory, or a stop (an execution error): the
/// first fault of the rows; else `TooManyRows` if the standard form has over 1,500 rows; else
/// `TooManyColumns` if it has over 3,000 variables, slacks and variable 0 not counted. GAMS User's
/// Guide, "Equations", "Model and Solve Statements".
pub fn generate<F: ExactField>(
    alloc: Global,
    store: &Store<F>,
    program: &Program<F>,
    model: u32,
    objective: u32,
    maximize: bool,
    at: Place,
) -> Result<Lp<F>, ExecStopOrMemory<F>>
    requires { HasPlainDefinitions store.now program.now.statements.items }
    ensures program { Gives F.value (lp_numbers F.value) result
        (program_lp F.value F.limit store.now program.now.statements.items model objective maximize at) }
    ensures formed { IfOk result (IsWellFormed F.value) }
{
    let rows = rows_of_model(alloc, store, program, model)?;
    program_of(alloc, store, &rows, objective, maximize, at)
}
