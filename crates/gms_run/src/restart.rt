//! What is restored from a save, the first state of a script's program, and which of its statements
//! are run.
ghost use Rattle.std.specs.Prelude.{◌≡◌, ◌<◌, ◌≤◌, ◌^◌, ℕ, List, [], filter, length, map, string_bytes, IfOk, OnOk};
ghost use Rattle.gms_store.specs.State.{State};
ghost use Rattle.gms_save.specs.JointErrors.{is_saved};
ghost use Rattle.gms_save.specs.Saves.{GivesBack, Restores};
ghost use Rattle.gms_run.specs.InnerReports.{script_in};
ghost use Rattle.gms_run.specs.Scripts.{errors_of_script, first_state, statements_to_run};

use crate::report::names_of;
use crate::script::Script;
use gms_ast::{Program, Stmt};
use gms_check::{CompileError, check, load};
use gms_save::{SaveFaultOrMemory, Saved, joint_errors, restore, resume};
use gms_store::Store;
use gq_frac::Frac;
use lp_slot::LpSolver;
use std::alloc::{AllocError, Global};

/// The contents of a save, with the place of its solver among these. The bytes of the save are
/// dropped.
pub(crate) fn restored(
    alloc: Global,
    save: Vec<u8>,
    solvers: &[Box<dyn LpSolver>],
) -> Result<Saved, SaveFaultOrMemory>
    requires { length solvers.now < 2 ^ 32 }
    ensures answer { Restores (map name solvers.now) save.items result }
    ensures back { GivesBack (map name solvers.now) save.items result }
{
    let names = names_of(alloc, solvers)?;
    restore(alloc, save.as_slice(), &names)
}

/// The errors of a script's program, for solvers of these names.
pub(crate) fn errors_of(
    alloc: Global,
    script: Script,
    program: &Program<Frac>,
    solvers: &[String],
) -> Result<Vec<CompileError>, AllocError>
    ensures { IfOk result (λ errors. (state : State) → errors.items ≡
        errors_of_script (script_in script.entry state).saved script.entry.line program.now (map string_bytes solvers.now)) }
{
    if script.joint {
        return joint_errors(alloc, program, script.line, solvers);
    }
    check(alloc, program, solvers)
}

/// Makes the state in which a script's program begins, from the saved state if it resumes from one,
/// where it has no errors.
pub(crate) fn begin(
    alloc: Global,
    script: Script,
    program: &Program<Frac>,
    store: &mut Store<Frac>,
) -> Result<(), AllocError>
    requires { (solvers : List (List ℕ)) × (errors_of_script (script_in script store.old).saved script.line program.now solvers ≡ []) }
    ensures { OnOk result (store.new ≡ first_state (script_in script.entry store.old).saved program.now) }
{
    if script.joint {
        return resume(alloc, store, program, script.line);
    }
    let first = load(alloc, program)?;
    *store = first;
    Ok(())
}

/// How many statements begin above a line.
fn count_above(statements: &[Stmt<Frac>], line: u32) -> usize
    ensures { result ≡ length (filter (is_saved line) statements.now) }
{
    statements
        .iter()
        .filter(|statement| statement.at.line < line)
        .count()
}

/// How many statements of a joint program the saved source has, above the first line of the file.
fn count_saved(statements: &[Stmt<Frac>], line: u32) -> usize
    ensures count { result ≡ length (filter (is_saved line) statements.now) }
    ensures few { result ≤ length statements.now }
{
    count_above(statements, line)
}

/// The statements of a script's program that are run.
pub(crate) fn statements_of<'p>(script: Script, program: &'p Program<Frac>) -> &'p [Stmt<Frac>]
    ensures { (state : State) → result.now ≡ statements_to_run (script_in script.entry state).saved script.entry.line program.now }
{
    let all = program.statements.as_slice();
    if script.joint {
        return &all[count_saved(all, script.line)..];
    }
    all
}
