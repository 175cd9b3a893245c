//! Resuming from a saved state: the errors of the joint program, and the state from which its new
//! statements run.
ghost use Rattle.std.specs.Prelude.{◌≡◌, map, string_bytes, IfOk, OnErr, OnOk};
ghost use Rattle.gq_frac.specs.Frac.{frac_value};
ghost use Rattle.gms_save.specs.JointErrors.{HasNoErrors, joint_errors, resumed};

use crate::restart::RestartCheck;
use gms_ast::Program;
use gms_check::{CompileError, found_errors, load, names_of, statement_errors};
use gms_store::Store;
use gq_frac::Frac;
use std::alloc::{AllocError, Global};
use std::mem;

/// The errors of `joint`'s statements, in their order. `joint` is the program of a saved source
/// followed by a new file, which begins at the line `from`; `solvers` has the names of the solvers.
/// Each statement has at most one error: the first, by place and number, of its compile error and
/// its errors `Restart`.
///
/// A statement of the new file has `Restart` where it declares a variable of the saved source as a
/// variable again, or assigns a set that the saved source declares but does not assign; an alias
/// counts as its set (GAMS User's Guide, "Save and Restart").
pub fn joint_errors(
    alloc: Global,
    joint: &Program<Frac>,
    from: u32,
    solvers: &[String],
) -> Result<Vec<CompileError>, AllocError>
    ensures { IfOk result (λ errors. errors.items ≡ joint_errors frac_value joint.now from (map string_bytes solvers.now)) }
{
    let names = names_of(alloc, solvers)?;
    let mut each = statement_errors(alloc, joint, &names)?;
    let restart = RestartCheck::new(alloc, joint, from)?;
    restart.add_errors(&joint.statements, each.as_mut_slice());
    found_errors(alloc, &each)
}

/// Makes the saved state in `store` the one from which a restarted run resumes. `joint` is the
/// program of the saved source followed by the new file, which begins at the line `from`. The state
/// gets the names that only this joint program declares, with their data (GAMS User's Guide, "Save
/// and Restart"). Names of the saved state keep their data; its settings stay. With some list of
/// solvers `joint_errors` must find no error in `joint`. If memory runs out, the state is
/// unchanged.
pub fn resume(
    alloc: Global,
    store: &mut Store<Frac>,
    joint: &Program<Frac>,
    from: u32,
) -> Result<(), AllocError>
    requires { HasNoErrors frac_value joint.now from }
    ensures ok { OnOk result (store.new ≡ resumed frac_value store.old joint.now) }
    ensures err { OnErr result (store.new ≡ store.old) }
{
    let mut saved = load(alloc, joint)?;
    mem::swap(store, &mut saved);
    store.overlay(saved);
    Ok(())
}
