//! What the run of some statements followed by others is.
ghost use Rattle.std.specs.Prelude.{◌≡◌, List, ◌++◌, None};
ghost use Rattle.gq_number.specs.Number.{Number};
ghost use Rattle.gms_ast.specs.declared.program.Stmt.{Stmt};
ghost use Rattle.gms_store.specs.State.{State};
ghost use Rattle.lp_core.specs.declared.answer.Answer.{Answer};
ghost use Rattle.gms_exec.specs.Run.{World, run_from};
ghost use Rattle.gms_run_laws.specs.JointRun.{run_after};

use gq_field::ExactField;

/// Let a run of the statements `first` not halt: no fault stops it, and it has an answer for each
/// solve. Then the run of `first` followed by `others` consists of the run of `first` and a run of
/// `others`. The run of `others` begins in the last state of the run of `first`, with the answers
/// that remain. Its events follow those of the run of `first`. In its events the index of the
/// answer of each solve is greater by the number of answers that the run of `first` used (GAMS
/// User's Guide, "Save and Restart").
pub fn joint_laws<F: ExactField>()
    ensures joined { (world : World F) (state : State) (answers : List (Answer Number)) (first others : List (Stmt F)) →
        (run_from F.value F.limit world state answers first).halted ≡ None →
        run_from F.value F.limit world state answers (first ++ others)
        ≡ run_after (run_from F.value F.limit world state answers first)
        (run_from F.value F.limit world (run_from F.value F.limit world state answers first).state
        (run_from F.value F.limit world state answers first).left others) }
{}
