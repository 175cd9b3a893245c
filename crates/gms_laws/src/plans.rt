//! What the answers of whole runs state is true.
ghost use Rattle.std.specs.Prelude.{◌≡◌, ◌++◌, ℕ, List, [], drop, length};
ghost use Rattle.gq_frac.specs.declared.frac.Frac.{Frac};
ghost use Rattle.gq_frac.specs.Frac.{frac_value, frac_limit};
ghost use Rattle.gms_ast.specs.declared.program.Program.{Program};
ghost use Rattle.gms_ast.specs.declared.program.Stmt.{Stmt};
ghost use Rattle.gms_parse.specs.Outcomes.{IsProgram};
ghost use Rattle.gms_store.specs.State.{State};
ghost use Rattle.gms_check.specs.Loaded.{IsAccepted, loaded};
ghost use Rattle.gms_exec.specs.Answering.{AreAnswered};
ghost use Rattle.gms_exec.specs.Run.{World};
ghost use Rattle.gms_run_laws.specs.LastStates.{MayBegin};
ghost use Rattle.gms_laws.specs.Moments.{AnswersAreSo, run_with_answers};
ghost use Rattle.gms_save.specs.JointErrors.{joint_errors, resumed, saved_statements};
ghost use Rattle.gms_save.specs.Saves.{IsSavedBy};
ghost use Rattle.gms_joint_source.specs.JointSources.{first_line, joint_source};
ghost use Rattle.lp_core.specs.declared.answer.Answer.{Answer};
ghost use Rattle.lp_slot.specs.declared.solver.SolverRule.{SolverRule};

use gq_field::ExactField;

/// In the run of an accepted program what each answer states is true of the model as it is written,
/// with the data at the solve. This requires that each solve has an answer of its linear program,
/// by the pivot rule of its solver.
///
/// A plan gives each element of a variable a number. It is feasible if it satisfies each equation
/// of the model, at each element of the equation's sets for which the equation's condition holds,
/// and the bounds of each listed element. The listed elements are those of variables that occur in
/// a row of the model, and the objective. An answer's levels are of the listed elements; what it
/// states of them holds of each plan that has them. *Optimal*: the levels are feasible, and no
/// feasible plan has a better objective. *Infeasible*: no plan is feasible. *Unbounded*: the levels
/// are feasible, and for each number some feasible plan has an objective better than it.
/// *Interrupted* in phase 2: the levels are feasible. Other answers state nothing.
///
/// This holds of the run of a program from its start (`start`); of the run of a file without errors
/// from a save: of the last statements of the joint program of the saved source and the file
/// (`restarted`); and of the run of the last statements of a program from any state in which a run
/// may begin (`begun`).
///
/// GAMS User's Guide, "Equations", "Model and Solve Statements", "Save and Restart"; Chvatal,
/// "Linear Programming", chapters 1, 5 and 9.
pub fn plan_laws<F: ExactField>()
    ensures start { (world : World F) (rules : List SolverRule) (answers : List (Answer F)) → IsAccepted F.value world.program →
        AreAnswered F.value F.limit rules answers
        (run_with_answers F.value F.limit world (loaded F.value world.program) world.program.statements.items answers).events →
        AnswersAreSo F.value F.limit world (loaded F.value world.program) world.program.statements.items answers }
    ensures restarted { (limit : ℕ) (source file : List ℕ) (saved : Program Frac) (world : World Frac) (state : State)
        (solver : List ℕ) (rules : List SolverRule) (answers : List (Answer Frac)) →
        IsProgram frac_limit source frac_value saved → IsProgram frac_limit (joint_source source file) frac_value world.program →
        joint_errors frac_value world.program (first_line source) world.solvers ≡ [] → IsSavedBy saved state solver →
        AreAnswered frac_value limit rules answers (run_with_answers frac_value limit world (resumed frac_value state world.program)
        (drop (length (saved_statements (first_line source) world.program)) world.program.statements.items) answers).events →
        AnswersAreSo frac_value limit world (resumed frac_value state world.program)
        (drop (length (saved_statements (first_line source) world.program)) world.program.statements.items) answers }
    ensures begun { (world : World F) (first : State) (before statements : List (Stmt F)) (rules : List SolverRule) (answers : List (Answer F)) →
        IsAccepted F.value world.program → MayBegin F.value world.program first → world.program.statements.items ≡ before ++ statements →
        AreAnswered F.value F.limit rules answers (run_with_answers F.value F.limit world first statements answers).events →
        AnswersAreSo F.value F.limit world first statements answers }
{}
