//! Laws of joint programs, of restarted runs, and of the last states of runs.
ghost use Rattle.std.specs.Prelude.{◌≡◌, ◌++◌, ℕ, true, List, [], None, Option, Ok, All, length, option_map};
ghost use Rattle.gq_number.specs.Number.{Number};
ghost use Rattle.gq_frac.specs.declared.frac.Frac.{Frac};
ghost use Rattle.gq_frac.specs.Frac.{frac_value, frac_limit};
ghost use Rattle.gms_labels.specs.declared.place.Place.{Place};
ghost use Rattle.gms_ast.specs.declared.expression.Expr.{Expr};
ghost use Rattle.gms_ast.specs.declared.program.Act.TheVariants.{Assign};
ghost use Rattle.gms_ast.specs.declared.program.Program.{Program};
ghost use Rattle.gms_ast.specs.declared.program.Right.TheVariants.{Value};
ghost use Rattle.gms_ast.specs.declared.program.Stmt.{Stmt};
ghost use Rattle.gms_ast.specs.declared.program.Target.{Target};
ghost use Rattle.gms_ast.specs.TreeView.{tree_of};
ghost use Rattle.gms_parse.specs.Outcomes.{HasProgram, IsProgram, ProgramView};
ghost use Rattle.gms_store.specs.Declarations.{declared_state};
ghost use Rattle.gms_store.specs.State.{State, given_in, symbol_at, symbol_of};
ghost use Rattle.gms_scope.specs.DynamicSets.{dynamic_sets};
ghost use Rattle.gms_check.specs.CompileErrors.{compile_errors};
ghost use Rattle.gms_check.specs.Loaded.{IsAccepted, loaded};
ghost use Rattle.gms_check.specs.Past.{is_among};
ghost use Rattle.gms_eval.specs.Bindings.{Pairs};
ghost use Rattle.gms_exec.specs.Assignment.{given_by, target_of};
ghost use Rattle.gms_exec.specs.Given.{AllGiven};
ghost use Rattle.gms_exec.specs.Run.{World};
ghost use Rattle.gms_run_laws.specs.Reached.{IsReached, IsStatementOf};
ghost use Rattle.gms_run_laws.specs.LastStates.{MayBegin};
ghost use Rattle.gms_save.specs.JointErrors.{joint_errors, resumed};
ghost use Rattle.gms_save.specs.Saves.{IsSavedBy};
ghost use Rattle.gms_joint_source.specs.JointSources.{first_line, joint_source};
ghost use Rattle.gms_save_text.specs.Validity.{IsSavedOf, is_solver_name, fits_domain};
ghost use Rattle.gms_restart.specs.Alike.{IsAlike};
ghost use Rattle.gms_restart.specs.JointPrograms.{Continues};
ghost use Rattle.gms_restart.specs.Labels.{WritesItsLabels};
ghost use Rattle.gms_restart.specs.LastStates.{NumbersFit, last_state, later_state};
ghost use Rattle.gms_restart.specs.Restarts.{SaysTheSame, base_run, whole_run};
ghost use Rattle.lp_core.specs.declared.answer.Answer.{Answer};

use gq_field::ExactField;

/// Let the saved source, and the joint source (the saved source, a line with `;` and a file), be
/// programs. A run of the file resumes from a saved state of the saved program, extended by the
/// names that only the joint program declares. The extended state declares each name as the joint
/// program does: with as many positions and, for an alias, as an alias of the same set (GAMS User's
/// Guide, "Save and Restart", "Set Definition").
pub fn fits_laws()
    ensures fits { (saved file : List ℕ) (first whole : Program Frac) (state : State) (solver : List ℕ) →
        IsProgram frac_limit saved frac_value first → IsProgram frac_limit (joint_source saved file) frac_value whole →
        IsSavedBy first state solver → (name : ℕ) → IsAlike (resumed frac_value state whole) (declared_state whole) name }
{}

/// Let a saved source be a program, and let the joint source, which is the saved source, a line
/// with `;` and a file, be a program. The joint program has the statements of the saved program,
/// each of which begins before the file's first line, followed by others, each of which begins at
/// that line or after it (`places`).
///
/// A run of the file that is restarted from the last state of the saved run shows what one long run
/// of the joint program shows for the statements of the file (`says`): the same displays, solves,
/// aborts and faults. But the index of each solve's answer is greater in the long run, by the
/// number of answers of the saved run. Each run has a list of solvers' answers for its solves. The
/// long run's list has the answers of the saved run, then those of the restarted run. The law
/// requires that the saved program is accepted, that its run does not halt, and that its solves use
/// all answers of its list; that the statements of the file have no error; that both programs have
/// the same solvers; and that the long run executes the saved source's statements without a halt.
///
/// GAMS User's Guide, "Save and Restart".
pub fn restart_laws()
    ensures places { (limit : ℕ) (saved file : List ℕ) (first whole : ProgramView) →
        HasProgram limit saved first → HasProgram limit (joint_source saved file) whole → Continues (first_line saved) first whole }
    ensures says { (most limit : ℕ) (source file : List ℕ) (saved joint : World Frac) (answers further : List (Answer Number)) →
        IsProgram most source frac_value saved.program → IsProgram most (joint_source source file) frac_value joint.program →
        IsAccepted frac_value saved.program →
        joint_errors frac_value joint.program (first_line source) joint.solvers ≡ [] → joint.solvers ≡ saved.solvers →
        (whole_run frac_value limit saved answers).halted ≡ None →
        (whole_run frac_value limit saved answers).left ≡ [] →
        (base_run frac_value limit (first_line source) joint (answers ++ further)).halted ≡ None →
        SaysTheSame frac_value limit (first_line source) saved joint answers further }
{}

/// In the last state of an accepted program's run each tuple with data is in the domain of its
/// name: the tuple has as many labels as the name has positions, each label is in the program's
/// table of labels, and each label is a member of the set at its position, if a set is declared
/// there (`occur`). So if all numbers of the last state fit under the limit `most` (the numerator
/// and the denominator of each are at most `most` in magnitude), this state is a saved state of the
/// program (`saved`). `occur` and `saved` require that the labels in the program's indices and data
/// are in the program's table, as they are in the program of a source (`own`).
///
/// So if the program of a source has no compile errors, the last state of its run is a saved state
/// of this program (`last`). The joint program is that of the saved source followed by a file. A
/// run of it may begin in the state that is resumed from a saved state of the first program, so the
/// laws of whole runs hold for it (`begins`). The last state of such a run of the file's statements
/// is a saved state of the joint program (`later`). `begins` and `later` require that the
/// statements of the file have no error, `last` and `later` that all numbers of the last state fit
/// under `frac_limit`. The solver's name in a saved state is any text with the form of such a name.
///
/// GAMS User's Guide, "Save and Restart"; "Set Definition", domain checking.
pub fn valid_laws<F: ExactField>()
    ensures occur { (world : World F) (answers : List (Answer Number)) (name : ℕ) → IsAccepted F.value world.program → WritesItsLabels F.value world.program →
        All (λ (t : List ℕ). fits_domain (length world.program.labels) (last_state F.value F.limit world answers)
        (symbol_at (last_state F.value F.limit world answers) name).domain t ≡ true)
        (given_in (symbol_at (last_state F.value F.limit world answers) name).content) }
    ensures saved { (world : World F) (answers : List (Answer Number)) (most : ℕ) (solver : List ℕ) →
        IsAccepted F.value world.program → WritesItsLabels F.value world.program →
        NumbersFit most (last_state F.value F.limit world answers) → is_solver_name solver ≡ true →
        IsSavedOf most (length world.program.labels) (declared_state world.program) (loaded F.value world.program) (is_among (dynamic_sets world.program))
        (last_state F.value F.limit world answers) solver }
    ensures own { (limit : ℕ) (source : List ℕ) (program : Program Frac) → IsProgram limit source frac_value program → WritesItsLabels frac_value program }
    ensures last { (limit : ℕ) (source : List ℕ) (world : World Frac) (answers : List (Answer Number)) (solver : List ℕ) →
        IsProgram frac_limit source frac_value world.program →
        compile_errors frac_value world.program world.solvers ≡ [] →
        NumbersFit frac_limit (last_state frac_value limit world answers) → is_solver_name solver ≡ true →
        IsSavedBy world.program (last_state frac_value limit world answers) solver }
    ensures begins { (source file : List ℕ) (saved : Program Frac) (world : World Frac) (state : State) (solver : List ℕ) →
        IsProgram frac_limit source frac_value saved → IsProgram frac_limit (joint_source source file) frac_value world.program →
        joint_errors frac_value world.program (first_line source) world.solvers ≡ [] → IsSavedBy saved state solver →
        MayBegin frac_value world.program (resumed frac_value state world.program) }
    ensures later { (limit : ℕ) (source file : List ℕ) (saved : Program Frac) (world : World Frac) (state : State)
        (solver named : List ℕ) (answers : List (Answer Number)) →
        IsProgram frac_limit source frac_value saved → IsProgram frac_limit (joint_source source file) frac_value world.program →
        joint_errors frac_value world.program (first_line source) world.solvers ≡ [] → IsSavedBy saved state solver →
        NumbersFit frac_limit (later_state frac_value limit (first_line source) world state answers) → is_solver_name named ≡ true →
        IsSavedBy world.program (later_state frac_value limit (first_line source) world state answers) named }
{}

/// Each tuple of labels to which an assignment of an accepted program assigns has as many
/// labels as the assigned name has positions. This holds in each state that statements of the
/// program reach, also inside a loop. The statements begin in a state in which a run may begin, at
/// the start of the program or from a save.
///
/// GAMS User's Guide, "Data Manipulations with Parameters", indexed assignments; "Save and
/// Restart".
pub fn assigned_laws<F: ExactField>()
    ensures { (world : World F) (statement : Stmt F) (target : Target F) (condition : Option (Expr F)) (right_at : Place)
        (right : Expr F) (first state : State) (binding : Pairs) (given : AllGiven) →
        IsAccepted F.value world.program → IsStatementOf world.program statement → statement.act ≡ Assign target condition right_at (Value right) →
        MayBegin F.value world.program first → IsReached F.value F.limit world first state →
        given_by F.value F.limit state statement.at binding (target_of target) (option_map tree_of condition) right_at (tree_of right) ≡ Ok given →
        All (λ one. length one.0 ≡ length (symbol_of state target.name).domain) given }
{}
