//! Laws of programs with equal views.
ghost use Rattle.std.specs.Prelude.{◌≡◌, ℕ, List};
ghost use Rattle.gq_frac.specs.declared.frac.Frac.{Frac};
ghost use Rattle.gq_frac.specs.Frac.{frac_value};
ghost use Rattle.gms_ast.specs.declared.program.Program.{Program};
ghost use Rattle.gms_store.specs.State.{State};
ghost use Rattle.gms_store.specs.Declarations.{declared_state};
ghost use Rattle.gms_scope.specs.DynamicSets.{dynamic_sets};
ghost use Rattle.gms_parse.specs.Outcomes.{program_view};
ghost use Rattle.gms_check.specs.CompileErrors.{compile_errors};
ghost use Rattle.gms_check.specs.Loaded.{loaded};
ghost use Rattle.gms_save.specs.JointErrors.{joint_errors, resumed};
ghost use Rattle.gms_save.specs.Saves.{IsSavedBy, solvers_chosen};

/// Two programs with equal views (names, labels and trees of statements), however stored, have
/// equal errors, choices of solvers, declarations, assigned sets, first states (`loaded`), saved
/// states and states from which they resume (GAMS User's Guide, "GAMS Programs", "Save and
/// Restart").
pub fn view_laws()
    ensures errors { (one other : Program Frac) (solvers : List (List ℕ)) → program_view frac_value one ≡ program_view frac_value other →
        compile_errors frac_value one solvers ≡ compile_errors frac_value other solvers }
    ensures solvers { (one other : Program Frac) → program_view frac_value one ≡ program_view frac_value other → solvers_chosen one ≡ solvers_chosen other }
    ensures declared { (one other : Program Frac) → program_view frac_value one ≡ program_view frac_value other → declared_state one ≡ declared_state other }
    ensures assigned { (one other : Program Frac) → program_view frac_value one ≡ program_view frac_value other → dynamic_sets one ≡ dynamic_sets other }
    ensures loaded { (one other : Program Frac) → program_view frac_value one ≡ program_view frac_value other →
        loaded frac_value one ≡ loaded frac_value other }
    ensures saved { (one other : Program Frac) (state : State) (solver : List ℕ) → program_view frac_value one ≡ program_view frac_value other →
        IsSavedBy one state solver → IsSavedBy other state solver }
    ensures joint { (one other : Program Frac) (from : ℕ) (solvers : List (List ℕ)) → program_view frac_value one ≡ program_view frac_value other →
        joint_errors frac_value one from solvers ≡ joint_errors frac_value other from solvers }
    ensures resumed { (one other : Program Frac) (saved : State) → program_view frac_value one ≡ program_view frac_value other →
        resumed frac_value saved one ≡ resumed frac_value saved other }
{}
