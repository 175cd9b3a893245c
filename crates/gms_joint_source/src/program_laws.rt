//! Laws of programs of joint sources.
ghost use Rattle.std.specs.Prelude.{ℕ, List};
ghost use Rattle.gms_parse.specs.Outcomes.{ProgramView, HasProgram};
ghost use Rattle.gms_joint_source.specs.JointSources.{joint_source};
ghost use Rattle.gms_joint_source.specs.Programs.{IsProgramPrefix};

/// A joint source is a saved source, a line with `;`, and a file that continues the saved source.
/// If the saved source and the joint source are programs, the joint program begins with the saved
/// program, whatever the saved source ends in: the joint program's names, labels and statements are
/// those of the saved program, perhaps followed by more. So each saved name and label has the same
/// number in both programs (GAMS User's Guide, "Save and Restart").
pub fn joint_program_laws()
    ensures prefix { (limit : ℕ) (saved file : List ℕ) (first whole : ProgramView) →
        HasProgram limit saved first → HasProgram limit (joint_source saved file) whole → IsProgramPrefix first whole }
{}
