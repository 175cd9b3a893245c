//! What holds of a program that begins with the statements of another.
ghost use Rattle.std.specs.Prelude.{List};
ghost use Rattle.gms_ast.specs.declared.program.Program.{Program};
ghost use Rattle.gms_ast.specs.declared.program.Stmt.{Stmt};
ghost use Rattle.gms_check.specs.Loaded.{IsAccepted, loaded};
ghost use Rattle.gms_exec.specs.Run.{World};
ghost use Rattle.gms_run_laws.specs.Agreeing.{HasAll, IsClosed, NameDeclared, SolveAlike};
ghost use Rattle.gms_run_laws.specs.Extensions.{ExtendsProgram};

use gq_field::ExactField;

/// The statements of an accepted program depend, also in the definitions of the models that they
/// solve, only on names that the first state of its run declares (`names`). That state declares the
/// set of each of its aliases (`closed`). Let an accepted program extend a shorter one by
/// statements that declare none of its variables again. The longer one's first state has the names
/// that the shorter one's declares, with the same declarations, data and settings (`begins`). If
/// both are accepted, models that the shorter one solves have equal definitions in both (`solves`;
/// GAMS User's Guide, "Save and Restart").
pub fn extension_laws<F: ExactField>()
    ensures names { (world : World F) →
        IsAccepted F.value world.program → NameDeclared world (loaded F.value world.program) world.program.statements.items }
    ensures closed { (program : Program F) →
        IsAccepted F.value program → IsClosed (loaded F.value program) }
    ensures begins { (saved joint : World F) (others : List (Stmt F)) →
        IsAccepted F.value joint.program → ExtendsProgram F.value saved joint others →
        HasAll (loaded F.value joint.program) (loaded F.value saved.program) }
    ensures solves { (saved joint : World F) (others : List (Stmt F)) →
        IsAccepted F.value saved.program → IsAccepted F.value joint.program → ExtendsProgram F.value saved joint others →
        SolveAlike saved joint saved.program.statements.items }
{}
