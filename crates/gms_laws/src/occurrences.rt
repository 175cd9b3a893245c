//! Laws of where variables and sets occur in a program, and of the places of errors.
ghost use Rattle.std.specs.Prelude.{◌≡◌, ℕ, List, [], Some, slice_get};
ghost use Rattle.gms_labels.specs.declared.place.Place.{Place};
ghost use Rattle.gms_ast.specs.declared.expression.Suffix.TheVariants as suffix;
ghost use Rattle.gms_ast.specs.declared.program.Program.{Program};
ghost use Rattle.gms_ast.specs.declared.program.Stmt.{Stmt};
ghost use Rattle.gms_ast.specs.Trees.{Indices, reference};
ghost use Rattle.gms_store.specs.declared.kind.SymbolKind.TheVariants as kind;
ghost use Rattle.gms_scope.specs.Names.{declared_kind};
ghost use Rattle.gms_check.specs.declared.error.CompileError.{CompileError};
ghost use Rattle.gms_check.specs.CompileErrors.{compile_errors, statement_errors};
ghost use Rattle.gms_laws.specs.Occurrences.{MayHaveSet, MayHaveVariable, OccursIn, Role, ExpressionStep, declared_before};
ghost use Rattle.gms_laws.specs.Places.{IsPlaceOf};

use gq_field::ExactField;

/// Where references to variables and to sets, without suffix, occur in a program without compile
/// errors. A reference is an expression that is a name, perhaps with indices: in
/// `sum(i, x(i)$s(i))` these are `x(i)` and `s(i)`, but no `i`.
///
/// A reference to a variable occurs only in a side of an equation's definition, and there in no
/// condition, no operand of a relation or a logical operator, and no amount of a lag (`variables`).
/// A reference to a set occurs only in these ways (`sets`):
/// - in any expression, as the left operand or a condition of `$`, or as an operand of `not`,
///   `and`, `or` or `xor`;
/// - as the whole condition of a fold or statement;
/// - on the right side of an assignment to a set, as the whole side or inside signs, `+`, `-`, `*`,
///   `/`, powers, `not` and left operands of `$` alone.
///
/// GAMS User's Guide, "Data Manipulation"; "Equations"; "Conditional Expressions, Assignments and
/// Equations"; "Dynamic Sets".
pub fn occurrence_laws<F: ExactField>()
    ensures variables { (program : Program F) (solvers : List (List ℕ)) (before : List (Stmt F)) (role : Role)
        (steps : List ExpressionStep) (at : Place) (name : ℕ) (indices : Indices F) →
        compile_errors F.value program solvers ≡ [] → OccursIn F.value program before role steps (reference at name suffix.None indices) →
        declared_kind (declared_before F.value program before) name ≡ kind.Variable → MayHaveVariable role steps }
    ensures sets { (program : Program F) (solvers : List (List ℕ)) (before : List (Stmt F)) (role : Role)
        (steps : List ExpressionStep) (at : Place) (name : ℕ) (indices : Indices F) →
        compile_errors F.value program solvers ≡ [] → OccursIn F.value program before role steps (reference at name suffix.None indices) →
        declared_kind (declared_before F.value program before) name ≡ kind.Set → MayHaveSet role steps }
{}

/// The compile error of a statement is at one of these places in the source: that of the statement;
/// that of a name, word, side, operand, reference, call, fold, lag amount, domain set, item of data
/// or option's value in it; or such a place of a statement in its body.
///
/// GAMS User's Guide, "GAMS Output", compilation errors.
pub fn error_places<F: ExactField>()
    ensures { (program : Program F) (solvers : List (List ℕ)) (i : ℕ) (statement : Stmt F) (error : CompileError) →
        slice_get program.statements.items i ≡ Some statement → slice_get (statement_errors F.value program solvers) i ≡ Some (Some error) →
        IsPlaceOf error.at statement }
{}
