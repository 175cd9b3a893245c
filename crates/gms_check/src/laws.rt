//! What holds of a program without compile errors.
ghost use Rattle.std.specs.Prelude.{◌≡◌, ◌<◌, ℕ, true, List, [], length, Option, Some, None};
ghost use Rattle.gq_number.specs.Number.{Number};
ghost use Rattle.gms_ast.specs.declared.declaration.Decl.{Decl};
ghost use Rattle.gms_ast.specs.declared.declaration.DeclKind.{DeclKind};
ghost use Rattle.gms_ast.specs.declared.declaration.DeclKind.TheVariants.{Set, Equation};
ghost use Rattle.gms_ast.specs.declared.expression.Expr.{Expr};
ghost use Rattle.gms_ast.specs.declared.program.Act.TheVariants.{Assign};
ghost use Rattle.gms_ast.specs.declared.program.Program.{Program};
ghost use Rattle.gms_ast.specs.declared.program.Right.TheVariants.{Value};
ghost use Rattle.gms_ast.specs.declared.program.Stmt.{Stmt};
ghost use Rattle.gms_ast.specs.declared.program.Target.{Target};
ghost use Rattle.gms_labels.specs.declared.place.Place.{Place};
ghost use Rattle.gms_store.specs.declared.kind.VariableType.{VariableType};
ghost use Rattle.gms_store.specs.declared.kind.VariableType.TheVariants.{Free};
ghost use Rattle.gms_store.specs.State.{no_symbol, symbol_at, symbol_of, value_of, members_of, attributes_of, absent_variable, unbounded};
ghost use Rattle.gms_store.specs.Declarations.{names_of, positions_of};
ghost use Rattle.gms_tuple.specs.TupleSet.{has};
ghost use Rattle.gms_check.specs.CompileErrors.{compile_errors, known_after};
ghost use Rattle.gms_check.specs.Checked.{IsChecked, FollowsIn};
ghost use Rattle.gms_check.specs.DeclaredData.{Declares, IsFree, IsUndeclared, datum_at, has_values, is_put_in, type_of, value_put};
ghost use Rattle.gms_check.specs.LeftSides.{AreTargetIndices, IsNestedIn};
ghost use Rattle.gms_check.specs.Loaded.{IsAccepted, loaded, sound};
ghost use Rattle.gms_check.specs.References.{Asking, InStatement, IsMeant};
ghost use Rattle.gms_check.specs.StatementUses.{index_list};

use gq_field::ExactField;

/// In a program without compile errors, a reference names what an earlier statement declares, in a
/// context that admits the name with its suffix. It has as many indices as the name has positions,
/// at most 10. Each set among them, and that of an `ord`, is one-dimensional and controlled; in
/// `ord` or with a lag it is ordered. At a position with a domain set, a set is this set or below
/// it by domain sets, and a label is its member. A left side is alike, but its sets need not be
/// controlled. A `card` is of a set. A fold or loop controls at most 10 sets, one-dimensional, none
/// controlled already. No other part has an error.
pub fn checked_laws<F: ExactField>()
    ensures checked { (program : Program F) (solvers : List (List ℕ)) → compile_errors F.value program solvers ≡ [] → IsChecked F.value program solvers }
{}

/// What holds of each reference and each `ord` in a program without compile errors: in an
/// assignment, also in a lag on its left, in a definition, or in the condition of an assignment, a
/// definition, an abort or a loop, within `depth` nested loops.
///
/// The name of the reference is declared by a statement before, and some context admits the name
/// with its suffix (`checked_laws` states that the context of the reference does). The reference
/// has as many indices as its name has positions, at most 10. Each set among the indices has one
/// dimension, and a set with a lag is ordered. At a position that a domain set restricts, a set
/// among the indices is this domain set, or is declared as a subset of it, directly or through
/// other sets, and a label is a member of the domain set. A position with `*` admits every set of
/// one dimension and every label. Each set among the indices is controlled at the reference: by the
/// loops around the statement, by the left side, or by the folds around the reference. The set of
/// an `ord` is so controlled too, has one dimension and is ordered.
///
/// GAMS User's Guide, "Data Manipulations with Parameters", "Sets as Sequences: Ordered Sets",
/// "Programming Flow Control Features".
pub fn reference_laws<F: ExactField>()
    ensures { (program : Program F) (solvers : List (List ℕ)) (before : List (Stmt F)) (statement : Stmt F) (depth : ℕ) (within : List ℕ) (what : Asking F) →
        compile_errors F.value program solvers ≡ [] → FollowsIn program before statement → InStatement depth within what [] statement →
        IsMeant (known_after F.value program solvers (sound before)) within what }
{}

/// Take an assignment in a program without compile errors, at the top level or in nested loops.
/// Each set among the indices of its left side has one dimension. The amount of each lag there is a
/// number, or a name without suffix and indices.
pub fn left_laws<F: ExactField>()
    ensures { (program : Program F) (solvers : List (List ℕ)) (before : List (Stmt F)) (outer inner : Stmt F) (depth : ℕ)
        (target : Target F) (condition : Option (Expr F)) (right_at : Place) (right : Expr F) →
        compile_errors F.value program solvers ≡ [] → FollowsIn program before outer → IsNestedIn depth inner outer →
        inner.act ≡ Assign target condition right_at (Value right) →
        AreTargetIndices (known_after F.value program solvers (sound before)).state (index_list target.indices) }
{}

/// The state of an accepted program, one without compile errors, before its first statement acts. A
/// set has the tuples of its data items and no other. A parameter has at a tuple the value of the
/// first item with the tuple, or 0 without one. A variable has the bounds of its type, which is
/// free only if each of its declarations is of free variables. Equations have no bounds. Variables
/// and equations have level and marginal 0. Sets, parameters and equations have the index positions
/// of their declaration. A name that no statement declares has neither positions nor content.
/// Except in the last clause, the name is in the program's table of names.
///
/// GAMS User's Guide, "Set Definition"; "Data Entry: Parameters, Scalars and Tables"; "Variables".
pub fn load_laws<F: ExactField>()
    ensures members { (program : Program F) (item : Decl F) (t : List ℕ) →
        IsAccepted F.value program → Declares program Set item → item.named.name < length program.names →
        has (members_of (loaded F.value program) item.named.name) t ≡ is_put_in (datum_at item.items t) }
    ensures values { (program : Program F) (kind : DeclKind) (item : Decl F) (t : List ℕ) →
        IsAccepted F.value program → Declares program kind item → item.named.name < length program.names →
        has_values kind ≡ true →
        value_of (loaded F.value program) item.named.name t ≡ value_put F.value (datum_at item.items t) }
    ensures bounds { (program : Program F) (kind : DeclKind) (item : Decl F) (type : VariableType) (t : List ℕ) →
        IsAccepted F.value program → Declares program kind item → item.named.name < length program.names →
        type_of kind ≡ Some type → (type ≡ Free → IsFree program item.named.name) →
        attributes_of (loaded F.value program) item.named.name t ≡ absent_variable type }
    ensures equations { (program : Program F) (item : Decl F) (t : List ℕ) →
        IsAccepted F.value program → Declares program Equation item → item.named.name < length program.names →
        attributes_of (loaded F.value program) item.named.name t ≡ unbounded }
    ensures positions { (program : Program F) (kind : DeclKind) (item : Decl F) →
        IsAccepted F.value program → Declares program kind item → item.named.name < length program.names →
        type_of kind ≡ None →
        (symbol_of (loaded F.value program) item.named.name).domain ≡ positions_of kind (names_of item.domain) }
    ensures undeclared { (program : Program F) (name : ℕ) →
        IsAccepted F.value program → IsUndeclared program name →
        symbol_at (loaded F.value program) name ≡ no_symbol }
{}
