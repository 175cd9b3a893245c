//! What holds of the runs of accepted programs.
ghost use Rattle.std.specs.Prelude.{◌≡◌, ◌≤◌, ◌++◌, ℕ, Bool, true, [], List, Option, None, Ok, All, length, option_map};
ghost use Rattle.gq_number.specs.Number.{Number};
ghost use Rattle.gms_labels.specs.declared.place.Place.{Place};
ghost use Rattle.gms_ast.specs.declared.expression.Expr.{Expr};
ghost use Rattle.gms_ast.specs.declared.expression.Suffix.{Suffix};
ghost use Rattle.gms_ast.specs.declared.program.Act.TheVariants.{Assign, Solve};
ghost use Rattle.gms_ast.specs.declared.program.Program.{Program};
ghost use Rattle.gms_ast.specs.declared.program.Right.TheVariants.{Value};
ghost use Rattle.gms_ast.specs.declared.program.Stmt.{Stmt};
ghost use Rattle.gms_ast.specs.declared.program.Target.{Target};
ghost use Rattle.gms_ast.specs.declared.word.Named.{Named};
ghost use Rattle.gms_ast.specs.declared.word.Word.{Word};
ghost use Rattle.gms_ast.specs.Trees.{Indices};
ghost use Rattle.gms_ast.specs.TreeView.{tree_of};
ghost use Rattle.gms_tuple.specs.TupleSet.{has};
ghost use Rattle.gms_store.specs.State.{State, given_in, statuses_in, symbol_at};
ghost use Rattle.gms_store.specs.Declarations.{first_settings};
ghost use Rattle.gms_scope.specs.DynamicSets.{dynamic_sets};
ghost use Rattle.gms_scope.specs.Names.{is_index_set};
ghost use Rattle.gms_check.specs.Checked.{FollowsIn};
ghost use Rattle.gms_check.specs.CompileErrors.{of_program};
ghost use Rattle.gms_check.specs.Domains.{index_count};
ghost use Rattle.gms_check.specs.Loaded.{IsAccepted, loaded, sound};
ghost use Rattle.gms_check.specs.Past.{is_among, state_after};
ghost use Rattle.gms_check.specs.References.{InStatement, reads};
ghost use Rattle.gms_check.specs.Uses.{index_sets};
ghost use Rattle.gms_eval.specs.Bindings.{Pairs, controlled};
ghost use Rattle.gms_eval.specs.Domain.{elements, IsSimple};
ghost use Rattle.gms_eval.specs.Nodes.{in_order};
ghost use Rattle.gms_eval.specs.References.{tuple_of};
ghost use Rattle.gms_eval.specs.Value.{labels};
ghost use Rattle.gms_rows.specs.ModelPoints.{IsLinearDefinition, definitions_of_model};
ghost use Rattle.gms_rows.specs.ProgramLp.{program_lp};
ghost use Rattle.gms_exec.specs.Assignment.{given_by, target_of};
ghost use Rattle.gms_exec.specs.Elements.{AreElements, program_elements as elements_of};
ghost use Rattle.gms_exec.specs.Given.{AllGiven};
ghost use Rattle.gms_exec.specs.Once.{IsOnce};
ghost use Rattle.gms_exec.specs.Run.{World, run_from};
ghost use Rattle.gms_run_laws.specs.Labels.{AreMembers, OccurForLabels, SomeGoesPast};
ghost use Rattle.gms_run_laws.specs.LastStates.{AreFixed, MayBegin, FitPositions};
ghost use Rattle.gms_run_laws.specs.Reached.{IsReached, IsStatementOf};
ghost use Rattle.lp_core.specs.declared.answer.Answer.{Answer};
ghost use Rattle.lp_core.specs.declared.program.Lp.{Lp};

use gq_field::ExactField;

/// The labels of a reference of an accepted program, under a binding in which each set that is
/// controlled at the reference has a label.
///
/// Each set among the indices of the reference has a label (`occur`), and there are at most 10
/// indices (`few`). In a state in which no amount of a lag has a fault the indices have a tuple,
/// unless a lag goes beyond an end of its set or begins at a label that is no member of that set
/// (`tuple`). At an element, a fold, a loop or a left side gives each of its sets the element's
/// label; each set that had a label before still has one (`element`). If the stored members of
/// these sets have one label each and are strictly sorted by its number, each label of the element
/// is a member of its set (`members`).
///
/// GAMS User's Guide, "Data Manipulations with Parameters", controlled indices; "Sets as Sequences:
/// Ordered Sets".
pub fn label_laws<F: ExactField>()
    ensures occur { (program : Program F) (before : List (Stmt F)) (statement : Stmt F) (depth : ℕ) (within : List ℕ) (name : ℕ)
        (suffix : Suffix) (indices : Indices F) (binding : Pairs) →
        IsAccepted F.value program → FollowsIn program before statement → InStatement depth within (reads name suffix indices) [] statement →
        OccurForLabels binding within → OccurForLabels binding (index_sets indices) }
    ensures few { (program : Program F) (before : List (Stmt F)) (statement : Stmt F) (depth : ℕ) (within : List ℕ) (name : ℕ)
        (suffix : Suffix) (indices : Indices F) →
        IsAccepted F.value program → FollowsIn program before statement → InStatement depth within (reads name suffix indices) [] statement →
        index_count indices ≤ 10 }
    ensures tuple { (state : State) (binding : Pairs) (indices : Indices F) (those : List (Option ℕ)) →
        OccurForLabels binding (index_sets indices) → index_count indices ≤ 10 →
        in_order (labels F.value F.limit state binding indices) ≡ Ok those → tuple_of those ≡ None →
        SomeGoesPast F.value F.limit state binding indices }
    ensures element { (state : State) (binding : Pairs) (around sets element : List ℕ) →
        OccurForLabels binding around → has (elements state sets) element ≡ true →
        OccurForLabels (controlled binding sets element) (around ++ sets) }
    ensures members { (state : State) (sets element : List ℕ) →
        All (IsSimple state) sets → has (elements state sets) element ≡ true → AreMembers state sets element }
{}

/// The last state of a program's run is one that its statements reach (`last`). Take any state that
/// the statements reach, also inside a loop, from one in which a run may begin: at the start or
/// from a save. Take a name that the declarations before some statement of the program make a
/// one-dimensional set or an alias of one. In that state the set's stored members have one label
/// each and are strictly sorted by its number (`simple`). If the program is accepted, one execution
/// of an assignment there assigns to no element twice (`once`; GAMS User's Guide, "Data
/// Manipulations with Parameters", indexed assignments).
pub fn run_laws<F: ExactField>()
    ensures last { (world : World F) (state : State) (answers : List (Answer Number)) →
        IsReached F.value F.limit world state (run_from F.value F.limit world state answers world.program.statements.items).state }
    ensures simple { (world : World F) (before : List (Stmt F)) (statement : Stmt F) (set : ℕ) (first state : State) →
        FollowsIn world.program before statement → is_index_set (state_after F.value (length world.program.names) (sound before)) set ≡ true →
        MayBegin F.value world.program first → IsReached F.value F.limit world first state → IsSimple state set }
    ensures once { (world : World F) (statement : Stmt F) (target : Target F) (condition : Option (Expr F)) (right_at : Place)
        (right : Expr F) (first state : State) (binding : Pairs) (given : AllGiven) →
        IsAccepted F.value world.program → IsStatementOf world.program statement →
        statement.act ≡ Assign target condition right_at (Value right) →
        MayBegin F.value world.program first → IsReached F.value F.limit world first state →
        given_by F.value F.limit state statement.at binding (target_of target) (option_map tree_of condition) right_at (tree_of right) ≡ Ok given →
        IsOnce given }
{}

/// What each state of a program's run, also inside a loop, has in common with the program's first
/// state, which has the declared names with the declared data alone. Each state declares the same
/// names in the same way. The stored tuples with data of each name are strictly sorted by the
/// numbers of their labels, have as many labels as the name has positions, and are those whose
/// entry differs from that of an element without data. A model has the statuses of before or after
/// a solve. The members of a set that the program does not assign are unchanged. The settings are
/// in the ranges of their options. A run may begin in any state with these properties; then each
/// state of the run has them (`kept`). The program's first state has them (`own`).
///
/// In a run of an accepted program each stored tuple has at most 10 labels (`few`). In the first
/// state of an accepted program each label of a stored tuple is a member of the set of its
/// position, if any (`begins`). Such a set is declared, and no statement assigns it (`fixed`). In
/// the first state of any program no model has been solved (`unsolved`), and the settings have
/// their default values (`settings`).
///
/// GAMS User's Guide, "Save and Restart", "Set Definition", "Variables", "The Option Statement".
pub fn last_laws<F: ExactField>()
    ensures kept { (world : World F) (first state : State) →
        MayBegin F.value world.program first → IsReached F.value F.limit world first state → MayBegin F.value world.program state }
    ensures own { (program : Program F) → MayBegin F.value program (loaded F.value program) }
    ensures few { (world : World F) (first state : State) (name : ℕ) →
        IsAccepted F.value world.program → MayBegin F.value world.program first → IsReached F.value F.limit world first state →
        All (λ (t : List ℕ). length t ≤ 10) (given_in (symbol_at state name).content) }
    ensures begins { (program : Program F) (name : ℕ) →
        IsAccepted F.value program →
        All (FitPositions (loaded F.value program) (symbol_at (loaded F.value program) name).domain) (given_in (symbol_at (loaded F.value program) name).content) }
    ensures unsolved { (program : Program F) (name : ℕ) →
        IsAccepted F.value program → statuses_in (symbol_at (loaded F.value program) name).content ≡ (0, 0) }
    ensures settings { (program : Program F) → (loaded F.value program).settings ≡ first_settings }
    ensures fixed { (program : Program F) (name : ℕ) →
        IsAccepted F.value program →
        AreFixed (of_program program (is_among (dynamic_sets program))) (loaded F.value program) (symbol_at (loaded F.value program) name).domain }
{}

/// In each state of an accepted program's run, from its start or from a save, both sides of each
/// definition of a model are linear in the variables: at most one factor of a product, and no
/// divisor, has variables, and all folds over expressions with variables are sums. So the points
/// that satisfy the model in that state are exactly the feasible points of the linear program that
/// a solve means there (`point_laws` of gms_rows).
///
/// GAMS User's Guide, "Equations", "Model and Solve Statements".
pub fn linear_laws<F: ExactField>()
    ensures { (world : World F) (first state : State) (model : ℕ) →
        IsAccepted F.value world.program → MayBegin F.value world.program first → IsReached F.value F.limit world first state →
        All (IsLinearDefinition state) (definitions_of_model world.program.statements.items model) }
{}

/// Each column and each row of the linear program of a solve of an accepted program is an element
/// of a variable or an equation that the state of the solve declares, with as many labels as its
/// name has positions. No two of them are the same. This holds of each solve, in each state of the
/// program's run, from its start or from a save, also inside a loop.
///
/// GAMS User's Guide, "Model and Solve Statements", "Equations".
pub fn element_laws<F: ExactField>()
    ensures { (world : World F) (first state : State) (statement : Stmt F) (model : Named) (word : Word) (objective : Named)
        (maximize : Bool) (lp : Lp Number) →
        IsAccepted F.value world.program → IsStatementOf world.program statement → statement.act ≡ Solve model word objective maximize →
        MayBegin F.value world.program first → IsReached F.value F.limit world first state →
        program_lp F.value F.limit state world.program.statements.items model.name objective.name maximize statement.at ≡ Ok lp →
        AreElements state (elements_of lp) }
{}
