//! What the rows of a definition are, for every state: laws of functions with an empty body.
ghost use Rattle.std.specs.Prelude.{◌≡◌, ◌≢◌, ◌↔◌, ℕ, Bool, true, ◌||◌, List, Some, Ok, count_by, map, if◌then◌else◌};
ghost use Rattle.std.specs.List.{All, AllPairs};
ghost use Rattle.gq_number.specs.Number.{Number, ◌+ℚ◌, ◌-ℚ◌, ◌*ℚ◌, ◌/ℚ◌};
ghost use Rattle.gq_extended.specs.Extended.{number};
ghost use Rattle.gms_labels.specs.declared.place.Place.{Place};
ghost use Rattle.gms_ast.specs.declared.program.Stmt.{Stmt};
ghost use Rattle.gms_ast.specs.Trees.{Tree};
ghost use Rattle.gms_store.specs.State.{State};
ghost use Rattle.gms_tuple.specs.TupleOrder.{same_tuple};
ghost use Rattle.gms_tuple.specs.TupleSet.{has};
ghost use Rattle.gms_eval.specs.Bindings.{Pairs};
ghost use Rattle.gms_eval.specs.Domain.{elements};
ghost use Rattle.lp_form.specs.declared.key.Key.{Key};
ghost use Rattle.lp_core.specs.Feasible.{Feasible};
ghost use Rattle.lp_core.specs.declared.program.Column.{Column};
ghost use Rattle.lp_core.specs.declared.program.Lp.{Lp};
ghost use Rattle.gms_rows.specs.Affine.{affine};
ghost use Rattle.gms_rows.specs.ElementRows.{sets_of_definition, bound_to, holds_for, tuple_at, IsRowOf, HasPlainSets};
ghost use Rattle.gms_rows.specs.Forms.{Form, is_number, sum_of_forms, product_of_forms, quotient_of};
ghost use Rattle.gms_rows.specs.ModelPoints.{IsLinearDefinition, KeepsBoundsOf, KeepsModel, column_elements, definitions_of_model};
ghost use Rattle.gms_rows.specs.Points.{form_at};
ghost use Rattle.gms_rows.specs.PointValues.{is_linear, value_at};
ghost use Rattle.gms_rows.specs.ProgramLp.{program_lp};
ghost use Rattle.gms_rows.specs.Rows.{Definition, FormRow, rows_of_definition};

use gq_field::ExactField;

/// The rows of a definition whose indices are labels and sets without lags. The stored members of
/// these sets must have one label each, strictly sorted by its number. Each row is that of an
/// element of the sets' product at which the condition, if any, holds (`sources`). At each
/// element's tuple of indices there is one row if the condition holds, and else none (`one`). No
/// two rows have the same key (`differ`). GAMS User's Guide, "Equations", "Conditional Equations".
pub fn row_laws<F: ExactField>()
    ensures sources { (state : State) (d : Definition F) (rows : List FormRow) → HasPlainSets state d →
        rows_of_definition F.value F.limit state d ≡ Ok rows →
        All (λ row. (element : List ℕ) × IsRowOf F.value F.limit state d row element) rows }
    ensures one { (state : State) (d : Definition F) (rows : List FormRow) (element tuple : List ℕ) (holds : Bool) → HasPlainSets state d →
        rows_of_definition F.value F.limit state d ≡ Ok rows →
        has (elements state (sets_of_definition d)) element ≡ true →
        holds_for F.value F.limit state (bound_to d element) d.condition ≡ Ok holds →
        tuple_at F.value F.limit state d element ≡ Ok (Some tuple) →
        count_by (λ row. same_tuple row.key.tuple tuple) rows ≡ (if holds then 1 else 0) }
    ensures differ { (state : State) (d : Definition F) (rows : List FormRow) → HasPlainSets state d →
        rows_of_definition F.value F.limit state d ≡ Ok rows →
        AllPairs (λ a b. a.key ≢ b.key) rows }
{}

/// Values of affine forms at a point, which gives each element of a variable a number. If no fault
/// occurs, the value of a sum or a difference of two forms is the sum or difference of their
/// values; that of a product of two forms, one of them constant, is the product of their values;
/// and that of a form over a number is the form's value over the number. Chvatal, "Linear
/// Programming", chapter 1.
pub fn form_laws<F: ExactField>()
    ensures sum { (point : Key → Number) (at : Place) (b : Pairs) (subtracts : Bool) (left right form : Form) →
        sum_of_forms F.limit at b subtracts left right ≡ Ok form →
        form_at point form ≡ (if subtracts then form_at point left -ℚ form_at point right else form_at point left +ℚ form_at point right) }
    ensures product { (point : Key → Number) (at : Place) (b : Pairs) (left right form : Form) →
        (is_number left || is_number right) ≡ true →
        product_of_forms F.limit at b left right ≡ Ok form →
        form_at point form ≡ form_at point left *ℚ form_at point right }
    ensures quotient { (point : Key → Number) (at : Place) (b : Pairs) (left form : Form) (x : Number) →
        quotient_of F.limit at b left x ≡ Ok form →
        form_at point form ≡ form_at point left /ℚ x }
{}

/// A point gives each element of a variable a number. If an expression is linear in the variables
/// and has an affine form, its value at each point is that of the form (`value`).
///
/// Let both sides of each definition of a model be linear, and let the model have a linear program.
/// The points that satisfy the model and the bounds of the program's columns are exactly the
/// program's feasible points (`feasible`). A point satisfies a model if, at each element of the
/// sets of each of its definitions at which the condition, if any, holds and the indices exist,
/// both sides are numbers and compare as `=e=`, `=l=`, `=g=` or `=n=` says.
///
/// GAMS User's Guide, "Equations", "Model and Solve Statements"; Chvatal, "Linear Programming",
/// chapter 1.
pub fn point_laws<F: ExactField>()
    ensures value { (state : State) (point : Key → Number) (at : Place) (b : Pairs) (e : Tree F) (form : Form) → is_linear state e ≡ true →
        affine F.value F.limit state at b e ≡ Ok form →
        value_at F.value F.limit state point b e ≡ Ok (number (form_at point form)) }
    ensures feasible { (state : State) (statements : List (Stmt F)) (model objective : ℕ) (maximize : Bool) (at : Place)
        (lp : Lp Number) (point : Key → Number) →
        All (IsLinearDefinition state) (definitions_of_model statements model) →
        program_lp F.value F.limit state statements model objective maximize at ≡ Ok lp →
        (KeepsModel F.value F.limit state point statements model × KeepsBoundsOf state point (column_elements lp))
        ↔ Feasible (λ (x : Number). x) lp (map (λ (column : Column Number). point column.key) lp.columns) }
{}
