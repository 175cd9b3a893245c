//! Laws of assignments and solves: what is read after one, and that an assignment assigns to no
//! element twice.
ghost use Rattle.std.specs.Prelude.{◌≡◌, ◌<◌, ℕ, pos, true, List, Option, Some, Ok, All, length, slice_get, unwrap_or};
ghost use Rattle.gq_number.specs.Number.{Number, whole};
ghost use Rattle.gq_extended.specs.Extended.{Extended};
ghost use Rattle.gms_ast.specs.declared.expression.Suffix.{Suffix};
ghost use Rattle.gms_ast.specs.declared.expression.Suffix.TheVariants as suffix;
ghost use Rattle.gms_ast.specs.StatementTrees.{Target};
ghost use Rattle.gms_ast.specs.Trees.{Tree};
ghost use Rattle.gms_labels.specs.declared.place.Place.{Place};
ghost use Rattle.gms_tuple.specs.TupleSet.{has};
ghost use Rattle.gms_store.specs.State.{State, Entries, parameter_of, set_of, model_with, base_of, symbol_of, value_of, attributes_of, members_of, statuses_in, has_attributes, with_level, with_marginal};
ghost use Rattle.lp_form.specs.declared.key.Key.{Key};
ghost use Rattle.lp_core.specs.declared.program.Lp.{Lp};
ghost use Rattle.lp_core.specs.declared.answer.End.{End};
ghost use Rattle.lp_core.specs.declared.answer.End.TheVariants.{Optimal};
ghost use Rattle.gms_eval.specs.Bindings.{Pairs};
ghost use Rattle.gms_exec.specs.Assignment.{given_by};
ghost use Rattle.gms_exec.specs.Given.{AllGiven, after_given};
ghost use Rattle.gms_exec.specs.Once.{AreLeft, IsOnce};
ghost use Rattle.gms_exec.specs.Reads.{given_value, membership_at, attributes_with};
ghost use Rattle.gms_exec.specs.Solved.{keys_of_columns, row_keys, statuses_of, after_end};
ghost use Rattle.gms_exec.specs.Elements.{AreElements, IsNot, program_elements, feasible_levels, has_no_point};

use gq_field::ExactField;

/// What is read after an assignment `all` of values or memberships to elements of one name. Let
/// each element in `all` have as many labels as the name has positions. Then each element of the
/// name has the value, membership or attributes that were last assigned to it, or else its old
/// ones. The settings stay, and so do the data of each name of another symbol; an alias is a name
/// of its set's symbol.
pub fn assignment_laws()
    ensures values { (state : State) (name : ℕ) (all : AllGiven) (entries : Entries Extended) (t : List ℕ) →
        base_of state name < length state.symbols →
        (symbol_of state name).content ≡ parameter_of entries →
        All (λ given. length given.0 ≡ length (symbol_of state name).domain) all →
        value_of (after_given suffix.None name all state) name t ≡ unwrap_or (given_value all t) (value_of state name t) }
    ensures members { (state : State) (name : ℕ) (kind : Suffix) (all : AllGiven) (members : List (List ℕ)) (t : List ℕ) →
        base_of state name < length state.symbols →
        (symbol_of state name).content ≡ set_of members →
        All (λ given. length given.0 ≡ length (symbol_of state name).domain) all →
        has (members_of (after_given kind name all state) name) t ≡ unwrap_or (membership_at all t) (has (members_of state name) t) }
    ensures attributes { (state : State) (name : ℕ) (kind : Suffix) (all : AllGiven) (t : List ℕ) →
        base_of state name < length state.symbols →
        has_attributes (symbol_of state name).content ≡ true →
        All (λ given. length given.0 ≡ length (symbol_of state name).domain) all →
        attributes_of (after_given kind name all state) name t
        ≡ attributes_with kind (attributes_of state name t) (given_value all t) }
    ensures others { (state : State) (name other : ℕ) (kind : Suffix) (all : AllGiven) →
        (base_of state other ≡ base_of state name → ⊥) →
        symbol_of (after_given kind name all state) other ≡ symbol_of state other }
    ensures settings { (state : State) (name : ℕ) (kind : Suffix) (all : AllGiven) →
        (after_given kind name all state).settings ≡ state.settings }
{}

/// An assignment without a fault assigns to no element twice if its left side is as in an accepted
/// program: the sets among the indices have one dimension, and each amount of a lag is a number or
/// a name without suffix and indices. So the order of the elements has no effect (GAMS User's
/// Guide, "Data Manipulations with Parameters", indexed assignments).
pub fn once_laws<F: ExactField>()
    ensures { (state : State) (at : Place) (binding : Pairs) (target : Target F) (condition : Option (Tree F)) (right_at : Place)
        (right : Tree F) (given : AllGiven) →
        AreLeft state target.indices →
        given_by F.value F.limit state at binding target condition right_at right ≡ Ok given →
        IsOnce given }
{}

/// What is read after a solve whose columns and rows are distinct elements of the state. After an
/// optimum, the element of a column has the column's level, and as marginal its reduced cost; the
/// element of a row has the row's level, and as marginal its dual value. After an unbounded end, or
/// one that was interrupted in phase 2, these elements have the end's levels, and marginals 0.
/// After any other end (infeasible, interrupted before phase 2, or a number beyond the field's
/// limit) levels and marginals stay. The solved model has the `modelstat` and the `solvestat` of
/// the end. All other elements and names stay, and so do the settings (GAMS User's Guide, "Model
/// and Solve Statements").
pub fn solve_laws()
    ensures optimal_column { (state : State) (model : ℕ) (lp : Lp Number) (levels row_levels duals reduced : List Number) (j : ℕ) (key : Key) (x d : Number) →
        AreElements state (program_elements lp) →
        slice_get (keys_of_columns lp) j ≡ Some key → slice_get levels j ≡ Some x → slice_get reduced j ≡ Some d →
        attributes_of (after_end state model lp (Optimal levels row_levels duals reduced)) key.symbol key.tuple
        ≡ with_marginal (with_level (attributes_of state key.symbol key.tuple) x) d }
    ensures optimal_row { (state : State) (model : ℕ) (lp : Lp Number) (levels row_levels duals reduced : List Number) (i : ℕ) (key : Key) (x d : Number) →
        AreElements state (program_elements lp) →
        slice_get (row_keys lp) i ≡ Some key → slice_get row_levels i ≡ Some x → slice_get duals i ≡ Some d →
        attributes_of (after_end state model lp (Optimal levels row_levels duals reduced)) key.symbol key.tuple
        ≡ with_marginal (with_level (attributes_of state key.symbol key.tuple) x) d }
    ensures feasible_column { (state : State) (model : ℕ) (lp : Lp Number) (end : End Number) (levels row_levels : List Number)
        (j : ℕ) (key : Key) (x : Number) →
        AreElements state (program_elements lp) →
        feasible_levels end ≡ Some (levels, row_levels) →
        slice_get (keys_of_columns lp) j ≡ Some key → slice_get levels j ≡ Some x →
        attributes_of (after_end state model lp end) key.symbol key.tuple
        ≡ with_marginal (with_level (attributes_of state key.symbol key.tuple) x) (whole (pos 0)) }
    ensures feasible_row { (state : State) (model : ℕ) (lp : Lp Number) (end : End Number) (levels row_levels : List Number) (i : ℕ) (key : Key) (x : Number) →
        AreElements state (program_elements lp) →
        feasible_levels end ≡ Some (levels, row_levels) →
        slice_get (row_keys lp) i ≡ Some key → slice_get row_levels i ≡ Some x →
        attributes_of (after_end state model lp end) key.symbol key.tuple
        ≡ with_marginal (with_level (attributes_of state key.symbol key.tuple) x) (whole (pos 0)) }
    ensures no_point { (state : State) (model : ℕ) (lp : Lp Number) (end : End Number) (name : ℕ) (t : List ℕ) →
        has_no_point end ≡ true →
        attributes_of (after_end state model lp end) name t ≡ attributes_of state name t }
    ensures other_elements { (state : State) (model : ℕ) (lp : Lp Number) (end : End Number) (name : ℕ) (t : List ℕ) →
        ((i : ℕ) (key : Key) → slice_get (program_elements lp) i ≡ Some key → IsNot state key name t) →
        attributes_of (after_end state model lp end) name t ≡ attributes_of state name t }
    ensures other_names { (state : State) (model : ℕ) (lp : Lp Number) (end : End Number) (other : ℕ) →
        (base_of state other ≡ base_of state model → ⊥) →
        ((i : ℕ) (key : Key) → slice_get (program_elements lp) i ≡ Some key → base_of state other ≡ base_of state key.symbol → ⊥) →
        symbol_of (after_end state model lp end) other ≡ symbol_of state other }
    ensures statuses { (state : State) (model : ℕ) (lp : Lp Number) (end : End Number) (status solver : ℕ) →
        base_of state model < length state.symbols →
        (symbol_of state model).content ≡ model_with status solver →
        statuses_in (symbol_of (after_end state model lp end) model).content ≡ statuses_of end }
    ensures settings { (state : State) (model : ℕ) (lp : Lp Number) (end : End Number) →
        (after_end state model lp end).settings ≡ state.settings }
{}
