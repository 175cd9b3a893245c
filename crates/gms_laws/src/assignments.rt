//! The law of assignments.
ghost use Rattle.std.specs.Prelude.{◌≡◌, ℕ, true, List, Ok};
ghost use Rattle.gq_extended.specs.Extended.{Extended};
ghost use Rattle.gms_ast.specs.TreeView.{tree_of};
ghost use Rattle.gms_tuple.specs.TupleSet.{has};
ghost use Rattle.gms_store.specs.State.{Entries, base_of, has_attributes, members_of, parameter_of, set_of, symbol_of, value_of};
ghost use Rattle.gms_exec.specs.Membership.{membership};
ghost use Rattle.gms_laws.specs.Assignments.{Execution, HasAttribute, IsCompleted, IsKept, IsRight, TakesTo, element_binding};

use gq_field::ExactField;

/// The data of the assigned name at a tuple after an assignment without a fault, in a run of an
/// accepted program.
///
/// An element has a member of each set on the left side that no loop controls. The left side takes
/// the element to a tuple if the condition, if any, holds for the element, and the indices, where
/// these sets have the labels of the element, give the labels of the tuple. At most one element is
/// taken to a tuple (`one`). If one is, the right side for this element is what the name then has
/// at the tuple: a parameter its value (`value`), a set whether the tuple is a member (`member`), a
/// variable or an equation the attribute that the left side names (`attribute`). If none is, the
/// data at the tuple are as before (`kept`). The right side is read in the state before the
/// assignment. The data of other symbols (an alias names its set) are as before (`others`), and so
/// are the settings (`settings`).
///
/// GAMS User's Guide, "Data Manipulations with Parameters", indexed assignments; "Dynamic Sets";
/// "Variables".
pub fn assigned_entries<F: ExactField>()
    ensures one { (e : Execution F) (element other tuple : List ℕ) →
        IsCompleted F.value F.limit e → TakesTo F.value F.limit e element tuple → TakesTo F.value F.limit e other tuple → element ≡ other }
    ensures value { (e : Execution F) (entries : Entries Extended) (element tuple : List ℕ) →
        IsCompleted F.value F.limit e → (symbol_of e.before e.target.name).content ≡ parameter_of entries → TakesTo F.value F.limit e element tuple →
        IsRight F.value F.limit e element (value_of e.after e.target.name tuple) }
    ensures member { (e : Execution F) (members : List (List ℕ)) (element tuple : List ℕ) →
        IsCompleted F.value F.limit e → (symbol_of e.before e.target.name).content ≡ set_of members → TakesTo F.value F.limit e element tuple →
        membership F.value F.limit e.before (element_binding e element) (tree_of e.right) ≡ Ok (has (members_of e.after e.target.name) tuple) }
    ensures attribute { (e : Execution F) (element tuple : List ℕ) →
        IsCompleted F.value F.limit e → has_attributes (symbol_of e.before e.target.name).content ≡ true → TakesTo F.value F.limit e element tuple →
        HasAttribute F.value F.limit e element tuple }
    ensures kept { (e : Execution F) (tuple : List ℕ) →
        IsCompleted F.value F.limit e → ((element : List ℕ) → TakesTo F.value F.limit e element tuple → ⊥) → IsKept e tuple }
    ensures others { (e : Execution F) (other : ℕ) →
        IsCompleted F.value F.limit e → (base_of e.before other ≡ base_of e.before e.target.name → ⊥) →
        symbol_of e.after other ≡ symbol_of e.before other }
    ensures settings { (e : Execution F) → IsCompleted F.value F.limit e → e.after.settings ≡ e.before.settings }
{}
