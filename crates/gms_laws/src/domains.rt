//! Laws of domains.
ghost use Rattle.std.specs.Prelude.{◌≡◌, ◌≤◌, ◌↔◌, true, ℕ, List, length, Ok, All};
ghost use Rattle.gms_labels.specs.declared.place.Place.{Place};
ghost use Rattle.gms_ast.specs.Trees.{Control};
ghost use Rattle.gms_tuple.specs.TupleOrder.{IsOrdered};
ghost use Rattle.gms_tuple.specs.TupleSet.{has};
ghost use Rattle.gms_store.specs.State.{State};
ghost use Rattle.gms_eval.specs.Bindings.{Pairs};
ghost use Rattle.gms_eval.specs.Domain.{IsSimple};
ghost use Rattle.gms_eval.specs.Value.{domain, sets_of};
ghost use Rattle.gms_laws.specs.Domains.{HasItsMembers, IsWhereItHolds};

use gq_field::ExactField;

/// The domain of a fold, a loop or a left side, if no fault occurs: a list of tuples, strictly
/// sorted by the number of the label at the first position at which they differ (`in_order`). A
/// tuple is listed exactly if it has one label for each controlled set, a member of that set, and
/// the condition, if any, holds (`exact`). GAMS User's Guide, "Data Manipulations with Parameters",
/// indexed operations; "Conditional Expressions, Assignments and Equations", dollar control.
///
/// Both laws assume that the stored members of each of the sets have one label each and are
/// strictly sorted by the label's number. This holds of a one-dimensional set in each state that a
/// run of an accepted program reaches. `exact` also assumes at most 10 sets, the most that a fold,
/// a loop or a left side may have.
pub fn domain_laws<F: ExactField>()
    ensures in_order { (state : State) (binding : Pairs) (at : Place) (control : Control F) (found : List (List ℕ)) →
        All (IsSimple state) (sets_of control) → domain F.value F.limit state binding at control ≡ Ok found → IsOrdered found }
    ensures exact { (state : State) (binding : Pairs) (at : Place) (control : Control F) (found : List (List ℕ)) (element : List ℕ) →
        All (IsSimple state) (sets_of control) → length (sets_of control) ≤ 10 → domain F.value F.limit state binding at control ≡ Ok found →
        (has found element ≡ true) ↔ (HasItsMembers state (sets_of control) element × IsWhereItHolds F.value F.limit state binding control element) }
{}
