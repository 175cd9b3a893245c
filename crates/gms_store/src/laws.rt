//! Laws of the state: each write changes one entry, and leaves all others.
ghost use Rattle.std.specs.Prelude.{◌≡◌, ◌<◌, ◌≤◌, ℕ, Bool, true, false, List, length};
ghost use Rattle.gq_extended.specs.Extended.{Extended};
ghost use Rattle.gms_tuple.specs.TupleOrder.{same_tuple};
ghost use Rattle.gms_tuple.specs.TupleSet.{has};
ghost use Rattle.gms_store.specs.State.{State, Entries, Attributes, set_of, parameter_of, base_of, symbol_of, value_of, attributes_of, members_of, statuses_in, after_value, after_attributes, after_membership, after_statuses, has_attributes};
ghost use Rattle.gms_store.specs.Frames.{Keeps};
ghost use Rattle.gms_store.specs.Statuses.{model_number, model_text, solver_number};
ghost use Rattle.gms_store.specs.declared.status.SolveStatus.{SolveStatus};

/// What is read at a tuple after a write: of the value of a parameter, of the attributes (bounds,
/// level, marginal) of a variable or an equation, or of whether a set has a member. At the written
/// tuple it is what was written, if the name is one of the program and of that kind, and the tuple
/// has as many labels as the name has positions. At each other tuple of the name, and at each tuple
/// of another name, it is as before the write. An alias and its set are one name here.
pub fn write_laws()
    ensures value { (state : State) (name : ℕ) (t : List ℕ) (x : Extended) (entries : Entries Extended) →
        base_of state name < length state.symbols →
        (symbol_of state name).content ≡ parameter_of entries →
        length t ≡ length (symbol_of state name).domain →
        value_of (after_value state name t x) name t ≡ x }
    ensures other_values { (state : State) (name : ℕ) (t : List ℕ) (x : Extended) (other : ℕ) (u : List ℕ) →
        (base_of state other ≡ base_of state name → same_tuple t u ≡ false) →
        value_of (after_value state name t x) other u ≡ value_of state other u }
    ensures attributes { (state : State) (name : ℕ) (t : List ℕ) (a : Attributes) →
        base_of state name < length state.symbols →
        has_attributes (symbol_of state name).content ≡ true →
        length t ≡ length (symbol_of state name).domain →
        attributes_of (after_attributes state name t a) name t ≡ a }
    ensures other_attributes { (state : State) (name : ℕ) (t : List ℕ) (a : Attributes) (other : ℕ) (u : List ℕ) →
        (base_of state other ≡ base_of state name → same_tuple t u ≡ false) →
        attributes_of (after_attributes state name t a) other u ≡ attributes_of state other u }
    ensures membership { (state : State) (name : ℕ) (t : List ℕ) (on : Bool) (members : List (List ℕ)) →
        base_of state name < length state.symbols →
        (symbol_of state name).content ≡ set_of members →
        length t ≡ length (symbol_of state name).domain →
        has (members_of (after_membership state name t on) name) t ≡ on }
    ensures other_members { (state : State) (name : ℕ) (t : List ℕ) (on : Bool) (other : ℕ) (u : List ℕ) →
        (base_of state other ≡ base_of state name → same_tuple t u ≡ false) →
        has (members_of (after_membership state name t on) other) u ≡ has (members_of state other) u }
{}

/// What a write to a name leaves unchanged: the data of all other names; of every name its domain
/// and the set of which it is an alias; the number of names; the settings (`Keeps`). Data are
/// values, members, attributes or statuses; a write of one of these leaves the other three of every
/// name unchanged. An alias and its set are one name here.
pub fn frame_laws()
    ensures value { (state : State) (name : ℕ) (t : List ℕ) (x : Extended) → Keeps state (after_value state name t x) name }
    ensures value_leaves_members { (state : State) (name : ℕ) (t : List ℕ) (x : Extended) (other : ℕ) →
        members_of (after_value state name t x) other ≡ members_of state other }
    ensures value_leaves_attributes { (state : State) (name : ℕ) (t : List ℕ) (x : Extended) (other : ℕ) (u : List ℕ) →
        attributes_of (after_value state name t x) other u ≡ attributes_of state other u }
    ensures value_leaves_statuses { (state : State) (name : ℕ) (t : List ℕ) (x : Extended) (other : ℕ) →
        statuses_in (symbol_of (after_value state name t x) other).content ≡ statuses_in (symbol_of state other).content }
    ensures membership { (state : State) (name : ℕ) (t : List ℕ) (on : Bool) → Keeps state (after_membership state name t on) name }
    ensures membership_leaves_values { (state : State) (name : ℕ) (t : List ℕ) (on : Bool) (other : ℕ) (u : List ℕ) →
        value_of (after_membership state name t on) other u ≡ value_of state other u }
    ensures membership_leaves_attributes { (state : State) (name : ℕ) (t : List ℕ) (on : Bool) (other : ℕ) (u : List ℕ) →
        attributes_of (after_membership state name t on) other u ≡ attributes_of state other u }
    ensures membership_leaves_statuses { (state : State) (name : ℕ) (t : List ℕ) (on : Bool) (other : ℕ) →
        statuses_in (symbol_of (after_membership state name t on) other).content ≡ statuses_in (symbol_of state other).content }
    ensures attributes { (state : State) (name : ℕ) (t : List ℕ) (a : Attributes) → Keeps state (after_attributes state name t a) name }
    ensures attributes_leave_values { (state : State) (name : ℕ) (t : List ℕ) (a : Attributes) (other : ℕ) (u : List ℕ) →
        value_of (after_attributes state name t a) other u ≡ value_of state other u }
    ensures attributes_leave_members { (state : State) (name : ℕ) (t : List ℕ) (a : Attributes) (other : ℕ) →
        members_of (after_attributes state name t a) other ≡ members_of state other }
    ensures attributes_leave_statuses { (state : State) (name : ℕ) (t : List ℕ) (a : Attributes) (other : ℕ) →
        statuses_in (symbol_of (after_attributes state name t a) other).content ≡ statuses_in (symbol_of state other).content }
    ensures statuses { (state : State) (name model solver : ℕ) → Keeps state (after_statuses state name model solver) name }
    ensures statuses_leave_values { (state : State) (name model solver : ℕ) (other : ℕ) (u : List ℕ) →
        value_of (after_statuses state name model solver) other u ≡ value_of state other u }
    ensures statuses_leave_members { (state : State) (name model solver : ℕ) (other : ℕ) →
        members_of (after_statuses state name model solver) other ≡ members_of state other }
    ensures statuses_leave_attributes { (state : State) (name model solver : ℕ) (other : ℕ) (u : List ℕ) →
        attributes_of (after_statuses state name model solver) other u ≡ attributes_of state other u }
{}

/// No two ways in which a solve may end have the same number of the model's status, or the same
/// text of it. No number of a model's or a solver's status is above 13.
pub fn status_laws()
    ensures one_number { (one other : SolveStatus) → model_number one ≡ model_number other → one ≡ other }
    ensures one_text { (one other : SolveStatus) → model_text one ≡ model_text other → one ≡ other }
    ensures small { (status : SolveStatus) → model_number status ≤ 13 }
    ensures small_solver { (status : SolveStatus) → solver_number status ≤ 13 }
{}
