//! Assignments: all values are computed in the old state, and then written.
ghost use Rattle.std.specs.Prelude.{◌≡◌, ◌==◌, Some, Ok, map, option_map, option_copied, IfOk, OnOk};
ghost use Rattle.std.specs.List.{list_any};
ghost use Rattle.gq_extended.specs.Meaning.{extended};
ghost use Rattle.gms_ast.specs.TreeView.{tree_of, index_tree, indices_of};
ghost use Rattle.gms_ast.specs.Trees.{no_index};
ghost use Rattle.gms_ast.specs.declared.expression.Suffix.TheVariants.{Lo, Up, L, M, Fx};
ghost use Rattle.gms_store.specs.State.{symbol_of};
ghost use Rattle.gms_eval.specs.Nodes.{in_order};
ghost use Rattle.gms_eval.specs.Bindings.{controlled};
ghost use Rattle.gms_eval.specs.Faults.{nothing, ◌and_then◌};
ghost use Rattle.gms_eval.specs.Gives.{Gives};
ghost use Rattle.gms_exec.specs.Assignment.{newly_controlled, takes_value, where_taken, target_of, given_under, element_under, given_elements, given_by, after_assignment};
ghost use Rattle.gms_exec.specs.InnerContracts.{given_in, all_given_in, Assigns, first_set, after_others, noted, with_found, found_in, found_at};
ghost use Rattle.gms_store.specs.Declarations.{is_set};

use crate::given::{Given, put_all};
use crate::membership::membership;
use gms_ast::{Expr, Index, Suffix, Target};
use gms_eval::{Binding, ExecStopOrMemory, StopKind, domain_over, tuple_of, value};
use gms_labels::Place;
use gms_store::{Store, SymbolKind};
use gms_tuple::Tuple;
use gq_extended::Ext;
use gq_field::ExactField;
use std::alloc::{AllocError, Global};

/// The set of an index, if it is one.
fn index_set<F: ExactField>(index: &Index<F>) -> Option<u32>
    ensures { result ≡ first_set (index_tree index.now no_index) }
{
    match index {
        Index::Label(_) => None,
        Index::Set { name, .. } => Some(*name),
    }
}

/// Whether a set is one of some sets.
fn is_one_of(sets: &[u32], set: u32) -> bool
    ensures { result ≡ list_any (λ one. one == set) sets.now }
{
    for one in sets {
        if *one == set {
            return true;
        }
    }
    false
}

/// Appends a set to others, if it is not among them.
fn push_absent(sets: &mut Vec<u32>, set: u32) -> Result<(), AllocError>
    ensures { OnOk result (sets.new.items ≡ after_others sets.old.items set) }
{
    if is_one_of(sets.as_slice(), set) {
        return Ok(());
    }
    sets.push(set)?;
    Ok(())
}

/// Appends a set to others, if it is not among them and no loop controls it.
fn note(sets: &mut Vec<u32>, set: u32, b: &Binding) -> Result<(), AllocError>
    ensures { OnOk result (sets.new.items ≡ noted b.now sets.old.items (Some set)) }
{
    match b.label(set) {
        Some(_) => Ok(()),
        None => push_absent(sets, set),
    }
}

/// Notes the set of an index, if it is one.
fn note_index<F: ExactField>(
    sets: &mut Vec<u32>,
    index: &Index<F>,
    b: &Binding,
) -> Result<(), AllocError>
    ensures { OnOk result (sets.new.items ≡ noted b.now sets.old.items (first_set (index_tree index.now no_index))) }
{
    match index_set(index) {
        Some(set) => note(sets, set, b),
        None => Ok(()),
    }
}

/// The sets among the indices of a left side that no loop controls, in order, without repetition.
fn newly_controlled<F: ExactField>(
    alloc: Global,
    indices: &[Index<F>],
    b: &Binding,
) -> Result<Vec<u32>, AllocError>
    ensures { IfOk result (λ sets. sets.items ≡ newly_controlled b.now (indices_of (map index_tree indices.now))) }
{
    let mut sets: Vec<u32> = Vec::new(alloc);
    for index in indices {
        note_index(&mut sets, index, b)?;
    }
    Ok(sets)
}

/// Whether a value is a number, as a level, a marginal and the value that fixes a variable are.
fn is_number<F: ExactField>(value: Ext<F>) -> bool
    ensures level { result ≡ takes_value L (extended F.value value) }
    ensures marginal { result ≡ takes_value M (extended F.value value) }
    ensures fixed { result ≡ takes_value Fx (extended F.value value) }
{
    match value {
        Ext::Number(_) => true,
        Ext::PlusInf => false,
        Ext::MinusInf => false,
        Ext::Na => false,
    }
}

/// Whether a value is a number or minus infinity, as a lower bound is.
fn is_lower<F: ExactField>(value: Ext<F>) -> bool
    ensures { result ≡ takes_value Lo (extended F.value value) }
{
    match value {
        Ext::Number(_) => true,
        Ext::PlusInf => false,
        Ext::MinusInf => true,
        Ext::Na => false,
    }
}

/// Whether a value is a number or infinity, as an upper bound is.
fn is_upper<F: ExactField>(value: Ext<F>) -> bool
    ensures { result ≡ takes_value Up (extended F.value value) }
{
    match value {
        Ext::Number(_) => true,
        Ext::PlusInf => true,
        Ext::MinusInf => false,
        Ext::Na => false,
    }
}

/// Whether a name takes a value with a suffix; a parameter takes any value.
fn takes<F: ExactField>(suffix: Suffix, value: Ext<F>) -> bool
    ensures { result ≡ takes_value suffix (extended F.value value) }
{
    match suffix {
        Suffix::None => true,
        Suffix::Lo => is_lower(value),
        Suffix::Up => is_upper(value),
        Suffix::L => is_number(value),
        Suffix::M => is_number(value),
        Suffix::Fx => is_number(value),
        Suffix::ModelStat => true,
        Suffix::SolveStat => true,
    }
}

/// 0, in place of a right operand that a step does not have.
fn zero<F: ExactField>() -> Ext<F>
    ensures { extended F.value result ≡ nothing }
{
    Ext::Number(F::zero())
}

/// The value as what is given, if the name takes it; otherwise the stop `Undefined`.
fn where_taken<F: ExactField>(
    alloc: Global,
    suffix: Suffix,
    at: Place,
    value: Ext<F>,
    b: &Binding,
) -> Result<Given<F>, ExecStopOrMemory<F>>
    ensures { Gives F.value (given_in F.value) result (where_taken suffix at b.now (extended F.value value)) }
{
    if takes(suffix, value) {
        return Ok(Given::Value(value));
    }
    let right = zero();
    Err(ExecStopOrMemory::at_step(alloc, StopKind::Undefined, at, value, right, b))
}

/// Whether a name stands for a set.
fn is_set<F: ExactField>(store: &Store<F>, name: u32) -> bool
    ensures { result ≡ is_set (symbol_of store.now name).content }
{
    let kind = store.kind_of(store.base(name));
    match kind {
        SymbolKind::Set => true,
        _ => false,
    }
}

/// Appends an element, if there is one, with what it is given.
fn add<F: ExactField>(
    all: &mut Vec<(Tuple, Given<F>)>,
    found: Option<(Tuple, Given<F>)>,
) -> Result<(), AllocError>
    ensures { OnOk result (all_given_in F.value all.new.items ≡ with_found (all_given_in F.value all.old.items) (found_in F.value found)) }
{
    match found {
        Some(found) => {
            all.push(found)?;
            Ok(())
        }
        None => Ok(()),
    }
}

/// An assignment, except for its condition.
#[derive(Clone, Copy)]
pub(crate) struct Assignment<'s, F: ExactField> {
    /// The left side.
    pub(crate) target: &'s Target<F>,
    /// The place of the right side.
    pub(crate) right_at: Place,
    /// The right side.
    pub(crate) right: &'s Expr<F>,
}

impl<'s, F: ExactField> Assignment<'s, F> {
    /// What the right side gives under a binding. `Undefined` where the name does not take the
    /// value.
    fn given(
        &self,
        alloc: Global,
        store: &Store<F>,
        b: &Binding,
    ) -> Result<Given<F>, ExecStopOrMemory<F>>
        ensures { Gives F.value (given_in F.value) result
            (given_under F.value F.limit store.now (target_of self.now.target.now) self.now.right_at (tree_of self.now.right.now) b.now) }
    {
        if is_set(store, self.target.name) {
            return Ok(Given::Member(membership(alloc, store, self.right, b)?));
        }
        let value = value(alloc, store, self.right, b)?;
        where_taken(alloc, self.target.suffix, self.right_at, value, b)
    }

    /// The element of a tuple, if there is one, with what it is given.
    fn given_at(
        &self,
        alloc: Global,
        store: &Store<F>,
        t: Option<Tuple>,
        b: &Binding,
    ) -> Result<Option<(Tuple, Given<F>)>, ExecStopOrMemory<F>>
        ensures { Gives F.value (found_in F.value) result
            (found_at (given_under F.value F.limit store.now (target_of self.now.target.now) self.now.right_at (tree_of self.now.right.now) b.now) t) }
    {
        match t {
            Some(t) => {
                let given = self.given(alloc, store, b)?;
                Ok(Some((t, given)))
            }
            None => Ok(None),
        }
    }

    /// The element of the left side under a binding with what it is given; none where a lag goes
    /// past the ends of its set.
    fn element(
        &self,
        alloc: Global,
        store: &Store<F>,
        b: &Binding,
    ) -> Result<Option<(Tuple, Given<F>)>, ExecStopOrMemory<F>>
        ensures { Gives F.value (found_in F.value) result
            (element_under F.value F.limit store.now (target_of self.now.target.now) self.now.right_at (tree_of self.now.right.now) b.now) }
    {
        let indices = self.target.indices.as_slice();
        let t = tuple_of(alloc, store, indices, b)?;
        self.given_at(alloc, store, t, b)
    }

    /// The elements of the left side under a binding with each of some elements, with what they are
    /// given.
    fn each_given(
        &self,
        alloc: Global,
        store: &Store<F>,
        sets: &[u32],
        elements: &[Tuple],
        b: &Binding,
    ) -> Result<Vec<(Tuple, Given<F>)>, ExecStopOrMemory<F>>
        ensures { Gives F.value (λ all. all_given_in F.value all.items) result
            (in_order (map (λ element. element_under F.value F.limit store.now (target_of self.now.target.now) self.now.right_at
            (tree_of self.now.right.now) (controlled b.now sets.now element)) elements.now)
            and_then λ given. Ok (given_elements F.value F.limit store.now given)) }
    {
        let mut all = Vec::new(alloc);
        let mut inner = b.copy(alloc)?;
        for element in elements {
            inner.control(b.len(), sets, element.as_slice())?;
            let found = self.element(alloc, store, &inner)?;
            add(&mut all, found)?;
        }
        Ok(all)
    }

    /// The elements that the assignment gives something, each with what it gives, all in the old
    /// state.
    fn all_given(
        &self,
        alloc: Global,
        store: &Store<F>,
        condition: Option<&Expr<F>>,
        at: Place,
        b: &Binding,
    ) -> Result<Vec<(Tuple, Given<F>)>, ExecStopOrMemory<F>>
        ensures { Gives F.value (λ all. all_given_in F.value all.items) result
            (given_by F.value F.limit store.now at b.now (target_of self.now.target.now) (option_map tree_of (option_copied condition.entry)) self.now.right_at (tree_of self.now.right.now)) }
    {
        let indices = self.target.indices.as_slice();
        let sets = newly_controlled(alloc, indices, b)?;
        let found = domain_over(alloc, store, &sets, condition, at, b)?;
        let elements = found.as_slice();
        let those = sets.as_slice();
        self.each_given(alloc, store, those, elements, b)
    }

    /// Executes the assignment of a statement at the place `at`: every value is computed in the old
    /// state, and then all are written.
    ///
    /// A stop is the first fault of the left side's domain, or, for each element, of the amounts of
    /// its lags, of the right side, and `Undefined` for a value that the name cannot be assigned.
    /// After a stop the state is unchanged. GAMS User's Guide, "Data Manipulations with
    /// Parameters".
    pub(crate) fn run(
        &self,
        alloc: Global,
        store: &mut Store<F>,
        condition: Option<&Expr<F>>,
        at: Place,
        b: &Binding,
    ) -> Result<(), ExecStopOrMemory<F>>
        ensures { Assigns F.value result store.old store.new
            (after_assignment F.value F.limit store.old at b.now (target_of self.now.target.now) (option_map tree_of (option_copied condition.entry)) self.now.right_at (tree_of self.now.right.now)) }
    {
        let given = self.all_given(alloc, store, condition, at, b)?;
        let all = given.as_slice();
        put_all(alloc, store, self.target.name, self.target.suffix, all)?;
        Ok(())
    }
}
