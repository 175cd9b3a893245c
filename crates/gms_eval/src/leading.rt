//! The factor of a condition that leads a traversal: a reference outside whose stored tuples the
//! condition cannot hold.
ghost use Rattle.std.specs.Prelude.{◌≡◌, ◌<◌, ◌≤◌, ◌-◌, ◌*◌, ◌&&◌, ◌||◌, ℕ, Bool, ◌++◌, [], List, length, take, slice_index_or, is_some, true, None, Some, Ok, IfOk, IfSome, IsOk, IsTrue};
ghost use Rattle.std.specs.List.{All};
ghost use Rattle.gms_ast.specs.Trees.{Indices};
ghost use Rattle.gms_ast.specs.TreeView.{tree_of, index_tree};
ghost use Rattle.gms_store.specs.State.{State, symbol_of};
ghost use Rattle.gms_tuple.specs.TupleOrder.{begins_with};
ghost use Rattle.gms_tuple.specs.TupleSet.{has};
ghost use Rattle.gms_eval.specs.Bindings.{Pairs, label_of, controlled};
ghost use Rattle.gms_eval.specs.Domain.{most_elements, elements, those_where};
ghost use Rattle.gms_eval.specs.Holds.{holds};
ghost use Rattle.gms_eval.specs.InnerLeading.{Condition, both, Leads, IsScan, IsReaching, IsShort, IsBareReference, later_traversal, indices_tree, parts_tree, spread_over, label_answers, tuple_answer, entry_holds, expression_holds, all_hold_in_turn, guards_hold};
ghost use Rattle.gms_eval.specs.Leaders.{before_others, without_lags, never_fails, none_fails, MayLead, OneMayLead, LastMayLead, leading_labels, is_plain_index, is_told, free_after, reach};
ghost use Rattle.gms_eval.specs.InnerContracts.{those_of, IsCounted};
ghost use Rattle.gms_eval.specs.Value.{label_answer};

use crate::binding::Binding;
use crate::elements::{Elements, MOST_ELEMENTS, count};
use crate::traversals::{Traversal, are_simple, gathered, listed};
use gms_ast::{Expr, Index, Suffix};
use gms_store::Store;
use gms_tuple::{MOST_LABELS, Tuple};
use gq_field::ExactField;
use std::alloc::{AllocError, Global};

/// The label of an index that is a label, or of one without a lag whose set has a label in the
/// binding around the control.
fn constant<F: ExactField>(index: &Index<F>, b: &Binding) -> Option<u32>
    ensures label { IfSome result (λ label. (state : State) (more : Pairs) →
        label_answer F.value F.limit state (b.now ++ more) index.now ≡ Ok (Some label)) }
    ensures beginning { (rest : Indices F) → leading_labels b.now (index_tree index.now rest) ≡ before_others result (leading_labels b.now rest) }
{
    match index {
        Index::Label(label) => Some(*label),
        Index::Set { name, lag } => match lag {
            None => b.label(*name),
            Some(_) => None,
        },
    }
}

/// The labels with which each tuple of some indices begins: those of the first indices, as long as
/// these are labels, or sets without a lag that have a label in the binding around the control.
fn prefix<F: ExactField>(
    alloc: Global,
    indices: &[Index<F>],
    b: &Binding,
) -> Result<Tuple, AllocError>
    ensures begins { IfOk result (λ prefix. (state : State) (more : Pairs) (tuple : List ℕ) →
        tuple_answer F.value F.limit state indices.now (b.now ++ more) ≡ Ok (Some tuple) → begins_with tuple prefix ≡ true) }
    ensures beginning { IfOk result (λ prefix. length indices.now ≤ 10 → prefix ≡ leading_labels b.now (indices_tree indices.now)) }
{
    let mut prefix = Tuple::new(alloc);
    for index in indices {
        let Some(label) = constant(index, b) else {
            return Ok(prefix);
        };
        if prefix.as_slice().len() >= MOST_LABELS {
            return Ok(prefix);
        }
        prefix.push(alloc, label)?;
    }
    Ok(prefix)
}

/// Whether an index is this set, without a lag.
fn is_set<F: ExactField>(index: &Index<F>, set: u32) -> bool
    ensures label { IsTrue result → (state : State) (binding : Pairs) →
        label_answer F.value F.limit state binding index.now ≡ Ok (label_of binding set) }
    ensures index { (rest : Indices F) → is_plain_index set (index_tree index.now rest) ≡ (result || is_plain_index set rest) }
{
    match index {
        Index::Label(_) => false,
        Index::Set { name, lag } => *name == set && lag.is_none(),
    }
}

/// The place of the first index that is this set, without a lag.
fn place_of<F: ExactField>(indices: &[Index<F>], set: u32) -> Option<usize>
    ensures within { IfSome result (λ place. place < length indices.now) }
    ensures label { IfSome result (λ place. (state : State) (binding : Pairs) →
        slice_index_or (label_answers F.value F.limit state indices.now binding) place (Ok None) ≡ Ok (label_of binding set)) }
    ensures index { is_some result ≡ is_plain_index set (indices_tree indices.now) }
{
    for place in 0..indices.len() {
        if is_set(&indices[place], set) {
            return Some(place);
        }
    }
    None
}

/// The place of the index that has the label of the set at `position` of a control; none if the set
/// has a label in the binding around the control, or occurs before that position too.
fn place_at<F: ExactField>(
    indices: &[Index<F>],
    sets: &[u32],
    position: usize,
    b: &Binding,
) -> Option<usize>
    requires { position < length sets.now }
    ensures within { IfSome result (λ place. place < length indices.now) }
    ensures label { IfSome result (λ place. (state : State) (element tuple : List ℕ) → length element ≡ length sets.now →
        tuple_answer F.value F.limit state indices.now (controlled b.now sets.now element) ≡ Ok (Some tuple) →
        slice_index_or tuple place 0 ≡ slice_index_or element position 0) }
    ensures told { is_some result ≡
        is_told b.now (indices_tree indices.now) (take position sets.now) (slice_index_or sets.now position 0) }
{
    let set = sets[position];
    if b.label(set).is_some() || sets[..position].contains(&set) {
        return None;
    }
    place_of(indices, set)
}

/// The place of each label of an element of a control: labels of indices are in the tuple of the
/// indices, the others after it.
#[derive(Drop)]
struct Cover {
    /// The position of each label.
    places: Vec<usize>,
    /// The sets whose labels the indices do not determine.
    free: Vec<u32>,
}

/// The place of each label of an element of a control, by the tuple of indices.
fn covered<F: ExactField>(
    alloc: Global,
    indices: &[Index<F>],
    sets: &[u32],
    b: &Binding,
) -> Result<Cover, AllocError>
    requires few { length indices.now ≤ MOST_LABELS }
    requires few_sets { length sets.now ≤ MOST_LABELS }
    ensures few { IfOk result (λ cover. length cover.places.items ≡ length sets.now) }
    ensures spreads { IfOk result (λ cover. (state : State) (element tuple : List ℕ) → has (elements state sets.now) element ≡ true →
        tuple_answer F.value F.limit state indices.now (controlled b.now sets.now element) ≡ Ok (Some tuple) →
        has (spread_over state cover.free.items cover.places.items tuple) element ≡ true) }
    ensures free { IfOk result (λ cover. cover.free.items ≡ free_after b.now (indices_tree indices.now) [] sets.now) }
{
    let mut places = Vec::new(alloc);
    let mut free = Vec::new(alloc);
    for position in 0..sets.len() {
        if let Some(place) = place_at(indices, sets, position, b) {
            places.push(place)?;
            continue;
        }
        places.push(indices.len() + free.len())?;
        free.push(sets[position])?;
    }
    Ok(Cover { places, free })
}

/// Whether an index has no lag.
fn is_plain<F: ExactField>(index: &Index<F>) -> bool
    ensures safe { IsTrue result → (state : State) (binding : Pairs) →
        IsOk (label_answer F.value F.limit state binding index.now) }
    ensures lags { (rest : Indices F) → without_lags (index_tree index.now rest) ≡ (result && without_lags rest) }
{
    match index {
        Index::Label(_) => true,
        Index::Set { lag, .. } => lag.is_none(),
    }
}

/// Whether no index has a lag.
fn are_plain<F: ExactField>(indices: &[Index<F>]) -> bool
    ensures safe { IsTrue result → (state : State) (binding : Pairs) →
        IsOk (tuple_answer F.value F.limit state indices.now binding) }
    ensures lags { result ≡ without_lags (indices_tree indices.now) }
{
    for index in indices {
        if !is_plain(index) {
            return false;
        }
    }
    true
}

/// The traversal of the stored tuples of a reference; none if it does not visit fewer than `bound`
/// elements.
fn traversal_by<F: ExactField>(
    alloc: Global,
    store: &Store<F>,
    sets: &[u32],
    bound: usize,
    name: u32,
    indices: &[Index<F>],
    b: &Binding,
) -> Result<Option<Traversal>, AllocError>
    requires { (binding : Pairs) → IsOk (tuple_answer F.value F.limit store.now indices.now binding) }
    ensures leads { IfOk result (λ traversal. IfSome traversal (λ traversal.
        Leads store.now b.now sets.now (entry_holds F.value F.limit store.now name indices.now) traversal)) }
    ensures reach { IfOk result (λ traversal. bound ≤ length (elements store.now sets.now) →
        length (elements store.now sets.now) ≤ most_elements → length indices.now ≤ 10 →
        IsReaching bound (reach store.now b.now sets.now name (indices_tree indices.now)) traversal) }
    ensures shorter { IfOk result (λ traversal. IfSome traversal (λ traversal. (traversal.upto - traversal.from) * traversal.spread < bound)) }
{
    if indices.len() > MOST_LABELS || sets.len() > MOST_LABELS {
        return Ok(None);
    }
    let prefix = prefix(alloc, indices, b)?;
    let (from, upto) = store.given(name).span(&prefix);
    if upto - from >= bound {
        return Ok(None);
    }
    let Cover { places, free } = covered(alloc, indices, sets, b)?;
    let spread = count(store, free.as_slice());
    if spread > MOST_ELEMENTS || (upto - from).saturating_mul(spread as usize) >= bound {
        return Ok(None);
    }
    Ok(Some(Traversal {
        name,
        from,
        upto,
        free,
        spread: spread as usize,
        places,
    }))
}

/// What a search of the condition of a fold (such as `sum`), a loop or a left side (of an
/// assignment or a definition) has found. The search is for a reference in the condition that
/// allows a shorter traversal: of the stored tuples of the referenced name, in place of the product
/// of the controlled sets.
#[derive(Drop)]
pub(crate) struct Scan {
    /// Whether the shape of the condition shows that in no state its evaluation has a fault.
    pub safe: bool,
    /// The number of elements that `traversal` visits; if that is `None`, the bound with which the
    /// search began. A traversal found later replaces it only if it visits fewer elements.
    pub bound: usize,
    /// Of the traversals that the search found, the one that visits the fewest elements; `None` if
    /// none visits fewer elements than the bound with which the search began.
    pub traversal: Option<Traversal>,
}

impl Scan {
    /// What is known of two conditions of which the second is evaluated where the first holds and
    /// never has a fault.
    fn and(self, second: Scan) -> Scan
        ensures known { IsTrue self.safe → (state : State) (binding : Pairs) (sets : List ℕ) (one other : Condition) →
            IsScan state binding sets one self → IsScan state binding sets other second →
            IsScan state binding sets (λ b. both (one b) (other b)) result }
        ensures safe { result.safe ≡ second.safe }
        ensures bound { result.bound ≡ second.bound }
        ensures traversal { result.traversal ≡ later_traversal self.traversal second.traversal }
    {
        let Scan {
            safe,
            bound,
            traversal,
        } = second;
        match traversal {
            Some(traversal) => Scan {
                safe,
                bound,
                traversal: Some(traversal),
            },
            None => Scan {
                safe,
                bound,
                traversal: self.traversal,
            },
        }
    }
}

/// What is known of a condition that is a reference without a suffix.
fn scan_reference<F: ExactField>(
    alloc: Global,
    store: &Store<F>,
    sets: &[u32],
    bound: usize,
    name: u32,
    indices: &[Index<F>],
    b: &Binding,
) -> Result<Scan, AllocError>
    ensures known { IfOk result (λ scan.
        IsScan store.now b.now sets.now (entry_holds F.value F.limit store.now name indices.now) scan) }
    ensures safe { IfOk result (λ scan. scan.safe ≡ without_lags (indices_tree indices.now)) }
    ensures short { IfOk result (λ scan. bound ≤ length (elements store.now sets.now) →
        length (elements store.now sets.now) ≤ most_elements →
        IsShort store.now b.now sets.now bound (IsBareReference name (indices_tree indices.now)) scan) }
{
    if !are_plain(indices) {
        return Ok(Scan {
            safe: false,
            bound,
            traversal: None,
        });
    }
    match traversal_by(alloc, store, sets, bound, name, indices, b)? {
        Some(traversal) => Ok(Scan {
            safe: true,
            bound: (traversal.upto - traversal.from).saturating_mul(traversal.spread),
            traversal: Some(traversal),
        }),
        None => Ok(Scan {
            safe: true,
            bound,
            traversal: None,
        }),
    }
}

/// What is known of a condition, with the shortest traversal that leads it.
#[cycle(scan_condition)]
fn scan_condition<F: ExactField>(
    alloc: Global,
    store: &Store<F>,
    sets: &[u32],
    bound: usize,
    condition: &Expr<F>,
    b: &Binding,
) -> Result<Scan, AllocError>
    ensures known { IfOk result (λ scan.
        IsScan store.now b.now sets.now (expression_holds F.value F.limit store.now condition.now) scan) }
    ensures safe { IfOk result (λ scan. scan.safe ≡ never_fails (tree_of condition.now)) }
    ensures short { IfOk result (λ scan. bound ≤ length (elements store.now sets.now) →
        length (elements store.now sets.now) ≤ most_elements →
        IsShort store.now b.now sets.now bound (λ name indices. MayLead name indices (tree_of condition.now)) scan) }
{
    match condition {
        Expr::Number(_) => Ok(Scan {
            safe: true,
            bound,
            traversal: None,
        }),
        Expr::Ref {
            name,
            suffix,
            indices,
            ..
        } => match suffix {
            Suffix::None => scan_reference(alloc, store, sets, bound, *name, indices, b),
            _ => Ok(Scan {
                safe: false,
                bound,
                traversal: None,
            }),
        },
        Expr::And(parts) => scan_parts(alloc, store, sets, bound, parts, b),
        Expr::Guard { operand, guards } => {
            let first = scan_guards(alloc, store, sets, bound, guards, b)?;
            if !first.safe {
                return Ok(first);
            }
            let second = scan_condition(alloc, store, sets, first.bound, operand, b)?;
            Ok(first.and(second))
        }
        _ => Ok(Scan {
            safe: false,
            bound,
            traversal: None,
        }),
    }
}

/// What is known of conditions that are evaluated from the first to the last, up to one that does
/// not hold.
#[cycle(scan_condition)]
fn scan_parts<F: ExactField>(
    alloc: Global,
    store: &Store<F>,
    sets: &[u32],
    bound: usize,
    parts: &[Expr<F>],
    b: &Binding,
) -> Result<Scan, AllocError>
    ensures known { IfOk result (λ scan.
        IsScan store.now b.now sets.now (all_hold_in_turn F.value F.limit store.now parts.now) scan) }
    ensures safe { IfOk result (λ scan. scan.safe ≡ none_fails (parts_tree parts.now)) }
    ensures short { IfOk result (λ scan. bound ≤ length (elements store.now sets.now) →
        length (elements store.now sets.now) ≤ most_elements →
        IsShort store.now b.now sets.now bound (λ name indices. OneMayLead name indices (parts_tree parts.now)) scan) }
{
    let mut known = Scan {
        safe: true,
        bound,
        traversal: None,
    };
    for part in parts {
        if !known.safe {
            return Ok(known);
        }
        let second = scan_condition(alloc, store, sets, known.bound, part, b)?;
        known = known.and(second);
    }
    Ok(known)
}

/// What is known of guards, which are evaluated from the last to the first, up to one that does not
/// hold.
#[cycle(scan_condition)]
fn scan_guards<F: ExactField>(
    alloc: Global,
    store: &Store<F>,
    sets: &[u32],
    bound: usize,
    guards: &[Expr<F>],
    b: &Binding,
) -> Result<Scan, AllocError>
    ensures known { IfOk result (λ scan.
        IsScan store.now b.now sets.now (guards_hold F.value F.limit store.now guards.now) scan) }
    ensures safe { IfOk result (λ scan. scan.safe ≡ none_fails (parts_tree guards.now)) }
    ensures short { IfOk result (λ scan. bound ≤ length (elements store.now sets.now) →
        length (elements store.now sets.now) ≤ most_elements →
        IsShort store.now b.now sets.now bound (λ name indices. LastMayLead name indices (parts_tree guards.now)) scan) }
{
    let mut first = Scan {
        safe: true,
        bound,
        traversal: None,
    };
    for place in (0..guards.len()).rev() {
        if !first.safe {
            return Ok(first);
        }
        let second = scan_condition(alloc, store, sets, first.bound, &guards[place], b)?;
        first = first.and(second);
    }
    Ok(first)
}

/// Elements of the product of sets among which are all at which the condition holds: all of the
/// product, which are `size`, or those that the shortest traversal by a leading reference visits. A
/// test of the condition at these elements finds the same elements, or the same first fault.
#[inline(never)]
pub(crate) fn candidates<F: ExactField>(
    alloc: Global,
    store: &Store<F>,
    sets: &[u32],
    size: usize,
    condition: &Expr<F>,
    b: &Binding,
) -> Result<Elements, AllocError>
    requires { size ≡ length (elements store.now sets.now) }
    ensures value { IfOk result (λ among.
        those_where (λ element. holds F.value F.limit store.now (controlled b.now sets.now element) (tree_of condition.now)) (those_of store.now sets.now among)
        ≡ those_where (λ element. holds F.value F.limit store.now (controlled b.now sets.now element) (tree_of condition.now)) (elements store.now sets.now)) }
    ensures counted { IfOk result (IsCounted store.now sets.now) }
    // If references lead, the shortest traversal by one of them visits no fewer elements.
    ensures fewest { IfOk result (λ among. size ≤ most_elements →
        All (λ set. length (symbol_of store.now set).domain ≡ 1) sets.now → (name : ℕ) (indices : Indices F) →
        MayLead name indices (tree_of condition.now) →
        length (those_of store.now sets.now among) ≤ reach store.now b.now sets.now name indices) }
{
    if !are_simple(store, sets) {
        return Ok(Elements::Every(size));
    }
    let scan = scan_condition(alloc, store, sets, size, condition, b)?;
    let Some(traversal) = &scan.traversal else {
        return Ok(Elements::Every(size));
    };
    let found = gathered(alloc, store, sets, traversal)?;
    Ok(Elements::Those(listed(alloc, &found)?))
}
