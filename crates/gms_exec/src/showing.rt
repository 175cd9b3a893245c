//! What a `display` or an `abort` shows of its items.
ghost use Rattle.std.specs.Prelude.{◌≡◌, ◌∷◌, [], length, not, map, option_map, Ok, IfOk, OnOk};
ghost use Rattle.gq_extended.specs.Meaning.{extended};
ghost use Rattle.gms_store.specs.State.{symbol_of, given_of};
ghost use Rattle.gms_eval.specs.Nodes.{truth, is_so};
ghost use Rattle.gms_eval.specs.Domain.{sized};
ghost use Rattle.gms_eval.specs.Faults.{◌and_then◌};
ghost use Rattle.gms_eval.specs.Gives.{Gives};
ghost use Rattle.gms_eval.specs.References.{lower_value, upper_value, plain_value};
ghost use Rattle.gms_event.specs.EventView.{shown_in};
ghost use Rattle.gms_exec.specs.Showing.{status_shown, value_shown, elements_at, is_bound, is_indexed, entries_shown, tuples_looked_at, shown_of, all_shown};
ghost use Rattle.gms_exec.specs.InnerContracts.{entries_in, is_kept, with_entries, tuples_given, text_shown, symbol_shown};

use crate::name_domains::NameDomain;
use gms_ast::{Named, Sequence, Show, Suffix, Word};
use gms_eval::{Binding, ExecStopOrMemory};
use gms_event::Shown;
use gms_store::{Store, SymbolKind};
use gms_tuple::Tuple;
use gq_extended::Ext;
use gq_field::ExactField;
use std::alloc::{AllocError, Global};

/// How many elements the domain of a variable may have whose bounds are shown.
const MOST_ELEMENTS: u64 = 16_777_216;

/// A lower bound; minus infinity if there is none.
fn lower<F: ExactField>(bound: Option<F>) -> Ext<F>
    ensures { extended F.value result ≡ lower_value (option_map F.value bound) }
{
    match bound {
        Some(x) => Ext::Number(x),
        None => Ext::MinusInf,
    }
}

/// An upper bound; infinity if there is none.
fn upper<F: ExactField>(bound: Option<F>) -> Ext<F>
    ensures { extended F.value result ≡ upper_value (option_map F.value bound) }
{
    match bound {
        Some(x) => Ext::Number(x),
        None => Ext::PlusInf,
    }
}

/// 1 for what holds and 0 for what does not.
fn truth<F: ExactField>(holds: bool) -> Ext<F>
    ensures { extended F.value result ≡ truth holds }
{
    if holds {
        Ext::Number(F::one())
    } else {
        Ext::Number(F::zero())
    }
}

/// The value of a name without a suffix at a tuple: a set has 1 at its members and 0 at other
/// tuples.
fn plain<F: ExactField>(store: &Store<F>, name: u32, t: &Tuple) -> Ext<F>
    ensures { extended F.value result ≡ plain_value store.now name (symbol_of store.now name).content t.now }
{
    if store.kind_of(store.base(name)) == SymbolKind::Set {
        truth(store.member(name, t))
    } else {
        store.value(name, t)
    }
}

/// The value of a name at a tuple, by the suffix.
fn value<F: ExactField>(store: &Store<F>, name: u32, suffix: Suffix, t: &Tuple) -> Ext<F>
    ensures { extended F.value result ≡ value_shown store.now name suffix t.now }
{
    match suffix {
        Suffix::None => plain(store, name, t),
        Suffix::Lo => lower(store.lower(name, t)),
        Suffix::Up => upper(store.upper(name, t)),
        Suffix::L => Ext::Number(store.level(name, t)),
        Suffix::M => Ext::Number(store.marginal(name, t)),
        Suffix::Fx => Ext::Number(F::zero()),
        Suffix::ModelStat => status(store.status(name).0),
        Suffix::SolveStat => status(store.status(name).1),
    }
}

/// A status as a value: no status is above 127, and each field has all integers up to that.
fn status<F: ExactField>(status: u8) -> Ext<F>
    ensures { extended F.value result ≡ status_shown status }
{
    let shown = status.min(127);
    Ext::Number(F::from_int(shown as i64))
}

/// Whether a value is not the number 0.
fn is_shown<F: ExactField>(value: Ext<F>) -> bool
    ensures { result ≡ is_so (extended F.value value) }
{
    match value {
        Ext::Number(x) => !x.is_zero(),
        Ext::PlusInf => true,
        Ext::MinusInf => true,
        Ext::Na => true,
    }
}

/// The entries that a name shows, in the order of tuples.
type Entries<F> = Vec<(Tuple, Ext<F>)>;

/// Whether a name has indices.
fn is_indexed<F: ExactField>(store: &Store<F>, name: u32) -> bool
    ensures { result ≡ is_indexed store.now name }
{
    let positions = store.domain_of(name);
    positions.len() != 0
}

/// Whether a suffix is that of a bound.
fn is_bound(suffix: Suffix) -> bool
    ensures { result ≡ is_bound suffix }
{
    match suffix {
        Suffix::None => false,
        Suffix::Lo => true,
        Suffix::Up => true,
        Suffix::L => false,
        Suffix::M => false,
        Suffix::Fx => false,
        Suffix::ModelStat => false,
        Suffix::SolveStat => false,
    }
}

/// Whether an entry is left out: it is 0, and the name has indices.
fn is_left_out<F: ExactField>(indexed: bool, value: Ext<F>) -> bool
    ensures { result ≡ not (is_kept indexed (extended F.value value)) }
{
    if indexed {
        return !is_shown(value);
    }
    false
}

/// Adds the entry of a name at a tuple, unless it is left out.
fn add<F: ExactField>(
    entries: &mut Entries<F>,
    store: &Store<F>,
    name: u32,
    suffix: Suffix,
    t: Tuple,
) -> Result<(), AllocError>
    ensures { OnOk result
        (entries_in F.value entries.new.items ≡ with_entries (entries_in F.value entries.old.items) (entries_shown store.now name suffix (t ∷ []))) }
{
    let shown = value(store, name, suffix, &t);
    let indexed = is_indexed(store, name);
    if is_left_out(indexed, shown) {
        return Ok(());
    }
    entries.push((t, shown))?;
    Ok(())
}

/// The entries over all elements of a domain, of which there are `size`.
fn over_all<F: ExactField>(
    alloc: Global,
    store: &Store<F>,
    name_domain: &NameDomain<F>,
    size: usize,
    name: u32,
    suffix: Suffix,
) -> Result<Entries<F>, AllocError>
    requires { size ≡ length (elements_at name_domain.now.labels name_domain.now.store.now name_domain.now.positions.now) }
    ensures { IfOk result (λ entries. entries_in F.value entries.items ≡
        entries_shown store.now name suffix
        (elements_at name_domain.now.labels name_domain.now.store.now name_domain.now.positions.now)) }
{
    let mut entries = Vec::new(alloc);
    for number in 0..size {
        let t = name_domain.element(alloc, size, number)?;
        add(&mut entries, store, name, suffix, t)?;
    }
    Ok(entries)
}

/// The entries of a bound that are not 0, over all elements of the domain. `DomainSize` where these
/// are more than 16,777,216.
fn bounds<F: ExactField>(
    alloc: Global,
    store: &Store<F>,
    labels: u32,
    named: Named,
    suffix: Suffix,
    b: &Binding,
) -> Result<Entries<F>, ExecStopOrMemory<F>>
    ensures { Gives F.value (λ entries. entries_in F.value entries.items) result
        (sized named.at b.now (elements_at labels store.now (symbol_of store.now named.name).domain) and_then
        λ tuples. Ok (entries_shown store.now named.name suffix tuples)) }
{
    let name_domain = NameDomain::new(store, labels, named.name);
    let size = name_domain.count();
    if size > MOST_ELEMENTS {
        return Err(ExecStopOrMemory::too_large(alloc, named.at, size, b));
    }
    let entries = over_all(
        alloc,
        store,
        &name_domain,
        size as usize,
        named.name,
        suffix,
    )?;
    Ok(entries)
}

/// The entries that are not 0, at the tuples with data.
fn given<F: ExactField>(
    alloc: Global,
    store: &Store<F>,
    name: u32,
    suffix: Suffix,
) -> Result<Entries<F>, AllocError>
    ensures { IfOk result (λ entries. entries_in F.value entries.items ≡ entries_shown store.now name suffix (given_of store.now name)) }
{
    let given = store.given(name);
    let mut entries = Vec::new(alloc);
    for place in 0..given.len() {
        let t = given.get(place).copy(alloc)?;
        add(&mut entries, store, name, suffix, t)?;
    }
    Ok(entries)
}

/// The one entry of a name without indices.
fn single<F: ExactField>(
    alloc: Global,
    store: &Store<F>,
    name: u32,
    suffix: Suffix,
) -> Result<Entries<F>, AllocError>
    ensures { IfOk result (λ entries. entries_in F.value entries.items ≡ entries_shown store.now name suffix ([] ∷ [])) }
{
    let mut entries = Vec::new(alloc);
    let t = Tuple::new(alloc);
    add(&mut entries, store, name, suffix, t)?;
    Ok(entries)
}

/// The entries of a name at the tuples with data, or its one entry if it has no indices.
fn looked_at<F: ExactField>(
    alloc: Global,
    store: &Store<F>,
    name: u32,
    suffix: Suffix,
) -> Result<Entries<F>, AllocError>
    ensures { IfOk result (λ entries. entries_in F.value entries.items ≡ entries_shown store.now name suffix (tuples_given store.now name)) }
{
    if is_indexed(store, name) {
        given(alloc, store, name, suffix)
    } else {
        single(alloc, store, name, suffix)
    }
}

/// The entries that an item shows.
fn entries<F: ExactField>(
    alloc: Global,
    store: &Store<F>,
    labels: u32,
    named: Named,
    suffix: Suffix,
    b: &Binding,
) -> Result<Entries<F>, ExecStopOrMemory<F>>
    ensures { Gives F.value (λ entries. entries_in F.value entries.items) result
        (tuples_looked_at labels store.now b.now named suffix and_then λ tuples. Ok (entries_shown store.now named.name suffix tuples)) }
{
    if is_bound(suffix) {
        return bounds(alloc, store, labels, named, suffix, b);
    }
    let entries = looked_at(alloc, store, named.name, suffix)?;
    Ok(entries)
}

/// What is shown of a text.
fn text_shown<F: ExactField>(
    alloc: Global,
    store: &Store<F>,
    word: &Word,
) -> Result<Shown<F>, AllocError>
    ensures { IfOk result (λ one. shown_in F.value one ≡ text_shown store.now word.now) }
{
    let settings = store.settings();
    let text = Vec::from_slice(alloc, word.text.as_slice())?;
    Ok(Shown {
        text: Sequence::new(text),
        name: None,
        kind: SymbolKind::Undeclared,
        suffix: Suffix::None,
        indexed: false,
        entries: Sequence::new(Vec::new(alloc)),
        decimals: settings.decimals,
    })
}

/// What is shown of a symbol that has these entries.
fn symbol_shown<F: ExactField>(
    alloc: Global,
    store: &Store<F>,
    name: u32,
    suffix: Suffix,
    entries: Entries<F>,
) -> Shown<F>
    ensures { shown_in F.value result ≡ symbol_shown store.now name suffix (entries_in F.value entries.items) }
{
    let settings = store.settings();
    let kind = store.kind_of(name);
    let indexed = is_indexed(store, name);
    Shown {
        text: Sequence::new(Vec::new(alloc)),
        name: Some(name),
        kind,
        suffix,
        indexed,
        entries: Sequence::new(entries),
        decimals: settings.decimals,
    }
}

/// What is shown for an item.
fn shown<F: ExactField>(
    alloc: Global,
    store: &Store<F>,
    labels: u32,
    item: &Show,
    b: &Binding,
) -> Result<Shown<F>, ExecStopOrMemory<F>>
    ensures { Gives F.value (shown_in F.value) result (shown_of labels store.now b.now item.now) }
{
    match item {
        Show::Text(word) => {
            let one = text_shown(alloc, store, word)?;
            Ok(one)
        }
        Show::Symbol { named, suffix } => {
            let entries = entries(alloc, store, labels, *named, *suffix, b)?;
            Ok(symbol_shown(alloc, store, named.name, *suffix, entries))
        }
    }
}

/// What is shown for the items of a `display` or an `abort`, in order, in the state as it is.
///
/// `labels` is how many labels the program has: all of them may occur at a position without a set.
/// A stop is `DomainSize` at the first item that shows a bound over more than 16,777,216 elements.
/// GAMS User's Guide, "The Display Statement".
pub(crate) fn all_shown<F: ExactField>(
    alloc: Global,
    store: &Store<F>,
    labels: u32,
    items: &[Show],
    b: &Binding,
) -> Result<Sequence<Shown<F>>, ExecStopOrMemory<F>>
    ensures { Gives F.value (map (shown_in F.value)) result (all_shown labels store.now b.now items.now) }
{
    let mut all = Vec::new(alloc);
    for item in items {
        let one = shown(alloc, store, labels, item, b)?;
        all.push(one)?;
    }
    Ok(Sequence::new(all))
}
