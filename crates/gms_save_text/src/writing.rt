//! Writing the text of a save: each function appends a piece.
ghost use Rattle.std.specs.Prelude.{◌≡◌, ◌<◌, ◌++◌, ◌∷◌, [], ℕ, true, length, decimal, option_map, codes, OnOk, IfOk};
ghost use Rattle.gq_extended.specs.Meaning.{extended};
ghost use Rattle.gq_text.specs.ExactText.{exact_text};
ghost use Rattle.gms_store.specs.Shown.{attributes_shown};
ghost use Rattle.gms_store.specs.State.{model_with, symbol_at};
ghost use Rattle.gms_save_text.specs.SavedState.{tuple_text, value_text, bound_text, attributes_text, entry_line, entry_lines, saved_line, part, parts_from, switch_text, settings_line, source_text, saved_text};
ghost use Rattle.gms_save_text.specs.Reading.{HasEntriesOfKind, kind_word};

use crate::kinds::kind_word;
use gms_labels::Labels;
use gms_store::{Attributes, Settings, Store, SymbolKind};
use gms_tuple::Tuple;
use gq_extended::Ext;
use gq_field::ExactField;
use gq_text::{Digits, put_exact, put_whole};
use std::alloc::{AllocError, Global};

/// Appends bytes.
fn push(into: &mut Vec<u8>, bytes: &[u8]) -> Result<(), AllocError>
    ensures { OnOk result (into.new.items ≡ into.old.items ++ bytes.now) }
{
    into.extend_from_slice(bytes)
}

/// Appends the digits of a whole number.
fn push_whole(into: &mut Vec<u8>, n: u128) -> Result<(), AllocError>
    ensures { OnOk result (into.new.items ≡ into.old.items ++ decimal n) }
{
    let mut digits = Digits::new();
    put_whole(n, &mut digits);
    push(into, digits.as_bytes())
}

/// Appends an exact number.
fn push_exact<F: ExactField>(into: &mut Vec<u8>, x: F) -> Result<(), AllocError>
    ensures { OnOk result (into.new.items ≡ into.old.items ++ exact_text (F.value x)) }
{
    let mut digits = Digits::new();
    put_exact(x, &mut digits);
    push(into, digits.as_bytes())
}

/// Appends the labels of a tuple.
fn push_tuple(into: &mut Vec<u8>, t: &Tuple) -> Result<(), AllocError>
    ensures { OnOk result (into.new.items ≡ into.old.items ++ tuple_text t.now) }
{
    for label in t.as_slice() {
        push_whole(into, u128::from(*label))?;
        push(into, b" ")?;
    }
    Ok(())
}

/// Appends a value.
fn push_value<F: ExactField>(into: &mut Vec<u8>, x: Ext<F>) -> Result<(), AllocError>
    ensures { OnOk result (into.new.items ≡ into.old.items ++ value_text (extended F.value x)) }
{
    match x {
        Ext::Number(x) => push_exact(into, x),
        Ext::PlusInf => push(into, b"+INF"),
        Ext::MinusInf => push(into, b"-INF"),
        Ext::Na => push(into, b"NA"),
    }
}

/// Appends a bound, or the word for none.
fn push_bound<F: ExactField>(
    into: &mut Vec<u8>,
    none: &[u8],
    x: Option<F>,
) -> Result<(), AllocError>
    ensures { OnOk result (into.new.items ≡ into.old.items ++ bound_text none.now (option_map F.value x)) }
{
    match x {
        Some(x) => push_exact(into, x),
        None => push(into, none),
    }
}

/// Appends the bounds, the level and the marginal of an element.
fn push_attributes<F: ExactField>(into: &mut Vec<u8>, a: Attributes<F>) -> Result<(), AllocError>
    ensures { OnOk result (into.new.items ≡ into.old.items ++ attributes_text (attributes_shown F.value a)) }
{
    push_bound(into, b"-INF", a.lower)?;
    push(into, b" ")?;
    push_bound(into, b"+INF", a.upper)?;
    push(into, b" ")?;
    push_exact(into, a.level)?;
    push(into, b" ")?;
    push_exact(into, a.marginal)
}

/// Appends the line of the entry of a name at a tuple. `place` is the index of the tuple among
/// those with data, by which the entry is found sooner.
pub(crate) fn push_entry<F: ExactField>(
    into: &mut Vec<u8>,
    store: &Store<F>,
    name: u32,
    kind: SymbolKind,
    t: &Tuple,
    place: usize,
) -> Result<(), AllocError>
    requires { HasEntriesOfKind kind (symbol_at store.now name).content }
    ensures { OnOk result (into.new.items ≡ into.old.items ++ entry_line (symbol_at store.now name).content t.now) }
{
    push_tuple(into, t)?;
    match kind {
        SymbolKind::Set => push(into, b".")?,
        SymbolKind::Parameter => push_value(into, store.value_near(name, t, place))?,
        _ => push_attributes(into, store.attributes_near(name, t, place))?,
    }
    push(into, b"\n")
}

/// Appends the lines of the entries of a name.
fn push_entries<F: ExactField>(
    into: &mut Vec<u8>,
    store: &Store<F>,
    name: u32,
    kind: SymbolKind,
) -> Result<(), AllocError>
    requires { HasEntriesOfKind kind (symbol_at store.now name).content }
    ensures { OnOk result (into.new.items ≡ into.old.items ++ entry_lines (symbol_at store.now name).content) }
{
    let given = store.given(name);
    for place in 0..given.len() {
        push_entry(into, store, name, kind, given.get(place), place)?;
    }
    Ok(())
}

/// Appends a word and a name.
fn push_name(into: &mut Vec<u8>, word: &[u8], name: &str) -> Result<(), AllocError>
    ensures { OnOk result (into.new.items ≡ into.old.items ++ (word.now ++ name.now)) }
{
    push(into, word)?;
    push(into, name.as_bytes())
}

/// Appends the line of a model.
fn push_model(into: &mut Vec<u8>, name: &str, statuses: (u8, u8)) -> Result<(), AllocError>
    ensures { OnOk result (into.new.items ≡ into.old.items ++ part name.now (model_with statuses.0 statuses.1)) }
{
    push_name(into, b"model ", name)?;
    push(into, b" ")?;
    push_whole(into, u128::from(statuses.0))?;
    push(into, b" ")?;
    push_whole(into, u128::from(statuses.1))?;
    push(into, b"\n")
}

/// Appends the first line for a name that can have entries: the word for its kind, the name, and
/// the number of its entries.
pub(crate) fn push_head(
    into: &mut Vec<u8>,
    word: &[u8],
    name: &str,
    count: usize,
) -> Result<(), AllocError>
    ensures { OnOk result (into.new.items ≡ into.old.items ++ saved_line (word.now ++ (name.now ++ (codes " " ++ decimal count)))) }
{
    push_name(into, word, name)?;
    push(into, b" ")?;
    push_whole(into, count as u128)?;
    push(into, b"\n")
}

/// Appends the lines for the name of this number.
pub(crate) fn push_part<F: ExactField>(
    into: &mut Vec<u8>,
    store: &Store<F>,
    number: u32,
    name: &str,
) -> Result<(), AllocError>
    ensures { OnOk result (into.new.items ≡ into.old.items ++ part name.now (symbol_at store.now number).content) }
{
    if store.is_alias(number) {
        push_name(into, b"alias ", name)?;
        return push(into, b"\n");
    }
    match store.kind_of(number) {
        SymbolKind::Undeclared => Ok(()),
        SymbolKind::Model => push_model(into, name, store.status(number)),
        kind => {
            push_head(into, kind_word(kind), name, store.given(number).len())?;
            push_entries(into, store, number, kind)
        }
    }
}

/// Appends the parts of all names.
fn push_parts<F: ExactField>(
    into: &mut Vec<u8>,
    store: &Store<F>,
    names: &Labels,
) -> Result<(), AllocError>
    ensures { OnOk result (into.new.items ≡ into.old.items ++ parts_from store.now 0 names.now) }
{
    for number in 0..names.len() {
        push_part(into, store, number, names.text(number))?;
    }
    Ok(())
}

/// Appends a switch.
fn push_switch(into: &mut Vec<u8>, on: bool) -> Result<(), AllocError>
    ensures { OnOk result (into.new.items ≡ into.old.items ++ switch_text on) }
{
    if on {
        push(into, b"on")
    } else {
        push(into, b"off")
    }
}

/// Appends a number and a blank.
fn push_item(into: &mut Vec<u8>, n: u32) -> Result<(), AllocError>
    ensures { OnOk result (into.new.items ≡ into.old.items ++ (decimal n ++ codes " ")) }
{
    push_whole(into, u128::from(n))?;
    push(into, b" ")
}

/// Appends the line of the settings, with the name of the solver in place of its index.
pub(crate) fn push_settings(
    into: &mut Vec<u8>,
    settings: Settings,
    solver: &[u8],
) -> Result<(), AllocError>
    ensures { OnOk result (into.new.items ≡ into.old.items ++ settings_line settings solver.now) }
{
    push(into, b"settings ")?;
    push_item(into, settings.limrow)?;
    push_item(into, settings.limcol)?;
    push_item(into, settings.iterlim)?;
    push_item(into, u32::from(settings.decimals))?;
    push_switch(into, settings.solprint)?;
    push(into, b" ")?;
    push(into, solver)?;
    push(into, b"\n")
}

/// Appends the line with the length of the source.
pub(crate) fn push_source_head(into: &mut Vec<u8>, length: usize) -> Result<(), AllocError>
    ensures { OnOk result (into.new.items ≡ into.old.items ++ saved_line (codes "source " ++ decimal length)) }
{
    push(into, b"source ")?;
    push_whole(into, length as u128)?;
    push(into, b"\n")
}

/// Appends the source, after its length.
fn push_source(into: &mut Vec<u8>, source: &[u8]) -> Result<(), AllocError>
    ensures { OnOk result (into.new.items ≡ into.old.items ++ source_text source.now) }
{
    push_source_head(into, source.len())?;
    push(into, source)?;
    push(into, b"\n")
}

/// The text of the save of the state `store`, for a program with this source and these names;
/// `solver` is the name of the chosen solver.
pub fn text_of<F: ExactField>(
    alloc: Global,
    source: &[u8],
    names: &Labels,
    store: &Store<F>,
    solver: &[u8],
) -> Result<Vec<u8>, AllocError>
    ensures { IfOk result (λ text. text.items ≡ saved_text source.now names.now store.now solver.now) }
{
    let mut text = Vec::new(alloc);
    push(&mut text, b"gams25 save 1\n")?;
    push_source(&mut text, source)?;
    push_settings(&mut text, store.settings(), solver)?;
    push_parts(&mut text, store, names)?;
    push(&mut text, b"end\n")?;
    Ok(text)
}
