//! Reading the lines of names in a save into a state.
ghost use Rattle.std.specs.Prelude.{◌≡◌, ◌++◌, ◌<◌, ◌≤◌, ◌^◌, ℕ, List, length, codes, decimal, OnOk};
ghost use Rattle.gms_store.specs.State.{Content, State, model_with, symbol_at, with_content, after_statuses};
ghost use Rattle.gms_store.specs.Declarations.{put_at};
ghost use Rattle.gms_save_text.specs.SavedState.{saved_line, part, parts_from};
ghost use Rattle.gms_save_text.specs.Validity.{declared_symbols};
ghost use Rattle.gms_save_text.specs.Reading.{AreReadable, Finds, IsReadablePart, kind_word};

use crate::entries::{Named, read_entries};
use crate::fault::ReadFault;
use crate::kinds::kind_word;
use crate::reading::{byte_before, count_line, strip};
use gms_labels::Labels;
use gms_store::{Store, SymbolKind};
use gq_field::ExactField;
use std::alloc::Global;

/// The text after a word and a name.
fn named_at<'t>(text: &'t [u8], word: &[u8], name: &str) -> Result<&'t [u8], ReadFault>
    ensures { (rest : List ℕ) → text.now ≡ word.now ++ (name.now ++ rest) → Finds result (λ r. r.now ≡ rest) }
{
    let following = strip(text, word)?;
    strip(following, name.as_bytes())
}

/// The number of entries in the first line of the part of a name, and the text after the line.
fn head_at<'t>(text: &'t [u8], word: &[u8], name: &str) -> Result<(usize, &'t [u8]), ReadFault>
    ensures { (n : ℕ) (rest : List ℕ) → n ≤ length rest →
        text.now ≡ saved_line (word.now ++ (name.now ++ (codes " " ++ decimal n))) ++ rest →
        Finds result (λ p. (p.0 ≡ n) × (p.1.now ≡ rest)) }
{
    let following = named_at(text, word, name)?;
    let digits = strip(following, b" ")?;
    count_line(digits)
}

/// Writes the statuses in the line of a model into a state, and answers the text after it.
fn read_statuses<'t, F: ExactField>(
    store: &mut Store<F>,
    model: u32,
    name: &str,
    text: &'t [u8],
) -> Result<&'t [u8], ReadFault>
    ensures statuses { (m s : ℕ) (rest : List ℕ) → m < 2 ^ 8 → s < 2 ^ 8 → text.now ≡ part name.now (model_with m s) ++ rest →
        Finds result (λ r. (r.now ≡ rest) × (store.new ≡ after_statuses store.old model m s)) }
    ensures declared { OnOk result (declared_symbols store.new ≡ declared_symbols store.old) }
{
    let following = named_at(text, b"model ", name)?;
    let digits = strip(following, b" ")?;
    let (status, others) = byte_before(digits, b' ')?;
    let (solver, rest) = byte_before(others, b'\n')?;
    store.put_status(model, status, solver);
    Ok(rest)
}

/// Writes the data of a name, with whose part a text begins, into a state, and answers the text
/// after it.
fn read_part<'t, F: ExactField>(
    alloc: Global,
    store: &mut Store<F>,
    number: u32,
    name: &str,
    text: &'t [u8],
) -> Result<&'t [u8], ReadFault>
    ensures part { (content : Content) (rest : List ℕ) → number < length store.old.symbols →
        IsReadablePart F.limit (symbol_at store.old number) content → text.now ≡ part name.now content ++ rest →
        Finds result (λ r. (r.now ≡ rest) × (store.new ≡ put_at store.old number (with_content (symbol_at store.old number) content))) }
    ensures declared { OnOk result (declared_symbols store.new ≡ declared_symbols store.old) }
{
    if store.is_alias(number) {
        let following = named_at(text, b"alias ", name)?;
        return strip(following, b"\n");
    }
    match store.kind_of(number) {
        SymbolKind::Undeclared => Ok(text),
        SymbolKind::Model => read_statuses(store, number, name, text),
        kind => {
            let (count, lines) = head_at(text, kind_word(kind), name)?;
            let arity = store.domain_of(number).len();
            let named = Named {
                name: number,
                kind,
                arity,
            };
            read_entries(alloc, store, named, count, lines)
        }
    }
}

/// Writes the data of all names, with whose lines the text begins, into a state without data. The
/// result is the text after these lines. `Shape` comes only if the text does not begin with the
/// lines of readable data.
pub(crate) fn read_parts<'t, F: ExactField>(
    alloc: Global,
    store: &mut Store<F>,
    names: &Labels,
    text: &'t [u8],
) -> Result<&'t [u8], ReadFault>
    ensures parts { (state : State) (rest : List ℕ) → length names.now ≡ length store.old.symbols →
        AreReadable F.limit store.old.symbols state.symbols → text.now ≡ parts_from state 0 names.now ++ rest →
        Finds result (λ r. (r.now ≡ rest) × (store.new ≡ record { symbols = state.symbols; settings = store.old.settings })) }
    ensures declared { OnOk result (declared_symbols store.new ≡ declared_symbols store.old) }
{
    let mut left = text;
    for number in 0..names.len() {
        left = read_part(alloc, store, number, names.text(number), left)?;
    }
    Ok(left)
}
