//! Reading the entries of a name into a state.
ghost use Rattle.std.specs.Prelude.{◌≡◌, ◌++◌, ℕ, List, length, flat_map, OnOk};
ghost use Rattle.std.specs.List.{AllByRecursion};
ghost use Rattle.gms_store.specs.State.{Content};
ghost use Rattle.gms_save_text.specs.SavedState.{entry_line};
ghost use Rattle.gms_save_text.specs.Validity.{declared_symbols};
ghost use Rattle.gms_save_text.specs.Reading.{Finds, HasEntriesOfKind, IsReadable, after_entry, filled};

use crate::fault::ReadFault;
use crate::reading::{strip, tuple_at};
use crate::values::{attributes_line, value_line};
use gms_store::{Store, SymbolKind};
use gq_field::ExactField;
use std::alloc::Global;

/// A name whose entries are read from the text of a save.
#[derive(Clone, Copy)]
pub(crate) struct Named {
    /// The number of the name in the program, from 0.
    pub name: u32,
    /// The kind that the program declares the name as.
    pub kind: SymbolKind,
    /// How many positions the name has, that is, how many labels each of its tuples has.
    pub arity: usize,
}

/// Writes the entry in the first line of `text` to the name `named` in `store`. The result is the
/// text after this line. `Shape` occurs only if the line is no valid entry of the name; `Memory` is
/// out of memory.
fn read_entry<'t, F: ExactField>(
    alloc: Global,
    store: &mut Store<F>,
    named: Named,
    text: &'t [u8],
) -> Result<&'t [u8], ReadFault>
    ensures entry { (content : Content) (t rest : List ℕ) → HasEntriesOfKind named.kind content → IsReadable F.limit named.arity content t →
        text.now ≡ entry_line content t ++ rest →
        Finds result (λ r. (r.now ≡ rest) × (store.new ≡ after_entry store.old named.name content t)) }
    ensures declared { OnOk result (declared_symbols store.new ≡ declared_symbols store.old) }
{
    let (tuple, following) = tuple_at(alloc, text, named.arity)?;
    match named.kind {
        SymbolKind::Set => {
            let rest = strip(following, b".\n")?;
            store.set_member(alloc, named.name, &tuple, true)?;
            Ok(rest)
        }
        SymbolKind::Parameter => {
            let (value, rest) = value_line(following)?;
            store.put(alloc, named.name, &tuple, value)?;
            Ok(rest)
        }
        _ => {
            let (attributes, rest) = attributes_line(following)?;
            store.put_attributes(alloc, named.name, &tuple, attributes)?;
            Ok(rest)
        }
    }
}

/// Writes the entries in the first `count` lines of a text to a name in a state. The result is the
/// text after these lines. `Shape` comes only if the lines are not those of readable entries.
pub(crate) fn read_entries<'t, F: ExactField>(
    alloc: Global,
    store: &mut Store<F>,
    named: Named,
    count: usize,
    text: &'t [u8],
) -> Result<&'t [u8], ReadFault>
    ensures entries { (content : Content) (tuples : List (List ℕ)) (rest : List ℕ) → HasEntriesOfKind named.kind content →
        AllByRecursion (IsReadable F.limit named.arity content) tuples → length tuples ≡ count →
        text.now ≡ flat_map (entry_line content) tuples ++ rest →
        Finds result (λ r. (r.now ≡ rest) × (store.new ≡ filled store.old named.name content tuples)) }
    ensures declared { OnOk result (declared_symbols store.new ≡ declared_symbols store.old) }
{
    let mut left = text;
    for _entry in 0..count {
        left = read_entry(alloc, store, named, left)?;
    }
    Ok(left)
}
