//! Whether bytes are the text of a save: the text is written piece by piece and compared with them,
//! and is never whole in memory.
ghost use Rattle.std.specs.Prelude.{◌≡◌, ◌↔◌, ◌++◌, ℕ, List, IsTrue, IfOk, OnOk};
ghost use Rattle.gms_store.specs.State.{symbol_at};
ghost use Rattle.gms_save_text.specs.SavedState.{entry_line, entry_lines, head_line, part, parts_from, saved_text, settings_line, source_text};
ghost use Rattle.gms_save_text.specs.Reading.{HasEntriesOfKind, IsPast, kind_word};

use crate::kinds::kind_word;
use crate::writing::{push_entry, push_head, push_part, push_settings, push_source_head};
use gms_labels::Labels;
use gms_store::{Settings, Store, SymbolKind};
use gms_tuple::Tuple;
use gq_field::ExactField;
use std::alloc::{AllocError, Global};

/// A text of which the first pieces have been compared.
#[derive(Drop)]
struct Comparison<'t> {
    /// The bytes that remain after the pieces so far; `None` if the bytes do not begin with these
    /// pieces.
    left: Option<&'t [u8]>,
    /// The piece that is written and compared next.
    piece: Vec<u8>,
}

/// The bytes after a piece; `None` if they do not begin with it.
fn past<'t>(left: Option<&'t [u8]>, piece: &[u8]) -> Option<&'t [u8]>
    ensures { IsPast piece.now left.entry result }
{
    match left {
        Some(text) => text.strip_prefix(piece),
        None => None,
    }
}

impl<'t> Comparison<'t> {
    /// Goes past the line of an entry of a name at a tuple, which is searched for at a place first.
    fn entry<F: ExactField>(
        &mut self,
        store: &Store<F>,
        name: u32,
        kind: SymbolKind,
        t: &Tuple,
        place: usize,
    ) -> Result<(), AllocError>
        requires { HasEntriesOfKind kind (symbol_at store.now name).content }
        ensures { OnOk result (IsPast (entry_line (symbol_at store.now name).content t.now) self.old.left self.new.left) }
    {
        self.piece.clear();
        push_entry(&mut self.piece, store, name, kind, t, place)?;
        self.left = past(self.left, &self.piece);
        Ok(())
    }

    /// Goes past the lines of the entries of a name.
    fn entries<F: ExactField>(
        &mut self,
        store: &Store<F>,
        name: u32,
        kind: SymbolKind,
    ) -> Result<(), AllocError>
        requires { HasEntriesOfKind kind (symbol_at store.now name).content }
        ensures { OnOk result (IsPast (entry_lines (symbol_at store.now name).content) self.old.left self.new.left) }
    {
        let given = store.given(name);
        for place in 0..given.len() {
            self.entry(store, name, kind, given.get(place), place)?;
        }
        Ok(())
    }

    /// Goes past the first line of the part of a name that has entries.
    fn head<F: ExactField>(
        &mut self,
        store: &Store<F>,
        number: u32,
        name: &str,
        kind: SymbolKind,
    ) -> Result<(), AllocError>
        requires { HasEntriesOfKind kind (symbol_at store.now number).content }
        ensures { OnOk result (IsPast (head_line (kind_word kind) name.now (symbol_at store.now number).content) self.old.left self.new.left) }
    {
        self.piece.clear();
        push_head(
            &mut self.piece,
            kind_word(kind),
            name,
            store.given(number).len(),
        )?;
        self.left = past(self.left, &self.piece);
        Ok(())
    }

    /// Goes past the part of a name, which is written whole.
    fn line<F: ExactField>(
        &mut self,
        store: &Store<F>,
        number: u32,
        name: &str,
    ) -> Result<(), AllocError>
        ensures { OnOk result (IsPast (part name.now (symbol_at store.now number).content) self.old.left self.new.left) }
    {
        self.piece.clear();
        push_part(&mut self.piece, store, number, name)?;
        self.left = past(self.left, &self.piece);
        Ok(())
    }

    /// Goes past the part of a name.
    fn part<F: ExactField>(
        &mut self,
        store: &Store<F>,
        number: u32,
        name: &str,
    ) -> Result<(), AllocError>
        ensures { OnOk result (IsPast (part name.now (symbol_at store.now number).content) self.old.left self.new.left) }
    {
        if store.is_alias(number) {
            return self.line(store, number, name);
        }
        match store.kind_of(number) {
            SymbolKind::Undeclared => self.line(store, number, name),
            SymbolKind::Model => self.line(store, number, name),
            kind => {
                self.head(store, number, name, kind)?;
                self.entries(store, number, kind)
            }
        }
    }

    /// Goes past the parts of all names.
    fn parts<F: ExactField>(&mut self, store: &Store<F>, names: &Labels) -> Result<(), AllocError>
        ensures { OnOk result (IsPast (parts_from store.now 0 names.now) self.old.left self.new.left) }
    {
        for number in 0..names.len() {
            self.part(store, number, names.text(number))?;
        }
        Ok(())
    }

    /// Goes past the source, after its length.
    fn source(&mut self, source: &[u8]) -> Result<(), AllocError>
        ensures { OnOk result (IsPast (source_text source.now) self.old.left self.new.left) }
    {
        self.piece.clear();
        push_source_head(&mut self.piece, source.len())?;
        let following = past(self.left, &self.piece);
        let end = past(following, source);
        self.left = past(end, b"\n");
        Ok(())
    }

    /// Goes past the line of the settings, with the name of the solver.
    fn settings(&mut self, settings: Settings, solver: &[u8]) -> Result<(), AllocError>
        ensures { OnOk result (IsPast (settings_line settings solver.now) self.old.left self.new.left) }
    {
        self.piece.clear();
        push_settings(&mut self.piece, settings, solver)?;
        self.left = past(self.left, &self.piece);
        Ok(())
    }
}

/// Whether `bytes` are the text of the save of the state `store`, for a program with this source
/// and these names; `solver` is the name of the chosen solver.
pub fn is_text_of<F: ExactField>(
    alloc: Global,
    bytes: &[u8],
    source: &[u8],
    names: &Labels,
    store: &Store<F>,
    solver: &[u8],
) -> Result<bool, AllocError>
    ensures { IfOk result (λ same. IsTrue same ↔ (bytes.now ≡ saved_text source.now names.now store.now solver.now)) }
{
    let mut comparison = Comparison {
        left: past(Some(bytes), b"gams25 save 1\n"),
        piece: Vec::new(alloc),
    };
    comparison.source(source)?;
    comparison.settings(store.settings(), solver)?;
    comparison.parts(store, names)?;
    match past(comparison.left, b"end\n") {
        Some(rest) => Ok(rest.is_empty()),
        None => Ok(false),
    }
}
