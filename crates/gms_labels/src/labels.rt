//! The table of labels.
ghost use Rattle.std.specs.Prelude.{◌≡◌, ◌<◌, ◌≤◌, ◌↔◌, ℕ, List, [], length, slice_get, IsSome, IfSome, IsOk, IfOk, OnOk, OnErr, IsErrOf, IsOkUnless, ◌∷◌, ◌++◌};
ghost use Rattle.gms_labels.specs.Labels.{most_label_bytes, most_labels, place_of, entered, IsFullFor, AreLabels};

use crate::fault::LabelFault;
use crate::folded::Folded;
use crate::seeded::Seeded;
use indexmap::IndexMap;
use std::alloc::Global;
use std::marker::Model;

/// The greatest number of labels of a table.
pub const MOST_LABELS: usize = 65_536;

/// The greatest number of bytes of a label.
pub const MOST_BYTES: usize = 63;

/// A search compares the text with each label if there are at most this many: a hash takes longer.
const FEW: u32 = 16;

/// A table of labels: texts of which no two are the same when letter case is ignored. The number of
/// a label is its position, from 0, in the order in which the labels were entered.
///
/// A label keeps the case in which it was first written. Only the case of ASCII letters is ignored.
/// Among more than 16 labels a search looks up the hash of the table's seed, if it has one, and the
/// text.
pub struct Labels {
    // from each text in lower case to the text as first written
    texts: IndexMap<Folded, String, Seeded>,
}

// Written out, so that it is proved here once, and not in each crate that drops such a value.
impl Drop for Labels {
    fn drop(self) {
        let Self { texts: _ } = self;
    }
}

impl Model for Labels {
    ghost use Rattle.std.specs.Prelude.{List, ℕ};
    ghost use Rattle.gms_labels.specs.Table.{texts_of, IsLabelTable};

    ghost Value = { List (List ℕ) };

    ghost view = { λ l. texts_of l.texts.entries };

    ghost invariant = { λ l. IsLabelTable l.texts.entries };
}

impl Labels {
    /// An empty table that hashes labels without a seed.
    pub fn new(alloc: Global) -> Labels
        ensures { result ≡ [] }
    {
        Labels {
            texts: IndexMap::with_hasher(alloc, Seeded::unseeded()),
        }
    }

    /// An empty table that hashes labels with this seed. If the labels are those of a source, pass
    /// its `source_seed`, so that its author cannot easily choose labels that all have the same
    /// hash.
    pub fn with_seed(alloc: Global, seed: u64) -> Labels
        ensures { result ≡ [] }
    {
        Labels {
            texts: IndexMap::with_hasher(alloc, Seeded::new(seed)),
        }
    }

    /// How many labels there are: at most 65,536. Each has at most 63 bytes, and no two are the
    /// same when letter case is ignored (`labels`).
    pub fn len(&self) -> u32
        ensures len { result ≡ length self.now }
        ensures labels { AreLabels self.now }
    {
        self.texts.len() as u32
    }

    /// The position of `text`, of at most 63 bytes, in the table, from 0, letter case ignored. A
    /// text that is not in the table is new: it is appended.
    ///
    /// The error is `Full` exactly if the text is new and the table has 65,536 labels; any other
    /// error is out of memory. After an error the table is unchanged.
    pub fn enter(&mut self, alloc: Global, text: &str) -> Result<u32, LabelFault>
        requires { length text.now ≤ most_label_bytes }
        // The result is the text's position; that of a new text is the last.
        ensures ok { OnOk result (self.new ≡ entered self.old text.now) }
        ensures place { IfOk result (λ n. place_of self.new text.now ≡ Some n) }

        // No error unless text is new.
        ensures known { IsSome (place_of self.old text.now) → IsOk result }
        ensures full { IsErrOf result LabelFault.Full ↔ IsFullFor self.old text.now }
        ensures err { OnErr result (self.new ≡ self.old) }

        // Positions stay, and so does the invariant: at most 65,536 labels of at most 63 bytes, no
        // two of which are the same when letter case is ignored.
        ensures keeps { (other : List ℕ) (n : ℕ) → place_of self.old other ≡ Some n → place_of self.new other ≡ Some n }
        ensures labels { AreLabels self.new }
    {
        if let Some(place) = self.find(text) {
            return Ok(place);
        }
        let place = self.len();
        if place as usize == MOST_LABELS {
            return Err(LabelFault::Full);
        }
        self.append(alloc, text)?;
        Ok(place)
    }

    /// Enters a new text, if there is space for it.
    fn append(&mut self, alloc: Global, text: &str) -> Result<(), LabelFault>
        requires short { length text.now ≤ most_label_bytes }
        requires new { place_of self.old text.now ≡ None }
        requires within_bound { length self.old < most_labels }
        ensures ok { OnOk result (self.new ≡ self.old ++ text.now ∷ []) }
        ensures err { OnErr result (self.new ≡ self.old) }
        ensures memory { IsOkUnless result LabelFault.Memory }
        ensures labels { OnOk result (AreLabels self.new) }
    {
        let written = String::from_str(alloc, text)?;
        self.texts.insert(Folded::new(text), written)?;
        Ok(())
    }

    /// The position of `text` in the table, from 0, letter case ignored; `None` exactly if the
    /// table does not have it. The text must have at most 63 bytes. `labels` is the invariant of a
    /// table: at most 65,536 labels of at most 63 bytes, no two the same when letter case is
    /// ignored.
    pub fn find(&self, text: &str) -> Option<u32>
        requires { length text.now ≤ most_label_bytes }
        ensures place { result ≡ place_of self.now text.now }
        ensures within { IfSome result (λ n. n < length self.now) }
        ensures labels { AreLabels self.now }
    {
        if self.len() <= FEW {
            return self.find_by_text(text);
        }
        let folded = Folded::new(text);
        let place = self.texts.get_index_of(&folded)?;
        Some(place as u32)
    }

    /// The place of a text, letter case ignored, by comparing it with each label.
    fn find_by_text(&self, text: &str) -> Option<u32>
        ensures { result ≡ place_of self.now text.now }
    {
        for place in 0..self.len() {
            if text.eq_ignore_ascii_case(self.text(place)) {
                return Some(place);
            }
        }
        None
    }

    /// The label at the position `n`, from 0, in the case in which it was first written. The
    /// position is below the number of labels.
    pub fn text(&self, n: u32) -> &str
        requires { n < length self.now }
        ensures value { slice_get self.now n ≡ Some result.now }
        ensures short { length result.now ≤ most_label_bytes }
        ensures place { place_of self.now result.now ≡ Some n }
    {
        self.texts[n as usize].as_str()
    }
}
