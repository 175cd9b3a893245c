//! Names and words, each with its place in the source.
use crate::sequence::Sequence;
use gms_labels::Place;

/// A name at a place in the source, by its number in the program's table of names.
///
/// In `set i /a/;` it is `i`.
#[derive(Clone, Copy, Debug, PartialEq, Eq)]
pub struct Named {
    /// The place of the name's first character.
    pub at: Place,
    /// The name's number in the program's table of names.
    pub name: u32,
}

/// A word or a text of the source that is used neither as a name nor as a label: its place in the
/// source, and its bytes as they were written, without quotation marks.
///
/// In `solve m using lp minimizing z;` it is `lp`, and in `display "costs", c;` it is `costs`.
#[derive(Debug)]
pub struct Word {
    /// The place in the source at which the word or text begins: that of its opening quotation mark
    /// if it is quoted.
    pub at: Place,
    /// The bytes of the word or text, as they were written in the source, without quotation marks.
    pub text: Sequence<u8>,
}

// Written out, so that it is proved here once, and not in each crate that drops such a value.
impl Drop for Word {
    fn drop(self) {
        let Self { at: _, text: _ } = self;
    }
}
