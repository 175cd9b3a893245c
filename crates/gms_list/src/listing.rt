//! A listing: the text so far, its beginning and its end.
ghost use Rattle.std.specs.Prelude.{◌≡◌, [], ◌++◌, codes};
ghost use Rattle.gms_fmt.specs.Columns.{Appends, left_in, right_in};
ghost use Rattle.gms_list.specs.ListingText.{end_text};

use gms_fmt::{left, right};
use std::alloc::{AllocError, Global};
use std::marker::Model;

/// The text so far of a listing (GAMS User's Guide, "GAMS Output").
///
/// A method that appends adds a text at the end; if memory runs out, it adds a prefix of this text.
#[derive(Debug)]
pub struct Listing {
    pub(crate) text: Vec<u8>,
}

// Written out, so that it is proved once, and not in each crate that drops one.
impl Drop for Listing {
    fn drop(self) {
        let Self { text: _ } = self;
    }
}

impl Model for Listing {
    ghost use Rattle.std.specs.Prelude.{List, ℕ};

    ghost Value = { List ℕ };

    ghost view = { λ l. l.text.items };
}

impl Listing {
    /// An empty listing.
    pub fn new(alloc: Global) -> Listing
        ensures { result ≡ [] }
    {
        Listing {
            text: Vec::new(alloc),
        }
    }

    /// Removes the text, so that the listing is empty, and keeps the memory that the text has used.
    pub fn clear(&mut self)
        ensures { self.new ≡ [] }
    {
        self.text.clear();
    }

    /// The bytes of the text so far.
    pub fn bytes(&self) -> &[u8]
        ensures { result.now ≡ self.now }
    {
        self.text.as_slice()
    }

    /// Appends the last line of a listing: the exit status `status`, and `solves`, the number of
    /// solves.
    pub fn close(&mut self, alloc: Global, status: u8, solves: usize) -> Result<(), AllocError>
        ensures { Appends result self.old self.new (end_text status solves) }
    {
        let line = format!(in alloc; "END status {status} solves {solves}\n")?;
        self.push(line.as_str())
    }

    /// Appends bytes.
    pub(crate) fn push_bytes(&mut self, bytes: &[u8]) -> Result<(), AllocError>
        ensures { Appends result self.old self.new bytes.now }
    {
        self.text.extend_from_slice(bytes)
    }

    /// Appends a text.
    pub(crate) fn push(&mut self, text: &str) -> Result<(), AllocError>
        ensures { Appends result self.old self.new text.now }
    {
        self.push_bytes(text.as_bytes())
    }

    /// Appends two blanks and a text, left-aligned in `width` characters.
    pub(crate) fn push_left(
        &mut self,
        alloc: Global,
        text: &str,
        width: usize,
    ) -> Result<(), AllocError>
        ensures { Appends result self.old self.new (codes "  " ++ left_in width text.now) }
    {
        self.push("  ")?;
        left(alloc, text, width, &mut self.text)
    }

    /// Appends a blank and a text, right-aligned in `width` characters.
    pub(crate) fn push_right(
        &mut self,
        alloc: Global,
        text: &str,
        width: usize,
    ) -> Result<(), AllocError>
        ensures { Appends result self.old self.new (codes " " ++ right_in width text.now) }
    {
        self.push(" ")?;
        right(alloc, text, width, &mut self.text)
    }
}
