//! Places in a source.

use std::fmt;

/// A place in a source: its line and its column, each counted from 1.
///
/// A column counts bytes; after a tab comes the next column that is one more than a multiple of 8.
/// In `set i /a/;` the name `i` is at line 1 and column 5, which is shown as `1:5`.
#[derive(Clone, Copy, Debug, PartialEq, Eq)]
pub struct Place {
    /// The number of the line in the source, from 1.
    pub line: u32,
    /// The column in the line, from 1. It counts bytes; after a tab comes the next column that is
    /// one more than a multiple of 8.
    pub column: u32,
}

impl fmt::Display for Place {
    fn fmt<W: fmt::Write>(&self, f: &mut fmt::Formatter<W>) -> fmt::Result {
        write!(f, "{}:{}", self.line, self.column)
    }
}
