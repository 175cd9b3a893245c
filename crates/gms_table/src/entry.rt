//! What a table is made of, and what it gives.
use gms_ast::Sequence;
use gms_labels::Place;

/// A line of a table as it is in the source, from column 1 up to the end of the line, or up to the
/// `;` that ends the table.
#[derive(Drop)]
pub struct TableLine {
    /// The text of the line without its end. Spaces and tabs separate words outside quoted labels.
    pub text: String,
    /// The number of the line in the source, from 1.
    pub line: u32,
}

/// An entry of a table: a number in a row, under a heading.
///
/// In the table of the lines `       x   y` and `a.b    1` the number 1 is an entry, in the row
/// `a.b` and under the heading `x`.
#[derive(Drop)]
pub struct Entry<F> {
    /// The place in the source at which the number begins, or its sign if it has one.
    pub at: Place,
    /// The labels of the row label, in the order of writing, by their numbers in the table of
    /// labels.
    pub row: Sequence<u32>,
    /// The labels of the heading, in the order of writing, by their numbers in the table of labels.
    pub column: Sequence<u32>,
    /// The number that the table has in this row, under this heading.
    pub value: F,
}
