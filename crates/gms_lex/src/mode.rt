//! Modes of reading.
ghost use Rattle.std.specs.Prelude.{◌≡◌};
ghost use Rattle.gms_lex.specs.Pieces.{element_line_ends, list_line_ends, line_ends, passes};

use crate::keyword::Shape;

/// Where in an element of a list, such as `plant.market`, the next token is.
#[derive(Clone, Copy)]
pub enum Stage {
    /// An element is expected: the list has begun, or a comma or a line end has ended the one
    /// before.
    Fresh,
    /// A label is expected, after a dot, a star or a parenthesis.
    Expected,
    /// Directly after a label.
    After,
    /// After a label and a blank.
    Spaced,
}

/// Where in a statement the next token is. The mode and the bytes from there on determine the
/// token.
#[derive(Clone, Copy)]
pub enum Mode {
    /// Outside declarations.
    Code,
    /// An item of a declaration is expected.
    Item(Shape),
    /// After an item's name.
    Named(Shape),
    /// In an item's domain.
    Domain(Shape),
    /// After an item's domain.
    Bare(Shape),
    /// After an item's text or list.
    Rest(Shape),
    /// In a list of labels, inside this many parentheses.
    Element(Shape, u32, Stage),
    /// A value or a name of a list is expected.
    Value(Shape),
    /// After an element of a list, in its text or value.
    Tail(Shape),
    /// A table's name is expected.
    TableName,
    /// After a table's name.
    TableNamed,
    /// In a table's domain.
    TableDomain,
    /// After a table's domain.
    TableBare,
    /// After a table's text.
    TableTexted,
    /// Where the lines of a table may continue.
    TableLines,
}

/// What a line end means: nothing, the end of an item of a declaration, or the end of an element of
/// a list.
#[derive(Clone, Copy)]
pub enum LineEnds {
    /// Nothing.
    Skipped,
    /// The line end ends an item of a declaration.
    EndItem,
    /// The line end ends an element of a list.
    EndElement,
}

/// What a line end means in an element of a list that has begun.
fn element_line_ends(depth: u32) -> LineEnds
    ensures { result ≡ element_line_ends depth }
{
    if depth == 0 {
        LineEnds::EndElement
    } else {
        LineEnds::Skipped
    }
}

/// What a line end means in a mode.
pub(crate) fn line_ends(mode: Mode) -> LineEnds
    ensures { result ≡ line_ends mode }
{
    match mode {
        Mode::Named(_) | Mode::Bare(_) | Mode::Rest(_) => LineEnds::EndItem,
        Mode::Element(_, _, Stage::Fresh) => LineEnds::Skipped,
        Mode::Element(_, depth, _) => element_line_ends(depth),
        Mode::Tail(_) => LineEnds::EndElement,
        _ => LineEnds::Skipped,
    }
}

/// Whether a line end before this byte ends nothing.
pub(crate) fn passes(ends: LineEnds, byte: u8) -> bool
    ensures { result ≡ passes ends byte }
{
    match ends {
        LineEnds::EndItem => matches!(byte, b'/' | b',' | b';'),
        LineEnds::EndElement => matches!(byte, b'/' | b','),
        LineEnds::Skipped => true,
    }
}
