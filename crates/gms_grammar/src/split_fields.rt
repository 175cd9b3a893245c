//! The fields of a text between semicolons, blanks or dots, where labels in quotation marks may
//! contain all of them.
ghost use Rattle.std.specs.Prelude.{◌≡◌, ◌≤◌, ◌&&◌, ◌==◌, length};
ghost use Rattle.std.specs.List.{list_any};
ghost use Rattle.gms_grammar.specs.Bytes.{is_quote};
ghost use Rattle.gms_grammar.specs.SplitFields.{is_separator, state_after_byte, parts, field_bytes};

use crate::line::is_blank;

/// The separator at which a text is split into fields.
#[derive(Clone, Copy)]
pub enum Separator {
    /// A semicolon, after a table.
    Semicolon,
    /// Blanks, between words.
    Blank,
    /// A dot, between labels.
    Dot,
}

/// What a byte of a text may be.
#[derive(Clone, Copy)]
enum SplitState {
    /// The first of a label.
    First,
    /// One of a label in quotation marks, which the next of these marks ends.
    Marked(u8),
    /// Any other.
    Inner,
}

impl Separator {
    /// Whether the byte is one of these.
    fn has(self, byte: u8) -> bool
        ensures { result ≡ is_separator self byte }
    {
        match self {
            Separator::Semicolon => byte == b';',
            Separator::Blank => is_blank(byte),
            Separator::Dot => byte == b'.',
        }
    }

    /// Whether the byte, read in this state, splits a text.
    fn parts(self, split_state: SplitState, byte: u8) -> bool
        ensures { result ≡ parts (is_separator self) split_state byte }
    {
        match split_state {
            SplitState::First | SplitState::Inner => self.has(byte),
            SplitState::Marked(_) => false,
        }
    }
}

/// Whether a byte is a quotation mark that comes again in the rest of its text.
fn opens(byte: u8, rest: &[u8]) -> bool
    ensures { result ≡ (is_quote byte && list_any (λ c. c == byte) rest.now) }
{
    (byte == b'"' || byte == b'\'') && rest.contains(&byte)
}

impl SplitState {
    /// The state after a byte, which the rest of the text follows.
    fn following(self, byte: u8, rest: &[u8]) -> SplitState
        ensures { result ≡ state_after_byte self byte rest.now }
    {
        match self {
            SplitState::First if opens(byte, rest) => SplitState::Marked(byte),
            SplitState::First | SplitState::Inner => {
                if is_blank(byte) || byte == b'.' {
                    SplitState::First
                } else {
                    SplitState::Inner
                }
            }
            SplitState::Marked(mark) if byte == mark => SplitState::Inner,
            SplitState::Marked(mark) => SplitState::Marked(mark),
        }
    }
}

/// How many bytes of a text come before the first separator outside labels in quotation marks; all,
/// if there is none. Such a label begins the text, or follows a blank or a dot, and ends with the
/// next mark like its first, which must exist.
pub fn field_length(separator: Separator, text: &[u8]) -> usize
    ensures value { result ≡ field_bytes (is_separator separator) text.now }
    ensures within { result ≤ length text.now }
{
    let mut split_state = SplitState::First;
    let mut count = 0;
    while count < text.len() && !separator.parts(split_state, text[count]) {
        split_state = split_state.following(text[count], &text[count + 1..]);
        count += 1;
    }
    count
}
