//! Tokens, their places, and their texts.
ghost use Rattle.std.specs.Prelude.{◌≡◌};
ghost use Rattle.gms_lex.specs.TokenTexts.{unquoted};

use gms_grammar::Kind;
use gms_labels::Place;

/// A token: what it is, which bytes of the source it takes, and its place.
#[derive(Clone, Copy)]
pub struct Token {
    /// The kind of the token, such as a word, a number or a symbol.
    pub kind: Kind,
    /// The offset in the source at which the token begins, from 0.
    pub start: u32,
    /// The offset in the source just after the token, from 0.
    pub end: u32,
    /// The line and column in the source at which the token begins.
    pub at: Place,
}

/// The text of a token without its quotation marks (GAMS User's Guide, "Language Items", quoted
/// labels and texts). If `text` begins with `"` or `'`, its first byte and its last byte are
/// removed; of one byte nothing remains. Any other text is returned whole.
pub fn unquoted(text: &[u8]) -> &[u8]
    ensures { result.now ≡ unquoted text.now }
{
    match text.split_first() {
        Some((b'"' | b'\'', rest)) => &rest[..rest.len().saturating_sub(1)],
        _ => text,
    }
}
