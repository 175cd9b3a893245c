//! What tokens and texts a text can begin with, each the longest.
ghost use Rattle.std.specs.Prelude.{◌≡◌, ◌≤◌, ◌<◌, ◌+◌, ◌^◌, length};
ghost use Rattle.std.specs.List.{prefix_len};
ghost use Rattle.std.specs.Char.{is_ascii_alphabetic, is_ascii_alphanumeric};
ghost use Rattle.gms_grammar.specs.Lines.{begins};
ghost use Rattle.gms_grammar.specs.Bytes.{is_name_byte, is_label_byte, is_quote, is_text_byte, is_ascii};
ghost use Rattle.gms_grammar.specs.Shapes.{bounded, symbol, quoted_length, is_closed, is_label, quoted_of, quoted, code_token, label_token, remark_of, remark};

use crate::fault::LexError;
use crate::kind::Kind;
use crate::lexeme::{Lexeme, Misread, Piece};
use crate::number::{begins_number, number_length};
use crate::symbol::symbol_at;

/// How many bytes a name or a label may have, quotation marks not counted.
const LONGEST_LABEL: usize = 63;

/// Whether a name may continue with the byte.
fn is_name_byte(byte: u8) -> bool
    ensures { result ≡ is_name_byte byte }
{
    byte.is_ascii_alphanumeric() || byte == b'_'
}

/// How many bytes the name takes with which a text begins.
fn name_length(text: &[u8]) -> usize
    ensures { result ≡ prefix_len is_name_byte text.now }
{
    text.iter().take_while(|byte| is_name_byte(**byte)).count()
}

/// Whether a label may continue with the byte.
fn is_label_byte(byte: u8) -> bool
    ensures { result ≡ is_label_byte byte }
{
    byte.is_ascii_alphanumeric() || matches!(byte, b'+' | b'-' | b'_')
}

/// The length in bytes of the longest prefix of a text in which each byte may occur in an unquoted
/// label: a letter, a digit, `+`, `-` or `_`.
pub fn label_length(text: &[u8]) -> usize
    ensures value { result ≡ prefix_len is_label_byte text.now }
    ensures within { result ≤ length text.now }
{
    text.iter().take_while(|byte| is_label_byte(**byte)).count()
}

/// How many bytes of ASCII a text begins with.
pub(crate) fn plain_length(text: &[u8]) -> usize
    ensures { result ≡ prefix_len is_ascii text.now }
{
    text.iter().take_while(|byte| **byte <= 127).count()
}

/// Whether an unquoted descriptive text may continue with the byte.
fn is_text_byte(byte: u8) -> bool
    ensures { result ≡ is_text_byte byte }
{
    !matches!(byte, b'/' | b',' | b';' | b'\n' | b'\r')
}

/// How many bytes an unquoted descriptive text takes.
fn text_length(text: &[u8]) -> usize
    ensures { result ≡ prefix_len is_text_byte text.now }
{
    text.iter().take_while(|byte| is_text_byte(**byte)).count()
}

/// Whether a text begins with a letter.
fn begins_letter(text: &[u8]) -> bool
    ensures { result ≡ begins is_ascii_alphabetic text.now }
{
    matches!(text, [byte, ..] if byte.is_ascii_alphabetic())
}

/// Whether a text begins with a letter or a digit.
fn begins_label(text: &[u8]) -> bool
    ensures { result ≡ begins is_ascii_alphanumeric text.now }
{
    matches!(text, [byte, ..] if byte.is_ascii_alphanumeric())
}

/// Whether a text begins with a quotation mark.
fn begins_quote(text: &[u8]) -> bool
    ensures { result ≡ begins is_quote text.now }
{
    matches!(text, [b'"' | b'\'', ..])
}

/// A word or a label of `length` bytes.
fn bounded(kind: Kind, length: usize) -> Result<Lexeme, Misread>
    ensures { result ≡ bounded kind length }
{
    if length > LONGEST_LABEL {
        return Err(Misread {
            error: LexError::LongLabel,
            ahead: 0,
        });
    }
    Ok(Lexeme {
        piece: Piece::Token(kind),
        length,
    })
}

/// The longest symbol, an operator or a delimiter, with which a text begins. The error `BadByte`
/// comes if the text begins with no symbol.
pub fn read_symbol(text: &[u8]) -> Result<Lexeme, Misread>
    ensures { result ≡ symbol text.now }
{
    match symbol_at(text) {
        Some((length, sym)) => Ok(Lexeme {
            piece: Piece::Token(Kind::Symbol(sym)),
            length,
        }),
        None => Err(Misread {
            error: LexError::BadByte,
            ahead: 0,
        }),
    }
}

/// How many bytes come before the closing mark, or the line feed.
fn quoted_length(mark: u8, text: &[u8]) -> usize
    ensures value { result ≡ quoted_length mark text.now }
    ensures within { result ≤ length text.now }
{
    text.iter()
        .take_while(|byte| **byte != mark && **byte != b'\n')
        .count()
}

/// Whether the mark comes again on its line.
fn is_closed(mark: u8, text: &[u8]) -> bool
    ensures { result ≡ is_closed mark text.now }
{
    let rest = &text[quoted_length(mark, text)..];
    matches!(rest, [byte, ..] if *byte == mark)
}

/// The quoted piece of `inner` bytes between its marks, of which the first `plain` are ASCII.
fn quoted_of(piece: Piece, closed: bool, inner: usize, plain: usize) -> Result<Lexeme, Misread>
    requires { inner + 2 < 2 ^ 64 }
    ensures { result ≡ quoted_of piece closed inner plain }
{
    let is_label = matches!(piece, Piece::Token(Kind::Label));
    let (error, ahead) = if !closed {
        (LexError::OpenQuote, 0)
    } else if is_label && inner > LONGEST_LABEL {
        (LexError::LongLabel, 0)
    } else if plain < inner {
        (LexError::BadByte, 1 + plain)
    } else {
        return Ok(Lexeme {
            piece,
            length: inner + 2,
        });
    };
    Err(Misread { error, ahead })
}

/// The quoted piece with which a text begins.
///
/// `OpenQuote` if its mark does not occur again on the line, `LongLabel` if it is a label of over
/// 63 bytes, and `BadByte` at the first of its bytes above 127.
fn quoted(piece: Piece, text: &[u8]) -> Result<Lexeme, Misread>
    ensures { result ≡ quoted piece text.now }
{
    let Some((mark, rest)) = text.split_first() else {
        return Err(Misread {
            error: LexError::BadByte,
            ahead: 0,
        });
    };
    let inner = quoted_length(*mark, rest);
    let plain = plain_length(&rest[..inner]);
    quoted_of(piece, is_closed(*mark, rest), inner, plain)
}

/// The token with which a text begins where no list element is expected: a word, a number, a quoted
/// token, or a symbol (an operator or a delimiter). `kind` is the kind of a quoted token: a label,
/// or a text.
///
/// A quoted token has the first of these errors: `OpenQuote` at its first mark if this does not
/// recur on the line; `LongLabel` at this mark if a label has over 63 bytes between its marks;
/// `BadByte` at its first byte above 127. Other errors are `LongLabel` at a word of over 63 bytes,
/// and `BadByte` where no token begins.
pub fn code_token(kind: Kind, text: &[u8]) -> Result<Lexeme, Misread>
    ensures { result ≡ code_token kind text.now }
{
    if begins_letter(text) {
        return bounded(Kind::Word, name_length(text));
    }
    if begins_number(text) {
        return Ok(Lexeme {
            piece: Piece::Token(Kind::Number),
            length: number_length(text),
        });
    }
    if begins_quote(text) {
        return quoted(Piece::Token(kind), text);
    }
    read_symbol(text)
}

/// The token with which a text begins where an element of a list is expected: a label, unquoted or
/// quoted, or a symbol (an operator or a delimiter).
///
/// A quoted label has the first of these errors: `OpenQuote` at its first mark if this does not
/// recur on the line; `LongLabel` at this mark if over 63 bytes are between the marks; `BadByte` at
/// its first byte above 127. Other errors are `LongLabel` at an unquoted label of over 63 bytes,
/// and `BadByte` where no token begins.
pub fn label_token(text: &[u8]) -> Result<Lexeme, Misread>
    ensures { result ≡ label_token text.now }
{
    if begins_label(text) {
        return bounded(Kind::Label, label_length(text));
    }
    if begins_quote(text) {
        return quoted(Piece::Token(Kind::Label), text);
    }
    read_symbol(text)
}

/// The descriptive text with which `text` begins. A quoted one ends with the next mark like its
/// first; an unquoted one ends before the first `/`, `,` or `;`, or at the end of the line.
///
/// A quoted one has the error `OpenQuote` at its first mark if this does not recur on the line,
/// else `BadByte` at its first byte above 127. An unquoted one has only `BadByte`, if it is empty.
pub fn remark(text: &[u8]) -> Result<Lexeme, Misread>
    ensures { result ≡ remark text.now }
{
    if begins_quote(text) {
        return quoted(Piece::Remark, text);
    }
    let length = text_length(text);
    if length == 0 {
        return Err(Misread {
            error: LexError::BadByte,
            ahead: 0,
        });
    }
    Ok(Lexeme {
        piece: Piece::Remark,
        length,
    })
}
