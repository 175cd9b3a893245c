//! The first lexical error of a line.
ghost use Rattle.std.specs.Prelude.{◌≡◌, ◌<◌, ◌≤◌, ◌+◌, ◌^◌, not, length};
ghost use Rattle.std.specs.List.{list_any};
ghost use Rattle.gms_grammar.specs.Lines.{closes, lines};
ghost use Rattle.gms_grammar.specs.LineFaults.{is_control_byte, is_bad, is_unknown_control};
ghost use Rattle.gms_grammar.specs.InnerLineSearch.{good_length, head_error, first_of_line, first_in_line};

use crate::fault::{ByteFault, LexError};
use crate::line::{Class, class_of, closes, content, has_control_word, opens, split_line};

/// How many bytes a line may have, its end not counted.
const LONGEST_LINE: usize = 32_768;

/// Whether a byte is a control character other than tab.
fn is_control_byte(byte: u8) -> bool
    ensures { result ≡ is_control_byte byte }
{
    (byte < 32 && byte != b'\t') || byte == 127
}

/// Whether a line of this class may not contain a byte, whatever surrounds it.
fn is_bad(class: Class, byte: u8) -> bool
    ensures { result ≡ is_bad class byte }
{
    match class {
        Class::Comment | Class::Code => is_control_byte(byte),
        Class::Control => is_control_byte(byte) || byte > 127,
    }
}

/// How many bytes of a line come before its first bad one.
fn good_length(class: Class, content: &[u8]) -> usize
    ensures value { result ≡ good_length class content.now }
    ensures within { result ≤ length content.now }
{
    content
        .iter()
        .take_while(|byte| !is_bad(class, **byte))
        .count()
}

/// Whether a line is a control line whose first word is not accepted.
fn is_unknown(class: Class, line: &[u8]) -> bool
    ensures { result ≡ is_unknown_control class line.now }
{
    match class {
        Class::Control => !has_control_word(line),
        Class::Comment | Class::Code => false,
    }
}

/// Whether a line of the text ends a block of comment.
fn closes_later(text: &[u8]) -> bool
    ensures { result ≡ list_any closes (lines text.now) }
{
    let mut rest = text;
    while let Some((line, others)) = split_line(rest) {
        if closes(line) {
            return true;
        }
        rest = others;
    }
    false
}

/// The least error at a line's first byte, bad bytes apart. The text `others` follows the line.
fn head_error(inside: bool, line: &[u8], others: &[u8]) -> Option<LexError>
    ensures { result ≡ head_error inside line.now (lines others.now) }
{
    if opens(inside, line) && !closes_later(others) {
        Some(LexError::OpenText)
    } else if content(line).len() > LONGEST_LINE {
        Some(LexError::LongLine)
    } else if is_unknown(class_of(inside, line), line) {
        Some(LexError::UnknownControl)
    } else {
        None
    }
}

/// The first error of a line that begins at the byte `start`, of which `good` of `all` bytes come
/// before the first bad one.
fn first_of_line(start: usize, good: usize, all: usize, head: Option<LexError>) -> Option<ByteFault>
    requires { start + good < 2 ^ 64 }
    ensures { result ≡ first_of_line start good all head }
{
    let head = head.map(|error| ByteFault { at: start, error });
    if good == all {
        return head;
    }
    let error = LexError::BadByte;
    if good == 0 {
        return Some(ByteFault { at: start, error });
    }
    head.or(Some(ByteFault {
        at: start + good,
        error,
    }))
}

/// The first error of a line that begins at the byte `start` and is followed by the text `others`.
pub(crate) fn first_in_line(
    start: usize,
    inside: bool,
    line: &[u8],
    others: &[u8],
) -> Option<ByteFault>
    requires { start + length line.now < 2 ^ 64 }
    ensures { result ≡ first_in_line start inside line.now (lines others.now) }
{
    let content = content(line);
    let good = good_length(class_of(inside, line), content);
    let head = head_error(inside, line, others);
    first_of_line(start, good, content.len(), head)
}
