//! What a line is: where it ends, its class, and the blocks of comment that it begins and ends.
ghost use Rattle.std.specs.Prelude.{◌≡◌, ◌<◌, ◌≤◌, ◌+◌, not, length, [], ◌∷◌, IfSome, IfNone};
ghost use Rattle.gms_grammar.specs.Lines.{before, is_line_end, content, class_by_column, class_of, first_word, closes, opens, inside_after, is_blank, before_feed, line_length, lines};
ghost use Rattle.std.specs.Str.{str_eq_ignore_ascii_case};
ghost use Rattle.std.specs.List.{prefix_len, list_any};
ghost use Rattle.gms_grammar.specs.ControlWords.{control_words, is_word_among};

/// What a line is: a comment, a control line or code.
#[derive(Clone, Copy)]
pub enum Class {
    /// A line that begins with `*`, or is inside a block of comment.
    Comment,
    /// A line that begins with `$`.
    Control,
    /// Any other line.
    Code,
}

/// The control words that are accepted.
const CONTROL_WORDS: [&str; 10] = [
    "$title",
    "$ontext",
    "$offtext",
    "$offsymxref",
    "$offsymlist",
    "$offlisting",
    "$onlisting",
    "$offupper",
    "$onupper",
    "$eject",
];

/// How many bytes come before the first line feed.
fn before_feed(text: &[u8]) -> usize
    ensures value { result ≡ before_feed text.now }
    ensures within { result ≤ length text.now }
{
    text.iter().take_while(|byte| **byte != b'\n').count()
}

/// How many bytes the first line of a text takes, its line feed included.
pub(crate) fn line_length(text: &[u8]) -> usize
    ensures value { result ≡ line_length text.now }
    ensures within { result ≤ length text.now }
    ensures some { 0 < length text.now → 0 < result }
{
    let before = before_feed(text);
    if before < text.len() {
        before + 1
    } else {
        before
    }
}

/// The first line of a text with its end, and what follows it; nothing where the text is empty.
pub(crate) fn split_line(text: &[u8]) -> Option<(&[u8], &[u8])>
    ensures none { IfNone result (text.now ≡ []) }
    ensures first { IfSome result (λ p. lines text.now ≡ p.0.now ∷ lines p.1.now) }
    ensures whole { IfSome result (λ p. length p.0.now + length p.1.now ≡ length text.now) }
    ensures some { IfSome result (λ p. 0 < length p.0.now) }
{
    if text.is_empty() {
        return None;
    }
    let length = line_length(text);
    Some(text.split_at(length))
}

/// Whether a text begins with a line end: a line feed, or a carriage return right before one.
pub fn is_line_end(text: &[u8]) -> bool
    ensures { result ≡ is_line_end text.now }
{
    matches!(text, [b'\n', ..] | [b'\r', b'\n', ..])
}

/// How many bytes of a text come before its first line end; all bytes, if there is no line end.
pub fn content_length(text: &[u8]) -> usize
    ensures value { result ≡ before is_line_end text.now }
    ensures within { result ≤ length text.now }
{
    let mut count = 0;
    while count < text.len() && !is_line_end(&text[count..]) {
        count += 1;
    }
    count
}

/// A line without its end.
pub(crate) fn content(line: &[u8]) -> &[u8]
    ensures { result.now ≡ content line.now }
{
    &line[..content_length(line)]
}

/// Whether a byte is a space or a tab.
pub fn is_blank(byte: u8) -> bool
    ensures { result ≡ is_blank byte }
{
    byte == b' ' || byte == b'\t'
}

/// The class of a line outside a block of comment.
fn class_by_column(line: &[u8]) -> Class
    ensures { result ≡ class_by_column line.now }
{
    match line {
        [b'*', ..] => Class::Comment,
        [b'$', ..] => Class::Control,
        _ => Class::Code,
    }
}

/// The class of a line, inside a block of comment or outside.
pub(crate) fn class_of(inside: bool, line: &[u8]) -> Class
    ensures { result ≡ class_of inside line.now }
{
    if inside {
        Class::Comment
    } else {
        class_by_column(line)
    }
}

/// The first word of a line, which goes up to a blank.
fn first_word(line: &[u8]) -> &[u8]
    ensures { result.now ≡ first_word line.now }
{
    let content = content(line);
    &content[..word_length(content)]
}

/// How many bytes come before the first blank.
fn word_length(content: &[u8]) -> usize
    ensures { result ≡ prefix_len (λ b. not (is_blank b)) content.now }
{
    content.iter().take_while(|byte| !is_blank(**byte)).count()
}

/// Whether a line ends a block of comment.
pub(crate) fn closes(line: &[u8]) -> bool
    ensures { result ≡ closes line.now }
{
    let prefix = if line.len() < 8 { line } else { &line[..8] };
    prefix.eq_ignore_ascii_case(b"$offtext")
}

/// Whether a line begins a block of comment.
pub(crate) fn opens(inside: bool, line: &[u8]) -> bool
    ensures { result ≡ opens inside line.now }
{
    !inside && first_word(line).eq_ignore_ascii_case(b"$ontext")
}

/// Whether the line after this one is inside a block of comment.
pub(crate) fn inside_after(inside: bool, line: &[u8]) -> bool
    ensures { result ≡ inside_after inside line.now }
{
    if inside {
        !closes(line)
    } else {
        opens(false, line)
    }
}

/// Whether a word equals one of `words`, letter case ignored.
pub fn is_among(word: &[u8], words: &[&str]) -> bool
    ensures { result ≡ list_any (λ other. str_eq_ignore_ascii_case word.now other.now) words.now }
{
    words
        .iter()
        .any(|other| word.eq_ignore_ascii_case(other.as_bytes()))
}

/// Whether the first word of a line is a control word that is accepted.
pub(crate) fn has_control_word(line: &[u8]) -> bool
    ensures { result ≡ is_word_among (first_word line.now) control_words }
{
    is_among(first_word(line), &CONTROL_WORDS)
}
