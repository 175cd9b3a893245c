//! The first piece of a text, in each mode.
ghost use Rattle.std.specs.Prelude.{◌≡◌, ◌≤◌, ◌<◌, length};
ghost use Rattle.std.specs.List.{prefix_len};
ghost use Rattle.gms_grammar.specs.Lines.{begins, is_blank};
ghost use Rattle.gms_grammar.specs.Shapes.{IsWithinText};
ghost use Rattle.gms_lex.specs.Pieces.{begins_other, space_length, line_end_length, ends_or_begins, passes, line_end, is_item_mark, piece_after_name, piece_after_domain, is_element_mark, begins_value_dot, element_tail, piece_after_label, in_list, token_read, table_piece_of, table_piece, plain_piece, piece_at};

use crate::keyword::{Shape, begins_statement};
use crate::mode::{LineEnds, Mode, Stage, line_ends, passes};
use gms_grammar::{
    Kind, Lexeme, Misread, Piece, code_token, content_length, is_blank, is_line_end, label_token,
    read_symbol, remark, table_bytes, table_line,
};

/// Whether a text begins with a blank.
fn begins_blank(text: &[u8]) -> bool
    ensures { result ≡ begins is_blank text.now }
{
    matches!(text, [b' ' | b'\t', ..])
}

/// How many blanks a text begins with.
fn blank_length(text: &[u8]) -> usize
    ensures value { result ≡ prefix_len is_blank text.now }
    ensures within { result ≤ length text.now }
{
    text.iter().take_while(|byte| is_blank(**byte)).count()
}

/// How many bytes of blanks and line ends a text begins with.
fn space_length(text: &[u8]) -> usize
    ensures value { result ≡ space_length text.now }
    ensures within { result ≤ length text.now }
{
    let mut count = 0;
    while count < text.len() && !begins_other(&text[count..]) {
        count += 1;
    }
    count
}

/// Whether a text begins with neither a blank nor a line end.
fn begins_other(text: &[u8]) -> bool
    ensures { result ≡ begins_other text.now }
{
    !(begins_blank(text) || is_line_end(text))
}

/// A piece of `length` bytes.
fn lexeme(piece: Piece, length: usize) -> Result<Lexeme, Misread>
    ensures { result ≡ Ok record { piece = piece; length = length } }
{
    Ok(Lexeme { piece, length })
}

/// How many bytes one line end takes.
fn line_end_length(text: &[u8]) -> usize
    ensures { result ≡ line_end_length text.now }
{
    if matches!(text, [b'\r', ..]) { 2 } else { 1 }
}

/// Whether a text ends, or continues with a byte before which a line end ends nothing.
fn continues(ends: LineEnds, text: &[u8]) -> bool
    ensures { result ≡ ends_or_begins (passes ends) text.now }
{
    match text.first() {
        None => true,
        Some(byte) => passes(ends, *byte),
    }
}

/// A line end with which a text begins: a token where it ends an item or an element.
fn line_end(ends: LineEnds, text: &[u8]) -> Result<Lexeme, Misread>
    ensures { result ≡ line_end ends text.now }
{
    if matches!(ends, LineEnds::Skipped) {
        return lexeme(Piece::LineEnd, line_end_length(text));
    }
    let space = space_length(text);
    if continues(ends, &text[space..]) {
        lexeme(Piece::LineEnd, space)
    } else {
        lexeme(Piece::Token(Kind::Break), line_end_length(text))
    }
}

/// Whether a byte ends an item, or begins its list.
fn is_item_mark(byte: u8) -> bool
    ensures { result ≡ is_item_mark byte }
{
    matches!(byte, b'/' | b',' | b';')
}

/// The piece after an item's name.
fn piece_after_name(text: &[u8]) -> Result<Lexeme, Misread>
    ensures { result ≡ piece_after_name text.now }
{
    if matches!(text, [byte, ..] if *byte == b'(' || is_item_mark(*byte)) {
        read_symbol(text)
    } else {
        remark(text)
    }
}

/// The piece after an item's domain.
fn piece_after_domain(text: &[u8]) -> Result<Lexeme, Misread>
    ensures { result ≡ piece_after_domain text.now }
{
    if matches!(text, [byte, ..] if is_item_mark(*byte)) {
        read_symbol(text)
    } else {
        remark(text)
    }
}

/// Whether a byte ends an element, or continues it.
fn is_element_mark(byte: u8) -> bool
    ensures { result ≡ is_element_mark byte }
{
    is_item_mark(byte) || matches!(byte, b')' | b'*' | b'.')
}

/// Whether a text begins with an element's mark.
fn begins_element_mark(text: &[u8]) -> bool
    ensures { result ≡ begins is_element_mark text.now }
{
    matches!(text, [byte, ..] if is_element_mark(*byte))
}

/// Whether a dot begins a number: in a parameter's list outside parentheses, after a blank and
/// before a digit.
fn begins_value_dot(shape: Shape, depth: u32, stage: Stage, text: &[u8]) -> bool
    ensures { result ≡ begins_value_dot shape depth stage text.now }
{
    match (shape, stage) {
        (Shape::Parameter, Stage::Spaced) => depth == 0 && matches!(text, [b'.', b'0'..=b'9', ..]),
        _ => false,
    }
}

/// The text or value of an element.
fn element_tail(shape: Shape, text: &[u8]) -> Result<Lexeme, Misread>
    ensures { result ≡ element_tail shape text.now }
{
    match shape {
        Shape::Parameter => code_token(Kind::Label, text),
        Shape::Set | Shape::Scalar | Shape::Model => remark(text),
    }
}

/// The piece after an element of a list.
fn piece_after_label(shape: Shape, depth: u32, stage: Stage, text: &[u8]) -> Result<Lexeme, Misread>
    ensures { result ≡ piece_after_label shape depth stage text.now }
{
    if begins_element_mark(text) && !begins_value_dot(shape, depth, stage, text) {
        read_symbol(text)
    } else if depth == 0 {
        element_tail(shape, text)
    } else {
        label_token(text)
    }
}

/// The piece in a list, by the stage of its element.
fn in_list(shape: Shape, depth: u32, stage: Stage, text: &[u8]) -> Result<Lexeme, Misread>
    ensures { result ≡ in_list shape depth stage text.now }
{
    match stage {
        Stage::Fresh | Stage::Expected => label_token(text),
        Stage::After | Stage::Spaced => piece_after_label(shape, depth, stage, text),
    }
}

/// The piece at a byte that is no blank and no line end.
fn token_at(mode: Mode, text: &[u8]) -> Result<Lexeme, Misread>
    ensures { result ≡ token_read mode text.now }
{
    match mode {
        Mode::Named(_) | Mode::TableNamed => piece_after_name(text),
        Mode::Bare(_) | Mode::TableBare => piece_after_domain(text),
        Mode::Element(shape, depth, stage) => in_list(shape, depth, stage, text),
        Mode::Value(_) | Mode::Tail(_) => code_token(Kind::Label, text),
        _ => code_token(Kind::Text, text),
    }
}

/// The first piece where the lines of a table may continue: blanks, a line of the table, or what
/// ends it.
fn table_piece_of(blanks: usize, bytes: usize, text: &[u8]) -> Result<Lexeme, Misread>
    requires blanks { blanks ≤ length text.now }
    requires bytes { bytes ≤ length text.now }
    ensures { result ≡ table_piece_of blanks bytes text.now }
{
    if blanks > 0 && (bytes <= blanks || begins_statement(&text[blanks..])) {
        lexeme(Piece::Gap, blanks)
    } else if bytes == 0 || begins_statement(text) {
        code_token(Kind::Text, text)
    } else {
        table_line(bytes, text)
    }
}

/// The first piece where the lines of a table may continue.
fn table_piece(text: &[u8]) -> Result<Lexeme, Misread>
    ensures { result ≡ table_piece text.now }
{
    if is_line_end(text) {
        return lexeme(Piece::LineEnd, line_end_length(text));
    }
    let line = &text[..content_length(text)];
    table_piece_of(blank_length(text), table_bytes(line), text)
}

/// The first piece in any other mode.
fn plain_piece(mode: Mode, text: &[u8]) -> Result<Lexeme, Misread>
    ensures { result ≡ plain_piece mode text.now }
{
    if begins_blank(text) {
        lexeme(Piece::Gap, blank_length(text))
    } else if is_line_end(text) {
        line_end(line_ends(mode), text)
    } else {
        token_at(mode, text)
    }
}

/// The first piece of a text, the longest of its mode, or the error instead of one.
pub(crate) fn piece_at(mode: Mode, text: &[u8]) -> Result<Lexeme, Misread>
    ensures value { result ≡ piece_at mode text.now }
    ensures within { IsWithinText text.now result }
{
    match mode {
        Mode::TableLines => table_piece(text),
        _ => plain_piece(mode, text),
    }
}
