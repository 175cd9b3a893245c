//! The mode after each piece.
ghost use Rattle.std.specs.Prelude.{◌≡◌, ◌<◌, ◌≤◌, ◌+◌, ◌^◌};
ghost use Rattle.gms_lex.specs.Modes.{list_start, begun_by, after_element, after_plain, after_word, after_item_symbol, after_comma, after_expected_symbol, after_element_symbol, after_stray_paren, after_tail_symbol, after_name_symbol, after_domain_symbol, after_table_symbol, after_list_symbol, after_symbol, after_break, after_token, after_gap, after_line, after_remark, mode_after};
ghost use Rattle.gms_lex.specs.InnerDepths.{depth_of};

use crate::keyword::{Keyword, Shape, keyword_of};
use crate::mode::{Mode, Stage};
use gms_grammar::{Kind, Piece, Sym};

/// Where a list begins, and where it continues after a comma.
fn list_start(shape: Shape) -> Mode
    ensures { result ≡ list_start shape }
{
    match shape {
        Shape::Set | Shape::Parameter => Mode::Element(shape, 0, Stage::Fresh),
        Shape::Scalar | Shape::Model => Mode::Value(shape),
    }
}

/// What a statement keyword begins, or the mode without one.
fn begun_by(keyword: Option<Keyword>, mode: Mode) -> Mode
    ensures { result ≡ begun_by keyword mode }
{
    match keyword {
        Some(Keyword::Declarer(shape)) => Mode::Item(shape),
        Some(Keyword::Table) => Mode::TableName,
        Some(Keyword::Other) => Mode::Code,
        None => mode,
    }
}

/// After a token that follows an element and does not continue it.
fn after_element(shape: Shape, depth: u32) -> Mode
    ensures { result ≡ after_element shape depth }
{
    if depth == 0 {
        Mode::Tail(shape)
    } else {
        Mode::Element(shape, depth, Stage::After)
    }
}

/// After a token that is no symbol, no line end and no keyword.
fn after_plain(mode: Mode) -> Mode
    ensures { result ≡ after_plain mode }
{
    match mode {
        Mode::Element(shape, depth, Stage::Fresh | Stage::Expected) => {
            Mode::Element(shape, depth, Stage::After)
        }
        Mode::Element(shape, depth, Stage::After | Stage::Spaced) => after_element(shape, depth),
        Mode::Value(shape) => Mode::Tail(shape),
        Mode::TableName | Mode::TableTexted | Mode::TableLines => Mode::Code,
        _ => mode,
    }
}

/// After a word: a keyword begins a statement, but not within a domain or a list.
fn after_word(mode: Mode, word: &[u8]) -> Mode
    ensures { result ≡ after_word mode word.now }
{
    let other = match mode {
        Mode::Code | Mode::TableTexted | Mode::TableLines => Mode::Code,
        Mode::Item(shape) => Mode::Named(shape),
        Mode::Rest(shape) => Mode::Rest(shape),
        Mode::TableName => Mode::TableNamed,
        _ => return after_plain(mode),
    };
    begun_by(keyword_of(word), other)
}

/// After a symbol of an item of a declaration, outside its domain and its list.
fn after_item_symbol(shape: Shape, symbol: Sym, mode: Mode) -> Mode
    ensures { result ≡ after_item_symbol shape symbol mode }
{
    match symbol {
        Sym::Slash => list_start(shape),
        Sym::Comma => Mode::Item(shape),
        _ => mode,
    }
}

/// After a comma of a list.
fn after_comma(shape: Shape, depth: u32) -> Mode
    ensures { result ≡ after_comma shape depth }
{
    if depth == 0 {
        list_start(shape)
    } else {
        Mode::Element(shape, depth, Stage::Expected)
    }
}

/// After a symbol where an element is expected.
fn after_expected_symbol(shape: Shape, depth: u32, symbol: Sym) -> Mode
    requires { depth + 1 < 2 ^ 32 }
    ensures { result ≡ after_expected_symbol shape depth symbol }
{
    match symbol {
        Sym::LeftParen => Mode::Element(shape, depth + 1, Stage::Expected),
        Sym::RightParen => Mode::Element(shape, depth.saturating_sub(1), Stage::After),
        Sym::Comma => after_comma(shape, depth),
        Sym::Slash => Mode::Rest(shape),
        _ => Mode::Element(shape, depth, Stage::Expected),
    }
}

/// After a symbol that follows an element.
fn after_element_symbol(shape: Shape, depth: u32, symbol: Sym) -> Mode
    ensures { result ≡ after_element_symbol shape depth symbol }
{
    match symbol {
        Sym::RightParen => Mode::Element(shape, depth.saturating_sub(1), Stage::After),
        Sym::Comma => after_comma(shape, depth),
        Sym::Slash => Mode::Rest(shape),
        Sym::Dot | Sym::DotDot | Sym::Star | Sym::Power => Mode::Element(
            shape,
            depth,
            Stage::Expected,
        ),
        _ => after_element(shape, depth),
    }
}

/// After a closing parenthesis where a text or value has begun.
fn after_stray_paren(shape: Shape) -> Mode
    ensures { result ≡ after_stray_paren shape }
{
    match shape {
        Shape::Set | Shape::Parameter => Mode::Element(shape, 0, Stage::After),
        Shape::Scalar | Shape::Model => Mode::Tail(shape),
    }
}

/// After a symbol where a text or value is expected or has begun.
fn after_tail_symbol(shape: Shape, symbol: Sym) -> Mode
    ensures { result ≡ after_tail_symbol shape symbol }
{
    match symbol {
        Sym::Slash => Mode::Rest(shape),
        Sym::Comma => list_start(shape),
        Sym::RightParen => after_stray_paren(shape),
        _ => Mode::Tail(shape),
    }
}

/// After a symbol of an item's name: its domain begins.
fn after_name_symbol(shape: Shape, symbol: Sym) -> Mode
    ensures { result ≡ after_name_symbol shape symbol }
{
    match symbol {
        Sym::LeftParen => Mode::Domain(shape),
        _ => after_item_symbol(shape, symbol, Mode::Named(shape)),
    }
}

/// After a symbol of a domain: it may end.
fn after_domain_symbol(symbol: Sym, inside: Mode, following: Mode) -> Mode
    ensures { result ≡ after_domain_symbol symbol inside following }
{
    match symbol {
        Sym::RightParen => following,
        _ => inside,
    }
}

/// After a symbol of a table's name: its domain begins.
fn after_table_symbol(symbol: Sym) -> Mode
    ensures { result ≡ after_table_symbol symbol }
{
    match symbol {
        Sym::LeftParen => Mode::TableDomain,
        _ => Mode::Code,
    }
}

/// After a symbol in a list where an element is expected or has begun.
fn after_list_symbol(shape: Shape, depth: u32, stage: Stage, symbol: Sym) -> Mode
    requires { depth + 1 < 2 ^ 32 }
    ensures { result ≡ after_list_symbol shape depth stage symbol }
{
    match stage {
        Stage::Fresh | Stage::Expected => after_expected_symbol(shape, depth, symbol),
        Stage::After | Stage::Spaced => after_element_symbol(shape, depth, symbol),
    }
}

/// After any symbol but `;`.
fn after_symbol(mode: Mode, symbol: Sym) -> Mode
    requires { depth_of mode + 1 < 2 ^ 32 }
    ensures { result ≡ after_symbol mode symbol }
{
    match mode {
        Mode::Item(shape) => Mode::Item(shape),
        Mode::Named(shape) => after_name_symbol(shape, symbol),
        Mode::Domain(shape) => after_domain_symbol(symbol, mode, Mode::Bare(shape)),
        Mode::Bare(shape) | Mode::Rest(shape) => after_item_symbol(shape, symbol, mode),
        Mode::Element(shape, depth, stage) => after_list_symbol(shape, depth, stage, symbol),
        Mode::Value(shape) | Mode::Tail(shape) => after_tail_symbol(shape, symbol),
        Mode::TableNamed => after_table_symbol(symbol),
        Mode::TableDomain => after_domain_symbol(symbol, mode, Mode::TableBare),
        Mode::Code | Mode::TableName | Mode::TableBare | Mode::TableTexted | Mode::TableLines => {
            Mode::Code
        }
    }
}

/// After a line end that is a token: the next item, or the next element of a list.
fn after_break(mode: Mode) -> Mode
    ensures { result ≡ after_break mode }
{
    match mode {
        Mode::Named(shape) | Mode::Bare(shape) | Mode::Rest(shape) => Mode::Item(shape),
        Mode::Element(shape, _, _) | Mode::Tail(shape) => list_start(shape),
        _ => mode,
    }
}

/// After a token; a `;` ends every statement.
fn after_token(mode: Mode, kind: Kind, text: &[u8]) -> Mode
    requires { depth_of mode + 1 < 2 ^ 32 }
    ensures { result ≡ after_token mode kind text.now }
{
    match kind {
        Kind::Symbol(Sym::Semicolon) => Mode::Code,
        Kind::Symbol(symbol) => after_symbol(mode, symbol),
        Kind::Break => after_break(mode),
        Kind::Word => after_word(mode, text),
        Kind::TableLine => mode,
        Kind::Label | Kind::Number | Kind::Text | Kind::End => after_plain(mode),
    }
}

/// After blanks.
fn after_gap(mode: Mode) -> Mode
    ensures { result ≡ after_gap mode }
{
    match mode {
        Mode::Element(shape, depth, Stage::After) => Mode::Element(shape, depth, Stage::Spaced),
        _ => mode,
    }
}

/// After line ends that are no token.
fn after_line(mode: Mode) -> Mode
    ensures { result ≡ after_line mode }
{
    match mode {
        Mode::TableNamed | Mode::TableBare | Mode::TableTexted => Mode::TableLines,
        _ => mode,
    }
}

/// After a descriptive text.
fn after_remark(mode: Mode) -> Mode
    ensures { result ≡ after_remark mode }
{
    match mode {
        Mode::Named(shape) | Mode::Bare(shape) => Mode::Rest(shape),
        Mode::Element(shape, _, _) => Mode::Tail(shape),
        Mode::TableNamed | Mode::TableBare => Mode::TableTexted,
        _ => mode,
    }
}

/// The mode after a piece of these bytes.
pub(crate) fn mode_after(mode: Mode, piece: Piece, text: &[u8]) -> Mode
    requires { depth_of mode + 1 < 2 ^ 32 }
    ensures value { result ≡ mode_after mode piece text.now }
    ensures depth { depth_of result ≤ depth_of mode + 1 }
{
    match piece {
        Piece::Gap => after_gap(mode),
        Piece::LineEnd => after_line(mode),
        Piece::Remark => after_remark(mode),
        Piece::Token(kind) => after_token(mode, kind, text),
    }
}
