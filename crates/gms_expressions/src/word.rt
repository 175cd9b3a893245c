//! The kinds by which the grammar knows tokens.
ghost use Rattle.std.specs.Prelude.{◌≡◌, ◌≤◌, length};
ghost use Rattle.gms_grammar.specs.Keywords.{kind_among};
ghost use Rattle.gms_expressions.specs.Words.{expression_words, other_words, terminal_of_word, terminal_of_symbol, terminal_of_text, terminal_of};
ghost use Rattle.gms_lex.specs.TokenTexts.{token_text};

use gms_grammar::{Kind, Sym, Terminal, is_among, statement_word};
use gms_lex::Token;

/// How many bytes a quoted label has at most, with its marks.
const MOST_QUOTED_BYTES: usize = 65;

const SUFFIX_WORDS: [&str; 7] = ["lo", "up", "l", "m", "fx", "modelstat", "solvestat"];

const FUNCTION_WORDS: [&str; 21] = [
    "abs", "max", "min", "mod", "sqr", "power", "round", "floor", "ceil", "trunc", "sign", "exp",
    "log", "log10", "sqrt", "sin", "cos", "arctan", "uniform", "normal", "errorf",
];

const ORD_CARD_WORDS: [&str; 2] = ["ord", "card"];

const FOLD_OP_WORDS: [&str; 4] = ["sum", "prod", "smin", "smax"];

const YES_NO_WORDS: [&str; 2] = ["yes", "no"];

const OR_WORDS: [&str; 2] = ["or", "xor"];

const RELATION_WORD_WORDS: [&str; 6] = ["lt", "le", "eq", "ne", "ge", "gt"];

const DIRECTION_WORDS: [&str; 2] = ["minimizing", "maximizing"];

const NOT_IN_PROFILE_WORDS: [&str; 8] = [
    "if", "while", "for", "put", "file", "acronym", "eps", "undf",
];

/// What a word is among the words of expressions.
fn expression_word(word: &[u8]) -> Option<Terminal>
    ensures { result ≡ kind_among word.now expression_words }
{
    if is_among(word, &SUFFIX_WORDS) {
        Some(Terminal::Suffix)
    } else if is_among(word, &FUNCTION_WORDS) {
        Some(Terminal::Function)
    } else if is_among(word, &ORD_CARD_WORDS) {
        Some(Terminal::OrdCard)
    } else if is_among(word, &FOLD_OP_WORDS) {
        Some(Terminal::FoldOp)
    } else if is_among(word, &["inf"]) {
        Some(Terminal::Infinity)
    } else if is_among(word, &["na"]) {
        Some(Terminal::NotAvailable)
    } else if is_among(word, &YES_NO_WORDS) {
        Some(Terminal::YesNo)
    } else if is_among(word, &["not"]) {
        Some(Terminal::Not)
    } else if is_among(word, &["and"]) {
        Some(Terminal::And)
    } else if is_among(word, &OR_WORDS) {
        Some(Terminal::Or)
    } else if is_among(word, &RELATION_WORD_WORDS) {
        Some(Terminal::RelationWord)
    } else {
        None
    }
}

/// What a word is among the words of other parts, and those that the language leaves out.
fn other_word(word: &[u8]) -> Option<Terminal>
    ensures { result ≡ kind_among word.now other_words }
{
    if is_among(word, &["all"]) {
        Some(Terminal::All)
    } else if is_among(word, &["using"]) {
        Some(Terminal::Using)
    } else if is_among(word, &DIRECTION_WORDS) {
        Some(Terminal::Direction)
    } else if is_among(word, &["lp"]) {
        Some(Terminal::Reserved)
    } else if is_among(word, &NOT_IN_PROFILE_WORDS) {
        Some(Terminal::NotInProfile)
    } else {
        None
    }
}

/// What a word is.
#[tactic(auto, unfolding(crate::specs::Words::terminal_of_word))]
fn terminal_of_word(word: &[u8]) -> Terminal
    ensures { result ≡ terminal_of_word word.now }
{
    if let Some(terminal) = statement_word(word) {
        return terminal;
    }
    if let Some(terminal) = expression_word(word) {
        return terminal;
    }
    other_word(word).unwrap_or(Terminal::Name)
}

/// What a symbol is.
fn terminal_of_symbol(symbol: Sym) -> Terminal
    ensures { result ≡ terminal_of_symbol symbol }
{
    match symbol {
        Sym::EqE | Sym::EqL | Sym::EqG | Sym::EqN => Terminal::Sense,
        Sym::Power => Terminal::Power,
        Sym::DotDot => Terminal::DotDot,
        Sym::LessEq | Sym::GreaterEq | Sym::NotEq | Sym::Less | Sym::Greater => Terminal::Relation,
        Sym::PlusPlus | Sym::MinusMinus => Terminal::Circular,
        Sym::Plus | Sym::Minus => Terminal::Sign,
        Sym::Star => Terminal::Star,
        Sym::Slash => Terminal::Slash,
        Sym::Equals => Terminal::Equals,
        Sym::LeftParen => Terminal::LeftParen,
        Sym::RightParen => Terminal::RightParen,
        Sym::Comma => Terminal::Comma,
        Sym::Semicolon => Terminal::Semicolon,
        Sym::Dot => Terminal::Dot,
        Sym::Dollar => Terminal::Dollar,
    }
}

/// The bytes of a token in its source.
pub fn bytes_of<'s>(source: &'s [u8], token: &Token) -> &'s [u8]
    requires ordered { token.now.start ≤ token.now.end }
    requires within { token.now.end ≤ length source.now }
    ensures { result.now ≡ token_text source.now token.now }
{
    &source[token.start as usize..token.end as usize]
}

/// The terminal of the grammar for a token of this kind with these bytes.
pub fn terminal_of(kind: Kind, text: &[u8]) -> Terminal
    ensures { result ≡ terminal_of kind text.now }
{
    match kind {
        Kind::Word => terminal_of_word(text),
        Kind::Label => Terminal::Label,
        Kind::Number => Terminal::Number,
        Kind::Text if text.len() > MOST_QUOTED_BYTES => Terminal::LongText,
        Kind::Text => Terminal::Text,
        Kind::Symbol(symbol) => terminal_of_symbol(symbol),
        Kind::Break => Terminal::Break,
        Kind::TableLine => Terminal::TableLine,
        Kind::End => Terminal::End,
    }
}
