//! The words that begin statements.
ghost use Rattle.std.specs.Prelude.{◌≡◌};
ghost use Rattle.gms_lex.specs.Keywords.{keyword_as, keyword_of, begins_statement};

use gms_grammar::{Terminal, label_length, statement_word};

/// A kind of declaration, by what the list between slashes of one of its items contains.
#[derive(Clone, Copy)]
pub enum Shape {
    /// Sets, and also variables and equations: a list has elements with texts.
    Set,
    /// Parameters: a list has elements with values.
    Parameter,
    /// Scalars: a list has one value.
    Scalar,
    /// Models: a list has names.
    Model,
}

/// What follows a keyword that begins a statement: items of a declaration, a table, or code.
#[derive(Clone, Copy)]
pub enum Keyword {
    /// Items of this shape follow.
    Declarer(Shape),
    /// A table follows.
    Table,
    /// Code follows.
    Other,
}

/// What follows a word that begins a statement.
fn keyword_as(word: Terminal) -> Keyword
    ensures { result ≡ keyword_as word }
{
    match word {
        Terminal::Set | Terminal::Variable | Terminal::Equation => Keyword::Declarer(Shape::Set),
        Terminal::Parameter => Keyword::Declarer(Shape::Parameter),
        Terminal::Scalar => Keyword::Declarer(Shape::Scalar),
        Terminal::Model => Keyword::Declarer(Shape::Model),
        Terminal::Table => Keyword::Table,
        _ => Keyword::Other,
    }
}

/// The statement keyword that a word is, letter case ignored.
#[tactic(auto, unfolding(crate::specs::Keywords::keyword_of))]
pub(crate) fn keyword_of(word: &[u8]) -> Option<Keyword>
    ensures { result ≡ keyword_of word.now }
{
    let begun = statement_word(word)?;
    Some(keyword_as(begun))
}

/// Whether a text begins with an unquoted statement keyword that is no part of a label.
pub(crate) fn begins_statement(text: &[u8]) -> bool
    ensures { result ≡ begins_statement text.now }
{
    let length = label_length(text);
    keyword_of(&text[..length]).is_some() && !matches!(&text[length..], [b'.', ..])
}
