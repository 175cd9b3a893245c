//! Lexical errors, and the bytes at which they occur.
ghost use Rattle.std.specs.Prelude.{◌≡◌};
ghost use Rattle.gms_grammar.specs.Errors.{lex_error_code, lex_error_name};

use thiserror::Error;

/// The kind of a lexical error, named for its cause.
#[derive(Clone, Copy, Debug, Error)]
pub enum LexError {
    /// A byte that cannot occur here: a control character other than tab; a byte above 127 outside
    /// comments and unquoted descriptive texts; in code, a character that begins no token.
    #[error("a byte that cannot occur here")]
    BadByte,
    /// A quotation mark that is not closed on its line.
    #[error("a quotation mark not closed on its line")]
    OpenQuote,
    /// An `$ontext` without `$offtext`.
    #[error("`$ontext` without `$offtext`")]
    OpenText,
    /// A name or a label of over 63 bytes.
    #[error("a name or label of over 63 bytes")]
    LongLabel,
    /// A line of over 32,768 bytes.
    #[error("a line of over 32,768 bytes")]
    LongLine,
    /// A control line whose first word is no control word of this language.
    #[error("an unknown control word")]
    UnknownControl,
}

impl LexError {
    /// The number of this error in a listing.
    pub fn code(self) -> u8
        ensures { result ≡ lex_error_code self }
    {
        match self {
            LexError::BadByte => 1,
            LexError::OpenQuote => 2,
            LexError::OpenText => 3,
            LexError::LongLabel => 4,
            LexError::LongLine => 5,
            LexError::UnknownControl => 6,
        }
    }

    /// The name of this error in a listing.
    pub fn name(self) -> &'static str
        ensures { result.now ≡ lex_error_name self }
    {
        match self {
            LexError::BadByte => "BadByte",
            LexError::OpenQuote => "OpenQuote",
            LexError::OpenText => "OpenText",
            LexError::LongLabel => "LongLabel",
            LexError::LongLine => "LongLine",
            LexError::UnknownControl => "UnknownControl",
        }
    }
}

/// A lexical error, and the byte of the source at which it occurs.
#[derive(Clone, Copy, Debug, Error)]
#[error("byte {at}: {code} {name}: {error}", code = .error.code(), name = .error.name())]
pub struct ByteFault {
    /// The byte at which the error occurs, counted from 0 at the start of the source.
    pub at: usize,
    /// The lexical error, by its cause.
    pub error: LexError,
}
