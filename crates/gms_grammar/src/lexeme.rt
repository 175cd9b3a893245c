//! The piece at the start of a text, and how many bytes it takes.
use crate::fault::LexError;
use crate::kind::Kind;

/// The kind of a piece of a source: blanks, line ends, a descriptive text or a token.
#[derive(Clone, Copy)]
pub enum Piece {
    /// Blanks.
    Gap,
    /// Line ends that are no tokens, with what is blank between them.
    LineEnd,
    /// A descriptive text.
    Remark,
    /// A token.
    Token(Kind),
}

/// The piece with which a text begins (a token, blanks, line ends or a descriptive text): its kind,
/// and how many bytes it has.
#[derive(Clone, Copy)]
pub struct Lexeme {
    /// The kind of the text's first piece, such as a token.
    pub piece: Piece,
    /// The length in bytes of the token, the blanks, the line ends or the descriptive text with
    /// which the text begins.
    pub length: usize,
}

/// Why neither a token nor blanks, line ends or a descriptive text can be read at the start of a
/// text, and where the error is.
#[derive(Clone, Copy)]
pub struct Misread {
    /// The lexical error, by its cause.
    pub error: LexError,
    /// How many bytes of the text precede the error.
    pub ahead: usize,
}
