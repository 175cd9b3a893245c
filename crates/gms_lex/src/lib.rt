//! Layer 2, source to tree. Tokens of the whole language: words, labels, numbers, texts and symbols
//! of a source, each with its place, or the first lexical fault of the source.
#![tactic(auto)]

mod fault;
mod keyword;
mod laws;
mod lexer;
mod mode;
mod mode_change;
mod piece;
mod place;
mod token;

pub use fault::{LexFault, LexFaultOrMemory};
pub use gms_grammar::{Kind, LexError, Sym};
pub use laws::{token_laws, token_texts};
pub use lexer::{MOST_BYTES, lex};
pub use token::{Token, unquoted};
