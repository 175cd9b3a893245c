//! Layer 2, source to tree. The lexical grammar of the language, and the grammar of its programs:
//! what each line of a source is, what a text can begin with, and the productions, as data.
#![tactic(auto)]

mod blanking;
mod column;
mod fault;
mod keyword;
mod kind;
mod laws;
mod lexeme;
mod line;
mod line_faults;
mod number;
mod shape;
mod split_fields;
mod symbol;
mod table;
mod terminal;

pub use blanking::{CodeText, code_text};
pub use column::column_after;
pub use fault::{ByteFault, LexError};
pub use keyword::statement_word;
pub use kind::{Kind, Sym};
pub use laws::{derivation_laws, plain_laws, reading_laws};
pub use lexeme::{Lexeme, Misread, Piece};
pub use line::{content_length, is_among, is_blank, is_line_end};
pub use shape::{code_token, label_length, label_token, read_symbol, remark};
pub use split_fields::{Separator, field_length};
pub use table::{table_bytes, table_line};
pub use terminal::Terminal;
