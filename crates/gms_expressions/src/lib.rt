//! Layer 2, source to tree. Expressions, read from tokens.
#![tactic(auto)]

mod chain;
mod constant;
mod fault;
mod grammar;
mod laws;
mod name;
mod node;
mod operand;
mod read;
mod reader;
mod reference;
mod spelling;
mod word;

pub use fault::{SyntaxError, SyntaxFault, SyntaxFaultOrMemory};
pub use laws::valuation_laws;
pub use read::{control, expression, primary, target};
pub use reader::MOST_OPEN;
pub use spelling::{is_minus, suffix_of};
pub use word::{bytes_of, terminal_of};
