//! Layer 2, source to tree. Programs, read from the bytes of a source.
#![tactic(auto)]

mod act;
mod assign;
mod data;
mod declaration;
mod fault;
mod formula;
mod laws;
mod model;
mod reader;
mod source;
mod spelling;
mod statement;
mod table;

pub use fault::{SourceError, SourceFault, SourceFaultOrMemory};
pub use laws::source_laws;
pub use source::parse;
