//! Layer 3, state and checks. The check of a program: its compile errors, and the state in which an
//! accepted program begins.
#![tactic(auto)]

mod checker;
mod contexts;
mod control;
mod controlled;
mod declaration;
mod error;
mod expression;
mod indices;
mod kinds;
mod laws;
mod loading;
mod option;
mod reference;
mod solving;
mod statement;
mod target;

pub use checker::{check, found_errors, names_of, statement_errors};
pub use error::{CompileError, ErrorKind};
pub use laws::{checked_laws, left_laws, load_laws, reference_laws};
pub use loading::load;
