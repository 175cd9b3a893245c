//! Layer 2, source to tree. Tables of data: numbers under headings and after row labels, each with
//! its entry, or the first fault of the table.
#![tactic(auto)]

mod entry;
mod fault;
mod given;
mod heading;
mod label;
mod number;
mod tables;
mod word;

pub use entry::{Entry, TableLine};
pub use fault::{TableError, TableFault, TableFaultOrMemory};
pub use tables::table;
