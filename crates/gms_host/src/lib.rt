//! Layer 7, outside. The outside as a program accesses it: one input, one output and standard
//! output, by a trait with a written meaning.
#![tactic(auto)]

mod host;
mod memory;
mod real;
mod spool;

pub use host::{Failed, Host};
pub use memory::MemHost;
pub use real::RealHost;
pub use spool::Spool;
