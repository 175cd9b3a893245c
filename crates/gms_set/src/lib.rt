//! Layer 3, state and checks. Lists of data: ranges of labels, and the tuples that items give.
#![tactic(auto)]

mod expansion;
mod fault;
mod items;
mod outside;
mod product;
mod ranges;
mod seen;

pub use fault::{SetError, SetFault, SetFaultOrMemory};
pub use items::expand;
pub use ranges::range;
