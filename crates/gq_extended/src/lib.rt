//! Layer 1, numbers. Extended numbers: exact numbers with a limit, the two infinities and NA, and
//! each step on them.
#![tactic(auto)]

mod extended;
mod fault;
mod laws;
mod order;
mod powers;
mod products;
mod roundings;
mod sums;

pub use extended::Ext;
pub use fault::ExtendedFault;
pub use laws::{number_laws, power_laws, relation_laws, remainder_laws, step_laws};
