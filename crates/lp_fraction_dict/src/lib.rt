//! Layer 4, linear programs. The dictionary of the simplex method by fractions, sparse and exact,
//! over any field.
#![tactic(auto)]

mod choice;
mod coefficients;
mod dict;
mod exchange;
mod fault;
mod first;
mod last;
mod row;

pub use choice::is_above_zero;
pub use dict::ExactDict;
pub use last::{changes, zeros};
pub use row::{Entry, push_unless_zero};
