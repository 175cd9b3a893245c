//! Layer 3, state and checks. Tuples of labels in their one order, and sets of tuples as ordered
//! lists.
#![tactic(auto)]

mod laws;
mod line;
mod merge;
mod set;
mod tree;
mod tuple;

pub use laws::limit_laws;
pub use set::TupleSet;
pub use tuple::{MOST_LABELS, Tuple};
