//! Layer 4, linear programs. No cycling: under Bland's rule no basis repeats. So the pivots end,
//! also if another rule turns to it.
#![tactic(auto)]

mod laws;
mod sets;

pub use laws::{Turning, largest_ends, no_basis_repeats, pivots_end, turns_end};
pub use sets::bound;
