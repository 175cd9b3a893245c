//! Layer 4, linear programs. The bound of a linear program's objective that dual values give.
#![tactic(auto)]

mod bound;
mod columns;
mod costs;
mod partial;
mod rows;

pub use bound::dual_bound;
