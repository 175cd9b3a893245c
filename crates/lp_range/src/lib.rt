//! Layer 4, linear programs. How far a right side or a cost of a solved program may move before its
//! certificate changes.
#![tactic(auto)]

mod costs;
mod interval;
mod laws;
mod reading;
mod replay;
mod rights;

pub use interval::{Interval, Ranges};
pub use laws::{best_with_cost, best_with_right, legal_by_its_pivots, widest_span};
pub use reading::ranges;
