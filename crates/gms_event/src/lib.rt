//! Layer 5, the run. Events: what a run shows, statement by statement.
#![tactic(auto)]

mod ending;
mod event;

pub use ending::solve_status;
pub use event::{Event, Shown};
