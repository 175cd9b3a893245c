//! Layer 4, linear programs. The rule of the largest coefficient, with a turn to Bland's rule after
//! pivots without gain.
#![tactic(auto)]

mod answer;
mod dantzig;
mod largest;
mod laws;

pub use answer::solve_in;
pub use dantzig::Dantzig;
pub use laws::{an_answer, answer_is_legal, one_answer};
