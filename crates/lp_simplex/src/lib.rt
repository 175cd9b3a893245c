//! Layer 4, linear programs. From a linear program to its answer, whichever improving variable
//! is chosen; that there are answers; and the turn to Bland's rule over any rule of choice.
#![tactic(auto)]

mod answer;
mod choosing;
mod existence;
mod picking;
mod pivoting;
mod turning;
mod turning_answer;

pub use answer::solve_by;
pub use choosing::Choosing;
pub use existence::{Finding, an_answer};
pub use picking::Picking;
pub use turning_answer::solve_with;
