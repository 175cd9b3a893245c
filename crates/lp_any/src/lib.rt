//! Layer 4, linear programs. Rules that weigh the improving variables, and steepest edge over the
//! rows that limit them; and several rules in turn: the first answer that is not Refused.
#![tactic(auto)]

mod answer;
mod any;
mod common;
mod costs;
mod leaders;
mod limiting;
mod measures;
mod members;
mod shuffles;
mod size;
mod steepest;
mod steepest_answer;
mod weighing;

pub use answer::solve_in;
pub use any::Any;
pub use members::{Member, answer_of};
pub use steepest::Steepest;
