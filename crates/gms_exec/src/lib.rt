//! Layer 5, the run. The execution of statements: what each shows, and the state after it.
#![tactic(auto)]

mod assignment;
mod given;
mod laws;
mod membership;
mod name_domains;
mod options;
mod progress;
mod showing;
mod solving;
mod statement;

pub use laws::{assignment_laws, once_laws, solve_laws};
pub use progress::Progress;
pub use statement::step;
