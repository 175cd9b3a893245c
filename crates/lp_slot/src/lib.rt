//! Layer 4, linear programs. The slot for a solver: what each solver of linear programs exposes,
//! and what it answers.
#![tactic(auto)]

mod solver;

pub use solver::{LpSolver, SolverRule};
