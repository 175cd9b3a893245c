//! Layer 5, the run. Rows: the affine forms of equations, and the linear program that a solve
//! means.
#![tactic(auto)]

mod columns;
mod equations;
mod form_row;
mod generation;
mod laws;
mod linear;
mod names;
mod rows;
mod size;
mod steps;
mod variables;

pub use equations::equations_of;
pub use generation::generate;
pub use laws::{form_laws, point_laws, row_laws};
pub use linear::affine;
