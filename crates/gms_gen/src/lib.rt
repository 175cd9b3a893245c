//! Layer 7, outside. The generator: the source text of a transport model of any size.
#![tactic(auto)]

mod draws;
mod model;

pub use model::generate;
