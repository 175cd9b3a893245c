//! Layer 7, outside. Laws of restarted runs: of a joint program, its run from a save, and the last
//! state of a run.
#![tactic(auto)]

mod laws;

pub use laws::{assigned_laws, fits_laws, restart_laws, valid_laws};
