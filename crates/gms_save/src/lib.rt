//! Layer 7, outside. Saving the state of a run, restoring it, and resuming from it.
#![tactic(auto)]

mod fault;
mod joint;
mod laws;
mod restart;
mod restoring;
mod saved;
mod solvers;

pub use fault::{SaveFault, SaveFaultOrMemory};
pub use joint::{joint_errors, resume};
pub use laws::view_laws;
pub use restoring::{MOST_BYTES, restore, save};
pub use saved::Saved;
