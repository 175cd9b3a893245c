//! Layer 5, the run. Laws of whole runs: what statements do depends on the names in them; what
//! the runs of accepted programs keep; what a program has that begins with another.
#![tactic(auto)]

mod accepted;
mod extensions;
mod joined;
mod names;

pub use accepted::{element_laws, label_laws, last_laws, linear_laws, run_laws};
pub use extensions::extension_laws;
pub use joined::joint_laws;
pub use names::{frame_laws, value_laws};
