//! Layer 7, outside. The top call: a run of `gams25` from the arguments of its command line to the
//! bytes of its listing.
#![tactic(auto)]

mod closing;
mod execution;
mod laws;
mod outlet;
mod report;
mod restart;
mod script;
mod status;
mod top_call;
mod transfer;

pub use laws::{answer_laws, run_laws, save_laws};
pub use status::Status;
pub use top_call::{Ended, run};
