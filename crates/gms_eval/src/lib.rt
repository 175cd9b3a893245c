//! Layer 5, the run. The values of expressions over the state of a run, conditions, and the domains
//! of folds and loops.
#![tactic(auto)]

mod binding;
mod elements;
mod expressions;
mod functions;
mod indices;
mod leading;
mod references;
mod steps;
mod stop;
mod traversals;

pub use binding::Binding;
pub use expressions::{all_hold, domain, domain_over, holds, signed_chain, tuple_of, value};
pub use steps::Signed;
pub use stop::{ExecStop, ExecStopOrMemory, StopKind, taken};
