//! Layer 4, linear programs. Linear programs in standard form, and the recovery: from a final
//! dictionary to an answer of the program.
#![tactic(auto)]

mod bounds;
mod duals;
mod form;
mod laws;
mod levels;
mod recovery;
mod rows;
mod stop;
mod types;

pub use form::standard;
pub use laws::same_points;
pub use recovery::recover;
pub use stop::Stop;
pub use types::{Final, Origin, Shift, Standard, StdRow};
