//! Layer 4, linear programs. A dictionary as integer rows, each over one denominator, with variable
//! 0 deferred.
#![tactic(auto)]

mod apart;
mod bounds;
mod choice;
mod coefficients;
mod laws;
mod pairs;
mod read;
mod step;
mod whole;

pub use laws::{bound_laws, line_laws, reading_laws, turning_laws};
pub use read::Fraction;
pub use whole::Whole;
