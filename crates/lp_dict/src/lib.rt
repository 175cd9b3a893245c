//! Layer 4, linear programs. The dictionary of the simplex method, over any field: integers while
//! they are small, else fractions.
#![tactic(auto)]

mod body;
mod dict;
mod last;
mod number;
mod reading;
mod turning;

pub use dict::Dict;
