//! Layer 1, numbers. Exact numbers over 128 bits, and how they agree with those of the field with
//! 63 bits.
#![tactic(auto)]

mod frac;
mod laws;
mod widths;

pub use frac::Frac;
pub use laws::{add_laws, div_laws, mul_laws, sub_laws};
pub use widths::{narrow, widen};
