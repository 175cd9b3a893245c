//! Layer 1, numbers. What exact numbers are, and their laws.
#![tactic(auto)]

mod divisors;
mod fields;
mod names;
mod orders;
mod roundings;
mod totals;

pub use divisors::divisor_laws;
pub use fields::{cancellation_laws, field_laws, quotient_laws};
pub use names::name_laws;
pub use orders::{extreme_laws, monotone_laws, order_laws, sign_laws};
pub use roundings::{ceiling_laws, floor_laws, rounding_laws};
pub use totals::{inner_product_laws, sum_laws};
