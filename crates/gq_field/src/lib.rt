//! Layer 1, numbers. Exact numbers with a limit: fields of fractions whose numerators and
//! denominators fit, and what a step that does not fit answers.
#![tactic(auto)]

mod compare;
mod divisor;
mod field;
mod fraction;
mod half;
mod product;
mod rounding;
mod sum;
mod tiny;

pub use divisor::gcd_of_words;
pub use field::{ExactField, Limit};
pub use fraction::Fraction;
pub use half::Half;
pub use tiny::Tiny;
