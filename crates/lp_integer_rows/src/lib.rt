//! Layer 4, linear programs. The rows of a dictionary as integers over one denominator each, and
//! what an exchange makes of them.
#![tactic(auto)]

mod deferral;
mod exchange;
mod leading;
mod line;
mod marks;
mod parts;

pub use deferral::{forget_zero, raise_at, swap_lines};
pub use exchange::{exchange_lines, plan_lines, reduce_lines};
pub use leading::Leading;
pub use line::{
    Factors, Line, copied_line, magnitude_at, marked_number_at, number_at, reduced_pair, settle,
    within_bound,
};
pub use marks::Marks;
pub use parts::{Part, line_of_parts};
