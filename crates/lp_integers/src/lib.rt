//! Layer 4, linear programs. The integers of a row: of one word each while they are small, else of
//! two.
#![tactic(auto)]

mod common;
mod compare;
mod divisor;
mod few;
mod kept;
mod narrow;
mod numbers;
mod products;
mod wide;

pub use common::gcd;
pub use compare::compare_ratios;
pub use narrow::zero_words;
pub use numbers::Numbers;
pub use products::{product_within, sum_within};
pub use wide::{cross_difference, greatest};
