//! Layer 6, listing. Texts of elements, and texts set in columns.
#![tactic(auto)]

mod columns;
mod elements;

pub use columns::{left, right};
pub use elements::{dotted, element, text_of};
