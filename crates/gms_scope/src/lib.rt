//! Layer 3, state and checks. What is known before a statement of a program: what the statements
//! before it declare, define and give.
#![tactic(auto)]

mod data;
mod dynamic;
mod known;
mod marks;
mod model;
mod order;

pub use data::{Data, are_ascending, positions, put_data};
pub use dynamic::{dynamic_sets, mark_statement};
pub use known::Known;
pub use marks::Marks;
