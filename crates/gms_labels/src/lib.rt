//! Layer 2, source to tree. Tables of labels: distinct texts in the order of their first
//! appearance, letter case ignored; and places in a source.
#![tactic(auto)]

mod fault;
mod folded;
mod labels;
mod laws;
mod place;
mod seeded;

pub use fault::LabelFault;
pub use labels::{Labels, MOST_BYTES, MOST_LABELS};
pub use laws::limit_laws;
pub use place::Place;
pub use seeded::source_seed;
