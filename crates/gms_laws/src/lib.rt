//! Layer 7, outside. Laws in the subject's words: what the answers of a run state to a planner is
//! true; laws of tokens, expressions, tables, domains, and of the places of names and errors.
#![tactic(auto)]

mod assignments;
mod domains;
mod generated;
mod modes;
mod occurrences;
mod parts;
mod plans;
mod tables;

pub use assignments::assigned_entries;
pub use domains::domain_laws;
pub use generated::generated_models;
pub use modes::{mode_laws, place_laws};
pub use occurrences::{error_places, occurrence_laws};
pub use parts::part_laws;
pub use plans::plan_laws;
pub use tables::table_laws;
