//! Layer 6, listing. The text of a listing: the echo, errors, what a run shows, and the last line.
#![tactic(auto)]

mod amounts;
mod echo;
mod equations;
mod errors;
mod events;
mod items;
mod listing;
mod proof;
mod solution;
mod solves;
mod stops;
mod values;
mod words;

pub use listing::Listing;
