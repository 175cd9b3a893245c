//! Layer 3, state and checks. The state of a run: what is known of each name of a program.
#![tactic(auto)]

mod attributes;
mod content;
mod declarations;
mod entries;
mod kind;
mod laws;
mod settings;
mod status;
mod store;
mod symbol;
mod values;

pub use attributes::Attributes;
pub use kind::SymbolKind;
pub use laws::{frame_laws, status_laws, write_laws};
pub use settings::Settings;
pub use status::SolveStatus;
pub use store::Store;
