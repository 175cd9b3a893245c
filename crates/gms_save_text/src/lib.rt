//! Layer 3, state and checks. The text of a saved state: how it is written, and how it is read
//! back.
#![tactic(auto)]

mod comparing;
mod entries;
mod fault;
mod kinds;
mod parts;
mod reading;
mod validity;
mod values;
mod whole;
mod writing;

pub use comparing::is_text_of;
pub use fault::ReadFault;
pub use validity::{are_in_range, has_same_members, is_given_well, is_solver_name};
pub use whole::{read_source, read_state};
pub use writing::text_of;
