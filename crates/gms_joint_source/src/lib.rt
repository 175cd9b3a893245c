//! Layer 2, source to tree. Joint sources, of a saved source and a file after it: what their
//! tokens, their derivation and their program begin with.
#![tactic(auto)]

mod program_laws;
mod source_laws;

pub use program_laws::joint_program_laws;
pub use source_laws::joint_token_laws;
