//! Layer 4, linear programs. Programs in numbers of 63 bits instead of 127, and their answers in
//! 127 bits again.
#![tactic(auto)]

mod narrow;
mod widen;

pub use narrow::narrow_lp;
pub use widen::widen_answer;
