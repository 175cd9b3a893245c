//! Layer 4, linear programs. Bland's rule: from a linear program to an answer with its certificate.
#![tactic(auto)]

mod answer;
mod bland;
mod laws;

pub use answer::{Least, solve_in};
pub use bland::Bland;
pub use laws::{an_answer, answers_over_numbers, one_answer, wide_answers};
pub use lp_width::{narrow_lp, widen_answer};
