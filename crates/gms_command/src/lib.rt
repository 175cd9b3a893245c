//! Layer 7, outside. The arguments of the command line, the printed lines, and what is printed of
//! the ranges of the solves of a run.
#![tactic(auto)]

mod command_line;
mod laws;
mod lines;
mod solves;

pub use command_line::{
    Request, Source, closing_line, generated_line, not_shown_line, output_of, range_line,
    ranges_line, read_fault_line, request_of, usage_line,
};
pub use laws::argument_laws;
pub use solves::ranges_text;
