//! Layer 1, numbers. The texts of exact numbers: how decimals are read, how numbers are shown, and
//! how a number shown exactly is read back.
#![tactic(auto)]

mod digits;
mod division;
mod exact;
mod fault;
mod laws;
mod literal;
mod parts;
mod read;
mod show;

pub use digits::Digits;
pub use exact::{read_exact, read_whole};
pub use fault::NumberFault;
pub use laws::{limit_laws, reading_laws, showing_laws};
pub use read::read_decimal;
pub use show::{MOST_DECIMALS, put_exact, put_rounded, put_whole};
