//! The two ways in which a dictionary is stored.
use gq_field::ExactField;
use lp_fraction_dict::ExactDict;
use lp_integer_dict::Whole;

/// How a dictionary is stored.
#[derive(Drop)]
pub(crate) enum Body<F: ExactField> {
    /// By integers over a common denominator for each row, none beyond a bound; and the number of
    /// the next pivot.
    Whole(Whole, u64),
    /// By reduced fractions.
    Exact(ExactDict<F>),
}
