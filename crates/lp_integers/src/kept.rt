//! The storage of a row's integers: only those that are not 0, or all, in one word each or in two.

use crate::few::Few;

/// How integers are stored.
#[derive(Drop)]
pub(crate) enum Kept {
    /// Only those that are not 0, of one word each; their magnitudes have at most 63 bits.
    Few(Few),
    /// In one word each; their magnitudes have at most 63 bits.
    Narrow(Vec<i64>),
    /// In two words each.
    Wide(Vec<i128>),
}
