//! The limit of the length of a tuple.
ghost use Rattle.std.specs.Prelude.{◌≡◌};

use crate::tuple::MOST_LABELS;

/// `MOST_LABELS`, the greatest number of labels of a tuple, is 10.
pub fn limit_laws()
    ensures { MOST_LABELS ≡ 10 }
{}
