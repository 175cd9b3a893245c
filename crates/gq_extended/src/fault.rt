//! Why an operation on extended numbers has no result.
ghost use Rattle.std.specs.Prelude.{◌≡◌};

use gq_field::Limit;
use thiserror::Error;

/// Why an operation on extended numbers has no result.
#[derive(Clone, Copy, Debug, PartialEq, Eq, Error)]
pub enum ExtendedFault {
    /// The result, or a number that is computed on the way to it, exceeds the field's limit.
    #[error("beyond the field's limit")]
    Limit,
    /// The divisor is 0, or 0 is raised to a negative power.
    #[error("division by zero")]
    Divide,
    /// The operation is undefined, such as an infinity minus itself or times 0.
    #[error("an undefined step")]
    Undefined,
    /// The exponent is infinite or NA, is not whole, or exceeds 1,024 in magnitude.
    #[error("an exponent that is not whole or exceeds 1,024")]
    Exponent,
}

impl From<Limit> for ExtendedFault {
    ghost use Rattle.gq_extended.specs.declared.fault.ExtendedFault.TheVariants.{Limit};

    ghost from_gives = { λ _ fault. fault ≡ Limit };

    fn from(_: Limit) -> ExtendedFault {
        ExtendedFault::Limit
    }
}
