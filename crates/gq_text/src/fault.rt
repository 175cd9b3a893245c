//! Why a text was not read as a number.
ghost use Rattle.std.specs.Prelude.{◌≡◌};
ghost use Rattle.gq_text.specs.Faults.{fault_code};

use gq_field::Limit;
use thiserror::Error;

/// Why a text was not read as a number.
#[derive(Clone, Copy, Debug, Error)]
pub enum NumberFault {
    /// The text is not a number.
    #[error("not a number")]
    Shape,
    /// The text means a number that does not fit under the field's limit as a literal.
    #[error("beyond the field's limit")]
    Limit,
}

impl NumberFault {
    /// The number of the fault: 1 for `Shape`, 2 for `Limit`.
    pub fn code(self) -> u8
        ensures { result ≡ fault_code self }
    {
        match self {
            NumberFault::Shape => 1,
            NumberFault::Limit => 2,
        }
    }
}

impl From<Limit> for NumberFault {
    ghost use Rattle.gq_text.specs.declared.fault.NumberFault.TheVariants.{Limit};

    ghost from_gives = { λ _ fault. fault ≡ Limit };

    fn from(_limit: Limit) -> NumberFault {
        NumberFault::Limit
    }
}
