//! Why a text was not entered in a table of labels.
ghost use Rattle.std.specs.Prelude.{◌≡◌};
ghost use Rattle.gms_labels.specs.declared.fault.LabelFault.TheVariants.{Memory};

use std::alloc::{AllocError, AllocFailed};
use thiserror::Error;

/// Why a text was not entered in a table of labels.
#[derive(Clone, Copy, Debug, Error)]
pub enum LabelFault {
    /// The text is new, and the table has 65,536 labels, as many as a table may have.
    #[error("over 65,536 labels")]
    Full,
    /// Out of memory: there is no memory for a larger table.
    #[error("out of memory")]
    Memory,
}

impl From<AllocError> for LabelFault {
    ghost from_gives = { λ _ fault. fault ≡ Memory };

    fn from(_error: AllocError) -> LabelFault {
        LabelFault::Memory
    }
}

impl<T: Drop> From<AllocFailed<T>> for LabelFault {
    ghost from_gives = { λ _ fault. fault ≡ Memory };

    fn from(_error: AllocFailed<T>) -> LabelFault {
        LabelFault::Memory
    }
}
