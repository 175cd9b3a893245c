//! Why a text was not read as that of a save.
ghost use Rattle.std.specs.Prelude.{◌≡◌};
ghost use Rattle.gms_save_text.specs.declared.fault.ReadFault.TheVariants.{Memory};

use std::alloc::{AllocError, AllocFailed};
use thiserror::Error;

/// Why no state was read from a text.
#[derive(Clone, Copy, Debug, Error)]
pub enum ReadFault {
    /// Out of memory.
    #[error("out of memory")]
    Memory,
    /// The text is not that of a save.
    #[error("not a saved state's text")]
    Shape,
}

impl From<AllocError> for ReadFault {
    ghost from_gives = { λ _ fault. fault ≡ Memory };

    fn from(_error: AllocError) -> ReadFault {
        ReadFault::Memory
    }
}

impl<T: Drop> From<AllocFailed<T>> for ReadFault {
    ghost from_gives = { λ _ fault. fault ≡ Memory };

    fn from(_error: AllocFailed<T>) -> ReadFault {
        ReadFault::Memory
    }
}
