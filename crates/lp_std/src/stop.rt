//! Why a program has no standard form, why a ratio test or a pivot has no result, or why the final
//! dictionary gives no end of the search in terms of the program's rows and columns (`recover`).
ghost use Rattle.std.specs.Prelude.{◌≡◌};
ghost use Rattle.lp_std.specs.declared.stop.Stop.TheVariants.{Limit, Memory};

use lp_core::StepName;
use std::alloc::{AllocError, AllocFailed};
use thiserror::Error;

/// Why a program has no standard form, why a ratio test or a pivot has no result, or why the final
/// dictionary gives no end of the search in terms of the program's rows and columns (`recover`).
#[derive(Clone, Copy, Debug, Error)]
pub enum Stop {
    /// The first step whose result exceeds the field's limit.
    #[error(transparent)]
    Limit(StepName),
    /// The first column, from 0, whose lower bound exceeds its upper bound.
    #[error("the lower bound of column {0} exceeds its upper bound")]
    Crossed(u32),
    /// Out of memory.
    #[error("out of memory")]
    Memory,
}

impl From<AllocError> for Stop {
    ghost from_gives = { λ _ stop. stop ≡ Memory };

    fn from(_error: AllocError) -> Stop {
        Stop::Memory
    }
}

impl<T: Drop> From<AllocFailed<T>> for Stop {
    ghost from_gives = { λ _ stop. stop ≡ Memory };

    fn from(_error: AllocFailed<T>) -> Stop {
        Stop::Memory
    }
}

impl From<StepName> for Stop {
    ghost from_gives = { λ step stop. stop ≡ Limit step };

    fn from(step: StepName) -> Stop {
        Stop::Limit(step)
    }
}
