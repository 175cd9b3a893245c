//! Why a source has no tokens, and where.
ghost use Rattle.std.specs.Prelude.{◌≡◌};
ghost use Rattle.gms_lex.specs.declared.fault.LexFaultOrMemory.TheVariants.{Memory};

use gms_grammar::LexError;
use gms_labels::Place;
use std::alloc::{AllocError, AllocFailed};
use thiserror::Error;

/// A lexical error and its place.
#[derive(Clone, Copy, Debug, Error)]
#[error("{at}: {code} {name}: {error}", code = .error.code(), name = .error.name())]
pub struct LexFault {
    /// Which lexical error occurs.
    pub error: LexError,
    /// The line and column in the source at which the error occurs.
    pub at: Place,
}

/// A lexical fault of a source, or out of memory.
#[derive(Clone, Copy, Debug, Error)]
pub enum LexFaultOrMemory {
    /// Out of memory.
    #[error("out of memory")]
    Memory,
    /// The source has this fault.
    #[error(transparent)]
    Fault(LexFault),
}

impl From<AllocError> for LexFaultOrMemory {
    ghost from_gives = { λ _ e. e ≡ Memory };

    fn from(_error: AllocError) -> LexFaultOrMemory {
        LexFaultOrMemory::Memory
    }
}

impl<T: Drop> From<AllocFailed<T>> for LexFaultOrMemory {
    ghost from_gives = { λ _ e. e ≡ Memory };

    fn from(_error: AllocFailed<T>) -> LexFaultOrMemory {
        LexFaultOrMemory::Memory
    }
}
