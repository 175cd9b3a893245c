//! Why a data list has no tuples, and where.
ghost use Rattle.std.specs.Prelude.{◌≡◌};
ghost use Rattle.gms_set.specs.Faults.{set_error_code, set_error_name};
ghost use Rattle.gms_set.specs.declared.fault.SetFaultOrMemory.TheVariants.{Memory};

use gms_labels::Place;
use std::alloc::{AllocError, AllocFailed};
use thiserror::Error;

/// Why a data list is refused: the error of one of its items.
#[derive(Clone, Copy, Debug, Error)]
pub enum SetError {
    /// Two labels that are not a range, as `a3*a1`.
    #[error("not a range")]
    BadRange,
    /// An element that is given twice.
    #[error("an element given twice")]
    Repeated,
    /// A label outside the set of its position.
    #[error("a label outside its position's set")]
    Outside,
    /// The element after the 1,048,576th.
    #[error("over 1,048,576 elements")]
    Full,
}

impl SetError {
    /// The number of this error in a message.
    pub fn code(self) -> u8
        ensures { result ≡ set_error_code self }
    {
        match self {
            SetError::BadRange => 1,
            SetError::Repeated => 2,
            SetError::Outside => 3,
            SetError::Full => 4,
        }
    }

    /// The name of this error in a message.
    pub fn name(self) -> &'static str
        ensures { result.now ≡ set_error_name self }
    {
        match self {
            SetError::BadRange => "BadRange",
            SetError::Repeated => "Repeated",
            SetError::Outside => "Outside",
            SetError::Full => "Full",
        }
    }
}

/// An error of a data list and the place of the item with the error. An error of the function
/// `range` of this crate has line 0 and column 0.
#[derive(Clone, Copy, Debug, Error)]
#[error("{at}: {code} {name}: {error}", code = .error.code(), name = .error.name())]
pub struct SetFault {
    /// Which error it is.
    pub error: SetError,
    /// The place of the item with the error; line 0 and column 0 if the error is of the function
    /// `range`, which reads no item.
    pub at: Place,
}

/// Why a data list or a range was refused: an error and its place, or out of memory.
#[derive(Clone, Copy, Debug, Error)]
pub enum SetFaultOrMemory {
    /// Out of memory.
    #[error("out of memory")]
    Memory,
    /// The list has this fault.
    #[error(transparent)]
    Fault(SetFault),
}

impl From<AllocError> for SetFaultOrMemory {
    ghost from_gives = { λ _ e. e ≡ Memory };

    fn from(_error: AllocError) -> SetFaultOrMemory {
        SetFaultOrMemory::Memory
    }
}

impl<T: Drop> From<AllocFailed<T>> for SetFaultOrMemory {
    ghost from_gives = { λ _ e. e ≡ Memory };

    fn from(_error: AllocFailed<T>) -> SetFaultOrMemory {
        SetFaultOrMemory::Memory
    }
}
