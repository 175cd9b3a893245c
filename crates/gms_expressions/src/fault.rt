//! Why tokens begin no part, and where.
ghost use Rattle.std.specs.Prelude.{◌≡◌};
ghost use Rattle.gms_labels.specs.declared.fault.LabelFault.TheVariants as label_fault;
ghost use Rattle.gms_expressions.specs.declared.fault.SyntaxError.TheVariants.{TooManyLabels};
ghost use Rattle.gms_expressions.specs.declared.fault.SyntaxFaultOrMemory.TheVariants.{Fault, Memory};
ghost use Rattle.gms_expressions.specs.Faults.{syntax_error_code, syntax_error_name, not_entered};

use gms_labels::{LabelFault, Place};
use std::alloc::{AllocError, AllocFailed};
use thiserror::Error;

/// A syntax error, by its cause.
#[derive(Clone, Copy, Debug, Error)]
pub enum SyntaxError {
    /// An unexpected token: the tokens before it begin a part, and with it they do not.
    #[error("unexpected token")]
    Expected,
    /// A `(` that opens while 100 parentheses are open.
    #[error("over 100 open parentheses")]
    Depth,
    /// A number out of range.
    #[error("a number out of range")]
    Number,
    /// A word outside this profile of the language: of a statement or a value that it leaves out.
    #[error("a word outside this profile of the language")]
    NotInProfile,
    /// A name or a label after the 65,536th, the most that its table may have.
    #[error("over 65,536 labels")]
    TooManyLabels,
}

impl SyntaxError {
    /// The number of this error in a listing.
    pub fn code(self) -> u8
        ensures { result ≡ syntax_error_code self }
    {
        match self {
            SyntaxError::Expected => 11,
            SyntaxError::Depth => 12,
            SyntaxError::Number => 13,
            SyntaxError::NotInProfile => 14,
            SyntaxError::TooManyLabels => 15,
        }
    }

    /// The name of this error in a listing.
    pub fn name(self) -> &'static str
        ensures { result.now ≡ syntax_error_name self }
    {
        match self {
            SyntaxError::Expected => "Expected",
            SyntaxError::Depth => "Depth",
            SyntaxError::Number => "Number",
            SyntaxError::NotInProfile => "NotInProfile",
            SyntaxError::TooManyLabels => "TooManyLabels",
        }
    }
}

/// A syntax error and its place.
#[derive(Clone, Copy, Debug, Error)]
#[error("{at}: {code} {name}: {error}", code = .error.code(), name = .error.name())]
pub struct SyntaxFault {
    /// Which syntax error it is.
    pub error: SyntaxError,
    /// Where the token with the error begins, or the source ends.
    pub at: Place,
}

/// Why tokens were not read: a syntax error and its place, or out of memory.
#[derive(Clone, Copy, Debug, Error)]
pub enum SyntaxFaultOrMemory {
    /// Out of memory.
    #[error("out of memory")]
    Memory,
    /// The tokens have this fault.
    #[error(transparent)]
    Fault(SyntaxFault),
}

impl SyntaxFaultOrMemory {
    /// The fault of a token at this place.
    pub(crate) fn at(error: SyntaxError, at: Place) -> SyntaxFaultOrMemory
        ensures { result ≡ Fault (record { error = error; at = at }) }
    {
        SyntaxFaultOrMemory::Fault(SyntaxFault { error, at })
    }

    /// The fault of a name or a label at this place that could not be entered.
    pub(crate) fn not_entered(fault: LabelFault, at: Place) -> SyntaxFaultOrMemory
        ensures { result ≡ not_entered fault at }
    {
        match fault {
            LabelFault::Full => SyntaxFaultOrMemory::at(SyntaxError::TooManyLabels, at),
            LabelFault::Memory => SyntaxFaultOrMemory::Memory,
        }
    }
}

impl From<AllocError> for SyntaxFaultOrMemory {
    ghost from_gives = { λ _ e. e ≡ Memory };

    fn from(_error: AllocError) -> SyntaxFaultOrMemory {
        SyntaxFaultOrMemory::Memory
    }
}

impl<T: Drop> From<AllocFailed<T>> for SyntaxFaultOrMemory {
    ghost from_gives = { λ _ e. e ≡ Memory };

    fn from(_error: AllocFailed<T>) -> SyntaxFaultOrMemory {
        SyntaxFaultOrMemory::Memory
    }
}
