//! Why a source is no program, and where.
ghost use Rattle.std.specs.Prelude.{◌≡◌};
ghost use Rattle.gms_parse.specs.declared.fault.SourceFaultOrMemory.TheVariants.{Memory};
ghost use Rattle.gms_parse.specs.Faults.{source_error_code, source_error_name, fault_at, fault_of_lexical, fault_of_syntax};

use gms_expressions::{SyntaxError, SyntaxFaultOrMemory};
use gms_labels::Place;
use gms_lex::{LexError, LexFaultOrMemory};
use gms_table::TableError;
use std::alloc::{AllocError, AllocFailed};
use thiserror::Error;

/// An error of a source: of its length, its tokens, its syntax or its tables.
#[derive(Clone, Copy, Debug, Error)]
pub enum SourceError {
    /// A source of over 1,048,576 bytes.
    #[error("a source of over 1,048,576 bytes")]
    TooLong,
    /// A lexical error.
    #[error(transparent)]
    Lexical(LexError),
    /// A syntax error: an unexpected token, or a parenthesis, a number or a name beyond a limit.
    #[error(transparent)]
    Syntax(SyntaxError),
    /// An error of a table.
    #[error(transparent)]
    Table(TableError),
}

impl SourceError {
    /// The number of this error in a listing.
    pub fn code(self) -> u8
        ensures { result ≡ source_error_code self }
    {
        match self {
            SourceError::TooLong => 9,
            SourceError::Lexical(error) => error.code(),
            SourceError::Syntax(error) => error.code(),
            SourceError::Table(error) => error.code(),
        }
    }

    /// The name of this error in a listing.
    pub fn name(self) -> &'static str
        ensures { result.now ≡ source_error_name self }
    {
        match self {
            SourceError::TooLong => "TooLong",
            SourceError::Lexical(error) => error.name(),
            SourceError::Syntax(error) => error.name(),
            SourceError::Table(error) => error.name(),
        }
    }
}

/// A source error and its place.
#[derive(Clone, Copy, Debug, Error)]
#[error("{at}: {code} {name}: {error}", code = .error.code(), name = .error.name())]
pub struct SourceFault {
    /// The error, without its place.
    pub error: SourceError,
    /// The place of the error: the start of a source that is too long; the name of a table without
    /// headings; the end of an incomplete source; else the byte, the token or the word with the
    /// error.
    pub at: Place,
}

/// Why a source gives no program: it has a fault, or memory runs out.
#[derive(Clone, Copy, Debug, Error)]
pub enum SourceFaultOrMemory {
    /// Out of memory.
    #[error("out of memory")]
    Memory,
    /// The source has this fault.
    #[error(transparent)]
    Fault(SourceFault),
}

impl SourceFaultOrMemory {
    /// The fault with this error at this place.
    pub(crate) fn at(error: SourceError, at: Place) -> SourceFaultOrMemory
        ensures { result ≡ fault_at error at }
    {
        SourceFaultOrMemory::Fault(SourceFault { error, at })
    }
}

impl From<AllocError> for SourceFaultOrMemory {
    ghost from_gives = { λ _ e. e ≡ Memory };

    fn from(_error: AllocError) -> SourceFaultOrMemory {
        SourceFaultOrMemory::Memory
    }
}

impl<T: Drop> From<AllocFailed<T>> for SourceFaultOrMemory {
    ghost from_gives = { λ _ e. e ≡ Memory };

    fn from(_error: AllocFailed<T>) -> SourceFaultOrMemory {
        SourceFaultOrMemory::Memory
    }
}

impl From<LexFaultOrMemory> for SourceFaultOrMemory {
    ghost from_gives = { λ lexical e. e ≡ fault_of_lexical lexical };

    fn from(fault: LexFaultOrMemory) -> SourceFaultOrMemory {
        match fault {
            LexFaultOrMemory::Memory => SourceFaultOrMemory::Memory,
            LexFaultOrMemory::Fault(fault) => SourceFaultOrMemory::at(
                SourceError::Lexical(fault.error),
                fault.at,
            ),
        }
    }
}

impl From<SyntaxFaultOrMemory> for SourceFaultOrMemory {
    ghost from_gives = { λ syntax e. e ≡ fault_of_syntax syntax };

    fn from(fault: SyntaxFaultOrMemory) -> SourceFaultOrMemory {
        match fault {
            SyntaxFaultOrMemory::Memory => SourceFaultOrMemory::Memory,
            SyntaxFaultOrMemory::Fault(fault) => SourceFaultOrMemory::at(
                SourceError::Syntax(fault.error),
                fault.at,
            ),
        }
    }
}
