//! Why a table has no entries, and where.
ghost use Rattle.std.specs.Prelude.{◌≡◌};
ghost use Rattle.gms_table.specs.Faults.{table_error_code, table_error_name};
ghost use Rattle.gms_table.specs.declared.fault.TableFaultOrMemory.TheVariants.{Memory};

use gms_labels::Place;
use std::alloc::{AllocError, AllocFailed};
use thiserror::Error;

/// An error of a table, by its cause.
#[derive(Clone, Copy, Debug, Error)]
pub enum TableError {
    /// A number under no heading.
    #[error("a number under no heading")]
    NoColumn,
    /// A number under two headings or more.
    #[error("a number under two headings")]
    TwoColumns,
    /// A second number for the same row label and the same heading.
    #[error("a second number for the same row and heading")]
    RepeatedEntry,
    /// A malformed heading, row label or number: a heading or a row label that is not made of
    /// labels joined by dots, or a later word of a row that is no number within the limit.
    #[error("malformed heading, row label or number")]
    BadRow,
    /// A table without a line of headings.
    #[error("a table without headings")]
    NoHeading,
    /// A label after the 65,536th, the most that a table of labels may have.
    #[error("over 65,536 labels")]
    Labels,
}

impl TableError {
    /// The number of this error in a listing.
    pub fn code(self) -> u8
        ensures { result ≡ table_error_code self }
    {
        match self {
            TableError::NoColumn => 21,
            TableError::TwoColumns => 22,
            TableError::RepeatedEntry => 23,
            TableError::BadRow => 24,
            TableError::NoHeading => 25,
            TableError::Labels => 26,
        }
    }

    /// The name of this error in a listing.
    pub fn name(self) -> &'static str
        ensures { result.now ≡ table_error_name self }
    {
        match self {
            TableError::NoColumn => "NoColumn",
            TableError::TwoColumns => "TwoColumns",
            TableError::RepeatedEntry => "RepeatedEntry",
            TableError::BadRow => "BadRow",
            TableError::NoHeading => "NoHeading",
            TableError::Labels => "Labels",
        }
    }
}

/// An error of a table, and the place of the word at which it occurs.
#[derive(Clone, Copy, Debug, Error)]
#[error("{at}: {code} {name}: {error}", code = .error.code(), name = .error.name())]
pub struct TableFault {
    /// The error, without its place.
    pub error: TableError,
    /// Where in the source the word with the error begins; line 0 and column 0 for `NoHeading`,
    /// which is at no word.
    pub at: Place,
}

/// Why a table gives no entries: an error, or out of memory.
#[derive(Clone, Copy, Debug, Error)]
pub enum TableFaultOrMemory {
    /// Out of memory.
    #[error("out of memory")]
    Memory,
    /// The table has this fault.
    #[error(transparent)]
    Fault(TableFault),
}

impl From<AllocError> for TableFaultOrMemory {
    ghost from_gives = { λ _ e. e ≡ Memory };

    fn from(_error: AllocError) -> TableFaultOrMemory {
        TableFaultOrMemory::Memory
    }
}

impl<T: Drop> From<AllocFailed<T>> for TableFaultOrMemory {
    ghost from_gives = { λ _ e. e ≡ Memory };

    fn from(_error: AllocFailed<T>) -> TableFaultOrMemory {
        TableFaultOrMemory::Memory
    }
}
