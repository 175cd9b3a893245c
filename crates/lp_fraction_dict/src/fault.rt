//! Why a row, or the rows of a dictionary, could not be made.
ghost use Rattle.std.specs.Prelude.{◌≡◌, ◌+◌, ◌^◌, ◌<◌};
ghost use Rattle.lp_fraction_dict.specs.declared.fault.RowFault.TheVariants.{Memory};
ghost use Rattle.lp_fraction_dict.specs.Lines.{part_number, line_fault, InLine, stop_of};

use lp_core::StepName;
use lp_std::Stop;
use std::alloc::{AllocError, AllocFailed};

/// Which of the two steps on a number does not fit under the limit.
#[derive(Clone, Copy)]
pub(crate) enum Part {
    /// A product or a quotient.
    Product,
    /// A difference.
    Difference,
}

impl Part {
    /// The number of this part in the name of a step.
    pub(crate) fn number(self) -> u8
        ensures { result ≡ part_number self }
    {
        match self {
            Part::Product => 0,
            Part::Difference => 1,
        }
    }
}

/// Why a row could not be made.
#[derive(Drop)]
pub(crate) enum RowFault {
    /// The first step that does not fit under the limit of the field, by its column.
    Limit(u32, Part),
    /// Out of memory.
    Memory,
}

impl RowFault {
    /// This fault in row `line`; the objective has the number after the last row.
    pub(crate) fn in_line(self, line: usize) -> LineFault
        ensures { result ≡ line_fault line self }
    {
        match self {
            RowFault::Limit(column, part) => LineFault::Limit(line, column, part),
            RowFault::Memory => LineFault::Memory,
        }
    }
}

impl From<AllocError> for RowFault {
    ghost from_gives = { λ _ fault. fault ≡ Memory };

    fn from(_error: AllocError) -> RowFault {
        RowFault::Memory
    }
}

impl<T: Drop> From<AllocFailed<T>> for RowFault {
    ghost from_gives = { λ _ fault. fault ≡ Memory };

    fn from(_error: AllocFailed<T>) -> RowFault {
        RowFault::Memory
    }
}

/// Why the rows of a dictionary were not exchanged.
#[derive(Drop)]
pub(crate) enum LineFault {
    /// The first step that does not fit, by its row, from 0, and its column.
    Limit(usize, u32, Part),
    /// Out of memory.
    Memory,
}

impl LineFault {
    /// The fault as a `Stop`, in the exchange of the pivot with this number.
    pub(crate) fn stop(self, pivot: u64) -> Stop
        requires { InLine (λ i at p. i + 1 < 2 ^ 32) self }
        ensures { result ≡ stop_of pivot self }
    {
        match self {
            LineFault::Limit(line, column, part) => Stop::Limit(StepName::Exchange {
                pivot,
                row: line as u32 + 1,
                column,
                part: part.number(),
            }),
            LineFault::Memory => Stop::Memory,
        }
    }
}
