//! A host: its six calls, and the rules that they obey.
ghost use Rattle.std.specs.Prelude.{◌≡◌, ◌<◌, ◌≤◌, true, length, IfOk};
ghost use Rattle.gms_host.specs.declared.host.Failed.TheVariants.{Memory};
ghost use Rattle.gms_host.specs.Meaning.{Meaning};
ghost use Rattle.gms_host.specs.Rules.{TellsWhole, IsThere, OpensInput, ReadsBytes, OpensOutput, Writes, ClosesOutput, Says, CountsReading, CountsWriting, CountsNothing};

use std::alloc::{AllocError, AllocFailed};
use thiserror::Error;

/// Why a call of a host did not do its work.
#[derive(Clone, Copy, Debug, PartialEq, Eq, Error)]
pub enum Failed {
    /// An input or output operation failed. The count of faults of that kind rose in the call, or
    /// had the greatest value, 2^64 - 1.
    #[error("an input or output operation failed")]
    Fault,
    /// Out of memory. No count of faults rose.
    #[error("out of memory")]
    Memory,
}

impl From<AllocError> for Failed {
    ghost from_gives = { λ _ failed. failed ≡ Memory };

    fn from(_error: AllocError) -> Failed {
        Failed::Memory
    }
}

impl<T: Drop> From<AllocFailed<T>> for Failed {
    ghost from_gives = { λ _ failed. failed ≡ Memory };

    fn from(_error: AllocFailed<T>) -> Failed {
        Failed::Memory
    }
}

/// What is outside of the running program: named files, of which one can be read and one written at
/// a time, and standard output.
///
/// What a host exposes is its `Meaning`: its outside state, and two counts of faults, one of
/// reading and one of writing. It may hide fields of the outside state, such as the files; which
/// ones it hides never changes. Each call has one clause on its effect on the outside state, by its
/// result, and two on the counts. `open_in` and `read` can change only the count of reading, the
/// other calls only that of writing. A call returns a fault only if the count that it can change
/// rose in the call, or had the greatest value, 2^64 - 1. A call that runs out of memory changes no
/// count.
///
/// A host may promise, for good, that it is reliable: then no call returns or counts a fault,
/// except an `open_in` of a name that no file has, and this only if the host exposes its files.
/// Memory may run out all the same. A host may also promise that it is precise: a fault is counted
/// only in a call that returns a fault.
pub trait Host {
    /// What the host exposes to its caller.
    ghost meaning: { Self → Meaning };

    /// Opens the file of this name as the input that `read` reads. A name that no file has is a
    /// failure. On failure no input is open.
    fn open_in(&mut self, name: &str) -> Result<(), Failed>
        ensures outside { OpensInput result (meaning self.old).outside (meaning self.new).outside name.now }
        ensures counts { CountsReading result (IsThere (meaning self.old).outside name.now) (meaning self.old).counts (meaning self.new).counts }
        ensures memory { CountsNothing result (meaning self.old).counts (meaning self.new).counts };

    /// Reads the next bytes of the input into the beginning of the buffer, and answers how many; 0
    /// exactly at the end of the input. On failure the outside state is unchanged.
    fn read(&mut self, into: &mut [u8]) -> Result<usize, Failed>
        requires open { (meaning self.old).outside.reading ≡ true }
        requires within_bound { 0 < length into.old }
        ensures count { IfOk result (λ count. count ≤ length into.new) }
        ensures outside { ReadsBytes result (meaning self.old).outside (meaning self.new).outside into.new }
        ensures counts { CountsReading result (Unit {0}) (meaning self.old).counts (meaning self.new).counts }
        ensures memory { CountsNothing result (meaning self.old).counts (meaning self.new).counts };

    /// Opens an output with this name, which is empty then. On failure the output is empty too, but
    /// not open.
    fn open_out(&mut self, name: &str) -> Result<(), Failed>
        ensures outside { OpensOutput result (meaning self.old).outside (meaning self.new).outside name.now }
        ensures counts { CountsWriting result (meaning self.old).counts (meaning self.new).counts }
        ensures memory { CountsNothing result (meaning self.old).counts (meaning self.new).counts };

    /// Appends the first bytes of `from` to the output, and answers how many, at least one. On
    /// failure the outside state is unchanged.
    fn write(&mut self, from: &[u8]) -> Result<usize, Failed>
        requires open { (meaning self.old).outside.writing ≡ true }
        requires some { 0 < length from.now }
        ensures count { IfOk result (λ count. count ≤ length from.now) }
        ensures progress { IfOk result (λ count. 0 < count) }
        ensures outside { Writes result (meaning self.old).outside (meaning self.new).outside from.now }
        ensures counts { CountsWriting result (meaning self.old).counts (meaning self.new).counts }
        ensures memory { CountsNothing result (meaning self.old).counts (meaning self.new).counts };

    /// Closes the output, and records it among the closed ones. On failure it is closed too, but
    /// not recorded.
    fn close_out(&mut self) -> Result<(), Failed>
        requires { (meaning self.old).outside.writing ≡ true }
        ensures outside { ClosesOutput result (meaning self.old).outside (meaning self.new).outside }
        ensures counts { CountsWriting result (meaning self.old).counts (meaning self.new).counts }
        ensures memory { CountsNothing result (meaning self.old).counts (meaning self.new).counts };

    /// Appends the first bytes of `from` to standard output, and answers how many, at least one. On
    /// failure the outside state is unchanged.
    fn say(&mut self, from: &[u8]) -> Result<usize, Failed>
        requires { 0 < length from.now }
        ensures count { IfOk result (λ count. count ≤ length from.now) }
        ensures progress { IfOk result (λ count. 0 < count) }
        ensures outside { Says result (meaning self.old).outside (meaning self.new).outside from.now }
        ensures counts { CountsWriting result (meaning self.old).counts (meaning self.new).counts }
        ensures memory { CountsNothing result (meaning self.old).counts (meaning self.new).counts };

    /// A host that exposes its files also exposes the input, and one that exposes the closed
    /// outputs also exposes the opened one.
    ghost tells_whole: { (h : Self) → TellsWhole (meaning h).outside };
}
