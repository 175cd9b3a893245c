//! Why a save was not restored.
ghost use Rattle.std.specs.Prelude.{◌≡◌};
ghost use Rattle.gms_save.specs.declared.fault.SaveFaultOrMemory.TheVariants.{Memory};
ghost use Rattle.gms_save.specs.Faults.{save_fault_code, fault_name, fault_of_reading, fault_of_source};

use gms_parse::SourceFaultOrMemory;
use gms_save_text::ReadFault;
use std::alloc::{AllocError, AllocFailed};
use thiserror::Error;

/// Why a save was not restored.
#[derive(Clone, Copy, Debug, Error)]
pub enum SaveFault {
    /// A save of over 67,108,864 bytes.
    #[error("a save of over 67,108,864 bytes")]
    SaveTooLong,
    /// Bytes that are not a save.
    #[error("not a save")]
    SaveShape,
    /// The save names a solver that is not one of the run's.
    #[error("the saved solver does not exist here")]
    SaveSolver,
}

impl SaveFault {
    /// The number of this fault in a listing.
    pub fn code(self) -> u8
        ensures { result ≡ save_fault_code self }
    {
        match self {
            SaveFault::SaveShape => 41,
            SaveFault::SaveTooLong => 42,
            SaveFault::SaveSolver => 43,
        }
    }

    /// The name of this fault in a listing.
    pub fn name(self) -> &'static str
        ensures { result.now ≡ fault_name self }
    {
        match self {
            SaveFault::SaveShape => "SaveShape",
            SaveFault::SaveTooLong => "SaveTooLong",
            SaveFault::SaveSolver => "SaveSolver",
        }
    }
}

/// Why a save was not restored: a fault of the save, or out of memory.
#[derive(Clone, Copy, Debug, Error)]
pub enum SaveFaultOrMemory {
    /// Out of memory.
    #[error("out of memory")]
    Memory,
    /// A fault of the save.
    #[error(transparent)]
    Fault(SaveFault),
}

impl From<AllocError> for SaveFaultOrMemory {
    ghost from_gives = { λ _ fault. fault ≡ Memory };

    fn from(_error: AllocError) -> SaveFaultOrMemory {
        SaveFaultOrMemory::Memory
    }
}

impl<T: Drop> From<AllocFailed<T>> for SaveFaultOrMemory {
    ghost from_gives = { λ _ fault. fault ≡ Memory };

    fn from(_error: AllocFailed<T>) -> SaveFaultOrMemory {
        SaveFaultOrMemory::Memory
    }
}

impl From<ReadFault> for SaveFaultOrMemory {
    ghost from_gives = { λ reading fault. fault ≡ fault_of_reading reading };

    fn from(fault: ReadFault) -> SaveFaultOrMemory {
        match fault {
            ReadFault::Memory => SaveFaultOrMemory::Memory,
            ReadFault::Shape => SaveFaultOrMemory::Fault(SaveFault::SaveShape),
        }
    }
}

impl From<SourceFaultOrMemory> for SaveFaultOrMemory {
    ghost from_gives = { λ source fault. fault ≡ fault_of_source source };

    fn from(fault: SourceFaultOrMemory) -> SaveFaultOrMemory {
        match fault {
            SourceFaultOrMemory::Memory => SaveFaultOrMemory::Memory,
            SourceFaultOrMemory::Fault(_) => SaveFaultOrMemory::Fault(SaveFault::SaveShape),
        }
    }
}
