//! How a run ends.
ghost use Rattle.std.specs.Prelude.{◌≡◌};
ghost use Rattle.gms_run.specs.ProgramsToRun.{status_code};

/// How a run ends; `code` gives the exit status.
///
/// After Usage and ReadFault the listing's file was not opened. After Done, Compile and Execution
/// it has the whole listing. After WriteFault it may have a prefix of the listing, or all; if all,
/// the file of `--save` may have a prefix of the save, or all of it.
#[derive(Clone, Copy, PartialEq, Eq)]
pub enum Status {
    /// Every statement was executed, and the whole listing was written, and with `--save` the save.
    Done,
    /// The arguments are refused.
    Usage,
    /// The source is refused, or the save cannot be restored.
    Compile,
    /// An execution error stopped the run.
    Execution,
    /// A file that the arguments name could not be read: the source, or the save.
    ReadFault,
    /// The listing, the save or the closing lines could not be written.
    WriteFault,
}

impl Status {
    /// The exit status of `gams25` after a run that ends in this way: 0 done, 1 usage, 2 compile,
    /// 3 execution, 4 read fault, 5 write fault.
    pub fn code(self) -> u8
        ensures { result ≡ status_code self }
    {
        match self {
            Status::Done => 0,
            Status::Usage => 1,
            Status::Compile => 2,
            Status::Execution => 3,
            Status::ReadFault => 4,
            Status::WriteFault => 5,
        }
    }
}
