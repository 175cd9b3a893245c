//! The host over real files and standard output, below which nothing is proved.
ghost use Rattle.std.specs.Prelude.{◌≡◌, ◌≢◌, ◌<◌, ◌≤◌, ◌↔◌, length, IfOk, OnErr, OnOk, IsErrOf};
ghost use Rattle.std.specs.IoError.{error_kind};
ghost use Rattle.gms_host.specs.Meaning.{Rose};
ghost use Rattle.gms_host.specs.Counts.{one_more};
ghost use Rattle.gms_host.specs.RealState.{untouched, real_meaning};

use crate::host::{Failed, Host};
use std::io::{ErrorKind, Read, Write};
use std::marker::Model;
use std::rt::Files;
use std::{fs, io};

/// How often in all a read or a write is tried that is interrupted each time.
const TRIES: u32 = 64;

/// A host over real files and standard output.
///
/// Contracts state four fields of it: whether an input is open, whether an output is open, a count
/// of faults of reading and one of writing; no files, names or bytes. Any call may fail. Each error
/// that std returns is counted as a fault, and so is a write for which std returns the count 0; but
/// a call that runs out of memory counts nothing. A call repeats an interrupted read or write, and
/// returns a fault if the 64th try is interrupted. So a call that succeeds may have counted faults.
#[derive(Drop)]
pub struct RealHost<R: Files> {
    runtime: R,
    input: Option<R::File>,
    output: Option<R::File>,
    read_faults: u64,
    write_faults: u64,
}

impl<R: Files> Model for RealHost<R> {
    ghost use Rattle.std.specs.Prelude.{is_some};
    ghost use Rattle.gms_host.specs.RealState.{RealState};

    ghost Value = { RealState };

    ghost view = { λ h. record {
      reading = is_some h.input;
      writing = is_some h.output;
      read_faults = h.read_faults;
      write_faults = h.write_faults;
    } };
}

impl<R: Files> RealHost<R> {
    /// A host over the files and the standard output of this runtime. Nothing is open, and the
    /// counts of faults are 0.
    pub fn new(rt: R) -> RealHost<R>
        ensures { result ≡ untouched }
    {
        RealHost {
            runtime: rt,
            input: None,
            output: None,
            read_faults: 0,
            write_faults: 0,
        }
    }
}

impl<R: Files + Print> Host for RealHost<R> {
    ghost meaning = { real_meaning };

    ghost tells_whole = { λ _. record { input = λ told. told; output = λ told. (told, told) } };

    fn open_in(&mut self, name: &str) -> Result<(), Failed> {
        self.input = None;
        match fs::open(&self.runtime, name) {
            Ok(file) => {
                self.input = Some(file);
                Ok(())
            }
            Err(error) => Err(counted(&mut self.read_faults, &error)),
        }
    }

    fn read(&mut self, into: &mut [u8]) -> Result<usize, Failed> {
        let Some(file) = &mut self.input else {
            unreachable!()
        };
        read_some(file, &mut self.read_faults, into)
    }

    fn open_out(&mut self, name: &str) -> Result<(), Failed> {
        self.output = None;
        match fs::create(&self.runtime, name) {
            Ok(file) => {
                self.output = Some(file);
                Ok(())
            }
            Err(error) => Err(counted(&mut self.write_faults, &error)),
        }
    }

    fn write(&mut self, from: &[u8]) -> Result<usize, Failed> {
        let Some(file) = &mut self.output else {
            unreachable!()
        };
        write_some(file, &mut self.write_faults, from)
    }

    fn close_out(&mut self) -> Result<(), Failed> {
        let Some(mut file) = self.output.take() else {
            unreachable!()
        };
        match file.flush() {
            Ok(()) => Ok(()),
            Err(error) => Err(counted(&mut self.write_faults, &error)),
        }
    }

    fn say(&mut self, from: &[u8]) -> Result<usize, Failed> {
        write_some(&mut io::writer(&self.runtime), &mut self.write_faults, from)
    }
}

/// Counts an error of std, unless memory ran out, and says which of the two it is.
fn counted(faults: &mut u64, error: &io::Error) -> Failed
    ensures memory { (result ≡ Failed.Memory) ↔ (error_kind error.now ≡ ErrorKind.OutOfMemory) }
    ensures same { result ≡ Failed.Memory → faults.new ≡ faults.old }
    ensures rose { result ≡ Failed.Fault → faults.new ≡ one_more faults.old }
{
    if error.kind() == ErrorKind::OutOfMemory {
        return Failed::Memory;
    }
    *faults = faults.saturating_add(1);
    Failed::Fault
}

/// Reads some bytes. An interrupted read is made again, and each error is counted.
///
/// If memory runs out no error is counted, so that the count agrees with the answer.
fn read_some<F: Read>(file: &mut F, faults: &mut u64, into: &mut [u8]) -> Result<usize, Failed>
    ensures within_bound { IfOk result (λ count. count ≤ length into.new) }
    ensures rose { IsErrOf result Failed.Fault → Rose faults.old faults.new }
    ensures same { IsErrOf result Failed.Memory → faults.new ≡ faults.old }
    ensures no_fall { faults.old ≤ faults.new }
{
    let mut errors = *faults;
    for _ in 0..TRIES {
        match file.read(into) {
            Ok(count) => {
                *faults = errors;
                return Ok(count);
            }
            Err(error) => {
                if counted(&mut errors, &error) == Failed::Memory {
                    return Err(Failed::Memory);
                }
                if error.kind() != ErrorKind::Interrupted {
                    break;
                }
            }
        }
    }
    *faults = errors;
    Err(Failed::Fault)
}

/// Writes some bytes, at least one. An interrupted write is made again, and each error is counted,
/// as is a write that takes nothing.
///
/// If memory runs out no error is counted, so that the count agrees with the answer.
fn write_some<F: Write>(file: &mut F, faults: &mut u64, from: &[u8]) -> Result<usize, Failed>
    ensures count { IfOk result (λ count. count ≤ length from.now) }
    ensures progress { IfOk result (λ count. 0 < count) }
    ensures rose { IsErrOf result Failed.Fault → Rose faults.old faults.new }
    ensures same { IsErrOf result Failed.Memory → faults.new ≡ faults.old }
    ensures no_fall { faults.old ≤ faults.new }
{
    let mut errors = *faults;
    for _ in 0..TRIES {
        match file.write(from) {
            Ok(0) => {
                errors = errors.saturating_add(1);
                break;
            }
            Ok(count) => {
                *faults = errors;
                return Ok(count);
            }
            Err(error) => {
                if counted(&mut errors, &error) == Failed::Memory {
                    return Err(Failed::Memory);
                }
                if error.kind() != ErrorKind::Interrupted {
                    break;
                }
            }
        }
    }
    *faults = errors;
    Err(Failed::Fault)
}
