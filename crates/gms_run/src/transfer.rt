//! Whole transfers over a host: a file read to its end, a file written, a line printed.
ghost use Rattle.std.specs.Prelude.{◌≡◌, ◌<◌, ◌^◌, ◌+◌, true};
ghost use Rattle.gms_host.specs.Rules.{CountsReading, CountsWriting, IsThere};
ghost use Rattle.gms_host.specs.Spooling.{WritesAll};
ghost use Rattle.gms_run.specs.InnerReports.{ReadsFile, SaysAll, TakesFirst};
ghost use Rattle.gms_run.specs.InnerSteps.{ResultsIn};
ghost use Rattle.gms_run.specs.Statuses.{IsUnwrittenFile, with_file};

use gms_host::{Failed, Host};
use std::alloc::Global;

/// How many bytes are read at a time.
const BUFFER_BYTES: usize = 4096;

/// Reads the opened input to its end, or until `most + 1` bytes were taken.
fn read_most<H: Host>(alloc: Global, host: &mut H, most: usize) -> Result<Vec<u8>, Failed>
    requires open { (H.meaning host.old).outside.reading ≡ true }
    requires few { most < 2 ^ 32 }
    ensures outside { TakesFirst (most + 1) result (H.meaning host.old).outside (H.meaning host.new).outside }
    ensures counts { CountsReading result (Unit {0}) (H.meaning host.old).counts (H.meaning host.new).counts }
{
    let mut source = Vec::new(alloc);
    let mut buffer = [0u8; BUFFER_BYTES];
    while source.len() <= most {
        let within_bound = (most + 1 - source.len()).min(BUFFER_BYTES);
        let count = host.read(&mut buffer[..within_bound])?;
        if count == 0 {
            return Ok(source);
        }
        source.extend_from_slice(&buffer[..count])?;
    }
    Ok(source)
}

/// Reads the file of a name, or its first `most + 1` bytes.
pub(crate) fn read_file<H: Host>(
    alloc: Global,
    host: &mut H,
    file: &str,
    most: usize,
) -> Result<Vec<u8>, Failed>
    requires { most < 2 ^ 32 }
    ensures outside { ReadsFile (most + 1) result (H.meaning host.old).outside (H.meaning host.new).outside file.now }
    ensures counts { CountsReading result (IsThere (H.meaning host.old).outside file.now) (H.meaning host.old).counts (H.meaning host.new).counts }
{
    host.open_in(file)?;
    read_most(alloc, host, most)
}

/// Writes all of these bytes.
fn write_all<H: Host>(host: &mut H, bytes: &[u8]) -> Result<(), Failed>
    requires { (H.meaning host.old).outside.writing ≡ true }
    ensures outside { WritesAll result (H.meaning host.old).outside (H.meaning host.new).outside bytes.now }
    ensures counts { CountsWriting result (H.meaning host.old).counts (H.meaning host.new).counts }
{
    let mut rest = bytes;
    while !rest.is_empty() {
        let count = host.write(rest)?;
        rest = &rest[count..];
    }
    Ok(())
}

/// Writes a file of a name, and closes it.
pub(crate) fn write_file<H: Host>(host: &mut H, file: &str, bytes: &[u8]) -> Result<(), Failed>
    ensures outside { ResultsIn result (λ done. (H.meaning host.new).outside ≡
        with_file (H.meaning host.old).outside file.now bytes.now)
        (IsUnwrittenFile (H.meaning host.old).outside (H.meaning host.new).outside file.now bytes.now) }
    ensures counts { CountsWriting result (H.meaning host.old).counts (H.meaning host.new).counts }
{
    host.open_out(file)?;
    write_all(host, bytes)?;
    host.close_out()
}

/// Prints the whole line.
pub(crate) fn say_line<H: Host>(host: &mut H, line: &[u8]) -> Result<(), Failed>
    ensures outside { SaysAll result (H.meaning host.old).outside (H.meaning host.new).outside line.now }
    ensures counts { CountsWriting result (H.meaning host.old).counts (H.meaning host.new).counts }
{
    let mut rest = line;
    while !rest.is_empty() {
        let count = host.say(rest)?;
        rest = &rest[count..];
    }
    Ok(())
}
