//! A buffer through which a text is written to a host.
ghost use Rattle.std.specs.Prelude.{◌≡◌, ◌<◌, ◌≤◌, ◌+◌, ◌++◌, [], true, length, IfOk, OnOk};
ghost use Rattle.gms_host.specs.Rules.{CountsWriting};
ghost use Rattle.gms_host.specs.Spooling.{WritesAll, PutsThrough};

use crate::host::{Failed, Host};
use std::alloc::{AllocError, Global};
use std::marker::Model;

/// How many bytes are pending at most.
const ROOM: usize = 4096;

/// A buffer of at most 4,096 pending bytes: those still to be written to a host. `new` allocates
/// its memory.
///
/// Until a write fails, the bytes written to the output, then the pending ones, are the text that
/// was put so far.
#[derive(Debug)]
pub struct Spool {
    pending: Vec<u8>,
}

// Written out, so that it is proved once, and not in each crate that drops one.
impl Drop for Spool {
    fn drop(self) {
        let Self { pending: _ } = self;
    }
}

impl Model for Spool {
    ghost use Rattle.std.specs.Prelude.{List, ℕ, ◌≤◌, length};
    ghost use Rattle.std.specs.Vec.{vec_capacity};

    ghost Value = { List ℕ };

    ghost view = { λ s. s.pending.items };

    ghost invariant = { λ s. (length s.pending.items ≤ 4096) × (4096 ≤ vec_capacity s.pending) };
}

/// Writes all of these bytes.
fn write_all<H: Host>(host: &mut H, bytes: &[u8]) -> Result<(), Failed>
    requires { (H.meaning host.old).outside.writing ≡ true }
    ensures outside { WritesAll result (H.meaning host.old).outside (H.meaning host.new).outside bytes.now }
    ensures counts { CountsWriting result (H.meaning host.old).counts (H.meaning host.new).counts }
{
    let mut rest = bytes;
    while !rest.is_empty() {
        let count = host.write(rest)?;
        rest = &rest[count..];
    }
    Ok(())
}

impl Spool {
    /// A spool in which nothing is pending. The error is out of memory.
    pub fn new(alloc: Global) -> Result<Spool, AllocError>
        ensures { IfOk result (λ spool. spool ≡ []) }
    {
        Ok(Spool {
            pending: Vec::with_capacity(alloc, ROOM)?,
        })
    }

    /// Appends a text to the pending bytes. Whenever 4,096 bytes are pending and more of the text
    /// follows, writes them to the output of the host, which must be open.
    ///
    /// On success, the output followed by the pending bytes is extended by the text. After an error
    /// nothing is pending; of the formerly pending bytes, then the text, only a prefix is appended
    /// to the output. The error is that of a `write`; if it is `Fault`, the count of faults of
    /// writing rose in this call or was 2^64 - 1. Only the host's output and its count of faults of
    /// writing change.
    pub fn put<H: Host>(&mut self, host: &mut H, text: &[u8]) -> Result<(), Failed>
        requires { (H.meaning host.old).outside.writing ≡ true }
        ensures outside { PutsThrough result (H.meaning host.old).outside (H.meaning host.new).outside (self.old ++ text.now) self.new }
        ensures within_bound { length self.new ≤ 4096 }
        ensures counts { CountsWriting result (H.meaning host.old).counts (H.meaning host.new).counts }
    {
        let mut rest = text;
        while !rest.is_empty() {
            self.write_if_full(host)?;
            let count = rest.len().min(ROOM - self.pending.len());
            self.append(&rest[..count]);
            rest = &rest[count..];
        }
        // No more is pending than fits.
        let _ = &self.pending;
        Ok(())
    }

    /// Writes what is pending if the spool is full.
    fn write_if_full<H: Host>(&mut self, host: &mut H) -> Result<(), Failed>
        requires { (H.meaning host.old).outside.writing ≡ true }
        ensures outside { PutsThrough result (H.meaning host.old).outside (H.meaning host.new).outside self.old self.new }
        ensures within_bound { OnOk result (length self.new < 4096) }
        ensures counts { CountsWriting result (H.meaning host.old).counts (H.meaning host.new).counts }
    {
        if self.pending.len() < ROOM {
            Ok(())
        } else {
            self.flush(host)
        }
    }

    /// Appends a text that fits to what is pending.
    fn append(&mut self, text: &[u8])
        requires { length self.old + length text.now ≤ 4096 }
        ensures { self.new ≡ self.old ++ text.now }
    {
        let Ok(()) = self.pending.extend_from_slice(text) else {
            unreachable!()
        };
    }

    /// Writes all pending bytes to the output of the host, which must be open. Afterwards nothing
    /// is pending, even after an error.
    ///
    /// On success the bytes are appended to the output, after an error only a prefix of them. The
    /// error is that of a `write`; if it is `Fault`, the count of faults of writing rose in this
    /// call or was 2^64 - 1. Only the host's output and its count of faults of writing change.
    pub fn flush<H: Host>(&mut self, host: &mut H) -> Result<(), Failed>
        requires { (H.meaning host.old).outside.writing ≡ true }
        ensures outside { WritesAll result (H.meaning host.old).outside (H.meaning host.new).outside self.old }
        ensures pending { self.new ≡ [] }
        ensures counts { CountsWriting result (H.meaning host.old).counts (H.meaning host.new).counts }
    {
        let written = write_all(host, self.pending.as_slice());
        self.pending.clear();
        written
    }
}
