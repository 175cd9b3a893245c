//! A host over files in memory, some of whose calls can be made to fail.
ghost use Rattle.std.specs.Prelude.{◌≡◌, ◌≢◌, ◌<◌, ◌↔◌, ◌⊎◌, ◌++◌, [], true, IsSome, map, min, take, drop, length, option_map, string_bytes, Contains, IsNone, IsTrue, IfOk, OnOk, OnErr, IsErrOf};
ghost use Rattle.std.specs.FinMap as finite;
ghost use Rattle.gms_host.specs.MemoryState.{file_of, files_of, at_start, in_pieces_of, piece, with_call_numbered, with_read_fault, with_write_fault, memory_meaning, IsToFail, after_open_in, after_read, after_open_out, after_write, after_close_out, after_say};

use crate::host::{Failed, Host};
use std::alloc::Global;
use std::marker::Model;

/// A host over files in memory, which exposes all of its state.
///
/// It numbers its calls from 0. A call returns a fault exactly if its number is in the list `fail`
/// with which the host is made, or if it is an `open_in` of a name that no file has. If `fail` is
/// empty, and only then, the host promises that it is reliable: that it has no other fault than
/// such an `open_in`. The number of the next call and the counts of faults of reading and of
/// writing stay at the greatest `u64` once they reach it.
#[derive(Debug, Drop)]
pub struct MemHost {
    alloc: Global,
    files: Vec<(String, Vec<u8>)>,
    failing: Vec<u64>,
    most: Option<u32>,
    calls: u64,
    input: Vec<u8>,
    given: usize,
    named: String,
    output: Vec<u8>,
    said: Vec<u8>,
    asked: Vec<String>,
    kept: Vec<(String, Vec<u8>)>,
    reading: bool,
    writing: bool,
    read_faults: u64,
    write_faults: u64,
}

impl Model for MemHost {
    ghost use Rattle.std.specs.Prelude.{◌≤◌, ◌<◌, IfSome, drop, length, map, string_bytes};
    ghost use Rattle.gms_host.specs.MemoryState.{MemoryState, memory_code, files_of, file_of};

    ghost Value = { MemoryState };

    ghost coded = { memory_code };

    ghost view = { λ h. record {
      files = files_of h.files.items;
      failing = h.failing.items;
      most = h.most;
      calls = h.calls;
      input = drop h.given h.input.items;
      named = string_bytes h.named;
      output = h.output.items;
      said = h.said.items;
      asked = map string_bytes h.asked.items;
      kept = map file_of h.kept.items;
      reading = h.reading;
      writing = h.writing;
      read_faults = h.read_faults;
      write_faults = h.write_faults;
    } };

    ghost invariant = { λ h. (h.given ≤ length h.input.items) × IfSome h.most (λ most. 0 < most) };
}

impl MemHost {
    /// A host over these files, each a name and its bytes; of files with one name it has only the
    /// first. No input or output is open. `fail` has the numbers, from 0, of the host's calls that
    /// are to fail.
    pub fn new(alloc: Global, files: Vec<(String, Vec<u8>)>, fail: Vec<u64>) -> MemHost
        ensures { result ≡ at_start (files_of files.items) fail.items }
    {
        MemHost {
            alloc,
            files,
            failing: fail,
            most: None,
            calls: 0,
            input: Vec::new(alloc),
            given: 0,
            named: String::new(alloc),
            output: Vec::new(alloc),
            said: Vec::new(alloc),
            asked: Vec::new(alloc),
            kept: Vec::new(alloc),
            reading: false,
            writing: false,
            read_faults: 0,
            write_faults: 0,
        }
    }

    /// A host as `new` makes it, except that each call reads, writes or prints at most `most`
    /// bytes, a number above 0.
    pub fn in_pieces(
        alloc: Global,
        files: Vec<(String, Vec<u8>)>,
        fail: Vec<u64>,
        most: u32,
    ) -> MemHost
        requires { 0 < most }
        ensures { result ≡ in_pieces_of most (at_start (files_of files.items) fail.items) }
    {
        MemHost {
            most: Some(most),
            ..MemHost::new(alloc, files, fail)
        }
    }

    /// The number that the next call has; the first call of the host has number 0.
    pub fn calls(&self) -> u64
        ensures { result ≡ self.now.calls }
    {
        self.calls
    }

    /// The names with which an input or an output was opened so far, in order, without those whose
    /// opening failed.
    pub fn asked(&self) -> &[String]
        ensures { map string_bytes result.now ≡ self.now.asked }
    {
        self.asked.as_slice()
    }

    /// The name and the bytes of each output that was closed without a failure so far, in order.
    pub fn closed(&self) -> &[(String, Vec<u8>)]
        ensures { map file_of result.now ≡ self.now.kept }
    {
        self.kept.as_slice()
    }

    /// The bytes that were written to the output since the last call of `open_out`, which empties
    /// it even if the opening fails. They remain after the output is closed.
    pub fn output(&self) -> &[u8]
        ensures { result.now ≡ self.now.output }
    {
        self.output.as_slice()
    }

    /// The bytes that were printed on standard output so far.
    pub fn said(&self) -> &[u8]
        ensures { result.now ≡ self.now.said }
    {
        self.said.as_slice()
    }

    /// Numbers this call, and says whether it is to fail.
    fn begin_call(&mut self) -> bool
        ensures number { self.new ≡ with_call_numbered self.old }
        ensures fails { IsTrue result ↔ IsToFail self.old }
    {
        let number = self.calls;
        self.calls = number.saturating_add(1);
        self.failing.contains(&number)
    }

    /// How many of `count` bytes go in one call.
    fn piece(&self, count: usize) -> usize
        ensures { result ≡ piece self.now count }
    {
        match self.most {
            Some(most) => count.min(most as usize),
            None => count,
        }
    }

    /// Counts a fault of reading.
    fn read_fault(&mut self) -> Failed
        ensures fault { result ≡ Failed.Fault }
        ensures counted { self.new ≡ with_read_fault self.old }
    {
        self.read_faults = self.read_faults.saturating_add(1);
        Failed::Fault
    }

    /// Counts a fault of writing.
    fn write_fault(&mut self) -> Failed
        ensures fault { result ≡ Failed.Fault }
        ensures counted { self.new ≡ with_write_fault self.old }
    {
        self.write_faults = self.write_faults.saturating_add(1);
        Failed::Fault
    }
}

impl Host for MemHost {
    ghost meaning = { memory_meaning };

    ghost tells_whole = { λ _. record { input = λ told. told; output = λ told. (told, told) } };

    /// Opens the file of this name, and notes the name among the requested ones.
    ///
    /// It is a fault exactly if the call is to fail or no file has the name. On failure no input is
    /// open, and the name is not noted.
    fn open_in(&mut self, name: &str) -> Result<(), Failed>
        ensures after { self.new ≡ after_open_in self.old name.now result }
        ensures found { OnOk result (IsSome (finite.get self.old.files name.now)) }
        ensures exact { IsErrOf result Failed.Fault ↔ (IsToFail self.old ⊎ IsNone (finite.get self.old.files name.now)) }
    {
        self.reading = false;
        if self.begin_call() {
            return Err(self.read_fault());
        }
        let Some(bytes) = find(self.files.as_slice(), name) else {
            return Err(self.read_fault());
        };
        let input = Vec::from_slice(self.alloc, bytes)?;
        self.asked.push(String::from_str(self.alloc, name)?)?;
        self.input = input;
        self.given = 0;
        self.reading = true;
        Ok(())
    }

    /// Reads as many bytes as remain in the input, fit in the buffer and go in one call, and leaves
    /// the rest of the buffer unchanged.
    ///
    /// It is a fault exactly if the call is to fail, and never runs out of memory. On failure the
    /// buffer is unchanged.
    fn read(&mut self, into: &mut [u8]) -> Result<usize, Failed>
        requires open { self.old.reading ≡ true }
        requires within_bound { 0 < length into.old }
        ensures after { self.new ≡ after_read self.old result }
        ensures count { IfOk result (λ count. count ≡ piece self.old (min (length into.old) (length self.old.input))) }
        ensures end { IfOk result (λ count. count ≡ 0 → self.old.input ≡ []) }
        ensures given { IfOk result (λ count. into.new ≡ take count self.old.input ++ drop count into.old) }
        ensures kept { OnErr result (into.new ≡ into.old) }
        ensures exact { IsErrOf result Failed.Fault ↔ IsToFail self.old }
        ensures no_growth { result ≢ Err Failed.Memory }
    {
        // A call that fails takes nothing off the input.
        if self.begin_call() {
            return Err(self.read_fault());
        }
        let rest = &self.input[self.given..];
        let count = self.piece(into.len().min(rest.len()));
        into[..count].copy_from_slice(&rest[..count]);
        self.given += count;
        Ok(count)
    }

    /// Opens an empty output, and notes the name among the requested ones.
    ///
    /// It is a fault exactly if the call is to fail. On failure the output is empty and not open,
    /// and the name is not noted.
    fn open_out(&mut self, name: &str) -> Result<(), Failed>
        ensures after { self.new ≡ after_open_out self.old name.now result }
        ensures exact { IsErrOf result Failed.Fault ↔ IsToFail self.old }
    {
        self.output.clear();
        self.writing = false;
        if self.begin_call() {
            return Err(self.write_fault());
        }
        let named = String::from_str(self.alloc, name)?;
        self.asked.push(String::from_str(self.alloc, name)?)?;
        self.named = named;
        self.writing = true;
        Ok(())
    }

    /// Appends the first bytes to the output, as many as go in one call.
    ///
    /// It is a fault exactly if the call is to fail. On failure nothing is appended.
    fn write(&mut self, from: &[u8]) -> Result<usize, Failed>
        requires open { self.old.writing ≡ true }
        requires some { 0 < length from.now }
        ensures after { self.new ≡ after_write self.old from.now result }
        ensures count { IfOk result (λ count. count ≡ piece self.old (length from.now)) }
        ensures some { IfOk result (λ count. 0 < count) }
        ensures exact { IsErrOf result Failed.Fault ↔ IsToFail self.old }
    {
        if self.begin_call() {
            return Err(self.write_fault());
        }
        let count = self.piece(from.len());
        self.output.extend_from_slice(&from[..count])?;
        Ok(count)
    }

    /// Closes the output, whose bytes remain, and records a copy of it with its name.
    ///
    /// It is a fault exactly if the call is to fail. On failure the output is closed too, and no
    /// copy is recorded.
    fn close_out(&mut self) -> Result<(), Failed>
        requires { self.old.writing ≡ true }
        ensures after { self.new ≡ after_close_out self.old result }
        ensures exact { IsErrOf result Failed.Fault ↔ IsToFail self.old }
    {
        self.writing = false;
        if self.begin_call() {
            return Err(self.write_fault());
        }
        let name = String::from_str(self.alloc, self.named.as_str())?;
        let bytes = Vec::from_slice(self.alloc, self.output.as_slice())?;
        self.kept.push((name, bytes))?;
        Ok(())
    }

    /// Appends the first bytes to standard output, as many as go in one call.
    ///
    /// It is a fault exactly if the call is to fail. On failure nothing is appended.
    fn say(&mut self, from: &[u8]) -> Result<usize, Failed>
        requires { 0 < length from.now }
        ensures after { self.new ≡ after_say self.old from.now result }
        ensures count { IfOk result (λ count. count ≡ piece self.old (length from.now)) }
        ensures some { IfOk result (λ count. 0 < count) }
        ensures exact { IsErrOf result Failed.Fault ↔ IsToFail self.old }
    {
        if self.begin_call() {
            return Err(self.write_fault());
        }
        let count = self.piece(from.len());
        self.said.extend_from_slice(&from[..count])?;
        Ok(count)
    }
}

/// The bytes of the first file of that name.
fn find<'a>(files: &'a [(String, Vec<u8>)], name: &str) -> Option<&'a [u8]>
    ensures { option_map (λ bytes. bytes.now) result ≡ finite.get (files_of files.now) name.now }
{
    for (known, bytes) in files {
        if known.as_str() == name {
            return Some(bytes.as_slice());
        }
    }
    None
}
