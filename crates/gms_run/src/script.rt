//! The loaded input: a source, alone or joint, or a save that cannot be restored.
ghost use Rattle.std.specs.Prelude.{◌≡◌, ◌≤◌, length, IfOk};
ghost use Rattle.gms_lex.specs.Tokens.{most_source_bytes};
ghost use Rattle.gms_run.specs.Scripts.{first_line, joint_source};

use gms_save::SaveFault;
use std::alloc::{AllocError, Global};

/// The text between a saved source and a file that resumes from it.
const SEAM: &[u8] = b"\n;\n";

/// How many lines a joint source has before its file, beside those that end in the saved source.
const SEAM_LINES: u32 = 3;

/// A source to run: a file alone, or a file that resumes from a saved state.
#[derive(Clone, Copy)]
pub(crate) struct Script<'a> {
    /// The bytes of the whole source: the file alone, or the joint source, which is a saved source,
    /// a line with `;` and the file.
    pub source: &'a [u8],
    /// The bytes of the file to run. The listing echoes its lines, but not those of a saved source
    /// before it.
    pub file: &'a [u8],
    /// The number of the file's first line in the whole source, from 1.
    pub line: u32,
    /// Whether the file resumes from a saved state. If so, the whole source is the joint source;
    /// else it is the file alone.
    pub joint: bool,
}

/// What loading the input gives: a source to run, or the fault of a save that cannot be restored.
#[derive(Clone, Copy)]
pub(crate) enum LoadedInput<'a> {
    /// A source.
    ToRun(Script<'a>),
    /// Nothing, because a save cannot be restored.
    Unrestored(SaveFault),
}

/// The joint source of a saved source and a file that resumes from it.
pub(crate) fn joint_source(alloc: Global, saved: &[u8], file: &[u8]) -> Result<Vec<u8>, AllocError>
    ensures { IfOk result (λ joint. joint.items ≡ joint_source saved.now file.now) }
{
    let mut joint = Vec::from_slice(alloc, saved)?;
    joint.extend_from_slice(SEAM)?;
    joint.extend_from_slice(file)?;
    Ok(joint)
}

/// The line of a joint source at which the file begins, by the saved source.
pub(crate) fn first_line(saved: &[u8]) -> u32
    requires { length saved.now ≤ most_source_bytes }
    ensures { result ≡ first_line saved.now }
{
    let ends = saved.iter().filter(|byte| **byte == b'\n').count();
    ends as u32 + SEAM_LINES
}
