//! The text of a source as tokens are read off it.
ghost use Rattle.std.specs.Prelude.{◌≡◌, ◌++◌, length, map, IfOk, OnOk};
ghost use Rattle.gms_grammar.specs.Errors.{IsFirstFault};
ghost use Rattle.gms_grammar.specs.Lines.{blanked, read_as, code_text};
ghost use Rattle.gms_grammar.specs.LineFaults.{IsLineFault};

use crate::fault::ByteFault;
use crate::line::{Class, class_of, inside_after, split_line};
use crate::line_faults::first_in_line;
use std::alloc::{AllocError, Global};

/// The text from which tokens are read: the source with blanks in place of comment lines and
/// control lines. And the first lexical error in the lines of the source, if any.
#[derive(Drop)]
pub struct CodeText {
    /// The source, with blanks for the bytes of comments and control lines (`$` in column 1) except
    /// tabs and line ends. Positions stay.
    pub text: Vec<u8>,
    /// The first lexical error in the lines of the source, `None` without one. Errors at any byte
    /// are a control character other than tab and line ends, and a byte above 127 in a control
    /// line. Errors at a line's first byte are an `$ontext` that is not ended, a line of over
    /// 32,768 bytes, and a control line whose first word is none of the ten accepted control words,
    /// such as `$title`. Of several errors at one byte, the first has the least number
    /// (`LexError::code`).
    pub fault: Option<ByteFault>,
}

/// A byte of a line without tokens as blank.
fn blanked(byte: u8) -> u8
    ensures { result ≡ blanked byte }
{
    match byte {
        b'\t' | b'\n' | b'\r' => byte,
        _ => b' ',
    }
}

/// Appends a line with blanks in place of its bytes.
fn append_blanked(code: &mut Vec<u8>, line: &[u8]) -> Result<(), AllocError>
    ensures { OnOk result (code.new.items ≡ code.old.items ++ map blanked line.now) }
{
    for byte in line {
        code.push(blanked(*byte))?;
    }
    Ok(())
}

/// Appends a line as tokens are read off it.
fn append_line(code: &mut Vec<u8>, class: Class, line: &[u8]) -> Result<(), AllocError>
    ensures { OnOk result (code.new.items ≡ code.old.items ++ read_as class line.now) }
{
    match class {
        Class::Comment | Class::Control => append_blanked(code, line),
        Class::Code => code.extend_from_slice(line),
    }
}

/// The text from which the tokens of a source are read: the source with comments and control lines
/// blank; and the first lexical error of its lines, by byte and then by error number (GAMS User's
/// Guide, "Language Items" and "Dollar Control Options").
///
/// A line with `*` in column 1 is a comment. So are the lines after an `$ontext` line, through the
/// next that begins with `$offtext`. Any other line with `$` in column 1 is a control line. Lexical
/// errors of lines are a control character other than tab, a byte above 127 in a control line, an
/// `$ontext` without later `$offtext`, a line of over 32,768 bytes, and an unknown control word.
/// The call's error is out of memory.
pub fn code_text(alloc: Global, source: &[u8]) -> Result<CodeText, AllocError>
    ensures text { IfOk result (λ code. code.text.items ≡ code_text source.now) }
    ensures as_long { IfOk result (λ code. length code.text.items ≡ length source.now) }
    ensures fault { IfOk result (λ code. IsFirstFault (IsLineFault source.now) code.fault) }
{
    let mut text = Vec::with_capacity(alloc, source.len())?;
    let mut fault = None;
    let mut inside = false;
    let mut start = 0;
    let mut rest = source;
    while let Some((line, others)) = split_line(rest) {
        fault = fault.or(first_in_line(start, inside, line, others));
        append_line(&mut text, class_of(inside, line), line)?;
        inside = inside_after(inside, line);
        start += line.len();
        rest = others;
    }
    Ok(CodeText { text, fault })
}
