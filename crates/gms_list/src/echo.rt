//! The echo of a source.
ghost use Rattle.std.specs.Prelude.{◌≡◌, ◌∷◌, ◌<◌, length, take, map};
ghost use Rattle.gms_grammar.specs.Lines.{lines, content, before, is_line_end};
ghost use Rattle.gms_fmt.specs.Columns.{Appends};
ghost use Rattle.gms_list.specs.ListingText.{echo_text, numbered_line};
ghost use Rattle.gms_list.specs.InnerLineEnds.{text_after_end};

use crate::listing::Listing;
use gms_grammar::content_length;
use std::alloc::{AllocError, Global};

/// The text after the line end with which it begins.
fn text_after_end(text: &[u8]) -> &[u8]
    ensures { result.now ≡ text_after_end text.now }
{
    match text {
        [b'\r', b'\n', following @ ..] => following,
        [b'\n', following @ ..] => following,
        _ => &[],
    }
}

/// The text after its first line, which has `count` bytes before its line end.
fn text_after_line(text: &[u8], count: usize) -> &[u8]
    requires some { 0 < length text.now }
    requires end { count ≡ before is_line_end text.now }
    ensures shorter { length result.now < length text.now }
    ensures lines { map content (lines text.now) ≡ take count text.now ∷ map content (lines result.now) }
{
    text_after_end(&text[count..])
}

impl Listing {
    /// Appends the lines of a source, each after its line number; the first line has the number 1.
    pub fn echo(&mut self, alloc: Global, source: &[u8]) -> Result<(), AllocError>
        ensures { Appends result self.old self.new (echo_text 1 source.now) }
    {
        self.echo_from(alloc, source, 1)
    }

    /// Appends the lines of `source`, each after its number, which is `line` for the first. A
    /// carriage return before a line feed is dropped, and a missing last line feed is supplied;
    /// other bytes stay. If memory runs out, a prefix is appended.
    pub fn echo_from(&mut self, alloc: Global, source: &[u8], line: u32) -> Result<(), AllocError>
        ensures { Appends result self.old self.new (echo_text line source.now) }
    {
        let first = line as u128;
        let mut rest = source;
        // There are no more lines than bytes.
        for number in first..first + source.len() as u128 {
            if rest.is_empty() {
                break;
            }
            let length = content_length(rest);
            self.push_line(alloc, number, &rest[..length])?;
            rest = text_after_line(rest, length);
        }
        Ok(())
    }

    /// Appends a line after its number.
    fn push_line(&mut self, alloc: Global, number: u128, line: &[u8]) -> Result<(), AllocError>
        ensures { Appends result self.old self.new (numbered_line number line.now) }
    {
        let number = format!(in alloc; "{number:>6}  ")?;
        self.push(number.as_str())?;
        self.push_bytes(line)?;
        self.push("\n")
    }
}
