//! The words of a line of a table, and the columns that they take.
ghost use Rattle.std.specs.Prelude.{◌≡◌, ◌≤◌, ◌<◌, ◌+◌, ◌*◌, ◌^◌, ◌++◌, length, fold, IfOk, OnOk};
ghost use Rattle.gms_grammar.specs.LineFaults.{longest_line};
ghost use Rattle.gms_grammar.specs.Columns.{column_after};
ghost use Rattle.gms_table.specs.Words.{word_of, words_of};
ghost use Rattle.gms_table.specs.InnerShown.{seen, seen_all, AreSpaced};

use crate::fault::{TableError, TableFault, TableFaultOrMemory};
use gms_grammar::{Separator, column_after, field_length};
use gms_labels::Place;
use std::alloc::{AllocError, Global};

/// A word of a line.
#[derive(Clone, Copy)]
pub(crate) struct Word<'a> {
    /// The place of its first byte.
    pub(crate) at: Place,
    /// The column after it.
    pub(crate) end: u32,
    /// Its bytes.
    pub(crate) text: &'a [u8],
}

impl Word<'_> {
    /// This error, at the place of the word.
    pub(crate) fn fault(self, error: TableError) -> TableFaultOrMemory
        ensures { result ≡ TableFaultOrMemory.Fault (record { error = error; at = self.entry.at }) }
    {
        TableFaultOrMemory::Fault(TableFault { error, at: self.at })
    }
}

/// The column after bytes of which the first is in this column.
fn column_after_bytes(mut column: u32, text: &[u8]) -> u32
    requires { column + 8 * length text.now < 2 ^ 32 }
    ensures value { result ≡ fold column_after column text.now }
    ensures grows { column + length text.now ≤ result }
    ensures within { result ≤ column + 8 * length text.now }
{
    for byte in text {
        column = column_after(column, *byte);
    }
    column
}

/// Adds the word of these bytes, if there are any.
fn push_word<'a>(
    words: &mut Vec<Word<'a>>,
    at: Place,
    end: u32,
    text: &'a [u8],
) -> Result<(), AllocError>
    ensures { OnOk result (seen_all words.new.items ≡ seen_all words.old.items ++ word_of at end text.now) }
{
    if !text.is_empty() {
        words.push(Word { at, end, text })?;
    }
    Ok(())
}

/// The words of a line, in order, each with its columns; no two of them meet.
pub(crate) fn words_of(alloc: Global, number: u32, line: &[u8]) -> Result<Vec<Word<'_>>, AllocError>
    requires { length line.now ≤ longest_line }
    ensures words { IfOk result (λ words. seen_all words.items ≡ words_of number line.now) }
    ensures spaced { IfOk result (λ words. AreSpaced (seen_all words.items)) }
{
    let mut words = Vec::new(alloc);
    let mut start = 0;
    let mut column = 1;
    loop {
        let rest = &line[start..];
        let text = &rest[..field_length(Separator::Blank, rest)];
        let end = column_after_bytes(column, text);
        let at = Place {
            line: number,
            column,
        };
        push_word(&mut words, at, end, text)?;
        start += text.len();
        if start == line.len() {
            return Ok(words);
        }
        column = column_after(end, line[start]);
        start += 1;
    }
}
