//! The headings of a table, and the one above a number.
ghost use Rattle.std.specs.Prelude.{◌≡◌, ℕ, List};
ghost use Rattle.gms_table.specs.Words as words;
ghost use Rattle.gms_table.specs.WordLabels.{IsPrefix};
ghost use Rattle.gms_table.specs.InnerShown.{seen, seen_all, AreSpaced, AreHeadings, begin_before};
ghost use Rattle.gms_table.specs.TableEntries.{TablePart};
ghost use Rattle.gms_table.specs.InnerProgress.{Progress, ReadsHeadings, AreLeft, Finds};

use crate::fault::{TableError, TableFaultOrMemory};
use crate::label::enter;
use crate::word::Word;
use gms_labels::Labels;
use std::alloc::Global;

/// A heading: the columns that it takes, and its labels by their numbers.
#[derive(Drop)]
pub(crate) struct Heading {
    /// The column of its first byte.
    pub(crate) column: u32,
    /// The column after it.
    pub(crate) end: u32,
    /// Its labels.
    pub(crate) labels: Vec<u32>,
}

/// The headings that these words are, whose labels are entered in a table of labels.
pub(crate) fn read_headings(
    alloc: Global,
    table: &mut Labels,
    words: &[Word<'_>],
) -> Result<Vec<Heading>, TableFaultOrMemory>
    ensures read { (limit : ℕ) (labels : List (List ℕ)) (before : List TablePart) → Progress limit labels before table.old
        → ReadsHeadings limit labels before (seen_all words.now) table.new result }
    ensures extended { IsPrefix table.old table.new }
{
    let mut headings = Vec::with_capacity(alloc, words.len())?;
    for word in words {
        let labels = enter(alloc, table, *word)?;
        headings.push(Heading {
            column: word.at.column,
            end: word.end,
            labels,
        })?;
    }
    Ok(headings)
}

/// The headings that end after a column.
fn ending_after(headings: &[Heading], column: u32) -> &[Heading]
    ensures { (table : List (List ℕ)) (names : List words.Word) (number : words.Word) →
        AreHeadings table names headings.now → AreSpaced names → number.at.column ≡ column →
        AreLeft table names number result.now }
{
    let first = headings.partition_point(|heading| heading.end <= column);
    &headings[first..]
}

/// Whether the first of these headings begins before a column.
fn begin_before(headings: &[Heading], column: u32) -> bool
    ensures { result ≡ begin_before headings.now column }
{
    matches!(headings, [heading, ..] if heading.column < column)
}

/// The one heading that a number meets.
///
/// `NoColumn` exactly if it meets none, and `TwoColumns` exactly if it meets two or more.
pub(crate) fn heading_of<'a>(
    headings: &'a [Heading],
    word: Word<'_>,
) -> Result<&'a Heading, TableError>
    ensures { (table : List (List ℕ)) (names : List words.Word) → AreHeadings table names headings.now → AreSpaced names
        → Finds table names (seen word.entry) result }
{
    let left = ending_after(headings, word.at.column);
    let Some((heading, others)) = left.split_first() else {
        return Err(TableError::NoColumn);
    };
    if heading.column >= word.end {
        Err(TableError::NoColumn)
    } else if begin_before(others, word.end) {
        Err(TableError::TwoColumns)
    } else {
        Ok(heading)
    }
}
