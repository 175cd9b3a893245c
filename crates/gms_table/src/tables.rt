//! The entries of a table.
ghost use Rattle.std.specs.Prelude.{◌≡◌, ◌≤◌, ◌++◌, ◌∷◌, [], ℕ, List, All, IfOk, IfNone, IfSome, MatchResult, string_len};
ghost use Rattle.gms_grammar.specs.LineFaults.{longest_line};
ghost use Rattle.gms_table.specs.Words as seen_words;
ghost use Rattle.gms_table.specs.WordLabels.{IsPrefix};
ghost use Rattle.gms_table.specs.InnerShown.{seen, seen_all, AreSpaced, AreHeadings};
ghost use Rattle.gms_table.specs.TableEntries.{TablePart, cell, is_plus, under, table_of, table_parts, IsTable, IsTableRefusal};
ghost use Rattle.gms_table.specs.InnerProgress.{words_in, lines_of, row_parts, Refuses, IsRow, Keeps, LinesSoFar, IsFirstLine};

use crate::entry::{Entry, TableLine};
use crate::fault::{TableError, TableFault, TableFaultOrMemory};
use crate::given::Entries;
use crate::heading::{Heading, heading_of, read_headings};
use crate::label::enter;
use crate::number::read_number;
use crate::word::{Word, words_of};
use gms_ast::Sequence;
use gms_labels::{Labels, Place};
use gq_field::ExactField;
use std::alloc::{AllocError, Global};

/// The first line of a table with words: its words, and the lines after it.
fn first_line(
    alloc: Global,
    lines: &[TableLine],
) -> Result<Option<(Vec<Word<'_>>, &[TableLine])>, AllocError>
    requires { All (λ line. string_len line.text ≤ longest_line) lines.now }
    ensures none { IfOk result (λ found. IfNone found (table_parts lines.now ≡ [])) }
    ensures some { IfOk result (λ found. IfSome found (λ found. IsFirstLine (lines_of lines.now) (seen_all found.0.items) (lines_of found.1.now))) }
    ensures short { IfOk result (λ found. IfSome found (λ found. All (λ line. string_len line.text ≤ longest_line) found.1.now)) }
{
    let mut rest = lines;
    while let Some((line, others)) = rest.split_first() {
        let words = words_of(alloc, line.line, line.text.as_bytes())?;
        if !words.is_empty() {
            return Ok(Some((words, others)));
        }
        rest = others;
    }
    Ok(None)
}

/// Adds the entry of a number in a row of these labels.
///
/// The fault is the word's least: it meets no heading or two, there already is an entry with its
/// labels, or it is no number within the limit.
fn read_cell<F: ExactField>(
    alloc: Global,
    entries: &mut Entries<F>,
    row: &[u32],
    headings: &[Heading],
    word: Word<'_>,
) -> Result<(), TableFaultOrMemory>
    ensures { (labels : List (List ℕ)) (before : List TablePart) (table : List (List ℕ)) (label : seen_words.Word) (names : List seen_words.Word) →
        Keeps F.limit F.value labels before table entries.old → IsRow table label names row.now headings.now →
        MatchResult result
        (λ _. Keeps F.limit F.value labels (before ++ cell label names (seen word.entry) ∷ []) table entries.new)
        (Refuses F.limit labels (before ++ cell label names (seen word.entry) ∷ [])) }
{
    let Some(number) = read_number(word.text) else {
        return Err(word.fault(TableError::BadRow));
    };
    let heading = match heading_of(headings, word) {
        Ok(heading) => heading,
        Err(error) => return Err(word.fault(error)),
    };
    let column = heading.labels.as_slice();
    if entries.has(alloc, row, column)? {
        return Err(word.fault(TableError::RepeatedEntry));
    }
    let Ok(value) = number else {
        return Err(word.fault(TableError::BadRow));
    };
    entries.push(
        alloc,
        Entry {
            at: word.at,
            row: Sequence::new(Vec::from_slice(alloc, row)?),
            column: Sequence::new(Vec::from_slice(alloc, column)?),
            value,
        },
    )?;
    Ok(())
}

/// Adds the entries of a row: a row label, and numbers under these headings.
fn read_row<F: ExactField>(
    alloc: Global,
    entries: &mut Entries<F>,
    table: &mut Labels,
    headings: &[Heading],
    label: Word<'_>,
    words: &[Word<'_>],
) -> Result<(), TableFaultOrMemory>
    ensures row { (labels : List (List ℕ)) (before : List TablePart) (names : List seen_words.Word) →
        Keeps F.limit F.value labels before table.old entries.old → AreHeadings table.old names headings.now → AreSpaced names →
        MatchResult result
        (λ _. Keeps F.limit F.value labels (before ++ row_parts (seen label.entry) names (seen_all words.now)) table.new entries.new)
        (Refuses F.limit labels (before ++ row_parts (seen label.entry) names (seen_all words.now))) }
    ensures extended { IsPrefix table.old table.new }
{
    let row = enter(alloc, table, label)?;
    for word in words {
        read_cell(alloc, entries, row.as_slice(), headings, *word)?;
    }
    Ok(())
}

/// Whether a word is the `+` that new headings follow.
fn is_plus(word: Word<'_>) -> bool
    ensures { result ≡ is_plus (seen word.entry) }
{
    matches!(word.text, [b'+'])
}

/// Reads one more line: new headings after a `+`, or a row under the present headings.
fn read_line<F: ExactField>(
    alloc: Global,
    entries: &mut Entries<F>,
    table: &mut Labels,
    headings: &mut Vec<Heading>,
    line: &TableLine,
) -> Result<(), TableFaultOrMemory>
    requires { string_len line.now.text ≤ longest_line }
    ensures line { (labels : List (List ℕ)) (before : List TablePart) (begun : List seen_words.Word) (all rest : List (List seen_words.Word)) →
        LinesSoFar F.limit F.value labels before begun all (words_in line.now ∷ rest) table.old entries.old headings.old.items →
        MatchResult result
        (λ _. LinesSoFar F.limit F.value labels before begun all rest table.new entries.new headings.new.items)
        (Refuses F.limit labels (before ++ under begun all)) }
    ensures extended { IsPrefix table.old table.new }
{
    let words = words_of(alloc, line.line, line.text.as_bytes())?;
    let Some((first, others)) = words.as_slice().split_first() else {
        return Ok(());
    };
    if is_plus(*first) {
        *headings = read_headings(alloc, table, others)?;
        return Ok(());
    }
    read_row(alloc, entries, table, headings.as_slice(), *first, others)
}

/// Adds the entries of rows, of which the first ones are under these headings.
fn read_rows<F: ExactField>(
    alloc: Global,
    entries: &mut Entries<F>,
    table: &mut Labels,
    mut headings: Vec<Heading>,
    lines: &[TableLine],
) -> Result<(), TableFaultOrMemory>
    requires { All (λ line. string_len line.text ≤ longest_line) lines.now }
    ensures rows { (labels : List (List ℕ)) (before : List TablePart) (names : List seen_words.Word) →
        Keeps F.limit F.value labels before table.old entries.old → AreHeadings table.old names headings.items → AreSpaced names →
        MatchResult result
        (λ _. Keeps F.limit F.value labels (before ++ under names (lines_of lines.now)) table.new entries.new)
        (Refuses F.limit labels (before ++ under names (lines_of lines.now))) }
    ensures extended { IsPrefix table.old table.new }
{
    for line in lines {
        read_line(alloc, entries, table, &mut headings, line)?;
    }
    Ok(())
}

/// The entries of a table, in the order of its numbers (GAMS User's Guide, "Data Entry: Parameters,
/// Scalars and Tables").
///
/// The first line with words has the headings. Of the lines below it, one whose first word is `+`
/// has new headings after this word, in place of the earlier ones; any other is a row: a row label,
/// and numbers. Lines without words are skipped. Headings and row labels are labels joined by dots;
/// new labels are appended to `labels` in the order of their occurrence. Each number belongs to the
/// one heading with which it shares a column: the columns of a word go from that of its first byte
/// up to, and without, that of the byte after it. A line may have at most 32,768 bytes.
///
/// The fault, unless it is `NoHeading`, is at the first word with a fault, by line and then from
/// left to right. Of several faults at this word it is the one with the least error number:
/// - `NoColumn` (21) at a number of any size that shares a column with no heading;
/// - `TwoColumns` (22) at a number of any size that shares columns with two or more headings;
/// - `RepeatedEntry` (23) at a number of any size whose row label and heading an earlier number
///   has, letter case ignored;
/// - `BadRow` (24) at a heading or a row label that is not made of labels, and at any other word of
///   a row that is no number within the limit of `F`;
/// - `NoHeading` (25), at line 0 and column 0, exactly if no line has a word;
/// - `Labels` (26) at a heading or a row label with a label after the 65,536th, the most that
///   `labels` may have.
///
/// `Memory` means out of memory. After any error `labels` may have more labels than before.
pub fn table<F: ExactField>(
    alloc: Global,
    lines: &[TableLine],
    labels: &mut Labels,
) -> Result<Vec<Entry<F>>, TableFaultOrMemory>
    requires { All (λ line. string_len line.text ≤ longest_line) lines.now }
    ensures table { MatchResult result
        (λ entries. IsTable F.limit F.value lines.now labels.old labels.new entries.items)
        (λ error. IsTableRefusal F.limit lines.now labels.old error) }
    ensures extended { IsPrefix labels.old labels.new }
{
    let Some((words, rows)) = first_line(alloc, lines)? else {
        return Err(TableFaultOrMemory::Fault(TableFault {
            error: TableError::NoHeading,
            at: Place { line: 0, column: 0 },
        }));
    };
    let headings = read_headings(alloc, labels, words.as_slice())?;
    let mut entries = Entries::new(alloc);
    read_rows(alloc, &mut entries, labels, headings, rows)?;
    Ok(entries.into_vec())
}
