//! The labels of a heading or a row label.
ghost use Rattle.std.specs.Prelude.{◌≡◌, ◌≤◌, ◌<◌, ◌==◌, true, not, length, IfOk, IfSome, All, vec_len};
ghost use Rattle.std.specs.List.{list_all, prefix_len};
ghost use Rattle.std.specs.Char.{is_ascii_alphanumeric};
ghost use Rattle.std.specs.Option.{option_copied};
ghost use Rattle.gms_grammar.specs.Lines.{begins};
ghost use Rattle.gms_grammar.specs.Bytes.{is_ascii};
ghost use Rattle.gms_table.specs.WordLabels.{quoted_label, plain_label, label_of_text, labels_of_text, IsPrefix};
ghost use Rattle.gms_table.specs.InnerNames.{Enters, IsEntering, read, read_all};
ghost use Rattle.gms_table.specs.InnerShown.{seen};

use crate::fault::{TableError, TableFaultOrMemory};
use crate::word::Word;
use gms_grammar::{Separator, field_length, label_length};
use gms_labels::{LabelFault, Labels, MOST_BYTES};
use std::alloc::{AllocError, Global};

/// Whether all bytes are of ASCII.
fn are_plain(bytes: &[u8]) -> bool
    ensures { result ≡ list_all is_ascii bytes.now }
{
    bytes.iter().all(|byte| *byte <= 127)
}

/// The text of bytes that are all of ASCII.
fn plain_text(bytes: &[u8]) -> Option<&str>
    requires { list_all is_ascii bytes.now ≡ true }
    ensures { option_copied result ≡ Some bytes.now }
{
    str::from_utf8(bytes).ok()
}

/// How many bytes come before a mark.
fn inner_length(mark: u8, rest: &[u8]) -> usize
    ensures value { result ≡ prefix_len (λ b. not (b == mark)) rest.now }
    ensures within { result ≤ length rest.now }
{
    rest.iter().take_while(|byte| **byte != mark).count()
}

/// The label between a mark and the next one, which nothing follows.
fn quoted_label(mark: u8, rest: &[u8]) -> Option<&str>
    ensures label { option_copied result ≡ quoted_label mark rest.now }
    ensures short { IfSome result (λ label. length label.now ≤ 63) }
{
    let inner = inner_length(mark, rest);
    let text = &rest[..inner];
    if inner + 1 == rest.len() && inner <= MOST_BYTES && are_plain(text) {
        plain_text(text)
    } else {
        None
    }
}

/// Whether a text begins with a letter or a digit.
fn begins_label(text: &[u8]) -> bool
    ensures { result ≡ begins is_ascii_alphanumeric text.now }
{
    matches!(text, [byte, ..] if byte.is_ascii_alphanumeric())
}

/// The label that is written without marks: a letter or a digit, and then letters, digits, `+`, `-`
/// and `_`.
fn plain_label(text: &[u8]) -> Option<&str>
    ensures label { option_copied result ≡ plain_label text.now }
    ensures short { IfSome result (λ label. length label.now ≤ 63) }
{
    if begins_label(text) && label_length(text) == text.len() && text.len() <= MOST_BYTES {
        plain_text(text)
    } else {
        None
    }
}

/// The label that a text writes, if it does.
fn label_of(text: &[u8]) -> Option<&str>
    ensures label { option_copied result ≡ label_of_text text.now }
    ensures short { IfSome result (λ label. length label.now ≤ 63) }
{
    match text {
        [mark @ (b'"' | b'\''), rest @ ..] => quoted_label(*mark, rest),
        _ => plain_label(text),
    }
}

/// The labels that a text joins by dots, if it is made of labels.
fn labels_of(alloc: Global, text: &[u8]) -> Result<Option<Vec<&str>>, AllocError>
    ensures labels { IfOk result (λ labels. read labels ≡ labels_of_text text.now) }
    ensures short { IfOk result (λ labels. IfSome labels (λ labels. All (λ label. length label.now ≤ 63) labels.items)) }
    ensures some { IfOk result (λ labels. IfSome labels (λ labels. 0 < vec_len labels)) }
{
    let mut labels = Vec::new(alloc);
    let mut rest = text;
    loop {
        let (prefix, following) = rest.split_at(field_length(Separator::Dot, rest));
        let Some(label) = label_of(prefix) else {
            return Ok(None);
        };
        labels.push(label)?;
        match following {
            [] => return Ok(Some(labels)),
            [_, others @ ..] => rest = others,
        }
    }
}

/// The numbers of labels in a table of labels, in which they are entered.
fn enter_all(alloc: Global, table: &mut Labels, labels: &[&str]) -> Result<Vec<u32>, LabelFault>
    requires { All (λ label. length label.now ≤ 63) labels.now }
    ensures entered { IsEntering table.old table.new (read_all labels.now) result }
    ensures extended { IsPrefix table.old table.new }
{
    let mut numbers = Vec::with_capacity(alloc, labels.len())?;
    for label in labels {
        numbers.push(table.enter(alloc, *label)?)?;
    }
    Ok(numbers)
}

/// The numbers of the labels of a heading or a row label, in a table of labels in which they are
/// entered.
///
/// `BadRow` exactly if the word is not made of labels, and `Labels` exactly if one of them exceeds
/// the limit of the table of labels.
pub(crate) fn enter(
    alloc: Global,
    table: &mut Labels,
    word: Word<'_>,
) -> Result<Vec<u32>, TableFaultOrMemory>
    ensures entered { Enters table.old table.new (seen word.entry) result }
    ensures extended { IsPrefix table.old table.new }
{
    let Some(labels) = labels_of(alloc, word.text)? else {
        return Err(word.fault(TableError::BadRow));
    };
    match enter_all(alloc, table, labels.as_slice()) {
        Ok(numbers) => Ok(numbers),
        Err(LabelFault::Full) => Err(word.fault(TableError::Labels)),
        Err(LabelFault::Memory) => Err(TableFaultOrMemory::Memory),
    }
}
