//! Texts of elements.
ghost use Rattle.std.specs.Prelude.{◌≡◌, ◌++◌, map, IfOk, OnOk, string_bytes};
ghost use Rattle.gms_fmt.specs.ElementTexts.{label_in_table, joined_by, element_text, dotted_text};

use gms_labels::Labels;
use gms_tuple::Tuple;
use std::alloc::{AllocError, Global};

/// The text that has the number `n` in a table of names or labels, as it was first written; the
/// empty text if the table has no such number.
pub fn text_of(table: &Labels, n: u32) -> &str
    ensures { result.now ≡ label_in_table table.now n }
{
    if n < table.len() { table.text(n) } else { "" }
}

/// Appends the labels of a tuple, with a text between each and the next.
fn push_labels(
    labels: &Labels,
    t: &Tuple,
    between: &str,
    into: &mut String,
) -> Result<(), AllocError>
    ensures { OnOk result (string_bytes into.new ≡ string_bytes into.old ++ joined_by between.now (map (label_in_table labels.now) t.now)) }
{
    let mut first = true;
    for label in t.as_slice() {
        if !first {
            into.push_str(between)?;
        }
        into.push_str(text_of(labels, *label))?;
        first = false;
    }
    Ok(())
}

/// The text of the element of the name `name` with the labels `t`: `x` without labels, else
/// `x(a,b)`. Names and labels are as they were first written; a number past the end of `names` or
/// `labels` has the empty text. The error is out of memory.
pub fn element(
    alloc: Global,
    names: &Labels,
    labels: &Labels,
    name: u32,
    t: &Tuple,
) -> Result<String, AllocError>
    ensures { IfOk result (λ text. string_bytes text ≡ element_text names.now labels.now name t.now) }
{
    let mut text = String::from_str(alloc, text_of(names, name))?;
    if !t.as_slice().is_empty() {
        text.push_str("(")?;
        push_labels(labels, t, ",", &mut text)?;
        text.push_str(")")?;
    }
    Ok(text)
}

/// The text of a tuple: its labels, as they were first written, with dots between them, as `a.b`. A
/// label's number past the end of the table `labels` has the empty text. The error is out of
/// memory.
pub fn dotted(alloc: Global, labels: &Labels, t: &Tuple) -> Result<String, AllocError>
    ensures { IfOk result (λ text. string_bytes text ≡ dotted_text labels.now t.now) }
{
    let mut text = String::new(alloc);
    push_labels(labels, t, ".", &mut text)?;
    Ok(text)
}
