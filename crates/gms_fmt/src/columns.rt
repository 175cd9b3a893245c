//! Texts set in columns.
ghost use Rattle.gms_fmt.specs.Columns.{blanks, right_in, left_in, Appends};

use std::alloc::{AllocError, Global};

/// Appends `count` blanks.
fn push_blanks(count: usize, into: &mut Vec<u8>) -> Result<(), AllocError>
    ensures { Appends result into.old.items into.new.items (blanks count) }
{
    for _ in 0..count {
        into.push(b' ')?;
    }
    Ok(())
}

/// Appends a text to `into`, at the right edge of a column of `width` bytes: blanks, then the text.
/// A text that is longer than the column is appended whole, without blanks.
///
/// If memory runs out, a prefix of these bytes is appended. GAMS User's Guide, "GAMS Output".
pub fn right(_alloc: Global, text: &str, width: usize, into: &mut Vec<u8>) -> Result<(), AllocError>
    ensures { Appends result into.old.items into.new.items (right_in width text.now) }
{
    push_blanks(width.saturating_sub(text.len()), into)?;
    into.extend_from_slice(text.as_bytes())
}

/// Appends a text to `into`, at the left edge of a column of `width` bytes: the text, then blanks.
/// A text that is longer than the column is appended whole, without blanks.
///
/// If memory runs out, a prefix of these bytes is appended. GAMS User's Guide, "GAMS Output".
pub fn left(_alloc: Global, text: &str, width: usize, into: &mut Vec<u8>) -> Result<(), AllocError>
    ensures { Appends result into.old.items into.new.items (left_in width text.now) }
{
    into.extend_from_slice(text.as_bytes())?;
    push_blanks(width.saturating_sub(text.len()), into)
}
