//! The numbers in a row of a table.
ghost use Rattle.std.specs.Prelude.{◌≡◌, ◌==◌};
ghost use Rattle.gms_grammar.specs.Lines.{begins};
ghost use Rattle.gms_table.specs.CellNumbers.{unsigned};
ghost use Rattle.gms_table.specs.InnerNumbers.{ReadsCell};

use gq_field::{ExactField, Limit};
use gq_text::{NumberFault, read_decimal};

/// A text without the sign that it begins with, if it does.
fn unsigned(text: &[u8]) -> &[u8]
    ensures { result.now ≡ unsigned text.now }
{
    match text {
        [b'+' | b'-', rest @ ..] => rest,
        _ => text,
    }
}

/// Whether a text begins with `-`.
fn is_negative(text: &[u8]) -> bool
    ensures { result ≡ begins (λ b. b == 45) text.now }
{
    matches!(text, [b'-', ..])
}

/// The value of a number with or without a sign, or that it is not within the limit. `None` exactly
/// if the text is no number.
pub(crate) fn read_number<F: ExactField>(text: &[u8]) -> Option<Result<F, Limit>>
    ensures { ReadsCell F.limit F.value text.now result }
{
    match read_decimal::<F>(unsigned(text)) {
        Ok(magnitude) if is_negative(text) => Some(Ok(magnitude.neg())),
        Ok(magnitude) => Some(Ok(magnitude)),
        Err(NumberFault::Limit) => Some(Err(Limit)),
        Err(NumberFault::Shape) => None,
    }
}
