//! Values in a listing.
ghost use Rattle.std.specs.Prelude.{◌≡◌, ◌≤◌};
ghost use Rattle.gq_extended.specs.Meaning.{extended};
ghost use Rattle.gms_list.specs.ListingText.{rounded_value_text};

use gq_extended::Ext;
use gq_field::ExactField;
use gq_text::{Digits, put_rounded};

/// The text of a value: a number rounded to this number of decimals, or the word for any other
/// value.
pub(crate) fn value_text<'d, F: ExactField>(
    value: Ext<F>,
    decimals: u8,
    digits: &'d mut Digits,
) -> &'d str
    requires { decimals ≤ 8 }
    ensures { result.now ≡ rounded_value_text decimals (extended F.value value) }
{
    match value {
        Ext::Number(x) => {
            put_rounded(x, decimals, digits);
            digits.as_str()
        }
        Ext::PlusInf => "+INF",
        Ext::MinusInf => "-INF",
        Ext::Na => "NA",
    }
}
