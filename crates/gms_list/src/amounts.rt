//! Numbers of a solve in a listing: with three decimals, or exactly.
ghost use Rattle.std.specs.Prelude.{◌≡◌, option_map};
ghost use Rattle.gq_text.specs.ExactText.{exact_text};
ghost use Rattle.gms_list.specs.SolveText.{amount, rounded_bound_text};

use gq_field::ExactField;
use gq_text::{Digits, put_exact, put_rounded};

/// With how many decimals the numbers of a solve are shown.
const DECIMALS: u8 = 3;

/// The text of a number with three decimals.
pub(crate) fn amount<F: ExactField>(x: F, digits: &mut Digits) -> &str
    ensures { result.now ≡ amount (F.value x) }
{
    put_rounded(x, DECIMALS, digits);
    digits.as_str()
}

/// The exact text of a number.
pub(crate) fn exact<F: ExactField>(x: F, digits: &mut Digits) -> &str
    ensures { result.now ≡ exact_text (F.value x) }
{
    put_exact(x, digits);
    digits.as_str()
}

/// The text of a bound: with three decimals, or for an infinite bound the word `none`, which is
/// -INF or +INF.
pub(crate) fn bound<'d, F: ExactField>(
    x: Option<F>,
    none: &'static str,
    digits: &'d mut Digits,
) -> &'d str
    ensures { result.now ≡ rounded_bound_text none.now (option_map F.value x) }
{
    match x {
        Some(x) => amount(x, digits),
        None => none,
    }
}
