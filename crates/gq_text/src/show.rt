//! How numbers are shown: rounded to some number of decimals, or exactly.
ghost use Rattle.std.specs.Prelude.{◌≡◌, ◌≤◌, decimal};
ghost use Rattle.gq_text.specs.Shown.{most_decimals, IsRoundedText, IsExactText};
ghost use Rattle.gq_text.specs.ExactText.{exact_text};

use crate::digits::Digits;
use crate::division::rounded;
use gq_field::ExactField;

/// The most decimals to which a number may be rounded.
pub const MOST_DECIMALS: u8 = 8;

/// Replaces the text of `into` by the number `v` rounded to `decimals` decimals, halves away from
/// 0. `decimals` must be at most 8.
///
/// A `-` comes first if `v` is below 0 and is not rounded to 0; then the rounded number's integer
/// part, without sign or leading zeros (`0` if it is 0). If `decimals` is above 0, a point and
/// exactly `decimals` digits follow (GAMS User's Guide, "The Display Statement").
pub fn put_rounded<F: ExactField>(v: F, decimals: u8, into: &mut Digits)
    requires { decimals ≤ most_decimals }
    ensures { IsRoundedText decimals (F.value v) into.new }
{
    let (numerator, denominator) = v.parts();
    let (whole, fraction) = rounded(numerator.unsigned_abs(), denominator, decimals);
    into.clear();
    into.push_sign(numerator < 0 && whole + fraction > 0);
    into.push_numeral(whole);
    into.push_decimals(fraction, decimals);
}

/// Replaces the text of `into` by the exact text of the number `v`: the numerator of its reduced
/// fraction, followed, if the denominator is not 1, by `/` and the denominator. A `-` comes first
/// if `v` is below 0.
pub fn put_exact<F: ExactField>(v: F, into: &mut Digits)
    ensures exact { IsExactText (F.value v) into.new }
    ensures text { into.new ≡ exact_text (F.value v) }
{
    let (numerator, denominator) = v.parts();
    into.clear();
    into.push_sign(numerator < 0);
    into.push_numeral(numerator.unsigned_abs());
    into.push_denominator(denominator);
}

/// Replaces the text of `into` by the decimal digits of `n`, without leading zeros.
pub fn put_whole(n: u128, into: &mut Digits)
    ensures { into.new ≡ decimal n }
{
    into.clear();
    into.push_numeral(n);
}
