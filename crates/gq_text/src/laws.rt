//! What the texts of numbers say, as laws.
ghost use Rattle.std.specs.Prelude.{◌≡◌, ◌≢◌, ℕ, ◌*◌, ◌%◌, ◌^◌, List, ℤ, pos};
ghost use Rattle.gq_number.specs.Number.{Number, whole, ratio, ◌-ℚ◌};
ghost use Rattle.gq_number.specs.Order.{◌≤ℚ◌, ◌<ℚ◌, abs_ℚ};
ghost use Rattle.gq_text.specs.Numeral.{IsNumeral};
ghost use Rattle.gq_text.specs.Decimal.{MeansNumber, MeansSigned, scaled_by_ten};
ghost use Rattle.gq_text.specs.Shown.{most_decimals, IsFixedSigned, IsRoundedText, IsExactText, MeansQuotient};

use crate::show::MOST_DECIMALS;

/// A text means at most one number in each of three readings: as a decimal without a sign; as a
/// decimal, perhaps after `-`; and as a text of the second reading, perhaps followed by `/` and a
/// decimal without a sign (the quotient). A number is in at most one way m times 10^e, with a
/// natural number m that does not end in 0. So whether a decimal is within a field's limit, which m
/// and e decide, depends on its number and not on how it is written.
pub fn reading_laws()
    ensures one_number { (text : List ℕ) (x y : Number) →
        MeansNumber text x → MeansNumber text y → x ≡ y }
    ensures one_signed { (text : List ℕ) (x y : Number) →
        MeansSigned text x → MeansSigned text y → x ≡ y }
    ensures one_quotient { (text : List ℕ) (x y : Number) →
        MeansQuotient text x → MeansQuotient text y → x ≡ y }
    ensures one_power { (m n : ℕ) (e f : ℤ) → m % 10 ≢ 0 → n % 10 ≢ 0 →
        scaled_by_ten (whole (pos m)) e ≡ scaled_by_ten (whole (pos n)) f → (m ≡ n) × (e ≡ f) }
{}

/// A natural number has at most one numeral: its decimal digits without leading zeros. A number has
/// at most one exact text: its reduced numerator, followed by `/` and the denominator if this is
/// not 1. For each number of decimals it has at most one rounded text: the number rounded to this
/// many decimals, halves away from 0. `-` precedes the text of a number below 0 that is not rounded
/// to 0.
///
/// The exact text of x means x (`exact_reads_back`). The text of n / 10^d with d decimals, n an
/// integer, means n / 10^d (`fixed_reads`). Let u be 10^-d. The rounded text of x with d decimals
/// means a number at most u / 2 from x (`rounded_near`). A text with d decimals that means a number
/// less than u / 2 from x is the rounded text of x with d decimals (`rounded_only`).
pub fn showing_laws()
    ensures one_numeral { (n : ℕ) (s t : List ℕ) → IsNumeral n s → IsNumeral n t → s ≡ t }
    ensures one_exact { (x : Number) (s t : List ℕ) → IsExactText x s → IsExactText x t → s ≡ t }
    ensures one_rounded { (decimals : ℕ) (x : Number) (s t : List ℕ) →
        IsRoundedText decimals x s → IsRoundedText decimals x t → s ≡ t }
    ensures exact_reads_back { (x : Number) (text : List ℕ) →
        IsExactText x text → MeansQuotient text x }
    ensures fixed_reads { (decimals : ℕ) (n : ℤ) (text : List ℕ) →
        IsFixedSigned decimals n text → MeansSigned text (ratio n (10 ^ decimals)) }
    ensures rounded_near { (decimals : ℕ) (x : Number) (text : List ℕ) →
        IsRoundedText decimals x text → (y : Number) × MeansSigned text y
        × (abs_ℚ (x -ℚ y) ≤ℚ ratio (pos 1) (2 * 10 ^ decimals)) }
    ensures rounded_only { (decimals : ℕ) (x y : Number) (n : ℤ) (text : List ℕ) →
        IsFixedSigned decimals n text → MeansSigned text y →
        abs_ℚ (x -ℚ y) <ℚ ratio (pos 1) (2 * 10 ^ decimals) → IsRoundedText decimals x text }
{}

/// The constant `MOST_DECIMALS` of the code equals `most_decimals` of the contracts: 8, the
/// greatest number of decimals to which a number is rounded (GAMS User's Guide, "The Display
/// Statement").
pub fn limit_laws()
    ensures { MOST_DECIMALS ≡ most_decimals }
{}
