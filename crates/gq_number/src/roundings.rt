//! Floor, ceiling, truncation and rounding, as the whole numbers that they state.
ghost use Rattle.std.specs.Prelude.{◌≡◌, ◌↔◌, ℤ, pos, neg_ℤ, ◌≤ℤ◌};
ghost use Rattle.gq_number.specs.Number.{Number, whole, ratio, ◌+ℚ◌, ◌-ℚ◌, neg_ℚ, floor_of, ceiling_of, truncated, rounded};
ghost use Rattle.gq_number.specs.Order.{◌≤ℚ◌, ◌<ℚ◌, abs_ℚ};

/// The floor n of x: n ≤ x < n + 1, and it is the greatest whole number that is at most x. Graham,
/// Knuth and Patashnik, Concrete Mathematics, chapter 3.
pub fn floor_laws()
    ensures at_most { (x : Number) → whole (floor_of x) ≤ℚ x }
    ensures within_one { (x : Number) → x <ℚ whole (floor_of x) +ℚ whole (pos 1) }
    ensures greatest { (n : ℤ) (x : Number) → (whole n ≤ℚ x) ↔ (n ≤ℤ floor_of x) }
    ensures only { (n : ℤ) (x : Number) →
        whole n ≤ℚ x → x <ℚ whole n +ℚ whole (pos 1) → floor_of x ≡ n }
    ensures of_whole { (n : ℤ) → floor_of (whole n) ≡ n }
{}

/// The ceiling n of x: n - 1 < x ≤ n, and it is the least whole number that is at least x. Graham,
/// Knuth and Patashnik, Concrete Mathematics, chapter 3.
pub fn ceiling_laws()
    ensures at_least { (x : Number) → x ≤ℚ whole (ceiling_of x) }
    ensures within_one { (x : Number) → whole (ceiling_of x) <ℚ x +ℚ whole (pos 1) }
    ensures least { (n : ℤ) (x : Number) → (x ≤ℚ whole n) ↔ (ceiling_of x ≤ℤ n) }
    ensures only { (n : ℤ) (x : Number) →
        x ≤ℚ whole n → whole n <ℚ x +ℚ whole (pos 1) → ceiling_of x ≡ n }
    ensures of_whole { (n : ℤ) → ceiling_of (whole n) ≡ n }
{}

/// Truncation gives the floor of a number at or above 0, and the ceiling of one at or below 0.
/// Rounding gives an integer at most one half away, of two such the one farther from 0. Both keep
/// integers. These are the functions trunc and round of the GAMS User's Guide, "Functions".
pub fn rounding_laws()
    ensures truncated_from_zero { (x : Number) → whole (pos 0) ≤ℚ x → truncated x ≡ floor_of x }
    ensures truncated_to_zero { (x : Number) → x ≤ℚ whole (pos 0) → truncated x ≡ ceiling_of x }
    ensures truncated_of_whole { (n : ℤ) → truncated (whole n) ≡ n }
    ensures rounded_near { (x : Number) → abs_ℚ (x -ℚ whole (rounded x)) ≤ℚ ratio (pos 1) 2 }
    ensures rounded_from_zero { (x : Number) →
        whole (pos 0) ≤ℚ x → rounded x ≡ floor_of (x +ℚ ratio (pos 1) 2) }
    ensures rounded_to_zero { (x : Number) →
        x ≤ℚ whole (pos 0) → rounded x ≡ ceiling_of (x -ℚ ratio (pos 1) 2) }
    ensures rounded_negated { (x : Number) → rounded (neg_ℚ x) ≡ neg_ℤ (rounded x) }
    ensures rounded_of_whole { (n : ℤ) → rounded (whole n) ≡ n }
{}
