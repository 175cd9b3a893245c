//! How numbers are named, and when two names are of one number.
ghost use Rattle.std.specs.Prelude.{◌≡◌, ◌↔◌, ℕ, ◌+◌, ◌*◌, ◌^◌, ◌<◌, ℤ, pos, neg_ℤ, ◌+ℤ◌, ◌*ℤ◌, ◌≤ℤ◌, ◌<ℤ◌};
ghost use Rattle.gq_number.specs.Reduced.{IsReduced};
ghost use Rattle.gq_number.specs.Number.{Number, whole, ratio, ◌+ℚ◌, ◌*ℚ◌, ◌/ℚ◌, neg_ℚ};
ghost use Rattle.gq_number.specs.Order.{◌≤ℚ◌, ◌<ℚ◌};

/// Two numbers are equal exactly if their cross products are; so are two ratios with denominators
/// above 0. A number is the ratio of its numerator and denominator; a reduced ratio keeps its two
/// parts. A ratio is the quotient of its parts. Integers keep their sums, products, negations and
/// order. A decimal's digits over a power of ten equal the part before the point plus that after
/// it; a 0 appended after the point changes nothing. Any algebra text.
pub fn name_laws()
    ensures same_number { (x y : Number) → (x ≡ y) ↔
        (x.numerator *ℤ pos y.denominator ≡ y.numerator *ℤ pos x.denominator) }
    ensures own_parts { (x : Number) → ratio x.numerator x.denominator ≡ x }
    ensures reduced_parts { (n : ℤ) (d : ℕ) → IsReduced n d →
        ((ratio n d).numerator ≡ n) × ((ratio n d).denominator ≡ d) }
    ensures same_pair { (n m : ℤ) (d e : ℕ) → 0 < d → 0 < e →
        (ratio n d ≡ ratio m e) ↔ (n *ℤ pos e ≡ m *ℤ pos d) }
    ensures pair_is_quotient { (n : ℤ) (d : ℕ) → ratio n d ≡ whole n /ℚ whole (pos d) }
    ensures pair_over_one { (n : ℤ) → ratio n 1 ≡ whole n }
    ensures whole_sum { (n m : ℤ) → whole n +ℚ whole m ≡ whole (n +ℤ m) }
    ensures whole_product { (n m : ℤ) → whole n *ℚ whole m ≡ whole (n *ℤ m) }
    ensures whole_negated { (n : ℤ) → neg_ℚ (whole n) ≡ whole (neg_ℤ n) }
    ensures whole_order { (n m : ℤ) → (whole n ≤ℚ whole m) ↔ (n ≤ℤ m) }
    ensures decimal_parts { (before after places : ℕ) →
        ratio (pos (before * 10 ^ places + after)) (10 ^ places)
        ≡ whole (pos before) +ℚ ratio (pos after) (10 ^ places) }
    ensures decimal_zero { (digits places : ℕ) →
        ratio (pos (digits * 10)) (10 ^ (places + 1)) ≡ ratio (pos digits) (10 ^ places) }
{}
