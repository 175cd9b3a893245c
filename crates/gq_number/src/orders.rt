//! The exact numbers are an ordered field; the lesser, the greater and the magnitude.
ghost use Rattle.std.specs.Prelude.{◌≡◌, ◌≢◌, ◌↔◌, ◌⊎◌, ℤ, pos, negsuc};
ghost use Rattle.std.specs.declared.cmp.Ordering.TheVariants.{Less, Equal, Greater};
ghost use Rattle.gq_number.specs.Number.{Number, whole, ◌+ℚ◌, ◌-ℚ◌, ◌*ℚ◌, ◌/ℚ◌, neg_ℚ, inv_ℚ, sign_of};
ghost use Rattle.gq_number.specs.Order.{number_cmp, ◌≤ℚ◌, ◌<ℚ◌, min_ℚ, max_ℚ, abs_ℚ};

/// The order of the rational numbers is total, and the comparison `number_cmp` decides it: Rudin,
/// Principles of Mathematical Analysis, 1.5.
pub fn order_laws()
    ensures reflexive { (x : Number) → x ≤ℚ x }
    ensures antisymmetric { (x y : Number) → x ≤ℚ y → y ≤ℚ x → x ≡ y }
    ensures transitive { (x y z : Number) → x ≤ℚ y → y ≤ℚ z → x ≤ℚ z }
    ensures total { (x y : Number) → (x ≤ℚ y) ⊎ (y ≤ℚ x) }
    ensures either { (x y : Number) → (x ≤ℚ y) ⊎ (y <ℚ x) }
    ensures below_is_at_most_and_other { (x y : Number) → (x <ℚ y) ↔ ((x ≤ℚ y) × (x ≢ y)) }
    ensures below_is_not_at_least { (x y : Number) → (x <ℚ y) ↔ ¬ (y ≤ℚ x) }
    ensures compares_less { (x y : Number) → (number_cmp x y ≡ Less) ↔ (x <ℚ y) }
    ensures compares_equal { (x y : Number) → (number_cmp x y ≡ Equal) ↔ (x ≡ y) }
    ensures compares_greater { (x y : Number) → (number_cmp x y ≡ Greater) ↔ (y <ℚ x) }
{}

/// The order under sums, products, reciprocals and quotients: Rudin, Principles of Mathematical
/// Analysis, 1.17 and 1.18.
pub fn monotone_laws()
    ensures zero_below_one { whole (pos 0) <ℚ whole (pos 1) }
    ensures sum { (x y z : Number) → (x ≤ℚ y) ↔ (x +ℚ z ≤ℚ y +ℚ z) }
    ensures sum_strict { (x y z : Number) → (x <ℚ y) ↔ (x +ℚ z <ℚ y +ℚ z) }
    ensures negated { (x y : Number) → x ≤ℚ y → neg_ℚ y ≤ℚ neg_ℚ x }
    ensures by_positive { (x y z : Number) → whole (pos 0) <ℚ z → (x ≤ℚ y) ↔ (x *ℚ z ≤ℚ y *ℚ z) }
    ensures by_positive_strict { (x y z : Number) →
        whole (pos 0) <ℚ z → (x <ℚ y) ↔ (x *ℚ z <ℚ y *ℚ z) }
    ensures by_negative { (x y z : Number) → z <ℚ whole (pos 0) → (x ≤ℚ y) ↔ (y *ℚ z ≤ℚ x *ℚ z) }
    ensures by_negative_strict { (x y z : Number) →
        z <ℚ whole (pos 0) → (x <ℚ y) ↔ (y *ℚ z <ℚ x *ℚ z) }
    ensures reciprocal { (x : Number) → whole (pos 0) <ℚ x → whole (pos 0) <ℚ inv_ℚ x }
    ensures quotient { (x y z : Number) → whole (pos 0) <ℚ y → (x /ℚ y ≤ℚ z) ↔ (x ≤ℚ z *ℚ y) }
    ensures square { (x : Number) → whole (pos 0) ≤ℚ x *ℚ x }
{}

/// The sign of a number is 1 above 0, 0 at 0 and -1 below 0. The product of two numbers is above 0
/// for like signs and below 0 for unlike signs, and so is a quotient whose dividend is above 0, as
/// in any algebra text.
pub fn sign_laws()
    ensures above { (x : Number) → (sign_of x ≡ pos 1) ↔ (whole (pos 0) <ℚ x) }
    ensures at_zero { (x : Number) → (sign_of x ≡ pos 0) ↔ (x ≡ whole (pos 0)) }
    ensures below { (x : Number) → (sign_of x ≡ negsuc 0) ↔ (x <ℚ whole (pos 0)) }
    ensures like_signs { (x y : Number) →
        whole (pos 0) <ℚ x → whole (pos 0) <ℚ y → whole (pos 0) <ℚ x *ℚ y }
    ensures unlike_signs { (x y : Number) →
        whole (pos 0) <ℚ x → y <ℚ whole (pos 0) → x *ℚ y <ℚ whole (pos 0) }
    ensures both_below { (x y : Number) →
        x <ℚ whole (pos 0) → y <ℚ whole (pos 0) → whole (pos 0) <ℚ x *ℚ y }
    ensures quotient_like { (x y : Number) →
        whole (pos 0) <ℚ x → whole (pos 0) <ℚ y → whole (pos 0) <ℚ x /ℚ y }
    ensures quotient_unlike { (x y : Number) →
        whole (pos 0) <ℚ x → y <ℚ whole (pos 0) → x /ℚ y <ℚ whole (pos 0) }
{}

/// The lesser and the greater of two numbers, and the magnitude, with the triangle inequality, as
/// in any text on real analysis.
pub fn extreme_laws()
    ensures min_is_one { (x y : Number) → (min_ℚ x y ≡ x) ⊎ (min_ℚ x y ≡ y) }
    ensures min_is_greatest_below { (x y z : Number) → (z ≤ℚ min_ℚ x y) ↔ ((z ≤ℚ x) × (z ≤ℚ y)) }
    ensures max_is_one { (x y : Number) → (max_ℚ x y ≡ x) ⊎ (max_ℚ x y ≡ y) }
    ensures max_is_least_above { (x y z : Number) → (max_ℚ x y ≤ℚ z) ↔ ((x ≤ℚ z) × (y ≤ℚ z)) }
    ensures magnitude_above { (x : Number) → whole (pos 0) ≤ℚ x → abs_ℚ x ≡ x }
    ensures magnitude_below { (x : Number) → x ≤ℚ whole (pos 0) → abs_ℚ x ≡ neg_ℚ x }
    ensures magnitude_at_least_zero { (x : Number) → whole (pos 0) ≤ℚ abs_ℚ x }
    ensures magnitude_at_most { (x z : Number) → (abs_ℚ x ≤ℚ z) ↔ ((neg_ℚ z ≤ℚ x) × (x ≤ℚ z)) }
    ensures magnitude_of_product { (x y : Number) → abs_ℚ (x *ℚ y) ≡ abs_ℚ x *ℚ abs_ℚ y }
    ensures triangle { (x y : Number) → abs_ℚ (x +ℚ y) ≤ℚ abs_ℚ x +ℚ abs_ℚ y }
{}
