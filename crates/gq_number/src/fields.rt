//! The exact numbers are a field, and what follows at once.
ghost use Rattle.std.specs.Prelude.{◌≡◌, ◌≢◌, ◌↔◌, ◌⊎◌, pos};
ghost use Rattle.gq_number.specs.Number.{Number, whole, ◌+ℚ◌, ◌-ℚ◌, ◌*ℚ◌, ◌/ℚ◌, neg_ℚ, inv_ℚ};

/// The rationals are a field (Rudin, Principles of Mathematical Analysis, definition 1.12). A
/// difference is the sum with the negated number, and a quotient is the product with the
/// reciprocal.
pub fn field_laws()
    ensures sum_commutes { (x y : Number) → x +ℚ y ≡ y +ℚ x }
    ensures sum_associates { (x y z : Number) → x +ℚ y +ℚ z ≡ x +ℚ (y +ℚ z) }
    ensures zero_is_neutral { (x : Number) → x +ℚ whole (pos 0) ≡ x }
    ensures negated_takes_away { (x : Number) → x +ℚ neg_ℚ x ≡ whole (pos 0) }
    ensures product_commutes { (x y : Number) → x *ℚ y ≡ y *ℚ x }
    ensures product_associates { (x y z : Number) → x *ℚ y *ℚ z ≡ x *ℚ (y *ℚ z) }
    ensures one_is_neutral { (x : Number) → x *ℚ whole (pos 1) ≡ x }
    ensures reciprocal_divides { (x : Number) → x ≢ whole (pos 0) → x *ℚ inv_ℚ x ≡ whole (pos 1) }
    ensures product_distributes { (x y z : Number) → x *ℚ (y +ℚ z) ≡ x *ℚ y +ℚ x *ℚ z }
    ensures one_is_not_zero { whole (pos 1) ≢ whole (pos 0) }
    ensures difference { (x y : Number) → x -ℚ y ≡ x +ℚ neg_ℚ y }
    ensures quotient { (x y : Number) → x /ℚ y ≡ x *ℚ inv_ℚ y }
{}

/// Equal terms, and equal factors not 0, cancel. A number has one negated number and, unless it is
/// 0, one reciprocal. Products with 0 and negated numbers: Rudin, Principles of Mathematical
/// Analysis, 1.14 to 1.16.
pub fn cancellation_laws()
    ensures sum_cancels { (x y z : Number) → x +ℚ y ≡ x +ℚ z → y ≡ z }
    ensures product_cancels { (x y z : Number) → x ≢ whole (pos 0) → x *ℚ y ≡ x *ℚ z → y ≡ z }
    ensures negated_is_unique { (x y : Number) → x +ℚ y ≡ whole (pos 0) → y ≡ neg_ℚ x }
    ensures reciprocal_is_unique { (x y : Number) → x *ℚ y ≡ whole (pos 1) → y ≡ inv_ℚ x }
    ensures negated_twice { (x : Number) → neg_ℚ (neg_ℚ x) ≡ x }
    ensures reciprocal_twice { (x : Number) → inv_ℚ (inv_ℚ x) ≡ x }
    ensures product_with_zero { (x : Number) → x *ℚ whole (pos 0) ≡ whole (pos 0) }
    ensures product_with_negated { (x y : Number) → x *ℚ neg_ℚ y ≡ neg_ℚ (x *ℚ y) }
    ensures no_zero_divisors { (x y : Number) → x *ℚ y ≡ whole (pos 0) →
        (x ≡ whole (pos 0)) ⊎ (y ≡ whole (pos 0)) }
{}

/// How quotients are added, multiplied and divided, and when a quotient equals a number, as in any
/// algebra text. A quotient by 0 is 0.
pub fn quotient_laws()
    ensures by_zero { (x : Number) → x /ℚ whole (pos 0) ≡ whole (pos 0) }
    ensures by_one { (x : Number) → x /ℚ whole (pos 1) ≡ x }
    ensures by_itself { (x : Number) → x ≢ whole (pos 0) → x /ℚ x ≡ whole (pos 1) }
    ensures of_product { (x y z : Number) → x *ℚ y /ℚ z ≡ x *ℚ (y /ℚ z) }
    ensures of_sum { (x y z : Number) → (x +ℚ y) /ℚ z ≡ x /ℚ z +ℚ y /ℚ z }
    ensures of_quotient { (x y z : Number) → x /ℚ y /ℚ z ≡ x /ℚ (y *ℚ z) }
    ensures by_quotient { (x y z : Number) → x /ℚ (y /ℚ z) ≡ x *ℚ z /ℚ y }
    ensures reciprocal_of_product { (x y : Number) → inv_ℚ (x *ℚ y) ≡ inv_ℚ x *ℚ inv_ℚ y }
    ensures equals { (x y z : Number) → y ≢ whole (pos 0) → (x /ℚ y ≡ z) ↔ (x ≡ z *ℚ y) }
{}
