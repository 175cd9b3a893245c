//! What follows from the tables of steps: laws, on functions that do nothing.
ghost use Rattle.std.specs.Prelude.{◌≡◌, ◌≢◌, ◌↔◌, ℕ, ◌≤◌, ◌<◌, Bool, not, ◌||◌, IsTrue, if◌then◌else◌, ℤ, pos, ◌+ℤ◌, nat_abs};
ghost use Rattle.gq_number.specs.Number.{Number, whole, ◌+ℚ◌, ◌-ℚ◌, ◌*ℚ◌, ◌/ℚ◌, neg_ℚ, sign_of, truncated, floor_of, ceiling_of, rounded};
ghost use Rattle.gq_number.specs.Order.{◌≤ℚ◌, ◌<ℚ◌, min_ℚ, max_ℚ, abs_ℚ};
ghost use Rattle.gq_field.specs.Fits.{fits, sum_fits};
ghost use Rattle.gq_extended.specs.Powers.{power_ℚ};
ghost use Rattle.gq_extended.specs.Extended.{Extended, number, plus_infinity, minus_infinity, na, number_if, negated, magnitude, sign, sum, difference, product, quotient, nearest, floor, ceiling, truncation, remainder, power};
ghost use Rattle.gq_extended.specs.declared.fault.ExtendedFault.TheVariants.{Divide};
ghost use Rattle.gq_extended.specs.ExtendedOrder.{equals, is_less, is_at_most, lesser, greater};

/// On numbers, without infinities and NA, each result is the exact number or the fault `Limit`. A
/// product, a quotient or a power is `Limit` exactly if its numerator or denominator exceeds the
/// limit in magnitude; a sum or a difference, if an integer of the addition (`sum_fits`) does. The
/// other results are never `Limit`.
///
/// The law on quotients is only about divisors other than 0, that on powers only about bases other
/// than 0, integer exponents of at most 1,024 in magnitude, and limits of at least 1.
pub fn number_laws()
    ensures sum { (limit : ℕ) (x y : Number) →
        sum limit (number x) (number y) ≡ number_if (sum_fits limit x y) (x +ℚ y) }
    ensures difference { (limit : ℕ) (x y : Number) →
        difference limit (number x) (number y) ≡ number_if (sum_fits limit x (neg_ℚ y)) (x -ℚ y) }
    ensures product { (limit : ℕ) (x y : Number) →
        product limit (number x) (number y) ≡ number_if (fits limit (x *ℚ y)) (x *ℚ y) }
    ensures quotient { (limit : ℕ) (x y : Number) → y ≢ whole (pos 0) →
        quotient limit (number x) (number y) ≡ number_if (fits limit (x /ℚ y)) (x /ℚ y) }
    ensures power { (limit : ℕ) (x : Number) (n : ℤ) →
        1 ≤ limit → x ≢ whole (pos 0) → nat_abs n ≤ 1024 →
        power limit (number x) (number (whole n))
        ≡ number_if (fits limit (power_ℚ x n)) (power_ℚ x n) }
    ensures negated { (x : Number) → negated (number x) ≡ number (neg_ℚ x) }
    ensures magnitude { (x : Number) → magnitude (number x) ≡ number (abs_ℚ x) }
    ensures sign { (x : Number) → sign (number x) ≡ number (whole (sign_of x)) }
    ensures nearest { (x : Number) → nearest (number x) ≡ number (whole (rounded x)) }
    ensures floor { (x : Number) → floor (number x) ≡ number (whole (floor_of x)) }
    ensures ceiling { (x : Number) → ceiling (number x) ≡ number (whole (ceiling_of x)) }
    ensures truncation { (x : Number) → truncation (number x) ≡ number (whole (truncated x)) }
    ensures lesser { (x y : Number) → lesser (number x) (number y) ≡ number (min_ℚ x y) }
    ensures greater { (x y : Number) → greater (number x) (number y) ≡ number (max_ℚ x y) }
    ensures equals { (x y : Number) → IsTrue (equals (number x) (number y)) ↔ (x ≡ y) }
    ensures less { (x y : Number) → IsTrue (is_less (number x) (number y)) ↔ (x <ℚ y) }
    ensures at_most { (x y : Number) → IsTrue (is_at_most (number x) (number y)) ↔ (x ≤ℚ y) }
{}

/// x + y = y + x, x * y = y * x and x - y = x + (-y), faults included; -(-x) = x. A quotient x / 0
/// is the fault `Divide`, even if x is NA. A sum, a difference and a product are NA if an operand
/// is, and NA / x is NA if x is not 0.
pub fn step_laws()
    ensures sum_commutes { (limit : ℕ) (x y : Extended) → sum limit x y ≡ sum limit y x }
    ensures product_commutes { (limit : ℕ) (x y : Extended) →
        product limit x y ≡ product limit y x }
    ensures difference { (limit : ℕ) (x y : Extended) →
        difference limit x y ≡ sum limit x (negated y) }
    ensures negated_twice { (x : Extended) → negated (negated x) ≡ x }
    ensures over_zero { (limit : ℕ) (x : Extended) →
        quotient limit x (number (whole (pos 0))) ≡ Err Divide }
    ensures na_in_sums { (limit : ℕ) (x : Extended) →
        (sum limit na x ≡ Ok na) × (difference limit na x ≡ Ok na)
        × (difference limit x na ≡ Ok na) × (product limit na x ≡ Ok na) }
    ensures na_in_quotients { (limit : ℕ) (x : Extended) →
        x ≢ number (whole (pos 0)) → quotient limit na x ≡ Ok na }
{}

/// The remainder of two numbers x and y, if it has no fault, is x minus y times the quotient x / y
/// without its fractional part, and is below y in magnitude.
pub fn remainder_laws()
    ensures value { (limit : ℕ) (x y r : Number) →
        remainder limit (number x) (number y) ≡ Ok (number r) →
        r ≡ x -ℚ y *ℚ whole (truncated (x /ℚ y)) }
    ensures below_divisor { (limit : ℕ) (x y r : Number) →
        remainder limit (number x) (number y) ≡ Ok (number r) → abs_ℚ r <ℚ abs_ℚ y }
{}

/// `=` is equality, also of NA; `<` and `<=` are false with NA. `<` is transitive, and each number
/// is between the infinities. Without NA, x <= y is x < y or x = y, and not y < x; the lesser is x
/// if x <= y, the greater x if y <= x, else y.
pub fn relation_laws()
    ensures equals { (x y : Extended) → IsTrue (equals x y) ↔ (x ≡ y) }
    ensures transitive { (x y z : Extended) →
        IsTrue (is_less x y) → IsTrue (is_less y z) → IsTrue (is_less x z) }
    ensures at_most { (x y : Extended) → x ≢ na →
        is_at_most x y ≡ (is_less x y || equals x y) }
    ensures opposite { (x y : Extended) → x ≢ na → y ≢ na →
        is_less x y ≡ not (is_at_most y x) }
    ensures between { (x : Number) →
        IsTrue (is_less minus_infinity (number x)) × IsTrue (is_less (number x) plus_infinity) }
    ensures na_on_the_left { (x : Extended) →
        (¬ IsTrue (is_less na x)) × (¬ IsTrue (is_at_most na x)) }
    ensures na_on_the_right { (x : Extended) →
        (¬ IsTrue (is_less x na)) × (¬ IsTrue (is_at_most x na)) }
    ensures lesser { (x y : Extended) → x ≢ na → y ≢ na →
        lesser x y ≡ (if is_at_most x y then x else y) }
    ensures greater { (x y : Extended) → x ≢ na → y ≢ na →
        greater x y ≡ (if is_at_most y x then x else y) }
{}

/// Powers x^n with integer exponents n: x^0 = 1, for x = 0 too; x^1 = x; x^(n + m) = x^n * x^m if x
/// is not 0; 0^n = 0 if n is above 0.
pub fn power_laws()
    ensures zeroth { (x : Number) → power_ℚ x (pos 0) ≡ whole (pos 1) }
    ensures first { (x : Number) → power_ℚ x (pos 1) ≡ x }
    ensures sum { (x : Number) (n m : ℤ) → x ≢ whole (pos 0) →
        power_ℚ x (n +ℤ m) ≡ power_ℚ x n *ℚ power_ℚ x m }
    ensures of_zero { (n : ℕ) → 0 < n → power_ℚ (whole (pos 0)) (pos n) ≡ whole (pos 0) }
{}
