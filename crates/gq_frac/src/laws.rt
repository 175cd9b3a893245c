//! A step that fits over 63 bits fits over 127, and has the same value.
ghost use Rattle.std.specs.Prelude.{◌≡◌, ◌-◌, ◌^◌, true, Result};
ghost use Rattle.gq_number.specs.Number.{Number, ◌+ℚ◌, ◌-ℚ◌, ◌*ℚ◌, ◌/ℚ◌, neg_ℚ};
ghost use Rattle.gq_field.specs.declared.half.Half.{Half};
ghost use Rattle.gq_field.specs.declared.field.Limit.{Limit};
ghost use Rattle.gq_field.specs.Fits.{fits, sum_fits, Answers};
ghost use Rattle.gq_field.specs.Values.{half_value};
ghost use Rattle.gq_frac.specs.declared.frac.Frac.{Frac};
ghost use Rattle.gq_frac.specs.Frac.{frac_limit, frac_value};
ghost use Rattle.gq_frac.specs.Steps.{KeepsAnswer};

/// If no integer that the sum of x and y computes exceeds 2^63 - 1, the limit of `Half`, in
/// magnitude, none exceeds the limit of `Frac`. So if `add` of two numbers as `Half` returns a
/// number, `add` as `Frac` returns the same.
pub fn add_laws()
    ensures fits { (x y : Number) → sum_fits (2 ^ 63 - 1) x y ≡ true → sum_fits frac_limit x y ≡ true }
    ensures answers { (x y : Number) (narrow : Result Half Limit) (wide : Result Frac Limit) →
        Answers half_value narrow (sum_fits (2 ^ 63 - 1) x y) (x +ℚ y) →
        Answers frac_value wide (sum_fits frac_limit x y) (x +ℚ y) → KeepsAnswer narrow wide }
{}

/// If no integer that the difference of x and y computes exceeds 2^63 - 1, the limit of `Half`, in
/// magnitude, none exceeds the limit of `Frac`. So if `sub` of two numbers as `Half` returns a
/// number, `sub` as `Frac` returns the same.
pub fn sub_laws()
    ensures fits { (x y : Number) →
        sum_fits (2 ^ 63 - 1) x (neg_ℚ y) ≡ true → sum_fits frac_limit x (neg_ℚ y) ≡ true }
    ensures answers { (x y : Number) (narrow : Result Half Limit) (wide : Result Frac Limit) →
        Answers half_value narrow (sum_fits (2 ^ 63 - 1) x (neg_ℚ y)) (x -ℚ y) →
        Answers frac_value wide (sum_fits frac_limit x (neg_ℚ y)) (x -ℚ y) →
        KeepsAnswer narrow wide }
{}

/// A product whose reduced numerator and denominator fit in 63 bits fits in 127. So if `mul` of two
/// numbers as `Half` returns a number, `mul` of the same two as `Frac` returns the same number.
pub fn mul_laws()
    ensures fits { (x y : Number) → fits (2 ^ 63 - 1) (x *ℚ y) ≡ true → fits frac_limit (x *ℚ y) ≡ true }
    ensures answers { (x y : Number) (narrow : Result Half Limit) (wide : Result Frac Limit) →
        Answers half_value narrow (fits (2 ^ 63 - 1) (x *ℚ y)) (x *ℚ y) →
        Answers frac_value wide (fits frac_limit (x *ℚ y)) (x *ℚ y) → KeepsAnswer narrow wide }
{}

/// A quotient whose reduced numerator and denominator fit in 63 bits fits in 127. So if `div` of
/// two numbers as `Half` returns a number, `div` of the same two as `Frac` returns the same number.
pub fn div_laws()
    ensures fits { (x y : Number) → fits (2 ^ 63 - 1) (x /ℚ y) ≡ true → fits frac_limit (x /ℚ y) ≡ true }
    ensures answers { (x y : Number) (narrow : Result Half Limit) (wide : Result Frac Limit) →
        Answers half_value narrow (fits (2 ^ 63 - 1) (x /ℚ y)) (x /ℚ y) →
        Answers frac_value wide (fits frac_limit (x /ℚ y)) (x /ℚ y) → KeepsAnswer narrow wide }
{}
