//! The greatest common divisor, by which fractions are reduced.
ghost use Rattle.std.specs.Prelude.{ℕ, ◌*◌, ◌<◌, ◌≤◌, ◌+◌};
ghost use Rattle.std.specs.Int.{◌∣◌};
ghost use Rattle.gq_number.specs.Gcd.{gcd};

/// The greatest common divisor divides both numbers, and each common divisor divides it; so none is
/// greater, unless both numbers are 0: Graham, Knuth and Patashnik, Concrete Mathematics, 4.1.
pub fn divisor_laws()
    ensures divides_first { (a b : ℕ) → gcd a b ∣ a }
    ensures divides_second { (a b : ℕ) → gcd a b ∣ b }
    ensures common_divides { (d a b : ℕ) → d ∣ a → d ∣ b → d ∣ gcd a b }
    ensures greatest { (d a b : ℕ) → 0 < a + b → d ∣ a → d ∣ b → d ≤ gcd a b }
{}
