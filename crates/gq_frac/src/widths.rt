//! From 63 bits to 127 and back.
ghost use Rattle.std.specs.Prelude.{◌≡◌, ◌↔◌, ◌-◌, ◌^◌, true, IsSome, IfSome};
ghost use Rattle.gq_field.specs.Fits.{fits};
ghost use Rattle.gq_field.specs.Values.{half_value};
ghost use Rattle.gq_frac.specs.Frac.{frac_value};

use crate::frac::Frac;
use gq_field::{ExactField, Half};

/// The number of `h` as a `Frac`. It always fits: a `Half` has a numerator and a denominator of at
/// most 63 bits, a `Frac` of at most 127.
pub fn widen(h: Half) -> Frac
    ensures { frac_value result ≡ half_value h }
{
    Frac::narrowed(h.widened())
}

/// The number of `f` as a `Half`; `None` exactly if its numerator or its denominator has a
/// magnitude of over 2^63 - 1.
pub fn narrow(f: Frac) -> Option<Half>
    ensures value { IfSome result (λ h. half_value h ≡ frac_value f) }
    ensures fits { IsSome result ↔ (fits (2 ^ 63 - 1) (frac_value f) ≡ true) }
{
    let fraction = f.widened();
    if fraction.magnitude <= Half::limit() && fraction.denominator <= Half::limit() {
        Some(Half::narrowed(fraction))
    } else {
        None
    }
}
