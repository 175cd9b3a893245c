//! Products of magnitudes that stay within a bound.
ghost use Rattle.std.specs.Prelude.{◌≡◌, ◌+◌, ◌*◌, ◌<◌, ◌≤◌, ◌^◌, MatchOption};

use crate::common::WORD;

/// The product of the magnitudes `a` and `b`; `None` if the product exceeds the bound.
#[inline(always)]
pub fn product_within(bound: u128, a: u128, b: u128) -> Option<u128>
    ensures { MatchOption result (bound < a * b) (λ m. (m ≡ a * b) × (m ≤ bound)) }
{
    let product = if a <= WORD && b <= WORD {
        Some(a as u64 as u128 * b as u64 as u128)
    } else {
        a.checked_mul(b)
    };
    match product {
        Some(product) if product <= bound => Some(product),
        _ => None,
    }
}

/// The sum of two products of magnitudes, `a` times `m` and `b` times `n`; `None` if the sum
/// exceeds the bound.
#[inline(always)]
pub fn sum_within(bound: u128, a: u128, m: u128, b: u128, n: u128) -> Option<u128>
    requires { bound < 2 ^ 127 }
    ensures { MatchOption result (bound < a * m + b * n) (λ s. (s ≡ a * m + b * n) × (s ≤ bound)) }
{
    let Some(first) = product_within(bound, a, m) else {
        return None;
    };
    let Some(second) = product_within(bound, b, n) else {
        return None;
    };
    let total = first + second;
    if total <= bound { Some(total) } else { None }
}
