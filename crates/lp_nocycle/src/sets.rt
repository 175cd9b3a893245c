//! How many pivots are enough.
ghost use Rattle.std.specs.Prelude.{◌≡◌};
ghost use Rattle.lp_nocycle.specs.PivotCount.{pivot_bound};

/// 2 * 2^n for n = `variables`, twice the number of subsets of n variables. If the standard form of
/// a linear program has n variables, slacks and variable 0 included, a search by Bland's rule has
/// fewer pivots than this number (Chvatal, Linear Programming, chapter 3). `None` exactly if this
/// number exceeds 64 bits.
pub fn bound(variables: u32) -> Option<u64>
    ensures twice_sets { result ≡ pivot_bound variables }
{
    if variables < 63 {
        return Some(2u64 << variables);
    }
    None
}
