//! The exchange with variable 0 deferred, for any numbers: laws on functions with empty bodies.
ghost use Rattle.std.specs.Prelude.{◌≡◌, ◌≢◌, ◌↔◌, ℕ, ◌+◌, ◌*◌, ◌<◌, ◌≤◌, ℤ, pos, ◌-ℤ◌, ◌*ℤ◌, ◌≤ℤ◌, ◌<ℤ◌, nat_abs, IsTrue, ◌==◌, if◌then◌else◌};
ghost use Rattle.gq_number.specs.Number.{Number, whole, ratio, ◌-ℚ◌, ◌*ℚ◌, ◌/ℚ◌};
ghost use Rattle.gq_number.specs.Order.{◌≤ℚ◌, ◌<ℚ◌};
ghost use Rattle.lp_core.specs.Dictionary.{Dictionary, basic_at, entry_at, exchanged};
ghost use Rattle.lp_core.specs.Steps.{AllFit, product_fits, difference_fits, ratio_steps};
ghost use Rattle.lp_integer_dict.specs.Bounds.{IsBounded, DeferredNumbersWithin, over_denominators};
ghost use Rattle.lp_integer_dict.specs.Pairs.{IsPairWithin};
ghost use Rattle.lp_integer_rows.specs.Turning.{turned_at, swapped, with_row_negated, IsDeferredExchange};

/// Exchanges while variable 0 is deferred: it is basic in row `k` of the dictionary, but its
/// exchange into row `k` is not in the stored rows yet (Chvatal, Linear Programming, chapter 3).
///
/// `n i c` is the number of row `i` at column `c`; `turned_at n q k i c` is this number after the
/// exchange in row `k` at column `q`, which divides row `k` by its number at `q`, and makes the
/// other rows 0 at `q`. Except in `negated`, the number at which an exchange is made is not 0.
/// `own`: after an exchange in row `k` at `z`, one in the same row at `q` gives what it gives
/// alone. `other`: exchanges in row `k` at `z`, then in another row `l` at `q`, give what three
/// steps give: the exchange in row `k` at `q`, the swap of rows `k` and `l`, the exchange in row
/// `k` at `z`. `negated`: a row and its negation give the same exchange.
///
/// In `above` and `leaves`, `d` is the dictionary, `kept` are the stored rows, and variable `q`, at
/// column `q + 1`, enters. `above`: if a variable other than 0 leaves, by row `l`, the new stored
/// rows are `kept` after the exchange in row `k` at column `q + 1` and the swap of rows `k` and
/// `l`; variable 0 remains deferred in row `k`. `leaves`: if variable 0 leaves, the new dictionary
/// is `kept` after the exchange in row `k` at column `q + 1`, with zeros at column 1.
pub fn turning_laws()
    ensures own { (n : ℕ → ℕ → Number) (z q k i c : ℕ) → n k z ≢ whole (pos 0) → n k q ≢ whole (pos 0) →
        turned_at (turned_at n z k) q k i c ≡ turned_at n q k i c }
    ensures other { (n : ℕ → ℕ → Number) (z q k l i c : ℕ) → l ≢ k → n k z ≢ whole (pos 0) → n k q ≢ whole (pos 0) →
        turned_at n z k l q ≢ whole (pos 0) →
        turned_at (turned_at n z k) q l i c ≡ turned_at (swapped (turned_at n q k) k l) z k i c }
    ensures negated { (n : ℕ → ℕ → Number) (z k i c : ℕ) → turned_at (with_row_negated n k) z k i c ≡ turned_at n z k i c }
    ensures above { (d : Dictionary) (kept : ℕ → ℕ → Number) (q k l : ℕ) → l ≢ k → basic_at d l ≢ 0 →
        entry_at d k q ≢ whole (pos 0) → entry_at d l q ≢ whole (pos 0) → IsDeferredExchange d kept k →
        IsDeferredExchange (exchanged d q l) (swapped (turned_at kept (q + 1) k) k l) k }
    ensures leaves { (d : Dictionary) (kept : ℕ → ℕ → Number) (q k i c : ℕ) → basic_at d k ≡ 0 →
        entry_at d k q ≢ whole (pos 0) → IsDeferredExchange d kept k →
        (exchanged d q k).numbers i c ≡ (if c == 1 then whole (pos 0) else turned_at kept (q + 1) k i c) }
{}

/// In an exchange a row of integers over one denominator becomes such a row again, and two ratios
/// of a ratio test compare as cross products of integers: Edmonds, Systems of distinct
/// representatives and linear algebra; Bareiss, Sylvester's identity and multistep
/// integer-preserving Gaussian elimination.
///
/// `divided`: the row of the leaving variable has `x` at a column and `p` for the entering
/// variable, over `e`; (x/e) / (p/e) = x/p. `lessened`: another row has `n` and `f` at these, over
/// `d`. If a = p/g and b = f/g for a common factor `g`, then n/d - f/d * ((x/e) / (p/e)) =
/// (a * n - b * x) / (a * d). `compare_most`: for rows over `d`, `e` with the constants `r`, `s`
/// and `a`, `b` for the entering variable, (r/d) / (a/d) <= (s/e) / (b/e) exactly if
/// r * b <= s * a. `compare_below`: this with <. Divisors are above 0.
pub fn line_laws()
    ensures divided { (x : ℤ) (p e : ℕ) → 0 < e → 0 < p → ratio x e /ℚ ratio (pos p) e ≡ ratio x p }
    ensures lessened { (n x f b : ℤ) (d e p a g : ℕ) → 0 < d → 0 < e → 0 < a → 0 < g → p ≡ a * g → f ≡ b *ℤ pos g →
        ratio (pos a *ℤ n -ℤ b *ℤ x) (a * d) ≡ ratio n d -ℚ ratio f d *ℚ (ratio x e /ℚ ratio (pos p) e) }
    ensures compare_most { (r s : ℤ) (a b d e : ℕ) → 0 < a → 0 < b → 0 < d → 0 < e →
        (ratio r d /ℚ ratio (pos a) d ≤ℚ ratio s e /ℚ ratio (pos b) e) ↔ ((r *ℤ pos b) ≤ℤ (s *ℤ pos a)) }
    ensures compare_below { (r s : ℤ) (a b d e : ℕ) → 0 < a → 0 < b → 0 < d → 0 < e →
        (ratio r d /ℚ ratio (pos a) d <ℚ ratio s e /ℚ ratio (pos b) e) ↔ ((r *ℤ pos b) <ℤ (s *ℤ pos a)) }
{}

/// When steps on rows of integers over common denominators fit under a limit, that is, compute no
/// numerator or denominator beyond it. `ratios`: all steps of the ratio test of the entering
/// variable `q`, in the pivot with the number `pivot`, fit if no integer and no denominator of the
/// dictionary's rows exceeds the limit in magnitude.
///
/// `pairs`: at some column and for the entering variable, a row has the integers `ni` and `f`, over
/// the denominator `di`, and the row of the leaving variable has `nk` and `p`, over `dk`. The
/// exchange replaces ni/di by ni/di - f/di * ((nk/dk) / (p/dk)). Its two steps, the product and the
/// difference, fit if |p/g| * mi + |f/g| * mk is at most the limit for a common factor g of `p` and
/// `f` (`IsPairWithin`). Here `mi` is at least `di` and |ni|, and `mk` is at least |nk|.
///
/// `above`: the exchange of variable 0, at column 1, into row `k` makes the dictionary `above` of
/// stored rows: integers `n` over the denominators `d`, both in row i at most `most i` in
/// magnitude. Row `k` has the integer `u`, above 0, at column 1. No integer and no denominator of
/// `above` exceeds `bound` if most k, and most i * u + |n i 1| * most k for each other row i, are
/// at most `bound`.
pub fn bound_laws()
    ensures ratios { (limit bound : ℕ) (d : Dictionary) (pivot q : ℕ) → bound ≤ limit → IsBounded d bound →
        AllFit (ratio_steps limit pivot d q) }
    ensures pairs { (limit : ℕ) (ni nk f p : ℤ) (di dk mi mk : ℕ) → 0 < di → 0 < dk → p ≢ pos 0 → nat_abs ni ≤ mi → di ≤ mi →
        nat_abs nk ≤ mk → IsPairWithin f p mi mk limit →
        IsTrue (product_fits limit (ratio f di) (ratio nk dk /ℚ ratio p dk)) ×
        IsTrue (difference_fits limit (ratio ni di) (ratio f di *ℚ (ratio nk dk /ℚ ratio p dk))) }
    ensures above { (n : ℕ → ℕ → ℤ) (d most : ℕ → ℕ) (bound k u : ℕ) (above : Dictionary) →
        DeferredNumbersWithin n d most bound k u → IsDeferredExchange above (over_denominators n d) k → IsBounded above bound }
{}

/// The numbers of a dictionary while the exchange of variable 0 into row `k` is deferred. Stored
/// row i has the integer `n i c` at column `c`, over the denominator `d i`, above 0. Column `z` is
/// that of variable 0, and u = n k z is above 0. At column `c` the dictionary has n k c / u in row
/// `k` (`own`), and (u * n i c - n i z * n k c) / (u * d i) in any other row i (`other`).
pub fn reading_laws()
    ensures own { (n : ℕ → ℕ → ℤ) (d : ℕ → ℕ) (z k u c : ℕ) → n k z ≡ pos u → 0 < u → ((i : ℕ) → 0 < d i) →
        turned_at (over_denominators n d) z k k c ≡ ratio (n k c) u }
    ensures other { (n : ℕ → ℕ → ℤ) (d : ℕ → ℕ) (z k u i c : ℕ) → n k z ≡ pos u → 0 < u → ((i : ℕ) → 0 < d i) → i ≢ k →
        turned_at (over_denominators n d) z k i c ≡ ratio (pos u *ℤ n i c -ℤ n i z *ℤ n k c) (u * d i) }
{}
