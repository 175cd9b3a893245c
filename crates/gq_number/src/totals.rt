//! Finite sums over lists, and inner products.
ghost use Rattle.std.specs.Prelude.{◌≡◌, pos, List, [], ◌∷◌, ◌++◌, length, All};
ghost use Rattle.std.specs.List.Sorted.{IsPermutation};
ghost use Rattle.std.specs.List.{AllZip, zip};
ghost use Rattle.gq_number.specs.Number.{Number, whole, ◌+ℚ◌, ◌*ℚ◌};
ghost use Rattle.gq_number.specs.Order.{◌≤ℚ◌};
ghost use Rattle.gq_number.specs.Sums.{sum_by_ℚ, inner_ℚ, scaled, added, combined, applied};

/// Laws of the sum of a function's values at the entries of a list: over no entry, over one entry
/// more, and over two lists in sequence; of sums and of multiples; double sums; the sum in any
/// order; equal and greater terms. A sum of values at least 0 is at least 0, and 0 only if all are
/// 0. Graham, Knuth and Patashnik, Concrete Mathematics, chapter 2.
pub fn sum_laws<X, Y>()
    ensures over_none { (f : X → Number) → sum_by_ℚ f [] ≡ whole (pos 0) }
    ensures over_more { (f : X → Number) (x : X) (xs : List X) →
        sum_by_ℚ f (x ∷ xs) ≡ f x +ℚ sum_by_ℚ f xs }
    ensures over_append { (f : X → Number) (xs ys : List X) →
        sum_by_ℚ f (xs ++ ys) ≡ sum_by_ℚ f xs +ℚ sum_by_ℚ f ys }
    ensures of_sums { (f g : X → Number) (xs : List X) →
        sum_by_ℚ (λ x. f x +ℚ g x) xs ≡ sum_by_ℚ f xs +ℚ sum_by_ℚ g xs }
    ensures of_multiples { (k : Number) (f : X → Number) (xs : List X) →
        sum_by_ℚ (λ x. k *ℚ f x) xs ≡ k *ℚ sum_by_ℚ f xs }
    ensures exchanged { (f : X → Y → Number) (xs : List X) (ys : List Y) →
        sum_by_ℚ (λ x. sum_by_ℚ (λ y. f x y) ys) xs ≡ sum_by_ℚ (λ y. sum_by_ℚ (λ x. f x y) xs) ys }
    ensures in_any_order { (f : X → Number) (xs ys : List X) → IsPermutation xs ys →
        sum_by_ℚ f ys ≡ sum_by_ℚ f xs }
    ensures same_terms { (f g : X → Number) (xs : List X) →
        All (λ x. f x ≡ g x) xs → sum_by_ℚ f xs ≡ sum_by_ℚ g xs }
    ensures greater_terms { (f g : X → Number) (xs : List X) →
        All (λ x. f x ≤ℚ g x) xs → sum_by_ℚ f xs ≤ℚ sum_by_ℚ g xs }
    ensures at_least_zero { (f : X → Number) (xs : List X) →
        All (λ x. whole (pos 0) ≤ℚ f x) xs → whole (pos 0) ≤ℚ sum_by_ℚ f xs }
    ensures zero_only { (f : X → Number) (xs : List X) → All (λ x. whole (pos 0) ≤ℚ f x) xs →
        sum_by_ℚ f xs ≡ whole (pos 0) → All (λ x. f x ≡ whole (pos 0)) xs }
{}

/// The inner product of two lists is linear in each of them, as if zeros extended the shorter list.
/// With A the matrix of `rows`, ys · (A xs) = (ys A) · xs (`exchanged`).
///
/// If no number of the two lists is below 0, neither is the inner product (`at_least_zero`); if it
/// is also 0, so is each product of two numbers at one position (`zero_only`). If `xs` and `ys`
/// have one length, no number of `xs` exceeds that of `ys` at its position, and no number of `zs`
/// is below 0, then xs · zs ≤ ys · zs (`greater`). Any text on linear algebra; Chvátal, Linear
/// Programming, chapter 5.
pub fn inner_product_laws()
    ensures products { (xs ys : List Number) →
        inner_ℚ xs ys ≡ sum_by_ℚ (λ p. p.0 *ℚ p.1) (zip xs ys) }
    ensures commutes { (xs ys : List Number) → inner_ℚ xs ys ≡ inner_ℚ ys xs }
    ensures of_multiple { (k : Number) (xs ys : List Number) →
        inner_ℚ (scaled k xs) ys ≡ k *ℚ inner_ℚ xs ys }
    ensures of_sum { (xs ys zs : List Number) →
        inner_ℚ (added xs ys) zs ≡ inner_ℚ xs zs +ℚ inner_ℚ ys zs }
    ensures over_append { (xs ys zs ws : List Number) → length xs ≡ length ys →
        inner_ℚ (xs ++ zs) (ys ++ ws) ≡ inner_ℚ xs ys +ℚ inner_ℚ zs ws }
    ensures exchanged { (ys : List Number) (rows : List (List Number)) (xs : List Number) →
        inner_ℚ ys (applied rows xs) ≡ inner_ℚ (combined ys rows) xs }
    ensures at_least_zero { (xs ys : List Number) → All (λ x. whole (pos 0) ≤ℚ x) xs →
        All (λ y. whole (pos 0) ≤ℚ y) ys → whole (pos 0) ≤ℚ inner_ℚ xs ys }
    ensures greater { (xs ys zs : List Number) →
        All (λ z. whole (pos 0) ≤ℚ z) zs → AllZip ◌≤ℚ◌ xs ys →
        inner_ℚ xs zs ≤ℚ inner_ℚ ys zs }
    ensures zero_only { (xs ys : List Number) →
        All (λ x. whole (pos 0) ≤ℚ x) xs → All (λ y. whole (pos 0) ≤ℚ y) ys →
        inner_ℚ xs ys ≡ whole (pos 0) →
        All (λ (p : Number × Number). p.0 *ℚ p.1 ≡ whole (pos 0)) (zip xs ys) }
{}
