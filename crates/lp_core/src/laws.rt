//! What certificates mean, for every program, and when one answer is also another: laws on
//! functions with empty bodies.
ghost use Rattle.std.specs.Prelude.{◌≡◌, ◌≤◌, ℕ, true, false, pos, length, List, Some};
ghost use Rattle.gq_number.specs.Number.{Number, whole, ◌+ℚ◌, ◌*ℚ◌};
ghost use Rattle.gq_number.specs.Order.{◌≤ℚ◌, ◌<ℚ◌};
ghost use Rattle.lp_core.specs.declared.answer.Answer.{Answer};
ghost use Rattle.lp_core.specs.declared.answer.End.TheVariants.{Optimal};
ghost use Rattle.lp_core.specs.declared.answer.Rule.{Rule};
ghost use Rattle.lp_core.specs.declared.answer.Rule.TheVariants.{Bland, Legal};
ghost use Rattle.lp_core.specs.declared.program.Lp.{Lp};
ghost use Rattle.lp_core.specs.Sums.{value_of_column};
ghost use Rattle.lp_core.specs.Feasible.{Feasible};
ghost use Rattle.lp_core.specs.WellFormed.{IsWellFormed};
ghost use Rattle.lp_core.specs.Answers.{IsAnswer};
ghost use Rattle.lp_core.specs.DualBound.{dual_bound};
ghost use Rattle.lp_core.specs.Proofs.{ProvesOptimal, ProvesInfeasible, ProvesCrossed, ProvesUnbounded, further};

use gq_field::ExactField;

/// Weak duality. Let `duals`, a factor for each row, give a bound of the objective: a lower one
/// when minimizing, an upper one when maximizing. Each feasible point's objective satisfies it. So
/// no feasible point is better than an optimum that comes with its certificate (Chvatal, Linear
/// Programming, chapter 5).
pub fn weak_duality<F: ExactField>()
    ensures least { (lp : Lp F) (duals x : List Number) (bound : Number) →
        IsWellFormed F.value lp → Feasible F.value lp x → lp.maximize ≡ false →
        dual_bound F.value lp duals ≡ Some bound → bound ≤ℚ value_of_column x lp.objective }
    ensures greatest { (lp : Lp F) (duals x : List Number) (bound : Number) →
        IsWellFormed F.value lp → Feasible F.value lp x → lp.maximize ≡ true →
        dual_bound F.value lp duals ≡ Some bound → value_of_column x lp.objective ≤ℚ bound }
    ensures optimum_is_least { (lp : Lp F) (levels row_levels duals reduced x : List Number) →
        IsWellFormed F.value lp → ProvesOptimal F.value lp levels row_levels duals reduced →
        lp.maximize ≡ false → Feasible F.value lp x →
        value_of_column levels lp.objective ≤ℚ value_of_column x lp.objective }
    ensures optimum_is_greatest { (lp : Lp F) (levels row_levels duals reduced x : List Number) →
        IsWellFormed F.value lp → ProvesOptimal F.value lp levels row_levels duals reduced →
        lp.maximize ≡ true → Feasible F.value lp x →
        value_of_column x lp.objective ≤ℚ value_of_column levels lp.objective }
{}

/// Farkas: no point is feasible if `duals`, a factor for each row, prove it: the sum of the rows
/// times their factors, and the bounds, would give 0 a lower bound above 0 at a feasible point
/// (Chvatal, Linear Programming, chapter 9).
pub fn farkas<F: ExactField>()
    ensures { (lp : Lp F) (duals x : List Number) → IsWellFormed F.value lp →
        ProvesInfeasible F.value lp duals → ¬ (Feasible F.value lp x) }
{}

/// The certificate of crossed bounds: column `j` is the first whose lower bound exceeds its upper
/// bound, and each of `duals`, one for each row, is 0. Then no point is feasible.
pub fn crossed_bounds<F: ExactField>()
    ensures { (lp : Lp F) (j : ℕ) (duals x : List Number) →
        ProvesCrossed F.value lp j duals → ¬ (Feasible F.value lp x) }
{}

/// The certificate of an unbounded end: a point (`levels`), the sum of each row there
/// (`row_levels`), and a ray. The point plus t times the ray is feasible for each t from 0 on. For
/// each number there is such a t at which the objective is at most this number when minimizing, and
/// at least this number when maximizing.
pub fn unbounded_ray<F: ExactField>()
    ensures feasible { (lp : Lp F) (levels row_levels ray : List Number) (t : Number) →
        IsWellFormed F.value lp → ProvesUnbounded F.value lp levels row_levels ray →
        whole (pos 0) ≤ℚ t → Feasible F.value lp (further levels t ray) }
    ensures least { (lp : Lp F) (levels row_levels ray : List Number) (goal : Number) →
        IsWellFormed F.value lp → ProvesUnbounded F.value lp levels row_levels ray → lp.maximize ≡ false →
        (t : Number) × (whole (pos 0) ≤ℚ t) × (value_of_column (further levels t ray) lp.objective ≤ℚ goal) }
    ensures greatest { (lp : Lp F) (levels row_levels ray : List Number) (goal : Number) →
        IsWellFormed F.value lp → ProvesUnbounded F.value lp levels row_levels ray → lp.maximize ≡ true →
        (t : Number) × (whole (pos 0) ≤ℚ t) × (goal ≤ℚ value_of_column (further levels t ray) lp.objective) }
{}

/// When an answer (pivots and end of a search) is also one under another rule or limit of pivots.
/// An answer under Bland's rule is one under the rule Legal, which lets every improving variable
/// enter, and the same limit (`legal`). An Optimal answer is one under each limit that is at least
/// its number of pivots, and the same rule (`within`).
pub fn answers_too<F: ExactField>()
    ensures legal { (lp : Lp F) (iterlim : ℕ) (answer : Answer F) →
        IsAnswer F.value F.limit lp iterlim Bland answer → IsAnswer F.value F.limit lp iterlim Legal answer }
    ensures within { (lp : Lp F) (iterlim other : ℕ) (rule : Rule) (answer : Answer F) (levels row_levels duals reduced : List F) →
        answer.end ≡ Optimal levels row_levels duals reduced → length answer.pivots ≤ other →
        IsAnswer F.value F.limit lp iterlim rule answer → IsAnswer F.value F.limit lp other rule answer }
{}
