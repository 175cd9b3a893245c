//! What ranges mean: laws on functions with empty bodies.
ghost use Rattle.std.specs.Prelude.{◌≡◌, ◌↔◌, ℕ, true, false, pos, List, length, Some};
ghost use Rattle.std.specs.List.{All};
ghost use Rattle.gq_number.specs.Number.{Number, whole, ◌-ℚ◌};
ghost use Rattle.gq_number.specs.Order.{◌≤ℚ◌};
ghost use Rattle.lp_core.specs.declared.answer.Answer.{Answer};
ghost use Rattle.lp_core.specs.declared.answer.Rule.TheVariants.{Bland, Legal};
ghost use Rattle.lp_core.specs.declared.program.Lp.{Lp};
ghost use Rattle.lp_core.specs.Answers.{IsAnswer};
ghost use Rattle.lp_core.specs.Sums.{value_of_column};
ghost use Rattle.lp_core.specs.Feasible.{Feasible};
ghost use Rattle.lp_core.specs.WellFormed.{IsWellFormed};
ghost use Rattle.lp_core.specs.Numbers.{lp_numbers};
ghost use Rattle.lp_range.specs.Spans.{Gain, Span, IsInSpan, Stay, span};
ghost use Rattle.lp_range.specs.Moved.{itself, with_right, costs_with, cost_at, MeetsBoundWithRight, MeetsBoundWithCost};
ghost use Rattle.lp_range.specs.Ranges.{IsOptimum};

use gq_field::ExactField;

/// The span of `given`, the interval to which this number may move while some amounts stay at least
/// 0, is the widest possible. Each gain has an amount at `given` and by how much it rises if the
/// number rises by 1. Let each amount be at least 0, and let each step that computes the span fit
/// under the limit. Then x is in the span exactly if each amount is at least 0 after the move from
/// `given` to x.
pub fn widest_span()
    ensures { (limit : ℕ) (given x : Number) (gains : List Gain) (s : Span) → All (λ g. whole (pos 0) ≤ℚ g.amount) gains →
        span limit given gains ≡ Some s → IsInSpan s x ↔ Stay gains (x -ℚ given) }
{}

/// Let P be the program with the right side `right` in row `i`, from 0. Let the objective of a
/// feasible point of P equal the bound that `duals` give for P. Then no feasible point of P has a
/// lower objective when minimizing, or a higher one when maximizing (weak duality; Chvatal, Linear
/// Programming, chapter 5).
pub fn best_with_right<F: ExactField>()
    ensures least { (lp : Lp F) (duals : List Number) (i : ℕ) (right : Number) → IsWellFormed F.value lp → lp.maximize ≡ false →
        (meets : MeetsBoundWithRight F.value lp duals i right) → (x : List Number) →
        Feasible itself (with_right i right (lp_numbers F.value lp)) x → value_of_column meets.0 lp.objective ≤ℚ value_of_column x lp.objective }
    ensures greatest { (lp : Lp F) (duals : List Number) (i : ℕ) (right : Number) → IsWellFormed F.value lp → lp.maximize ≡ true →
        (meets : MeetsBoundWithRight F.value lp duals i right) → (x : List Number) →
        Feasible itself (with_right i right (lp_numbers F.value lp)) x → value_of_column x lp.objective ≤ℚ value_of_column meets.0 lp.objective }
{}

/// Let the cost of column `j` be `cost`, that of the objective's column, if another, 1, and any
/// other cost 0. Let some duals give a bound on the sum of cost times value over the columns that
/// equals this sum at `levels`. Then no feasible point has a smaller sum when minimizing, or a
/// greater sum when maximizing.
pub fn best_with_cost<F: ExactField>()
    ensures least { (lp : Lp F) (levels : List Number) (j : ℕ) (cost : Number) → IsWellFormed F.value lp → lp.maximize ≡ false →
        MeetsBoundWithCost F.value lp levels j cost → (x : List Number) →
        Feasible F.value lp x → cost_at lp (costs_with lp j cost) levels ≤ℚ cost_at lp (costs_with lp j cost) x }
    ensures greatest { (lp : Lp F) (levels : List Number) (j : ℕ) (cost : Number) → IsWellFormed F.value lp → lp.maximize ≡ true →
        MeetsBoundWithCost F.value lp levels j cost → (x : List Number) →
        Feasible F.value lp x → cost_at lp (costs_with lp j cost) x ≤ℚ cost_at lp (costs_with lp j cost) levels }
{}

/// Let an optimum be an answer by Bland's rule, or by the rule Legal, which allows every legal
/// pivot, under some limit on the number of pivots. Then it is an answer by Legal under the limit
/// that equals its number of pivots.
pub fn legal_by_its_pivots<F: ExactField>()
    ensures bland { (lp : Lp F) (iterlim : ℕ) (answer : Answer F) → IsOptimum answer →
        IsAnswer F.value F.limit lp iterlim Bland answer → IsAnswer F.value F.limit lp (length answer.pivots) Legal answer }
    ensures legal { (lp : Lp F) (iterlim : ℕ) (answer : Answer F) → IsOptimum answer →
        IsAnswer F.value F.limit lp iterlim Legal answer → IsAnswer F.value F.limit lp (length answer.pivots) Legal answer }
{}
