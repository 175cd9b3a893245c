//! Bland's rule ends, and each rule that turns to it: laws on functions with empty bodies.
ghost use Rattle.std.specs.Prelude.{ℕ, List};
ghost use Rattle.lp_core.specs.declared.answer.Answer.{Answer};
ghost use Rattle.lp_core.specs.declared.answer.Pivot.{Pivot};
ghost use Rattle.lp_core.specs.declared.answer.Rule.TheVariants.{Bland};
ghost use Rattle.lp_core.specs.declared.program.Lp.{Lp};
ghost use Rattle.lp_core.specs.Answers.{IsAnswer, IsAnswerByChoice};
ghost use Rattle.lp_core.specs.Dictionary.{Dictionary};
ghost use Rattle.lp_core.specs.LargestCoefficient.{IsLargestAnswer};
ghost use Rattle.lp_core.specs.WellFormed.{IsWellFormed};
ghost use Rattle.lp_nocycle.specs.Cycling.{NoneRepeats};
ghost use Rattle.lp_nocycle.specs.PivotCount.{HasFewPivots, EndsUninterrupted};
ghost use Rattle.lp_nocycle.specs.Turns.{TurnsToBland, HasFewPivotsByTurn, EndsUninterruptedByTurn};

use gq_field::ExactField;

/// No basis repeats under Bland's rule. Let legal pivots, by whatever rule, lead from the first
/// dictionary of a well-formed program to a dictionary d, and one or more pivots by Bland's rule
/// from d to e. If d and e are of the same phase, their sets of basic variables differ. The phase
/// is 1 while variable 0 is basic or some row's constant is below 0, so that variable 0 must enter;
/// else it is 2. The numbers have no limit here (Bland, "New finite pivoting rules for the simplex
/// method"; Chvatal, Linear Programming, chapter 3).
pub fn no_basis_repeats<F: ExactField>()
    ensures none_repeats { NoneRepeats F.value }
{}

/// A search by Bland's rule ends. Let n be the number of variables of a well-formed program's
/// standard form, slacks and variable 0 included. Each answer by Bland's rule has fewer than
/// 2 * 2^n pivots, twice the number of subsets of n variables. If `iterlim`, the limit of pivots,
/// is at least that number, the answer's end is not Interrupted (Chvatal, Linear Programming,
/// chapter 3).
pub fn pivots_end<F: ExactField>()
    ensures few { (lp : Lp F) (limit iterlim : ℕ) (answer : Answer F) → IsWellFormed F.value lp →
        IsAnswer F.value limit lp iterlim Bland answer → HasFewPivots F.value lp answer }
    ensures to_the_end { (lp : Lp F) (limit iterlim : ℕ) (answer : Answer F) → IsWellFormed F.value lp →
        IsAnswer F.value limit lp iterlim Bland answer → EndsUninterrupted F.value lp iterlim answer }
{}

/// A choice of the entering variable that turns to Bland's rule after n successive degenerate
/// pivots of one phase, for n variables, slacks and variable 0 included. The choice then follows
/// Bland's rule to the end of the phase.
pub trait Turning {
    /// The choice: whether a variable may enter, by the first dictionary, the pivots so far, and
    /// the dictionary they lead to.
    ghost chooses: { Dictionary → List Pivot → Dictionary → ℕ → Type 0 };

    /// After the turn the choice obeys Bland's rule.
    ghost turning: { TurnsToBland chooses };
}

/// Each search ends if the choice of the entering variable turns to Bland's rule. Let n be the
/// number of variables of a well-formed program's standard form, slacks and variable 0 included.
/// After n successive degenerate pivots of one phase the choice follows Bland's rule to the end of
/// the phase. Then each answer has fewer than 2 * 2^n * (n + 1) pivots. If `iterlim`, the limit of
/// pivots, is at least that number, no answer's end is Interrupted (Chvatal, Linear Programming,
/// chapter 3).
pub fn turns_end<F: ExactField, C: Turning>()
    ensures few { (lp : Lp F) (limit iterlim : ℕ) (answer : Answer F) → IsWellFormed F.value lp →
        IsAnswerByChoice F.value limit lp iterlim C.chooses answer → HasFewPivotsByTurn F.value lp answer }
    ensures to_the_end { (lp : Lp F) (limit iterlim : ℕ) (answer : Answer F) → IsWellFormed F.value lp →
        IsAnswerByChoice F.value limit lp iterlim C.chooses answer → EndsUninterruptedByTurn F.value lp iterlim answer }
{}

/// A search by the rule of the largest coefficient ends. Let n be the number of variables of a
/// well-formed program's standard form, slacks and variable 0 included. After n successive
/// degenerate pivots of one phase, this rule turns to Bland's rule to the end of the phase. Each
/// answer by this rule has fewer than 2 * 2^n * (n + 1) pivots. If `iterlim`, the limit of pivots,
/// is at least that number, the answer's end is not Interrupted.
pub fn largest_ends<F: ExactField>()
    ensures few { (lp : Lp F) (limit iterlim : ℕ) (answer : Answer F) → IsWellFormed F.value lp →
        IsLargestAnswer F.value limit lp iterlim answer → HasFewPivotsByTurn F.value lp answer }
    ensures to_the_end { (lp : Lp F) (limit iterlim : ℕ) (answer : Answer F) → IsWellFormed F.value lp →
        IsLargestAnswer F.value limit lp iterlim answer → EndsUninterruptedByTurn F.value lp iterlim answer }
{}
