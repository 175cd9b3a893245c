//! That a program has an answer: a law on a function with an empty body.
ghost use Rattle.std.specs.Prelude.{ℕ, List};
ghost use Rattle.lp_core.specs.declared.answer.Answer.{Answer};
ghost use Rattle.lp_core.specs.declared.answer.Pivot.{Pivot};
ghost use Rattle.lp_core.specs.declared.program.Lp.{Lp};
ghost use Rattle.lp_core.specs.Answers.{IsAnswerByChoice};
ghost use Rattle.lp_core.specs.Dictionary.{Dictionary};
ghost use Rattle.lp_core.specs.WellFormed.{IsWellFormed};
ghost use Rattle.lp_simplex.specs.Choices.{ChoosesImproving, AlwaysChooses};

use gq_field::ExactField;

/// A rule for the entering variable: it allows only variables that improve, and whenever some
/// variable improves, it allows at least one.
pub trait Finding {
    /// Whether a variable may enter, by the first dictionary, the pivots so far, and the dictionary
    /// they lead to.
    ghost chooses: { Dictionary → List Pivot → Dictionary → ℕ → Type 0 };

    /// A variable that may enter improves.
    ghost improving: { ChoosesImproving chooses };

    /// If some variable improves, one may enter.
    ghost always: { AlwaysChooses chooses };
}

/// A well-formed linear program has an answer under each limit `iterlim` of pivots and each choice
/// of the entering variable that allows only variables that improve, and at least one if some
/// variable improves: Chvatal, Linear Programming, chapters 2, 3 and 8.
pub fn an_answer<F: ExactField, C: Finding>()
    ensures { (lp : Lp F) (iterlim : ℕ) → IsWellFormed F.value lp →
        (answer : Answer F) × IsAnswerByChoice F.value F.limit lp iterlim C.chooses answer }
{}
