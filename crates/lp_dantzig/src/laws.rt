//! What an answer by the rule of the largest coefficient is: laws on functions with empty bodies.
ghost use Rattle.std.specs.Prelude.{◌≡◌, ℕ};
ghost use Rattle.lp_core.specs.declared.answer.Answer.{Answer};
ghost use Rattle.lp_core.specs.declared.answer.Rule.TheVariants.{Legal};
ghost use Rattle.lp_core.specs.declared.program.Lp.{Lp};
ghost use Rattle.lp_core.specs.Answers.{IsAnswer};
ghost use Rattle.lp_core.specs.LargestCoefficient.{IsLargestAnswer};
ghost use Rattle.lp_core.specs.WellFormed.{IsWellFormed};

use gq_field::ExactField;

/// An answer by the rule of the largest coefficient is an answer under the rule Legal: each of its
/// pivots is legal.
pub fn answer_is_legal<F: ExactField>()
    ensures { (lp : Lp F) (iterlim : ℕ) (a : Answer F) → IsLargestAnswer F.value F.limit lp iterlim a → IsAnswer F.value F.limit lp iterlim Legal a }
{}

/// For each limit of pivots a well-formed program has at most one answer by the rule of the largest
/// coefficient: the program and the limit determine the answer's pivots, kind of end and values.
pub fn one_answer<F: ExactField>()
    ensures { (lp : Lp F) (iterlim : ℕ) (a b : Answer F) → IsWellFormed F.value lp →
        IsLargestAnswer F.value F.limit lp iterlim a → IsLargestAnswer F.value F.limit lp iterlim b → a ≡ b }
{}

/// For each limit of pivots a well-formed program has an answer by the rule of the largest
/// coefficient. By `one_answer` it has no other.
pub fn an_answer<F: ExactField>()
    ensures { (lp : Lp F) (iterlim : ℕ) → IsWellFormed F.value lp → (answer : Answer F) × IsLargestAnswer F.value F.limit lp iterlim answer }
{}
