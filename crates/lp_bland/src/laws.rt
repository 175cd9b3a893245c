//! Bland's rule always has exactly one answer, wider numbers change no answer, and an answer over a
//! field is an answer over the numbers: laws on functions with empty bodies.
ghost use Rattle.std.specs.Prelude.{◌≡◌, ◌-◌, ◌^◌, ℕ};
ghost use Rattle.gq_number.specs.Number.{Number};
ghost use Rattle.gq_field.specs.declared.half.Half.{Half};
ghost use Rattle.gq_field.specs.Values.{half_value};
ghost use Rattle.gq_frac.specs.declared.frac.Frac.{Frac};
ghost use Rattle.gq_frac.specs.Frac.{frac_limit, frac_value};
ghost use Rattle.lp_core.specs.declared.answer.Answer.{Answer};
ghost use Rattle.lp_core.specs.declared.answer.Rule.{Rule};
ghost use Rattle.lp_core.specs.declared.answer.Rule.TheVariants.{Bland};
ghost use Rattle.lp_core.specs.declared.program.Lp.{Lp};
ghost use Rattle.lp_core.specs.Answers.{IsAnswer};
ghost use Rattle.lp_core.specs.Numbers.{lp_numbers, answer_numbers};
ghost use Rattle.lp_core.specs.WellFormed.{IsWellFormed};
ghost use Rattle.lp_bland.specs.Ends.{IsRefusedEnd};

use gq_field::ExactField;

/// For each limit of pivots a well-formed program has at most one answer under Bland's rule: the
/// program and the limit determine the answer's pivots, kind of end and values.
pub fn one_answer<F: ExactField>()
    ensures { (lp : Lp F) (iterlim : ℕ) (a b : Answer F) → IsWellFormed F.value lp →
        IsAnswer F.value F.limit lp iterlim Bland a → IsAnswer F.value F.limit lp iterlim Bland b → a ≡ b }
{}

/// For each limit of pivots a well-formed program has an answer under Bland's rule, and by
/// `one_answer` exactly one.
pub fn an_answer<F: ExactField>()
    ensures { (lp : Lp F) (iterlim : ℕ) → IsWellFormed F.value lp →
        (answer : Answer F) × IsAnswer F.value F.limit lp iterlim Bland answer }
{}

/// Let `narrow` and `wide` be the same well-formed program, with numerators and denominators in 63
/// and 127 bits. Then an answer of `narrow` under Bland's rule whose end is not Refused is, in 127
/// bits, an answer of `wide` under Bland's rule and the same limit of pivots.
pub fn wide_answers()
    ensures { (narrow : Lp Half) (wide : Lp Frac) (iterlim : ℕ) (a : Answer Half) (b : Answer Frac) →
        lp_numbers half_value narrow ≡ lp_numbers frac_value wide →
        IsWellFormed frac_value wide → answer_numbers frac_value b ≡ answer_numbers half_value a → ¬ (IsRefusedEnd a.end) →
        IsAnswer half_value (2 ^ 63 - 1) narrow iterlim Bland a → IsAnswer frac_value frac_limit wide iterlim Bland b }
{}

/// Let a well-formed program have an answer. If in both each value of the field `F` is replaced by
/// the rational number that it means, the answer is still one of the program, under the same rule,
/// limit of pivots, and limit of numerators and denominators.
pub fn answers_over_numbers<F: ExactField>()
    ensures { (lp : Lp F) (iterlim : ℕ) (rule : Rule) (answer : Answer F) → IsWellFormed F.value lp →
        IsAnswer F.value F.limit lp iterlim rule answer →
        IsAnswer (λ (x : Number). x) F.limit (lp_numbers F.value lp) iterlim rule (answer_numbers F.value answer) }
{}
