//! Laws of joint sources.
ghost use Rattle.std.specs.Prelude.{◌≡◌, ℕ, List, [], ◌++◌};
ghost use Rattle.gms_grammar.specs.Lines.{code_text};
ghost use Rattle.gms_lex.specs.declared.token.Token.{Token};
ghost use Rattle.gms_lex.specs.Tokens.{IsTokens};
ghost use Rattle.gms_grammar.specs.declared.terminal.Terminal.{Terminal};
ghost use Rattle.gms_grammar.specs.Grammar.{DerivationTree};
ghost use Rattle.gms_expressions.specs.Outcomes.{kinded_tokens};
ghost use Rattle.gms_joint_source.specs.JointSources.{joint_source, HaveJointPrefix, DerivesSource, BeginsWith};

/// A joint source is a saved source, a line end, a line with `;`, and a file that continues the
/// saved source. The saved source may end in a table, a comment, a list of data, or a statement
/// without its `;` (GAMS User's Guide, "Save and Restart", "GAMS Programs").
///
/// The tokens of the joint source are those of the saved source without its last, `End`, then
/// perhaps tokens of line ends, then a `;`, then others (`tokens`). If the saved source is a
/// program, there are no such line ends (`no_ends`). The saved source's tokens, without `End`, have
/// the same terminals of the grammar in both sources (`seen`). If both sources are programs, the
/// derivation of the joint source begins with that of the saved source (`derivation`).
pub fn joint_token_laws()
    ensures tokens { (saved file : List ℕ) (tokens joint : List Token) →
        IsTokens saved tokens → IsTokens (joint_source saved file) joint → HaveJointPrefix saved tokens joint }
    ensures seen { (saved file : List ℕ) (tokens joint : List Token) → IsTokens saved tokens →
        (prefix : HaveJointPrefix saved tokens joint) → kinded_tokens (joint_source saved file) prefix.own ≡ kinded_tokens saved prefix.own }
    ensures no_ends { (saved file : List ℕ) (tokens joint : List Token) (tree : DerivationTree (Terminal × Token)) →
        IsTokens saved tokens → IsTokens (joint_source saved file) joint → DerivesSource saved tokens tree →
        (prefix : HaveJointPrefix saved tokens joint) → prefix.ends ≡ [] }
    ensures derivation { (saved file : List ℕ) (tokens joint : List Token) (first whole : DerivationTree (Terminal × Token)) →
        IsTokens saved tokens → IsTokens (joint_source saved file) joint →
        DerivesSource saved tokens first → DerivesSource (joint_source saved file) joint whole → BeginsWith whole first }
{}
