//! Laws of parts of expressions.
ghost use Rattle.std.specs.Prelude.{◌≡◌, ℕ, List};
ghost use Rattle.gms_ast.specs.declared.expression.Control.{Control};
ghost use Rattle.gms_ast.specs.declared.expression.Expr.{Expr};
ghost use Rattle.gms_ast.specs.declared.program.Target.{Target};
ghost use Rattle.gms_ast.specs.TreeView.{tree_of, control_tree};
ghost use Rattle.gms_ast.specs.Numbers.{in_numbers, control_in_numbers};
ghost use Rattle.gms_grammar.specs.GamsGrammar.{Nonterminal};
ghost use Rattle.gms_expressions.specs.declared.fault.SyntaxFault.{SyntaxFault};
ghost use Rattle.gms_expressions.specs.Outcomes.{ExpressionState, IsPart, IsRefusedPart};
ghost use Rattle.gms_laws.specs.Parts.{Tokens, Derivation, EndAlike, IsExpression, IsPrimary, IsControl, IsTarget, SomePart, meant_target};

use gq_field::ExactField;

/// Reading a part (an expression, an operand, a control or a left side) from tokens has one result
/// or one first fault: never both, and never neither (GAMS User's Guide, "GAMS Output", compilation
/// errors).
///
/// `n` is a nonterminal of the grammar; those for an expression, an operand (`primary`), a control
/// and a left side (`target`) have a function that reads them. The state of a reading is how many
/// parentheses are open, the names and the labels so far, and whether the last token was a dot.
/// `before` is the state before the first token of the part, and `after` the one after its last;
/// `rest` are the tokens after the part. Two readings of the same tokens from the same state
/// `before` have equal results, equal `after` and equal `rest`. Results are compared with each
/// value of the field `F` replaced by the number that it means.
pub fn part_laws<F: ExactField>()
    ensures one_part { (limit : ℕ) (source : List ℕ) (n : Nonterminal) (before after later : ExpressionState)
        (tokens rest others : Tokens) (one other : Derivation) →
        IsPart limit source n before after tokens rest one → IsPart limit source n before later tokens others other →
        (one ≡ other) × EndAlike after later rest others }
    ensures one_expression { (source : List ℕ) (before after later : ExpressionState) (tokens rest others : Tokens) (one other : Expr F) →
        IsExpression F.limit F.value source before after tokens rest one → IsExpression F.limit F.value source before later tokens others other →
        (in_numbers F.value (tree_of one) ≡ in_numbers F.value (tree_of other)) × EndAlike after later rest others }
    ensures one_primary { (source : List ℕ) (before after later : ExpressionState) (tokens rest others : Tokens) (one other : Expr F) →
        IsPrimary F.limit F.value source before after tokens rest one → IsPrimary F.limit F.value source before later tokens others other →
        (in_numbers F.value (tree_of one) ≡ in_numbers F.value (tree_of other)) × EndAlike after later rest others }
    ensures one_control { (source : List ℕ) (before after later : ExpressionState) (tokens rest others : Tokens) (one other : Control F) →
        IsControl F.limit F.value source before after tokens rest one → IsControl F.limit F.value source before later tokens others other →
        (control_in_numbers F.value (control_tree one) ≡ control_in_numbers F.value (control_tree other)) × EndAlike after later rest others }
    ensures one_target { (source : List ℕ) (before after later : ExpressionState) (tokens rest others : Tokens) (one other : Target F) →
        IsTarget F.limit F.value source before after tokens rest one → IsTarget F.limit F.value source before later tokens others other →
        (meant_target F.value one ≡ meant_target F.value other) × EndAlike after later rest others }
    ensures one_fault { (limit : ℕ) (source : List ℕ) (n : Nonterminal) (before : ExpressionState) (tokens : Tokens) (one other : SyntaxFault) →
        IsRefusedPart limit source n before tokens one → IsRefusedPart limit source n before tokens other → one ≡ other }
    ensures not_both { (limit : ℕ) (source : List ℕ) (n : Nonterminal) (before after : ExpressionState) (tokens rest : Tokens)
        (part : Derivation) (fault : SyntaxFault) →
        IsPart limit source n before after tokens rest part → IsRefusedPart limit source n before tokens fault → ⊥ }
    ensures not_neither { (limit : ℕ) (source : List ℕ) (n : Nonterminal) (before : ExpressionState) (tokens : Tokens) →
        ((fault : SyntaxFault) → IsRefusedPart limit source n before tokens fault → ⊥) → SomePart limit source n before tokens }
{}
