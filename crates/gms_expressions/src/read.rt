//! The four calls.
ghost use Rattle.std.specs.Prelude.{◌≡◌, ◌<◌, ◌≤◌, length, map, MatchResult};
ghost use Rattle.gms_lex.specs.Tokens.{IsTokens};
ghost use Rattle.gms_ast.specs.Trees.{reference};
ghost use Rattle.gms_ast.specs.TreeView.{tree_of, control_tree, indices_of, index_tree};
ghost use Rattle.gms_grammar.specs.GamsGrammar.{Expression, Primary, Control as ControlPart, Target as TargetPart};
ghost use Rattle.gms_expressions.specs.ExpressionTrees as trees;
ghost use Rattle.gms_ast.specs.Numbers.{in_numbers, indices_in_numbers, control_in_numbers};
ghost use Rattle.gms_expressions.specs.Calls.{expression_state, tokens_from, IsRead, IsSyntaxRefusal, IsTablePrefix};
ghost use Rattle.gms_expressions.specs.InnerReadings.{IsReady};

use crate::fault::SyntaxFaultOrMemory;
use crate::grammar::{Grammar, Inner, nested};
use crate::reader::{Read, Reader, Tables};
use gms_ast::{Control, Expr, Target};
use gms_labels::Labels;
use gms_lex::Token;
use gq_field::ExactField;
use std::alloc::Global;
use std::marker::PhantomData;

/// A reader of the tokens of a source, before which `unclosed` parentheses are open.
fn reader<'s>(alloc: Global, source: &'s [u8], tokens: &'s [Token], unclosed: u32) -> Reader<'s>
    requires tokens { IsTokens source.now tokens.now }
    requires few { unclosed ≤ 100 }
    ensures ready { IsReady result }
    ensures source { result.source.now ≡ source.now }
    ensures tokens { result.tokens.now ≡ tokens.now }
    ensures unclosed { result.unclosed ≡ unclosed }
{
    Reader {
        alloc,
        source,
        tokens,
        end: tokens[tokens.len() - 1].at,
        unclosed,
    }
}

impl Tables {
    /// These tables, taken from where they are.
    fn taken(alloc: Global, names: &mut Labels, labels: &mut Labels) -> Tables
        ensures names { result.names ≡ names.old }
        ensures labels { result.labels ≡ labels.old }
    {
        Tables {
            names: std::mem::replace(names, Labels::new(alloc)),
            labels: std::mem::replace(labels, Labels::new(alloc)),
        }
    }

    /// Gives the tables back.
    fn give_back(self, names: &mut Labels, labels: &mut Labels)
        ensures names { names.new ≡ self.names }
        ensures labels { labels.new ≡ self.labels }
    {
        let Tables {
            names: own_names,
            labels: own_labels,
        } = self;
        *names = own_names;
        *labels = own_labels;
    }
}

/// The expression that begins at the token with the index `from`, and the index of the token after
/// the expression. The expression is read on while the next token can continue it.
///
/// `tokens` are those of `source`. Before `from` there are `unclosed` open parentheses, at most
/// 100. New names and labels of the expression are appended to the program's tables `names` and
/// `labels`, on failure perhaps only some.
///
/// The fault is the first in the order of the tokens: a token that cannot come next while the
/// expression is incomplete, as `;` in `a + ;` (`Expected`, or `NotInProfile` for a word of GAMS
/// that this compiler does not read, such as `eps`), a parenthesis that opens while 100 are open
/// (`Depth`), a number m/10^e, with the least e, of which m or 10^e is above `F.limit` (`Number`),
/// or a new name or label while its table has 65,536 (`TooManyLabels`). `Memory` means out of
/// memory.
pub fn expression<F: ExactField>(
    alloc: Global,
    source: &[u8],
    tokens: &[Token],
    from: usize,
    unclosed: u32,
    names: &mut Labels,
    labels: &mut Labels,
) -> Result<(Expr<F>, usize), SyntaxFaultOrMemory>
    requires tokens { IsTokens source.now tokens.now }
    requires from { from < length tokens.now }
    requires few { unclosed ≤ 100 }
    ensures read { MatchResult result
        (λ r. IsRead F.limit source.now Expression
        (λ all_names all_labels tree part. in_numbers F.value (tree_of part) ≡ trees.expression source.now all_names all_labels tree)
        (expression_state unclosed names.old labels.old) (expression_state unclosed names.new labels.new)
        (tokens_from source.now tokens.now from) (tokens_from source.now tokens.now r.1) r.0)
        (λ e. IsSyntaxRefusal F.limit source.now Expression (expression_state unclosed names.old labels.old) (tokens_from source.now tokens.now from) e) }
    ensures extended { IsTablePrefix names.old names.new × IsTablePrefix labels.old labels.new }
{
    let mut tables = Tables::taken(alloc, names, labels);
    let read = nested(
        reader(alloc, source, tokens, unclosed),
        &mut tables,
        from,
        Inner::Expression,
        PhantomData,
    );
    tables.give_back(names, labels);
    read
}

/// The operand that begins at `tokens[from]`, read on while the next token can continue it, and the
/// index of the token after the operand. An operand is a constant, a reference, a call, a fold, or
/// an expression in parentheses. Before `tokens[from]`, `unclosed` parentheses are open, at most
/// 100. New names and labels are appended to `names` and `labels`, on error perhaps only some. The
/// error is the first fault, by token, of the kinds that [`expression`] lists, or out of memory.
pub fn primary<F: ExactField>(
    alloc: Global,
    source: &[u8],
    tokens: &[Token],
    from: usize,
    unclosed: u32,
    names: &mut Labels,
    labels: &mut Labels,
) -> Result<(Expr<F>, usize), SyntaxFaultOrMemory>
    requires tokens { IsTokens source.now tokens.now }
    requires from { from < length tokens.now }
    requires few { unclosed ≤ 100 }
    ensures read { MatchResult result
        (λ r. IsRead F.limit source.now Primary
        (λ all_names all_labels tree part. in_numbers F.value (tree_of part) ≡ trees.primary source.now all_names all_labels tree)
        (expression_state unclosed names.old labels.old) (expression_state unclosed names.new labels.new)
        (tokens_from source.now tokens.now from) (tokens_from source.now tokens.now r.1) r.0)
        (λ e. IsSyntaxRefusal F.limit source.now Primary (expression_state unclosed names.old labels.old) (tokens_from source.now tokens.now from) e) }
    ensures extended { IsTablePrefix names.old names.new × IsTablePrefix labels.old labels.new }
{
    let mut tables = Tables::taken(alloc, names, labels);
    let grammar = Grammar {
        reader: reader(alloc, source, tokens, unclosed),
        nested: nested::<F>,
        field: PhantomData,
    };
    let read = grammar.primary(&mut tables, from);
    tables.give_back(names, labels);
    read
}

/// The control that begins at `tokens[from]`, read on while the next token can continue it, and the
/// index of the token after the control. A control has the sets of a fold or a loop, perhaps with a
/// condition. Before `tokens[from]`, `unclosed` parentheses are open, at most 100. New names and
/// labels are appended to `names` and `labels`, on error perhaps only some. The error is the first
/// fault, by token, of the kinds that [`expression`] lists, or out of memory.
pub fn control<F: ExactField>(
    alloc: Global,
    source: &[u8],
    tokens: &[Token],
    from: usize,
    unclosed: u32,
    names: &mut Labels,
    labels: &mut Labels,
) -> Result<(Control<F>, usize), SyntaxFaultOrMemory>
    requires tokens { IsTokens source.now tokens.now }
    requires from { from < length tokens.now }
    requires few { unclosed ≤ 100 }
    ensures read { MatchResult result
        (λ r. IsRead F.limit source.now ControlPart
        (λ all_names all_labels tree part. control_in_numbers F.value (control_tree part) ≡ trees.control source.now all_names all_labels tree)
        (expression_state unclosed names.old labels.old) (expression_state unclosed names.new labels.new)
        (tokens_from source.now tokens.now from) (tokens_from source.now tokens.now r.1) r.0)
        (λ e. IsSyntaxRefusal F.limit source.now ControlPart (expression_state unclosed names.old labels.old) (tokens_from source.now tokens.now from) e) }
    ensures extended { IsTablePrefix names.old names.new × IsTablePrefix labels.old labels.new }
{
    let mut tables = Tables::taken(alloc, names, labels);
    let grammar = Grammar {
        reader: reader(alloc, source, tokens, unclosed),
        nested: nested::<F>,
        field: PhantomData,
    };
    let read = grammar.control(&mut tables, from);
    tables.give_back(names, labels);
    read
}

/// The target that begins at `tokens[from]`, read on while the next token can continue it, and the
/// index of the token after the target. A target is a name, perhaps with a suffix and indices, as
/// on the left of an assignment. Before `tokens[from]`, `unclosed` parentheses are open, at most
/// 100. New names and labels are appended to `names` and `labels`, on error perhaps only some. The
/// error is the first fault, by token, of the kinds that [`expression`] lists, or out of memory.
pub fn target<F: ExactField>(
    alloc: Global,
    source: &[u8],
    tokens: &[Token],
    from: usize,
    unclosed: u32,
    names: &mut Labels,
    labels: &mut Labels,
) -> Result<(Target<F>, usize), SyntaxFaultOrMemory>
    requires tokens { IsTokens source.now tokens.now }
    requires from { from < length tokens.now }
    requires few { unclosed ≤ 100 }
    ensures read { MatchResult result
        (λ r. IsRead F.limit source.now TargetPart
        (λ all_names all_labels tree part. reference part.at part.name part.suffix
        (indices_in_numbers F.value (indices_of (map index_tree part.indices))) ≡
        trees.target source.now all_names all_labels tree)
        (expression_state unclosed names.old labels.old) (expression_state unclosed names.new labels.new)
        (tokens_from source.now tokens.now from) (tokens_from source.now tokens.now r.1) r.0)
        (λ e. IsSyntaxRefusal F.limit source.now TargetPart (expression_state unclosed names.old labels.old) (tokens_from source.now tokens.now from) e) }
    ensures extended { IsTablePrefix names.old names.new × IsTablePrefix labels.old labels.new }
{
    let mut tables = Tables::taken(alloc, names, labels);
    let grammar = Grammar {
        reader: reader(alloc, source, tokens, unclosed),
        nested: nested::<F>,
        field: PhantomData,
    };
    let read = grammar.target(&mut tables, from);
    tables.give_back(names, labels);
    read
}
