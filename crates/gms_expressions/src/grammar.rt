//! The reader of what is inside parentheses, which the readers of all parts take as a parameter: so
//! recursion is no deeper than the nesting of parentheses.
ghost use Rattle.gms_grammar.specs.Grammar.{the};
ghost use Rattle.gms_expressions.specs.InnerReadings.{IsReady, IsExpression, nonterminal_of, meaning_of};

use crate::reader::{Read, Reader, Tables};
use gms_ast::Expr;
use gq_field::ExactField;
use std::marker::PhantomData;

/// What is read by itself inside parentheses.
#[derive(Clone, Copy)]
pub(crate) enum Inner {
    /// An expression.
    Expression,
    /// The condition of a control.
    Condition,
}

/// What reads the parts of expressions at the same parentheses.
#[derive(Clone, Copy)]
pub(crate) struct Grammar<'s, F, N> {
    /// The tokens, and how many parentheses are open.
    pub(crate) reader: Reader<'s>,
    /// What reads inside further parentheses.
    pub(crate) nested: N,
    /// The numbers that the trees hold.
    pub(crate) field: PhantomData<F>,
}

/// An expression or a condition, by itself, over the numbers of a field.
pub(crate) fn nested<F: ExactField>(
    reader: Reader,
    tables: &mut Tables,
    at: usize,
    what: Inner,
    _field: PhantomData<F>,
) -> Read<Expr<F>>
    requires { IsReady reader }
    ensures { IsExpression F.limit F.value (meaning_of what) (the (nonterminal_of what)) reader.entry at tables.old tables.new result }
{
    let grammar = Grammar {
        reader,
        nested: nested::<F>,
        field: PhantomData,
    };
    match what {
        Inner::Expression => grammar.choice(tables, at),
        Inner::Condition => grammar.condition(tables, at),
    }
}
