//! Operands: constants, references, calls, folds, and expressions in parentheses.
ghost use Rattle.gms_grammar.specs.Grammar.{the, ◌·◌};
ghost use Rattle.gms_grammar.specs.GamsGrammar.{Expression, Primary, Target as TargetPart, Fold, Control as ControlPart, ExpressionList, token, name, bracketed};
ghost use Rattle.gms_grammar.specs.declared.terminal.Terminal.TheVariants.{Function, OrdCard};
ghost use Rattle.gms_expressions.specs.ExpressionTrees as trees;
ghost use Rattle.gms_expressions.specs.InnerReadings.{CanRead, CanReadHere, IsAnswer, IsExpression, AreArguments, IsControl};

use crate::grammar::{Grammar, Inner};
use crate::node;
use crate::reader::{Read, Reader, Tables};
use crate::spelling::{fold_op_of, function_of, is_ord};
use gms_ast::{Control, Expr, Sequence};
use gms_grammar::Terminal;
use gq_field::ExactField;
use std::marker::PhantomData;

impl<
    's,
    F: ExactField,
    N: Fn(Reader<'_>, &mut Tables, usize, Inner, PhantomData<F>) -> Read<Expr<F>> + Copy,
> Grammar<'s, F, N> {
    /// Reads an operand.
    pub(crate) fn primary(&self, tables: &mut Tables, at: usize) -> Read<Expr<F>>
        requires { CanRead F.limit F.value self.now.reader (N.pre self.now.nested) (N.post self.now.nested) }
        ensures { IsExpression F.limit F.value trees.primary (the Primary) self.now.reader at tables.old tables.new result }
    {
        match self.reader.next(at) {
            Terminal::Number | Terminal::Infinity | Terminal::NotAvailable | Terminal::YesNo => self
                .reader
                .constant(at),
            Terminal::Name | Terminal::Suffix => self.reference(tables, at),
            Terminal::Function => self.call(tables, at),
            Terminal::OrdCard => self.set_call(tables, at),
            Terminal::FoldOp => self.fold(tables, at),
            Terminal::LeftParen => self.bracketed(tables, at),
            _ => Err(self.reader.unexpected(at)),
        }
    }

    /// Reads a reference.
    fn reference(&self, tables: &mut Tables, at: usize) -> Read<Expr<F>>
        requires { CanRead F.limit F.value self.now.reader (N.pre self.now.nested) (N.post self.now.nested) }
        ensures { IsExpression F.limit F.value trees.target (the TargetPart) self.now.reader at tables.old tables.new result }
    {
        let (target, next) = self.target(tables, at)?;
        let reference = Expr::Ref {
            at: target.at,
            name: target.name,
            suffix: target.suffix,
            indices: target.indices.into_vec(),
        };
        Ok((reference, next))
    }

    /// Reads an expression in parentheses.
    pub(crate) fn bracketed(&self, tables: &mut Tables, at: usize) -> Read<Expr<F>>
        requires { CanRead F.limit F.value self.now.reader (N.pre self.now.nested) (N.post self.now.nested) }
        ensures { IsExpression F.limit F.value trees.bracketed_expression (bracketed (the Expression)) self.now.reader at tables.old tables.new result }
    {
        let (inner, start) = self.reader.enter(at)?;
        let (expression, next) = (self.nested)(
            inner,
            tables,
            start,
            Inner::Expression,
            PhantomData,
        )?;
        self.reader.before(Terminal::RightParen, expression, next)
    }

    /// Reads a call of a function.
    fn call(&self, tables: &mut Tables, at: usize) -> Read<Expr<F>>
        requires { CanRead F.limit F.value self.now.reader (N.pre self.now.nested) (N.post self.now.nested) }
        ensures { IsExpression F.limit F.value trees.function_call
            (token Function · bracketed (the ExpressionList)) self.now.reader at tables.old tables.new result }
    {
        let (word, opening) = self.reader.take(Terminal::Function, at)?;
        let (args, next) = self.arguments(tables, opening)?;
        let function = function_of(self.reader.text(word));
        let at = word.at;
        Ok((Expr::Call { at, function, args }, next))
    }

    /// Reads the expressions in parentheses, with commas between them.
    fn arguments(&self, tables: &mut Tables, at: usize) -> Read<Vec<Expr<F>>>
        requires { CanRead F.limit F.value self.now.reader (N.pre self.now.nested) (N.post self.now.nested) }
        ensures { IsAnswer F.limit (AreArguments F.value self.now.reader.source.now)
            (bracketed (the ExpressionList)) self.now.reader at tables.old tables.new result }
    {
        let (inner, start) = self.reader.enter(at)?;
        let mut args = Vec::new(self.reader.alloc);
        let (first, mut next) = (self.nested)(
            inner,
            tables,
            start,
            Inner::Expression,
            PhantomData,
        )?;
        args.push(first)?;
        while let Some((_, following)) = self.reader.take_if(Terminal::Comma, next) {
            let (argument, after) = (self.nested)(
                inner,
                tables,
                following,
                Inner::Expression,
                PhantomData,
            )?;
            args.push(argument)?;
            next = after;
        }
        self.reader.before(Terminal::RightParen, args, next)
    }

    /// Reads the `ord` or `card` of a set.
    fn set_call(&self, tables: &mut Tables, at: usize) -> Read<Expr<F>>
        requires { CanRead F.limit F.value self.now.reader (N.pre self.now.nested) (N.post self.now.nested) }
        ensures { IsExpression F.limit F.value trees.set_call (token OrdCard · bracketed name) self.now.reader at tables.old tables.new result }
    {
        let (word, opening) = self.reader.take(Terminal::OrdCard, at)?;
        let (inner, start) = self.reader.enter(opening)?;
        let ((set, _), next) = inner.name(tables, start)?;
        let (_, following) = self.reader.take(Terminal::RightParen, next)?;
        let at = word.at;
        if is_ord(self.reader.text(word)) {
            return Ok((Expr::Ord { at, set }, following));
        }
        Ok((Expr::Card { at, set }, following))
    }

    /// Reads a fold.
    fn fold(&self, tables: &mut Tables, at: usize) -> Read<Expr<F>>
        requires { CanRead F.limit F.value self.now.reader (N.pre self.now.nested) (N.post self.now.nested) }
        ensures { IsExpression F.limit F.value trees.fold_of (the Fold) self.now.reader at tables.old tables.new result }
    {
        let (word, opening) = self.reader.take(Terminal::FoldOp, at)?;
        let (inner, start) = self.reader.enter(opening)?;
        let inside = Grammar {
            reader: inner,
            nested: self.nested,
            field: PhantomData,
        };
        let (control, comma) = inside.control(tables, start)?;
        let (control, start) = self.reader.before(Terminal::Comma, control, comma)?;
        let (body, next) = (self.nested)(inner, tables, start, Inner::Expression, PhantomData)?;
        let (body, following) = self.reader.before(Terminal::RightParen, body, next)?;
        let op = fold_op_of(self.reader.text(word));
        Ok((
            node::fold(self.reader.alloc, word.at, op, control, body)?,
            following,
        ))
    }

    /// Reads the sets and the condition of a fold or a loop. The reader for further parentheses
    /// reads the condition.
    pub(crate) fn control(&self, tables: &mut Tables, at: usize) -> Read<Control<F>>
        requires { CanReadHere F.limit F.value self.now.reader (N.pre self.now.nested) (N.post self.now.nested) }
        ensures { IsAnswer F.limit (IsControl F.value self.now.reader.source.now) (the ControlPart) self.now.reader at tables.old tables.new result }
    {
        let (sets, next) = self.reader.sets(tables, at)?;
        let sets = Sequence::new(sets);
        if !self.reader.is_next(Terminal::Dollar, next) {
            return Ok((
                Control {
                    sets,
                    condition: None,
                },
                next,
            ));
        }
        let (condition, following) = (self.nested)(
            self.reader,
            tables,
            next,
            Inner::Condition,
            PhantomData,
        )?;
        let condition = Some(Box::new(self.reader.alloc, condition)?);
        Ok((Control { sets, condition }, following))
    }
}
