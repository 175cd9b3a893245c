//! References to symbols, with suffix and indices.
ghost use Rattle.gms_grammar.specs.Grammar.{the, opt};
ghost use Rattle.gms_grammar.specs.GamsGrammar.{Target as TargetPart, IndexList, Index as IndexPart, Lag, LagAmount, name, bracketed};
ghost use Rattle.gms_expressions.specs.ExpressionTrees as trees;
ghost use Rattle.gms_expressions.specs.InnerReadings.{CanRead, IsAnswer, IsExpression, IsTarget, AreIndices, IsIndex, IsLag};

use crate::grammar::{Grammar, Inner};
use crate::reader::{Read, Reader, Tables};
use crate::spelling::lag_op_of;
use gms_ast::{Expr, Index, LagOp, Sequence, Suffix, Target};
use gms_grammar::Terminal;
use gms_labels::Place;
use gq_field::ExactField;
use std::marker::PhantomData;

impl<
    's,
    F: ExactField,
    N: Fn(Reader<'_>, &mut Tables, usize, Inner, PhantomData<F>) -> Read<Expr<F>> + Copy,
> Grammar<'s, F, N> {
    /// Reads what a reference refers to.
    pub(crate) fn target(&self, tables: &mut Tables, at: usize) -> Read<Target<F>>
        requires { CanRead F.limit F.value self.now.reader (N.pre self.now.nested) (N.post self.now.nested) }
        ensures { IsAnswer F.limit (IsTarget F.value self.now.reader.source.now) (the TargetPart) self.now.reader at tables.old tables.new result }
    {
        let ((name, place), dot) = self.reader.name(tables, at)?;
        let (suffix, opening) = self.reader.suffix(dot)?;
        let (indices, next) = self.indices(tables, opening)?;
        let target = Target {
            at: place,
            name,
            suffix,
            indices: Sequence::new(indices),
        };
        Ok((target, next))
    }

    /// Reads the indices in parentheses, if any.
    fn indices(&self, tables: &mut Tables, at: usize) -> Read<Vec<Index<F>>>
        requires { CanRead F.limit F.value self.now.reader (N.pre self.now.nested) (N.post self.now.nested) }
        ensures { IsAnswer F.limit (AreIndices F.value self.now.reader.source.now)
            (opt (bracketed (the IndexList))) self.now.reader at tables.old tables.new result }
    {
        let mut indices = Vec::new(self.reader.alloc);
        if !self.reader.is_next(Terminal::LeftParen, at) {
            return Ok((indices, at));
        }
        let (inner, start) = self.reader.enter(at)?;
        let inside = Grammar {
            reader: inner,
            nested: self.nested,
            field: PhantomData,
        };
        let (first, mut next) = inside.index(tables, start)?;
        indices.push(first)?;
        while let Some((_, following)) = self.reader.take_if(Terminal::Comma, next) {
            let (index, after) = inside.index(tables, following)?;
            indices.push(index)?;
            next = after;
        }
        self.reader.before(Terminal::RightParen, indices, next)
    }

    /// Reads an index.
    fn index(&self, tables: &mut Tables, at: usize) -> Read<Index<F>>
        requires { CanRead F.limit F.value self.now.reader (N.pre self.now.nested) (N.post self.now.nested) }
        ensures { IsAnswer F.limit (IsIndex F.value self.now.reader.source.now) (the IndexPart) self.now.reader at tables.old tables.new result }
    {
        if self.reader.is_next(Terminal::Text, at) {
            let (label, next) = self.reader.label(tables, at)?;
            return Ok((Index::Label(label), next));
        }
        let ((name, _), next) = self.reader.name(tables, at)?;
        if !self
            .reader
            .is_any_next(&[Terminal::Sign, Terminal::Circular], next)
        {
            return Ok((Index::Set { name, lag: None }, next));
        }
        let (lag, following) = self.lag(tables, next)?;
        Ok((
            Index::Set {
                name,
                lag: Some(lag),
            },
            following,
        ))
    }

    /// Reads a lag: what it does, the place of its amount, and the amount.
    fn lag(&self, tables: &mut Tables, at: usize) -> Read<(LagOp, Place, Box<Expr<F>>)>
        requires { CanRead F.limit F.value self.now.reader (N.pre self.now.nested) (N.post self.now.nested) }
        ensures { IsAnswer F.limit (IsLag F.value self.now.reader.source.now) (the Lag) self.now.reader at tables.old tables.new result }
    {
        let (operator, following) = self
            .reader
            .take_any(&[Terminal::Sign, Terminal::Circular], at)?;
        let (amount, next) = self.lag_amount(tables, following)?;
        let amount = Box::new(self.reader.alloc, amount)?;
        Ok((
            (
                lag_op_of(operator.kind),
                self.reader.place(following),
                amount,
            ),
            next,
        ))
    }

    /// Reads the amount of a lag.
    fn lag_amount(&self, tables: &mut Tables, at: usize) -> Read<Expr<F>>
        requires { CanRead F.limit F.value self.now.reader (N.pre self.now.nested) (N.post self.now.nested) }
        ensures { IsExpression F.limit F.value trees.lag_amount (the LagAmount) self.now.reader at tables.old tables.new result }
    {
        match self.reader.next(at) {
            Terminal::Number => self.reader.number(at),
            Terminal::Name | Terminal::Suffix => self.scalar(tables, at),
            Terminal::LeftParen => self.bracketed(tables, at),
            _ => Err(self.reader.unexpected(at)),
        }
    }

    /// Reads the name of a scalar.
    fn scalar(&self, tables: &mut Tables, at: usize) -> Read<Expr<F>>
        requires { CanRead F.limit F.value self.now.reader (N.pre self.now.nested) (N.post self.now.nested) }
        ensures { IsExpression F.limit F.value trees.scalar name self.now.reader at tables.old tables.new result }
    {
        let ((name, place), next) = self.reader.name(tables, at)?;
        let scalar = Expr::Ref {
            at: place,
            name,
            suffix: Suffix::None,
            indices: Vec::new(self.reader.alloc),
        };
        Ok((scalar, next))
    }
}
