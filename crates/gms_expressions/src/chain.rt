//! Operators and their operands, from those that bind least to those that bind most.
ghost use Rattle.gms_grammar.specs.Grammar.{the, ◌·◌, opt};
ghost use Rattle.gms_grammar.specs.GamsGrammar.{Expression, Conjunction, Negation, Comparison, Sum, Product, PowerTerm, Guarded, Condition, Primary, token};
ghost use Rattle.gms_grammar.specs.declared.terminal.Terminal.TheVariants.{Sign, Not};
ghost use Rattle.gms_expressions.specs.ExpressionTrees as trees;
ghost use Rattle.gms_expressions.specs.InnerReadings.{CanRead, IsExpression};

use crate::grammar::{Grammar, Inner};
use crate::node;
use crate::reader::{Read, Reader, Tables};
use crate::spelling::{is_minus, is_slash, is_xor, relation_of};
use gms_ast::{Expr, RelOp};
use gms_grammar::Terminal;
use gq_field::ExactField;
use std::marker::PhantomData;

impl<
    's,
    F: ExactField,
    N: Fn(Reader<'_>, &mut Tables, usize, Inner, PhantomData<F>) -> Read<Expr<F>> + Copy,
> Grammar<'s, F, N> {
    /// Reads an expression: parts joined by `or` and `xor`.
    pub(crate) fn choice(&self, tables: &mut Tables, at: usize) -> Read<Expr<F>>
        requires { CanRead F.limit F.value self.now.reader (N.pre self.now.nested) (N.post self.now.nested) }
        ensures { IsExpression F.limit F.value trees.expression (the Expression) self.now.reader at tables.old tables.new result }
    {
        let (first, mut next) = self.conjunction(tables, at)?;
        if !self.reader.is_next(Terminal::Or, next) {
            return Ok((first, next));
        }
        let mut parts = Vec::new(self.reader.alloc);
        parts.push((false, first))?;
        while let Some((word, following)) = self.reader.take_if(Terminal::Or, next) {
            let (part, after) = self.conjunction(tables, following)?;
            parts.push((is_xor(self.reader.text(word)), part))?;
            next = after;
        }
        Ok((Expr::Or(parts), next))
    }

    /// Reads the parts joined by `and`.
    fn conjunction(&self, tables: &mut Tables, at: usize) -> Read<Expr<F>>
        requires { CanRead F.limit F.value self.now.reader (N.pre self.now.nested) (N.post self.now.nested) }
        ensures { IsExpression F.limit F.value trees.conjunction (the Conjunction) self.now.reader at tables.old tables.new result }
    {
        let (first, mut next) = self.negation(tables, at)?;
        if !self.reader.is_next(Terminal::And, next) {
            return Ok((first, next));
        }
        let mut parts = Vec::new(self.reader.alloc);
        parts.push(first)?;
        while let Some((_, following)) = self.reader.take_if(Terminal::And, next) {
            let (part, after) = self.negation(tables, following)?;
            parts.push(part)?;
            next = after;
        }
        Ok((Expr::And(parts), next))
    }

    /// Reads a comparison, perhaps after `not`.
    fn negation(&self, tables: &mut Tables, at: usize) -> Read<Expr<F>>
        requires { CanRead F.limit F.value self.now.reader (N.pre self.now.nested) (N.post self.now.nested) }
        ensures { IsExpression F.limit F.value trees.negation (the Negation) self.now.reader at tables.old tables.new result }
    {
        let (is_negated, start) = self.reader.not(at);
        let (operand, next) = self.comparison(tables, start)?;
        Ok((node::negated(self.reader.alloc, is_negated, operand)?, next))
    }

    /// Reads the sums with relations between them.
    fn comparison(&self, tables: &mut Tables, at: usize) -> Read<Expr<F>>
        requires { CanRead F.limit F.value self.now.reader (N.pre self.now.nested) (N.post self.now.nested) }
        ensures { IsExpression F.limit F.value trees.comparison_tree (the Comparison) self.now.reader at tables.old tables.new result }
    {
        let (first, mut next) = self.sum(tables, at)?;
        if !self.reader.is_any_next(
            &[Terminal::Relation, Terminal::RelationWord, Terminal::Equals],
            next,
        ) {
            return Ok((first, next));
        }
        let mut parts = Vec::new(self.reader.alloc);
        parts.push((RelOp::Eq, first))?;
        while let Some((word, following)) = self.reader.take_any_if(
            &[Terminal::Relation, Terminal::RelationWord, Terminal::Equals],
            next,
        ) {
            let (part, after) = self.sum(tables, following)?;
            parts.push((relation_of(word.kind, self.reader.text(word)), part))?;
            next = after;
        }
        Ok((Expr::Relate(parts), next))
    }

    /// Reads a sum.
    fn sum(&self, tables: &mut Tables, at: usize) -> Read<Expr<F>>
        requires { CanRead F.limit F.value self.now.reader (N.pre self.now.nested) (N.post self.now.nested) }
        ensures { IsExpression F.limit F.value trees.sum_tree (the Sum) self.now.reader at tables.old tables.new result }
    {
        let (minus, start) = self.reader.sign(at);
        let (operand, mut next) = self.product(tables, start)?;
        let first = node::signed(self.reader.alloc, minus, operand)?;
        if !self.reader.is_next(Terminal::Sign, next) {
            return Ok((first, next));
        }
        let mut parts = Vec::new(self.reader.alloc);
        parts.push((self.reader.place(at), false, first))?;
        while let Some((sign, following)) = self.reader.take_if(Terminal::Sign, next) {
            let (part, after) = self.product(tables, following)?;
            parts.push((self.reader.place(following), is_minus(sign.kind), part))?;
            next = after;
        }
        Ok((Expr::Plus(parts), next))
    }

    /// Reads a product.
    fn product(&self, tables: &mut Tables, at: usize) -> Read<Expr<F>>
        requires { CanRead F.limit F.value self.now.reader (N.pre self.now.nested) (N.post self.now.nested) }
        ensures { IsExpression F.limit F.value trees.product_tree (the Product) self.now.reader at tables.old tables.new result }
    {
        let (first, mut next) = self.power(tables, at)?;
        if !self
            .reader
            .is_any_next(&[Terminal::Star, Terminal::Slash], next)
        {
            return Ok((first, next));
        }
        let mut parts = Vec::new(self.reader.alloc);
        parts.push((self.reader.place(at), false, first))?;
        while let Some((operator, following)) = self
            .reader
            .take_any_if(&[Terminal::Star, Terminal::Slash], next)
        {
            let (part, after) = self.signed_power(tables, following)?;
            parts.push((self.reader.place(following), is_slash(operator.kind), part))?;
            next = after;
        }
        Ok((Expr::Times(parts), next))
    }

    /// Reads a power, perhaps after a sign.
    fn signed_power(&self, tables: &mut Tables, at: usize) -> Read<Expr<F>>
        requires { CanRead F.limit F.value self.now.reader (N.pre self.now.nested) (N.post self.now.nested) }
        ensures { IsExpression F.limit F.value trees.signed_power (opt (token Sign) · the PowerTerm) self.now.reader at tables.old tables.new result }
    {
        let (minus, start) = self.reader.sign(at);
        let (operand, next) = self.power(tables, start)?;
        Ok((node::signed(self.reader.alloc, minus, operand)?, next))
    }

    /// Reads a power.
    fn power(&self, tables: &mut Tables, at: usize) -> Read<Expr<F>>
        requires { CanRead F.limit F.value self.now.reader (N.pre self.now.nested) (N.post self.now.nested) }
        ensures { IsExpression F.limit F.value trees.power_of (the PowerTerm) self.now.reader at tables.old tables.new result }
    {
        let (first, mut next) = self.guarded(tables, at)?;
        if !self.reader.is_next(Terminal::Power, next) {
            return Ok((first, next));
        }
        let mut parts = Vec::new(self.reader.alloc);
        parts.push((self.reader.place(at), first))?;
        while let Some((_, following)) = self.reader.take_if(Terminal::Power, next) {
            let (part, after) = self.signed_guarded(tables, following)?;
            parts.push((self.reader.place(following), part))?;
            next = after;
        }
        Ok((Expr::Power(parts), next))
    }

    /// Reads an operand under conditions, perhaps after a sign.
    fn signed_guarded(&self, tables: &mut Tables, at: usize) -> Read<Expr<F>>
        requires { CanRead F.limit F.value self.now.reader (N.pre self.now.nested) (N.post self.now.nested) }
        ensures { IsExpression F.limit F.value trees.signed_guarded (opt (token Sign) · the Guarded) self.now.reader at tables.old tables.new result }
    {
        let (minus, start) = self.reader.sign(at);
        let (operand, next) = self.guarded(tables, start)?;
        Ok((node::signed(self.reader.alloc, minus, operand)?, next))
    }

    /// Reads an operand under conditions.
    fn guarded(&self, tables: &mut Tables, at: usize) -> Read<Expr<F>>
        requires { CanRead F.limit F.value self.now.reader (N.pre self.now.nested) (N.post self.now.nested) }
        ensures { IsExpression F.limit F.value trees.guarded_of (the Guarded) self.now.reader at tables.old tables.new result }
    {
        let (first, mut next) = self.primary(tables, at)?;
        if !self.reader.is_next(Terminal::Dollar, next) {
            return Ok((first, next));
        }
        let operand = Box::new(self.reader.alloc, first)?;
        let mut guards = Vec::new(self.reader.alloc);
        while let Some((_, following)) = self.reader.take_if(Terminal::Dollar, next) {
            let (guard, after) = self.guard(tables, following)?;
            guards.push(guard)?;
            next = after;
        }
        Ok((Expr::Guard { operand, guards }, next))
    }

    /// Reads a `$` and what follows it.
    pub(crate) fn condition(&self, tables: &mut Tables, at: usize) -> Read<Expr<F>>
        requires { CanRead F.limit F.value self.now.reader (N.pre self.now.nested) (N.post self.now.nested) }
        ensures { IsExpression F.limit F.value trees.condition (the Condition) self.now.reader at tables.old tables.new result }
    {
        let (_, following) = self.reader.take(Terminal::Dollar, at)?;
        self.guard(tables, following)
    }

    /// Reads what follows a `$`: an operand, perhaps after `not`.
    fn guard(&self, tables: &mut Tables, at: usize) -> Read<Expr<F>>
        requires { CanRead F.limit F.value self.now.reader (N.pre self.now.nested) (N.post self.now.nested) }
        ensures { IsExpression F.limit F.value trees.negated_primary (opt (token Not) · the Primary) self.now.reader at tables.old tables.new result }
    {
        let (is_negated, start) = self.reader.not(at);
        let (operand, next) = self.primary(tables, start)?;
        Ok((node::negated(self.reader.alloc, is_negated, operand)?, next))
    }
}
