//! The parts of statements that expressions are made of: read by the crate that reads expressions.
ghost use Rattle.std.specs.Prelude.{◌≡◌, ◌<◌, ℕ, length, if◌then◌else◌, MatchResult};
ghost use Rattle.gms_grammar.specs.Grammar.{the, opt, ◌·◌};
ghost use Rattle.gms_grammar.specs.GamsGrammar.{Expression, Primary, Control as ControlPart, Target as TargetPart, Condition, token};
ghost use Rattle.gms_grammar.specs.declared.terminal.Terminal.TheVariants.{Not};
ghost use Rattle.gms_ast.specs.Trees.{not_so};
ghost use Rattle.gms_ast.specs.StatementView.{shown_tree};
ghost use Rattle.gms_parse.specs.declared.fault.SourceFaultOrMemory.TheVariants.{Memory};
ghost use Rattle.gms_parse.specs.declared.reader.Tables.{Tables};
ghost use Rattle.gms_parse.specs.ReadStates.{ReaderState};
ghost use Rattle.gms_parse.specs.InnerReadings.{IsReady, Starts, StaysOpen, IsGot, AnswersFormula};
ghost use Rattle.gms_parse.specs.InnerMeanings.{IsExpression, IsOperand, IsControl, IsTarget, IsCondition, IsGuard, IsNot};

use crate::fault::SourceFaultOrMemory;
use crate::reader::{Read, Reader, Tables};
use gms_ast::{Control, Expr, Target};
use gms_grammar::Terminal;
use gq_field::ExactField;
use std::alloc::Global;

impl<'s> Reader<'s> {
    /// Reads an expression.
    pub(crate) fn expression<F: ExactField>(&self, tables: &mut Tables, at: usize) -> Read<Expr<F>>
        requires ready { IsReady self.now }
        requires within { at < length self.now.tokens.now }
        ensures { AnswersFormula F.limit (IsExpression F.value self.now.source.now) (the Expression) self.now at tables.old tables.new result }
    {
        Ok(gms_expressions::expression(
            self.alloc,
            self.source,
            self.tokens,
            at,
            self.unclosed,
            &mut tables.names,
            &mut tables.labels,
        )?)
    }

    /// Reads an operand.
    fn primary<F: ExactField>(&self, tables: &mut Tables, at: usize) -> Read<Expr<F>>
        requires ready { IsReady self.now }
        requires within { at < length self.now.tokens.now }
        ensures { AnswersFormula F.limit (IsOperand F.value self.now.source.now) (the Primary) self.now at tables.old tables.new result }
    {
        Ok(gms_expressions::primary(
            self.alloc,
            self.source,
            self.tokens,
            at,
            self.unclosed,
            &mut tables.names,
            &mut tables.labels,
        )?)
    }

    /// Reads the sets of a loop, and their condition.
    pub(crate) fn control<F: ExactField>(&self, tables: &mut Tables, at: usize) -> Read<Control<F>>
        requires ready { IsReady self.now }
        requires within { at < length self.now.tokens.now }
        ensures { AnswersFormula F.limit (IsControl F.value self.now.source.now) (the ControlPart) self.now at tables.old tables.new result }
    {
        Ok(gms_expressions::control(
            self.alloc,
            self.source,
            self.tokens,
            at,
            self.unclosed,
            &mut tables.names,
            &mut tables.labels,
        )?)
    }

    /// Reads what is assigned or defined.
    pub(crate) fn target<F: ExactField>(&self, tables: &mut Tables, at: usize) -> Read<Target<F>>
        requires ready { IsReady self.now }
        requires within { at < length self.now.tokens.now }
        ensures { AnswersFormula F.limit (IsTarget F.value self.now.source.now) (the TargetPart) self.now at tables.old tables.new result }
    {
        Ok(gms_expressions::target(
            self.alloc,
            self.source,
            self.tokens,
            at,
            self.unclosed,
            &mut tables.names,
            &mut tables.labels,
        )?)
    }

    /// Reads a condition, if any.
    pub(crate) fn condition<F: ExactField>(
        &self,
        tables: &mut Tables,
        at: usize,
    ) -> Read<Option<Expr<F>>>
        requires { IsReady self.now }
        ensures { AnswersFormula F.limit (IsCondition F.value self.now.source.now) (opt (the Condition)) self.now at tables.old tables.new result }
    {
        let Some((_, following)) = self.take_if(Terminal::Dollar, at) else {
            return Ok((None, at));
        };
        let (operand, next) = self.guard(tables, following)?;
        Ok((Some(operand), next))
    }

    /// Reads what follows a `$`: an operand, perhaps after `not`.
    fn guard<F: ExactField>(&self, tables: &mut Tables, at: usize) -> Read<Expr<F>>
        requires ready { IsReady self.now }
        requires within { at < length self.now.tokens.now }
        ensures { AnswersFormula F.limit (IsGuard F.value self.now.source.now) (opt (token Not) · the Primary) self.now at tables.old tables.new result }
    {
        let (is_negated, start) = self.not(at);
        let (operand, next) = self.primary(tables, start)?;
        Ok((negated(self.alloc, is_negated, operand)?, next))
    }

    /// Whether the next token is `not`, and the place after it.
    fn not(&self, at: usize) -> (bool, usize)
        requires ready { IsReady self.now }
        requires within { at < length self.now.tokens.now }
        ensures within { result.1 < length self.now.tokens.now }
        ensures read { (limit : ℕ) (tables : Tables) (read_state : ReaderState) → Starts self.now tables read_state →
            IsGot limit IsNot (StaysOpen self.now tables read_state) (opt (token Not)) self.now at tables read_state result.0 result.1 }
    {
        match self.take_if(Terminal::Not, at) {
            Some((_, following)) => (true, following),
            None => (false, at),
        }
    }
}

/// `not` of an operand, or the operand itself.
fn negated<F: ExactField>(
    alloc: Global,
    not: bool,
    operand: Expr<F>,
) -> Result<Expr<F>, SourceFaultOrMemory>
    ensures { MatchResult result
        (λ e. shown_tree F.value e ≡ (if not then not_so (shown_tree F.value operand) else shown_tree F.value operand))
        (λ e. e ≡ Memory) }
{
    if not {
        return Ok(Expr::Not(Box::new(alloc, operand)?));
    }
    Ok(operand)
}
