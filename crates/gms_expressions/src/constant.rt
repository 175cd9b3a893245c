//! Numbers and other constants.
ghost use Rattle.std.specs.Prelude.{◌≡◌, ℕ, MatchResult, [], ◌∷◌};
ghost use Rattle.gms_lex.specs.TokenTexts.{IsPlaced, token_text};
ghost use Rattle.gms_grammar.specs.GamsGrammar.{token, any_of};
ghost use Rattle.gms_grammar.specs.declared.terminal.Terminal.TheVariants.{Number, Infinity, NotAvailable, YesNo};
ghost use Rattle.gms_expressions.specs.declared.reader.Tables.{Tables};
ghost use Rattle.gms_expressions.specs.ExpressionTrees.{number_tree, constant_in};
ghost use Rattle.gms_expressions.specs.InnerReadings.{IsReady, IsExpression, IsValue, IsOutOfRange};

use crate::fault::{SyntaxError, SyntaxFaultOrMemory};
use crate::reader::{Read, Reader};
use crate::spelling::is_yes;
use gms_ast::Expr;
use gms_grammar::Terminal;
use gms_lex::Token;
use gq_field::ExactField;
use gq_text::read_decimal;

impl<'s> Reader<'s> {
    /// The value of a number.
    fn value<F: ExactField>(&self, token: Token) -> Result<F, SyntaxFaultOrMemory>
        requires { IsPlaced self.now.source.now token }
        ensures { MatchResult result
            (λ v. IsValue F.limit F.value (token_text self.now.source.now token) v)
            (λ e. IsOutOfRange F.limit self.now.source.now token e) }
    {
        match read_decimal(self.text(token)) {
            Ok(value) => Ok(value),
            Err(_) => Err(SyntaxFaultOrMemory::at(SyntaxError::Number, token.at)),
        }
    }

    /// Reads a number.
    pub(crate) fn number<F: ExactField>(&self, at: usize) -> Read<Expr<F>>
        requires { IsReady self.now }
        ensures { (tables : Tables) → IsExpression F.limit F.value number_tree (token Number) self.now at tables tables result }
    {
        let (token, following) = self.take(Terminal::Number, at)?;
        let value = self.value(token)?;
        Ok((Expr::Number(value), following))
    }

    /// Reads a constant.
    pub(crate) fn constant<F: ExactField>(&self, at: usize) -> Read<Expr<F>>
        requires { IsReady self.now }
        ensures { (tables : Tables) → IsExpression F.limit F.value constant_in
            (any_of (Number ∷ Infinity ∷ NotAvailable ∷ YesNo ∷ [])) self.now at tables tables result }
    {
        let (token, following) = self.take_any(
            &[
                Terminal::Number,
                Terminal::Infinity,
                Terminal::NotAvailable,
                Terminal::YesNo,
            ],
            at,
        )?;
        let constant = match self.next(at) {
            Terminal::Infinity => Expr::PlusInf,
            Terminal::NotAvailable => Expr::Na,
            Terminal::YesNo if is_yes(self.text(token)) => Expr::Yes,
            Terminal::YesNo => Expr::No,
            _ => Expr::Number(self.value(token)?),
        };
        Ok((constant, following))
    }
}
