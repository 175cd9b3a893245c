//! What reading tokens needs: the source, its tokens, and how many parentheses are open; and the
//! steps over single tokens.
ghost use Rattle.std.specs.Prelude.{◌≡◌, ℕ, false, [], MatchResult, MatchOption};
ghost use Rattle.gms_grammar.specs.Grammar.{the, opt};
ghost use Rattle.gms_grammar.specs.GamsGrammar.{Attribute, productions, token, any_of};
ghost use Rattle.gms_grammar.specs.GamsLookAhead.{look_ahead};
ghost use Rattle.gms_grammar.specs.Reading.{leads};
ghost use Rattle.gms_grammar.specs.Terminals.{is, is_terminal_among};
ghost use Rattle.gms_lex.specs.TokenTexts.{token_text, IsPlaced};
ghost use Rattle.gms_expressions.specs.declared.reader.Tables.{Tables};
ghost use Rattle.gms_expressions.specs.Outcomes.{next_place};
ghost use Rattle.gms_expressions.specs.InnerReadings.{seen_from, kind_of, unexpected_at, IsAnswer, IsAt, IsNext, IsLacking, IsBefore, IsReady, IsOpened, IsUnopened, IsSigned, IsNegated, IsSuffix};

use crate::fault::{SyntaxError, SyntaxFaultOrMemory};
use crate::spelling::{is_minus, suffix_of};
use crate::word::{bytes_of, terminal_of};
use gms_ast::Suffix;
use gms_grammar::Terminal;
use gms_labels::{Labels, Place};
use gms_lex::Token;
use std::alloc::Global;

/// The greatest number of parentheses that may be open at once in a source, whatever they enclose.
pub const MOST_OPEN: u32 = 100;

/// A part, and the index of the token after it.
pub(crate) type Read<T> = Result<(T, usize), SyntaxFaultOrMemory>;

/// The names and the labels of a program.
#[derive(Drop)]
pub(crate) struct Tables {
    pub(crate) names: Labels,
    pub(crate) labels: Labels,
}

/// The tokens of a source, to be read at places in them.
#[derive(Clone, Copy)]
pub(crate) struct Reader<'s> {
    pub(crate) alloc: Global,
    /// The source of the tokens.
    pub(crate) source: &'s [u8],
    /// The tokens.
    pub(crate) tokens: &'s [Token],
    /// Where the source ends.
    pub(crate) end: Place,
    /// How many parentheses are open.
    pub(crate) unclosed: u32,
}

impl<'s> Reader<'s> {
    /// The bytes of a token.
    pub(crate) fn text(&self, token: Token) -> &'s [u8]
        requires { IsPlaced self.now.source.now token }
        ensures { result.now ≡ token_text self.now.source.now token }
    {
        bytes_of(self.source, &token)
    }

    /// The next token, if any.
    fn token(&self, at: usize) -> Option<Token>
        requires { IsReady self.now }
        ensures { MatchOption result (seen_from self.now at ≡ []) (λ t. IsAt self.now at t) }
    {
        self.tokens.get(at).copied()
    }

    /// What the next token is, or the end.
    pub(crate) fn next(&self, at: usize) -> Terminal
        requires { IsReady self.now }
        ensures { result ≡ kind_of (seen_from self.now at) }
    {
        match self.token(at) {
            Some(token) => terminal_of(token.kind, self.text(token)),
            None => Terminal::End,
        }
    }

    /// The place of the next token, or the end.
    pub(crate) fn place(&self, at: usize) -> Place
        requires { IsReady self.now }
        ensures { result ≡ next_place self.now.source.now (seen_from self.now at) }
    {
        match self.token(at) {
            Some(token) => token.at,
            None => self.end,
        }
    }

    /// The refusal of the next token as unexpected.
    pub(crate) fn unexpected(&self, at: usize) -> SyntaxFaultOrMemory
        requires { IsReady self.now }
        ensures { result ≡ unexpected_at self.now at }
    {
        let error = match self.next(at) {
            Terminal::NotInProfile => SyntaxError::NotInProfile,
            _ => SyntaxError::Expected,
        };
        SyntaxFaultOrMemory::at(error, self.place(at))
    }

    /// The next token, if it is of this kind, and the place after it.
    pub(crate) fn take_if(&self, kind: Terminal, at: usize) -> Option<(Token, usize)>
        requires { IsReady self.now }
        ensures { MatchOption result
            (leads productions look_ahead (token kind) (seen_from self.now at) ≡ false)
            (λ r. IsNext (is kind) self.now at r.0 r.1) }
    {
        let token = self.token(at)?;
        if kind.is(self.next(at)) {
            return Some((token, at + 1));
        }
        None
    }

    /// The next token, if it is of one of these kinds, and the place after it.
    pub(crate) fn take_any_if(&self, kinds: &[Terminal], at: usize) -> Option<(Token, usize)>
        requires { IsReady self.now }
        ensures { MatchOption result
            (leads productions look_ahead (any_of kinds.now) (seen_from self.now at) ≡ false)
            (λ r. IsNext (is_terminal_among kinds.now) self.now at r.0 r.1) }
    {
        let token = self.token(at)?;
        if self.next(at).is_among(kinds) {
            return Some((token, at + 1));
        }
        None
    }

    /// The next token, which must be of this kind, and the place after it.
    pub(crate) fn take(
        &self,
        kind: Terminal,
        at: usize,
    ) -> Result<(Token, usize), SyntaxFaultOrMemory>
        requires { IsReady self.now }
        ensures { MatchResult result
            (λ r. IsNext (is kind) self.now at r.0 r.1)
            (λ e. IsLacking (is kind) self.now at e) }
    {
        match self.take_if(kind, at) {
            Some(found) => Ok(found),
            None => Err(self.unexpected(at)),
        }
    }

    /// The next token, which must be of one of these kinds, and the place after it.
    pub(crate) fn take_any(
        &self,
        kinds: &[Terminal],
        at: usize,
    ) -> Result<(Token, usize), SyntaxFaultOrMemory>
        requires { IsReady self.now }
        ensures { MatchResult result
            (λ r. IsNext (is_terminal_among kinds.now) self.now at r.0 r.1)
            (λ e. IsLacking (is_terminal_among kinds.now) self.now at e) }
    {
        match self.take_any_if(kinds, at) {
            Some(found) => Ok(found),
            None => Err(self.unexpected(at)),
        }
    }
}

impl<'s> Reader<'s> {
    /// Whether the next token is of this kind.
    pub(crate) fn is_next(&self, kind: Terminal, at: usize) -> bool
        requires { IsReady self.now }
        ensures { result ≡ leads productions look_ahead (token kind) (seen_from self.now at) }
    {
        self.take_if(kind, at).is_some()
    }

    /// Whether the next token is of one of these kinds.
    pub(crate) fn is_any_next(&self, kinds: &[Terminal], at: usize) -> bool
        requires { IsReady self.now }
        ensures { result ≡ leads productions look_ahead (any_of kinds.now) (seen_from self.now at) }
    {
        self.take_any_if(kinds, at).is_some()
    }

    /// The reader inside the parenthesis that must open here, and the place after it.
    pub(crate) fn enter(&self, at: usize) -> Result<(Reader<'s>, usize), SyntaxFaultOrMemory>
        requires { IsReady self.now }
        ensures { MatchResult result
            (λ r. IsOpened self.now at r.0 r.1)
            (λ e. IsUnopened self.now at e) }
    {
        let (token, following) = self.take(Terminal::LeftParen, at)?;
        if self.unclosed >= MOST_OPEN {
            return Err(SyntaxFaultOrMemory::at(SyntaxError::Depth, token.at));
        }
        let inner = Reader {
            unclosed: self.unclosed + 1,
            ..*self
        };
        Ok((inner, following))
    }

    /// A part that this token follows, and the place after the token.
    pub(crate) fn before<T: Drop>(&self, kind: Terminal, part: T, at: usize) -> Read<T>
        requires { IsReady self.now }
        ensures { MatchResult result (λ r. IsBefore kind self.now at part r.0 r.1) (λ e. IsLacking (is kind) self.now at e) }
    {
        let (_, following) = self.take(kind, at)?;
        Ok((part, following))
    }

    /// Whether the next token is `-`, and the place after a sign, if any.
    pub(crate) fn sign(&self, at: usize) -> (bool, usize)
        requires { IsReady self.now }
        ensures { IsSigned self.now at result.0 result.1 }
    {
        match self.take_if(Terminal::Sign, at) {
            Some((token, following)) => (is_minus(token.kind), following),
            None => (false, at),
        }
    }

    /// Whether the next token is `not`, and the place after it.
    pub(crate) fn not(&self, at: usize) -> (bool, usize)
        requires { IsReady self.now }
        ensures { IsNegated self.now at result.0 result.1 }
    {
        match self.take_if(Terminal::Not, at) {
            Some((_, following)) => (true, following),
            None => (false, at),
        }
    }

    /// Reads a suffix, if any.
    pub(crate) fn suffix(&self, at: usize) -> Read<Suffix>
        requires { IsReady self.now }
        ensures { (limit : ℕ) (tables : Tables) → IsAnswer limit (IsSuffix self.now.source.now) (opt (the Attribute)) self.now at tables tables result }
    {
        let Some((_, following)) = self.take_if(Terminal::Dot, at) else {
            return Ok((Suffix::None, at));
        };
        let (word, following) = self.take(Terminal::Suffix, following)?;
        Ok((suffix_of(self.text(word)), following))
    }
}
