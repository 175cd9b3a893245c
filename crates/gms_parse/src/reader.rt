//! What reading a program needs: the source, its tokens, the tables of names and labels, and how
//! many parentheses are open; and the steps over single tokens.
ghost use Rattle.std.specs.Prelude.{◌≡◌, ◌≤◌, ℕ, false, [], ◌∷◌, length, MatchResult, MatchOption};
ghost use Rattle.std.specs.Str.{IsAscii};
ghost use Rattle.gms_grammar.specs.Grammar.{opt};
ghost use Rattle.gms_grammar.specs.GamsGrammar.{productions, token, any_of, name};
ghost use Rattle.gms_grammar.specs.GamsLookAhead.{look_ahead};
ghost use Rattle.gms_grammar.specs.Reading.{leads};
ghost use Rattle.gms_grammar.specs.Terminals.{is, is_terminal_among};
ghost use Rattle.gms_grammar.specs.declared.terminal.Terminal.TheVariants.{Comma, Break, Sign};
ghost use Rattle.gms_lex.specs.TokenTexts.{token_text, IsPlaced};
ghost use Rattle.gms_expressions.specs.Outcomes.{next_place};
ghost use Rattle.gms_parse.specs.declared.reader.Tables.{Tables};
ghost use Rattle.gms_parse.specs.ReadStates.{ReaderState};
ghost use Rattle.gms_parse.specs.InnerReadings.{seen_from, kind_of, unexpected_at, IsReady, IsAt, IsNext, IsLacking, IsPassed, IsPassedAny, IsOpened, IsUnopened, IsEntered, IsNotEntered, IsValue, IsTooLarge, Has, Stays, IsGot, AnswersName};
ghost use Rattle.gms_parse.specs.InnerMeanings.{IsNamed, IsSign};

use crate::fault::{SourceError, SourceFaultOrMemory};
use gms_ast::Named;
use gms_expressions::{MOST_OPEN, SyntaxError, bytes_of, is_minus, terminal_of};
use gms_grammar::Terminal;
use gms_labels::{LabelFault, Labels, Place};
use gms_lex::{LexError, Token};
use gq_field::ExactField;
use gq_text::read_decimal;
use std::alloc::Global;

/// A part, and the place of the token after it.
pub(crate) type Read<T> = Result<(T, usize), SourceFaultOrMemory>;

/// The names and the labels of a program, as far as it was read.
#[derive(Drop)]
pub(crate) struct Tables {
    pub(crate) names: Labels,
    pub(crate) labels: Labels,
}

/// The tokens of a source, to be read at places in them.
#[derive(Clone, Copy)]
pub(crate) struct Reader<'s> {
    pub(crate) alloc: Global,
    /// The source.
    pub(crate) source: &'s [u8],
    /// Its tokens.
    pub(crate) tokens: &'s [Token],
    /// Where the source ends.
    pub(crate) end: Place,
    /// How many parentheses are open.
    pub(crate) unclosed: u32,
}

/// The kinds of names: words that are not reserved.
pub(crate) const NAMES: [Terminal; 2] = [Terminal::Name, Terminal::Suffix];

impl<'s> Reader<'s> {
    /// The bytes of a token.
    pub(crate) fn text(&self, token: Token) -> &'s [u8]
        requires { IsPlaced self.now.source.now token }
        ensures { result.now ≡ token_text self.now.source.now token }
    {
        bytes_of(self.source, &token)
    }

    /// The next token, if any.
    fn token(&self, at: usize) -> Option<Token>
        requires { IsReady self.now }
        ensures { MatchOption result (seen_from self.now at ≡ []) (λ t. IsAt self.now at t) }
    {
        self.tokens.get(at).copied()
    }

    /// What the next token is, or the end.
    pub(crate) fn next(&self, at: usize) -> Terminal
        requires { IsReady self.now }
        ensures { result ≡ kind_of (seen_from self.now at) }
    {
        match self.token(at) {
            Some(token) => terminal_of(token.kind, self.text(token)),
            None => Terminal::End,
        }
    }

    /// The place of the next token, or the end.
    pub(crate) fn place(&self, at: usize) -> Place
        requires { IsReady self.now }
        ensures { result ≡ next_place self.now.source.now (seen_from self.now at) }
    {
        match self.token(at) {
            Some(token) => token.at,
            None => self.end,
        }
    }

    /// The fault of the next token as unexpected.
    pub(crate) fn unexpected(&self, at: usize) -> SourceFaultOrMemory
        requires { IsReady self.now }
        ensures { result ≡ unexpected_at self.now at }
    {
        let error = match self.next(at) {
            Terminal::NotInProfile => SyntaxError::NotInProfile,
            _ => SyntaxError::Expected,
        };
        SourceFaultOrMemory::at(SourceError::Syntax(error), self.place(at))
    }

    /// The next token, if it is of this kind, and the place after it.
    pub(crate) fn take_if(&self, kind: Terminal, at: usize) -> Option<(Token, usize)>
        requires { IsReady self.now }
        ensures { MatchOption result
            (leads productions look_ahead (token kind) (seen_from self.now at) ≡ false)
            (λ r. IsNext (is kind) self.now at r.0 r.1) }
    {
        let token = self.token(at)?;
        if kind.is(self.next(at)) {
            return Some((token, at + 1));
        }
        None
    }

    /// The next token, if it is of one of these kinds, and the place after it.
    pub(crate) fn take_any_if(&self, kinds: &[Terminal], at: usize) -> Option<(Token, usize)>
        requires { IsReady self.now }
        ensures { MatchOption result
            (leads productions look_ahead (any_of kinds.now) (seen_from self.now at) ≡ false)
            (λ r. IsNext (is_terminal_among kinds.now) self.now at r.0 r.1) }
    {
        let token = self.token(at)?;
        if self.next(at).is_among(kinds) {
            return Some((token, at + 1));
        }
        None
    }

    /// The next token, which must be of this kind, and the place after it.
    pub(crate) fn take(&self, kind: Terminal, at: usize) -> Read<Token>
        requires { IsReady self.now }
        ensures { MatchResult result
            (λ r. IsNext (is kind) self.now at r.0 r.1)
            (λ e. IsLacking (is kind) self.now at e) }
    {
        match self.take_if(kind, at) {
            Some(found) => Ok(found),
            None => Err(self.unexpected(at)),
        }
    }

    /// The next token, which must be of one of these kinds, and the place after it.
    pub(crate) fn take_any(&self, kinds: &[Terminal], at: usize) -> Read<Token>
        requires { IsReady self.now }
        ensures { MatchResult result
            (λ r. IsNext (is_terminal_among kinds.now) self.now at r.0 r.1)
            (λ e. IsLacking (is_terminal_among kinds.now) self.now at e) }
    {
        match self.take_any_if(kinds, at) {
            Some(found) => Ok(found),
            None => Err(self.unexpected(at)),
        }
    }

    /// The place after the next token, which must be of this kind.
    pub(crate) fn following(&self, kind: Terminal, at: usize) -> Result<usize, SourceFaultOrMemory>
        requires { IsReady self.now }
        ensures { MatchResult result
            (λ following. IsPassed kind self.now at following)
            (λ e. IsLacking (is kind) self.now at e) }
    {
        let (_, following) = self.take(kind, at)?;
        Ok(following)
    }
}

impl<'s> Reader<'s> {
    /// Whether the next token is of this kind.
    pub(crate) fn is_next(&self, kind: Terminal, at: usize) -> bool
        requires { IsReady self.now }
        ensures { result ≡ leads productions look_ahead (token kind) (seen_from self.now at) }
    {
        self.take_if(kind, at).is_some()
    }

    /// Whether the next token is of one of these kinds.
    pub(crate) fn is_any_next(&self, kinds: &[Terminal], at: usize) -> bool
        requires { IsReady self.now }
        ensures { result ≡ leads productions look_ahead (any_of kinds.now) (seen_from self.now at) }
    {
        self.take_any_if(kinds, at).is_some()
    }

    /// The reader inside the parenthesis that must open here, and the place after it.
    pub(crate) fn enter(&self, at: usize) -> Read<Reader<'s>>
        requires { IsReady self.now }
        ensures { MatchResult result
            (λ r. IsOpened self.now at r.0 r.1)
            (λ e. IsUnopened self.now at e) }
    {
        let (token, following) = self.take(Terminal::LeftParen, at)?;
        if self.unclosed >= MOST_OPEN {
            return Err(SourceFaultOrMemory::at(SourceError::Syntax(SyntaxError::Depth), token.at));
        }
        let inner = Reader {
            unclosed: self.unclosed + 1,
            ..*self
        };
        Ok((inner, following))
    }

    /// Reads a name.
    pub(crate) fn name(&self, tables: &mut Tables, at: usize) -> Read<Named>
        requires { IsReady self.now }
        ensures { (limit : ℕ) → AnswersName limit (IsNamed self.now.source.now) name self.now at tables.old tables.new result }
    {
        let (token, following) = self.take_any(&NAMES, at)?;
        let text = self.ascii(token, self.text(token))?;
        let name = self.entered(&mut tables.names, token, text)?;
        Ok((Named { at: token.at, name }, following))
    }

    /// These bytes of a token, which are all of ASCII.
    pub(crate) fn ascii(
        &self,
        token: Token,
        bytes: &'s [u8],
    ) -> Result<&'s str, SourceFaultOrMemory>
        requires { IsAscii bytes.now }
        ensures { MatchResult result (λ text. text.now ≡ bytes.now) (λ e. ⊥) }
    {
        match str::from_utf8(bytes) {
            Ok(text) => Ok(text),
            Err(_) => Err(SourceFaultOrMemory::at(
                SourceError::Lexical(LexError::BadByte),
                token.at,
            )),
        }
    }

    /// The number of a text in its table, where it is entered if it is new. The token gives the
    /// place of a fault.
    pub(crate) fn entered(
        &self,
        table: &mut Labels,
        token: Token,
        text: &str,
    ) -> Result<u32, SourceFaultOrMemory>
        requires { length text.now ≤ 63 }
        ensures { MatchResult result
            (λ n. IsEntered table.old table.new text.now n)
            (λ e. IsNotEntered table.old text.now token.at e) }
    {
        match table.enter(self.alloc, text) {
            Ok(number) => Ok(number),
            Err(LabelFault::Full) => Err(SourceFaultOrMemory::at(
                SourceError::Syntax(SyntaxError::TooManyLabels),
                token.at,
            )),
            Err(LabelFault::Memory) => Err(SourceFaultOrMemory::Memory),
        }
    }

    /// The value of a number.
    pub(crate) fn number<F: ExactField>(&self, token: Token) -> Result<F, SourceFaultOrMemory>
        requires { IsPlaced self.now.source.now token }
        ensures { MatchResult result
            (λ v. IsValue F.limit F.value (token_text self.now.source.now token) v)
            (λ e. IsTooLarge F.limit self.now.source.now token e) }
    {
        match read_decimal(self.text(token)) {
            Ok(value) => Ok(value),
            Err(_) => Err(SourceFaultOrMemory::at(
                SourceError::Syntax(SyntaxError::Number),
                token.at,
            )),
        }
    }

    /// Whether the next token is `-`, and the place after a sign, if any.
    pub(crate) fn sign(&self, at: usize) -> (bool, usize)
        requires { IsReady self.now }
        ensures { (limit : ℕ) (tables : Tables) (read_state : ReaderState) → Has self.now tables read_state →
            IsGot limit IsSign (Stays self.now tables read_state) (opt (token Sign)) self.now at tables read_state result.0 result.1 }
    {
        match self.take_if(Terminal::Sign, at) {
            Some((token, following)) => (is_minus(token.kind), following),
            None => (false, at),
        }
    }

    /// The place after the comma or the line end between two parts of a list.
    pub(crate) fn after_separator(&self, at: usize) -> Option<usize>
        requires { IsReady self.now }
        ensures { MatchOption result
            (leads productions look_ahead (any_of (Comma ∷ Break ∷ [])) (seen_from self.now at) ≡ false)
            (λ following. IsPassedAny (Comma ∷ Break ∷ []) self.now at following) }
    {
        let (_, following) = self.take_any_if(&[Terminal::Comma, Terminal::Break], at)?;
        Some(following)
    }
}
