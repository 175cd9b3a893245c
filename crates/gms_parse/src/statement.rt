//! Statements, loops, and the program that they make.
ghost use Rattle.std.specs.Prelude.{◌≡◌, true, false, [], IsErrAnd, MatchResult};
ghost use Rattle.gms_grammar.specs.Grammar.{the, opt};
ghost use Rattle.gms_grammar.specs.Reading.{leads};
ghost use Rattle.gms_grammar.specs.GamsGrammar.{KeywordStatement, LoopStatement, LoopBody, InnerStatement, NamedStatement, Segment, productions};
ghost use Rattle.gms_grammar.specs.GamsLookAhead.{look_ahead};
ghost use Rattle.gms_parse.specs.Programs.{keyword_act, display_or_other, loop_act, inner_act};
ghost use Rattle.gms_parse.specs.ReadStates.{ReaderState, is_keyword};
ghost use Rattle.gms_parse.specs.InnerReadings.{IsReady, Holds, Starts, Tableless, IsGot, Refuses, IsWhole, RefusesWhole, seen_from, kind_of, unexpected_at, AnswersAct, AnswersInner, AnswersStatement};
ghost use Rattle.gms_parse.specs.InnerMeanings.{IsAct, IsInner, IsBody, IsNamedFirst, IsSegment, AreStatements, other_statement};

use crate::declaration::Form;
use crate::fault::SourceFaultOrMemory;
use crate::reader::{NAMES, Read, Reader, Tables};
use gms_ast::{Act, DeclKind, Stmt};
use gms_grammar::Terminal;
use gq_field::ExactField;

/// The kinds of keywords, which begin statements.
pub(crate) const KEYWORDS: [Terminal; 14] = [
    Terminal::Set,
    Terminal::Parameter,
    Terminal::Scalar,
    Terminal::Table,
    Terminal::VariableType,
    Terminal::Variable,
    Terminal::Equation,
    Terminal::Model,
    Terminal::Alias,
    Terminal::Display,
    Terminal::Option,
    Terminal::Solve,
    Terminal::Abort,
    Terminal::Loop,
];

/// The kinds of tokens that begin a statement of a loop.
const INNER: [Terminal; 7] = [
    Terminal::Name,
    Terminal::Suffix,
    Terminal::Display,
    Terminal::Option,
    Terminal::Solve,
    Terminal::Abort,
    Terminal::Loop,
];

impl<'s> Reader<'s> {
    /// Reads a declaration, or the statement of another keyword.
    fn keyword_act<F: ExactField>(&self, tables: &mut Tables, at: usize) -> Read<Act<F>>
        requires ready { IsReady self.now }
        requires keyword { is_keyword (kind_of (seen_from self.now at)) ≡ true }
        ensures { AnswersStatement F.limit (IsAct F.value self.now.source.now keyword_act) (the KeywordStatement) self.now at tables.old tables.new result }
    {
        match self.next(at) {
            Terminal::Set => self.declaration(tables, Terminal::Set, DeclKind::Set, Form::Set, at),
            Terminal::Parameter => self.declaration(
                tables,
                Terminal::Parameter,
                DeclKind::Parameter,
                Form::Parameter,
                at,
            ),
            Terminal::Scalar => self.declaration(
                tables,
                Terminal::Scalar,
                DeclKind::Scalar,
                Form::Scalar,
                at,
            ),
            Terminal::Table => self.table_statement(tables, at),
            Terminal::VariableType | Terminal::Variable => self.variables(tables, at),
            Terminal::Equation => self.declaration(
                tables,
                Terminal::Equation,
                DeclKind::Equation,
                Form::Plain,
                at,
            ),
            Terminal::Model => self.models(tables, at),
            Terminal::Alias => self.alias(tables, at),
            _ => self.act(tables, at),
        }
    }

    /// Reads a display, option, solve, abort or loop.
    #[cycle(loops)]
    fn act<F: ExactField>(&self, tables: &mut Tables, at: usize) -> Read<Act<F>>
        requires { IsReady self.now }
        ensures read { AnswersAct F.limit (IsAct F.value self.now.source.now display_or_other) other_statement self.now at tables.old tables.new result }
        ensures other { leads productions look_ahead other_statement (seen_from self.now at) ≡ false → IsErrAnd result (λ e. e ≡ unexpected_at self.now at) }
    {
        match self.next(at) {
            Terminal::Display => self.display(tables, at),
            Terminal::Option => self.options(at),
            Terminal::Solve => self.solve(tables, at),
            Terminal::Abort => self.abort(tables, at),
            Terminal::Loop => self.loop_statement(tables, at),
            _ => Err(self.unexpected(at)),
        }
    }

    /// Reads a loop. Each loop opens a parenthesis, of which at most 100 are open: so loops nest no
    /// deeper.
    #[cycle(loops)]
    fn loop_statement<F: ExactField>(&self, tables: &mut Tables, at: usize) -> Read<Act<F>>
        requires { IsReady self.now }
        ensures { AnswersAct F.limit (IsAct F.value self.now.source.now loop_act) (the LoopStatement) self.now at tables.old tables.new result }
    {
        let opening = self.following(Terminal::Loop, at)?;
        let (inner, start) = self.enter(opening)?;
        let (control, next) = inner.control(tables, start)?;
        let first = inner.following(Terminal::Comma, next)?;
        let (body, next) = inner.loop_body(tables, first)?;
        let following = self.following(Terminal::RightParen, next)?;
        Ok((Act::Loop { control, body }, following))
    }

    /// Reads the statements of a loop, and the semicolon after the last, if any.
    #[cycle(loops)]
    fn loop_body<F: ExactField>(&self, tables: &mut Tables, at: usize) -> Read<Vec<Stmt<F>>>
        requires { IsReady self.now }
        ensures { AnswersInner F.limit (IsBody F.value self.now.source.now) (the LoopBody) self.now at tables.old tables.new result }
    {
        let mut body = Vec::new(self.alloc);
        let (first, mut next) = self.inner_statement(tables, at)?;
        body.push(first)?;
        while let Some((_, following)) = self.take_if(Terminal::Semicolon, next) {
            if !self.is_any_next(&INNER, following) {
                return Ok((body, following));
            }
            let (statement, after) = self.inner_statement(tables, following)?;
            body.push(statement)?;
            next = after;
        }
        Ok((body, next))
    }

    /// Reads a statement of a loop.
    #[cycle(loops)]
    fn inner_statement<F: ExactField>(&self, tables: &mut Tables, at: usize) -> Read<Stmt<F>>
        requires { IsReady self.now }
        ensures { AnswersInner F.limit (IsInner F.value self.now.source.now) (the InnerStatement) self.now at tables.old tables.new result }
    {
        let (act, next) = self.inner_act(tables, at)?;
        let statement = Stmt {
            at: self.place(at),
            act,
        };
        Ok((statement, next))
    }

    /// Reads a statement of a loop: what it does.
    #[cycle(loops)]
    fn inner_act<F: ExactField>(&self, tables: &mut Tables, at: usize) -> Read<Act<F>>
        requires { IsReady self.now }
        ensures { AnswersInner F.limit (IsAct F.value self.now.source.now inner_act) (the InnerStatement) self.now at tables.old tables.new result }
    {
        if self.is_any_next(&NAMES, at) {
            return self.assignment(tables, at);
        }
        self.act(tables, at)
    }

    /// Reads the statement that begins with a name, if any, and adds it.
    fn named_statement<F: ExactField>(
        &self,
        tables: &mut Tables,
        statements: &mut Vec<Stmt<F>>,
        at: usize,
    ) -> Result<usize, SourceFaultOrMemory>
        requires { IsReady self.now }
        ensures { (read_state : ReaderState) → Starts self.now tables.old read_state → Tableless read_state →
            MatchResult result
            (λ next. IsGot F.limit (IsNamedFirst F.value self.now.source.now statements.old) (Holds self.now tables.new)
            (opt (the NamedStatement)) self.now at tables.new read_state statements.new next)
            (λ e. Refuses F.limit self.now.source.now (opt (the NamedStatement)) read_state (seen_from self.now at) e) }
    {
        if !self.is_any_next(&NAMES, at) {
            return Ok(at);
        }
        let (act, next) = self.assignment_or_definition(tables, at)?;
        statements.push(Stmt {
            at: self.place(at),
            act,
        })?;
        Ok(next)
    }

    /// Adds the statements up to the next semicolon: perhaps one that begins with a name, then
    /// those that begin with a keyword.
    fn segment<F: ExactField>(
        &self,
        tables: &mut Tables,
        statements: &mut Vec<Stmt<F>>,
        at: usize,
    ) -> Result<usize, SourceFaultOrMemory>
        requires { IsReady self.now }
        ensures { (read_state : ReaderState) → Starts self.now tables.old read_state → Tableless read_state →
            MatchResult result
            (λ next. IsGot F.limit (IsSegment F.value self.now.source.now statements.old) (Holds self.now tables.new)
            (the Segment) self.now at tables.new read_state statements.new next)
            (λ e. Refuses F.limit self.now.source.now (the Segment) read_state (seen_from self.now at) e) }
    {
        let mut next = self.named_statement(tables, statements, at)?;
        while self.is_any_next(&KEYWORDS, next) {
            let (act, after) = self.keyword_act(tables, next)?;
            statements.push(Stmt {
                at: self.place(next),
                act,
            })?;
            next = after;
        }
        Ok(next)
    }

    /// The statements of the program that the tokens are.
    pub(crate) fn program<F: ExactField>(
        &self,
        tables: &mut Tables,
    ) -> Result<Vec<Stmt<F>>, SourceFaultOrMemory>
        requires ready { IsReady self.now }
        requires outside { self.now.unclosed ≡ 0 }
        requires names { tables.old.names ≡ [] }
        requires labels { tables.old.labels ≡ [] }
        ensures { MatchResult result
            (λ statements. IsWhole F.limit (AreStatements F.value self.now.source.now) self.now tables.new statements)
            (λ e. RefusesWhole F.limit self.now e) }
    {
        let mut statements = Vec::new(self.alloc);
        let mut next = self.segment(tables, &mut statements, 0)?;
        while let Some((_, following)) = self.take_if(Terminal::Semicolon, next) {
            next = self.segment(tables, &mut statements, following)?;
        }
        if self.is_next(Terminal::End, next) {
            return Ok(statements);
        }
        Err(self.unexpected(next))
    }
}
