//! Statements without statements in them: aliases, displays, options, solves and aborts.
ghost use Rattle.std.specs.Prelude.{◌≡◌, ℕ, true, MatchResult};
ghost use Rattle.gms_grammar.specs.Grammar.{the, opt, ◌·◌};
ghost use Rattle.gms_grammar.specs.GamsGrammar.{AliasStatement, Attribute, Shown, ShownList, DisplayStatement, AbortStatement, Setting as SettingPart, OptionStatement, SolveStatement, token, name, word};
ghost use Rattle.gms_grammar.specs.declared.terminal.Terminal.TheVariants.{Using, Direction, Option};
ghost use Rattle.gms_grammar.specs.Terminals.{is};
ghost use Rattle.gms_ast.specs.StatementTrees.{solves};
ghost use Rattle.gms_parse.specs.declared.fault.SourceFaultOrMemory.TheVariants.{Memory};
ghost use Rattle.gms_parse.specs.declared.reader.Tables.{Tables};
ghost use Rattle.gms_parse.specs.Statements.{alias_act, display_act, abort_act, option_act, solve_act};
ghost use Rattle.gms_parse.specs.InnerReadings.{IsReady, Has, Stays, IsAnswer, AnswersName, AnswersPlain, AnswersNamed, AnswersWord, AnswersShown, AnswersAct};
ghost use Rattle.gms_parse.specs.ReadStates.{ReaderState};
ghost use Rattle.gms_parse.specs.InnerMeanings.{IsWord, IsMethod, IsObjective, IsSuffix, IsShown, AreShown, IsSetting, IsAct, act_view};

use crate::fault::SourceFaultOrMemory;
use crate::reader::{Read, Reader, Tables};
use crate::spelling::is_maximizing;
use gms_ast::{Act, Named, Sequence, Setting, Show, Suffix, Word};
use gms_expressions::suffix_of;
use gms_grammar::Terminal;
use gms_lex::{Token, unquoted};
use gq_field::ExactField;

/// The kinds of what is shown: texts and names.
const SHOWN: [Terminal; 4] = [
    Terminal::Text,
    Terminal::LongText,
    Terminal::Name,
    Terminal::Suffix,
];

/// The kinds of words that begin no statement, reserved or not.
const WORDS: [Terminal; 16] = [
    Terminal::Name,
    Terminal::Suffix,
    Terminal::Function,
    Terminal::OrdCard,
    Terminal::FoldOp,
    Terminal::Infinity,
    Terminal::NotAvailable,
    Terminal::YesNo,
    Terminal::Not,
    Terminal::And,
    Terminal::Or,
    Terminal::RelationWord,
    Terminal::All,
    Terminal::Using,
    Terminal::Direction,
    Terminal::Reserved,
];

impl<'s> Reader<'s> {
    /// These bytes of a token, as a word of the program.
    fn copied(&self, token: Token, bytes: &[u8]) -> Result<Word, SourceFaultOrMemory>
        ensures { MatchResult result (λ word. word ≡ record { at = token.at; text = bytes.now }) (λ e. e ≡ Memory) }
    {
        Ok(Word {
            at: token.at,
            text: Sequence::new(Vec::from_slice(self.alloc, bytes)?),
        })
    }

    /// Reads a word.
    fn word(&self, at: usize) -> Read<Word>
        requires { IsReady self.now }
        ensures { (limit : ℕ) → AnswersWord limit (IsWord self.now.source.now) word self.now at result }
    {
        let (token, next) = self.take_any(&WORDS, at)?;
        Ok((self.copied(token, self.text(token))?, next))
    }

    /// Reads an alias of a set.
    pub(crate) fn alias<F: ExactField>(&self, tables: &mut Tables, at: usize) -> Read<Act<F>>
        requires { IsReady self.now }
        ensures { AnswersAct F.limit (IsAct F.value self.now.source.now alias_act) (the AliasStatement) self.now at tables.old tables.new result }
    {
        let next = self.following(Terminal::Alias, at)?;
        let (inner, next) = self.enter(next)?;
        let (first, next) = inner.name(tables, next)?;
        let next = inner.following(Terminal::Comma, next)?;
        let (second, next) = inner.name(tables, next)?;
        Ok((
            Act::Alias { first, second },
            self.following(Terminal::RightParen, next)?,
        ))
    }

    /// Reads a suffix, if any.
    fn suffix(&self, at: usize) -> Read<Suffix>
        requires { IsReady self.now }
        ensures { (limit : ℕ) → AnswersPlain limit (IsSuffix self.now.source.now) (opt (the Attribute)) self.now at result }
    {
        let Some((_, following)) = self.take_if(Terminal::Dot, at) else {
            return Ok((Suffix::None, at));
        };
        let (word, next) = self.take(Terminal::Suffix, following)?;
        Ok((suffix_of(self.text(word)), next))
    }

    /// Reads what is shown: a text or a symbol.
    fn shown(&self, tables: &mut Tables, at: usize) -> Read<Show>
        requires { IsReady self.now }
        ensures { (limit : ℕ) → AnswersShown limit (IsShown self.now.source.now) (the Shown) self.now at tables.old tables.new result }
    {
        if let Some((token, next)) = self.take_any_if(&[Terminal::Text, Terminal::LongText], at) {
            let text = self.copied(token, unquoted(self.text(token)))?;
            return Ok((Show::Text(text), next));
        }
        let (named, next) = self.name(tables, at)?;
        let (suffix, next) = self.suffix(next)?;
        Ok((Show::Symbol { named, suffix }, next))
    }

    /// Reads the list of what is shown.
    fn shown_list(&self, tables: &mut Tables, at: usize) -> Read<Sequence<Show>>
        requires { IsReady self.now }
        ensures { (limit : ℕ) → AnswersShown limit (AreShown self.now.source.now) (the ShownList) self.now at tables.old tables.new result }
    {
        let mut items = Vec::new(self.alloc);
        let (first, mut next) = self.shown(tables, at)?;
        items.push(first)?;
        while let Some((_, following)) = self.take_if(Terminal::Comma, next) {
            let (item, after) = self.shown(tables, following)?;
            items.push(item)?;
            next = after;
        }
        Ok((Sequence::new(items), next))
    }

    /// Reads a display.
    pub(crate) fn display<F: ExactField>(&self, tables: &mut Tables, at: usize) -> Read<Act<F>>
        requires { IsReady self.now }
        ensures { AnswersAct F.limit (IsAct F.value self.now.source.now display_act) (the DisplayStatement) self.now at tables.old tables.new result }
    {
        let next = self.following(Terminal::Display, at)?;
        let (items, next) = self.shown_list(tables, next)?;
        Ok((Act::Display { items }, next))
    }

    /// Reads an abort, perhaps with a condition and with what it shows.
    pub(crate) fn abort<F: ExactField>(&self, tables: &mut Tables, at: usize) -> Read<Act<F>>
        requires { IsReady self.now }
        ensures { AnswersAct F.limit (IsAct F.value self.now.source.now abort_act) (the AbortStatement) self.now at tables.old tables.new result }
    {
        let next = self.following(Terminal::Abort, at)?;
        let (condition, next) = self.condition(tables, next)?;
        if self.is_any_next(&SHOWN, next) {
            let (items, next) = self.shown_list(tables, next)?;
            return Ok((Act::Abort { condition, items }, next));
        }
        let items = Sequence::new(Vec::new(self.alloc));
        Ok((Act::Abort { condition, items }, next))
    }

    /// Reads the word of an option, and the number or word that it is set to.
    fn setting<F: ExactField>(&self, at: usize) -> Read<(Word, Setting<F>)>
        requires { IsReady self.now }
        ensures { (tables : Tables) (read_state : ReaderState) → Has self.now tables read_state → is Option read_state.keyword ≡ true →
            IsAnswer F.limit (IsSetting F.value self.now.source.now) (Stays self.now tables read_state) (the SettingPart) self.now at tables read_state result }
    {
        let (option, next) = self.word(at)?;
        let next = self.following(Terminal::Equals, next)?;
        if let Some((token, next)) = self.take_if(Terminal::Number, next) {
            let value = self.number(token)?;
            return Ok((
                (
                    option,
                    Setting::Number {
                        at: token.at,
                        value,
                    },
                ),
                next,
            ));
        }
        let (name, next) = self.word(next)?;
        Ok(((option, Setting::Name(name)), next))
    }

    /// Reads a change of options.
    pub(crate) fn options<F: ExactField>(&self, at: usize) -> Read<Act<F>>
        requires { IsReady self.now }
        ensures { (tables : Tables) → AnswersAct F.limit (IsAct F.value self.now.source.now option_act) (the OptionStatement) self.now at tables tables result }
    {
        let start = self.following(Terminal::Option, at)?;
        let mut settings = Vec::new(self.alloc);
        let (first, mut next) = self.setting(start)?;
        settings.push(first)?;
        while let Some((_, following)) = self.take_if(Terminal::Comma, next) {
            let (setting, after) = self.setting(following)?;
            settings.push(setting)?;
            next = after;
        }
        let settings = Sequence::new(settings);
        Ok((Act::Options { settings }, next))
    }

    /// Reads `using` and the word after it.
    fn method(&self, at: usize) -> Read<Word>
        requires { IsReady self.now }
        ensures { (limit : ℕ) → AnswersPlain limit (IsMethod self.now.source.now) (token Using · word) self.now at result }
    {
        let next = self.following(Terminal::Using, at)?;
        self.word(next)
    }

    /// Reads a direction and a name: whether the objective is maximized, and the objective.
    fn objective(&self, tables: &mut Tables, at: usize) -> Read<(bool, Named)>
        requires { IsReady self.now }
        ensures { (limit : ℕ) → AnswersNamed limit (IsObjective self.now.source.now) (token Direction · name) self.now at tables.old tables.new result }
    {
        let (direction, next) = self.take(Terminal::Direction, at)?;
        let (objective, next) = self.name(tables, next)?;
        Ok(((is_maximizing(self.text(direction)), objective), next))
    }

    /// Reads the solve of a model.
    pub(crate) fn solve<F: ExactField>(&self, tables: &mut Tables, at: usize) -> Read<Act<F>>
        requires { IsReady self.now }
        ensures { AnswersAct F.limit (IsAct F.value self.now.source.now solve_act) (the SolveStatement) self.now at tables.old tables.new result }
    {
        let next = self.following(Terminal::Solve, at)?;
        let (model, next) = self.name(tables, next)?;
        if self.is_next(Terminal::Using, next) {
            let (method, next) = self.method(next)?;
            let ((maximize, objective), next) = self.objective(tables, next)?;
            return Ok((solved(model, method, objective, maximize), next));
        }
        let ((maximize, objective), next) = self.objective(tables, next)?;
        let (method, next) = self.method(next)?;
        Ok((solved(model, method, objective, maximize), next))
    }
}

/// A solve.
fn solved<F: ExactField>(model: Named, method: Word, objective: Named, maximize: bool) -> Act<F>
    ensures { act_view F.value result ≡ solves model method objective maximize }
{
    Act::Solve {
        model,
        method,
        objective,
        maximize,
    }
}
