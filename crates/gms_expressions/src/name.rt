//! Names and labels, which are entered in their tables.
ghost use Rattle.std.specs.Prelude.{◌≡◌, ◌≤◌, ℕ, length};
ghost use Rattle.gms_grammar.specs.Grammar.{the, ◌∣◌};
ghost use Rattle.gms_grammar.specs.GamsGrammar.{NameList, token, name, bracketed};
ghost use Rattle.gms_grammar.specs.declared.terminal.Terminal.TheVariants.{Text};
ghost use Rattle.gms_expressions.specs.InnerReadings.{IsReady, IsAnswer, IsName, IsLabel, AreNames, AreSets};

use crate::fault::SyntaxFaultOrMemory;
use crate::reader::{Read, Reader, Tables};
use gms_grammar::Terminal;
use gms_labels::Place;
use gms_lex::unquoted;

impl<'s> Reader<'s> {
    /// Reads a name: its number and its place.
    pub(crate) fn name(&self, tables: &mut Tables, at: usize) -> Read<(u32, Place)>
        requires { IsReady self.now }
        ensures { (limit : ℕ) → IsAnswer limit (IsName self.now.source.now) name self.now at tables.old tables.new result }
    {
        let (token, following) = self.take_any(&[Terminal::Name, Terminal::Suffix], at)?;
        let Ok(text) = str::from_utf8(self.text(token)) else {
            return Err(self.unexpected(at));
        };
        match tables.names.enter(self.alloc, text) {
            Ok(number) => Ok(((number, token.at), following)),
            Err(fault) => Err(SyntaxFaultOrMemory::not_entered(fault, token.at)),
        }
    }

    /// Reads a label in quotation marks: its number.
    pub(crate) fn label(&self, tables: &mut Tables, at: usize) -> Read<u32>
        requires { IsReady self.now }
        ensures { (limit : ℕ) → IsAnswer limit (IsLabel self.now.source.now) (token Text) self.now at tables.old tables.new result }
    {
        let (token, following) = self.take(Terminal::Text, at)?;
        let Ok(text) = str::from_utf8(unquoted(self.text(token))) else {
            return Err(self.unexpected(at));
        };
        match tables.labels.enter(self.alloc, text) {
            Ok(number) => Ok((number, following)),
            Err(fault) => Err(SyntaxFaultOrMemory::not_entered(fault, token.at)),
        }
    }

    /// Reads the names, with commas between them.
    fn names(&self, tables: &mut Tables, at: usize) -> Read<Vec<u32>>
        requires { IsReady self.now }
        ensures { (limit : ℕ) → IsAnswer limit (AreNames self.now.source.now) (the NameList) self.now at tables.old tables.new result }
    {
        let mut names = Vec::new(self.alloc);
        let ((first, _), mut next) = self.name(tables, at)?;
        names.push(first)?;
        while let Some((_, following)) = self.take_if(Terminal::Comma, next) {
            let ((name, _), after) = self.name(tables, following)?;
            names.push(name)?;
            next = after;
        }
        Ok((names, next))
    }

    /// Reads the sets of a control: one, or some in parentheses.
    pub(crate) fn sets(&self, tables: &mut Tables, at: usize) -> Read<Vec<u32>>
        requires { IsReady self.now }
        ensures { (limit : ℕ) → IsAnswer limit (AreSets self.now.source.now) (name ∣ bracketed (the NameList)) self.now at tables.old tables.new result }
    {
        if !self.is_next(Terminal::LeftParen, at) {
            let ((set, _), following) = self.name(tables, at)?;
            let mut sets = Vec::new(self.alloc);
            sets.push(set)?;
            return Ok((sets, following));
        }
        let (inner, start) = self.enter(at)?;
        let (sets, next) = inner.names(tables, start)?;
        self.before(Terminal::RightParen, sets, next)
    }
}
