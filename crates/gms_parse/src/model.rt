//! Declarations of models.
ghost use Rattle.std.specs.Prelude.{ℕ};
ghost use Rattle.gms_grammar.specs.Grammar.{the, opt, ◌·◌};
ghost use Rattle.gms_grammar.specs.GamsGrammar.{ModelList, ModelItem, ModelStatement, token, name, separated};
ghost use Rattle.gms_grammar.specs.declared.terminal.Terminal.TheVariants.{Slash};
ghost use Rattle.gms_parse.specs.Declarations.{model_act};
ghost use Rattle.gms_parse.specs.InnerReadings.{IsReady, AnswersName, AnswersNamed, AnswersAct};
ghost use Rattle.gms_parse.specs.InnerMeanings.{AreEquations, IsModelList, IsModel, IsAct};

use crate::reader::{Read, Reader, Tables};
use gms_ast::{Act, ModelDecl, Named, Sequence};
use gms_grammar::Terminal;
use gq_field::ExactField;

impl<'s> Reader<'s> {
    /// Reads equations.
    fn equations(&self, tables: &mut Tables, at: usize) -> Read<Vec<Named>>
        requires { IsReady self.now }
        ensures { (limit : ℕ) → AnswersName limit (AreEquations self.now.source.now) (separated name) self.now at tables.old tables.new result }
    {
        let mut equations = Vec::new(self.alloc);
        let (first, mut next) = self.name(tables, at)?;
        equations.push(first)?;
        while let Some(following) = self.after_separator(next) {
            let (equation, after) = self.name(tables, following)?;
            equations.push(equation)?;
            next = after;
        }
        Ok((equations, next))
    }

    /// Reads a list between slashes: whether a model has all equations, and those that are named. A
    /// model without a list has none.
    fn model_list(&self, tables: &mut Tables, at: usize) -> Read<(bool, Vec<Named>)>
        requires { IsReady self.now }
        ensures { (limit : ℕ) → AnswersNamed limit (IsModelList self.now.source.now)
            (opt (token Slash · the ModelList · token Slash)) self.now at tables.old tables.new result }
    {
        let none = Vec::new(self.alloc);
        let Some((_, following)) = self.take_if(Terminal::Slash, at) else {
            return Ok(((false, none), at));
        };
        if let Some((_, next)) = self.take_if(Terminal::All, following) {
            return Ok(((true, none), self.following(Terminal::Slash, next)?));
        }
        let (equations, next) = self.equations(tables, following)?;
        Ok(((false, equations), self.following(Terminal::Slash, next)?))
    }

    /// Reads a model with its equations.
    fn model(&self, tables: &mut Tables, at: usize) -> Read<ModelDecl>
        requires { IsReady self.now }
        ensures { (limit : ℕ) → AnswersName limit (IsModel self.now.source.now) (the ModelItem) self.now at tables.old tables.new result }
    {
        let (named, next) = self.name(tables, at)?;
        let ((all, equations), next) = self.model_list(tables, next)?;
        let model = ModelDecl {
            named,
            all,
            equations: Sequence::new(equations),
        };
        Ok((model, next))
    }

    /// Reads a declaration of models.
    pub(crate) fn models<F: ExactField>(&self, tables: &mut Tables, at: usize) -> Read<Act<F>>
        requires { IsReady self.now }
        ensures { AnswersAct F.limit (IsAct F.value self.now.source.now model_act) (the ModelStatement) self.now at tables.old tables.new result }
    {
        let start = self.following(Terminal::Model, at)?;
        let mut models = Vec::new(self.alloc);
        let (first, mut next) = self.model(tables, start)?;
        models.push(first)?;
        while let Some(following) = self.further_item(next) {
            let (model, after) = self.model(tables, following)?;
            models.push(model)?;
            next = after;
        }
        let models = Sequence::new(models);
        Ok((Act::Model { models }, self.after_last_item(next)))
    }
}
