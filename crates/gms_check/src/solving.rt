//! The check of aliases, of models and of their solves.
ghost use Rattle.std.specs.Prelude.{◌≡◌, ◌∷◌, [], is_none, OnOk};
ghost use Rattle.gms_check.specs.InnerChanges.{with_model_names, with_models};
ghost use Rattle.gms_check.specs.InnerChecking.{known_of, noted, seen, with_facts};
ghost use Rattle.gms_check.specs.CompileErrors.{model_errors};
ghost use Rattle.gms_check.specs.DeclarationUses.{model_uses};
ghost use Rattle.gms_check.specs.Errors.{first_error, sooner};
ghost use Rattle.gms_check.specs.Past.{equations_listed};
ghost use Rattle.gms_check.specs.Uses.{first_alias, method as using_word, optimizing, second_alias, solving};
ghost use Rattle.gms_scope.specs.Facts.{with_model, with_model_name};

use crate::checker::Checker;
use crate::error::ErrorKind;
use crate::kinds::{is_model, is_variable};
use crate::option::is_word;
use gms_ast::{ModelDecl, Named, Word};
use gq_field::ExactField;
use std::alloc::AllocError;

impl<'s, F: ExactField> Checker<'s, F> {
    /// Checks the two names of an alias, and notes the first error: exactly one must be declared
    /// before, and that one must be a set or an alias of one.
    pub fn alias(&mut self, first: Named, second: Named)
        ensures { seen self.new
            ≡ noted F.value (seen self.old) ((first.at, first_alias first.name second.name) ∷ (second.at, second_alias first.name second.name) ∷ []) }
    {
        let first_new = self.known.is_unknown(first.name);
        let second_new = self.known.is_unknown(second.name);
        let first_occurs = first_new || self.known.is_set(first.name);
        let second_occurs = second_new || self.known.is_set(second.name);
        self.require(!first_new || !second_new, ErrorKind::UnknownName, first.at);
        self.require(first_occurs, ErrorKind::WrongKind, first.at);
        self.require(first_new || second_new, ErrorKind::Redeclared, second.at);
        self.require(second_occurs, ErrorKind::WrongKind, second.at);
    }

    /// Checks a declaration of models: no model's name may be declared before, and each name in a
    /// model's list must be that of an equation. Updates `first`, the statement's first error by
    /// place and then by error number. The names are declared even if there is an error, but the
    /// models get their equations only if `first` is `None`. The only error that is returned is out
    /// of memory.
    pub fn models(&mut self, models: &[ModelDecl]) -> Result<(), AllocError>
        ensures first { OnOk result ((seen self.new).first ≡
            sooner (seen self.old).first (first_error (model_errors (known_of F.value (seen self.old)) models.now))) }
        ensures facts { OnOk result
            (seen self.new ≡ record (seen self.old) {
              first = (seen self.new).first;
              facts = with_models
                  (is_none (seen self.new).first) (with_model_names (seen self.old).facts models.now) models.now;
            }) }
    {
        self.declare_models(models)?;
        let sound = self.first.is_none();
        for model in models {
            self.list_model(model, sound)?;
        }
        Ok(())
    }

    /// Checks models in sequence, and declares their names.
    fn declare_models(&mut self, models: &[ModelDecl]) -> Result<(), AllocError>
        ensures { OnOk result (seen self.new
            ≡ record (seen self.old) {
              first = sooner (seen self.old).first
                  (first_error (model_errors (known_of F.value (seen self.old)) models.now));
              facts = with_model_names
                  (seen self.old).facts models.now;
            }) }
    {
        for model in models {
            self.model(model);
            self.known.declare_model(self.alloc, model.named.name)?;
        }
        Ok(())
    }

    /// Checks a model that is declared.
    fn model(&mut self, model: &ModelDecl)
        ensures { seen self.new ≡ noted F.value (seen self.old) (model_uses model.now) }
    {
        let new = self.known.is_unknown(model.named.name);
        self.require(new, ErrorKind::Redeclared, model.named.at);
        for equation in model.equations.as_slice() {
            self.listed_equation(*equation);
        }
    }

    /// Remembers the equations of a model: none if its statement has an error.
    fn list_model(&mut self, model: &ModelDecl, sound: bool) -> Result<(), AllocError>
        ensures { OnOk result (seen self.new
            ≡ with_facts (seen self.old)
            (with_model (seen self.old).facts model.now.named.name
            (equations_listed (seen self.old).facts.equations sound model.now))) }
    {
        let name = model.named.name;
        if !sound {
            return self.known.list(name, Vec::new(self.alloc));
        }
        if model.all {
            return self.known.list_all(name);
        }
        let mut equations = Vec::new(self.alloc);
        for equation in model.equations.as_slice() {
            equations.push(equation.name)?;
        }
        self.known.list(name, equations)
    }

    /// Checks a solve: `model` must be a model with all equations defined before, `method`, the
    /// word after `using`, must be `lp`, and `objective` must be a free variable without index.
    /// Updates `first`, the statement's first error by place, then number.
    pub fn solve(&mut self, model: Named, method: &Word, objective: Named)
        ensures { seen self.new
            ≡ noted F.value (seen self.old)
            ((model.at, solving model.name) ∷ (method.now.at, using_word method.now.text) ∷
            (objective.at, optimizing objective.name) ∷ []) }
    {
        self.solved_model(model);
        let linear = is_word(method.text.as_slice(), "lp");
        self.require(linear, ErrorKind::ModelType, method.at);
        self.objective(objective);
    }

    /// Checks the model of a solve, and that all its equations are defined.
    fn solved_model(&mut self, model: Named)
        ensures { seen self.new ≡ noted F.value (seen self.old) ((model.at, solving model.name) ∷ []) }
    {
        let occurs = is_model(self.known.kind(model.name));
        let defined = self.known.all_defined(model.name);
        self.require_known(model.name, model.at);
        self.require(occurs, ErrorKind::WrongKind, model.at);
        self.require(defined, ErrorKind::NotDefined, model.at);
    }

    /// Checks the objective of a solve.
    fn objective(&mut self, objective: Named)
        ensures { seen self.new ≡ noted F.value (seen self.old) ((objective.at, optimizing objective.name) ∷ []) }
    {
        let occurs = is_variable(self.known.kind(objective.name));
        let free = self.known.store().is_free(objective.name)
            && self.known.position_count(objective.name) == 0;
        self.require_known(objective.name, objective.at);
        self.require(occurs, ErrorKind::WrongKind, objective.at);
        self.require(free, ErrorKind::Objective, objective.at);
    }
}
