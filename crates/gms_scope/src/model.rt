//! Models with their equations, and how many of a model's equations are known to be defined.
ghost use Rattle.std.specs.Prelude.{◌≡◌, ◌≤◌, ◌<◌, ◌⊎◌, ◌++◌, ◌∷◌, ℕ, [], List, Bool, false, true, not, length, slice_set, take, IfOk, OnOk};
ghost use Rattle.std.specs.List.{list_any};
ghost use Rattle.gms_scope.specs.Facts.{declared_equations, is_missing, model_entry};
ghost use Rattle.gms_scope.specs.Models.{AreEquationsDeclared, AreModelsCounted, IsCountedModel, AreModelsListed, equations_within, model_at, model_names, models_in, recounted};
ghost use Rattle.gms_scope.specs.Order.{order_of};

use crate::marks::Marks;
use std::alloc::{AllocError, Global};

/// The equations of a model: all that are declared before the model, or those that its statement
/// lists.
pub enum Equations {
    /// This number of the first declared equations of the program.
    All(usize),
    /// The equations that the model statement lists.
    Listed(Vec<u32>),
}

// Written out, so that it is proved once, and not in each crate that drops one.
impl Drop for Equations {
    fn drop(self) {
        match self {
            Self::All(_) => {}
            Self::Listed(_) => {}
        }
    }
}

impl Equations {
    /// The equations of a model, where `declared` are all declared equations, in order.
    fn within<'a>(&'a self, declared: &'a [u32]) -> &'a [u32]
        ensures { result.now ≡ equations_within declared.now self.now }
    {
        match self {
            Equations::All(count) => first_of(declared, *count),
            Equations::Listed(listed) => listed.as_slice(),
        }
    }
}

/// The first `count` of some equations.
fn first_of(equations: &[u32], count: usize) -> &[u32]
    ensures { result.now ≡ take count equations.now }
{
    if count < equations.len() {
        &equations[..count]
    } else {
        equations
    }
}

/// A declaration of a model, with the equations of the model.
pub struct Model {
    /// The number of the model's name.
    pub name: u32,
    /// The equations of the model.
    pub equations: Equations,
    /// The number of equations at the start of the model's list that `all_defined` has found to be
    /// defined, by a statement such as `e.. x =l= 1;`. They remain defined, so its next call begins
    /// after them.
    pub defined: usize,
}

// Written out, so that it is proved once, and not in each crate that drops one.
impl Drop for Model {
    fn drop(self) {
        let Self {
            name: _,
            equations: _,
            defined: _,
        } = self;
    }
}

/// The declarations of models in a program, and the names that are declared as equations.
pub struct Models {
    /// One entry for each declaration of an equation, in the order of the declarations: the number
    /// of the equation's name.
    pub equations: Vec<u32>,
    /// One entry for each declaration of a model, in the order of the declarations.
    pub models: Vec<Model>,
    /// For each name of the program, by its number: 1 plus the index in `models` of the first entry
    /// with this name; 0 if no entry has the name.
    pub places: Vec<usize>,
}

// Written out, so that it is proved once, and not in each crate that drops one.
impl Drop for Models {
    fn drop(self) {
        let Self {
            equations: _,
            models: _,
            places: _,
        } = self;
    }
}

impl Models {
    /// No models and no equations, for a program with the names 0 to `names - 1`. The error is out
    /// of memory.
    pub fn new(alloc: Global, names: u32) -> Result<Models, AllocError>
        ensures { IfOk result (λ models. AreModelsListed models × (models.equations.items ≡ []) × (models.models.items ≡ []) ×
            (length models.places.items ≡ names)) }
    {
        let mut places = Vec::new(alloc);
        for _ in 0..names {
            places.push(0)?;
        }
        Ok(Models {
            equations: Vec::new(alloc),
            models: Vec::new(alloc),
            places,
        })
    }
}

impl Models {
    /// Appends the equation with the number `equation` to the declared equations. No model changes.
    /// The error is out of memory.
    ///
    /// `places` must have for each name 1 plus the index of its first model in `models`, or 0
    /// without a model. In `Equations::All(n)`, n must be at most the number of declared equations
    /// (`AreModelsListed`). Both are so after the call. A list `defined` that marks the first
    /// `model.defined` equations of each model still does so after the call (`AreModelsCounted`).
    pub fn declare_equation(&mut self, equation: u32) -> Result<(), AllocError>
        requires { AreModelsListed self.old }
        ensures listed { AreModelsListed self.new }
        ensures counted { (defined : List Bool) → AreModelsCounted defined self.old → AreModelsCounted defined self.new }
        ensures places { length self.new.places.items ≡ length self.old.places.items }
        ensures equations { OnOk result (self.new.equations.items ≡ self.old.equations.items ++ equation ∷ []) }
        ensures models { OnOk result (models_in self.new ≡ models_in self.old) }
    {
        self.equations.push(equation)?;
        Ok(())
    }

    /// Appends a model `name` with all equations that are declared so far. Nothing changes if the
    /// program lacks the name. The error is out of memory.
    ///
    /// `places` must have for each name 1 plus the index of its first model in `models`, or 0
    /// without a model. In `Equations::All(n)`, n must be at most the number of declared equations
    /// (`AreModelsListed`). Both are so after the call. A list `defined` that marks the first
    /// `model.defined` equations of each model still does so after the call (`AreModelsCounted`).
    pub fn declare_all(&mut self, name: u32) -> Result<(), AllocError>
        requires { AreModelsListed self.old }
        ensures listed { AreModelsListed self.new }
        ensures counted { (defined : List Bool) → AreModelsCounted defined self.old → AreModelsCounted defined self.new }
        ensures places { length self.new.places.items ≡ length self.old.places.items }
        ensures equations { OnOk result (self.new.equations.items ≡ self.old.equations.items) }
        ensures models { OnOk result (models_in self.new ≡ models_in self.old ++ model_entry (length self.old.places.items) name self.old.equations.items) }
    {
        let count = self.equations.len();
        self.declare(name, Equations::All(count))
    }

    /// Appends a model `name` of the equations with the numbers `equations`. Nothing changes if the
    /// program lacks the name. The error is out of memory.
    ///
    /// `places` must have for each name 1 plus the index of its first model in `models`, or 0
    /// without a model. In `Equations::All(n)`, n must be at most the number of declared equations
    /// (`AreModelsListed`). Both are so after the call. A list `defined` that marks the first
    /// `model.defined` equations of each model still does so after the call (`AreModelsCounted`).
    pub fn declare_listed(&mut self, name: u32, equations: Vec<u32>) -> Result<(), AllocError>
        requires { AreModelsListed self.old }
        ensures listed { AreModelsListed self.new }
        ensures counted { (defined : List Bool) → AreModelsCounted defined self.old → AreModelsCounted defined self.new }
        ensures places { length self.new.places.items ≡ length self.old.places.items }
        ensures equations { OnOk result (self.new.equations.items ≡ self.old.equations.items) }
        ensures models { OnOk result (models_in self.new ≡ models_in self.old ++ model_entry (length self.old.places.items) name equations.items) }
    {
        self.declare(name, Equations::Listed(equations))
    }

    /// Appends a model with these equations.
    fn declare(&mut self, name: u32, equations: Equations) -> Result<(), AllocError>
        requires listed { AreModelsListed self.old }
        requires there { AreEquationsDeclared self.old.equations.items equations }
        ensures listed { AreModelsListed self.new }
        ensures counted { (defined : List Bool) → AreModelsCounted defined self.old → AreModelsCounted defined self.new }
        ensures places { length self.new.places.items ≡ length self.old.places.items }
        ensures equations { OnOk result (self.new.equations.items ≡ self.old.equations.items) }
        ensures models { OnOk result
            (models_in self.new ≡ models_in self.old ++ model_entry (length self.old.places.items) name (equations_within self.old.equations.items equations)) }
    {
        let at = name as usize;
        if at >= self.places.len() {
            return Ok(());
        }
        self.models.push(Model {
            name,
            equations,
            defined: 0,
        })?;
        if self.places[at] == 0 {
            self.places[at] = self.models.len();
        }
        Ok(())
    }
}

impl Models {
    /// Whether `defined` marks all equations of the first model named `model`; true if no model is.
    /// Stores in this model how many equations at the start of its list are marked; the next call
    /// begins after them.
    ///
    /// `places` must have for each name 1 plus the index of its first model in `models`, or 0
    /// without a model. In `Equations::All(n)`, n must be at most the number of declared equations
    /// (`AreModelsListed`). `defined` must mark the first `model.defined` equations of each model
    /// (`AreModelsCounted`). All this is so afterwards.
    pub fn all_defined(&mut self, model: u32, defined: &Marks) -> bool
        requires listed { AreModelsListed self.old }
        requires counted { AreModelsCounted defined.now self.old }
        ensures answer { result ≡ not (list_any (is_missing defined.now) (declared_equations (models_in self.old) model)) }
        ensures listed { AreModelsListed self.new }
        ensures counted { AreModelsCounted defined.now self.new }
        ensures models { models_in self.new ≡ models_in self.old }
        ensures equations { self.new.equations.items ≡ self.old.equations.items }
        ensures places { length self.new.places.items ≡ length self.old.places.items }
    {
        let order = self.order(model);
        if order == 0 {
            return true;
        }
        let (count, all) = self.recount(order - 1, defined);
        self.set_count(order - 1, count);
        all
    }

    /// The index of the first model of a name, plus 1; 0 if it has none.
    fn order(&self, model: u32) -> usize
        requires { AreModelsListed self.now }
        ensures { result ≡ order_of (model_names self.now.models.items) model }
    {
        match self.places.get(model as usize) {
            Some(order) => *order,
            None => 0,
        }
    }

    /// How many first equations of the model at the index `place` are defined, and whether all are.
    fn recount(&self, place: usize, defined: &Marks) -> (usize, bool)
        requires there { place < length self.now.models.items }
        requires counted { AreModelsCounted defined.now self.now }
        ensures counted { IsCountedModel defined.now self.now.equations.items (recounted (model_at self.now.models.items place) result.0) }
        ensures all { result.1 ≡ not (list_any (is_missing defined.now)
            (equations_within self.now.equations.items (model_at self.now.models.items place).equations)) }
    {
        let model = &self.models[place];
        let equations = model.equations.within(self.equations.as_slice());
        let count = defined_from(equations, model.defined, defined);
        (count, count == equations.len())
    }

    /// Stores how many first equations of the model at the index `place` are defined.
    fn set_count(&mut self, place: usize, count: usize)
        requires { place < length self.old.models.items }
        ensures models { self.new.models.items ≡ slice_set self.old.models.items place (recounted (model_at self.old.models.items place) count) }
        ensures equations { self.new.equations.items ≡ self.old.equations.items }
        ensures places { self.new.places.items ≡ self.old.places.items }
    {
        self.models[place].defined = count;
    }
}

/// How many of the first equations are defined, where the first `known` are known to be.
fn defined_from(equations: &[u32], known: usize, defined: &Marks) -> usize
    requires most { known ≤ length equations.now }
    requires known { list_any (is_missing defined.now) (take known equations.now) ≡ false }
    ensures most { result ≤ length equations.now }
    ensures defined { list_any (is_missing defined.now) (take result equations.now) ≡ false }
    ensures all { result ≡ length equations.now
        ⊎ (result < length equations.now × (list_any (is_missing defined.now) equations.now ≡ true)) }
{
    let mut count = known;
    while count < equations.len() && defined.is_set(equations[count]) {
        count += 1;
    }
    count
}
