//! What is known before a statement: what the statements before it declare, define and give.
ghost use Rattle.std.specs.Prelude.{◌≡◌, IfOk, OnOk, List, ℕ, length, slice_get, slice_set, not, true, ◌++◌, ◌∷◌, []};
ghost use Rattle.gms_store.specs.State.{base_of};
ghost use Rattle.gms_store.specs.Declarations.{is_free, names_of};
ghost use Rattle.gms_scope.specs.Names.{is_index_set, is_set_name, has_no_declaration, declared_kind, positions};
ghost use Rattle.gms_scope.specs.Entries.{above_of};
ghost use Rattle.gms_scope.specs.Below.{base_above, bounds, set_fits_position, label_fits_position};
ghost use Rattle.gms_scope.specs.Facts.{first_facts, has_undefined, is_known_dynamic, is_known_ordered, marked, names, with_alias, facts_with_data, with_declared, with_definition, with_model, with_model_name, with_unordered, without_data};

use crate::data::{put_data, take_out_data};
use crate::dynamic::dynamic_sets;
use crate::marks::Marks;
use crate::model::Models;
use crate::order::Order;
use gms_ast::{DeclKind, Named, Program};
use gms_store::{Store, SymbolKind};
use gms_tuple::Tuple;
use gq_extended::Ext;
use gq_field::ExactField;
use std::alloc::{AllocError, Global};
use std::marker::Model;

/// What is known before a statement. From the statements before it: the names that they declare, in
/// order, with data; the equations that they define; the sets whose data have labels in another
/// order than that in which labels first occur; and the models with their equations. From the whole
/// program: the dynamic sets, those that a statement assigns.
///
/// A name is its number in the program's table. A number past the last name is undeclared.
pub struct Known<F: ExactField> {
    store: Store<F>,
    order: Order,
    dynamic: Marks,
    unordered: Marks,
    defined: Marks,
    models: Models,
}

// Written out, so that it is proved once, and not in each crate that drops one.
impl<F: ExactField> Drop for Known<F> {
    fn drop(self) {
        let Self {
            store: _,
            order: _,
            dynamic: _,
            unordered: _,
            defined: _,
            models: _,
        } = self;
    }
}

impl<F: ExactField> Model for Known<F> {
    ghost use Rattle.gms_scope.specs.Facts.{Facts, facts_code};

    ghost Value = { Facts };

    ghost coded = { facts_code };

    ghost use Rattle.gms_scope.specs.Order.{entries_of_nodes};
    ghost use Rattle.gms_scope.specs.Models.{models_in};
    ghost use Rattle.gms_scope.specs.Kept.{IsConsistent};

    ghost view = { λ k. record { state = k.store; declared = entries_of_nodes k.order.nodes.items; dynamic = k.dynamic; unordered = k.unordered; defined = k.defined; equations = k.models.equations.items; models = models_in k.models } };

    ghost invariant = { λ k. IsConsistent k.order k.defined k.models };
}

impl<F: ExactField> Known<F> {
    /// What is known before the first statement of a program: no name is declared, and each set
    /// that some statement of the program assigns is dynamic. The error is out of memory.
    pub fn new(alloc: Global, program: &Program<F>) -> Result<Known<F>, AllocError>
        ensures { IfOk result (λ known. known ≡ first_facts program.now) }
    {
        let names = program.names.len();
        Ok(Known {
            order: Order::new(alloc, names)?,
            dynamic: dynamic_sets(alloc, program)?,
            unordered: Marks::new(alloc, names)?,
            defined: Marks::new(alloc, names)?,
            models: Models::new(alloc, names)?,
            store: Store::blank(alloc, names)?,
        })
    }

    /// The state after the statements before this point: the names that they declare, with the data
    /// that they give.
    pub fn store(&self) -> &Store<F>
        ensures { result.now ≡ self.now.state }
    {
        &self.store
    }

    /// The kind as which a name is declared; `Undeclared` if no statement before this point
    /// declares the name.
    pub fn kind(&self, name: u32) -> SymbolKind
        ensures { result ≡ declared_kind self.now.state name }
    {
        self.store.kind_of(name)
    }

    /// Whether no statement before this point declares a name.
    pub fn is_unknown(&self, name: u32) -> bool
        ensures { result ≡ has_no_declaration self.now.state name }
    {
        self.kind(name) == SymbolKind::Undeclared
    }

    /// Whether a name is declared as a set, or as an alias of one.
    pub fn is_set(&self, name: u32) -> bool
        ensures { result ≡ is_set_name self.now.state name }
    {
        self.kind(name) == SymbolKind::Set
    }

    /// How many positions the domain of a name has; an alias has those of its set.
    pub fn position_count(&self, name: u32) -> usize
        ensures { result ≡ length (positions self.now.state name) }
    {
        self.store.domain_of(name).len()
    }

    /// The set, by its number, at the position `place`, from 0, of a name's domain; an alias has
    /// the domain of its set. `Some(None)` if the position admits any label; `None` if there is no
    /// such position.
    pub fn position(&self, name: u32, place: usize) -> Option<Option<u32>>
        ensures { result ≡ slice_get (positions self.now.state name) place }
    {
        self.store.domain_of(name).get(place).copied()
    }

    /// Whether a name is declared as a one-dimensional set, or as an alias of one.
    pub fn is_index_set(&self, name: u32) -> bool
        ensures { result ≡ is_index_set self.now.state name }
    {
        self.is_set(name) && self.position_count(name) == 1
    }

    /// Whether a set is dynamic: some statement of the program assigns it; an alias counts as its
    /// set (GAMS User's Guide, "Dynamic Sets").
    pub fn is_dynamic(&self, set: u32) -> bool
        ensures { result ≡ is_known_dynamic self.now set }
    {
        self.dynamic.is_set(self.store.base(set))
    }

    /// Whether a set, or the set of an alias, is ordered: one-dimensional, assigned by no statement
    /// of the program, with its labels given in the order in which labels first occur (GAMS User's
    /// Guide, "Sets as Sequences: Ordered Sets").
    pub fn is_ordered(&self, set: u32) -> bool
        ensures { result ≡ is_known_ordered self.now set }
    {
        self.is_index_set(set)
            && !self.is_dynamic(set)
            && !self.unordered.is_set(self.store.base(set))
    }

    /// Whether a set in the domain of a name counts: it is one-dimensional, and declared before the
    /// name, or before the set of which the name is an alias.
    fn bounds(&self, name: u32, domain_set: u32) -> bool
        ensures { result ≡ bounds self.now.state (names self.now) name domain_set }
    {
        self.is_index_set(domain_set) && self.order.is_before(domain_set, self.store.base(name))
    }

    /// Whether the set `index` may be the index at a position of the name `name`, where `position`
    /// is the set at this position of the name's domain. If `position` is `None`, any set may be.
    /// Otherwise `position` must be one-dimensional and be declared before the name (before its
    /// set, if the name is an alias). It must also be `index`, or the domain set of `index`, or the
    /// domain set of that, and so on, each alias replaced by its set (GAMS User's Guide, "Set
    /// Definition").
    pub fn fits(&self, name: u32, position: Option<u32>, index: u32) -> bool
        ensures { result ≡ set_fits_position self.now.state (names self.now) (above_of self.now.declared) name position index }
    {
        match position {
            None => true,
            Some(domain_set) => {
                self.bounds(name, domain_set)
                    && self
                        .order
                        .is_below(self.store.base(index), self.store.base(domain_set))
            }
        }
    }

    /// Whether the label `label` may be the index at a position of the name `name`, where
    /// `position` is the set at this position of the name's domain. Without a set (`None`), any
    /// label may be. Otherwise the set must be one-dimensional, be declared before the name (before
    /// its set, if the name is an alias), and have the label as a member. The error is out of
    /// memory.
    pub fn holds(
        &self,
        alloc: Global,
        name: u32,
        position: Option<u32>,
        label: u32,
    ) -> Result<bool, AllocError>
        ensures { IfOk result (λ answer. answer ≡ label_fits_position self.now.state (names self.now) name position label) }
    {
        let Some(domain_set) = position else {
            return Ok(true);
        };
        let mut tuple = Tuple::new(alloc);
        tuple.push(alloc, label)?;
        Ok(self.bounds(name, domain_set) && self.store.member(domain_set, &tuple))
    }

    /// Whether a statement before this point defines an equation.
    pub fn is_defined(&self, equation: u32) -> bool
        ensures { result ≡ marked self.now.defined equation }
    {
        self.defined.is_set(equation)
    }

    /// Whether all equations of a model are defined; true for a name that is not declared as a
    /// model.
    pub fn all_defined(&mut self, model: u32) -> bool
        ensures answer { result ≡ not (has_undefined self.old model) }
        ensures unchanged { self.new ≡ self.old }
    {
        if self.kind(model) != SymbolKind::Model {
            return true;
        }
        self.models.all_defined(model, &self.defined)
    }

    /// Declares the name `name` as `kind` with the domain `domain`, without data. A declared name
    /// keeps its declaration; but a free variable takes the type of a later variable declaration,
    /// and loses its data (GAMS User's Guide, "Variables"). The error is out of memory.
    pub fn declare(
        &mut self,
        alloc: Global,
        kind: DeclKind,
        domain: &[Option<Named>],
        name: u32,
    ) -> Result<(), AllocError>
        ensures { OnOk result (self.new ≡ with_declared kind (names_of domain.now) self.old name) }
    {
        let new = self.is_unknown(name);
        self.store.declare(alloc, kind, domain, name)?;
        let above = if new { self.superset(name) } else { None };
        self.order.declare(name, above)?;
        if kind == DeclKind::Equation && self.kind(name) == SymbolKind::Equation {
            self.models.declare_equation(name)?;
        }
        Ok(())
    }

    /// The domain set of a one-dimensional set, an alias replaced by its set; `None` if it has none
    /// that counts.
    fn superset(&self, set: u32) -> Option<u32>
        ensures { result ≡ base_above self.now.state set }
    {
        if !self.is_index_set(set) {
            return None;
        }
        match self.position(set, 0) {
            Some(Some(domain_set)) if self.is_index_set(domain_set) => {
                Some(self.store.base(domain_set))
            }
            _ => None,
        }
    }

    /// Declares `alias (first, second)`. If one name is a set or an alias of a set, and the other
    /// is undeclared, the other becomes an alias of this set. In any other case each undeclared one
    /// of the two becomes a set (GAMS User's Guide, "Set Definition", aliases). The error is out of
    /// memory.
    pub fn declare_alias(
        &mut self,
        alloc: Global,
        first: u32,
        second: u32,
    ) -> Result<(), AllocError>
        ensures { OnOk result (self.new ≡ with_alias self.old first second) }
    {
        self.store.declare_alias(alloc, first, second)?;
        self.order.declare(first, None)?;
        self.order.declare(second, None)
    }

    /// Declares a name as a model, without equations; a declared name keeps its declaration. The
    /// caller then stores the equations by `list` or `list_all` (GAMS User's Guide, "Model and
    /// Solve Statements"). The error is out of memory.
    pub fn declare_model(&mut self, alloc: Global, name: u32) -> Result<(), AllocError>
        ensures { OnOk result (self.new ≡ with_model_name self.old name) }
    {
        self.store.declare_model(alloc, name);
        self.order.declare(name, None)
    }

    /// Stores that a model has all equations that are declared so far. If the equations of a model
    /// are stored more than once, the first time counts. The error is out of memory.
    pub fn list_all(&mut self, model: u32) -> Result<(), AllocError>
        ensures { OnOk result (self.new ≡ with_model self.old model self.old.equations) }
    {
        self.models.declare_all(model)
    }

    /// Stores that a model has these equations. If the equations of a model are stored more than
    /// once, the first time counts. The error is out of memory.
    pub fn list(&mut self, model: u32, equations: Vec<u32>) -> Result<(), AllocError>
        ensures { OnOk result (self.new ≡ with_model self.old model equations.items) }
    {
        self.models.declare_listed(model, equations)
    }

    /// Writes the data `given` of the name `name` to the state, in order. A tuple without a value
    /// becomes a member of the set `name`. At a tuple with a value the parameter `name` gets this
    /// value (GAMS User's Guide, "Data Entry: Parameters, Scalars and Tables"). The error is out of
    /// memory.
    pub fn give(
        &mut self,
        alloc: Global,
        name: u32,
        given: &[(Tuple, Option<Ext<F>>)],
    ) -> Result<(), AllocError>
        ensures { OnOk result (self.new ≡ facts_with_data F.value self.old name given.now) }
    {
        put_data(alloc, &mut self.store, name, given)
    }

    /// Removes all data of a name: the members of a set, or the values of a parameter. The error is
    /// out of memory.
    pub fn take_out(&mut self, alloc: Global, name: u32) -> Result<(), AllocError>
        ensures { OnOk result (self.new ≡ without_data self.old name) }
    {
        take_out_data(alloc, &mut self.store, name)
    }

    /// Stores that a set is not ordered, since its labels are given in another order than that in
    /// which labels first occur in the program.
    pub fn set_unordered(&mut self, set: u32)
        ensures { self.new ≡ with_unordered self.old set }
    {
        self.unordered.set(set);
    }

    /// Stores that an equation is defined.
    pub fn define(&mut self, equation: u32)
        ensures { self.new ≡ with_definition self.old equation }
    {
        self.defined.set(equation);
    }
}
