//! A name of the program: the sets of its positions, and what it denotes.
ghost use Rattle.std.specs.Prelude.{◌≡◌, ◌==◌, ℕ, List, [], true, length, option_map, OnOk, OnErr, IfOk, IfSome, IfNone};
ghost use Rattle.gq_extended.specs.Meaning.{extended};
ghost use Rattle.gms_tuple.specs.TupleOrder.{IsOrdered};
ghost use Rattle.gms_tuple.specs.TupleSet.{has};
ghost use Rattle.gms_store.specs.Shown.{attributes_shown, content_shown};
ghost use Rattle.gms_store.specs.State.{no_symbol, alias_target, if_fits, fits_at, given_in, members_in, value_in, attributes_in, statuses_in, with_content, with_membership, with_value, with_attributes, with_statuses, is_given, IsNormalContent};
ghost use Rattle.gms_store.specs.Overlays.{chosen};
ghost use Rattle.gms_store.specs.Declarations.{symbol_of_kind, positions_of, names_of, declared_again, retyped, content_of, alias_symbol, model_symbol, is_alias, is_free, is_set, is_undeclared, kind_in};

use crate::attributes::{Attributes, is_same_number};
use crate::content::Content;
use crate::entries::Entries;
use crate::kind::{SymbolKind, VariableType};
use gms_ast::{DeclKind, Named, Sequence};
use gms_tuple::{Tuple, TupleSet};
use gq_extended::Ext;
use gq_field::ExactField;
use std::alloc::{AllocError, Global};
use std::marker::Model;
use std::mem;

/// The symbol of a name: the set of each position of the name, and what the name denotes, with its
/// data.
pub struct Symbol<F: ExactField> {
    domain: Sequence<Option<u32>>,
    content: Content<F>,
}

// Written out, so that it is proved here once, and not in each crate that drops such a value.
impl<F: ExactField> Drop for Symbol<F> {
    fn drop(self) {
        let Self {
            domain: _,
            content: _,
        } = self;
    }
}

impl<F: ExactField> Model for Symbol<F> {
    ghost use Rattle.std.specs.Prelude.{length};
    ghost use Rattle.gms_store.specs.State.{Symbol as StateSymbol, IsNormalContent};
    ghost use Rattle.gms_store.specs.Codes.{symbol_code};

    ghost Value = { StateSymbol };

    ghost coded = { symbol_code };

    ghost use Rattle.gms_store.specs.Shown.{content_shown};

    ghost view = { λ s. record { domain = s.domain; content = content_shown F.value s.content } };

    ghost invariant = { λ s. IsNormalContent (length s.domain) (content_shown F.value s.content) };
}

impl<F: ExactField> Symbol<F> {
    /// The symbol of a name that no statement declares.
    pub fn undeclared(alloc: Global) -> Symbol<F>
        ensures { result ≡ no_symbol }
    {
        Symbol {
            domain: Sequence::new(Vec::new(alloc)),
            content: Content::Undeclared,
        }
    }

    /// The symbol of a name that is declared as `kind`, without data. `domain` has the set of each
    /// position, `None` for one that admits any label. If `domain` is empty, a set has one
    /// position, which admits any label, another symbol none. The only error is out of memory.
    pub fn new(
        alloc: Global,
        kind: DeclKind,
        domain: &[Option<Named>],
    ) -> Result<Symbol<F>, AllocError>
        ensures { IfOk result (λ symbol. symbol ≡ symbol_of_kind kind (names_of domain.now)) }
    {
        let positions = positions(alloc, kind, domain)?;
        Ok(Symbol {
            domain: Sequence::new(positions),
            content: declared(alloc, kind),
        })
    }

    /// The symbol of an alias of the set whose name has the number `base`.
    pub fn alias(alloc: Global, base: u32) -> Symbol<F>
        ensures { result ≡ alias_symbol base }
    {
        Symbol {
            domain: Sequence::new(Vec::new(alloc)),
            content: Content::Alias(base),
        }
    }

    /// The symbol of a model that was not solved yet.
    pub fn model(alloc: Global) -> Symbol<F>
        ensures { result ≡ model_symbol }
    {
        Symbol {
            domain: Sequence::new(Vec::new(alloc)),
            content: Content::Model(0, 0),
        }
    }

    /// Whether the symbol is that of a name that no statement declares.
    pub fn is_undeclared(&self) -> bool
        ensures { result ≡ is_undeclared self.now.content }
    {
        match &self.content {
            Content::Undeclared => true,
            _ => false,
        }
    }

    /// Whether the symbol is a variable of the type `Free`.
    pub fn is_free(&self) -> bool
        ensures { result ≡ is_free self.now.content }
    {
        match &self.content {
            Content::Variable(VariableType::Free, _) => true,
            _ => false,
        }
    }

    /// Whether the symbol is an alias of a set.
    pub fn is_alias(&self) -> bool
        ensures { result ≡ is_alias self.now.content }
    {
        match &self.content {
            Content::Alias(_) => true,
            _ => false,
        }
    }

    /// Whether the symbol is a set or an alias of a set.
    pub fn is_set(&self) -> bool
        ensures { result ≡ is_set self.now.content }
    {
        match &self.content {
            Content::Alias(_) => true,
            Content::Set(_) => true,
            _ => false,
        }
    }

    /// Declares the symbol as `kind`. `domain` has the set of each position, or `None` for any
    /// label. A declared symbol is unchanged, except that a `Free` variable declared as a variable
    /// gets the type of `kind`, and loses its data. The only error is out of memory, without a
    /// change.
    pub fn declare(
        &mut self,
        alloc: Global,
        kind: DeclKind,
        domain: &[Option<Named>],
    ) -> Result<(), AllocError>
        ensures ok { OnOk result (self.new ≡ declared_again kind (names_of domain.now) self.old) }
        ensures err { OnErr result (self.new ≡ self.old) }
    {
        if !self.is_undeclared() {
            self.retype(alloc, kind);
            return Ok(());
        }
        let symbol = Symbol::new(alloc, kind, domain)?;
        *self = symbol;
        Ok(())
    }

    /// Takes the type of a later declaration of variables if the name is a free variable; otherwise
    /// changes nothing.
    fn retype(&mut self, alloc: Global, kind: DeclKind)
        ensures { self.new ≡ with_content self.old (retyped self.old.content (content_of kind)) }
    {
        let Content::Variable(VariableType::Free, _) = &self.content else {
            return;
        };
        let later = declared(alloc, kind);
        if let Content::Variable(..) = &later {
            self.content = later;
        }
    }

    /// Replaces this symbol by `other`, with its data, if `other` is declared: the two are swapped.
    /// Otherwise this symbol is unchanged.
    pub fn overlay(&mut self, other: &mut Symbol<F>)
        ensures { self.new ≡ chosen self.old other.old }
    {
        if !other.is_undeclared() {
            mem::swap(self, other);
        }
    }

    /// The kind that the symbol's name is declared as. For an alias this is a set, and without a
    /// declaration `Undeclared`.
    pub fn kind(&self) -> SymbolKind
        ensures { result ≡ kind_in self.now.content }
    {
        match &self.content {
            Content::Undeclared => SymbolKind::Undeclared,
            Content::Alias(_) => SymbolKind::Set,
            Content::Set(_) => SymbolKind::Set,
            Content::Parameter(_) => SymbolKind::Parameter,
            Content::Variable(..) => SymbolKind::Variable,
            Content::Equation(_) => SymbolKind::Equation,
            Content::Model(..) => SymbolKind::Model,
        }
    }

    /// The number of the set of which the symbol is an alias. If it is no alias, `name`, which is
    /// the number of the symbol's own name.
    pub fn unaliased(&self, name: u32) -> u32
        ensures { result ≡ alias_target name self.now.content }
    {
        match &self.content {
            Content::Alias(base) => *base,
            _ => name,
        }
    }

    /// For each position of the symbol the number of the set whose labels it admits, `None` for a
    /// position that admits any label.
    pub fn domain(&self) -> &[Option<u32>]
        ensures { result.now ≡ self.now.domain }
    {
        self.domain.as_slice()
    }

    /// The tuples at which the symbol has data: the members of a set, or the tuples at which a
    /// parameter, a variable or an equation differs from one without data. They ascend by the
    /// numbers of the first labels that differ. `None` if the symbol is undeclared, an alias or a
    /// model. Each tuple has as many labels as the symbol has positions, and nothing that equals an
    /// element without data is stored (`kept`). Numerators and denominators of the data are at most
    /// `F.limit` in magnitude (`fit`).
    pub fn given(&self) -> Option<&TupleSet>
        ensures some { IfSome result (λ set. set.now ≡ given_in self.now.content) }
        ensures none { IfNone result (given_in self.now.content ≡ []) }
        ensures ordered { IfSome result (λ set. IsOrdered set.now) }
        ensures kept { IsNormalContent (length self.now.domain) self.now.content }
        ensures fit { (t : List ℕ) → fits_at F.limit self.now.content t ≡ true }
    {
        match &self.content {
            Content::Set(members) => {
                let _ordered = members.len();
                Some(members)
            }
            Content::Parameter(entries) => Some(entries.given()),
            Content::Variable(_, entries) => Some(entries.given()),
            Content::Equation(entries) => Some(entries.given()),
            _ => None,
        }
    }

    /// The members of a set, in the order of tuples, by the first label that differs. `None` if the
    /// symbol is no set; an alias is none.
    pub fn members(&self) -> Option<&TupleSet>
        ensures some { IfSome result (λ set. set.now ≡ members_in self.now.content) }
        ensures none { IfNone result (members_in self.now.content ≡ []) }
        ensures ordered { IfSome result (λ set. IsOrdered set.now) }
    {
        match &self.content {
            Content::Set(members) => {
                let _ordered = members.len();
                Some(members)
            }
            _ => None,
        }
    }

    /// The value of a parameter at a tuple: 0 if there are no data at the tuple, or if the symbol
    /// is no parameter.
    pub fn value(&self, t: &Tuple) -> Ext<F>
        ensures { extended F.value result ≡ value_in self.now.content t.now }
    {
        let zero = Ext::Number(F::zero());
        match &self.content {
            Content::Parameter(entries) => entries.get(t).unwrap_or(zero),
            _ => zero,
        }
    }

    /// The value of a parameter at the tuple `t`: 0 if there are no data at `t`, or if the symbol
    /// is no parameter. `place`, a guess of the index of `t`, from 0, among the tuples with data,
    /// affects speed only.
    pub fn value_near(&self, t: &Tuple, place: usize) -> Ext<F>
        ensures { extended F.value result ≡ value_in self.now.content t.now }
    {
        let zero = Ext::Number(F::zero());
        match &self.content {
            Content::Parameter(entries) => entries.get_near(t, place).unwrap_or(zero),
            _ => zero,
        }
    }

    /// The bounds, the level and the marginal of a variable or an equation at a tuple. Without data
    /// at the tuple, the level and the marginal are 0, the bounds of a variable are those of its
    /// type, and an equation has no bounds. A symbol of another kind has level 0, marginal 0 and no
    /// bounds.
    pub fn attributes(&self, t: &Tuple) -> Attributes<F>
        ensures { attributes_shown F.value result ≡ attributes_in self.now.content t.now }
    {
        match &self.content {
            Content::Variable(kind, entries) => {
                entries.get(t).unwrap_or(Attributes::of_type(*kind))
            }
            Content::Equation(entries) => entries.get(t).unwrap_or(Attributes::unbounded()),
            _ => Attributes::unbounded(),
        }
    }

    /// The bounds, the level and the marginal of a variable or an equation at the tuple `t`.
    /// Without data at `t`, the level and the marginal are 0, the bounds of a variable are those of
    /// its type, and an equation has no bounds. A symbol of another kind has level 0, marginal 0
    /// and no bounds. `place`, a guess of the index of `t`, from 0, among the tuples with data,
    /// affects speed only.
    pub fn attributes_near(&self, t: &Tuple, place: usize) -> Attributes<F>
        ensures { attributes_shown F.value result ≡ attributes_in self.now.content t.now }
    {
        match &self.content {
            Content::Variable(kind, entries) => entries
                .get_near(t, place)
                .unwrap_or(Attributes::of_type(*kind)),
            Content::Equation(entries) => entries
                .get_near(t, place)
                .unwrap_or(Attributes::unbounded()),
            _ => Attributes::unbounded(),
        }
    }

    /// The numbers of a model's two statuses: the model's, `.modelstat`, then the solver's,
    /// `.solvestat`. Both are 0 before the first solve of the model, and if the symbol is no model.
    pub fn statuses(&self) -> (u8, u8)
        ensures { result ≡ statuses_in self.now.content }
    {
        match &self.content {
            Content::Model(model, solver) => (*model, *solver),
            _ => (0, 0),
        }
    }

    /// Whether a tuple has a label for each position.
    fn fits(&self, t: &Tuple) -> bool
        ensures { result ≡ (length t.now == length self.now.domain) }
    {
        t.as_slice().len() == self.domain.len()
    }

    /// Inserts a tuple into the set if `on`, otherwise removes it. Nothing changes if the symbol is
    /// no set (an alias is none), if the tuple has another number of labels than the set has
    /// positions, or if out of memory, the only error.
    pub fn set_member(&mut self, alloc: Global, t: &Tuple, on: bool) -> Result<(), AllocError>
        ensures ok { OnOk result (self.new ≡ if_fits self.old t.now (with_membership self.old.content t.now on)) }
        ensures err { OnErr result (self.new ≡ self.old) }
    {
        if !self.fits(t) {
            return Ok(());
        }
        let Content::Set(members) = &mut self.content else {
            return Ok(());
        };
        if !on {
            members.remove(t);
            return Ok(());
        }
        let member = t.copy(alloc)?;
        members.insert(alloc, member)?;
        Ok(())
    }

    /// Writes the value of a parameter at a tuple; 0 is not stored. Nothing changes if the symbol
    /// is no parameter, if the tuple has another number of labels than the symbol has positions, or
    /// if out of memory, the only error.
    pub fn put(&mut self, alloc: Global, t: &Tuple, value: Ext<F>) -> Result<(), AllocError>
        ensures ok { OnOk result (self.new ≡ if_fits self.old t.now (with_value self.old.content t.now (extended F.value value))) }
        ensures err { OnErr result (self.new ≡ self.old) }
    {
        if !self.fits(t) {
            return Ok(());
        }
        let Content::Parameter(entries) = &mut self.content else {
            return Ok(());
        };
        entries.write(alloc, t, value, is_given(value))?;
        Ok(())
    }

    /// Writes the bounds, the level and the marginal of a variable or an equation at a tuple; those
    /// of an element without data are not stored. Nothing changes if the symbol is of another kind,
    /// if the tuple has another number of labels than the symbol has positions, or if out of
    /// memory, the only error.
    pub fn put_attributes(
        &mut self,
        alloc: Global,
        t: &Tuple,
        new: Attributes<F>,
    ) -> Result<(), AllocError>
        ensures ok { OnOk result (self.new ≡ if_fits self.old t.now (with_attributes self.old.content t.now (attributes_shown F.value new))) }
        ensures err { OnErr result (self.new ≡ self.old) }
    {
        if !self.fits(t) {
            return Ok(());
        }
        if let Content::Variable(kind, entries) = &mut self.content {
            let keep = !new.is_same(Attributes::of_type(*kind));
            entries.write(alloc, t, new, keep)?;
            return Ok(());
        }
        let Content::Equation(entries) = &mut self.content else {
            return Ok(());
        };
        let keep = !new.is_same(Attributes::unbounded());
        entries.write(alloc, t, new, keep)?;
        Ok(())
    }

    /// Writes the two statuses of a model as numbers: `model` is the model's status, `.modelstat`,
    /// and `solver` the solver's, `.solvestat`. A symbol that is no model is unchanged.
    pub fn put_statuses(&mut self, model: u8, solver: u8)
        ensures { self.new ≡ with_content self.old (with_statuses self.old.content model solver) }
    {
        let Content::Model(..) = &self.content else {
            return;
        };
        self.content = Content::Model(model, solver);
    }
}

/// Whether a value is one that a parameter keeps: it is not 0.
fn is_given<F: ExactField>(value: Ext<F>) -> bool
    ensures { result ≡ is_given (extended F.value value) }
{
    match value {
        Ext::Number(x) => !is_same_number(x, F::zero()),
        _ => true,
    }
}

/// The set of each position of a name that is declared, `None` for one that admits any label. A set
/// without a written domain has one such position.
fn positions(
    alloc: Global,
    kind: DeclKind,
    domain: &[Option<Named>],
) -> Result<Vec<Option<u32>>, AllocError>
    ensures { IfOk result (λ positions. positions.items ≡ positions_of kind (names_of domain.now)) }
{
    if kind != DeclKind::Set || !domain.is_empty() {
        return names(alloc, domain);
    }
    let mut positions = Vec::new(alloc);
    positions.push(None)?;
    Ok(positions)
}

/// The sets of a domain, by the numbers of their names.
fn names(alloc: Global, domain: &[Option<Named>]) -> Result<Vec<Option<u32>>, AllocError>
    ensures { IfOk result (λ sets. sets.items ≡ names_of domain.now) }
{
    let mut sets = Vec::new(alloc);
    for position in domain {
        sets.push(position.map(|named| named.name))?;
    }
    Ok(sets)
}

/// What a declaration of this kind declares, without data.
fn declared<F: ExactField>(alloc: Global, kind: DeclKind) -> Content<F>
    ensures { content_shown F.value result ≡ content_of kind }
{
    match kind {
        DeclKind::Set => Content::Set(TupleSet::new(alloc)),
        DeclKind::Parameter => Content::Parameter(Entries::new(alloc)),
        DeclKind::Scalar => Content::Parameter(Entries::new(alloc)),
        DeclKind::Table => Content::Parameter(Entries::new(alloc)),
        DeclKind::Free => Content::Variable(VariableType::Free, Entries::new(alloc)),
        DeclKind::Positive => Content::Variable(VariableType::Positive, Entries::new(alloc)),
        DeclKind::Negative => Content::Variable(VariableType::Negative, Entries::new(alloc)),
        DeclKind::Discrete => Content::Variable(VariableType::Discrete, Entries::new(alloc)),
        DeclKind::Equation => Content::Equation(Entries::new(alloc)),
    }
}
