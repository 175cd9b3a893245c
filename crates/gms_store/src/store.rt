//! The store: what each name of a program denotes, with its data, and the settings.
ghost use Rattle.std.specs.Prelude.{◌≡◌, ◌<◌, ◌↔◌, ℕ, List, Bool, true, Some, None, [], length, not, option_map, IsTrue, OnOk, OnErr, IfOk};
ghost use Rattle.gq_extended.specs.Meaning.{extended};
ghost use Rattle.gms_tuple.specs.TupleOrder.{IsOrdered};
ghost use Rattle.gms_tuple.specs.TupleSet.{has};
ghost use Rattle.gms_store.specs.Shown.{attributes_shown};
ghost use Rattle.gms_store.specs.State.{base_of, symbol_of, symbol_at, members_of, value_of, attributes_of, given_of, statuses_in, differs_in, fits_at, after_membership, after_value, after_attributes, after_statuses, with_lower, with_upper, with_level, with_marginal, with_settings};
ghost use Rattle.gms_store.specs.Overlays.{overlaid, overlaid_symbols};
ghost use Rattle.gms_store.specs.Declarations.{is_alias, is_free, kind_in, declared_state, first_settings, blank_state};

use crate::attributes::Attributes;
use crate::kind::SymbolKind;
use crate::settings::Settings;
use crate::symbol::Symbol;
use gms_ast::Program;
use gms_tuple::{Tuple, TupleSet};
use gq_extended::Ext;
use gq_field::ExactField;
use std::alloc::{AllocError, Global};
use std::marker::Model;

/// The state of a run: the settings, and for each name its domain, what it denotes, and its data.
/// In contracts the data are the members of a set, the value of a parameter at each tuple, the
/// bounds, level and marginal of a variable or an equation at each tuple, and a model's two
/// statuses.
///
/// Names and labels are numbers, the indices in the program's tables of names and labels. An alias
/// denotes its set. At a tuple without data a value, a level or a marginal is 0, a variable has the
/// bounds of its type, and an equation has no bounds. Only data that differ from these are stored.
/// A name that the program does not have, or of another kind than what is read, reads as one
/// without data. A write to such a name, or at a tuple with another number of labels than the name
/// has positions, changes nothing; a checked program has no such write. A call that runs out of
/// memory leaves the store unchanged, but `declare_act` and `declare_alias` may have declared some
/// names.
pub struct Store<F: ExactField> {
    pub(crate) symbols: Vec<Symbol<F>>,
    settings: Settings,
    nothing: Symbol<F>,
    none: TupleSet,
}

// Written out, so that it is proved here once, and not in each crate that drops such a value.
impl<F: ExactField> Drop for Store<F> {
    fn drop(self) {
        let Self {
            symbols: _,
            settings: _,
            nothing: _,
            none: _,
        } = self;
    }
}

impl<F: ExactField> Model for Store<F> {
    ghost use Rattle.std.specs.Prelude.{◌≡◌, [], List, ℕ};
    ghost use Rattle.gms_store.specs.State.{State, no_symbol};
    ghost use Rattle.gms_store.specs.Codes.{state_code};

    ghost Value = { State };

    ghost coded = { state_code };

    ghost view = { λ s. record { symbols = s.symbols.items; settings = s.settings } };

    ghost invariant = { λ s. (s.nothing ≡ no_symbol) × (s.none ≡ []) };
}

impl<F: ExactField> Store<F> {
    /// The state after all declarations of a program: each declared name, without data, and the
    /// settings at the start of a run. The only error is out of memory.
    pub fn new(alloc: Global, program: &Program<F>) -> Result<Store<F>, AllocError>
        ensures { IfOk result (λ store. store ≡ declared_state program.now) }
    {
        let mut store = Store::blank(alloc, program.names.len())?;
        store.declare_all(alloc, &program.statements)?;
        Ok(store)
    }

    /// The state with `names` names, of which none is declared, and the settings at the start of a
    /// run. The only error is out of memory.
    pub fn blank(alloc: Global, names: u32) -> Result<Store<F>, AllocError>
        ensures { IfOk result (λ store. store ≡ blank_state names) }
    {
        let mut symbols = Vec::new(alloc);
        for _ in 0..names {
            symbols.push(Symbol::undeclared(alloc))?;
        }
        Ok(Store {
            symbols,
            settings: Settings::FIRST,
            nothing: Symbol::undeclared(alloc),
            none: TupleSet::new(alloc),
        })
    }

    /// The kind that a name is declared as. For an alias this is a set. It is `Undeclared` if no
    /// declaration has the name.
    pub fn kind_of(&self, name: u32) -> SymbolKind
        ensures { result ≡ kind_in (symbol_at self.now name).content }
    {
        match self.symbols.get(name as usize) {
            Some(symbol) => symbol.kind(),
            None => SymbolKind::Undeclared,
        }
    }

    /// Whether a name is that of a variable of the type `Free`.
    pub fn is_free(&self, name: u32) -> bool
        ensures { result ≡ is_free (symbol_at self.now name).content }
    {
        match self.symbols.get(name as usize) {
            Some(symbol) => symbol.is_free(),
            None => false,
        }
    }

    /// Whether a name is an alias of a set (GAMS User's Guide, "Set Definition", aliases).
    pub fn is_alias(&self, name: u32) -> bool
        ensures { result ≡ is_alias (symbol_at self.now name).content }
    {
        match self.symbols.get(name as usize) {
            Some(symbol) => symbol.is_alias(),
            None => false,
        }
    }

    /// The domain of a name: for each position the number of the set whose members the position
    /// admits, `None` if it admits any label. The domain of an alias is that of its set. The domain
    /// of a name that is not declared is empty.
    pub fn domain_of(&self, name: u32) -> &[Option<u32>]
        ensures { result.now ≡ (symbol_of self.now name).domain }
    {
        self.symbol(name).domain()
    }

    /// The tuples at which a name has data, ordered by the numbers of the first labels that differ.
    /// They are the members of a set; the tuples at which the value of a parameter is not 0; the
    /// tuples at which the bounds, level or marginal of a variable or an equation differ from those
    /// of an element without data; none for a model or an undeclared name. An alias counts as its
    /// set.
    pub fn given(&self, name: u32) -> &TupleSet
        ensures value { result.now ≡ given_of self.now name }
        // A tuple is in the set exactly if its data differ from those of an element without data.
        ensures differs { (t : List ℕ) → has result.now t ≡ differs_in (symbol_of self.now name).content t }
        ensures arity { (t : List ℕ) → has result.now t ≡ true → length t ≡ length (symbol_of self.now name).domain }
        ensures ordered { IsOrdered result.now }
        // Numerators and denominators at a tuple are at most the field's limit in magnitude.
        ensures fit { (t : List ℕ) → fits_at F.limit (symbol_of self.now name).content t ≡ true }
    {
        match self.symbol(name).given() {
            Some(given) => given,
            None => {
                let _ordered = self.none.len();
                &self.none
            }
        }
    }

    /// The number of the set of which a name is an alias. If the name is no alias, its own number.
    pub fn base(&self, name: u32) -> u32
        ensures { result ≡ base_of self.now name }
    {
        match self.symbols.get(name as usize) {
            Some(symbol) => symbol.unaliased(name),
            None => name,
        }
    }

    /// The symbol that a name stands for: that of the set of an alias, and otherwise the name's
    /// own.
    fn symbol(&self, name: u32) -> &Symbol<F>
        ensures { result.now ≡ symbol_of self.now name }
    {
        match self.symbols.get(self.base(name) as usize) {
            Some(symbol) => symbol,
            None => &self.nothing,
        }
    }

    /// The members of a set, in the order of tuples: by the numbers of the first labels that
    /// differ. There are none if the name is no set.
    pub fn members(&self, set: u32) -> &TupleSet
        ensures value { result.now ≡ members_of self.now set }
        ensures ordered { IsOrdered result.now }
    {
        match self.symbol(set).members() {
            Some(members) => members,
            None => {
                let _ordered = self.none.len();
                &self.none
            }
        }
    }

    /// Whether a tuple is a member of a set. False if the name `set` is no set.
    pub fn member(&self, set: u32, t: &Tuple) -> bool
        ensures { result ≡ has (members_of self.now set) t.now }
    {
        self.members(set).contains(t)
    }

    /// Inserts a tuple into a set if `on`, otherwise removes it. Nothing changes if the name is no
    /// set or alias of one, if the tuple has another number of labels than the set has positions,
    /// or if out of memory, the only error.
    pub fn set_member(
        &mut self,
        alloc: Global,
        set: u32,
        t: &Tuple,
        on: bool,
    ) -> Result<(), AllocError>
        ensures ok { OnOk result (self.new ≡ after_membership self.old set t.now on) }
        ensures err { OnErr result (self.new ≡ self.old) }
    {
        let base = self.base(set) as usize;
        if base < self.symbols.len() {
            let symbol = &mut self.symbols[base];
            symbol.set_member(alloc, t, on)?;
        }
        Ok(())
    }

    /// The value of a parameter at a tuple: 0 if there are no data at the tuple, or the name is no
    /// parameter.
    pub fn value(&self, name: u32, t: &Tuple) -> Ext<F>
        ensures { extended F.value result ≡ value_of self.now name t.now }
    {
        self.symbol(name).value(t)
    }

    /// The value of a parameter at the tuple `t`: 0 if there are no data at `t`, or the name is no
    /// parameter. `place`, a guess of the index of `t`, from 0, among the tuples with data, affects
    /// speed only.
    pub fn value_near(&self, name: u32, t: &Tuple, place: usize) -> Ext<F>
        ensures { extended F.value result ≡ value_of self.now name t.now }
    {
        self.symbol(name).value_near(t, place)
    }

    /// Writes the value of a parameter at a tuple. Nothing changes if the name is no parameter, if
    /// the tuple has another number of labels than the name has positions, or if out of memory, the
    /// only error.
    pub fn put(&mut self, alloc: Global, name: u32, t: &Tuple, v: Ext<F>) -> Result<(), AllocError>
        ensures ok { OnOk result (self.new ≡ after_value self.old name t.now (extended F.value v)) }
        ensures err { OnErr result (self.new ≡ self.old) }
    {
        let base = self.base(name) as usize;
        if base < self.symbols.len() {
            let symbol = &mut self.symbols[base];
            symbol.put(alloc, t, v)?;
        }
        Ok(())
    }

    /// The bounds, the level and the marginal of a variable or an equation at a tuple. Without data
    /// at the tuple, the level and the marginal are 0, the bounds of a variable are those of its
    /// type, and an equation has no bounds. A name of another kind reads as an equation without
    /// data.
    pub fn attributes(&self, name: u32, t: &Tuple) -> Attributes<F>
        ensures { attributes_shown F.value result ≡ attributes_of self.now name t.now }
    {
        self.symbol(name).attributes(t)
    }

    /// The bounds, the level and the marginal of the variable or equation `name` at the tuple `t`.
    /// Without data at `t`, the level and the marginal are 0, the bounds of a variable are those of
    /// its type, and an equation has no bounds. A name of another kind reads as an equation without
    /// data. `place`, a guess of the index of `t`, from 0, among the tuples with data, affects
    /// speed only.
    pub fn attributes_near(&self, name: u32, t: &Tuple, place: usize) -> Attributes<F>
        ensures { attributes_shown F.value result ≡ attributes_of self.now name t.now }
    {
        self.symbol(name).attributes_near(t, place)
    }

    /// The lower bound of a variable or an equation at a tuple; `None` is minus infinity. If there
    /// are no data at the tuple, it is that of the variable's type, and `None` for an equation. It
    /// is `None` for a name of another kind.
    pub fn lower(&self, name: u32, t: &Tuple) -> Option<F>
        ensures { option_map F.value result ≡ (attributes_of self.now name t.now).lower }
    {
        self.attributes(name, t).lower
    }

    /// The upper bound of a variable or an equation at a tuple; `None` is plus infinity. If there
    /// are no data at the tuple, it is that of the variable's type, and `None` for an equation. It
    /// is `None` for a name of another kind.
    pub fn upper(&self, name: u32, t: &Tuple) -> Option<F>
        ensures { option_map F.value result ≡ (attributes_of self.now name t.now).upper }
    {
        self.attributes(name, t).upper
    }

    /// The level of a variable or an equation at a tuple; 0 if there are no data at the tuple, or
    /// the name is of another kind.
    pub fn level(&self, name: u32, t: &Tuple) -> F
        ensures { F.value result ≡ (attributes_of self.now name t.now).level }
    {
        self.attributes(name, t).level
    }

    /// The marginal of a variable or an equation at a tuple; 0 if there are no data at the tuple,
    /// or the name is of another kind.
    pub fn marginal(&self, name: u32, t: &Tuple) -> F
        ensures { F.value result ≡ (attributes_of self.now name t.now).marginal }
    {
        self.attributes(name, t).marginal
    }

    /// Writes the lower bound of a variable or an equation at a tuple; `None` is minus infinity.
    /// The other attributes are unchanged. Nothing changes if the name is of another kind, if the
    /// tuple has another number of labels than the name has positions, or if out of memory, the
    /// only error.
    pub fn put_lower(
        &mut self,
        alloc: Global,
        name: u32,
        t: &Tuple,
        v: Option<F>,
    ) -> Result<(), AllocError>
        ensures ok { OnOk result
            (self.new ≡ after_attributes self.old name t.now (with_lower (attributes_of self.old name t.now) (option_map F.value v))) }
        ensures err { OnErr result (self.new ≡ self.old) }
    {
        let mut new = self.attributes(name, t);
        new.lower = v;
        self.put_attributes(alloc, name, t, new)
    }

    /// Writes the upper bound of a variable or an equation at a tuple; `None` is plus infinity. The
    /// other attributes are unchanged. Nothing changes if the name is of another kind, if the tuple
    /// has another number of labels than the name has positions, or if out of memory, the only
    /// error.
    pub fn put_upper(
        &mut self,
        alloc: Global,
        name: u32,
        t: &Tuple,
        v: Option<F>,
    ) -> Result<(), AllocError>
        ensures ok { OnOk result
            (self.new ≡ after_attributes self.old name t.now (with_upper (attributes_of self.old name t.now) (option_map F.value v))) }
        ensures err { OnErr result (self.new ≡ self.old) }
    {
        let mut new = self.attributes(name, t);
        new.upper = v;
        self.put_attributes(alloc, name, t, new)
    }

    /// Writes the level of a variable or an equation at a tuple; its bounds and marginal are
    /// unchanged. Nothing changes if the name is of another kind, if the tuple has another number
    /// of labels than the name has positions, or if out of memory, the only error.
    pub fn put_level(&mut self, alloc: Global, name: u32, t: &Tuple, v: F) -> Result<(), AllocError>
        ensures ok { OnOk result
            (self.new ≡ after_attributes self.old name t.now (with_level (attributes_of self.old name t.now) (F.value v))) }
        ensures err { OnErr result (self.new ≡ self.old) }
    {
        let mut new = self.attributes(name, t);
        new.level = v;
        self.put_attributes(alloc, name, t, new)
    }

    /// Writes the marginal of a variable or an equation at a tuple; its bounds and level are
    /// unchanged. Nothing changes if the name is of another kind, if the tuple has another number
    /// of labels than the name has positions, or if out of memory, the only error.
    pub fn put_marginal(
        &mut self,
        alloc: Global,
        name: u32,
        t: &Tuple,
        v: F,
    ) -> Result<(), AllocError>
        ensures ok { OnOk result
            (self.new ≡ after_attributes self.old name t.now (with_marginal (attributes_of self.old name t.now) (F.value v))) }
        ensures err { OnErr result (self.new ≡ self.old) }
    {
        let mut new = self.attributes(name, t);
        new.marginal = v;
        self.put_attributes(alloc, name, t, new)
    }

    /// Writes the bounds, level and marginal of a variable or an equation at a tuple. Nothing
    /// changes if the name is of another kind, if the tuple has another number of labels than the
    /// name has positions, or if out of memory, the only error.
    pub fn put_attributes(
        &mut self,
        alloc: Global,
        name: u32,
        t: &Tuple,
        new: Attributes<F>,
    ) -> Result<(), AllocError>
        ensures ok { OnOk result (self.new ≡ after_attributes self.old name t.now (attributes_shown F.value new)) }
        ensures err { OnErr result (self.new ≡ self.old) }
    {
        let base = self.base(name) as usize;
        if base < self.symbols.len() {
            let symbol = &mut self.symbols[base];
            symbol.put_attributes(alloc, t, new)?;
        }
        Ok(())
    }

    /// The two statuses of a model as numbers: the model's status, `.modelstat`, and then the
    /// solver's, `.solvestat`. Both are 0 until a solve of the model, and if the name is no model.
    pub fn status(&self, model: u32) -> (u8, u8)
        ensures { result ≡ statuses_in (symbol_of self.now model).content }
    {
        self.symbol(model).statuses()
    }

    /// Writes the two statuses of a model as numbers: `m` is the model's status, `.modelstat`, and
    /// `s` the solver's, `.solvestat`. A name that is no model is unchanged.
    pub fn put_status(&mut self, model: u32, m: u8, s: u8)
        ensures { self.new ≡ after_statuses self.old model m s }
    {
        let base = self.base(model) as usize;
        if base < self.symbols.len() {
            let symbol = &mut self.symbols[base];
            symbol.put_statuses(m, s);
        }
    }

    /// The current settings of the run (`limrow`, `iterlim` and others), which `option` statements
    /// change.
    pub fn settings(&self) -> Settings
        ensures { result ≡ self.now.settings }
    {
        self.settings
    }

    /// Replaces the settings of the run by `s`.
    pub fn put_settings(&mut self, s: Settings)
        ensures { self.new ≡ with_settings self.old s }
    {
        self.settings = s;
    }

    /// Puts the state `other` over this one (GAMS User's Guide, "Save and Restart"). Each name of
    /// this state that `other` declares becomes what it is in `other`, with its data; the others
    /// are unchanged. Names that only `other` has are dropped. The settings become those of
    /// `other`. No memory is requested.
    pub fn overlay(&mut self, other: Store<F>)
        ensures { self.new ≡ overlaid self.old other }
    {
        let mut other = other;
        overlay_symbols(&mut self.symbols, &mut other.symbols);
        self.settings = other.settings;
    }
}

/// Replaces each symbol by the other at its index, if that is declared.
fn overlay_symbols<F: ExactField>(symbols: &mut [Symbol<F>], others: &mut [Symbol<F>])
    ensures { symbols.new ≡ overlaid_symbols symbols.old others.old }
{
    for name in 0..others.len() {
        if name < symbols.len() {
            let symbol = &mut symbols[name];
            let other = &mut others[name];
            symbol.overlay(other);
        }
    }
}
