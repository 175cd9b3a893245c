//! What the declarations of a program declare.
ghost use Rattle.std.specs.Prelude.{◌≡◌, ◌⊎◌, ℕ, List, [], take, Option, OnOk, OnErr};
ghost use Rattle.gms_ast.specs.declared.declaration.DeclKind.TheVariants.{Set};
ghost use Rattle.gms_store.specs.Declarations.{declare, names_of, declare_alias, join_name, declare_model, declare_models, declare_each, declared_by, declared_first, declared_by_all, put_at, can_join, is_set, is_undeclared};
ghost use Rattle.gms_store.specs.State.{symbol_at};

use crate::store::Store;
use crate::symbol::Symbol;
use gms_ast::{Act, Decl, DeclKind, ModelDecl, Named, Stmt};
use gq_field::ExactField;
use std::alloc::{AllocError, Global};

impl<F: ExactField> Store<F> {
    /// Declares the names that the statements declare, in order.
    pub(crate) fn declare_all(
        &mut self,
        alloc: Global,
        statements: &[Stmt<F>],
    ) -> Result<(), AllocError>
        ensures { OnOk result (self.new ≡ declared_by_all self.old statements.now) }
    {
        for statement in statements {
            self.declare_act(alloc, &statement.act)?;
        }
        Ok(())
    }

    /// Declares the names of a declaration, an alias or a model statement, without their data (GAMS
    /// User's Guide, "GAMS Programs"). Any other `act` changes nothing.
    ///
    /// The only error is out of memory. Then a declaration has declared only a prefix of its names.
    /// An alias statement has declared no name, or only the first name, as a set if it is new.
    pub fn declare_act(&mut self, alloc: Global, act: &Act<F>) -> Result<(), AllocError>
        ensures ok { OnOk result (self.new ≡ declared_by self.old act.now) }
        ensures err { OnErr result ((count : ℕ) × (self.new ≡ declared_first count self.old act.now)) }
    {
        match act {
            Act::Declare { kind, items } => self.declare_each(alloc, *kind, items.as_slice()),
            Act::Alias { first, second } => self.declare_alias(alloc, first.name, second.name),
            Act::Model { models } => {
                self.declare_models(alloc, models.as_slice());
                Ok(())
            }
            _ => Ok(()),
        }
    }

    /// Declares names of one kind. If out of memory, some first ones of them are declared.
    fn declare_each(
        &mut self,
        alloc: Global,
        kind: DeclKind,
        items: &[Decl<F>],
    ) -> Result<(), AllocError>
        ensures ok { OnOk result (self.new ≡ declare_each kind self.old items.now) }
        ensures err { OnErr result ((count : ℕ) × (self.new ≡ declare_each kind self.old (take count items.now))) }
    {
        for item in items {
            self.declare(alloc, kind, item.domain.as_slice(), item.named.name)?;
        }
        Ok(())
    }

    /// Declares the name with the number `name` as `kind`, without data. `domain` has the set of
    /// each position of the name, `None` for a position that admits any label. If `domain` is
    /// empty, a set has one position, which admits any label; any other name has no positions.
    ///
    /// A declared name is unchanged, with one exception: if `kind` is a variable's, a free variable
    /// gets the type of `kind` and loses its data (GAMS User's Guide, "Variables"). A number past
    /// the last name of the program changes nothing. The only error is out of memory; the state is
    /// then unchanged.
    pub fn declare(
        &mut self,
        alloc: Global,
        kind: DeclKind,
        domain: &[Option<Named>],
        name: u32,
    ) -> Result<(), AllocError>
        ensures ok { OnOk result (self.new ≡ declare kind (names_of domain.now) self.old name) }
        ensures err { OnErr result (self.new ≡ self.old) }
    {
        let at = name as usize;
        if at < self.symbols.len() {
            let symbol = &mut self.symbols[at];
            symbol.declare(alloc, kind, domain)?;
        }
        Ok(())
    }

    /// Declares an alias (GAMS User's Guide, "Set Definition", aliases): if one of the names
    /// `first` and `second` is a set or an alias of one, and the other is not declared, the other
    /// becomes an alias of that set. In any other case, each of the two that is not declared
    /// becomes a set. The only error is out of memory: then at most `first` is declared, as a set.
    pub fn declare_alias(
        &mut self,
        alloc: Global,
        first: u32,
        second: u32,
    ) -> Result<(), AllocError>
        ensures ok { OnOk result (self.new ≡ declare_alias self.old first second) }
        ensures err { OnErr result ((self.new ≡ self.old) ⊎ (self.new ≡ declare Set [] self.old first)) }
    {
        if self.can_join(first, second) {
            self.join_name(alloc, first, second);
            return Ok(());
        }
        if self.can_join(second, first) {
            self.join_name(alloc, second, first);
            return Ok(());
        }
        self.declare(alloc, DeclKind::Set, &[], first)?;
        self.declare(alloc, DeclKind::Set, &[], second)
    }

    /// Whether the name `new` can become an alias of the name `old`: `old` is a set or an alias of
    /// one, and `new` is not declared.
    fn can_join(&self, old: u32, new: u32) -> bool
        ensures { result ≡ can_join self.now old new }
    {
        self.is_set(old) && self.is_undeclared(new)
    }

    /// Whether a name is that of a set or of an alias of one.
    fn is_set(&self, name: u32) -> bool
        ensures { result ≡ is_set (symbol_at self.now name).content }
    {
        match self.symbols.get(name as usize) {
            Some(symbol) => symbol.is_set(),
            None => false,
        }
    }

    /// Whether nothing declares a name.
    fn is_undeclared(&self, name: u32) -> bool
        ensures { result ≡ is_undeclared (symbol_at self.now name).content }
    {
        match self.symbols.get(name as usize) {
            Some(symbol) => symbol.is_undeclared(),
            None => true,
        }
    }

    /// Makes the name `new` an alias of the set that the name `old` denotes.
    fn join_name(&mut self, alloc: Global, old: u32, new: u32)
        ensures { self.new ≡ join_name self.old old new }
    {
        let alias = Symbol::alias(alloc, self.base(old));
        self.replace(new, alias);
    }

    /// Declares models.
    fn declare_models(&mut self, alloc: Global, models: &[ModelDecl])
        ensures { self.new ≡ declare_models self.old models.now }
    {
        for model in models {
            self.declare_model(alloc, model.named.name);
        }
    }

    /// Declares a name as a model (GAMS User's Guide, "Model and Solve Statements"). A name that is
    /// already declared is unchanged.
    pub fn declare_model(&mut self, alloc: Global, name: u32)
        ensures { self.new ≡ declare_model self.old name }
    {
        if self.is_undeclared(name) {
            self.replace(name, Symbol::model(alloc));
        }
    }

    /// Puts this symbol at a name.
    fn replace(&mut self, name: u32, symbol: Symbol<F>)
        ensures { self.new ≡ put_at self.old name symbol }
    {
        let at = name as usize;
        if at < self.symbols.len() {
            self.symbols[at] = symbol;
        }
    }
}
