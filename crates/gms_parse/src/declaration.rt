//! Declarations: items with their domains and their data.
ghost use Rattle.std.specs.Prelude.{◌≡◌, ℕ, false, map, MatchOption};
ghost use Rattle.gms_ast.specs.StatementView.{item_in, declared_in};
ghost use Rattle.gms_grammar.specs.declared.terminal.Terminal.TheVariants.{VariableType};
ghost use Rattle.gms_parse.specs.declared.declaration.Form.TheVariants.{Scalar as form_scalar, Plain as form_plain};
ghost use Rattle.gms_parse.specs.declared.reader.Tables.{Tables};
ghost use Rattle.gms_parse.specs.ReadStates.{ReaderState};
ghost use Rattle.gms_grammar.specs.Grammar.{the, opt, ◌·◌};
ghost use Rattle.gms_grammar.specs.GamsGrammar.{Domain, DomainPosition, ScalarItem, PlainItem, VariableStatement, token};
ghost use Rattle.gms_parse.specs.Declarations.{variable_kind, variable_act};
ghost use Rattle.gms_parse.specs.InnerReadings.{IsReady, Holds, IsGot, IsFurther, IsNotFurther, IsAfterLast, AnswersName, AnswersPart, AnswersDomain, AnswersAfter, AnswersDeclaration, AnswersAct};
ghost use Rattle.gms_parse.specs.InnerMeanings.{IsPosition, IsDomain, IsOptionalDomain, IsDeclared, AreDeclared, IsDeclaration, IsAct, IsVariableType, form_of, item_part, items_part};

use crate::data::ListOf;
use crate::reader::{NAMES, Read, Reader, Tables};
use gms_ast::{Act, Decl, DeclKind, Item, Named, Sequence};
use gms_grammar::Terminal;
use gq_field::ExactField;

/// What an item of a declaration may have after its name.
#[derive(Clone, Copy)]
pub(crate) enum Form {
    /// A domain, and a list of elements.
    Set,
    /// A domain, and a list of elements with values.
    Parameter,
    /// A value.
    Scalar,
    /// A domain.
    Plain,
}

/// What `variable` declares after this word.
fn variable_kind(word: &[u8]) -> DeclKind
    ensures { result ≡ variable_kind word.now }
{
    if word.eq_ignore_ascii_case(b"free") {
        DeclKind::Free
    } else if word.eq_ignore_ascii_case(b"positive") {
        DeclKind::Positive
    } else if word.eq_ignore_ascii_case(b"negative") {
        DeclKind::Negative
    } else {
        DeclKind::Discrete
    }
}

impl<'s> Reader<'s> {
    /// One position of a domain: a set, or `*`.
    fn domain_position(&self, tables: &mut Tables, at: usize) -> Read<Option<Named>>
        requires { IsReady self.now }
        ensures { (limit : ℕ) → AnswersName limit (IsPosition self.now.source.now) (the DomainPosition) self.now at tables.old tables.new result }
    {
        if let Some((_, next)) = self.take_if(Terminal::Star, at) {
            return Ok((None, next));
        }
        let (set, next) = self.name(tables, at)?;
        Ok((Some(set), next))
    }

    /// Reads a domain.
    pub(crate) fn domain(&self, tables: &mut Tables, at: usize) -> Read<Vec<Option<Named>>>
        requires { IsReady self.now }
        ensures { (limit : ℕ) → AnswersDomain limit (IsDomain self.now.source.now) (the Domain) self.now at tables.old tables.new result }
    {
        let mut positions = Vec::new(self.alloc);
        let (inner, start) = self.enter(at)?;
        let (first, mut next) = inner.domain_position(tables, start)?;
        positions.push(first)?;
        while let Some((_, following)) = inner.take_if(Terminal::Comma, next) {
            let (position, after) = inner.domain_position(tables, following)?;
            positions.push(position)?;
            next = after;
        }
        Ok((positions, self.following(Terminal::RightParen, next)?))
    }

    /// Reads a domain, or one without positions.
    fn optional_domain(&self, tables: &mut Tables, at: usize) -> Read<Vec<Option<Named>>>
        requires { IsReady self.now }
        ensures { (limit : ℕ) → AnswersAfter limit (IsOptionalDomain self.now.source.now) (opt (the Domain)) self.now at tables.old tables.new result }
    {
        if self.is_next(Terminal::LeftParen, at) {
            return self.domain(tables, at);
        }
        Ok((Vec::new(self.alloc), at))
    }

    /// Reads an item of a declaration.
    fn item<F: ExactField>(&self, tables: &mut Tables, form: Form, at: usize) -> Read<Decl<F>>
        requires { IsReady self.now }
        ensures { AnswersPart F.limit (IsDeclared F.value self.now.source.now form) (the (item_part form)) self.now at tables.old tables.new result }
    {
        match form {
            Form::Set => self.data_item(tables, ListOf::Elements, at),
            Form::Parameter => self.data_item(tables, ListOf::Entries, at),
            Form::Scalar => self.scalar_item(tables, at),
            Form::Plain => self.plain_item(tables, at),
        }
    }

    /// Reads a set or a parameter, with its domain and its list.
    fn data_item<F: ExactField>(
        &self,
        tables: &mut Tables,
        list: ListOf,
        at: usize,
    ) -> Read<Decl<F>>
        requires { IsReady self.now }
        ensures { AnswersPart F.limit (IsDeclared F.value self.now.source.now (form_of list))
            (the (item_part (form_of list))) self.now at tables.old tables.new result }
    {
        let (named, next) = self.name(tables, at)?;
        let (domain, next) = self.optional_domain(tables, next)?;
        let (items, next) = self.list(tables, list, next)?;
        Ok((declared(named, domain, items), next))
    }

    /// Reads a scalar, with its value.
    fn scalar_item<F: ExactField>(&self, tables: &mut Tables, at: usize) -> Read<Decl<F>>
        requires { IsReady self.now }
        ensures { AnswersPart F.limit (IsDeclared F.value self.now.source.now form_scalar) (the ScalarItem) self.now at tables.old tables.new result }
    {
        let (named, next) = self.name(tables, at)?;
        let (items, next) = self.scalar_value(next)?;
        Ok((declared(named, Vec::new(self.alloc), items), next))
    }

    /// Reads a variable or an equation, with its domain.
    fn plain_item<F: ExactField>(&self, tables: &mut Tables, at: usize) -> Read<Decl<F>>
        requires { IsReady self.now }
        ensures { AnswersPart F.limit (IsDeclared F.value self.now.source.now form_plain) (the PlainItem) self.now at tables.old tables.new result }
    {
        let (named, next) = self.name(tables, at)?;
        let (domain, next) = self.optional_domain(tables, next)?;
        Ok((declared(named, domain, Vec::new(self.alloc)), next))
    }

    /// The place of a further item of a declaration, after the comma or the line end that ends the
    /// one before. After a comma an item is expected; after a line end there is one if a name
    /// follows.
    pub(crate) fn further_item(&self, at: usize) -> Option<usize>
        requires { IsReady self.now }
        ensures { MatchOption result (IsNotFurther self.now at) (λ following. IsFurther self.now at following) }
    {
        if let Some((_, following)) = self.take_if(Terminal::Comma, at) {
            return Some(following);
        }
        let (_, following) = self.take_if(Terminal::Break, at)?;
        if self.is_any_next(&NAMES, following) {
            return Some(following);
        }
        None
    }

    /// The place after the line end that may follow the last item of a declaration.
    pub(crate) fn after_last_item(&self, at: usize) -> usize
        requires { IsReady self.now }
        ensures { IsNotFurther self.now at → IsAfterLast self.now at result }
    {
        match self.take_if(Terminal::Break, at) {
            Some((_, following)) => following,
            None => at,
        }
    }

    /// Reads the items of a declaration.
    fn items<F: ExactField>(
        &self,
        tables: &mut Tables,
        form: Form,
        at: usize,
    ) -> Read<Sequence<Decl<F>>>
        requires { IsReady self.now }
        ensures { AnswersPart F.limit (AreDeclared F.value self.now.source.now form) (the (items_part form)) self.now at tables.old tables.new result }
    {
        let mut items = Vec::new(self.alloc);
        let (first, mut next) = self.item(tables, form, at)?;
        items.push(first)?;
        while let Some(following) = self.further_item(next) {
            let (item, after) = self.item(tables, form, following)?;
            items.push(item)?;
            next = after;
        }
        Ok((Sequence::new(items), self.after_last_item(next)))
    }

    /// Reads a declaration of names of a kind, by its keyword.
    pub(crate) fn declaration<F: ExactField>(
        &self,
        tables: &mut Tables,
        keyword: Terminal,
        kind: DeclKind,
        form: Form,
        at: usize,
    ) -> Read<Act<F>>
        requires { IsReady self.now }
        ensures { AnswersDeclaration keyword F.limit (IsDeclaration F.value self.now.source.now kind form)
            (token keyword · the (items_part form)) self.now at tables.old tables.new result }
    {
        let start = self.following(keyword, at)?;
        let (items, next) = self.items(tables, form, start)?;
        Ok((Act::Declare { kind, items }, next))
    }

    /// Reads a declaration of variables, perhaps with their type before the keyword.
    pub(crate) fn variables<F: ExactField>(&self, tables: &mut Tables, at: usize) -> Read<Act<F>>
        requires { IsReady self.now }
        ensures { AnswersAct F.limit (IsAct F.value self.now.source.now variable_act) (the VariableStatement) self.now at tables.old tables.new result }
    {
        let (kind, next) = self.variable_type(at);
        self.declaration(tables, Terminal::Variable, kind, Form::Plain, next)
    }

    /// Reads a type, if any: what `variable` declares after it.
    fn variable_type(&self, at: usize) -> (DeclKind, usize)
        requires { IsReady self.now }
        ensures { (limit : ℕ) (tables : Tables) (read_state : ReaderState) → Holds self.now tables read_state →
            IsGot limit (IsVariableType self.now.source.now) (Holds self.now tables) (opt (token VariableType)) self.now at tables read_state result.0 result.1 }
    {
        match self.take_if(Terminal::VariableType, at) {
            Some((word, next)) => (variable_kind(self.text(word)), next),
            None => (DeclKind::Free, at),
        }
    }
}

/// What is declared: a name, its domain and its data.
fn declared<F: ExactField>(named: Named, domain: Vec<Option<Named>>, items: Vec<Item<F>>) -> Decl<F>
    ensures { declared_in F.value result ≡ record { named = named; domain = domain.items; items = map (item_in F.value) items.items } }
{
    Decl {
        named,
        domain: Sequence::new(domain),
        items: Sequence::new(items),
    }
}
