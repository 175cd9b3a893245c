//! The check of declarations: names, domains and data.
ghost use Rattle.std.specs.Prelude.{◌≡◌, ◌++◌, ◌∷◌, [], Some, Ok, true, flat_map, is_none, length, map, not, option_map, take_while, IfOk, OnOk};
ghost use Rattle.std.specs.List.{list_all};
ghost use Rattle.gms_set.specs.Expansion.{expanded};
ghost use Rattle.gms_store.specs.Declarations.{content_of, names_of, positions_of};
ghost use Rattle.gms_scope.specs.Names.{positions as positions_in};
ghost use Rattle.gms_check.specs.InnerChanges.{after_declaration, after_item, with_order};
ghost use Rattle.gms_check.specs.InnerChecking.{faulted, known_of, noted, seen, with_facts};
ghost use Rattle.gms_check.specs.CompileErrors.{declaration_errors, errors_of, is_faultless};
ghost use Rattle.gms_ast.specs.declared.declaration.Item.{Item};
ghost use Rattle.gms_ast.specs.declared.word.Named.{Named};
ghost use Rattle.gms_check.specs.DeclarationUses.{are_usable, are_usable_in, domain_use, expansion_uses, has_all_parts, is_continuous, item_uses, kind_uses};
ghost use Rattle.gms_check.specs.Domains.{is_wrong_count};
ghost use Rattle.gms_check.specs.Errors.{first_error, sooner};
ghost use Rattle.gms_check.specs.InnerFaults.{kind_of_fault};
ghost use Rattle.gms_check.specs.Names.{is_variable, may_be_typed, same_domain, same_position};
ghost use Rattle.gms_check.specs.InnerTrials.{taken_back, trial_facts, trial_names};
ghost use Rattle.gms_check.specs.Uses.{failing, naming, placing};

use crate::checker::Checker;
use crate::error::ErrorKind;
use crate::indices::{MOST, is_wrong_count};
use gms_ast::{Decl, DeclKind, Item, Named};
use gms_labels::Place;
use gms_scope::{Data, Known, are_ascending, positions};
use gms_set::{SetError, SetFault, SetFaultOrMemory, expand};
use gq_field::ExactField;
use std::alloc::AllocError;

impl<'s, F: ExactField> Checker<'s, F> {
    /// Checks a declaration of `items`, all of one kind: in order, each item's name, domain and
    /// data. Updates `first`, the statement's first error by place and then by error number.
    /// Discrete variables are an error at the place `at`. The names are declared even if there is
    /// an error, but get their data only if `first` is `None`. The error is out of memory.
    pub fn declaration(
        &mut self,
        at: Place,
        kind: DeclKind,
        items: &[Decl<F>],
    ) -> Result<(), AllocError>
        ensures first { OnOk result ((seen self.new).first
            ≡ sooner (seen self.old).first
            (first_error (errors_of (known_of F.value (seen self.old)) (kind_uses at kind) ++
            declaration_errors (known_of F.value (seen self.old)) kind items.now))) }
        ensures facts { OnOk result (seen self.new
            ≡ record (seen self.old) {
              first = (seen self.new).first;
              facts = after_declaration F.value kind
                  (is_none (seen self.new).first) (seen self.old).facts items.now;
            }) }
    {
        self.require(is_continuous(kind), ErrorKind::Discrete, at);
        let given = self.declared_items(kind, items)?;
        match self.first {
            Some(_) => self.take_out_all(&given),
            None => {
                self.remember_order(kind, items);
                Ok(())
            }
        }
    }

    /// Checks names of a declaration in sequence, and declares them. The result is those that got
    /// their data.
    fn declared_items(&mut self, kind: DeclKind, items: &[Decl<F>]) -> Result<Vec<u32>, AllocError>
        ensures noted { OnOk result (seen self.new
            ≡ record (seen self.old) {
              first = sooner (seen self.old).first
                  (first_error (declaration_errors (known_of F.value (seen self.old)) kind items.now));
              facts = trial_facts F.value
                  (seen self.old).solvers kind (seen self.old).facts items.now;
            }) }
        ensures given { IfOk result (λ given. given.items ≡ trial_names F.value (seen self.old).solvers kind (seen self.old).facts items.now) }
    {
        let mut given = Vec::new(self.alloc);
        for item in items {
            let sound = self.declared_item(kind, item)?;
            if sound {
                given.push(item.named.name)?;
            }
        }
        Ok(given)
    }

    /// Checks a name of a declaration, and declares it. If it has no error it gets its data, and
    /// the result is true.
    fn declared_item(&mut self, kind: DeclKind, item: &Decl<F>) -> Result<bool, AllocError>
        ensures sound { IfOk result (λ sound. sound
            ≡ is_faultless (errors_of (known_of F.value (seen self.old)) (item_uses (known_of F.value (seen self.old)) kind item.now))) }
        ensures noted { IfOk result (λ sound. seen self.new
            ≡ with_facts (noted F.value (seen self.old) (item_uses (known_of F.value (seen self.old)) kind item.now))
            (after_item F.value kind sound (seen self.old).facts item.now)) }
    {
        let before = self.take_first();
        let given = self.item(kind, item)?;
        let sound = self.first.is_none();
        self.merge(before);
        let domain = item.domain.as_slice();
        self.known
            .declare(self.alloc, kind, domain, item.named.name)?;
        if sound {
            self.known.give(self.alloc, item.named.name, &given)?;
        }
        Ok(sound)
    }

    /// Checks a name of a declaration. The result is its data, which have no meaning if they have
    /// an error.
    fn item(&mut self, kind: DeclKind, item: &Decl<F>) -> Result<Data<F>, AllocError>
        ensures noted { OnOk result (seen self.new
            ≡ noted F.value (seen self.old) (item_uses (known_of F.value (seen self.old)) kind item.now)) }
        ensures given { IfOk result (λ given. is_faultless
            (errors_of (known_of F.value (seen self.old)) (item_uses (known_of F.value (seen self.old)) kind item.now)) ≡ true
            → expanded (seen self.old).facts.state (positions_of kind (names_of item.now.domain)) item.now.items ≡ Ok given.items) }
    {
        let positions = positions(self.alloc, kind, item.domain.as_slice())?;
        self.naming(kind, item.named, item.domain.as_slice(), positions.len());
        self.domain_sets(item.domain.as_slice());
        self.parts(positions.len(), item.items.as_slice());
        self.data(&positions, item.items.as_slice())
    }

    /// Checks a name that is declared, with its domain.
    fn naming(&mut self, kind: DeclKind, named: Named, domain: &[Option<Named>], positions: usize)
        requires { positions ≡ length (positions_of kind (names_of domain.now)) }
        ensures { seen self.new ≡ noted F.value (seen self.old) ((named.at, naming kind named.name (names_of domain.now)) ∷ []) }
    {
        let new = self.known.is_unknown(named.name);
        let allowed = new || self.may_be_typed(kind, named.name, domain);
        self.require(allowed, ErrorKind::Redeclared, named.at);
        self.require(positions <= MOST, ErrorKind::WrongArity, named.at);
    }

    /// Whether a declaration may give a type to a variable that is declared before: the variable is
    /// free so far, and the declaration is of variables and has no domain or the variable's own.
    fn may_be_typed(&self, kind: DeclKind, name: u32, domain: &[Option<Named>]) -> bool
        ensures { result ≡ may_be_typed (known_of F.value (seen self.now)) kind name (names_of domain.now) }
    {
        self.known.store().is_free(name)
            && declares_variables(kind)
            && (domain.is_empty() || self.is_domain_of(name, domain))
    }

    /// Whether a domain is that of a name, aliases as their sets.
    fn is_domain_of(&self, name: u32, domain: &[Option<Named>]) -> bool
        ensures { result ≡ same_domain (seen self.now).facts.state (names_of domain.now) (positions_in (seen self.now).facts.state name) }
    {
        if self.known.position_count(name) != domain.len() {
            return false;
        }
        for (i, written) in domain.iter().enumerate() {
            let position = self.known.position(name, i).flatten();
            if !self.is_same_position(*written, position) {
                return false;
            }
        }
        true
    }

    /// Whether a written position equals another: both are of one set, or both of any label.
    fn is_same_position(&self, written: Option<Named>, position: Option<u32>) -> bool
        ensures { result ≡ same_position (seen self.now).facts.state (option_map (λ (named : Named). named.name) written) position }
    {
        match (written, position) {
            (None, None) => true,
            (Some(named), Some(set)) => {
                self.known.store().base(named.name) == self.known.store().base(set)
            }
            _ => false,
        }
    }

    /// Checks the sets of a domain.
    fn domain_sets(&mut self, domain: &[Option<Named>])
        ensures { seen self.new ≡ noted F.value (seen self.old) (flat_map domain_use domain.now) }
    {
        for position in domain {
            if let Some(named) = position {
                self.domain_set(*named);
            }
        }
    }

    /// Checks a set of a domain.
    fn domain_set(&mut self, named: Named)
        ensures { seen self.new ≡ noted F.value (seen self.old) (domain_use (Some named)) }
    {
        let index_set = self.known.is_index_set(named.name);
        let dynamic = self.known.is_dynamic(named.name);
        self.require_known(named.name, named.at);
        self.require(index_set, ErrorKind::WrongKind, named.at);
        self.require(!dynamic, ErrorKind::DynamicDomain, named.at);
    }

    /// Checks that each item of data has as many parts as there are positions.
    fn parts(&mut self, expected: usize, items: &[Item<F>])
        ensures { seen self.new
            ≡ noted F.value (seen self.old) (map (λ (item : Item F). (item.at, placing expected (length item.parts))) items.now) }
    {
        for item in items {
            let miscounted = is_wrong_count(expected, item.parts.len());
            self.require(!miscounted, ErrorKind::WrongArity, item.at);
        }
    }

    /// Checks the elements that items of data give at these positions. The result is the elements,
    /// which have no meaning if they have an error.
    fn data(&mut self, positions: &[Option<u32>], items: &[Item<F>]) -> Result<Data<F>, AllocError>
        ensures noted { OnOk result (seen self.new
            ≡ noted F.value (seen self.old) (expansion_uses (known_of F.value (seen self.old)) positions.now items.now)) }
        ensures given { IfOk result (λ given. are_usable (known_of F.value (seen self.old)) positions.now ≡ true
            → list_all (has_all_parts positions.now) items.now ≡ true
            → expansion_uses (known_of F.value (seen self.old)) positions.now items.now ≡ []
            → expanded (seen self.old).facts.state positions.now items.now ≡ Ok given.items) }
    {
        if !are_usable(&self.known, positions) {
            return Ok(Vec::new(self.alloc));
        }
        let whole = first_whole(positions.len(), items);
        match expand(self.alloc, &items[..whole], positions, self.known.store()) {
            Ok(given) => Ok(given),
            Err(SetFaultOrMemory::Memory) => Err(AllocError),
            Err(SetFaultOrMemory::Fault(fault)) => {
                self.data_fault(fault);
                Ok(Vec::new(self.alloc))
            }
        }
    }

    /// Remembers the error of data.
    fn data_fault(&mut self, fault: SetFault)
        ensures { seen self.new ≡ noted F.value (seen self.old) ((fault.at, failing fault.error) ∷ []) }
    {
        self.report(kind_of_fault(fault.error), fault.at);
    }

    /// Removes the data of these names.
    fn take_out_all(&mut self, names: &[u32]) -> Result<(), AllocError>
        ensures { OnOk result (seen self.new ≡ with_facts (seen self.old) (taken_back (seen self.old).facts names.now)) }
    {
        for name in names {
            self.known.take_out(self.alloc, *name)?;
        }
        Ok(())
    }

    /// Remembers which sets have their labels in another order than that of all labels.
    fn remember_order(&mut self, kind: DeclKind, items: &[Decl<F>])
        ensures { seen self.new ≡ with_facts (seen self.old) (with_order kind (seen self.old).facts items.now) }
    {
        if kind != DeclKind::Set {
            return;
        }
        for item in items {
            if !are_ascending(item.items.as_slice()) {
                self.known.set_unordered(item.named.name);
            }
        }
    }
}

/// Whether data can be given at these positions: there are at most 10, and their sets can be in a
/// domain.
fn are_usable<F: ExactField>(known: &Known<F>, positions: &[Option<u32>]) -> bool
    ensures { result ≡ are_usable_in known.now.state positions.now }
{
    if positions.len() > MOST {
        return false;
    }
    for position in positions {
        if let Some(set) = position
            && !known.is_index_set(*set)
        {
            return false;
        }
    }
    true
}

/// The compile error for an error of data.
fn kind_of_fault(error: SetError) -> ErrorKind
    ensures { result ≡ kind_of_fault error }
{
    match error {
        SetError::Outside => ErrorKind::DomainOfLabel,
        SetError::BadRange | SetError::Repeated | SetError::Full => ErrorKind::DataFault,
    }
}

/// Whether a declaration is of names whose values are continuous, or of no variables.
fn is_continuous(kind: DeclKind) -> bool
    ensures { result ≡ is_continuous kind }
{
    !matches!(kind, DeclKind::Discrete)
}

/// Whether a declaration is one of variables.
fn declares_variables(kind: DeclKind) -> bool
    ensures { result ≡ is_variable (content_of kind) }
{
    matches!(
        kind,
        DeclKind::Free | DeclKind::Positive | DeclKind::Negative | DeclKind::Discrete
    )
}

/// How many of the first items have `expected` parts.
fn first_whole<F>(expected: usize, items: &[Item<F>]) -> usize
    ensures { result ≡ length (take_while (λ (item : Item F). not (is_wrong_count expected (length item.parts))) items.now) }
{
    for (i, item) in items.iter().enumerate() {
        if is_wrong_count(expected, item.parts.len()) {
            return i;
        }
    }
    items.len()
}
