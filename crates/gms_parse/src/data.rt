//! Data between slashes: elements with their labels and ranges, and values.
ghost use Rattle.std.specs.Prelude.{◌≡◌, ◌<◌, ◌||◌, ℕ, [], ◌∷◌, length, option_map, MatchResult, if◌then◌else◌};
ghost use Rattle.gms_ast.specs.StatementView.{extended_in, item_in};
ghost use Rattle.gms_parse.specs.DataLists.{opposed};
ghost use Rattle.gms_parse.specs.declared.data.ListOf.TheVariants.{Elements as list_elements, Entries as list_entries};
ghost use Rattle.gms_set.specs.Ranges.{is_range, members};
ghost use Rattle.gms_grammar.specs.Grammar.{the, opt, ◌·◌};
ghost use Rattle.gms_grammar.specs.GamsGrammar.{Range as RangePart, ElementPart, Element as ElementOf, Entry, Value, token, any_of};
ghost use Rattle.gms_grammar.specs.declared.terminal.Terminal.TheVariants.{Slash, Equals, Number, Infinity};
ghost use Rattle.gms_lex.specs.TokenTexts.{token_text, unquoted, IsPlaced};
ghost use Rattle.gms_expressions.specs.ExpressionTrees.{second_in};
ghost use Rattle.gms_parse.specs.ReadStates.{ReaderState};
ghost use Rattle.gms_parse.specs.InnerReadings.{IsReady, IsGot, Refuses, seen_from, Has, Starless, Tableless, Stays, AnswersData, AnswersList, AnswersPlain};
ghost use Rattle.gms_parse.specs.InnerMeanings.{IsAdded, IsPart, IsElement, IsGiven, IsUnsigned, IsListed, AreListed, IsScalarValue, IsLabelToken, IsEnteredRange, IsNotEnteredRange, listed_part, list_part};

use crate::fault::SourceFaultOrMemory;
use crate::reader::{Read, Reader, Tables};
use gms_ast::{Item, Sequence};
use gms_grammar::Terminal;
use gms_labels::Place;
use gms_lex::{Token, unquoted};
use gms_set::{SetFaultOrMemory, range};
use gq_extended::Ext;
use gq_field::ExactField;

/// The contents between the slashes of a list.
#[derive(Clone, Copy)]
pub(crate) enum ListOf {
    /// Elements.
    Elements,
    /// Elements with values.
    Entries,
}

/// The labels at one position of an element.
#[derive(Drop)]
struct Part {
    labels: Vec<u32>,
    /// Whether a range among them is none. It gives no label.
    bad_range: bool,
}

/// An element of a list.
#[derive(Drop)]
struct Element {
    /// The place of its first character.
    at: Place,
    /// For each position its labels.
    parts: Vec<Sequence<u32>>,
    /// Whether a range in it is none.
    bad_range: bool,
}

/// A value, or the one of the other sign.
fn signed<F: ExactField>(minus: bool, value: Ext<F>) -> Ext<F>
    ensures { extended_in F.value result ≡ (if minus then opposed (extended_in F.value value) else extended_in F.value value) }
{
    if !minus {
        return value;
    }
    match value {
        Ext::Number(number) => Ext::Number(number.neg()),
        Ext::PlusInf => Ext::MinusInf,
        Ext::MinusInf => Ext::PlusInf,
        Ext::Na => Ext::Na,
    }
}

/// The item of data that an element is, with a value or without.
fn item_of<F: ExactField>(element: Element, value: Option<Ext<F>>) -> Item<F>
    ensures { item_in F.value result ≡
        record {
          at = element.at;
          parts = element.parts.items;
          value = option_map
              (extended_in F.value) value;
          bad_range = element.bad_range;
        } }
{
    Item {
        at: element.at,
        parts: Sequence::new(element.parts),
        value,
        bad_range: element.bad_range,
    }
}

impl<'s> Reader<'s> {
    /// The text of a label of a list.
    pub(crate) fn label_text(&self, token: Token) -> Result<&'s str, SourceFaultOrMemory>
        requires { IsLabelToken self.now.source.now token }
        ensures { MatchResult result (λ text. text.now ≡ unquoted (token_text self.now.source.now token)) (λ e. ⊥) }
    {
        self.ascii(token, unquoted(self.text(token)))
    }

    /// Adds the members of the range between two labels, which are entered; an invalid range has
    /// none.
    fn add_members(
        &self,
        tables: &mut Tables,
        part: &mut Part,
        first: Token,
        last: Token,
    ) -> Result<(), SourceFaultOrMemory>
        requires first { IsLabelToken self.now.source.now first }
        requires last { IsLabelToken self.now.source.now last }
        ensures names { tables.new.names ≡ tables.old.names }
        ensures range { MatchResult result
            (λ _. IsEnteredRange self.now.source.now tables.old tables.new part.old part.new first last)
            (λ e. IsNotEnteredRange self.now.source.now tables.old first last e) }
    {
        let from = self.label_text(first)?;
        let to = self.label_text(last)?;
        match range(self.alloc, from, to) {
            Ok(members) => {
                for member in members.iter() {
                    part.labels
                        .push(self.entered(&mut tables.labels, last, member.as_str())?)?;
                }
                Ok(())
            }
            Err(SetFaultOrMemory::Fault(_)) => {
                part.bad_range = true;
                Ok(())
            }
            Err(SetFaultOrMemory::Memory) => Err(SourceFaultOrMemory::Memory),
        }
    }

    /// Reads a label or a range, and adds the label or the members.
    fn add_range(
        &self,
        tables: &mut Tables,
        part: &mut Part,
        at: usize,
    ) -> Result<usize, SourceFaultOrMemory>
        requires { IsReady self.now }
        ensures { (limit : ℕ) (read_state : ReaderState) → Has self.now tables.old read_state → Starless read_state → Tableless read_state →
            MatchResult result
            (λ next. IsGot limit (λ sense tree x. IsAdded self.now.source.now sense tree part.old x)
            (Stays self.now tables.new read_state) (the RangePart) self.now at tables.new read_state part.new next)
            (λ e. Refuses limit self.now.source.now (the RangePart) read_state (seen_from self.now at) e) }
    {
        let (first, next) = self.take(Terminal::Label, at)?;
        let Some((_, following)) = self.take_if(Terminal::Star, next) else {
            let text = self.label_text(first)?;
            part.labels
                .push(self.entered(&mut tables.labels, first, text)?)?;
            return Ok(next);
        };
        let (last, next) = self.take(Terminal::Label, following)?;
        self.add_members(tables, part, first, last)?;
        Ok(next)
    }

    /// One position of an element: a label or a range, or several in parentheses.
    fn element_part(&self, tables: &mut Tables, at: usize) -> Read<Part>
        requires { IsReady self.now }
        ensures { (limit : ℕ) → AnswersData limit (IsPart self.now.source.now) (the ElementPart) self.now at tables.old tables.new result }
    {
        let mut part = Part {
            labels: Vec::new(self.alloc),
            bad_range: false,
        };
        if !self.is_next(Terminal::LeftParen, at) {
            let next = self.add_range(tables, &mut part, at)?;
            return Ok((part, next));
        }
        let (inner, start) = self.enter(at)?;
        let mut next = inner.add_range(tables, &mut part, start)?;
        while let Some((_, following)) = inner.take_if(Terminal::Comma, next) {
            next = inner.add_range(tables, &mut part, following)?;
        }
        Ok((part, self.following(Terminal::RightParen, next)?))
    }

    /// Reads an element.
    fn element(&self, tables: &mut Tables, at: usize) -> Read<Element>
        requires { IsReady self.now }
        ensures { (limit : ℕ) → AnswersData limit (IsElement self.now.source.now) (the ElementOf) self.now at tables.old tables.new result }
    {
        let mut parts = Vec::new(self.alloc);
        let (first, mut next) = self.element_part(tables, at)?;
        let mut bad_range = first.bad_range;
        parts.push(Sequence::new(first.labels))?;
        while let Some((_, following)) = self.take_if(Terminal::Dot, next) {
            let (part, after) = self.element_part(tables, following)?;
            bad_range |= part.bad_range;
            parts.push(Sequence::new(part.labels))?;
            next = after;
        }
        let element = Element {
            at: self.place(at),
            parts,
            bad_range,
        };
        Ok((element, next))
    }

    /// Reads a value.
    pub(crate) fn value<F: ExactField>(&self, at: usize) -> Read<Ext<F>>
        requires { IsReady self.now }
        ensures { AnswersPlain F.limit (IsGiven F.value self.now.source.now) (the Value) self.now at result }
    {
        if let Some((_, next)) = self.take_if(Terminal::NotAvailable, at) {
            return Ok((Ext::Na, next));
        }
        let (minus, start) = self.sign(at);
        let (value, next) = self.unsigned(start)?;
        Ok((signed(minus, value), next))
    }

    /// Reads a number or an infinity.
    fn unsigned<F: ExactField>(&self, at: usize) -> Read<Ext<F>>
        requires { IsReady self.now }
        ensures { AnswersPlain F.limit (IsUnsigned F.value self.now.source.now) (any_of (Number ∷ Infinity ∷ [])) self.now at result }
    {
        if let Some((_, next)) = self.take_if(Terminal::Infinity, at) {
            return Ok((Ext::PlusInf, next));
        }
        let (token, next) = self.take(Terminal::Number, at)?;
        let number = self.number(token)?;
        Ok((Ext::Number(number), next))
    }

    /// Reads the value of an entry, perhaps after `=`.
    fn entry_value<F: ExactField>(&self, at: usize) -> Read<Ext<F>>
        requires { IsReady self.now }
        ensures { AnswersPlain F.limit (λ sense tree v. IsGiven F.value self.now.source.now sense (second_in tree) v)
            (opt (token Equals) · the Value) self.now at result }
    {
        match self.take_if(Terminal::Equals, at) {
            Some((_, following)) => self.value(following),
            None => self.value(at),
        }
    }

    /// Reads an item of a list.
    fn listed_item<F: ExactField>(
        &self,
        tables: &mut Tables,
        list: ListOf,
        at: usize,
    ) -> Read<Item<F>>
        requires { IsReady self.now }
        ensures { AnswersData F.limit (IsListed F.value self.now.source.now list) (the (listed_part list)) self.now at tables.old tables.new result }
    {
        match list {
            ListOf::Elements => self.lone_element(tables, at),
            ListOf::Entries => self.entry(tables, at),
        }
    }

    /// Reads an element of a set, which has no value.
    fn lone_element<F: ExactField>(&self, tables: &mut Tables, at: usize) -> Read<Item<F>>
        requires { IsReady self.now }
        ensures { AnswersData F.limit (IsListed F.value self.now.source.now list_elements) (the ElementOf) self.now at tables.old tables.new result }
    {
        let (element, next) = self.element(tables, at)?;
        Ok((item_of(element, None), next))
    }

    /// Reads an entry of a parameter.
    fn entry<F: ExactField>(&self, tables: &mut Tables, at: usize) -> Read<Item<F>>
        requires { IsReady self.now }
        ensures { AnswersData F.limit (IsListed F.value self.now.source.now list_entries) (the Entry) self.now at tables.old tables.new result }
    {
        let (element, next) = self.element(tables, at)?;
        let (value, next) = self.entry_value(next)?;
        Ok((item_of(element, Some(value)), next))
    }

    /// Reads a list between slashes, if any.
    pub(crate) fn list<F: ExactField>(
        &self,
        tables: &mut Tables,
        list: ListOf,
        at: usize,
    ) -> Read<Vec<Item<F>>>
        requires { IsReady self.now }
        ensures { AnswersList F.limit (AreListed F.value self.now.source.now list)
            (opt (token Slash · the (list_part list) · token Slash)) self.now at tables.old tables.new result }
    {
        let mut items = Vec::new(self.alloc);
        let Some((_, start)) = self.take_if(Terminal::Slash, at) else {
            return Ok((items, at));
        };
        let (first, mut next) = self.listed_item(tables, list, start)?;
        items.push(first)?;
        while let Some(following) = self.after_separator(next) {
            let (item, after) = self.listed_item(tables, list, following)?;
            items.push(item)?;
            next = after;
        }
        Ok((items, self.following(Terminal::Slash, next)?))
    }

    /// Reads a value between slashes, if any: an item without positions.
    pub(crate) fn scalar_value<F: ExactField>(&self, at: usize) -> Read<Vec<Item<F>>>
        requires { IsReady self.now }
        ensures { AnswersPlain F.limit (IsScalarValue F.value self.now.source.now) (opt (token Slash · the Value · token Slash)) self.now at result }
    {
        let mut items = Vec::new(self.alloc);
        let Some((_, following)) = self.take_if(Terminal::Slash, at) else {
            return Ok((items, at));
        };
        let (value, next) = self.value(following)?;
        items.push(Item {
            at: self.place(following),
            parts: Sequence::new(Vec::new(self.alloc)),
            value: Some(value),
            bad_range: false,
        })?;
        Ok((items, self.following(Terminal::Slash, next)?))
    }
}
