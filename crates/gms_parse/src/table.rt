//! Tables: a parameter whose data are in lines with headings.
ghost use Rattle.std.specs.Prelude.{◌≡◌, ◌≤◌, ◌++◌, map, All, IfOk, OnOk, MatchResult, string_len};
ghost use Rattle.gms_grammar.specs.Grammar.{the};
ghost use Rattle.gms_grammar.specs.GamsGrammar.{TableStatement};
ghost use Rattle.gms_parse.specs.declared.fault.SourceFaultOrMemory.TheVariants.{Memory};
ghost use Rattle.gms_parse.specs.Faults.{fault_of_table};
ghost use Rattle.gms_parse.specs.Declarations.{table_act};
ghost use Rattle.gms_parse.specs.ReadStates.{ends_statement};
ghost use Rattle.gms_parse.specs.InnerReadings.{IsReady, IsLines, kind_of, seen_from, AnswersStatement};
ghost use Rattle.gms_parse.specs.Tables.{labelled_positions, item_of_entry};
ghost use Rattle.gms_parse.specs.InnerMeanings.{IsAct};
ghost use Rattle.gms_parse.specs.InnerTables.{IsTableRead, IsTableRefused};

use crate::fault::{SourceError, SourceFaultOrMemory};
use crate::reader::{Read, Reader, Tables};
use crate::statement::KEYWORDS;
use gms_ast::{Act, Decl, DeclKind, Item, Sequence};
use gms_expressions::SyntaxError;
use gms_grammar::Terminal;
use gms_labels::{Labels, Place};
use gms_table::{Entry, TableError, TableFaultOrMemory, TableLine, table};
use gq_extended::Ext;
use gq_field::ExactField;
use std::alloc::{AllocError, Global};

/// The fault of a table whose name has this place.
fn table_fault(fault: TableFaultOrMemory, name: Place) -> SourceFaultOrMemory
    ensures { result ≡ fault_of_table fault name }
{
    match fault {
        TableFaultOrMemory::Memory => SourceFaultOrMemory::Memory,
        TableFaultOrMemory::Fault(fault) => match fault.error {
            TableError::NoColumn => SourceFaultOrMemory::at(
                SourceError::Table(TableError::NoColumn),
                fault.at,
            ),
            TableError::TwoColumns => SourceFaultOrMemory::at(
                SourceError::Table(TableError::TwoColumns),
                fault.at,
            ),
            TableError::RepeatedEntry => SourceFaultOrMemory::at(
                SourceError::Table(TableError::RepeatedEntry),
                fault.at,
            ),
            TableError::BadRow => SourceFaultOrMemory::at(
                SourceError::Table(TableError::BadRow),
                fault.at,
            ),
            TableError::NoHeading => SourceFaultOrMemory::at(
                SourceError::Table(TableError::NoHeading),
                name,
            ),
            TableError::Labels => SourceFaultOrMemory::at(
                SourceError::Syntax(SyntaxError::TooManyLabels),
                fault.at,
            ),
        },
    }
}

/// Adds positions to others, with one of these labels at each.
fn add_positions(
    alloc: Global,
    parts: &mut Vec<Sequence<u32>>,
    labels: &[u32],
) -> Result<(), AllocError>
    ensures { OnOk result (parts.new.items ≡ parts.old.items ++ labelled_positions labels.now) }
{
    for label in labels {
        parts.push(Sequence::new(vec![in alloc; *label]?))?;
    }
    Ok(())
}

/// The positions of an item with one label at each: those of the row, then those of the heading.
fn positions(
    alloc: Global,
    row: &[u32],
    column: &[u32],
) -> Result<Sequence<Sequence<u32>>, AllocError>
    ensures { IfOk result (λ parts. parts ≡ labelled_positions (row.now ++ column.now)) }
{
    let mut parts = Vec::new(alloc);
    add_positions(alloc, &mut parts, row)?;
    add_positions(alloc, &mut parts, column)?;
    Ok(Sequence::new(parts))
}

/// The item of data that an entry of a table is.
fn item_of<F: ExactField>(alloc: Global, entry: &Entry<F>) -> Result<Item<F>, AllocError>
    ensures { IfOk result (λ item. item ≡ item_of_entry entry.now) }
{
    Ok(Item {
        at: entry.at,
        parts: positions(alloc, entry.row.as_slice(), entry.column.as_slice())?,
        value: Some(Ext::Number(entry.value)),
        bad_range: false,
    })
}

/// The items of data that the entries of a table are.
fn items_of<F: ExactField>(
    alloc: Global,
    entries: &[Entry<F>],
) -> Result<Sequence<Item<F>>, AllocError>
    ensures { IfOk result (λ items. items ≡ map item_of_entry entries.now) }
{
    let mut items = Vec::new(alloc);
    for entry in entries {
        items.push(item_of(alloc, entry)?)?;
    }
    Ok(Sequence::new(items))
}

impl<'s> Reader<'s> {
    /// Reads the lines of a table.
    fn table_lines(&self, at: usize) -> Read<Vec<TableLine>>
        requires { IsReady self.now }
        ensures { MatchResult result (λ r. IsLines self.now at r.0.items r.1) (λ e. e ≡ Memory) }
    {
        let mut lines = Vec::new(self.alloc);
        let mut next = at;
        while let Some((token, following)) = self.take_if(Terminal::TableLine, next) {
            let text = String::from_str(self.alloc, self.ascii(token, self.text(token))?)?;
            lines.push(TableLine {
                text,
                line: token.at.line,
            })?;
            next = following;
        }
        Ok((lines, next))
    }

    /// Whether a statement that was read up to here may end: the next token is a semicolon, the end
    /// of the source, or a keyword.
    fn ends_statement(&self, at: usize) -> bool
        requires { IsReady self.now }
        ensures { result ≡ ends_statement (kind_of (seen_from self.now at)) }
    {
        matches!(self.next(at), Terminal::Semicolon | Terminal::End)
            || self.is_any_next(&KEYWORDS, at)
    }

    /// The items of a table, by its name's place and its lines, which end at this place. A table
    /// without lines is a fault of its name, unless its statement continues in another way.
    fn table_items<F: ExactField>(
        &self,
        labels: &mut Labels,
        name: Place,
        lines: &[TableLine],
        at: usize,
    ) -> Result<Sequence<Item<F>>, SourceFaultOrMemory>
        requires ready { IsReady self.now }
        requires short { All (λ line. string_len line.text ≤ 32768) lines.now }
        ensures { MatchResult result
            (λ items. IsTableRead F.limit F.value lines.now (ends_statement (kind_of (seen_from self.now at))) labels.old labels.new items)
            (λ e. IsTableRefused F.limit lines.now (ends_statement (kind_of (seen_from self.now at))) labels.old name e) }
    {
        if lines.is_empty() && !self.ends_statement(at) {
            return Ok(Sequence::new(Vec::new(self.alloc)));
        }
        match table(self.alloc, lines, labels) {
            Ok(entries) => Ok(items_of(self.alloc, entries.as_slice())?),
            Err(fault) => Err(table_fault(fault, name)),
        }
    }

    /// Reads a table.
    pub(crate) fn table_statement<F: ExactField>(
        &self,
        tables: &mut Tables,
        at: usize,
    ) -> Read<Act<F>>
        requires { IsReady self.now }
        ensures { AnswersStatement F.limit (IsAct F.value self.now.source.now table_act) (the TableStatement) self.now at tables.old tables.new result }
    {
        let start = self.following(Terminal::Table, at)?;
        let name = self.place(start);
        let (named, next) = self.name(tables, start)?;
        let (domain, next) = self.domain(tables, next)?;
        let (lines, next) = self.table_lines(next)?;
        let items = self.table_items(&mut tables.labels, name, lines.as_slice(), next)?;
        let mut declared = Vec::new(self.alloc);
        declared.push(Decl {
            named,
            domain: Sequence::new(domain),
            items,
        })?;
        let act = Act::Declare {
            kind: DeclKind::Table,
            items: Sequence::new(declared),
        };
        Ok((act, next))
    }
}
