//! The entries of a table as they are found, and the rows and headings that they have.
ghost use Rattle.std.specs.Prelude.{◌≡◌, ◌++◌, ◌∷◌, [], IfOk, OnOk};
ghost use Rattle.gms_table.specs.InnerGiven.{is_given};

use crate::entry::Entry;
use std::alloc::{AllocError, Global};
use std::collections::BTreeSet;
use std::marker::Model;

/// The labels of a row and of a heading, by their numbers.
#[derive(PartialEq, Eq, PartialOrd, Ord, Drop)]
struct Cell {
    row: Vec<u32>,
    column: Vec<u32>,
}

impl Cell {
    /// The cell of these labels.
    fn new(alloc: Global, row: &[u32], column: &[u32]) -> Result<Cell, AllocError>
        ensures row { IfOk result (λ cell. cell.row.items ≡ row.now) }
        ensures column { IfOk result (λ cell. cell.column.items ≡ column.now) }
    {
        Ok(Cell {
            row: Vec::from_slice(alloc, row)?,
            column: Vec::from_slice(alloc, column)?,
        })
    }
}

/// The entries found so far. The view is their list.
#[derive(Drop)]
pub(crate) struct Entries<F> {
    entries: Vec<Entry<F>>,
    cells: BTreeSet<Cell>,
}

impl<F> Model for Entries<F> {
    ghost use Rattle.std.specs.Prelude.{List};
    ghost use Rattle.gms_table.specs.declared.entry.Entry.{Entry};
    ghost use Rattle.gms_table.specs.InnerCells.{AreCellsOf};

    ghost Value = { List (Entry F) };

    ghost view = { λ e. e.entries.items };

    ghost invariant = { λ e. AreCellsOf e.entries.items e.cells.keys };
}

impl<F: Drop> Entries<F> {
    /// No entries.
    pub(crate) fn new(alloc: Global) -> Entries<F>
        ensures { result ≡ [] }
    {
        Entries {
            entries: Vec::new(alloc),
            cells: BTreeSet::new(alloc),
        }
    }

    /// Whether an entry has these labels.
    pub(crate) fn has(&self, alloc: Global, row: &[u32], column: &[u32]) -> Result<bool, AllocError>
        ensures { IfOk result (λ given. given ≡ is_given self.now row.now column.now) }
    {
        let cell = Cell::new(alloc, row, column)?;
        Ok(self.cells.contains(&cell))
    }

    /// Adds an entry at the end.
    pub(crate) fn push(&mut self, alloc: Global, entry: Entry<F>) -> Result<(), AllocError>
        ensures { OnOk result (self.new ≡ self.old ++ entry ∷ []) }
    {
        let cell = Cell::new(alloc, entry.row.as_slice(), entry.column.as_slice())?;
        self.entries.push(entry)?;
        match self.cells.insert(cell) {
            Ok(_) => Ok(()),
            Err(failed) => {
                self.entries.pop();
                Err(failed.into())
            }
        }
    }

    /// The entries as a list, in order.
    pub(crate) fn into_vec(self) -> Vec<Entry<F>>
        ensures { result.items ≡ self }
    {
        let Entries { entries, cells: _ } = self;
        entries
    }
}
