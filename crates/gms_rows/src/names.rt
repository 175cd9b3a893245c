//! Names without repetition, and entries by their numbers.
ghost use Rattle.std.specs.Prelude.{◌≡◌, ◌<◌, ℕ, [], length, slice_index_or, OnOk};
ghost use Rattle.gms_rows.specs.InnerContracts.{with_once};

use std::alloc::{AllocError, Global};
use std::marker::Model;

/// Names without repetition, in the order in which they were added. A mark tells whether a name is
/// among them, so that adding one takes the same time however many there are.
#[derive(Drop)]
pub(crate) struct Names {
    names: Vec<u32>,
    marks: Vec<bool>,
}

impl Model for Names {
    ghost use Rattle.std.specs.Prelude.{List, ℕ};
    ghost use Rattle.gms_rows.specs.InnerContracts.{AreMarked};

    ghost Value = { List ℕ };

    ghost view = { λ n. n.names.items };

    ghost invariant = { λ n. AreMarked n.marks.items n.names.items };
}

impl Names {
    /// No names.
    pub(crate) fn new(alloc: Global) -> Names
        ensures { result ≡ [] }
    {
        Names {
            names: Vec::new(alloc),
            marks: Vec::new(alloc),
        }
    }

    /// The names.
    pub(crate) fn as_slice(&self) -> &[u32]
        ensures { result.now ≡ self.now }
    {
        self.names.as_slice()
    }

    /// The names.
    pub(crate) fn into_vec(self) -> Vec<u32>
        ensures { result.items ≡ self }
    {
        let Names { names, marks } = self;
        drop(marks);
        names
    }

    /// Adds a name at the end, if it is not among them.
    pub(crate) fn push_once(&mut self, name: u32) -> Result<(), AllocError>
        ensures { OnOk result (self.new ≡ with_once self.old name) }
    {
        reach(&mut self.marks, name, false)?;
        let at = name as usize;
        if self.marks[at] {
            return Ok(());
        }
        self.names.push(name)?;
        self.marks[at] = true;
        Ok(())
    }
}

/// Extends a list so that the number of a name has an entry: the new entries are all `same`.
pub(crate) fn reach<T: Copy>(list: &mut Vec<T>, name: u32, same: T) -> Result<(), AllocError>
    ensures there { OnOk result (name < length list.new.items) }
    ensures same { (n : ℕ) → slice_index_or list.new.items n same ≡ slice_index_or list.old.items n same }
{
    let count = name as usize + 1;
    for _ in list.len()..count {
        list.push(same)?;
    }
    Ok(())
}
