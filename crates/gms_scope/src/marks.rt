//! Marks of the names of a program.
ghost use Rattle.std.specs.Prelude.{◌≡◌, false, true, replicate, slice_set, IfOk};
ghost use Rattle.gms_scope.specs.Facts.{marked};

use std::alloc::{AllocError, Global};
use std::marker::Model;

/// A mark for each name of a program, by the number of the name: whether the name is marked.
#[derive(Drop)]
pub struct Marks {
    marks: Vec<bool>,
}

impl Model for Marks {
    ghost use Rattle.std.specs.Prelude.{List, Bool};

    ghost Value = { List Bool };

    ghost view = { λ m. m.marks.items };
}

impl Marks {
    /// Marks for the names 0 to `names - 1` of a program, none of which is marked. The error is out
    /// of memory.
    pub fn new(alloc: Global, names: u32) -> Result<Marks, AllocError>
        ensures { IfOk result (λ marks. marks ≡ replicate names false) }
    {
        let mut marks = Vec::new(alloc);
        for _ in 0..names {
            marks.push(false)?;
        }
        Ok(Marks { marks })
    }

    /// Marks a name. The call changes nothing if the program does not have the name.
    pub fn set(&mut self, name: u32)
        ensures { self.new ≡ slice_set self.old name true }
    {
        let at = name as usize;
        if at < self.marks.len() {
            self.marks[at] = true;
        }
    }

    /// Whether a name is marked; false if the program does not have the name.
    pub fn is_set(&self, name: u32) -> bool
        ensures { result ≡ marked self.now name }
    {
        match self.marks.get(name as usize) {
            Some(mark) => *mark,
            None => false,
        }
    }
}
