//! A finite map from tuples.
ghost use Rattle.std.specs.Prelude.{◌≡◌, OnOk, OnErr};
ghost use Rattle.std.specs.FinMap as finite;
ghost use Rattle.gms_tuple.specs.TupleOrder.{IsOrdered};
ghost use Rattle.gms_store.specs.State.{entries_after_write};

use crate::values::Values;
use gms_tuple::{Tuple, TupleSet};
use std::alloc::{AllocError, Global};
use std::marker::Model;

/// A finite map from tuples to values, with the set of the tuples at which it has a value.
pub struct Entries<X> {
    values: Values<X>,
    given: TupleSet,
}

// Written out, so that it is proved here once, and not in each crate that drops such a value.
impl<X: Drop> Drop for Entries<X> {
    fn drop(self) {
        let Self {
            values: _,
            given: _,
        } = self;
    }
}

impl<X> Model for Entries<X> {
    ghost use Rattle.std.specs.Prelude.{◌≡◌, ℕ};
    ghost use Rattle.std.specs.Coded.{coded_list, coded_ℕ};
    ghost use Rattle.std.specs.FinMap as finite;
    ghost use Rattle.gms_tuple.specs.TupleOrder.{tuple_cmp};

    ghost Value = { finite.FinMap tuple_cmp X };

    ghost coded = { finite.code (coded_list coded_ℕ) X.code };

    ghost view = { λ e. e.values };

    ghost invariant = { λ e. e.given ≡ finite.keys e.values };
}

impl<X: Copy> Entries<X> {
    /// The map without entries.
    pub fn new(alloc: Global) -> Entries<X>
        ensures { result ≡ finite.empty }
    {
        Entries {
            values: Values::new(alloc),
            given: TupleSet::new(alloc),
        }
    }

    /// The value at a tuple; `None` if the map has no value there.
    pub fn get(&self, t: &Tuple) -> Option<X>
        ensures { result ≡ finite.get self.now t.now }
    {
        self.values.get(t)
    }

    /// The value at a tuple; `None` if the map has no value there. `place` affects speed only: the
    /// search is faster if it is the index, from 0, of the tuple among those that have a value.
    pub fn get_near(&self, t: &Tuple, place: usize) -> Option<X>
        ensures { result ≡ finite.get self.now t.now }
    {
        self.values.get_near(t, place)
    }

    /// The tuples at which the map has a value, in the order of tuples: by the numbers of the first
    /// labels that differ.
    pub fn given(&self) -> &TupleSet
        ensures value { result.now ≡ finite.keys self.now }
        ensures ordered { IsOrdered result.now }
    {
        let _given = self.given.len();
        &self.given
    }

    /// Puts a value at a tuple, in place of the value there, if any. If out of memory, the map is
    /// unchanged.
    pub fn insert(&mut self, alloc: Global, t: &Tuple, value: X) -> Result<(), AllocError>
        ensures ok { OnOk result (self.new ≡ finite.insert self.old t.now value) }
        ensures err { OnErr result (self.new ≡ self.old) }
    {
        let member = t.copy(alloc)?;
        let new = self.given.insert(alloc, member)?;
        match self.values.insert(alloc, t, value) {
            Ok(()) => Ok(()),
            Err(failed) => {
                if new {
                    self.given.remove(t);
                }
                Err(failed)
            }
        }
    }

    /// Puts `value` at a tuple if `keep`, in place of the value there, if any. Otherwise removes
    /// the value at the tuple, if any. If out of memory, the map is unchanged.
    pub fn write(
        &mut self,
        alloc: Global,
        t: &Tuple,
        value: X,
        keep: bool,
    ) -> Result<(), AllocError>
        ensures ok { OnOk result (self.new ≡ entries_after_write keep self.old t.now value) }
        ensures err { OnErr result (self.new ≡ self.old) }
    {
        if keep {
            return self.insert(alloc, t, value);
        }
        self.remove(t);
        Ok(())
    }

    /// Removes the value at a tuple, if the map has one there.
    pub fn remove(&mut self, t: &Tuple)
        ensures { self.new ≡ finite.remove self.old t.now }
    {
        self.given.remove(t);
        self.values.remove(t);
    }
}
