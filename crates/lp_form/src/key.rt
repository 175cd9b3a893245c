//! The key of an entry of a form: an element of a symbol.
ghost use Rattle.std.specs.Prelude.{◌≡◌, IfOk};

use gms_tuple::Tuple;
use std::alloc::{AllocError, Global};

/// An element of a symbol, such as `x(seattle,chicago)`: the symbol by its number, and the tuple of
/// labels.
///
/// Keys are ordered by the numbers of their symbols, then lexicographically by their labels'
/// numbers.
#[derive(PartialEq, Eq, PartialOrd, Ord)]
pub struct Key {
    /// The symbol, by its number.
    pub symbol: u32,
    /// The labels of the element; none for a symbol without indices.
    pub tuple: Tuple,
}

// Written out, so that it is proved once, and not in each crate that drops one.
impl Drop for Key {
    fn drop(self) {
        let Self {
            symbol: _,
            tuple: _,
        } = self;
    }
}

impl Key {
    /// A copy, equal to this key.
    pub fn copy(&self, alloc: Global) -> Result<Key, AllocError>
        ensures { IfOk result (λ copy. copy ≡ self.now) }
    {
        Ok(Key {
            symbol: self.symbol,
            tuple: self.tuple.copy(alloc)?,
        })
    }
}
