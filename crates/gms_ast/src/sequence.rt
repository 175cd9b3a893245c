//! A list of values that contracts see as the list itself.
ghost use Rattle.std.specs.Prelude.{◌≡◌, ◌↔◌, [], length, IsTrue};

use std::marker::Model;

/// A list of values. It is made from a `Vec` and can be turned back into that `Vec`; neither step
/// allocates memory.
///
/// In a contract, two sequences are equal if they have the same values in the same order, wherever
/// they are stored. The bytes of the word `lp` in `solve m using lp minimizing z;` are a sequence,
/// and so are the labels `a` and `b` of the element `a.b`.
#[derive(Debug, Drop)]
pub struct Sequence<T> {
    values: Vec<T>,
}

impl<T> Model for Sequence<T> {
    ghost use Rattle.std.specs.Prelude.{List};
    ghost use Rattle.std.specs.Coded.{coded_list};

    ghost Value = { List T };

    ghost coded = { coded_list T.code };

    ghost view = { λ s. s.values.items };
}

impl<T> Sequence<T> {
    /// The sequence of these values.
    pub fn new(values: Vec<T>) -> Sequence<T>
        ensures { result ≡ values.items }
    {
        Sequence { values }
    }

    /// The values as the `Vec` that the sequence was made from.
    pub fn into_vec(self) -> Vec<T>
        ensures { result.items ≡ self }
    {
        let Sequence { values } = self;
        values
    }

    /// The values, in order.
    pub fn as_slice(&self) -> &[T]
        ensures { result.now ≡ self.now }
    {
        self.values.as_slice()
    }

    /// How many values there are.
    pub fn len(&self) -> usize
        ensures { result ≡ length self.now }
    {
        self.values.len()
    }

    /// Whether there is no value.
    pub fn is_empty(&self) -> bool
        ensures { IsTrue result ↔ (self.now ≡ []) }
    {
        self.values.is_empty()
    }
}
