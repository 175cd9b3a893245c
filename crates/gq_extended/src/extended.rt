//! A number of a field, an infinity, or NA.
ghost use Rattle.std.specs.Prelude.{◌≡◌};
ghost use Rattle.gq_extended.specs.Extended.{direction};
ghost use Rattle.gq_extended.specs.Meaning.{extended};

use gq_field::ExactField;

/// An extended number: a number of the field `F`, an infinity, or NA.
#[derive(Clone, Copy, Debug, PartialEq, Eq)]
pub enum Ext<F> {
    /// A number.
    Number(F),
    /// `inf`, above every number.
    PlusInf,
    /// `-inf`, below every number.
    MinusInf,
    /// `na`, not available: a value that nobody knows.
    Na,
}

impl<F: ExactField> Ext<F> {
    /// -1, 0 or 1, as the value is below, at or above 0; 0 for NA.
    pub(crate) fn direction(self) -> i8
        ensures { result ≡ direction (extended F.value self) }
    {
        match self {
            Ext::Number(x) => x.sign(),
            Ext::PlusInf => 1,
            Ext::MinusInf => -1,
            Ext::Na => 0,
        }
    }
}
