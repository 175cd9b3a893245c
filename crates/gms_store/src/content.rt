//! What a name denotes.
use crate::attributes::Attributes;
use crate::entries::Entries;
use crate::kind::VariableType;
use gms_tuple::TupleSet;
use gq_extended::Ext;

/// What a name denotes, with its data. Of a parameter, a variable or an equation, a tuple has an
/// entry only if its data differ from those of an element without data, such as the value 0.
pub enum Content<F> {
    /// Nothing is declared.
    Undeclared,
    /// An alias of the set whose name has this number.
    Alias(u32),
    /// A set, with its members.
    Set(TupleSet),
    Parameter(Entries<Ext<F>>),
    Variable(VariableType, Entries<Attributes<F>>),
    Equation(Entries<Attributes<F>>),
    /// A model, with the number of the model's status and that of the solver's.
    Model(u8, u8),
}

// Written out, so that it is proved here once, and not in each crate that drops such a value.
impl<F: Drop> Drop for Content<F> {
    fn drop(self) {
        match self {
            Self::Undeclared => {}
            Self::Alias(_) => {}
            Self::Set(_) => {}
            Self::Parameter(_) => {}
            Self::Variable(_, _) => {}
            Self::Equation(_) => {}
            Self::Model(_, _) => {}
        }
    }
}
