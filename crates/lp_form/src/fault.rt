//! Why a form was not made.
ghost use Rattle.std.specs.Prelude.{◌≡◌};
ghost use Rattle.lp_form.specs.declared.fault.FormFault.TheVariants.{Memory};

use crate::key::Key;
use std::alloc::{AllocError, AllocFailed};
use std::fmt;
use thiserror::Error;

/// Why an operation on forms fails: a number beyond the field's limit, or out of memory.
#[derive(Debug, Drop, Error)]
pub enum FormFault {
    /// The step that computes the constant (`None`) or the coefficient of this key exceeds the
    /// field's limit. Of several such steps it is the first: the constant comes first, then the
    /// keys in order.
    #[error("beyond the field's limit")]
    Limit(Option<Key>),
    /// Out of memory.
    #[error("out of memory")]
    Memory,
}

impl From<AllocError> for FormFault {
    ghost from_gives = { λ _ fault. fault ≡ Memory };

    fn from(_error: AllocError) -> FormFault {
        FormFault::Memory
    }
}

impl<T: Drop> From<AllocFailed<T>> for FormFault {
    ghost from_gives = { λ _ fault. fault ≡ Memory };

    fn from(_error: AllocFailed<T>) -> FormFault {
        FormFault::Memory
    }
}

impl fmt::Debug for Key {
    fn fmt<W: fmt::Write>(&self, f: &mut fmt::Formatter<W>) -> fmt::Result {
        let symbol = self.symbol;
        let labels = self.tuple.as_slice();
        write!(f, "{symbol}{labels:?}")
    }
}
