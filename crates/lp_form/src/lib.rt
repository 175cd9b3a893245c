//! Layer 4, linear programs. Affine forms: a constant and a number for each key, computed
//! exactly and entry by entry; and a sum of forms to which an entry is added in logarithmic time.
#![tactic(auto)]

mod entries;
mod fault;
mod form;
mod key;
mod sum;
mod terms;

pub use fault::FormFault;
pub use form::Form;
pub use key::Key;
pub use sum::FormSum;
