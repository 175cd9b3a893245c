//! A row of a model, before its columns have numbers.
use gq_field::ExactField;
use lp_core::Sense;
use lp_form::{Form, Key};

/// A row of a model, before its columns have numbers.
#[derive(Drop)]
pub(crate) struct FormRow<F: ExactField> {
    /// The element of the equation.
    pub(crate) key: Key,
    /// How the row's sum and its right side compare.
    pub(crate) sense: Sense,
    /// The left side less the right one.
    pub(crate) form: Form<F>,
}
