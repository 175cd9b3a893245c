//! The attributes of an element of a variable or an equation.
ghost use Rattle.std.specs.Prelude.{◌≡◌, option_map};
ghost use Rattle.gms_store.specs.Shown.{attributes_shown};
ghost use Rattle.gms_store.specs.State.{unbounded, absent_variable, same_attributes, same_number, same_bound};

use crate::kind::VariableType;
use gq_field::ExactField;
use std::cmp::Ordering;

/// The attributes of one element of a variable or an equation: its bounds, its level and its
/// marginal (GAMS User's Guide, "Variables", "Equations").
#[derive(Clone, Copy)]
pub struct Attributes<F> {
    /// The lower bound of the element; `None` if it is minus infinity.
    pub lower: Option<F>,
    /// The upper bound of the element; `None` if it is plus infinity.
    pub upper: Option<F>,
    /// The level of the element, its `.l`.
    pub level: F,
    /// The marginal of the element, its `.m`.
    pub marginal: F,
}

impl<F: ExactField> Attributes<F> {
    /// No bounds, level 0 and marginal 0: the attributes of an element of an equation without data.
    pub(crate) fn unbounded() -> Attributes<F>
        ensures { attributes_shown F.value result ≡ unbounded }
    {
        Attributes {
            lower: None,
            upper: None,
            level: F::zero(),
            marginal: F::zero(),
        }
    }

    /// The attributes of an element without data of a variable of this type: the type's bounds,
    /// level 0 and marginal 0.
    pub(crate) fn of_type(kind: VariableType) -> Attributes<F>
        ensures { attributes_shown F.value result ≡ absent_variable kind }
    {
        let free = Attributes::unbounded();
        let zero = F::zero();
        match kind {
            VariableType::Free => free,
            VariableType::Positive => Attributes {
                lower: Some(zero),
                ..free
            },
            VariableType::Negative => Attributes {
                upper: Some(zero),
                ..free
            },
            VariableType::Discrete => free,
        }
    }

    /// Whether both elements have equal bounds, levels and marginals.
    pub(crate) fn is_same(self, other: Attributes<F>) -> bool
        ensures { result ≡ same_attributes (attributes_shown F.value self) (attributes_shown F.value other) }
    {
        is_same_bound(self.lower, other.lower)
            && is_same_bound(self.upper, other.upper)
            && is_same_number(self.level, other.level)
            && is_same_number(self.marginal, other.marginal)
    }
}

/// Whether two numbers are equal.
pub(crate) fn is_same_number<F: ExactField>(a: F, b: F) -> bool
    ensures { result ≡ same_number (F.value a) (F.value b) }
{
    a.cmp_value(b) == Ordering::Equal
}

/// Whether two bounds are equal, or both infinite (`None`).
fn is_same_bound<F: ExactField>(a: Option<F>, b: Option<F>) -> bool
    ensures { result ≡ same_bound (option_map F.value a) (option_map F.value b) }
{
    match (a, b) {
        (None, None) => true,
        (Some(a), Some(b)) => is_same_number(a, b),
        _ => false,
    }
}
