//! The order, the six relations, the lesser and the greater.
ghost use Rattle.std.specs.Prelude.{◌≡◌};
ghost use Rattle.gq_extended.specs.ExtendedOrder.{comparison, equals, differs, is_less, is_at_most, is_greater, is_at_least, lesser, greater};
ghost use Rattle.gq_extended.specs.Meaning.{extended};

use crate::extended::Ext;
use gq_field::ExactField;
use std::cmp::Ordering;

impl<F: ExactField> Ext<F> {
    /// How the value and `other` compare: `-inf` is below every number and `inf` above. `None`
    /// exactly if either is NA.
    #[tactic(auto, unfolding(crate::specs::ExtendedOrder::comparison))]
    pub fn compare(self, other: Ext<F>) -> Option<Ordering>
        ensures { result ≡ comparison (extended F.value self) (extended F.value other) }
    {
        match (self, other) {
            (Ext::Na, _) | (_, Ext::Na) => None,
            (Ext::Number(x), Ext::Number(y)) => Some(x.cmp_value(y)),
            (Ext::PlusInf, Ext::PlusInf) | (Ext::MinusInf, Ext::MinusInf) => Some(Ordering::Equal),
            (Ext::MinusInf, _) | (_, Ext::PlusInf) => Some(Ordering::Less),
            (Ext::PlusInf, _) | (_, Ext::MinusInf) => Some(Ordering::Greater),
        }
    }

    /// Whether the value equals `other`; NA equals only NA.
    #[tactic(auto, unfolding(crate::specs::ExtendedOrder::equals, crate::specs::ExtendedOrder::comparison))]
    pub fn equals(self, other: Ext<F>) -> bool
        ensures { result ≡ equals (extended F.value self) (extended F.value other) }
    {
        match (self, other) {
            (Ext::Na, Ext::Na) => true,
            _ => matches!(self.compare(other), Some(Ordering::Equal)),
        }
    }

    /// Whether the value does not equal `other`; NA equals only NA.
    #[tactic(auto, unfolding(crate::specs::ExtendedOrder::differs))]
    pub fn differs(self, other: Ext<F>) -> bool
        ensures { result ≡ differs (extended F.value self) (extended F.value other) }
    {
        !self.equals(other)
    }

    /// Whether the value is below `other`; false if either is NA.
    #[tactic(auto, unfolding(crate::specs::ExtendedOrder::is_less))]
    pub fn is_less(self, other: Ext<F>) -> bool
        ensures { result ≡ is_less (extended F.value self) (extended F.value other) }
    {
        matches!(self.compare(other), Some(Ordering::Less))
    }

    /// Whether the value is at most `other`; false if either is NA, even if both are.
    #[tactic(auto, unfolding(crate::specs::ExtendedOrder::is_at_most))]
    pub fn is_at_most(self, other: Ext<F>) -> bool
        ensures { result ≡ is_at_most (extended F.value self) (extended F.value other) }
    {
        matches!(self.compare(other), Some(Ordering::Less | Ordering::Equal))
    }

    /// Whether the value is above `other`; false if either is NA.
    #[tactic(auto, unfolding(crate::specs::ExtendedOrder::is_greater))]
    pub fn is_greater(self, other: Ext<F>) -> bool
        ensures { result ≡ is_greater (extended F.value self) (extended F.value other) }
    {
        other.is_less(self)
    }

    /// Whether the value is at least `other`; false if either is NA, even if both are.
    #[tactic(auto, unfolding(crate::specs::ExtendedOrder::is_at_least))]
    pub fn is_at_least(self, other: Ext<F>) -> bool
        ensures { result ≡ is_at_least (extended F.value self) (extended F.value other) }
    {
        other.is_at_most(self)
    }

    /// The lesser of the value and `other`; NA if either is NA.
    #[tactic(auto, unfolding(crate::specs::ExtendedOrder::comparison, crate::specs::ExtendedOrder::lesser))]
    pub fn min(self, other: Ext<F>) -> Ext<F>
        ensures { extended F.value result ≡ lesser (extended F.value self) (extended F.value other) }
    {
        match self.compare(other) {
            None => Ext::Na,
            Some(order) => if order.is_gt() { other } else { self },
        }
    }

    /// The greater of the value and `other`; NA if either is NA.
    #[tactic(auto, unfolding(crate::specs::ExtendedOrder::comparison, crate::specs::ExtendedOrder::greater))]
    pub fn max(self, other: Ext<F>) -> Ext<F>
        ensures { extended F.value result ≡ greater (extended F.value self) (extended F.value other) }
    {
        match other.compare(self) {
            None => Ext::Na,
            Some(order) => if order.is_gt() { other } else { self },
        }
    }
}
