//! An intermediate number of the bound, and how many steps it took.
ghost use Rattle.std.specs.Prelude.{◌≡◌, ◌+◌, ◌<◌, ◌^◌, length, pos};
ghost use Rattle.gq_number.specs.Number.{whole};
ghost use Rattle.lp_core.specs.Feasible.{bound_value};
ghost use Rattle.lp_check.specs.BoundSteps.{plus_steps, plus_product, less_steps, less_product, bound_used};
ghost use Rattle.lp_check.specs.Partials.{Reaches};

use gq_field::ExactField;
use lp_core::StepName;
use std::cmp::Ordering;

/// A number, and how many steps of the bound led to it.
#[derive(Clone, Copy)]
pub(crate) struct Partial<F> {
    pub(crate) sum: F,
    pub(crate) taken: u64,
}

impl<F: ExactField> Partial<F> {
    /// Adds the product of two numbers, if there is a second one.
    pub(crate) fn plus(self, factor: F, bound: Option<F>) -> Result<Partial<F>, StepName>
        requires { self.taken + length (plus_steps F.limit (F.value self.sum) (F.value factor) (bound_value F.value bound)) < 2 ^ 64 }
        ensures { Reaches F.value self.taken
            (plus_steps F.limit (F.value self.sum) (F.value factor) (bound_value F.value bound))
            (plus_product (F.value self.sum) (F.value factor) (bound_value F.value bound)) result }
    {
        let Some(bound) = bound else {
            return Ok(self);
        };
        let Ok(product) = factor.mul(bound) else {
            return Err(StepName::Check { part: self.taken });
        };
        let Ok(sum) = self.sum.add(product) else {
            return Err(StepName::Check {
                part: self.taken + 1,
            });
        };
        Ok(Partial {
            sum,
            taken: self.taken + 2,
        })
    }

    /// Subtracts the product of two numbers, if there is a second one.
    pub(crate) fn less(self, factor: F, entry: Option<F>) -> Result<Partial<F>, StepName>
        requires { self.taken + length (less_steps F.limit (F.value self.sum) (F.value factor) (bound_value F.value entry)) < 2 ^ 64 }
        ensures { Reaches F.value self.taken
            (less_steps F.limit (F.value self.sum) (F.value factor) (bound_value F.value entry))
            (less_product (F.value self.sum) (F.value factor) (bound_value F.value entry)) result }
    {
        let Some(entry) = entry else {
            return Ok(self);
        };
        let Ok(product) = factor.mul(entry) else {
            return Err(StepName::Check { part: self.taken });
        };
        let Ok(sum) = self.sum.sub(product) else {
            return Err(StepName::Check {
                part: self.taken + 1,
            });
        };
        Ok(Partial {
            sum,
            taken: self.taken + 2,
        })
    }
}

/// The bound that a factor uses: the first if it is above 0, the second if below.
pub(crate) fn bound_used<F: ExactField>(factor: F, first: Option<F>, second: Option<F>) -> Option<F>
    ensures { bound_value F.value result ≡ bound_used (F.value factor) (bound_value F.value first) (bound_value F.value second) }
{
    match factor.cmp_value(F::zero()) {
        Ordering::Greater => first,
        Ordering::Equal => None,
        Ordering::Less => second,
    }
}
