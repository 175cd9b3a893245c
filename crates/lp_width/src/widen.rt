//! An answer over numbers of 63 bits as one over numbers of 127.
ghost use Rattle.std.specs.Prelude.{◌≡◌, IfOk, map};
ghost use Rattle.gq_field.specs.Values.{half_value};
ghost use Rattle.gq_frac.specs.Frac.{frac_value};
ghost use Rattle.lp_core.specs.Numbers.{end_numbers, answer_numbers};

use gq_field::Half;
use gq_frac::{Frac, widen};
use lp_core::{Answer, End, Sequence};
use std::alloc::{AllocError, Global};

/// The same numbers, widened.
fn widen_all(alloc: Global, numbers: &Sequence<Half>) -> Result<Sequence<Frac>, AllocError>
    ensures { IfOk result (λ made. map frac_value made ≡ map half_value numbers.now) }
{
    let mut made = Vec::new(alloc);
    for number in numbers.as_slice() {
        made.push(widen(*number))?;
    }
    Ok(Sequence::new(made))
}

/// The same end with widened numbers.
fn widen_end(alloc: Global, end: &End<Half>) -> Result<End<Frac>, AllocError>
    ensures { IfOk result (λ made. end_numbers frac_value made ≡ end_numbers half_value end.now) }
{
    match end {
        End::Optimal {
            levels,
            row_levels,
            duals,
            reduced,
        } => {
            let levels = widen_all(alloc, levels)?;
            let row_levels = widen_all(alloc, row_levels)?;
            let duals = widen_all(alloc, duals)?;
            let reduced = widen_all(alloc, reduced)?;
            Ok(End::Optimal {
                levels,
                row_levels,
                duals,
                reduced,
            })
        }
        End::Infeasible { duals, crossed } => {
            let duals = widen_all(alloc, duals)?;
            let crossed = *crossed;
            Ok(End::Infeasible { duals, crossed })
        }
        End::Unbounded {
            levels,
            row_levels,
            ray,
        } => {
            let levels = widen_all(alloc, levels)?;
            let row_levels = widen_all(alloc, row_levels)?;
            let ray = widen_all(alloc, ray)?;
            Ok(End::Unbounded {
                levels,
                row_levels,
                ray,
            })
        }
        End::Interrupted {
            phase,
            levels,
            row_levels,
        } => {
            let phase = *phase;
            let levels = widen_all(alloc, levels)?;
            let row_levels = widen_all(alloc, row_levels)?;
            Ok(End::Interrupted {
                phase,
                levels,
                row_levels,
            })
        }
        End::Refused { step } => Ok(End::Refused { step: *step }),
    }
}

/// The same answer with numbers of 127 bits instead of 63: the pivots, the end and the values are
/// the same. The only error is out of memory.
pub fn widen_answer(alloc: Global, a: &Answer<Half>) -> Result<Answer<Frac>, AllocError>
    ensures { IfOk result (λ made. answer_numbers frac_value made ≡ answer_numbers half_value a.now) }
{
    let pivots = Vec::from_slice(alloc, a.pivots.as_slice())?;
    Ok(Answer {
        pivots: Sequence::new(pivots),
        end: widen_end(alloc, &a.end)?,
    })
}
