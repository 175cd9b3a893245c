//! The recovery of a point: the levels of columns and rows, and the ray.
ghost use Rattle.std.specs.Prelude.{◌≡◌, ◌≤◌, ◌<◌, ◌+◌, ◌^◌, [], ◌∷◌, pos, length, map, flat_map, Ok, Err, MatchResult};
ghost use Rattle.std.specs.List.{All, enumerate_from};
ghost use Rattle.gq_number.specs.Number.{whole, ◌+ℚ◌, ◌*ℚ◌};
ghost use Rattle.gq_field.specs.Fits.{sum_fits};
ghost use Rattle.lp_core.specs.declared.answer.StepName.TheVariants.{Recover};
ghost use Rattle.lp_core.specs.Sums.{row_sum};
ghost use Rattle.lp_core.specs.StandardForm as form;
ghost use Rattle.lp_core.specs.Steps.{product_fits, level_step, row_level_steps, ray_step};
ghost use Rattle.lp_std.specs.Meaning.{shift_value};
ghost use Rattle.lp_std.specs.InnerSteps.{placed_value, Computes, ComputesAll};

use crate::stop::Stop;
use crate::types::Shift;
use gq_field::{ExactField, Limit};
use lp_core::{Row, StepName};
use std::alloc::Global;

/// The number, or the step that does not fit as the error.
pub(crate) fn or_step<F: ExactField>(
    answer: Result<F, Limit>,
    step: StepName,
) -> Result<F, StepName>
    ensures { MatchResult answer (λ x. result ≡ Ok x) (λ _. result ≡ Err step) }
{
    match answer {
        Ok(number) => Ok(number),
        Err(_) => Err(step),
    }
}

/// The level of a column by its shift, or the step that does not fit.
fn level_of<F: ExactField>(j: u64, place: (u32, Shift<F>), values: &[F]) -> Result<F, StepName>
    requires { place.0 + form.width (shift_value F.value place.1) ≤ length values.now }
    ensures { Computes F.value (level_step F.limit j (place.0, shift_value F.value place.1) (map F.value values.now) ∷ [])
        (form.shifted_back (place.0, shift_value F.value place.1) (map F.value values.now)) result }
{
    let (variable, shift) = place;
    let first = values[variable as usize];
    let step = StepName::Recover {
        what: 0,
        index: j,
        entry: 0,
        part: 1,
    };
    match shift {
        Shift::Lower(bound) => or_step(bound.add(first), step),
        Shift::Upper(bound) => or_step(bound.sub(first), step),
        Shift::Free => or_step(first.sub(values[variable as usize + 1]), step),
    }
}

/// The value of each column, from the values of all variables.
pub(crate) fn levels_of<F: ExactField>(
    alloc: Global,
    columns: &[(u32, Shift<F>)],
    values: &[F],
) -> Result<Vec<F>, Stop>
    requires { All (λ p. p.0 + form.width (shift_value F.value p.1) ≤ length values.now) columns.now }
    ensures { ComputesAll F.value
        (map (λ p. level_step F.limit p.0 p.1 (map F.value values.now)) (enumerate_from 0 (placed_value F.value columns.now)))
        (map (λ column. form.shifted_back column (map F.value values.now)) (placed_value F.value columns.now)) result }
{
    let mut levels = Vec::new(alloc);
    for (j, column) in columns.iter().enumerate() {
        let level = level_of(j as u64, *column, values)?;
        levels.push(level)?;
    }
    Ok(levels)
}

/// A sum plus one more product, or the step that does not fit.
fn plus_product<F: ExactField>(
    i: u64,
    entry: u32,
    sum: F,
    coefficient: F,
    level: F,
) -> Result<F, StepName>
    ensures { Computes F.value
        ((Recover 1 i entry 0, product_fits F.limit (F.value coefficient) (F.value level))
        ∷ (Recover 1 i entry 1, sum_fits F.limit (F.value sum) (F.value coefficient *ℚ F.value level)) ∷ [])
        (F.value sum +ℚ F.value coefficient *ℚ F.value level) result }
{
    let Ok(product) = coefficient.mul(level) else {
        return Err(StepName::Recover {
            what: 1,
            index: i,
            entry,
            part: 0,
        });
    };
    let step = StepName::Recover {
        what: 1,
        index: i,
        entry,
        part: 1,
    };
    or_step(sum.add(product), step)
}

/// The sum of a row at levels, or the first step that does not fit.
fn row_level_of<F: ExactField>(i: u64, entries: &[(u32, F)], levels: &[F]) -> Result<F, StepName>
    requires there { All (λ e. e.0 < length levels.now) entries.now }
    requires few { length entries.now < 2 ^ 32 }
    ensures { Computes F.value
        (row_level_steps F.value F.limit i 0 (whole (pos 0)) entries.now (map F.value levels.now))
        (row_sum F.value entries.now (map F.value levels.now)) result }
{
    let mut sum = F::zero();
    let mut entry = 0;
    for (column, coefficient) in entries {
        let level = levels[*column as usize];
        sum = plus_product(i, entry, sum, *coefficient, level)?;
        entry += 1;
    }
    Ok(sum)
}

/// The sum of each row at the columns' values.
pub(crate) fn row_levels_of<F: ExactField>(
    alloc: Global,
    rows: &[Row<F>],
    levels: &[F],
) -> Result<Vec<F>, Stop>
    requires there { All (λ row. All (λ e. e.0 < length levels.now) row.entries) rows.now }
    requires few { All (λ row. length row.entries < 2 ^ 32) rows.now }
    ensures { ComputesAll F.value
        (flat_map (λ p. row_level_steps F.value F.limit p.0 0 (whole (pos 0)) p.1.entries (map F.value levels.now)) (enumerate_from 0 rows.now))
        (map (λ row. row_sum F.value row.entries (map F.value levels.now)) rows.now) result }
{
    let mut sums = Vec::new(alloc);
    for (i, row) in rows.iter().enumerate() {
        let sum = row_level_of(i as u64, row.entries.as_slice(), levels)?;
        sums.push(sum)?;
    }
    Ok(sums)
}

/// The change of a column along a ray, or the step that does not fit.
fn change_of<F: ExactField>(j: u64, place: (u32, Shift<F>), changes: &[F]) -> Result<F, StepName>
    requires { place.0 + form.width (shift_value F.value place.1) ≤ length changes.now }
    ensures { Computes F.value (ray_step F.limit j (place.0, shift_value F.value place.1) (map F.value changes.now))
        (form.changed_back (place.0, shift_value F.value place.1) (map F.value changes.now)) result }
{
    let (variable, shift) = place;
    let first = changes[variable as usize];
    match shift {
        Shift::Lower(_) => Ok(first),
        Shift::Upper(_) => Ok(first.neg()),
        Shift::Free => {
            let step = StepName::Recover {
                what: 4,
                index: j,
                entry: 0,
                part: 1,
            };
            or_step(first.sub(changes[variable as usize + 1]), step)
        }
    }
}

/// The change of each column along a ray, from the changes of all variables.
pub(crate) fn ray_of<F: ExactField>(
    alloc: Global,
    columns: &[(u32, Shift<F>)],
    changes: &[F],
) -> Result<Vec<F>, Stop>
    requires { All (λ p. p.0 + form.width (shift_value F.value p.1) ≤ length changes.now) columns.now }
    ensures { ComputesAll F.value
        (flat_map (λ p. ray_step F.limit p.0 p.1 (map F.value changes.now)) (enumerate_from 0 (placed_value F.value columns.now)))
        (map (λ column. form.changed_back column (map F.value changes.now)) (placed_value F.value columns.now)) result }
{
    let mut ray = Vec::new(alloc);
    for (j, column) in columns.iter().enumerate() {
        let change = change_of(j as u64, *column, changes)?;
        ray.push(change)?;
    }
    Ok(ray)
}
