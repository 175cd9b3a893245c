//! From fractions to integers, from integers to fractions, and a pivot of either.
ghost use Rattle.std.specs.Prelude.{◌≡◌, ◌+◌, ◌≤◌, ℕ, map, length, IfOk, IfErr, IfSome};
ghost use Rattle.lp_core.specs.Dictionary.{InPhaseOne, IsLegal};
ghost use Rattle.lp_fraction_dict.specs.First.{IsFilled};
ghost use Rattle.lp_fraction_dict.specs.Rows.{IsRow};
ghost use Rattle.lp_fraction_dict.specs.Lines.{entries_of_rows};
ghost use Rattle.lp_fraction_dict.specs.Tableau as exact;
ghost use Rattle.lp_integer_dict.specs.Whole.{integer_dictionary as dictionary_of};
ghost use Rattle.lp_dict.specs.Tableau.{kept, upcoming_of, IsDictInvariant};
ghost use Rattle.lp_dict.specs.InnerConversions.{part_of, all_rows, IsLineOf, AreLinesOf, AreFilled, Follows, StopsBy};

use crate::body::Body;
use crate::number::number_at;
use gq_field::ExactField;
use lp_core::Pivot;
use lp_fraction_dict::{Entry, ExactDict, push_unless_zero};
use lp_integer_dict::Whole;
use lp_integer_rows::{Line, Part, line_of_parts};
use lp_std::Stop;
use std::alloc::{AllocError, Global};

/// The entries of a row as numerators and denominators.
fn parts_of<F: ExactField>(alloc: Global, row: &[Entry<F>]) -> Result<Vec<Part>, AllocError>
    ensures { IfOk result (λ parts. parts.items ≡ map (part_of F.value) row.now) }
{
    let mut parts = Vec::new(alloc);
    for entry in row {
        let (numerator, denominator) = entry.number.parts();
        parts.push(Part {
            column: entry.column,
            numerator,
            denominator,
        })?;
    }
    Ok(parts)
}

/// A row by integers over one denominator. None if one of them has more than 127 bits.
fn line_of<F: ExactField>(
    alloc: Global,
    width: usize,
    row: &[Entry<F>],
) -> Result<Option<Line>, AllocError>
    requires { IsRow F.value 0 width row.now }
    ensures { IfOk result (λ found. IfSome found (IsLineOf F.value width row.now)) }
{
    let parts = parts_of(alloc, row)?;
    line_of_parts(alloc, width, parts.as_slice())
}

/// The integer rows, followed by that of the objective. None if some integer or denominator has
/// more than 127 bits.
fn lines_of<F: ExactField>(
    alloc: Global,
    dict: &ExactDict<F>,
) -> Result<Option<Vec<Line>>, AllocError>
    ensures { IfOk result (λ found. IfSome found (λ lines. AreLinesOf F.value (dict.now.variables + 2) (all_rows dict.now) lines.items)) }
{
    dict.keeps();
    let width = dict.variables() as usize + 2;
    let mut lines = Vec::new(alloc);
    let rows = dict.rows();
    for row in rows {
        let Some(line) = line_of(alloc, width, row.as_slice())? else {
            return Ok(None);
        };
        lines.push(line)?;
    }
    let Some(last) = line_of(alloc, width, dict.objective())? else {
        return Ok(None);
    };
    lines.push(last)?;
    Ok(Some(lines))
}

/// The same dictionary by integers. None if they might exceed the bound.
fn whole_of<F: ExactField>(alloc: Global, dict: &ExactDict<F>) -> Result<Option<Whole>, AllocError>
    requires { ¬ (InPhaseOne (exact.fraction_dictionary F.value dict.now)) }
    ensures same { IfOk result (λ found. IfSome found (λ rows. dictionary_of rows ≡ exact.fraction_dictionary F.value dict.now)) }
    ensures bounded { IfOk result (λ found. IfSome found (λ rows. rows.bound ≤ F.limit)) }
{
    dict.keeps();
    let Some(lines) = lines_of(alloc, dict)? else {
        return Ok(None);
    };
    let basic = Vec::from_slice(alloc, dict.basic())?;
    Ok(Whole::of_lines(dict.variables(), basic, lines, F::limit()))
}

/// How a first dictionary is stored: by integers if they are small, else by the fractions.
pub(crate) fn begun<F: ExactField>(alloc: Global, dict: ExactDict<F>) -> Result<Body<F>, AllocError>
    requires phase { ¬ (InPhaseOne (exact.fraction_dictionary F.value dict)) }
    requires first { dict.upcoming ≡ 1 }
    ensures same { IfOk result (λ body. kept F.value body ≡ exact.fraction_dictionary F.value dict) }
    ensures upcoming { IfOk result (λ body. upcoming_of body ≡ 1) }
    ensures is_kept { IfOk result (IsDictInvariant F.value F.limit) }
{
    dict.keeps();
    match whole_of(alloc, &dict)? {
        Some(rows) => Ok(Body::Whole(rows, 1)),
        None => Ok(Body::Exact(dict)),
    }
}

/// A row by fractions, or the objective, which follows the rows.
fn exact_row<F: ExactField>(
    alloc: Global,
    rows: &Whole,
    row: usize,
) -> Result<Vec<Entry<F>>, AllocError>
    requires bounded { rows.now.bound ≤ F.limit }
    requires row { row ≤ length (dictionary_of rows.now).basic }
    ensures { IfOk result (λ made. IsFilled F.value ((dictionary_of rows.now).numbers row) ((dictionary_of rows.now).variables + 2) made.items) }
{
    rows.keeps();
    let mut made = Vec::new(alloc);
    for column in 0..rows.variables() + 2 {
        let number = number_at(rows, row, column as usize);
        push_unless_zero(&mut made, column, number)?;
    }
    Ok(made)
}

/// The rows by fractions.
fn exact_rows<F: ExactField>(alloc: Global, rows: &Whole) -> Result<Vec<Vec<Entry<F>>>, AllocError>
    requires { rows.now.bound ≤ F.limit }
    ensures { IfOk result (λ made. AreFilled F.value (dictionary_of rows.now) (entries_of_rows made.items) (length (dictionary_of rows.now).basic)) }
{
    let mut made = Vec::new(alloc);
    for row in 0..rows.basic().len() {
        made.push(exact_row(alloc, rows, row)?)?;
    }
    Ok(made)
}

/// The same dictionary by fractions; the next pivot has the number `upcoming`.
pub(crate) fn exact_of<F: ExactField>(
    alloc: Global,
    rows: &Whole,
    upcoming: u64,
) -> Result<ExactDict<F>, AllocError>
    requires bounded { rows.now.bound ≤ F.limit }
    requires few { length (dictionary_of rows.now).basic ≤ (dictionary_of rows.now).variables }
    ensures same { IfOk result (λ dict. exact.fraction_dictionary F.value dict ≡ dictionary_of rows.now) }
    ensures upcoming { IfOk result (λ dict. dict.upcoming ≡ upcoming) }
{
    rows.keeps();
    let variables = rows.basic();
    let basic = Vec::from_slice(alloc, variables)?;
    let made = exact_rows(alloc, rows)?;
    let objective = exact_row(alloc, rows, variables.len())?;
    Ok(ExactDict::of_rows(rows.variables(), basic, made, objective, upcoming))
}

/// The dictionary after a legal pivot, by fractions.
fn exact_pivot<F: ExactField>(alloc: Global, dict: ExactDict<F>, p: Pivot) -> Result<Body<F>, Stop>
    requires { (k : ℕ) × IsLegal (exact.fraction_dictionary F.value dict) p k }
    ensures follows { IfOk result (Follows F.value F.limit (exact.fraction_dictionary F.value dict) dict.upcoming p) }
    ensures limit { IfErr result (StopsBy F.limit (exact.fraction_dictionary F.value dict) dict.upcoming p) }
{
    let after = dict.pivot(alloc, p)?;
    Ok(Body::Exact(after))
}

/// The dictionary after a legal pivot, by integers, or by fractions if those of a step might exceed
/// the limit.
fn whole_pivot<F: ExactField>(
    alloc: Global,
    rows: Whole,
    upcoming: u64,
    p: Pivot,
) -> Result<Body<F>, Stop>
    requires bounded { rows.bound ≤ F.limit }
    requires few { length (dictionary_of rows).basic ≤ (dictionary_of rows).variables }
    requires legal { (k : ℕ) × IsLegal (dictionary_of rows) p k }
    ensures follows { IfOk result (Follows F.value F.limit (dictionary_of rows) upcoming p) }
    ensures limit { IfErr result (StopsBy F.limit (dictionary_of rows) upcoming p) }
{
    match rows.pivot(alloc, p)? {
        Ok(after) => Ok(Body::Whole(after, upcoming.saturating_add(1))),
        Err(same) => {
            let dict = exact_of(alloc, &same, upcoming)?;
            exact_pivot(alloc, dict, p)
        }
    }
}

/// How the dictionary after a legal pivot is stored.
pub(crate) fn pivoted<F: ExactField>(
    alloc: Global,
    body: Body<F>,
    p: Pivot,
) -> Result<Body<F>, Stop>
    requires is_kept { IsDictInvariant F.value F.limit body }
    requires legal { (k : ℕ) × IsLegal (kept F.value body) p k }
    ensures follows { IfOk result (Follows F.value F.limit (kept F.value body) (upcoming_of body) p) }
    ensures limit { IfErr result (StopsBy F.limit (kept F.value body) (upcoming_of body) p) }
{
    match body {
        Body::Whole(rows, upcoming) => whole_pivot(alloc, rows, upcoming, p),
        Body::Exact(dict) => exact_pivot(alloc, dict, p),
    }
}
