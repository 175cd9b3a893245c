//! The lines of the right sides of rows and of the costs of columns.
ghost use Rattle.std.specs.Prelude.{◌≡◌, ◌++◌, map, option_map, None, IfOk, OnOk, string_bytes};
ghost use Rattle.lp_core.specs.Feasible.{bound_value};
ghost use Rattle.lp_core.specs.Numbers.{row_numbers, column_numbers};
ghost use Rattle.gq_text.specs.ExactText.{exact_text};
ghost use Rattle.lp_range.specs.Ranges.{span_value};
ghost use Rattle.gms_command.specs.RangeTexts.{span_line, span_at, range_key_text, right_line, right_lines, cost_lines};

use crate::command_line::{not_shown_line, range_line};
use gms_fmt::element;
use gms_labels::Labels;
use gq_field::ExactField;
use gq_text::{Digits, put_exact};
use lp_core::{Column, Row, Sense};
use lp_form::Key;
use lp_range::Interval;
use std::alloc::{AllocError, Global};

/// An exact end of a range, if it has one.
fn exact_end<F: ExactField>(end: Option<F>, digits: &mut Digits) -> Option<&str>
    ensures { option_map (λ text. text.now) result ≡ option_map exact_text (bound_value F.value end) }
{
    match end {
        Some(x) => {
            put_exact(x, digits);
            Some(digits.as_str())
        }
        None => None,
    }
}

/// The line of a `right` side or a `cost` of an element: its range, or that this is not shown.
fn line_of<F: ExactField>(
    alloc: Global,
    what: &str,
    element: &str,
    range: Option<Interval<F>>,
) -> Result<String, AllocError>
    ensures { IfOk result (λ line. string_bytes line ≡ span_line what.now element.now (span_value F.value range)) }
{
    match range {
        Some(interval) => {
            let mut low = Digits::new();
            let mut high = Digits::new();
            let from = exact_end(interval.low, &mut low);
            let to = exact_end(interval.high, &mut high);
            range_line(alloc, what, element, from, to)
        }
        None => not_shown_line(alloc, what, element),
    }
}

/// Appends the line of a `right` side or a `cost` of an element.
fn push_line<F: ExactField>(
    alloc: Global,
    names: &Labels,
    labels: &Labels,
    what: &str,
    key: &Key,
    range: Option<Interval<F>>,
    text: &mut String,
) -> Result<(), AllocError>
    ensures { OnOk result (string_bytes text.new ≡ string_bytes text.old ++
        span_line what.now (range_key_text names.now labels.now key.now) (span_value F.value range)) }
{
    let element = element(alloc, names, labels, key.symbol, &key.tuple)?;
    let line = line_of(alloc, what, element.as_str(), range)?;
    text.push_str(line.as_str())
}

/// The range at a place.
fn range_at<F: ExactField>(ranges: &[Option<Interval<F>>], place: usize) -> Option<Interval<F>>
    ensures { span_value F.value result ≡ span_at (map (span_value F.value) ranges.now) place }
{
    match ranges.get(place) {
        Some(range) => *range,
        None => None,
    }
}

/// Appends the line of the right side of a row; a row that constrains nothing has none.
fn push_right<F: ExactField>(
    alloc: Global,
    names: &Labels,
    labels: &Labels,
    row: &Row<F>,
    range: Option<Interval<F>>,
    text: &mut String,
) -> Result<(), AllocError>
    ensures { OnOk result (string_bytes text.new ≡ string_bytes text.old ++
        right_line names.now labels.now (row_numbers F.value row.now) (span_value F.value range)) }
{
    match row.sense {
        Sense::N => Ok(()),
        _ => push_line(alloc, names, labels, "right", &row.key, range, text),
    }
}

/// Appends the lines of the rows' right sides, where the list has the range of each row.
pub(crate) fn push_rights<F: ExactField>(
    alloc: Global,
    names: &Labels,
    labels: &Labels,
    rows: &[Row<F>],
    ranges: &[Option<Interval<F>>],
    text: &mut String,
) -> Result<(), AllocError>
    ensures { OnOk result (string_bytes text.new ≡ string_bytes text.old ++
        right_lines names.now labels.now (map (row_numbers F.value) rows.now) (map (span_value F.value) ranges.now)) }
{
    for (place, row) in rows.iter().enumerate() {
        push_right(alloc, names, labels, row, range_at(ranges, place), text)?;
    }
    Ok(())
}

/// Appends the lines of the columns' costs, where the list has the range of each column.
pub(crate) fn push_costs<F: ExactField>(
    alloc: Global,
    names: &Labels,
    labels: &Labels,
    columns: &[Column<F>],
    ranges: &[Option<Interval<F>>],
    text: &mut String,
) -> Result<(), AllocError>
    ensures { OnOk result (string_bytes text.new ≡ string_bytes text.old ++
        cost_lines names.now labels.now (map (column_numbers F.value) columns.now) (map (span_value F.value) ranges.now)) }
{
    for (place, column) in columns.iter().enumerate() {
        let range = range_at(ranges, place);
        push_line(alloc, names, labels, "cost", &column.key, range, text)?;
    }
    Ok(())
}
