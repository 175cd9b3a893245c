//! The exchange in a copy of the rows, which is used if the result stays within the bound.
ghost use Rattle.std.specs.Prelude.{◌≡◌, ℕ, ◌<◌, ◌^◌, pos, true, false, length, IfOk, IsTrue, ◌↔◌, MatchOption};
ghost use Rattle.gq_number.specs.Number.{whole};
ghost use Rattle.gq_number.specs.Order.{◌<ℚ◌};
ghost use Rattle.lp_integer_rows.specs.Form.{AreLines, AreSameLines, AreLowest, lines_number};
ghost use Rattle.lp_integer_dict.specs.WithinBound.{ExchangedStayWithin, AreExchangedWithin, MadeRowsExceed};

use crate::bounds::{all_within, deferred_stays_within};
use lp_integer_rows::{Line, copied_line, exchange_lines, plan_lines, settle};
use std::alloc::{AllocError, Global};

/// The greatest magnitude of an intermediate integer.
const MOST: u128 = (1 << 127) - 1;

/// A copy of the rows. The error is out of memory.
fn copied_lines(alloc: Global, lines: &[Line]) -> Result<Vec<Line>, AllocError>
    ensures { IfOk result (λ copies. copies.items ≡ lines.now) }
{
    let mut copies = Vec::with_capacity(alloc, lines.len())?;
    for line in lines {
        let copy = copied_line(alloc, line)?;
        copies.push(copy)?;
    }
    Ok(copies)
}

/// Brings each row to lowest terms, and measures it. The error is out of memory.
fn settle_lines(alloc: Global, lines: &mut Vec<Line>) -> Result<(), AllocError>
    requires { (width : ℕ) × AreLines width lines.old.items }
    ensures same { IfOk result (λ _. AreSameLines lines.old.items lines.new.items) }
    ensures lowest { IfOk result (λ _. AreLowest lines.new.items) }
{
    for i in 0..lines.len() {
        let line = &mut lines[i];
        settle(alloc, line)?;
    }
    Ok(())
}

/// Whether rows stay within the bound after an exchange at a place.
fn exchanged_stay_within(lines: &[Line], place: usize, leaving: usize, bound: u128) -> bool
    requires small { bound < 2 ^ 127 }
    requires lines { (width : ℕ) × AreLines width lines.now × (1 < width) }
    requires within { leaving < length lines.now }
    ensures { IsTrue result ↔ ExchangedStayWithin bound place leaving lines.now }
{
    if !all_within(lines, bound) {
        return false;
    }
    if leaving == place {
        return true;
    }
    deferred_stays_within(lines, leaving, bound)
}

/// The rows after an exchange at a place and a column, made apart and in lowest terms. None if on
/// the way an integer might have more than 127 bits, or the result exceeds the bound. The error is
/// out of memory.
fn made_apart(
    alloc: Global,
    lines: &[Line],
    place: usize,
    leaving: usize,
    column: usize,
    bound: u128,
) -> Result<Option<Vec<Line>>, AllocError>
    requires lines { (width : ℕ) × AreLines width lines.now × (1 < width) × (column < width) }
    requires within { (place < length lines.now) × (leaving < length lines.now) }
    requires small { bound < 2 ^ 127 }
    requires above { whole (pos 0) <ℚ lines_number lines.now place column }
    ensures { IfOk result (λ o. MatchOption o (MadeRowsExceed bound column place leaving lines.now)
        (λ made. AreExchangedWithin bound column place leaving lines.now made.items)) }
{
    let plans = plan_lines(alloc, lines, place, column, &lines[place], MOST)?;
    let Some(plans) = plans else {
        return Ok(None);
    };
    let mut made = copied_lines(alloc, lines)?;
    exchange_lines(alloc, &mut made, plans.as_slice(), place, column)?;
    settle_lines(alloc, &mut made)?;
    if !exchanged_stay_within(made.as_slice(), place, leaving, bound) {
        return Ok(None);
    }
    Ok(Some(made))
}

/// Makes the exchange of the row at `place` and the variable at `column` in a copy of the rows, and
/// brings the result to lowest terms. `true`: it stays within the bound, and replaces the rows.
/// `false`: it does not, or an estimate on the way has more than 127 bits; the rows are unchanged.
/// The error is out of memory.
pub(crate) fn turn_apart(
    alloc: Global,
    lines: &mut Vec<Line>,
    place: usize,
    leaving: usize,
    column: usize,
    bound: u128,
) -> Result<bool, AllocError>
    requires lines { (width : ℕ) × AreLines width lines.old.items × (1 < width) × (column < width) }
    requires within { (place < length lines.old.items) × (leaving < length lines.old.items) }
    requires small { bound < 2 ^ 127 }
    requires above { whole (pos 0) <ℚ lines_number lines.old.items place column }
    ensures turned { IfOk result (λ done. done ≡ true → AreExchangedWithin bound column place leaving lines.old.items lines.new.items) }
    ensures same { IfOk result (λ done. done ≡ false → lines.new.items ≡ lines.old.items) }
    ensures none { IfOk result (λ done. done ≡ false → MadeRowsExceed bound column place leaving lines.old.items) }
{
    let made = made_apart(alloc, lines.as_slice(), place, leaving, column, bound)?;
    let Some(made) = made else {
        return Ok(false);
    };
    *lines = made;
    Ok(true)
}
