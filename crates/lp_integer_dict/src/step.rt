//! The exchange of rows if it stays within the bound.
ghost use Rattle.std.specs.Prelude.{◌≡◌, ℕ, ◌<◌, ◌^◌, pos, true, false, length, IfOk, MatchOption};
ghost use Rattle.gq_number.specs.Number.{whole};
ghost use Rattle.gq_number.specs.Order.{◌<ℚ◌};
ghost use Rattle.lp_integer_rows.specs.Form.{AreLines, AreBounded, AreSameLines, lines_number};
ghost use Rattle.lp_integer_dict.specs.WithinBound.{IsRoomyPlan, AreExchangedWithin, FactorsExceed, ExchangeExceeds};

use crate::apart::turn_apart;
use crate::bounds::deferred_stays_within_after;
use lp_integer_rows::{Factors, Line, exchange_lines, plan_lines, reduce_lines};
use std::alloc::{AllocError, Global};

/// The factors of an exchange at a place and a column, if it and what follows it stay within the
/// bound.
fn plan_once(
    alloc: Global,
    lines: &[Line],
    place: usize,
    leaving: usize,
    column: usize,
    bound: u128,
) -> Result<Option<Vec<Factors>>, AllocError>
    requires lines { (width : ℕ) × AreLines width lines.now × (1 < width) × (column < width) }
    requires within { (place < length lines.now) × (leaving < length lines.now) }
    requires small { bound < 2 ^ 127 }
    requires bounded { AreBounded bound lines.now }
    requires above { whole (pos 0) <ℚ lines_number lines.now place column }
    ensures { IfOk result (λ o. MatchOption o (FactorsExceed bound column place leaving lines.now)
        (λ plans. IsRoomyPlan bound column place leaving lines.now plans.items)) }
{
    let plans = plan_lines(alloc, lines, place, column, &lines[place], bound)?;
    let Some(plans) = plans else {
        return Ok(None);
    };
    if leaving == place {
        return Ok(Some(plans));
    }
    if !deferred_stays_within_after(lines, plans.as_slice(), place, leaving, bound) {
        return Ok(None);
    }
    Ok(Some(plans))
}

/// The factors of an exchange, if need be after all rows were divided by their common divisors.
fn plan_exchange(
    alloc: Global,
    lines: &mut Vec<Line>,
    place: usize,
    leaving: usize,
    column: usize,
    bound: u128,
) -> Result<Option<Vec<Factors>>, AllocError>
    requires lines { (width : ℕ) × AreLines width lines.old.items × (1 < width) × (column < width) }
    requires within { (place < length lines.old.items) × (leaving < length lines.old.items) }
    requires small { bound < 2 ^ 127 }
    requires bounded { AreBounded bound lines.old.items }
    requires above { whole (pos 0) <ℚ lines_number lines.old.items place column }
    ensures same { IfOk result (λ _. AreSameLines lines.old.items lines.new.items) }
    ensures planned { IfOk result (λ o. MatchOption o (FactorsExceed bound column place leaving lines.new.items)
        (λ plans. IsRoomyPlan bound column place leaving lines.new.items plans.items)) }
{
    let plans = plan_once(alloc, lines.as_slice(), place, leaving, column, bound)?;
    if plans.is_some() {
        return Ok(plans);
    }
    reduce_lines(alloc, lines)?;
    plan_once(alloc, lines.as_slice(), place, leaving, column, bound)
}

/// Exchanges the rows at a place and a column, if by their factors it and what follows it stay
/// within the bound; else the rows mean the same numbers as before, and the answer is `false`. The
/// error is out of memory.
fn turn_planned(
    alloc: Global,
    lines: &mut Vec<Line>,
    place: usize,
    leaving: usize,
    column: usize,
    bound: u128,
) -> Result<bool, AllocError>
    requires lines { (width : ℕ) × AreLines width lines.old.items × (1 < width) × (column < width) }
    requires within { (place < length lines.old.items) × (leaving < length lines.old.items) }
    requires small { bound < 2 ^ 127 }
    requires bounded { AreBounded bound lines.old.items }
    requires above { whole (pos 0) <ℚ lines_number lines.old.items place column }
    ensures turned { IfOk result (λ done. done ≡ true → AreExchangedWithin bound column place leaving lines.old.items lines.new.items) }
    ensures same { IfOk result (λ done. done ≡ false → AreSameLines lines.old.items lines.new.items) }
    ensures none { IfOk result (λ done. done ≡ false → FactorsExceed bound column place leaving lines.new.items) }
{
    let plans = plan_exchange(alloc, lines, place, leaving, column, bound)?;
    let Some(plans) = plans else {
        return Ok(false);
    };
    exchange_lines(alloc, lines, plans.as_slice(), place, column)?;
    Ok(true)
}

/// Makes the exchange of the row at `place` and the variable at `column`, whose number there is
/// above 0. It is made if by its factors it stays within the bound, and with it a deferred exchange
/// of variable 0 into the row `leaving`; or if the rows that it makes do. Then the answer is
/// `true`. Else it is `false`, and the rows mean the same numbers as before. The error is out of
/// memory.
pub(crate) fn turn_lines(
    alloc: Global,
    lines: &mut Vec<Line>,
    place: usize,
    leaving: usize,
    column: usize,
    bound: u128,
) -> Result<bool, AllocError>
    requires lines { (width : ℕ) × AreLines width lines.old.items × (1 < width) × (column < width) }
    requires within { (place < length lines.old.items) × (leaving < length lines.old.items) }
    requires small { bound < 2 ^ 127 }
    requires bounded { AreBounded bound lines.old.items }
    requires above { whole (pos 0) <ℚ lines_number lines.old.items place column }
    ensures turned { IfOk result (λ done. done ≡ true → AreExchangedWithin bound column place leaving lines.old.items lines.new.items) }
    ensures same { IfOk result (λ done. done ≡ false → AreSameLines lines.old.items lines.new.items) }
    ensures none { IfOk result (λ done. done ≡ false → ExchangeExceeds bound column place leaving lines.new.items) }
{
    let planned = turn_planned(alloc, lines, place, leaving, column, bound)?;
    if planned {
        return Ok(true);
    }
    turn_apart(alloc, lines, place, leaving, column, bound)
}
