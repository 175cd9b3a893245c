//! How stored rows change with the deferred exchange of variable 0: the coefficient of variable 0
//! in its row is made positive, and once variable 0 has left its coefficients are made 0.
ghost use Rattle.std.specs.Prelude.{◌≡◌, ◌≢◌, ℕ, ◌<◌, pos, length, slice_get, Some};
ghost use Rattle.lp_integer_rows.specs.declared.line.Line.{Line};
ghost use Rattle.lp_integers.specs.Lines.{whole_at};
ghost use Rattle.lp_integer_rows.specs.Form.{wholes, IsLine, AreLines, IsForgottenLine, IsRaisedLine, AreForgotten, IsRaisedAt, AreSwapped};

use crate::exchange::{no_line, put_line};
use crate::leading::Leading;
use crate::line::{Line, number_at};
use std::alloc::Global;

/// Sets a row's coefficient of variable 0, at column 1, to 0.
fn forget(line: &mut Line)
    requires line { IsLine line.old }
    requires within { 1 < length (wholes line.old) }
    ensures { IsForgottenLine line.old line.new }
{
    line.numbers.clear(1);
    line.leading = Leading::of(&line.numbers);
}

/// Replaces the coefficient of variable 0, at column 1, in each row with 0.
pub fn forget_zero(lines: &mut Vec<Line>)
    requires { (width : ℕ) × AreLines width lines.old.items × (1 < width) }
    ensures { AreForgotten lines.old.items lines.new.items }
{
    for i in 0..lines.len() {
        let line = &mut lines[i];
        forget(line);
    }
}

/// Negates a row if its coefficient of variable 0, at column 1, is below 0.
fn raise(line: &mut Line)
    requires line { IsLine line.old }
    requires within { 1 < length (wholes line.old) }
    requires some { whole_at (wholes line.old) 1 ≢ pos 0 }
    ensures { IsRaisedLine line.old line.new }
{
    let number = number_at(line, 1);
    if number < 0 {
        line.numbers.negate();
        line.leading = Leading::of(&line.numbers);
    }
}

/// Negates row `k`, counted from 0, if its coefficient of variable 0, at column 1, is negative;
/// that coefficient is required not to be 0.
pub fn raise_at(lines: &mut Vec<Line>, k: usize)
    requires lines { (width : ℕ) × AreLines width lines.old.items × (1 < width) }
    requires within { k < length lines.old.items }
    requires some { (x : Line) → slice_get lines.old.items k ≡ Some x → whole_at (wholes x) 1 ≢ pos 0 }
    ensures { IsRaisedAt k lines.old.items lines.new.items }
{
    let line = &mut lines[k];
    raise(line);
}

/// Exchanges the places of two different rows, `k` and `l`, counted from 0.
pub fn swap_lines(alloc: Global, lines: &mut Vec<Line>, k: usize, l: usize)
    requires first { k < length lines.old.items }
    requires second { l < length lines.old.items }
    requires apart { k ≢ l }
    ensures { AreSwapped k l lines.old.items lines.new.items }
{
    let first = put_line(lines, k, no_line(alloc));
    let second = put_line(lines, l, first);
    let _ = put_line(lines, k, second);
}
