//! The choice of the leaving variable, by the least constant or the least ratio; and the first
//! variable whose number in a row is above 0.
ghost use Rattle.std.specs.Prelude.{◌≡◌, ℕ, ◌+◌, ◌*◌, ◌<◌, ◌^◌, pos, length, MatchOption};
ghost use Rattle.gq_number.specs.Number.{whole, ◌/ℚ◌};
ghost use Rattle.gq_number.specs.Order.{◌<ℚ◌, number_cmp};
ghost use Rattle.lp_integer_rows.specs.Form.{wholes, lines_number, numbers_above};
ghost use Rattle.lp_integer_dict.specs.WithinBound.{AreWhole, IsNumberAbove};
ghost use Rattle.lp_integer_dict.specs.InnerChoice.{fraction, IsFraction, IsLesser, IsLeastConstant, IsLeastRatio, IsFirstAbove};

use crate::read::{Fraction, above_at, read, read_below};
use lp_integer_rows::Line;
use lp_integers::compare_ratios;
use std::cmp::Ordering;

/// A basic variable that may leave, and its measure: the constant or the ratio of its row.
#[derive(Clone, Copy)]
pub(crate) struct Candidate {
    pub(crate) measure: Fraction,
    pub(crate) variable: u32,
}

/// How two numbers compare.
#[inline(always)]
fn compare(x: Fraction, y: Fraction) -> Ordering
    requires first { IsFraction x }
    requires second { IsFraction y }
    ensures { result ≡ number_cmp (fraction x) (fraction y) }
{
    compare_ratios(x.numerator, x.denominator, y.numerator, y.denominator)
}

/// The candidate with the lesser number, and of equal ones the one with the lesser variable.
#[inline(always)]
fn lesser(best: Option<Candidate>, other: Candidate) -> Candidate
    requires best { MatchOption best (Unit {0}) (λ b. IsFraction b.measure) }
    requires other { IsFraction other.measure }
    ensures { IsLesser best other result }
{
    let Some(best) = best else {
        return other;
    };
    match compare(other.measure, best.measure) {
        Ordering::Less => other,
        Ordering::Greater => best,
        Ordering::Equal => {
            if other.variable < best.variable {
                other
            } else {
                best
            }
        }
    }
}

/// The constant of a row, if it is below 0.
fn constant_below(lines: &[Line], deferred: Option<usize>, place: usize) -> Option<Fraction>
    requires lines { (width bound : ℕ) × AreWhole lines.now deferred width bound }
    requires within { place < length lines.now }
    ensures { MatchOption result (¬ (numbers_above deferred (lines_number lines.now) place 0 <ℚ whole (pos 0)))
        (λ f. IsFraction f × (numbers_above deferred (lines_number lines.now) place 0 <ℚ whole (pos 0)) ×
        (fraction f ≡ numbers_above deferred (lines_number lines.now) place 0)) }
{
    let constant = read(lines, deferred, place, 0);
    if constant.numerator < 0 {
        Some(constant)
    } else {
        None
    }
}

/// How far a row lets a variable rise, if its number in the row is above 0; `above` is its integer
/// in the row in which variable 0 is deferred.
#[inline(always)]
fn ratio_of(
    lines: &[Line],
    deferred: Option<usize>,
    place: usize,
    column: usize,
    above: i128,
) -> Option<Fraction>
    requires lines { (width bound : ℕ) × AreWhole lines.now deferred width bound × (column < width) }
    requires within { place < length lines.now }
    requires above { IsNumberAbove deferred lines.now column above }
    ensures { MatchOption result (¬ (whole (pos 0) <ℚ numbers_above deferred (lines_number lines.now) place column))
        (λ f. IsFraction f × (whole (pos 0) <ℚ numbers_above deferred (lines_number lines.now) place column)
        × (fraction f ≡ numbers_above deferred (lines_number lines.now) place 0 /ℚ numbers_above deferred (lines_number lines.now) place column)) }
{
    let number = read_below(lines, deferred, place, column, above);
    if number.numerator <= 0 {
        return None;
    }
    let constant = read(lines, deferred, place, 0);
    Some(Fraction {
        numerator: constant.numerator,
        denominator: number.numerator as u128,
    })
}

/// The basic variable of a row with the least constant below 0, and of several such the one with
/// the least number. `None` if no constant is below 0. `deferred` is the row in which variable 0 is
/// deferred.
pub(crate) fn least_constant(
    lines: &[Line],
    deferred: Option<usize>,
    basic: &[u32],
) -> Option<Candidate>
    requires lines { (width bound : ℕ) × AreWhole lines.now deferred width bound }
    requires paired { length lines.now ≡ length basic.now + 1 }
    ensures { IsLeastConstant (numbers_above deferred (lines_number lines.now)) basic.now (length basic.now) result }
{
    let mut best = None;
    for place in 0..basic.len() {
        let Some(measure) = constant_below(lines, deferred, place) else {
            continue;
        };
        let variable = basic[place];
        best = Some(lesser(best, Candidate { measure, variable }));
    }
    best
}

/// The basic variable of a row with the least ratio of its constant to its number at `column`,
/// among rows where that number is above 0, and of several such the one with the least number.
/// `None` if there is no such row. `deferred` is the row in which variable 0 is deferred.
pub(crate) fn least_ratio(
    lines: &[Line],
    deferred: Option<usize>,
    basic: &[u32],
    column: usize,
) -> Option<Candidate>
    requires lines { (width bound : ℕ) × AreWhole lines.now deferred width bound × (column < width) }
    requires paired { length lines.now ≡ length basic.now + 1 }
    ensures { IsLeastRatio (numbers_above deferred (lines_number lines.now)) basic.now column (length basic.now) result }
{
    let above = above_at(lines, deferred, column);
    let mut best = None;
    for place in 0..basic.len() {
        let Some(measure) = ratio_of(lines, deferred, place, column, above) else {
            continue;
        };
        let variable = basic[place];
        best = Some(lesser(best, Candidate { measure, variable }));
    }
    best
}

/// The least variable from 1 on whose number in a row is above 0; `None` if there is none.
pub(crate) fn first_above(line: &Line) -> Option<u32>
    requires { length (wholes line.now) < 2 ^ 32 }
    ensures { IsFirstAbove line.now result }
{
    match line.numbers.first_above(2) {
        Some(column) => Some(column as u32 - 1),
        None => None,
    }
}
