//! A row of a dictionary: integers, one for each column, over one denominator.
ghost use Rattle.std.specs.Prelude.{◌≡◌, ◌⊎◌, ℕ, ◌+◌, ◌*◌, ◌<◌, ◌≤◌, ◌^◌, ◌-◌, pos, ◌<ℤ◌, nat_abs, length, true, false, IfOk, MatchOption};
ghost use Rattle.lp_integers.specs.Lines.{whole_at, AreWithin, ArePlaces};
ghost use Rattle.lp_integer_rows.specs.Marks.{AreMarked};
ghost use Rattle.lp_integer_rows.specs.Form.{wholes, IsLine, AreFactors, IsPlanned, IsCrowded, IsLessenedLine, IsDividedLine, IsSameLine, IsReducedLine, IsLowest, own_factors};

use crate::leading::Leading;
use crate::marks::Marks;
use lp_integers::{Numbers, gcd, greatest, sum_within};
use std::alloc::{AllocError, Global};

/// A row of fractions, one for each column: integers over one denominator. Neither the denominator
/// nor the magnitude of any integer exceeds `most`. The columns whose integer is not 0 have
/// `marks`, and perhaps others too. `leading` has the first two integers once more.
#[derive(Drop)]
pub struct Line {
    pub numbers: Numbers,
    pub denominator: u128,
    pub most: u128,
    pub marks: Marks,
    pub leading: Leading,
}

impl Line {
    /// The row of these integers, one for each column, over this denominator, which must be above
    /// 0. The denominator and the magnitudes of the integers must have at most 127 bits; `most` is
    /// the greatest of these. The only error is out of memory.
    pub fn new(alloc: Global, numbers: Vec<i128>, denominator: u128) -> Result<Line, AllocError>
        requires positive { 0 < denominator }
        requires small { denominator < 2 ^ 127 }
        requires numbers_small { AreWithin numbers.items (2 ^ 127 - 1) }
        ensures line { IfOk result IsLine }
        ensures numbers { IfOk result (λ l. wholes l ≡ numbers.items) }
        ensures denominator { IfOk result (λ l. l.denominator ≡ denominator) }
        ensures most { IfOk result (λ l. (m : ℕ) → AreWithin numbers.items m → denominator ≤ m → l.most ≤ m) }
    {
        let most = greatest(numbers.as_slice(), denominator);
        let numbers = Numbers::of(alloc, numbers, most)?;
        let leading = Leading::of(&numbers);
        Ok(Line {
            numbers,
            denominator,
            most,
            marks: Marks::everywhere(),
            leading,
        })
    }

    /// The row of these integers of one word each, one for each column, over this denominator. Each
    /// column without one of these marks has the integer 0. The error is out of memory.
    pub(crate) fn of_words(
        alloc: Global,
        words: Vec<i64>,
        denominator: u128,
        marks: Marks,
    ) -> Result<Line, AllocError>
        requires positive { 0 < denominator }
        requires small { denominator < 2 ^ 127 }
        requires words_small { AreWithin words.items (2 ^ 63 - 1) }
        requires marked { AreMarked words.items marks }
        ensures line { IfOk result IsLine }
        ensures numbers { IfOk result (λ l. wholes l ≡ words.items) }
        ensures denominator { IfOk result (λ l. l.denominator ≡ denominator) }
    {
        let numbers = Numbers::of_words(alloc, words)?;
        let greatest = numbers.greatest();
        let leading = Leading::of(&numbers);
        Ok(Line {
            numbers,
            denominator,
            most: greatest.max(denominator),
            marks,
            leading,
        })
    }
}

/// A copy of a row. The error is out of memory.
pub fn copied_line(alloc: Global, line: &Line) -> Result<Line, AllocError>
    ensures { IfOk result (λ copy. copy ≡ line.now) }
{
    let numbers = line.numbers.copy(alloc)?;
    Ok(Line {
        numbers,
        denominator: line.denominator,
        most: line.most,
        marks: line.marks,
        leading: line.leading,
    })
}

/// The factors of a row in an exchange, which replaces the row's integers by `line` times these
/// less `pivot` times the pivot row's. `most` is a number that no integer of the resulting row
/// exceeds in magnitude.
#[derive(Clone, Copy)]
pub struct Factors {
    pub line: i128,
    pub pivot: i128,
    pub most: u128,
}

impl Factors {
    /// The factors that leave a row as it is: 1 for the row, 0 for the pivot row.
    pub(crate) fn of_own(line: &Line) -> Factors
        ensures { result ≡ own_factors line.now }
    {
        Factors {
            line: 1,
            pivot: 0,
            most: line.most,
        }
    }
}

/// The integer that a row has at a column, counted from 0.
#[inline(always)]
pub fn number_at(line: &Line, column: usize) -> i128
    requires { column < length (wholes line.now) }
    ensures { result ≡ whole_at (wholes line.now) column }
{
    line.numbers.at(column)
}

/// The integer of a row at a column, counted from 0. The integers of columns 0 and 1 are stored
/// also outside the row's list of integers; at a column without a mark the integer is 0. The list
/// is read only at a later column with a mark.
#[inline(always)]
pub fn marked_number_at(line: &Line, column: usize) -> i128
    requires line { IsLine line.now }
    requires within { column < length (wholes line.now) }
    ensures { result ≡ whole_at (wholes line.now) column }
{
    if column == 0 {
        return line.leading.constant;
    }
    if column == 1 {
        return line.leading.zero;
    }
    if line.marks.includes(column) {
        return number_at(line, column);
    }
    0
}

/// The magnitude of the integer that a row has at a column, counted from 0.
#[inline(always)]
pub fn magnitude_at(line: &Line, column: usize) -> u128
    requires line { IsLine line.now }
    requires within { column < length (wholes line.now) }
    ensures value { result ≡ nat_abs (whole_at (wholes line.now) column) }
    ensures small { result < 2 ^ 127 }
{
    marked_number_at(line, column).unsigned_abs()
}

/// `p` and `f`, in this order, each divided by their greatest common divisor. `p`, above 0, is the
/// pivot row's integer at the column of the entering variable, and `f` is another row's integer
/// there.
pub fn reduced_pair(f: i128, p: i128) -> (i128, i128)
    requires { pos 0 <ℤ p }
    ensures { AreFactors f p result.0 result.1 }
{
    let shared = gcd(f.unsigned_abs(), p.unsigned_abs());
    if shared == 1 {
        return (p, f);
    }
    let divisor = shared as i128;
    (p / divisor, f / divisor)
}

/// |`a`| * `most` + |`b`| * `other`, a bound for the magnitudes of the integers of `a` times one
/// row less `b` times another row, if `most` is a bound for those of the one row and `other` for
/// those of the other row. `None` if the result would exceed `bound`.
pub fn within_bound(a: i128, most: u128, b: i128, other: u128, bound: u128) -> Option<u128>
    requires { bound < 2 ^ 127 }
    ensures { MatchOption result (bound < nat_abs a * most + nat_abs b * other) (λ m. (m ≡ nat_abs a * most + nat_abs b * other) × (m ≤ bound)) }
{
    sum_within(bound, a.unsigned_abs(), most, b.unsigned_abs(), other)
}

/// The factors of a row whose number at the column is not 0. None if an integer might exceed the
/// bound.
fn plan_some(line: &Line, column: usize, pivot: &Line, bound: u128) -> Option<Factors>
    requires small { bound < 2 ^ 127 }
    requires line { IsLine line.now }
    requires pivot { IsLine pivot.now }
    requires sized { length (wholes pivot.now) ≡ length (wholes line.now) }
    requires within { column < length (wholes line.now) }
    requires above { pos 0 <ℤ whole_at (wholes pivot.now) column }
    ensures { MatchOption result (IsCrowded bound column line.now pivot.now) (IsPlanned bound column line.now pivot.now) }
{
    let (a, b) = reduced_pair(number_at(line, column), number_at(pivot, column));
    match within_bound(a, line.most, b, pivot.most, bound) {
        Some(most) => Some(Factors {
            line: a,
            pivot: b,
            most,
        }),
        None => None,
    }
}

/// The factors of a row in an exchange at `column`. `None` means that the estimate of the row's
/// integers exceeds the bound.
pub(crate) fn plan(line: &Line, column: usize, pivot: &Line, bound: u128) -> Option<Factors>
    requires small { bound < 2 ^ 127 }
    requires line { IsLine line.now }
    requires pivot { IsLine pivot.now }
    requires sized { length (wholes pivot.now) ≡ length (wholes line.now) }
    requires within { column < length (wholes line.now) }
    requires above { pos 0 <ℤ whole_at (wholes pivot.now) column }
    requires bounded { line.now.most ≤ bound }
    ensures { MatchOption result (IsCrowded bound column line.now pivot.now) (IsPlanned bound column line.now pivot.now) }
{
    if marked_number_at(line, column) == 0 {
        return Some(Factors::of_own(line));
    }
    plan_some(line, column, pivot, bound)
}

/// Subtracts from a row the multiple of the pivot row that makes its number at the column 0, by
/// these factors. The only error is out of memory.
fn lessen_line(
    alloc: Global,
    line: &mut Line,
    factors: Factors,
    pivot: &Line,
) -> Result<(), AllocError>
    requires line { IsLine line.old }
    requires pivot { IsLine pivot.now }
    requires sized { length (wholes pivot.now) ≡ length (wholes line.old) }
    requires planned { (bound column : ℕ) × (bound < 2 ^ 127) × IsPlanned bound column line.old pivot.now factors ×
        (pos 0 <ℤ whole_at (wholes pivot.now) column) }
    ensures { IfOk result (λ _. (bound column : ℕ) → bound < 2 ^ 127 → pos 0 <ℤ whole_at (wholes pivot.now) column →
        IsPlanned bound column line.old pivot.now factors → IsLessenedLine column line.old pivot.now line.new factors) }
{
    let most = line.numbers.lessen(
        alloc,
        factors.line,
        factors.pivot,
        &pivot.numbers,
        factors.most,
    )?;
    line.denominator *= factors.line as u128;
    line.most = most.max(line.denominator);
    line.marks = line.marks.joined(pivot.marks);
    line.leading = Leading::of(&line.numbers);
    Ok(())
}

/// Subtracts from a row, whose factor is 1, a multiple of the pivot row, at the places at which the
/// pivot row is not 0, if that is quick; else the row stays, and the answer is `false`.
fn lessen_once(line: &mut Line, factors: Factors, pivot: &Line, places: &[usize]) -> bool
    requires line { IsLine line.old }
    requires pivot { IsLine pivot.now }
    requires sized { length (wholes pivot.now) ≡ length (wholes line.old) }
    requires once { factors.line ≡ pos 1 }
    requires places { ArePlaces (wholes pivot.now) (length (wholes pivot.now)) places.now }
    requires planned { (bound column : ℕ) × (bound < 2 ^ 127) × IsPlanned bound column line.old pivot.now factors ×
        (pos 0 <ℤ whole_at (wholes pivot.now) column) }
    ensures lessened { result ≡ true → (bound column : ℕ) → bound < 2 ^ 127 → pos 0 <ℤ whole_at (wholes pivot.now) column →
        IsPlanned bound column line.old pivot.now factors → IsLessenedLine column line.old pivot.now line.new factors }
    ensures same { result ≡ false → line.new ≡ line.old }
{
    let least = line.most;
    let Some(most) = line
        .numbers
        .lessen_at(factors.pivot, &pivot.numbers, places, least, factors.most)
    else {
        return false;
    };
    line.most = most;
    line.marks = line.marks.joined(pivot.marks);
    line.leading = Leading::of(&line.numbers);
    true
}

/// Subtracts a multiple of the pivot row from a row by any factors, if that is quick; else the row
/// stays, and the answer is `false`.
fn lessen_quickly(line: &mut Line, factors: Factors, pivot: &Line, places: &[usize]) -> bool
    requires line { IsLine line.old }
    requires pivot { IsLine pivot.now }
    requires sized { length (wholes pivot.now) ≡ length (wholes line.old) }
    requires places { ArePlaces (wholes pivot.now) (length (wholes pivot.now)) places.now }
    requires planned { (bound column : ℕ) × (bound < 2 ^ 127) × IsPlanned bound column line.old pivot.now factors ×
        (pos 0 <ℤ whole_at (wholes pivot.now) column) }
    ensures lessened { result ≡ true → (bound column : ℕ) → bound < 2 ^ 127 → pos 0 <ℤ whole_at (wholes pivot.now) column →
        IsPlanned bound column line.old pivot.now factors → IsLessenedLine column line.old pivot.now line.new factors }
    ensures same { result ≡ false → line.new ≡ line.old }
{
    if factors.line == 1 {
        return lessen_once(line, factors, pivot, places);
    }
    false
}

/// Subtracts from a row the multiple of the pivot row by these factors, in the quicker way. The
/// only error is out of memory.
fn lessen(
    alloc: Global,
    line: &mut Line,
    factors: Factors,
    pivot: &Line,
    places: &[usize],
) -> Result<(), AllocError>
    requires line { IsLine line.old }
    requires pivot { IsLine pivot.now }
    requires sized { length (wholes pivot.now) ≡ length (wholes line.old) }
    requires places { ArePlaces (wholes pivot.now) (length (wholes pivot.now)) places.now }
    requires planned { (bound column : ℕ) × (bound < 2 ^ 127) × IsPlanned bound column line.old pivot.now factors ×
        (pos 0 <ℤ whole_at (wholes pivot.now) column) }
    ensures { IfOk result (λ _. (bound column : ℕ) → bound < 2 ^ 127 → pos 0 <ℤ whole_at (wholes pivot.now) column →
        IsPlanned bound column line.old pivot.now factors → IsLessenedLine column line.old pivot.now line.new factors) }
{
    if lessen_quickly(line, factors, pivot, places) {
        return Ok(());
    }
    lessen_line(alloc, line, factors, pivot)
}

/// The magnitude above which a row is divided by its common divisor: somewhat less than half the
/// bits of a word.
const DUE: u128 = 1 << 30;

/// Divides a row by the common divisor of its integers and denominator, if that is likely to help:
/// if the row was multiplied by a factor other than 1, which then divides many of its integers, or
/// if its integers are great. The error is out of memory.
fn reduce_if_useful(alloc: Global, line: &mut Line, factor: i128) -> Result<(), AllocError>
    requires { IsLine line.old }
    ensures { IfOk result (λ _. IsSameLine line.old line.new) }
{
    if factor == 1 && line.most <= DUE {
        return Ok(());
    }
    reduce(alloc, line)
}

/// Subtracts from a row the multiple of the pivot row by these factors, and divides the row by its
/// common divisor if its integers are great or were multiplied. `places` are the columns at which
/// the pivot row is not 0. The only error is out of memory.
pub(crate) fn apply(
    alloc: Global,
    line: &mut Line,
    factors: Factors,
    pivot: &Line,
    places: &[usize],
) -> Result<(), AllocError>
    requires line { IsLine line.old }
    requires pivot { IsLine pivot.now }
    requires sized { length (wholes pivot.now) ≡ length (wholes line.old) }
    requires places { ArePlaces (wholes pivot.now) (length (wholes pivot.now)) places.now }
    requires planned { (bound column : ℕ) × (bound < 2 ^ 127) × IsPlanned bound column line.old pivot.now factors ×
        (pos 0 <ℤ whole_at (wholes pivot.now) column) }
    ensures { IfOk result (λ _. (bound column : ℕ) → bound < 2 ^ 127 → pos 0 <ℤ whole_at (wholes pivot.now) column →
        IsPlanned bound column line.old pivot.now factors → IsLessenedLine column line.old pivot.now line.new factors) }
{
    if factors.pivot == 0 {
        return Ok(());
    }
    lessen(alloc, line, factors, pivot, places)?;
    reduce_if_useful(alloc, line, factors.line)
}

/// Divides a row by the greatest common divisor of its integers and its denominator, which leaves
/// its numbers unchanged. The error is out of memory.
pub(crate) fn reduce(alloc: Global, line: &mut Line) -> Result<(), AllocError>
    requires { IsLine line.old }
    ensures same { IfOk result (λ _. IsSameLine line.old line.new) }
    ensures reduced { IfOk result (λ _. IsReducedLine line.new) }
{
    let divisor = line.numbers.divisor_of(line.denominator);
    if divisor == 1 {
        return Ok(());
    }
    line.numbers.divide(alloc, divisor)?;
    line.denominator /= divisor;
    line.most /= divisor;
    line.leading = Leading::of(&line.numbers);
    Ok(())
}

/// Divides the integers and the denominator of a row by their greatest common divisor, so that the
/// fractions that they represent stay the same. Then sets `most`, which before the call may exceed
/// all of them, to the greatest magnitude among the integers and the denominator. The error is out
/// of memory.
pub fn settle(alloc: Global, line: &mut Line) -> Result<(), AllocError>
    requires { IsLine line.old }
    ensures same { IfOk result (λ _. IsSameLine line.old line.new) }
    ensures lowest { IfOk result (λ _. IsLowest line.new) }
{
    reduce(alloc, line)?;
    let greatest = line.numbers.greatest();
    line.most = greatest.max(line.denominator);
    Ok(())
}

/// Divides a row by its number at `column`, which is above 0: its integers are unchanged, and the
/// one at the column becomes the denominator.
pub(crate) fn divide_pivot(line: &mut Line, column: usize)
    requires line { IsLine line.old }
    requires within { column < length (wholes line.old) }
    requires above { pos 0 <ℤ whole_at (wholes line.old) column }
    ensures { IsDividedLine column line.old line.new }
{
    let number = magnitude_at(line, column);
    line.denominator = number;
}
