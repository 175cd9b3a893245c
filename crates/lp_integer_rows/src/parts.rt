//! An integer row from entries that are fractions.
ghost use Rattle.std.specs.Prelude.{◌≡◌, ◌≢◌, ℕ, ◌*◌, ◌/◌, ◌<◌, ◌≤◌, ◌^◌, ◌-◌, nat_abs, length, slice_get, Some, IfOk, IfSome, MatchOption};
ghost use Rattle.std.specs.Int.{◌∣◌};
ghost use Rattle.gq_number.specs.Number.{ratio};
ghost use Rattle.lp_integers.specs.Lines.{AreWithin};
ghost use Rattle.lp_integer_rows.specs.declared.parts.Part.{Part};
ghost use Rattle.lp_integer_rows.specs.Marks.{IsClear};
ghost use Rattle.lp_integer_rows.specs.Form.{wholes, IsLine, line_number};
ghost use Rattle.lp_integer_rows.specs.Parts.{AreZeros, AreWithinColumns, HaveDistinctColumns, IsMultiple, HaveNoMultiple, HaveNoCommonMultiple, IsSomePast, HaveNoLine, AreFilled, AreParts};

use crate::line::Line;
use crate::marks::Marks;
use lp_integers::{gcd, product_within, zero_words};
use std::alloc::{AllocError, Global};

/// An entry of a row: a fraction at a column. Column 0 is that of the constant, and variable v has
/// the column `v + 1`.
#[derive(Clone, Copy)]
pub struct Part {
    /// The column of the entry: 0 for the constant, `v + 1` for the coefficient of variable v.
    pub column: u32,
    /// The numerator of the fraction at the column.
    pub numerator: i128,
    /// The denominator of the fraction at the column.
    pub denominator: u128,
}

/// The greatest magnitude that an integer or the denominator of a row may have.
const MOST: u128 = (1 << 127) - 1;

/// The least number above 0 that does not fit in an `i64`.
const WORD: u128 = 1 << 63;

/// The least common multiple of both; `None` if it exceeds 127 bits.
fn multiple_of(m: u128, d: u128) -> Option<u128>
    requires first { 0 < m }
    requires second { 0 < d }
    ensures { MatchOption result (HaveNoMultiple m d) (λ n. (0 < n) × (n < 2 ^ 127) × (m ∣ n) × (d ∣ n) × ((k : ℕ) → 0 < k → m ∣ k → d ∣ k → n ∣ k)) }
{
    let shared = gcd(m, d);
    product_within(MOST, m / shared, d)
}

/// The least common multiple of all denominators. None if it has more than 127 bits.
fn common_multiple(parts: &[Part]) -> Option<u128>
    requires { (i : ℕ) (p : Part) → slice_get parts.now i ≡ Some p → 0 < p.denominator }
    ensures { MatchOption result (HaveNoCommonMultiple parts.now) (IsMultiple parts.now (length parts.now)) }
{
    let mut multiple = 1;
    for i in 0..parts.len() {
        let Some(next) = multiple_of(multiple, parts[i].denominator) else {
            return None;
        };
        multiple = next;
    }
    Some(multiple)
}

/// The integer of a part over a multiple of its denominator. None if it has more than 127 bits.
fn scaled(part: Part, multiple: u128) -> Option<i128>
    requires positive { 0 < part.denominator }
    requires some { 0 < multiple }
    requires small { multiple < 2 ^ 127 }
    requires divides { part.denominator ∣ multiple }
    ensures { MatchOption result (2 ^ 127 ≤ nat_abs part.numerator * (multiple / part.denominator))
        (λ n. (nat_abs n < 2 ^ 127) × (ratio n multiple ≡ ratio part.numerator part.denominator)) }
{
    let factor = multiple / part.denominator;
    let Some(_magnitude) = product_within(MOST, part.numerator.unsigned_abs(), factor) else {
        return None;
    };
    Some(part.numerator * factor as i128)
}

/// The integer of a part over a multiple of its denominator, in one word. None if it exceeds a
/// word.
fn scaled_word(part: Part, multiple: u128) -> Option<i64>
    requires positive { 0 < part.denominator }
    requires some { 0 < multiple }
    requires small { multiple < 2 ^ 127 }
    requires divides { part.denominator ∣ multiple }
    ensures { IfSome result (λ n. (nat_abs n ≤ 2 ^ 63 - 1) × (ratio n multiple ≡ ratio part.numerator part.denominator)) }
{
    let Some(number) = scaled(part, multiple) else {
        return None;
    };
    if number.unsigned_abs() >= WORD {
        return None;
    }
    Some(number as i64)
}

/// The integers of a row over a common multiple of all denominators, in one word each. None if one
/// exceeds a word.
fn fill_words(
    alloc: Global,
    width: usize,
    parts: &[Part],
    multiple: u128,
) -> Result<Option<Vec<i64>>, AllocError>
    requires there { AreWithinColumns width parts.now }
    requires apart { HaveDistinctColumns parts.now }
    requires multiple { IsMultiple parts.now (length parts.now) multiple }
    ensures { IfOk result (λ o. IfSome o (λ words. AreFilled parts.now multiple width (length parts.now) words.items × AreWithin words.items (2 ^ 63 - 1))) }
{
    let mut words = zero_words(alloc, width)?;
    for i in 0..parts.len() {
        let part = parts[i];
        let Some(word) = scaled_word(part, multiple) else {
            return Ok(None);
        };
        words[part.column as usize] = word;
    }
    Ok(Some(words))
}

/// A list of `count` zeros.
fn zeros(alloc: Global, count: usize) -> Result<Vec<i128>, AllocError>
    ensures { IfOk result (λ list. AreZeros count list.items) }
{
    let mut list = Vec::new(alloc);
    list.resize(count, 0)?;
    Ok(list)
}

/// The integers of a row over a common multiple of all denominators. None if one has more than 127
/// bits.
fn fill(
    alloc: Global,
    width: usize,
    parts: &[Part],
    multiple: u128,
) -> Result<Option<Vec<i128>>, AllocError>
    requires there { AreWithinColumns width parts.now }
    requires apart { HaveDistinctColumns parts.now }
    requires multiple { IsMultiple parts.now (length parts.now) multiple }
    ensures { IfOk result (λ o. MatchOption o (IsSomePast parts.now multiple)
        (λ numbers. AreFilled parts.now multiple width (length parts.now) numbers.items)) }
{
    let mut numbers = zeros(alloc, width)?;
    for i in 0..parts.len() {
        let part = parts[i];
        let Some(number) = scaled(part, multiple) else {
            return Ok(None);
        };
        numbers[part.column as usize] = number;
    }
    Ok(Some(numbers))
}

/// Marks on the columns of parts.
fn marks_of(parts: &[Part]) -> Marks
    ensures { (c i : ℕ) (p : Part) → IsClear result c → slice_get parts.now i ≡ Some p → p.column ≢ c }
{
    let mut marks = Marks::nowhere();
    for i in 0..parts.len() {
        marks = marks.and_at(parts[i].column as usize);
    }
    marks
}

/// The row with `width` columns that has the entries `parts`, at distinct columns below `width`,
/// and 0 at every other column. `None` if over each common multiple of the entries' denominators of
/// at most 127 bits some integer of the row has more than 127 bits. The only error is out of
/// memory.
pub fn line_of_parts(
    alloc: Global,
    width: usize,
    parts: &[Part],
) -> Result<Option<Line>, AllocError>
    requires there { AreWithinColumns width parts.now }
    requires apart { HaveDistinctColumns parts.now }
    ensures line { IfOk result (λ o. MatchOption o (Unit {0}) (λ l. IsLine l × (length (wholes l) ≡ width))) }
    ensures numbers { IfOk result (λ o. MatchOption o (Unit {0}) (λ l. AreParts parts.now (line_number l))) }
    ensures none { IfOk result (λ o. MatchOption o (HaveNoLine parts.now) (λ _. Unit {0})) }
{
    let Some(multiple) = common_multiple(parts) else {
        return Ok(None);
    };
    if let Some(words) = fill_words(alloc, width, parts, multiple)? {
        let marks = marks_of(parts);
        let made = Line::of_words(alloc, words, multiple, marks)?;
        return Ok(Some(made));
    }
    let filled = fill(alloc, width, parts, multiple)?;
    let Some(numbers) = filled else {
        return Ok(None);
    };
    let line = Line::new(alloc, numbers, multiple)?;
    Ok(Some(line))
}
