//! Ranges of labels: `a1*a3` is `a1`, `a2`, `a3`.
ghost use Rattle.std.specs.Prelude.{ℕ, ◌≡◌, ◌≤◌, ◌<◌, ◌+◌, ◌-◌, ◌^◌, ◌++◌, true, map, length, IfOk, string_bytes, get_or, Some, None, if◌then◌else◌, IfSome};
ghost use Rattle.std.specs.Result.{IfErr};
ghost use Rattle.std.specs.List.{range_with_len};
ghost use Rattle.std.specs.Int.{IsInRange};
ghost use Rattle.std.specs.Str.{IsCharBoundary};
ghost use Rattle.gms_set.specs.Ranges.{digits_of, go_together, IsRangeError, is_numbered, is_padded, is_range, members, number_in_label, text_length, text_before_digits, digit_width, padded_digits};

use crate::fault::{SetError, SetFault, SetFaultOrMemory};
use gms_labels::Place;
use std::alloc::{AllocError, Global};

/// How many members a range may have.
const MOST_MEMBERS: u32 = 65_536;

/// How many digits the number of a label may have.
const MOST_DIGITS: usize = 9;

/// The members of the range `from*to`, in order: the text of `from` before its digits, followed by
/// each number from that of `from` to that of `to`. The digits at the end of a label mean its
/// number; `0` alone has no leading zeros. If that of `from` has leading zeros, those of all
/// members have as many digits; otherwise none has leading zeros.
///
/// There is no range if the texts before the digits differ, letter case ignored; a label ends in no
/// digits or in more than nine; the number of `to` is less than that of `from`; there are more than
/// 65,536 members; the number of `from` has leading zeros, and that of `to` another number of
/// digits; or only the number of `to` has leading zeros. The error is then BadRange at line 0 and
/// column 0. The only other error is out of memory. GAMS User's Guide, "Set Definition".
pub fn range(alloc: Global, from: &str, to: &str) -> Result<Vec<String>, SetFaultOrMemory>
    ensures members { IfOk result (λ labels. (is_range from.now to.now ≡ true) × (map string_bytes labels.items ≡ members from.now to.now)) }
    ensures fault { IfErr result (IsRangeError (is_range from.now to.now)) }
{
    match numbers(from, to) {
        Some((first, count)) => Ok(labels(alloc, from, first, count)?),
        None => Err(SetFaultOrMemory::Fault(SetFault {
            error: SetError::BadRange,
            at: Place { line: 0, column: 0 },
        })),
    }
}

/// The first number of a range, and how many numbers it has; `None` if the labels are no range.
fn numbers(from: &str, to: &str) -> Option<(u32, u32)>
    ensures value { result ≡ (if is_range from.now to.now then Some
        (number_in_label from.now, number_in_label to.now - number_in_label from.now + 1) else None) }
    ensures within_bound { IfSome result (λ numbers. numbers.0 + numbers.1 ≤ 2 ^ 32) }
{
    let (first_text, first_digits) = parts(from);
    let (last_text, last_digits) = parts(to);
    if !first_text.eq_ignore_ascii_case(last_text) {
        return None;
    }
    let first = number(from)?;
    let last = number(to)?;
    if goes_together(first_digits, last_digits) && first <= last && last - first < MOST_MEMBERS {
        Some((first, last - first + 1))
    } else {
        None
    }
}

/// The labels with the text of `from` and `count` numbers from `first` on.
fn labels(alloc: Global, from: &str, first: u32, count: u32) -> Result<Vec<String>, AllocError>
    requires within_bound { first + count ≤ 2 ^ 32 }
    ensures { IfOk result (λ labels. map string_bytes labels.items
        ≡ map (λ n. text_before_digits from.now ++ padded_digits (digit_width (digits_of from.now)) n) (range_with_len first count)) }
{
    let (text, digits) = parts(from);
    let width = width(digits);
    let mut labels = Vec::new(alloc);
    for place in 0..count {
        labels.push(label(alloc, text, width, first + place)?)?;
    }
    Ok(labels)
}

/// The text, followed by the number with zeros before it up to this width.
fn label(alloc: Global, text: &str, width: usize, number: u32) -> Result<String, AllocError>
    ensures { IfOk result (λ label. string_bytes label ≡ text.now ++ padded_digits width number) }
{
    let digits = format!(in alloc; "{number}")?;
    let mut label = String::from_str(alloc, text)?;
    for _ in 0..width.saturating_sub(digits.len()) {
        label.push('0')?;
    }
    label.push_str(digits.as_str())?;
    Ok(label)
}

/// The number of a label that ends in 1 to 9 digits.
fn number(label: &str) -> Option<u32>
    ensures { result ≡ (if is_numbered label.now then Some (number_in_label label.now) else None) }
{
    let (_, digits) = parts(label);
    if digits.is_empty() || digits.len() > MOST_DIGITS {
        return None;
    }
    digits.parse::<u32>().ok()
}

/// Whether the numbers of two labels are written alike: with zeros in one width, or both without.
fn goes_together(first: &str, last: &str) -> bool
    ensures { result ≡ go_together first.now last.now }
{
    if is_padded(first) {
        first.len() == last.len()
    } else {
        !is_padded(last)
    }
}

/// How many digits a member has at least.
fn width(digits: &str) -> usize
    ensures { result ≡ digit_width digits.now }
{
    if is_padded(digits) { digits.len() } else { 0 }
}

/// Whether digits begin with a 0 and are more than one.
fn is_padded(digits: &str) -> bool
    ensures { result ≡ is_padded digits.now }
{
    let digits = digits.as_bytes();
    digits.len() > 1 && digits[0] == b'0'
}

/// A label without the digits at its end, and these digits.
fn parts(label: &str) -> (&str, &str)
    ensures text { result.0.now ≡ text_before_digits label.now }
    ensures digits { result.1.now ≡ digits_of label.now }
    ensures decimal { (i : ℕ) → i < length result.1.now → IsInRange 48 57 (get_or result.1.now i 0) }
{
    label.split_at(text_length(label))
}

/// The length of a label without the digits at its end.
fn text_length(label: &str) -> usize
    ensures value { result ≡ text_length label.now }
    ensures boundary { IsCharBoundary label.now result }
    ensures decimal { (i : ℕ) → result ≤ i → i < length label.now → IsInRange 48 57 (get_or label.now i 0) }
{
    let bytes = label.as_bytes();
    let mut length = bytes.len();
    while length > 0 && bytes[length - 1].is_ascii_digit() {
        length -= 1;
    }
    length
}
