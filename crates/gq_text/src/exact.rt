//! How the exact texts of numbers are read back.
ghost use Rattle.std.specs.Prelude.{◌≡◌, ◌<◌, ◌^◌, ◌∷◌, [], ℕ, true, decimal, IfSome, IsSomeAnd};
ghost use Rattle.gq_number.specs.Number.{Number};
ghost use Rattle.gq_field.specs.Fits.{fits};
ghost use Rattle.gq_text.specs.ExactText.{exact_text};
ghost use Rattle.gq_field.specs.Values.{signed};

use crate::digits::Digits;
use crate::literal::spelled;
use crate::parts::{split_digits, split_sign};
use crate::show::{put_exact, put_whole};
use gq_field::ExactField;

/// The whole number below 2^128 of which the text is the decimal digits, without leading zeros (0
/// is `0`). `None` exactly if there is no such number.
pub fn read_whole(text: &[u8]) -> Option<u128>
    ensures value { IfSome result (λ n. text.now ≡ decimal n) }
    ensures found { (n : ℕ) → n < 2 ^ 128 → text.now ≡ decimal n → IsSomeAnd result (λ m. m ≡ n) }
{
    let n = digits_in(text)?;
    let mut digits = Digits::new();
    put_whole(n, &mut digits);
    if digits.as_bytes() == text {
        Some(n)
    } else {
        None
    }
}

/// The number whose exact text is `text`: the numerator of its reduced fraction, after `-` if the
/// number is below 0, followed, if the denominator is not 1, by `/` and the denominator, without
/// leading zeros. `None` exactly if no number within the field's limit has this text.
pub fn read_exact<F: ExactField>(text: &[u8]) -> Option<F>
    ensures value { IfSome result (λ x. text.now ≡ exact_text (F.value x)) }
    ensures found { (x : Number) → fits F.limit x ≡ true → text.now ≡ exact_text x → IsSomeAnd result (λ y. F.value y ≡ x) }
{
    let x = quotient_in(text)?;
    let mut digits = Digits::new();
    put_exact(x, &mut digits);
    if digits.as_bytes() == text {
        Some(x)
    } else {
        None
    }
}

/// The number that the digits of a text spell. Those of a number below 2^128 are read.
fn digits_in(text: &[u8]) -> Option<u128>
    ensures { (n : ℕ) → n < 2 ^ 128 → text.now ≡ decimal n → IsSomeAnd result (λ m. m ≡ n) }
{
    let (digits, rest) = split_digits(text);
    if rest.is_empty() {
        spelled(0, digits)
    } else {
        None
    }
}

/// The value of a text of digits with an optional sign before them, over other digits or none. It
/// reads the exact text of each number within the limit.
fn quotient_in<F: ExactField>(text: &[u8]) -> Option<F>
    ensures { (x : Number) → fits F.limit x ≡ true → text.now ≡ exact_text x → IsSomeAnd result (λ y. F.value y ≡ x) }
{
    let (negative, unsigned) = split_sign(text);
    let (digits, rest) = split_digits(unsigned);
    let above = spelled(0, digits)?;
    let below = denominator_in(rest)?;
    fraction(negative, above, below)
}

/// The number that the digits after a `/` spell; 1 for an empty text.
fn denominator_in(text: &[u8]) -> Option<u128>
    ensures one { text.now ≡ [] → IsSomeAnd result (λ d. d ≡ 1) }
    ensures other { (n : ℕ) → n < 2 ^ 128 → text.now ≡ 47 ∷ decimal n → IsSomeAnd result (λ d. d ≡ n) }
{
    match text {
        [] => Some(1),
        [b'/', digits @ ..] => digits_in(digits),
        _ => None,
    }
}

/// The value of a magnitude with a sign over a denominator, if this is a number within the limit.
fn fraction<F: ExactField>(negative: bool, above: u128, below: u128) -> Option<F>
    ensures { (x : Number) → fits F.limit x ≡ true → x.numerator ≡ signed negative above → x.denominator ≡ below →
        IsSomeAnd result (λ y. F.value y ≡ x) }
{
    if above > F::limit() || below == 0 {
        return None;
    }
    let whole = above as i128;
    let numerator = if negative { -whole } else { whole };
    F::from_parts(numerator, below).ok()
}
