//! Reading from the beginning of a text: words, numbers, tuples.
ghost use Rattle.std.specs.Prelude.{◌≡◌, ◌<◌, ◌≤◌, ◌^◌, ◌++◌, ◌∷◌, ℕ, List, true, length, decimal};
ghost use Rattle.gq_field.specs.Fits.{fits};
ghost use Rattle.gq_number.specs.Number.{Number};
ghost use Rattle.gq_text.specs.ExactText.{exact_text};
ghost use Rattle.gms_save_text.specs.SavedState.{tuple_text};
ghost use Rattle.gms_save_text.specs.Reading.{Finds, HasNone, IsReadableTuple, bytes_before};

use crate::fault::ReadFault;
use gms_tuple::{MOST_LABELS, Tuple};
use gq_field::ExactField;
use gq_text::{read_exact, read_whole};
use std::alloc::Global;

/// The text after `prefix`. `Shape` comes only if the text does not begin with it.
pub(crate) fn strip<'t>(text: &'t [u8], prefix: &[u8]) -> Result<&'t [u8], ReadFault>
    ensures { (rest : List ℕ) → text.now ≡ prefix.now ++ rest → Finds result (λ r. r.now ≡ rest) }
{
    match text.strip_prefix(prefix) {
        Some(rest) => Ok(rest),
        None => Err(ReadFault::Shape),
    }
}

/// The text before the first occurrence of `byte`, and the text after it. `Shape` comes only if
/// there is none.
pub(crate) fn cut(text: &[u8], byte: u8) -> Result<(&[u8], &[u8]), ReadFault>
    ensures { (prefix rest : List ℕ) → HasNone byte prefix → text.now ≡ prefix ++ byte ∷ rest →
        Finds result (λ p. (p.0.now ≡ prefix) × (p.1.now ≡ rest)) }
{
    let at = place_of(text, byte);
    if at < text.len() {
        Ok((&text[..at], &text[at + 1..]))
    } else {
        Err(ReadFault::Shape)
    }
}

/// How many bytes come before the first of these bytes.
fn place_of(text: &[u8], byte: u8) -> usize
    ensures { result ≡ bytes_before byte text.now }
{
    text.iter().take_while(|other| **other != byte).count()
}

/// The number below 2^128 whose decimal digits come before `byte`, and the text after that. `Shape`
/// comes only if the text does not begin so.
pub(crate) fn whole_before(text: &[u8], byte: u8) -> Result<(u128, &[u8]), ReadFault>
    requires { byte < 48 }
    ensures { (n : ℕ) (rest : List ℕ) → n < 2 ^ 128 → text.now ≡ decimal n ++ byte ∷ rest →
        Finds result (λ p. (p.0 ≡ n) × (p.1.now ≡ rest)) }
{
    let (digits, rest) = cut(text, byte)?;
    match read_whole(digits) {
        Some(n) => Ok((n, rest)),
        None => Err(ReadFault::Shape),
    }
}

/// The number in the first line of a text, and the text after it. The number is a count of items
/// that each take at least a byte of the text after it. `Shape` comes only if the text does not
/// begin so.
pub(crate) fn count_line(text: &[u8]) -> Result<(usize, &[u8]), ReadFault>
    ensures { (n : ℕ) (rest : List ℕ) → n ≤ length rest → text.now ≡ decimal n ++ 10 ∷ rest →
        Finds result (λ p. (p.0 ≡ n) × (p.1.now ≡ rest)) }
{
    let most = text.len();
    let (whole, rest) = whole_before(text, b'\n')?;
    match usize::try_from(whole) {
        Ok(count) if count <= most => Ok((count, rest)),
        _ => Err(ReadFault::Shape),
    }
}

/// The number below 2^32 whose decimal digits come before `byte`, and the text after that. `Shape`
/// comes only if the text does not begin so.
pub(crate) fn number_before(text: &[u8], byte: u8) -> Result<(u32, &[u8]), ReadFault>
    requires { byte < 48 }
    ensures { (n : ℕ) (rest : List ℕ) → n < 2 ^ 32 → text.now ≡ decimal n ++ byte ∷ rest →
        Finds result (λ p. (p.0 ≡ n) × (p.1.now ≡ rest)) }
{
    let (whole, rest) = whole_before(text, byte)?;
    match u32::try_from(whole) {
        Ok(n) => Ok((n, rest)),
        Err(_) => Err(ReadFault::Shape),
    }
}

/// The number below 2^8 whose decimal digits come before `byte`, and the text after that. `Shape`
/// comes only if the text does not begin so.
pub(crate) fn byte_before(text: &[u8], byte: u8) -> Result<(u8, &[u8]), ReadFault>
    requires { byte < 48 }
    ensures { (n : ℕ) (rest : List ℕ) → n < 2 ^ 8 → text.now ≡ decimal n ++ byte ∷ rest →
        Finds result (λ p. (p.0 ≡ n) × (p.1.now ≡ rest)) }
{
    let (whole, rest) = whole_before(text, byte)?;
    match u8::try_from(whole) {
        Ok(n) => Ok((n, rest)),
        Err(_) => Err(ReadFault::Shape),
    }
}

/// The tuple of `arity` labels with which a text begins, and the text after it. `Shape` comes only
/// if the text does not begin with a readable tuple.
pub(crate) fn tuple_at(
    alloc: Global,
    text: &[u8],
    arity: usize,
) -> Result<(Tuple, &[u8]), ReadFault>
    ensures { (t rest : List ℕ) → IsReadableTuple arity t → text.now ≡ tuple_text t ++ rest →
        Finds result (λ p. (p.0 ≡ t) × (p.1.now ≡ rest)) }
{
    if arity > MOST_LABELS {
        return Err(ReadFault::Shape);
    }
    let mut tuple = Tuple::new(alloc);
    let mut left = text;
    for _place in 0..arity {
        let (label, following) = number_before(left, b' ')?;
        tuple.push(alloc, label)?;
        left = following;
    }
    Ok((tuple, left))
}

/// The number whose exact text the word is. `Shape` comes only if it is that of no number that fits
/// under the field's limit.
pub(crate) fn exact_in<F: ExactField>(word: &[u8]) -> Result<F, ReadFault>
    ensures { (x : Number) → fits F.limit x ≡ true → word.now ≡ exact_text x → Finds result (λ y. F.value y ≡ x) }
{
    match read_exact(word) {
        Some(x) => Ok(x),
        None => Err(ReadFault::Shape),
    }
}
