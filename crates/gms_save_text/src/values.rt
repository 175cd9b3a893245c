//! Reading values, bounds and attributes from the beginning of a text.
ghost use Rattle.std.specs.Prelude.{◌≡◌, ◌<◌, ◌++◌, ◌∷◌, ℕ, List, Option, true, option_map};
ghost use Rattle.gq_number.specs.Number.{Number};
ghost use Rattle.gq_field.specs.Fits.{fits};
ghost use Rattle.gq_text.specs.ExactText.{exact_text};
ghost use Rattle.gq_extended.specs.Extended.{Extended};
ghost use Rattle.gq_extended.specs.Meaning.{extended};
ghost use Rattle.gms_store.specs.Shown.{attributes_shown};
ghost use Rattle.gms_store.specs.State.{Attributes as StateAttributes, value_fits, bound_fits, attributes_fit};
ghost use Rattle.gms_save_text.specs.SavedState.{value_text, bound_text, attributes_text, saved_line};
ghost use Rattle.gms_save_text.specs.Reading.{Finds, IsWordForNone};

use crate::fault::ReadFault;
use crate::reading::{cut, exact_in};
use gms_store::Attributes;
use gq_extended::Ext;
use gq_field::ExactField;

/// The value in the first line of a text, and the text after it. `Shape` comes only if the line is
/// that of no value that fits under the field's limit.
pub(crate) fn value_line<F: ExactField>(text: &[u8]) -> Result<(Ext<F>, &[u8]), ReadFault>
    ensures { (x : Extended) (rest : List ℕ) → value_fits F.limit x ≡ true → text.now ≡ saved_line (value_text x) ++ rest →
        Finds result (λ p. (extended F.value p.0 ≡ x) × (p.1.now ≡ rest)) }
{
    let (word, rest) = cut(text, b'\n')?;
    let value = value_in(word)?;
    Ok((value, rest))
}

/// The value whose text a word is.
fn value_in<F: ExactField>(word: &[u8]) -> Result<Ext<F>, ReadFault>
    ensures { (x : Extended) → value_fits F.limit x ≡ true → word.now ≡ value_text x → Finds result (λ y. extended F.value y ≡ x) }
{
    if word == b"+INF".as_slice() {
        return Ok(Ext::PlusInf);
    }
    if word == b"-INF".as_slice() {
        return Ok(Ext::MinusInf);
    }
    if word == b"NA".as_slice() {
        return Ok(Ext::Na);
    }
    let number = exact_in(word)?;
    Ok(Ext::Number(number))
}

/// The bound whose text comes before a blank, where `none` is the word for none, and the text after
/// that.
fn bound_before<'t, F: ExactField>(
    text: &'t [u8],
    none: &[u8],
) -> Result<(Option<F>, &'t [u8]), ReadFault>
    requires { IsWordForNone none.now }
    ensures { (x : Option Number) (rest : List ℕ) → bound_fits F.limit x ≡ true → text.now ≡ bound_text none.now x ++ 32 ∷ rest →
        Finds result (λ p. (option_map F.value p.0 ≡ x) × (p.1.now ≡ rest)) }
{
    let (word, rest) = cut(text, b' ')?;
    if word == none {
        return Ok((None, rest));
    }
    let bound = exact_in(word)?;
    Ok((Some(bound), rest))
}

/// The number whose exact text comes before a byte, and the text after that.
fn exact_before<F: ExactField>(text: &[u8], byte: u8) -> Result<(F, &[u8]), ReadFault>
    requires { byte < 45 }
    ensures { (x : Number) (rest : List ℕ) → fits F.limit x ≡ true → text.now ≡ exact_text x ++ byte ∷ rest →
        Finds result (λ p. (F.value p.0 ≡ x) × (p.1.now ≡ rest)) }
{
    let (word, rest) = cut(text, byte)?;
    let number = exact_in(word)?;
    Ok((number, rest))
}

/// The attributes in the first line of a text, and the text after it. `Shape` comes only if the
/// line is that of no attributes that fit under the field's limit.
pub(crate) fn attributes_line<F: ExactField>(
    text: &[u8],
) -> Result<(Attributes<F>, &[u8]), ReadFault>
    ensures { (a : StateAttributes) (rest : List ℕ) → attributes_fit F.limit a ≡ true → text.now ≡ saved_line (attributes_text a) ++ rest →
        Finds result (λ p. (attributes_shown F.value p.0 ≡ a) × (p.1.now ≡ rest)) }
{
    let (lower, rest) = bound_before(text, b"-INF")?;
    let (upper, rest) = bound_before(rest, b"+INF")?;
    let (level, rest) = exact_before(rest, b' ')?;
    let (marginal, rest) = exact_before(rest, b'\n')?;
    Ok((
        Attributes {
            lower,
            upper,
            level,
            marginal,
        },
        rest,
    ))
}
