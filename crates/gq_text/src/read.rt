//! How a decimal's text is read.
ghost use Rattle.gq_text.specs.Literal.{ReadsLiteral};

use crate::fault::NumberFault;
use crate::literal::literal;
use crate::parts::{read_exponent, split_pointed};
use gq_field::ExactField;

/// The number that a decimal's text means. The text is one or more digits, perhaps with a point
/// before, between or after them. An exponent may follow: `e` or `E`, perhaps `+` or `-`, and at
/// least one digit (GAMS User's Guide, "Language Items").
///
/// The error is `Shape` exactly if the text does not have this form. A number other than 0 is m
/// times 10^e, where the integer m does not end in 0. For e at least 0 it fits if it is at most the
/// field's limit; for e below 0, if both m and 10^-e are. 0 fits. The error is `Limit` exactly if
/// the text has this form and its number does not fit.
pub fn read_decimal<F: ExactField>(text: &[u8]) -> Result<F, NumberFault>
    ensures { ReadsLiteral F.limit F.value text.now result }
{
    let pointed = split_pointed(text);
    if pointed.before.is_empty() && pointed.following.is_empty() {
        return Err(NumberFault::Shape);
    }
    match read_exponent(pointed.rest) {
        Some(exponent) => literal(pointed.before, pointed.following, exponent),
        None => Err(NumberFault::Shape),
    }
}
