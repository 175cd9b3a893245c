//! The parts of a decimal's text, read in order.
ghost use Rattle.std.specs.Prelude.{◌≡◌, ℤ, IfSome, IfNone};
ghost use Rattle.std.specs.List.{prefix_len};
ghost use Rattle.std.specs.Char.{is_ascii_digit};
ghost use Rattle.gq_text.specs.Numeral.{AreDigits};
ghost use Rattle.gq_text.specs.Decimal.{IsExponent};
ghost use Rattle.gq_text.specs.InnerParts.{SplitsDigits, SplitsSign, Divides, exponent_of};

/// The three parts of a decimal's text: the digits before the point (`before`), the digits after
/// the point (`following`), and the text that remains after these digits (`rest`).
#[derive(Clone, Copy)]
pub(crate) struct Pointed<'a> {
    pub before: &'a [u8],
    pub following: &'a [u8],
    pub rest: &'a [u8],
}

/// The exponent of a decimal: its sign and its digits.
#[derive(Clone, Copy)]
pub(crate) struct Exponent<'a> {
    pub negative: bool,
    pub digits: &'a [u8],
}

/// How many digits the text begins with.
fn digit_count(text: &[u8]) -> usize
    ensures { result ≡ prefix_len is_ascii_digit text.now }
{
    text.iter().take_while(|byte| byte.is_ascii_digit()).count()
}

/// The digits that the text begins with, and what follows them.
pub(crate) fn split_digits(text: &[u8]) -> (&[u8], &[u8])
    ensures { SplitsDigits text.now result.0.now result.1.now }
{
    text.split_at(digit_count(text))
}

/// The digits around a point that the text begins with, and what follows them.
pub(crate) fn split_pointed(text: &[u8]) -> Pointed<'_>
    ensures { Divides text.now result.before.now result.following.now result.rest.now }
{
    let (before, tail) = split_digits(text);
    match tail {
        [b'.', more @ ..] => {
            let (following, rest) = split_digits(more);
            Pointed {
                before,
                following,
                rest,
            }
        }
        _ => Pointed {
            before,
            following: &[],
            rest: tail,
        },
    }
}

/// Whether the text begins with `-`, and what follows its sign.
pub(crate) fn split_sign(text: &[u8]) -> (bool, &[u8])
    ensures { SplitsSign text.now result.0 result.1.now }
{
    match text {
        [b'-', digits @ ..] => (true, digits),
        [b'+', digits @ ..] => (false, digits),
        _ => (false, text),
    }
}

/// The exponent whose text this is, if it is one. Without a text it is 0.
pub(crate) fn read_exponent(text: &[u8]) -> Option<Exponent<'_>>
    ensures value { IfSome result (λ e. IsExponent text.now (exponent_of e.negative e.digits.now)) }
    ensures decimal { IfSome result (λ e. AreDigits e.digits.now) }
    ensures none { IfNone result ((e : ℤ) → ¬ IsExponent text.now e) }
{
    match text {
        [] => Some(Exponent {
            negative: false,
            digits: &[],
        }),
        [b'e' | b'E', signed @ ..] => {
            let (negative, unsigned) = split_sign(signed);
            let (digits, rest) = split_digits(unsigned);
            if digits.is_empty() || !rest.is_empty() {
                return None;
            }
            Some(Exponent { negative, digits })
        }
        _ => None,
    }
}
