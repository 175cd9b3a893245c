//! How many bytes a number takes.
ghost use Rattle.std.specs.Prelude.{◌≡◌, ◌≤◌, ◌+◌, length};
ghost use Rattle.std.specs.Char.{is_ascii_digit};
ghost use Rattle.gms_grammar.specs.Lines.{begins};
ghost use Rattle.gms_grammar.specs.Numbers.{digit_count, begins_number, point_length, sign_length, exponent_length, decimal_length, number_length};

/// How many digits a text begins with.
fn digit_count(text: &[u8]) -> usize
    ensures value { result ≡ digit_count text.now }
    ensures within { result ≤ length text.now }
{
    text.iter().take_while(|byte| byte.is_ascii_digit()).count()
}

/// Whether a text begins with a digit.
fn begins_digit(text: &[u8]) -> bool
    ensures { result ≡ begins is_ascii_digit text.now }
{
    matches!(text, [b'0'..=b'9', ..])
}

/// Whether a text begins with a number: with a digit, or with a dot and a digit.
pub(crate) fn begins_number(text: &[u8]) -> bool
    ensures { result ≡ begins_number text.now }
{
    matches!(text, [b'0'..=b'9', ..] | [b'.', b'0'..=b'9', ..])
}

/// How many bytes the dot after a number's digits takes, with the digits after it.
fn point_length(rest: &[u8]) -> usize
    ensures value { result ≡ point_length rest.now }
    ensures within { result ≤ length rest.now }
{
    if matches!(rest, [b'.', ..]) && !matches!(rest, [_, b'.', ..]) {
        1 + digit_count(&rest[1..])
    } else {
        0
    }
}

/// How many bytes the sign of an exponent takes.
fn sign_length(rest: &[u8]) -> usize
    ensures value { result ≡ sign_length rest.now }
    ensures within { result ≤ length rest.now }
{
    if matches!(rest, [b'+' | b'-', ..]) {
        1
    } else {
        0
    }
}

/// How many bytes an exponent takes: `e`, an optional sign and at least one digit; 0 if the text
/// does not begin with an exponent.
fn exponent_length(rest: &[u8]) -> usize
    ensures value { result ≡ exponent_length rest.now }
    ensures within { result ≤ length rest.now }
{
    if !matches!(rest, [b'e' | b'E', ..]) {
        return 0;
    }
    let before = 1 + sign_length(&rest[1..]);
    let digits = &rest[before..];
    if begins_digit(digits) {
        before + digit_count(digits)
    } else {
        0
    }
}

/// How many bytes a number takes before its exponent.
fn decimal_length(text: &[u8]) -> usize
    ensures value { result ≡ decimal_length text.now }
    ensures within { result ≤ length text.now }
{
    let whole = digit_count(text);
    whole + point_length(&text[whole..])
}

/// How many bytes the number takes with which a text begins.
pub(crate) fn number_length(text: &[u8]) -> usize
    ensures value { result ≡ number_length text.now }
    ensures within { result ≤ length text.now }
{
    let before = decimal_length(text);
    before + exponent_length(&text[before..])
}
