//! What words and symbols of statements mean.
ghost use Rattle.std.specs.Prelude.{◌≡◌};
ghost use Rattle.gms_parse.specs.Statements.{is_maximizing, side_of};

use gms_ast::Side;
use gms_lex::{Kind, Sym};

/// Whether a direction is `maximizing`.
pub(crate) fn is_maximizing(word: &[u8]) -> bool
    ensures { result ≡ is_maximizing word.now }
{
    word.eq_ignore_ascii_case(b"maximizing")
}

/// How two sides relate, by the symbol between them.
pub(crate) fn side_of(kind: Kind) -> Side
    ensures { result ≡ side_of kind }
{
    match kind {
        Kind::Symbol(Sym::EqL) => Side::L,
        Kind::Symbol(Sym::EqG) => Side::G,
        Kind::Symbol(Sym::EqN) => Side::N,
        _ => Side::E,
    }
}
