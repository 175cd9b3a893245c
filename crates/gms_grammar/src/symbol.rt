//! The symbol with which a text begins.
ghost use Rattle.std.specs.Prelude.{◌≡◌, length, find, option_map};
ghost use Rattle.gms_grammar.specs.Symbols.{written_symbol, begins_with_word, longest_symbol};

use crate::kind::Sym;

/// The symbols, the longer ones first.
const SYMBOLS: [Sym; 24] = [
    Sym::EqE,
    Sym::EqL,
    Sym::EqG,
    Sym::EqN,
    Sym::Power,
    Sym::DotDot,
    Sym::LessEq,
    Sym::GreaterEq,
    Sym::NotEq,
    Sym::PlusPlus,
    Sym::MinusMinus,
    Sym::Plus,
    Sym::Minus,
    Sym::Star,
    Sym::Slash,
    Sym::Equals,
    Sym::Less,
    Sym::Greater,
    Sym::LeftParen,
    Sym::RightParen,
    Sym::Comma,
    Sym::Semicolon,
    Sym::Dot,
    Sym::Dollar,
];

/// Whether a text begins with these bytes, letter case ignored.
fn begins_with(text: &[u8], prefix: &[u8]) -> bool
    ensures { result ≡ begins_with_word text.now prefix.now }
{
    prefix.len() <= text.len() && text[..prefix.len()].eq_ignore_ascii_case(prefix)
}

/// The first of the symbols with which a text begins, and how many bytes it takes.
fn first_symbol(text: &[u8], symbols: &[Sym]) -> Option<(usize, Sym)>
    ensures { result ≡ option_map (λ s. (length (written_symbol s), s)) (find (λ s. begins_with_word text.now (written_symbol s)) symbols.now) }
{
    for symbol in symbols {
        let written = symbol.written().as_bytes();
        if begins_with(text, written) {
            return Some((written.len(), *symbol));
        }
    }
    None
}

/// The longest symbol with which a text begins, and how many bytes it takes.
#[tactic(auto, unfolding(crate::specs::Symbols::longest_symbol))]
pub(crate) fn symbol_at(text: &[u8]) -> Option<(usize, Sym)>
    ensures { result ≡ longest_symbol text.now }
{
    first_symbol(text, &SYMBOLS)
}
