//! The kinds of names that a saved state has.
ghost use Rattle.std.specs.Prelude.{◌≡◌};
ghost use Rattle.gms_save_text.specs.Reading.{kind_word};

use gms_store::SymbolKind;

/// The word before a name of this kind in a save, with a blank after it.
pub(crate) fn kind_word(kind: SymbolKind) -> &'static [u8]
    ensures { result.now ≡ kind_word kind }
{
    match kind {
        SymbolKind::Set => b"set ",
        SymbolKind::Parameter => b"parameter ",
        SymbolKind::Variable => b"variable ",
        SymbolKind::Equation => b"equation ",
        SymbolKind::Model => b"model ",
        SymbolKind::Undeclared => b"",
    }
}
