//! The words of a listing for symbols and labels.
ghost use Rattle.std.specs.Prelude.{◌≡◌};
ghost use Rattle.gms_list.specs.ListingText.{kind_text, suffix_text};

use gms_ast::Suffix;
use gms_store::SymbolKind;

/// The word for the kind of a displayed symbol. A parameter without indices and the status of a
/// model are scalars.
pub(crate) fn kind_text(kind: SymbolKind, indexed: bool) -> &'static str
    ensures { result.now ≡ kind_text kind indexed }
{
    match kind {
        SymbolKind::Set => "SET",
        SymbolKind::Parameter if indexed => "PARAMETER",
        SymbolKind::Variable => "VARIABLE",
        SymbolKind::Equation => "EQUATION",
        SymbolKind::Parameter | SymbolKind::Model | SymbolKind::Undeclared => "SCALAR",
    }
}

/// The text of a suffix after a name; empty if there is none.
pub(crate) fn suffix_text(suffix: Suffix) -> &'static str
    ensures { result.now ≡ suffix_text suffix }
{
    match suffix {
        Suffix::None => "",
        Suffix::Lo => ".lo",
        Suffix::Up => ".up",
        Suffix::L => ".l",
        Suffix::M => ".m",
        Suffix::Fx => ".fx",
        Suffix::ModelStat => ".modelstat",
        Suffix::SolveStat => ".solvestat",
    }
}
