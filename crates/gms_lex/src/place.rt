//! Places after bytes.
ghost use Rattle.std.specs.Prelude.{◌≡◌, ◌<◌, ◌≤◌, ◌+◌, ◌*◌, ◌^◌, length};
ghost use Rattle.gms_lex.specs.Places.{place_after, place_after_bytes, place_of_byte};
ghost use Rattle.gms_lex.specs.Tokens.{most_source_bytes};

use gms_grammar::column_after;
use gms_labels::Place;

/// Where a source begins.
pub(crate) const SOURCE_START: Place = Place { line: 1, column: 1 };

/// The place after a byte; a tab goes to the next column that is one more than a multiple of 8.
fn place_after(at: Place, byte: u8) -> Place
    requires line { at.line + 1 < 2 ^ 32 }
    requires column { at.column + 8 < 2 ^ 32 }
    ensures { result ≡ place_after at byte }
{
    match byte {
        b'\n' => Place {
            line: at.line + 1,
            column: 1,
        },
        _ => Place {
            line: at.line,
            column: column_after(at.column, byte),
        },
    }
}

/// The place after bytes.
pub(crate) fn place_after_bytes(mut at: Place, bytes: &[u8]) -> Place
    requires line { at.line + length bytes.now < 2 ^ 32 }
    requires column { at.column + 8 * length bytes.now < 2 ^ 32 }
    ensures value { result ≡ place_after_bytes at bytes.now }
    ensures line { result.line ≤ at.line + length bytes.now }
    ensures column { result.column ≤ at.column + 8 * length bytes.now }
{
    for byte in bytes {
        at = place_after(at, *byte);
    }
    at
}

/// The place of a byte of a source, or of its end.
pub(crate) fn place_of(source: &[u8], count: usize) -> Place
    requires small { length source.now ≤ most_source_bytes }
    requires within { count ≤ length source.now }
    ensures { result ≡ place_of_byte source.now count }
{
    place_after_bytes(SOURCE_START, &source[..count])
}
