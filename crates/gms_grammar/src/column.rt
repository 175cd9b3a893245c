//! Columns of a line.
ghost use Rattle.std.specs.Prelude.{◌≡◌, ◌<◌, ◌+◌, ◌^◌};
ghost use Rattle.gms_grammar.specs.Columns.{column_after};

/// The column of what follows the byte `byte` at `column`, both from 1: after a tab the next column
/// that is one more than a multiple of 8, else `column + 1`. `column` must be below 2^32 - 8.
pub fn column_after(column: u32, byte: u8) -> u32
    requires { column + 8 < 2 ^ 32 }
    ensures { result ≡ column_after column byte }
{
    if byte == b'\t' {
        (column + 7) / 8 * 8 + 1
    } else {
        column + 1
    }
}
