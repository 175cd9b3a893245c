//! Lines of tables.
ghost use Rattle.std.specs.Prelude.{◌≡◌, ◌≤◌, length};
ghost use Rattle.gms_grammar.specs.TableLines.{table_bytes, table_line};

use crate::fault::LexError;
use crate::kind::Kind;
use crate::lexeme::{Lexeme, Misread, Piece};
use crate::shape::plain_length;
use crate::split_fields::{Separator, field_length};

/// How many bytes of a table's line belong to the table: those before the first `;` outside quoted
/// labels, or all bytes if there is no such `;`.
pub fn table_bytes(line: &[u8]) -> usize
    ensures value { result ≡ table_bytes line.now }
    ensures within { result ≤ length line.now }
{
    field_length(Separator::Semicolon, line)
}

/// The token that consists of the first `bytes` bytes of a table's line. The error is `BadByte`, at
/// the first of these bytes that is above 127.
pub fn table_line(bytes: usize, line: &[u8]) -> Result<Lexeme, Misread>
    requires { bytes ≤ length line.now }
    ensures { result ≡ table_line bytes line.now }
{
    let plain = plain_length(&line[..bytes]);
    if plain < bytes {
        return Err(Misread {
            error: LexError::BadByte,
            ahead: plain,
        });
    }
    Ok(Lexeme {
        piece: Piece::Token(Kind::TableLine),
        length: bytes,
    })
}
