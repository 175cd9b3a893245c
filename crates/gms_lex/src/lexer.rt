//! The tokens of a source.
ghost use Rattle.std.specs.Prelude.{◌≡◌, ◌<◌, ◌≤◌, ◌+◌, ◌^◌, ◌++◌, length, IfOk, OnOk, MatchResult};
ghost use Rattle.gms_lex.specs.Tokens.{most_source_bytes, IsTokens, IsLexRefusal, token_at};
ghost use Rattle.gms_lex.specs.InnerReadings.{is_before, earlier, IsReading};

use crate::fault::{LexFault, LexFaultOrMemory};
use crate::mode::Mode;
use crate::mode_change::mode_after;
use crate::piece::piece_at;
use crate::place::{SOURCE_START, place_after_bytes, place_of};
use crate::token::Token;
use gms_grammar::{ByteFault, Kind, Piece, code_text};
use gms_labels::Place;
use std::alloc::{AllocError, Global};

/// The greatest number of bytes that a source may have: 1 MiB.
pub const MOST_BYTES: usize = 1_048_576;

/// The tokens of a source up to its end, or up to the error at which they stop.
#[derive(Drop)]
struct Reading {
    /// The tokens, in order; with the end of the source where it was reached.
    tokens: Vec<Token>,
    /// The error at which they stop.
    fault: Option<ByteFault>,
}

/// Appends the token of a piece, if it has one. It takes the bytes from `start` to `end`, and its
/// place is `at`.
fn push_token(
    tokens: &mut Vec<Token>,
    piece: Piece,
    start: usize,
    end: usize,
    at: Place,
) -> Result<(), AllocError>
    requires start { start < 2 ^ 32 }
    requires end { end < 2 ^ 32 }
    ensures { OnOk result (tokens.new.items ≡ tokens.old.items ++ token_at at piece start end) }
{
    if let Piece::Token(kind) = piece {
        tokens.push(Token {
            kind,
            start: start as u32,
            end: end as u32,
            at,
        })?;
    }
    Ok(())
}

/// The tokens of a source, of which this is the text without comments and control lines.
fn read_tokens(alloc: Global, source: &[u8], code: &[u8]) -> Result<Reading, AllocError>
    requires small { length source.now ≤ most_source_bytes }
    requires as_long { length code.now ≡ length source.now }
    ensures { IfOk result (λ read. IsReading source.now code.now read.tokens.items read.fault) }
{
    let mut tokens = Vec::new(alloc);
    let mut mode = Mode::Code;
    let mut at = SOURCE_START;
    let mut start = 0;
    while start < code.len() {
        let rest = &code[start..];
        let lexeme = match piece_at(mode, rest) {
            Ok(lexeme) => lexeme,
            Err(misread) => {
                let fault = ByteFault {
                    at: start + misread.ahead,
                    error: misread.error,
                };
                return Ok(Reading {
                    tokens,
                    fault: Some(fault),
                });
            }
        };
        let end = start + lexeme.length;
        push_token(&mut tokens, lexeme.piece, start, end, at)?;
        mode = mode_after(mode, lexeme.piece, &code[start..end]);
        at = place_after_bytes(at, &source[start..end]);
        start = end;
    }
    push_token(&mut tokens, Piece::Token(Kind::End), start, start, at)?;
    Ok(Reading {
        tokens,
        fault: None,
    })
}

/// Whether one fault comes before another, or is it.
fn is_before(f: ByteFault, g: ByteFault) -> bool
    ensures { result ≡ is_before f g }
{
    f.at < g.at || (f.at == g.at && f.error.code() <= g.error.code())
}

/// The earlier of two faults, by place and then by number.
fn earlier(a: Option<ByteFault>, b: Option<ByteFault>) -> Option<ByteFault>
    ensures { result ≡ earlier a b }
{
    match (a, b) {
        (Some(f), Some(g)) if is_before(f, g) => Some(f),
        (Some(_), Some(g)) => Some(g),
        (Some(f), None) => Some(f),
        (None, g) => g,
    }
}

/// The tokens of a source of at most `MOST_BYTES` bytes, or its first lexical fault (GAMS User's
/// Guide, "Language Items" and "GAMS Programs"). `Memory` means out of memory.
///
/// The text before a token determines its mode: code, declaration, list or table. The token is the
/// longest that its mode allows. Between tokens are blanks, descriptive texts, comments, control
/// lines, and line ends that are no tokens. The last token is `End`.
///
/// The fault is the first in the source, and of those at one byte the first in this list: `BadByte`
/// at a byte that cannot occur there, `OpenQuote` at a quotation mark not closed on its line,
/// `OpenText` at an `$ontext` without later `$offtext`, `LongLabel` at a word or label of over 63
/// bytes, quotation marks not counted, `LongLine` at a line of over 32,768 bytes, `UnknownControl`
/// at an unknown control word.
pub fn lex(alloc: Global, source: &[u8]) -> Result<Vec<Token>, LexFaultOrMemory>
    requires { length source.now ≤ most_source_bytes }
    ensures { MatchResult result (λ tokens. IsTokens source.now tokens.items) (λ e. IsLexRefusal source.now e) }
{
    let code = code_text(alloc, source)?;
    let reading = read_tokens(alloc, source, code.text.as_slice())?;
    match earlier(code.fault, reading.fault) {
        None => Ok(reading.tokens),
        Some(fault) => Err(LexFaultOrMemory::Fault(LexFault {
            error: fault.error,
            at: place_of(source, fault.at),
        })),
    }
}
