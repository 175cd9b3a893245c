//! The program of a source.
ghost use Rattle.std.specs.Prelude.{MatchResult};
ghost use Rattle.gms_parse.specs.Outcomes.{IsProgram, IsSourceRefusal};

use crate::fault::{SourceError, SourceFaultOrMemory};
use crate::reader::{Reader, Tables};
use gms_ast::Program;
use gms_labels::{Labels, Place, source_seed};
use gms_lex::{MOST_BYTES, lex};
use gq_field::ExactField;
use std::alloc::Global;

/// Where a source begins.
const START: Place = Place { line: 1, column: 1 };

/// The program of a source, with its names and labels numbered in the order of the source, or its
/// first fault (GAMS User's Guide, "GAMS Programs").
///
/// The fault of a source of over 1,048,576 bytes is `TooLong`, at its start. Otherwise it is the
/// first lexical fault, if any. Otherwise it is the first of these in the order of the tokens:
/// - a token that cannot come next, whatever other fault it has, though those before it could begin
///   a program (`Expected`, or `NotInProfile` for a GAMS word that this compiler does not read,
///   such as `if`), or the end of an incomplete program (`Expected`);
/// - a parenthesis that opens while 100 are open (`Depth`);
/// - an integer above `F.limit`, or a fraction m/10^e, where m does not end in 0, with m or 10^e
///   above `F.limit` (`Number`);
/// - the 65,537th name, or the 65,537th label (`TooManyLabels`; in a range, at its upper label);
/// - a fault in a table, at the word that has it (`NoColumn`, `TwoColumns`, `RepeatedEntry`,
///   `BadRow`);
/// - the end of a table without headings, reported at the table's name (`NoHeading`).
///
/// `Memory` means out of memory.
pub fn parse<F: ExactField>(alloc: Global, source: &[u8]) -> Result<Program<F>, SourceFaultOrMemory>
    ensures { MatchResult result (λ program. IsProgram F.limit source.now F.value program) (λ e. IsSourceRefusal F.limit source.now e) }
{
    if source.len() > MOST_BYTES {
        return Err(SourceFaultOrMemory::at(SourceError::TooLong, START));
    }
    let tokens = lex(alloc, source)?;
    let seed = source_seed(source);
    let mut tables = Tables {
        names: Labels::with_seed(alloc, seed),
        labels: Labels::with_seed(alloc, seed),
    };
    let reader = Reader {
        alloc,
        source,
        tokens: tokens.as_slice(),
        end: tokens[tokens.len() - 1].at,
        unclosed: 0,
    };
    let statements = reader.program(&mut tables)?;
    Ok(Program {
        names: tables.names,
        labels: tables.labels,
        statements,
    })
}
