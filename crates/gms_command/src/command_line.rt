//! The arguments of the command line, what they request, and what is printed on standard output.
ghost use Rattle.std.specs.Prelude.{◌≡◌, false, IfOk, IfSome, string_bytes, option_map, codes};
ghost use Rattle.clap.specs.Words.{app_of, found_of, rows_of, rule_of};
ghost use Rattle.gms_command.specs.Laws.{is_no_option};
ghost use Rattle.gms_command.specs.CommandLine.{texts, flag, with_source, with_values, gams25, rows_taken, size_of, origin_of, is_flag_given, request_in, request_of, origin, asked_by, output_name, usage_line, read_fault_line, generated_line, closing_line, ranges_line, range_line, not_shown_line};

use clap::error::ErrorKind;
use clap::{Arg, ArgAction, ArgMatches, Command};
use std::alloc::{AllocError, Global};

/// What is printed if the arguments are refused.
const USAGE: &str =
    "usage: gams25 [--ranges] [--save FILE] [--restart FILE] [--out FILE] FILE | gams25 [--ranges] [--save FILE] [--out FILE] --generate N\n";

/// The sizes that a generated model can have, in ascending order.
const SIZES: [&str; 30] = [
    "1", "2", "3", "4", "5", "6", "7", "8", "9", "10", "11", "12", "13", "14", "15", "16", "17",
    "18", "19", "20", "21", "22", "23", "24", "25", "26", "27", "28", "29", "30",
];

/// Where the source of a run comes from.
#[derive(Clone, Copy)]
pub enum Source<'a> {
    /// The file of this name.
    File(&'a str),
    /// A file that resumes from a saved state.
    Restart {
        /// The name of the file with the saved state.
        saved: &'a str,
        /// The name of the file that resumes from it.
        file: &'a str,
    },
    /// A generated model with this many plants and markets.
    Generate(u32),
}

/// What the arguments of the command line request.
#[derive(Clone, Copy)]
pub struct Request<'a> {
    /// Where the source of the run comes from: a file, a file that resumes from a saved state, or a
    /// generated model.
    pub source: Source<'a>,
    /// The value of `--out`, the name of the file of the listing; `None` without `--out`, when the
    /// source determines it.
    pub out: Option<&'a str>,
    /// The value of `--save`, the name of the file for the state at the end of the run; `None`
    /// without `--save`, when none is saved.
    pub save: Option<&'a str>,
    /// Whether the arguments have `--ranges`, which requests the sensitivity ranges of right sides
    /// and costs at optima.
    pub ranges: bool,
}

/// The command with only the arguments that name its source, each optional: FILE, and `--generate`
/// and `--restart` with a value.
fn with_source<'a>(alloc: Global) -> Result<Command<'a>, AllocError>
    ensures { IfOk result (λ command. app_of command ≡ with_source) }
{
    let file = Arg::new(alloc, "file");
    let generate = Arg::new(alloc, "generate").long("generate");
    let restart = Arg::new(alloc, "restart").long("restart");
    let bare = Command::new(alloc, "gams25").no_binary_name(true);
    bare.arg(file)?.arg(generate)?.arg(restart)
}

/// The command without the flag `--ranges`: also with `--out` and `--save`, which have one value
/// each.
fn with_values<'a>(alloc: Global) -> Result<Command<'a>, AllocError>
    ensures { IfOk result (λ command. app_of command ≡ with_values) }
{
    let out = Arg::new(alloc, "out").long("out");
    let save = Arg::new(alloc, "save").long("save");
    let bare = with_source(alloc)?;
    bare.arg(out)?.arg(save)
}

/// The flag of the command.
fn ranges_flag<'a>(alloc: Global) -> Arg<'a>
    ensures rule { rule_of result ≡ flag (codes "ranges") }
    ensures local { result.global ≡ false }
{
    Arg::new(alloc, "ranges")
        .long("ranges")
        .action(ArgAction::SetTrue)
}

/// The command, with its flag.
fn command<'a>(alloc: Global) -> Result<Command<'a>, AllocError>
    ensures { IfOk result (λ command. app_of command ≡ gams25) }
{
    let values = with_values(alloc)?;
    values.arg(ranges_flag(alloc))
}

/// What the command finds in the arguments, if it accepts them.
fn found_in<'a>(alloc: Global, words: &'a [String]) -> Result<Option<ArgMatches<'a>>, AllocError>
    ensures { IfOk result (λ found. option_map (λ matches. rows_of (found_of matches)) found ≡ rows_taken (texts words.now)) }
{
    let command = command(alloc)?;
    match command.try_get_matches_from(words) {
        Ok(matches) => Ok(Some(matches)),
        Err(error) => match error.kind() {
            ErrorKind::OutOfMemory => Err(AllocError),
            _ => Ok(None),
        },
    }
}

/// The size that a text names: a whole number from 1 to 30 in decimal digits, without a sign or a
/// leading zero.
fn size_of(text: &str) -> Option<u32>
    ensures { result ≡ size_of text.now }
{
    let place = SIZES.iter().position(|&size| size == text)?;
    Some(place as u32 + 1)
}

/// The source that the values of FILE and of `--generate` name, if exactly one of them is given. A
/// file resumes from the saved state in the file that `--restart` names, if that is given; a
/// generated model does not.
fn source_of<'a>(
    file: Option<&'a str>,
    size: Option<&'a str>,
    saved: Option<&'a str>,
) -> Option<Source<'a>>
    ensures { option_map origin result ≡
        origin_of (option_map (λ name. name.now) file.entry) (option_map (λ text. text.now) size.entry)
        (option_map (λ name. name.now) saved.entry) }
{
    match (file, size, saved) {
        (Some(file), None, None) => Some(Source::File(file)),
        (Some(file), None, Some(saved)) => Some(Source::Restart { saved, file }),
        (None, Some(text), None) => Some(Source::Generate(size_of(text)?)),
        _ => None,
    }
}

/// Whether a flag is given, by its value.
fn is_given(value: Option<&str>) -> bool
    ensures { result ≡ is_flag_given (option_map (λ text. text.now) value.entry) }
{
    match value {
        Some(text) => text == "true",
        None => false,
    }
}

/// What the matches request, if they name exactly one source.
fn request_in<'a>(matches: &ArgMatches<'a>) -> Option<Request<'a>>
    ensures { option_map asked_by result ≡ request_in (rows_of (found_of matches.now)) }
{
    let file = matches.get_str("file");
    let size = matches.get_str("generate");
    let saved = matches.get_str("restart");
    let source = source_of(file, size, saved)?;
    let out = matches.get_str("out");
    let save = matches.get_str("save");
    let ranges = is_given(matches.get_str("ranges"));
    Some(Request {
        source,
        out,
        save,
        ranges,
    })
}

/// Whether an argument does not begin with `-`.
fn is_plain(word: &str) -> bool
    ensures { result ≡ is_no_option word.now }
{
    !matches!(word.as_bytes(), [b'-', ..])
}

/// What one argument that does not begin with `-` requests: a run of the file of this name. For it
/// the command need not be made.
fn request_of_file<'a>(words: &'a [String]) -> Option<Request<'a>>
    ensures { IfSome result (λ request. request_of (texts words.now) ≡ Some (asked_by request)) }
{
    match words {
        [file] if is_plain(file) => Some(Request {
            source: Source::File(file),
            out: None,
            save: None,
            ranges: false,
        }),
        _ => None,
    }
}

/// What the arguments `words` request. `None` means that they are refused: the `clap` command
/// rejects them; not exactly one of FILE and `--generate` is given; `--generate` has no number from
/// 1 to 30 in decimal digits without a sign or a leading zero; or both `--generate` and `--restart`
/// are given. The error is out of memory.
pub fn request_of<'a>(alloc: Global, words: &'a [String]) -> Result<Option<Request<'a>>, AllocError>
    ensures { IfOk result (λ request. option_map asked_by request ≡ request_of (texts words.now)) }
{
    if let Some(request) = request_of_file(words) {
        return Ok(Some(request));
    }
    match found_in(alloc, words)? {
        Some(matches) => Ok(request_in(&matches)),
        None => Ok(None),
    }
}

/// The name of the listing's file after that of FILE: with a last `.gms` replaced by `.lst`, or
/// else with `.lst` added.
fn output_name(alloc: Global, file: &str) -> Result<String, AllocError>
    ensures { IfOk result (λ name. string_bytes name ≡ output_name file.now) }
{
    match file.strip_suffix(".gms") {
        Some(stem) => format!(in alloc; "{stem}.lst"),
        None => format!(in alloc; "{file}.lst"),
    }
}

/// The name of the file for the listing. It is the value of `--out`, if that is given; else
/// `generate.lst` for a generated model; else, also with `--restart`, the name of FILE with `.lst`
/// in place of a `.gms` at its end, or else with `.lst` added. The error is out of memory.
pub fn output_of(alloc: Global, request: Request) -> Result<String, AllocError>
    ensures { IfOk result (λ name. string_bytes name ≡ (asked_by request.entry).output) }
{
    match (request.out, request.source) {
        (Some(out), _) => String::from_str(alloc, out),
        (None, Source::File(file) | Source::Restart { file, .. }) => output_name(alloc, file),
        (None, Source::Generate(_)) => String::from_str(alloc, "generate.lst"),
    }
}

/// The line that is printed if the arguments are refused: it shows the arguments that the command
/// accepts.
pub fn usage_line() -> &'static str
    ensures { result.now ≡ usage_line }
{
    USAGE
}

/// The line that is printed if the input file named `file` cannot be read. The error is out of
/// memory.
pub fn read_fault_line(alloc: Global, file: &str) -> Result<String, AllocError>
    ensures { IfOk result (λ line. string_bytes line ≡ read_fault_line file.now) }
{
    format!(in alloc; "cannot read {file}\n")
}

/// The line that is printed after a generated model is solved. It has `size`, the number of plants
/// and also that of markets; the model status as a number; `objective`, the text of the objective's
/// value; and the number of pivots. The error is out of memory.
pub fn generated_line(
    alloc: Global,
    size: u32,
    model_status: u8,
    objective: &str,
    pivots: u128,
) -> Result<String, AllocError>
    ensures { IfOk result (λ line. string_bytes line ≡ generated_line size model_status objective.now pivots) }
{
    format!(in alloc;
        "generated {size} by {size}, model status {model_status}, objective {objective}, pivots {pivots}\n"
    )
}

/// The last line that is printed, after the listing is written to the file named `output`. It has
/// the run's exit status (`status`), its number of solves (`solves`), and `output`. The error is
/// out of memory.
pub fn closing_line(
    alloc: Global,
    status: u8,
    solves: usize,
    output: &str,
) -> Result<String, AllocError>
    ensures { IfOk result (λ line. string_bytes line ≡ closing_line status solves output.now) }
{
    format!(in alloc; "status {status}, solves {solves}, output {output}\n")
}

/// The line that is printed before the ranges of right sides and costs of a solve. `solve` is the
/// number of the solve, from 1. The error is out of memory.
pub fn ranges_line(alloc: Global, solve: usize) -> Result<String, AllocError>
    ensures { IfOk result (λ line. string_bytes line ≡ ranges_line solve) }
{
    format!(in alloc; "ranges of solve {solve}\n")
}

/// The line for one sensitivity range. `what` is `right` for the range of a row's right side, and
/// `cost` for that of a column's cost; `element` is the row's or column's text. `low` and `high`
/// are the texts of the ends; `None` is printed as `-INF` for `low`, as `+INF` for `high`. The
/// error is out of memory.
pub fn range_line(
    alloc: Global,
    what: &str,
    element: &str,
    low: Option<&str>,
    high: Option<&str>,
) -> Result<String, AllocError>
    ensures { IfOk result (λ line. string_bytes line ≡
        range_line what.now element.now (option_map (λ text. text.now) low.entry) (option_map (λ text. text.now) high.entry)) }
{
    let from = low.unwrap_or("-INF");
    let to = high.unwrap_or("+INF");
    format!(in alloc; "  {what} {element} from {from} to {to}\n")
}

/// The line `WHAT ELEMENT not shown`, for a sensitivity range whose computation exceeds the field's
/// limit on the size of numbers. `what` is `right` for the range of a row's right side, and `cost`
/// for that of a column's cost; `element` is the row's or column's text. The error is out of
/// memory.
pub fn not_shown_line(alloc: Global, what: &str, element: &str) -> Result<String, AllocError>
    ensures { IfOk result (λ line. string_bytes line ≡ not_shown_line what.now element.now) }
{
    format!(in alloc; "  {what} {element} not shown\n")
}
