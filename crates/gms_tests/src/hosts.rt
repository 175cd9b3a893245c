//! That a run ends as expected if any call of its host fails, and what a host in memory answers.
use crate::runs::{Left, host_of, run_words};
use gms_host::{Failed, Host, MemHost, Spool};
use std::alloc::Global;
use std::process::Abort;

/// How many bytes a call moves (0 is no bound), the calls that fail, the expected status, how many
/// bytes of the expected listing are in the output, what is printed, how many calls are made, and
/// the output that is kept since it was closed, by its name and its bytes.
type Row<'a> = (u32, &'a [u64], u8, usize, &'a str, u64, &'a str);

/// A source, and its whole listing.
const LOOPED: (&str, &str) = (
    "set t /1*2/; scalar a /1/; loop(t, a = a*3; display a;);",
    "     1  set t /1*2/; scalar a /1/; loop(t, a = a*3; display a;);\n---- 1 SCALAR a = 3.000\n---- 1 SCALAR a = 9.000\nEND status 0 solves 0\n",
);

/// What is printed of a file that is not read.
const UNREAD: &str = "cannot read a.gms\n";

/// What is printed at the end of that source.
const DONE: &str = "status 0, solves 0, output a.lst\n";

/// The output that is kept.
const KEPT: &str = "a.lst 135\n";

/// Runs of that source. Whole, the calls are open_in, two reads, open_out, write, close_out and
/// say. Byte by byte, the 56 bytes of the source are read in the calls 1 to 57, the 135 of its
/// listing written in 59 to 193, and the 33 that are printed in 195 to 227.
const LOOPED_ROWS: [Row<'static>; 18] = [
    (0, &[7], 0, 135, DONE, 7, KEPT),
    (0, &[0], 4, 0, UNREAD, 2, ""),
    (0, &[1], 4, 0, UNREAD, 3, ""),
    (0, &[2], 4, 0, UNREAD, 4, ""),
    (0, &[3], 5, 0, "", 4, ""),
    (0, &[4], 5, 0, "", 5, ""),
    (0, &[5], 5, 135, "", 6, ""),
    (0, &[6], 5, 135, "", 7, KEPT),
    (0, &[0, 1], 4, 0, "", 2, ""),
    (1, &[228], 0, 135, DONE, 228, KEPT),
    (1, &[0], 4, 0, UNREAD, 19, ""),
    (1, &[57], 4, 0, UNREAD, 76, ""),
    (1, &[57, 66], 4, 0, "cannot r", 67, ""),
    (1, &[58], 5, 0, "", 59, ""),
    (1, &[59], 5, 0, "", 60, ""),
    (1, &[193], 5, 134, "", 194, ""),
    (1, &[194], 5, 135, "", 195, ""),
    (1, &[201], 5, 135, "status", 202, KEPT),
];

/// The end of the listing of the generated model of size 1, which has 1,336 bytes.
const PROOF: &str = "\
PROOF Optimal
  level x(p1,m1) = 18
  level z = 252
  marginal cost = 1
  marginal demand(m1) = 14
  bound 252
END status 0 solves 1
";

/// Whether a run had the expected results of a row, and a prefix of the expected listing.
fn is_expected(left: &Left, expected: &str, row: &Row) -> bool {
    let (_, _, status, length, said, calls, kept) = *row;
    left.status == status
        && expected.starts_with(left.output.as_str())
        && left.output.len() == length
        && left.said.as_str() == said
        && left.calls == calls
        && left.kept.as_str() == kept
}

/// Compares the run of these arguments with the expected one, and the first text that its solver
/// tells.
fn check(
    rt: &impl Abort,
    alloc: Global,
    source: &str,
    words: &[&str],
    expected: &str,
    row: &Row,
    tells: &str,
) {
    let (most, fail, ..) = *row;
    let left = run_words(rt, alloc, (source, most, fail), words, &["bland"]);
    let told = left.told.starts_with(tells);
    assert!(rt; told && is_expected(&left, expected, row), "{fail:?}");
}

#[test]
fn a_failed_call_ends_a_run(rt: HostRuntime) {
    let (source, expected) = LOOPED;
    for row in &LOOPED_ROWS {
        check(
            &rt,
            rt.alloc(),
            source,
            &["a.gms"],
            expected,
            row,
            "bland\n",
        );
    }
}

/// What is printed at the end of the generated model of size 1.
const SOLVED: &str =
    "generated 1 by 1, model status 1, objective 252.000, pivots 3\nstatus 0, solves 1, output generate.lst\n";

/// Runs of that model, whose calls are open_out, write, close_out and say.
const GENERATED_ROWS: [Row<'static>; 5] = [
    (0, &[4], 0, 1336, SOLVED, 4, "generate.lst 1336\n"),
    (0, &[0], 5, 0, "", 1, ""),
    (0, &[1], 5, 0, "", 2, ""),
    (0, &[2], 5, 1336, "", 3, ""),
    (0, &[3], 5, 1336, "", 4, "generate.lst 1336\n"),
];

/// Compares the runs of that model with the listing of one in which no call fails.
fn check_generated(rt: &impl Abort, alloc: Global, words: &[&str], expected: &str) {
    for row in &GENERATED_ROWS {
        check(rt, alloc, "", words, expected, row, "bland");
    }
}

#[test]
fn a_failed_call_ends_a_generated_run(rt: HostRuntime) {
    let alloc = rt.alloc();
    let words = ["--generate", "1"].as_slice();
    let whole = run_words(&rt, alloc, ("", 0, &[]), words, &["bland"]);
    assert!(rt; whole.output.ends_with(PROOF));
    check_generated(&rt, alloc, words, whole.output.as_str());
}

/// Runs of a source whose echo alone is longer than what may be pending, so that it has two writes,
/// calls 5 and 6; the statement before its solve, and what its solver tells.
const WRITES: [(&str, Row<'static>, &str); 3] = [
    ("", (0, &[5], 5, 0, "", 6, ""), "bland\n"),
    ("display a; ", (0, &[5], 5, 0, "", 6, ""), "bland\n"),
    (
        "",
        (0, &[6], 5, 4096, "", 7, ""),
        "bland | 3>5\n1/1 0/1 1/1 \n",
    ),
];

/// That source, with a statement before its solve.
fn long_source(rt: &impl Abort, alloc: Global, before: &str) -> String {
    let blanks = " ".repeat(alloc, 5_000).expect(rt, "memory");
    format!(in alloc;
        "scalar a /1/; positive variables x, y; variable z; equation obj; obj.. z =e= x + y; model m /all/;{blanks}{before}solve m using lp maximizing z;"
    ).expect(rt, "memory")
}

/// Compares the run of that source, one write of which fails, with the expected one.
fn check_write(rt: &impl Abort, alloc: Global, before: &str, row: &Row, tells: &str) {
    let source = long_source(rt, alloc, before);
    let echo = format!(in alloc; "     1  {source}\n").expect(rt, "memory");
    let (source, echo) = (source.as_str(), echo.as_str());
    check(rt, alloc, source, &["a.gms"], echo, row, tells);
}

#[test]
fn nothing_is_executed_after_a_failed_write(rt: HostRuntime) {
    for (before, row, tells) in &WRITES {
        check_write(&rt, rt.alloc(), before, row, tells);
    }
}

/// Whether a run of that first source, whose call of this number fails, had the expected results: a
/// prefix of the listing, and nothing after the failed call, except what is printed of a file that
/// cannot be read.
fn is_faulted(left: &Left, fail: u64) -> bool {
    let (_, expected) = LOOPED;
    if left.status == 4 {
        return left.output.is_empty() && left.said.as_str() == UNREAD;
    }
    let is_whole = left.output.len() == expected.len();
    left.status == 5
        && left.calls == fail.saturating_add(1)
        && expected.starts_with(left.output.as_str())
        && DONE.starts_with(left.said.as_str())
        && (is_whole || left.said.is_empty())
}

/// Compares the run of that first source, one call of which fails, with the expected one.
fn check_fault(rt: &impl Abort, alloc: Global, most: u32, fail: u64) {
    let (source, _) = LOOPED;
    let left = run_words(rt, alloc, (source, most, &[fail]), &["a.gms"], &["bland"]);
    assert!(rt; is_faulted(&left, fail), "{most} {fail}");
}

#[test]
fn each_call_fails_in_turn(rt: HostRuntime) {
    for (most, calls) in [(0, 7), (1, 228)] {
        for fail in 0..calls {
            check_fault(&rt, rt.alloc(), most, fail);
        }
    }
}

/// Three files, two of them of one name.
const FILES: [(&str, &str); 3] = [("a", "first"), ("b", "x"), ("a", "second")];

/// What the first byte of a file is, how many calls were made, how many names were noted, and how
/// often this one.
type Opened = (Result<u8, Failed>, u64, usize, usize);

/// A name, the call that fails, and the expected results for that file.
const NAMES: [(&str, u64, Opened); 5] = [
    ("a", 7, (Ok(b'f'), 2, 1, 1)),
    ("b", 7, (Ok(b'x'), 2, 1, 1)),
    ("c", 7, (Err(Failed::Fault), 1, 0, 0)),
    ("a", 0, (Err(Failed::Fault), 1, 0, 0)),
    ("a", 1, (Err(Failed::Fault), 2, 1, 1)),
];

/// The first byte of the file of this name.
fn first_byte(host: &mut MemHost, name: &str) -> Result<u8, Failed> {
    let mut buffer = [0u8; 1];
    host.open_in(name)?;
    host.read(&mut buffer)?;
    Ok(buffer[0])
}

/// How often a name was noted.
fn times_asked(host: &MemHost, name: &str) -> usize {
    let mut times = 0usize;
    for noted in host.asked() {
        if noted.as_str() == name {
            times = times.saturating_add(1);
        }
    }
    times
}

/// The results for the file of this name, where this call fails.
fn opened(rt: &impl Abort, alloc: Global, name: &str, fail: u64) -> Opened {
    let mut host = host_of(rt, alloc, &FILES, &[fail], 0);
    let first = first_byte(&mut host, name);
    let asked = host.asked().len();
    (first, host.calls(), asked, times_asked(&host, name))
}

#[test]
fn a_host_in_memory_opens_the_first_file_of_a_name(rt: HostRuntime) {
    for (name, fail, expected) in &NAMES {
        assert!(rt;
            opened(&rt, rt.alloc(), name, *fail) == *expected,
            "{name} {fail}"
        );
    }
}

#[test]
fn a_spool_hands_on_a_failed_write(rt: HostRuntime) {
    let alloc = rt.alloc();
    let mut host = host_of(&rt, alloc, &[], &[1], 0);
    let mut spool = Spool::new(alloc).expect(&rt, "memory");
    host.open_out("a.lst").expect(&rt, "the output");
    spool
        .put(&mut host, b"ab")
        .expect(&rt, "room for two bytes");
    assert!(rt; matches!(spool.flush(&mut host), Err(Failed::Fault)));
    assert!(rt; host.output().is_empty());
}
