//! That a run which saves, and one which resumes from a save, ends as expected if any call of its
//! host fails; and over other solvers.
use crate::runs::{Left, run_files};
use std::alloc::Global;
use std::process::Abort;

/// Files and the arguments of a run over them, and the expected results if no call fails.
#[derive(Clone, Copy)]
struct Awaited<'a> {
    /// The files, each with its text.
    files: &'a [(&'a str, &'a str)],
    /// The arguments.
    words: &'a [&'a str],
    /// The whole listing.
    listing: &'a str,
    /// The text of the output at the end: the save, or the listing if nothing is saved.
    last: &'a str,
    /// The names that are requested.
    asked: &'a str,
    /// The outputs that are kept, each by its name and how many bytes it has.
    kept: &'a str,
    /// What is printed.
    said: &'a str,
}

const SOURCE: &str = "scalar a /1/; a = a + 1/2;";

const SAVE: &str = "\
gams25 save 1
source 26
scalar a /1/; a = a + 1/2;
settings 3 3 1000 3 on bland
parameter a 1
3/2
end
";

const DONE: &str = "status 0, solves 0, output a.lst\n";

const LATER: &str = "a = a*2; display a;";

const LATER_DONE: &str = "status 0, solves 0, output b.lst\n";

const LATER_LISTING: &str = "     3  a = a*2; display a;
---- 3 SCALAR a = 3.000
END status 0 solves 0
";

const LATER_SAVE: &str = "\
gams25 save 1
source 48
scalar a /1/; a = a + 1/2;
;
a = a*2; display a;
settings 3 3 1000 3 on bland
parameter a 1
3
end
";

/// A run that saves its last state.
const SAVING: Awaited<'static> = Awaited {
    files: &[("a.gms", SOURCE)],
    words: &["--save", "s.sav", "a.gms"],
    listing: "     1  scalar a /1/; a = a + 1/2;\nEND status 0 solves 0\n",
    last: SAVE,
    asked: "a.gms a.lst s.sav ",
    kept: "a.lst 57\ns.sav 102\n",
    said: DONE,
};

/// A run that resumes from that.
const GOING_ON: Awaited<'static> = Awaited {
    files: &[("b.gms", LATER), ("s.sav", SAVE)],
    words: &["--restart", "s.sav", "b.gms"],
    listing: LATER_LISTING,
    last: LATER_LISTING,
    asked: "s.sav b.gms b.lst ",
    kept: "b.lst 74\n",
    said: LATER_DONE,
};

/// A run that resumes and saves.
const DOING_BOTH: Awaited<'static> = Awaited {
    files: &[("b.gms", LATER), ("s.sav", SAVE)],
    words: &["--restart", "s.sav", "--save", "t.sav", "b.gms"],
    listing: LATER_LISTING,
    last: LATER_SAVE,
    asked: "s.sav b.gms b.lst t.sav ",
    kept: "b.lst 74\nt.sav 122\n",
    said: LATER_DONE,
};

/// The call that fails, the expected status, what is requested, kept and printed, and how many
/// bytes the output has.
type Row<'a> = (u64, u8, &'a str, &'a str, &'a str, usize);

/// Its calls are open_in, two reads, open_out, write, close_out, and for the save open_out, write,
/// close_out, and say.
const SAVING_ROWS: [Row<'static>; 11] = [
    (0, 4, "", "", "cannot read a.gms\n", 0),
    (1, 4, "a.gms ", "", "cannot read a.gms\n", 0),
    (2, 4, "a.gms ", "", "cannot read a.gms\n", 0),
    (3, 5, "a.gms ", "", "", 0),
    (4, 5, "a.gms a.lst ", "", "", 0),
    (5, 5, "a.gms a.lst ", "", "", 57),
    (6, 5, "a.gms a.lst ", "a.lst 57\n", "", 0),
    (7, 5, "a.gms a.lst s.sav ", "a.lst 57\n", "", 0),
    (8, 5, "a.gms a.lst s.sav ", "a.lst 57\n", "", 102),
    (9, 5, "a.gms a.lst s.sav ", "a.lst 57\ns.sav 102\n", "", 102),
    (
        10,
        0,
        "a.gms a.lst s.sav ",
        "a.lst 57\ns.sav 102\n",
        DONE,
        102,
    ),
];

/// Its calls are open_in and two reads for the save, the same for the file, and open_out, write,
/// close_out and say.
const GOING_ON_ROWS: [Row<'static>; 11] = [
    (0, 4, "", "", "cannot read s.sav\n", 0),
    (1, 4, "s.sav ", "", "cannot read s.sav\n", 0),
    (2, 4, "s.sav ", "", "cannot read s.sav\n", 0),
    (3, 4, "s.sav ", "", "cannot read b.gms\n", 0),
    (4, 4, "s.sav b.gms ", "", "cannot read b.gms\n", 0),
    (5, 4, "s.sav b.gms ", "", "cannot read b.gms\n", 0),
    (6, 5, "s.sav b.gms ", "", "", 0),
    (7, 5, "s.sav b.gms b.lst ", "", "", 0),
    (8, 5, "s.sav b.gms b.lst ", "", "", 74),
    (9, 5, "s.sav b.gms b.lst ", "b.lst 74\n", "", 74),
    (10, 0, "s.sav b.gms b.lst ", "b.lst 74\n", LATER_DONE, 74),
];

/// Runs this over a host of which a call moves at most `most` bytes (0 is no bound), and one call
/// fails.
fn left_of(rt: &impl Abort, alloc: Global, expected: &Awaited, most: u32, fail: u64) -> Left {
    let fail = [fail];
    let host = (expected.files, most, fail.as_slice());
    run_files(
        rt,
        alloc,
        host,
        expected.words,
        &["bland", "dantzig", "steepest", "any"],
    )
}

/// Whether a run had the expected results of a row, and prefixes of what is expected of any.
fn is_row(left: &Left, expected: &Awaited, row: &Row) -> bool {
    let (_, status, asked, kept, said, length) = *row;
    left.status == status
        && left.asked.as_str() == asked
        && left.kept.as_str() == kept
        && left.said.as_str() == said
        && left.output.len() == length
        && has_prefixes(left, expected)
}

/// Whether a run, one call of which failed, had results as expected of any: the output is a prefix
/// of the expected text, and what is requested, kept and printed are prefixes of what is expected.
fn has_prefixes(left: &Left, expected: &Awaited) -> bool {
    let text = if left.kept.is_empty() {
        expected.listing
    } else {
        expected.last
    };
    text.starts_with(left.output.as_str())
        && expected.asked.starts_with(left.asked.as_str())
        && expected.kept.starts_with(left.kept.as_str())
        && prints_prefix(left, expected)
}

/// Whether the printed text says that a file cannot be read, with an empty output; or is a prefix
/// of the expected one, and empty before all expected outputs were kept.
fn prints_prefix(left: &Left, expected: &Awaited) -> bool {
    if left.status == 4 {
        return left.output.is_empty() && left.said.starts_with("cannot read ");
    }
    let is_whole = left.kept.as_str() == expected.kept;
    expected.said.starts_with(left.said.as_str()) && (is_whole || left.said.is_empty())
}

/// Compares a run, one call of which fails, with the expected one.
fn check(rt: &impl Abort, alloc: Global, expected: &Awaited, row: &Row) {
    let (fail, ..) = *row;
    let left = left_of(rt, alloc, expected, 0, fail);
    assert!(rt; is_row(&left, expected, row), "{fail}");
}

#[test]
fn a_failed_call_ends_a_run_that_saves(rt: HostRuntime) {
    for row in &SAVING_ROWS {
        check(&rt, rt.alloc(), &SAVING, row);
    }
}

#[test]
fn a_failed_call_ends_a_restarted_run(rt: HostRuntime) {
    for row in &GOING_ON_ROWS {
        check(&rt, rt.alloc(), &GOING_ON, row);
    }
}

/// How many calls a run makes that does both, byte by byte, where none fails: 104 for the save of
/// 102 bytes, 21 for the file of 19, 76 for the listing of 74, 124 for the save of 122, and 33 for
/// what is printed.
const CALLS: u64 = 358;

/// Whether a run that does both, whose call of this number fails, had the expected results; there
/// is no call `CALLS`.
fn is_faulted(left: &Left, fail: u64) -> bool {
    match left.status {
        0 => fail == CALLS && left.calls == CALLS && left.output.as_str() == LATER_SAVE,
        4 => has_prefixes(left, &DOING_BOTH),
        5 => left.calls == fail.saturating_add(1) && has_prefixes(left, &DOING_BOTH),
        _ => false,
    }
}

/// Compares a run that does both, byte by byte, one call of which fails, with the expected one.
fn check_fault(rt: &impl Abort, alloc: Global, fail: u64) {
    let left = left_of(rt, alloc, &DOING_BOTH, 1, fail);
    assert!(rt; is_faulted(&left, fail), "{fail}");
}

#[test]
fn each_call_fails_in_turn_byte_by_byte(rt: HostRuntime) {
    for fail in 0..=CALLS {
        check_fault(&rt, rt.alloc(), fail);
    }
}

/// The save of that source without solvers.
const ALONE: &str = "\
gams25 save 1
source 26
scalar a /1/; a = a + 1/2;
settings 3 3 1000 3 on none
parameter a 1
3/2
end
";

/// What is listed of a save whose solver does not exist.
const NO_SOLVER: &str =
    "*** Source error 43 SaveSolver at line 1 column 1\nEND status 2 solves 0\n";

/// A save, the solvers that are lent, and what is listed of the file that resumes from it.
const LENT: [(&str, &[&str], &str); 6] = [
    (SAVE, &["bland"], LATER_LISTING),
    (SAVE, &["greatest", "bland"], LATER_LISTING),
    (SAVE, &["dantzig"], NO_SOLVER),
    (SAVE, &[], NO_SOLVER),
    (ALONE, &[], LATER_LISTING),
    (ALONE, &["bland"], NO_SOLVER),
];

/// Compares the output of a run of these arguments with the expected one.
fn check_output(
    rt: &impl Abort,
    alloc: Global,
    files: &[(&str, &str)],
    words: &[&str],
    solvers: &[&str],
    expected: &str,
) {
    let left = run_files(rt, alloc, (files, 0, &[]), words, solvers);
    assert!(rt; left.output.as_str() == expected);
}

#[test]
fn a_save_goes_with_its_solver(rt: HostRuntime) {
    check_output(&rt, rt.alloc(), SAVING.files, SAVING.words, &[], ALONE);
    for (save, solvers, listing) in &LENT {
        let files = [("b.gms", LATER), ("s.sav", *save)];
        check_output(&rt, rt.alloc(), &files, GOING_ON.words, solvers, listing);
    }
}
