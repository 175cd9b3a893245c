//! A run over a host in memory and lent solvers, and its results.
use crate::greatest::GreatestFirst;
use gms_host::MemHost;
use gms_run::{Ended, run};
use gq_field::ExactField;
use gq_frac::Frac;
use lp_any::{Any, Steepest};
use lp_bland::Bland;
use lp_core::{Answer, End, Pivot};
use lp_dantzig::Dantzig;
use lp_slot::LpSolver;
use std::alloc::Global;
use std::fmt::Write;
use std::process::Abort;

/// The results of a run.
pub(crate) struct Left {
    /// Its status.
    pub(crate) status: u8,
    /// The text of its output.
    pub(crate) output: String,
    /// What it printed.
    pub(crate) said: String,
    /// How many calls of its host it made.
    pub(crate) calls: u64,
    /// The names that it requested, each with a blank after it.
    pub(crate) asked: String,
    /// The outputs that were closed, each by its name and how many bytes it has, a line.
    pub(crate) kept: String,
    /// What its solvers tell, followed by the rays of its answers.
    pub(crate) told: String,
}

// Written out, so that it is proved once, and not at each exit that drops one.
impl Drop for Left {
    fn drop(self) {
        let Self {
            status: _,
            output: _,
            said: _,
            calls: _,
            asked: _,
            kept: _,
            told: _,
        } = self;
    }
}

/// Files, by their names and texts.
fn files_of(rt: &impl Abort, alloc: Global, named: &[(&str, &str)]) -> Vec<(String, Vec<u8>)> {
    let mut files = Vec::new(alloc);
    for (name, text) in named {
        let file = file_of(rt, alloc, name, text);
        files.push(file).expect(rt, "memory");
    }
    files
}

/// A file of this name and text.
fn file_of(rt: &impl Abort, alloc: Global, name: &str, text: &str) -> (String, Vec<u8>) {
    let name = String::from_str(alloc, name).expect(rt, "memory");
    let bytes = Vec::from_slice(alloc, text.as_bytes()).expect(rt, "memory");
    (name, bytes)
}

/// A host with these files, whose calls of these numbers fail; a call moves at most `most` bytes; 0
/// is no bound.
pub(crate) fn host_of(
    rt: &impl Abort,
    alloc: Global,
    named: &[(&str, &str)],
    fail: &[u64],
    most: u32,
) -> MemHost {
    let fail = Vec::from_slice(alloc, fail).expect(rt, "memory");
    let files = files_of(rt, alloc, named);
    if most == 0 {
        return MemHost::new(alloc, files, fail);
    }
    MemHost::in_pieces(alloc, files, fail, most)
}

/// The solver of a name: one of the program's, or else `greatest`.
fn solver(rt: &impl Abort, alloc: Global, name: &str) -> Box<dyn LpSolver> {
    if name == "bland" {
        return Box::new(alloc, Bland::new(alloc)).expect(rt, "memory");
    }
    if name == "dantzig" {
        return Box::new(alloc, Dantzig::new(alloc)).expect(rt, "memory");
    }
    if name == "steepest" {
        return Box::new(alloc, Steepest::new(alloc)).expect(rt, "memory");
    }
    if name == "any" {
        return Box::new(alloc, Any::new(alloc)).expect(rt, "memory");
    }
    Box::new(alloc, GreatestFirst::new(alloc)).expect(rt, "memory")
}

/// The solvers of these names.
fn lent(rt: &impl Abort, alloc: Global, names: &[&str]) -> Vec<Box<dyn LpSolver>> {
    let mut solvers: Vec<Box<dyn LpSolver>> = Vec::new(alloc);
    for name in names {
        let solver = solver(rt, alloc, name);
        solvers.push(solver).expect(rt, "memory");
    }
    solvers
}

/// The arguments of a command line.
fn words_of(rt: &impl Abort, alloc: Global, words: &[&str]) -> Vec<String> {
    let mut list = Vec::new(alloc);
    for word in words {
        let word = String::from_str(alloc, word).expect(rt, "memory");
        list.push(word).expect(rt, "memory");
    }
    list
}

/// Puts a path of a solver: ` | 3>5` for one of one pivot.
fn put_path(rt: &impl Abort, path: &[Pivot], text: &mut String) {
    text.push_str(" |").expect(rt, "memory");
    for pivot in path {
        write!(text, " {}>{}", pivot.enter, pivot.leave).expect(rt, "memory");
    }
}

/// Puts the name of a solver and its paths, a line: `bland | 3>5` for one path of one pivot.
fn put_solver(rt: &impl Abort, solver: &Box<dyn LpSolver>, text: &mut String) {
    text.push_str(solver.name()).expect(rt, "memory");
    for path in solver.paths() {
        put_path(rt, path.as_slice(), text);
    }
    text.push('\n').expect(rt, "memory");
}

/// Puts numbers, a line: `1/1 0/1 `.
fn put_numbers(rt: &impl Abort, numbers: &[Frac], text: &mut String) {
    for number in numbers {
        let (top, below) = number.parts();
        write!(text, "{top}/{below} ").expect(rt, "memory");
    }
    text.push('\n').expect(rt, "memory");
}

/// Puts what solvers tell, a line each, followed by the rays of answers.
fn put_told(
    rt: &impl Abort,
    solvers: &[Box<dyn LpSolver>],
    answers: &[Answer<Frac>],
    text: &mut String,
) {
    for solver in solvers {
        put_solver(rt, solver, text);
    }
    for answer in answers {
        if let End::Unbounded { ray, .. } = &answer.end {
            put_numbers(rt, ray.as_slice(), text);
        }
    }
}

/// Runs these arguments over a host and solvers.
fn ended(
    rt: &impl Abort,
    alloc: Global,
    words: &[&str],
    host: &mut MemHost,
    solvers: &mut Vec<Box<dyn LpSolver>>,
) -> Ended {
    assert!(rt; solvers.len() <= 4, "at most four solvers");
    let words = words_of(rt, alloc, words);
    run(alloc, words.as_slice(), host, solvers).expect(rt, "memory")
}

/// Runs these arguments over a host and the solvers of these names, and tells the status and what
/// the solvers tell.
fn ran(
    rt: &impl Abort,
    alloc: Global,
    words: &[&str],
    host: &mut MemHost,
    names: &[&str],
) -> (u8, String) {
    let mut solvers = lent(rt, alloc, names);
    let ended = ended(rt, alloc, words, host, &mut solvers);
    let mut text = String::new(alloc);
    put_told(rt, solvers.as_slice(), ended.answers.as_slice(), &mut text);
    (ended.status.code(), text)
}

/// Puts the text of these bytes.
fn put_text(rt: &impl Abort, bytes: &[u8], text: &mut String) {
    let bytes = str::from_utf8(bytes).expect(rt, "a text");
    text.push_str(bytes).expect(rt, "memory");
}

/// Puts the outputs that a host keeps, each by its name and how many bytes it has, a line: `a.lst
/// 135`.
fn put_kept(rt: &impl Abort, host: &MemHost, text: &mut String) {
    for (name, bytes) in host.closed() {
        let count = bytes.len();
        writeln!(text, "{name} {count}").expect(rt, "memory");
    }
}

/// Puts the names that were requested from a host, each with a blank after it: `a.gms a.lst `.
fn put_asked(rt: &impl Abort, host: &MemHost, text: &mut String) {
    for name in host.asked() {
        write!(text, "{name} ").expect(rt, "memory");
    }
}

/// The results of a run with this status, whose solvers tell this.
fn left_by(rt: &impl Abort, alloc: Global, host: &MemHost, status: u8, told: String) -> Left {
    let mut left = Left {
        status,
        output: String::new(alloc),
        said: String::new(alloc),
        calls: host.calls(),
        asked: String::new(alloc),
        kept: String::new(alloc),
        told,
    };
    put_text(rt, host.output(), &mut left.output);
    put_text(rt, host.said(), &mut left.said);
    put_asked(rt, host, &mut left.asked);
    put_kept(rt, host, &mut left.kept);
    left
}

/// Runs these arguments over a host with these files, and over the solvers of these names.
pub(crate) fn run_files(
    rt: &impl Abort,
    alloc: Global,
    (files, most, fail): (&[(&str, &str)], u32, &[u64]),
    words: &[&str],
    names: &[&str],
) -> Left {
    let mut host = host_of(rt, alloc, files, fail, most);
    let (status, told) = ran(rt, alloc, words, &mut host, names);
    left_by(rt, alloc, &host, status, told)
}

/// Runs these arguments over a host with the source in `a.gms`, and over the solvers of these
/// names.
pub(crate) fn run_words(
    rt: &impl Abort,
    alloc: Global,
    (source, most, fail): (&str, u32, &[u64]),
    words: &[&str],
    names: &[&str],
) -> Left {
    let files = [("a.gms", source)];
    run_files(rt, alloc, (files.as_slice(), most, fail), words, names)
}
