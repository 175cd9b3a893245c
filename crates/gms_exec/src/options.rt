//! Option statements.
ghost use Rattle.std.specs.Prelude.{◌≡◌, ◌<◌, ◌^◌, length, map};
ghost use Rattle.gms_exec.specs.Options.{is_same_word, count_set, switch_set, solver_set, after_option, after_options};

use gms_ast::{Setting, Word};
use gms_store::Settings;
use gq_field::ExactField;
use lp_slot::LpSolver;

/// The greatest number of rows, columns or pivots that an option is set to.
const MOST_COUNT: u32 = 2_147_483_647;

/// The greatest number of decimals.
const MOST_DECIMALS: u32 = 8;

/// Whether a text is this word, letter case ignored.
fn is_word(word: &str, text: &[u8]) -> bool
    ensures { result ≡ is_same_word word.now text.now }
{
    text.eq_ignore_ascii_case(word.as_bytes())
}

/// The whole number, at most `most`, that an option is set to; if it is set to anything else, the
/// old one.
fn count<F: ExactField>(most: u32, old: u32, setting: &Setting<F>) -> u32
    ensures { result ≡ count_set F.value most old setting.now }
{
    let Setting::Number { value, .. } = setting else {
        return old;
    };
    let (numerator, denominator) = value.parts();
    if denominator == 1 && 0 <= numerator && numerator <= most as i128 {
        numerator as u32
    } else {
        old
    }
}

/// Whether a switch is set on or off; it stays if it is set to anything else.
fn switch<F>(old: bool, setting: &Setting<F>) -> bool
    ensures { result ≡ switch_set old setting.now }
{
    let Setting::Name(word) = setting else {
        return old;
    };
    let text = word.text.as_slice();
    if is_word("on", text) {
        true
    } else if is_word("off", text) {
        false
    } else {
        old
    }
}

/// Whether a solver has this name, letter case ignored.
fn has_name(solver: &Box<dyn LpSolver>, word: &[u8]) -> bool
    ensures { result ≡ is_same_word word.now (name solver.now) }
{
    solver.name().as_bytes().eq_ignore_ascii_case(word)
}

/// The index of the first solver with the name that an option is set to; the old index if none has
/// it.
fn chosen<F>(old: u32, setting: &Setting<F>, solvers: &[Box<dyn LpSolver>]) -> u32
    requires { length solvers.now < 2 ^ 32 }
    ensures { result ≡ solver_set (map name solvers.now) old setting.now }
{
    let Setting::Name(word) = setting else {
        return old;
    };
    for (place, solver) in solvers.iter().enumerate() {
        if has_name(solver, word.text.as_slice()) {
            return place as u32;
        }
    }
    old
}

/// The settings after one option. A word that is accepted without effect changes nothing.
fn after_option<F: ExactField>(
    s: Settings,
    word: &Word,
    setting: &Setting<F>,
    solvers: &[Box<dyn LpSolver>],
) -> Settings
    requires { length solvers.now < 2 ^ 32 }
    ensures { result ≡ after_option F.value (map name solvers.now) s (word.now, setting.now) }
{
    let word = word.text.as_slice();
    if is_word("limrow", word) {
        Settings {
            limrow: count(MOST_COUNT, s.limrow, setting),
            ..s
        }
    } else if is_word("limcol", word) {
        Settings {
            limcol: count(MOST_COUNT, s.limcol, setting),
            ..s
        }
    } else if is_word("iterlim", word) {
        Settings {
            iterlim: count(MOST_COUNT, s.iterlim, setting),
            ..s
        }
    } else if is_word("decimals", word) {
        Settings {
            decimals: count(MOST_DECIMALS, s.decimals as u32, setting) as u8,
            ..s
        }
    } else if is_word("solprint", word) {
        Settings {
            solprint: switch(s.solprint, setting),
            ..s
        }
    } else if is_word("lp", word) {
        Settings {
            solver: chosen(s.solver, setting, solvers),
            ..s
        }
    } else {
        s
    }
}

/// The settings after the options of a statement, in order. GAMS User's Guide, "The Option
/// Statement".
pub(crate) fn after_options<F: ExactField>(
    settings: Settings,
    options: &[(Word, Setting<F>)],
    solvers: &[Box<dyn LpSolver>],
) -> Settings
    requires { length solvers.now < 2 ^ 32 }
    ensures { result ≡ after_options F.value (map name solvers.now) settings options.now }
{
    let mut settings = settings;
    for (word, setting) in options {
        settings = after_option(settings, word, setting, solvers);
    }
    settings
}
