//! The check of options: their words, and their values.
ghost use Rattle.std.specs.Prelude.{◌≡◌, flat_map, not};
ghost use Rattle.std.specs.Str.{str_eq_ignore_ascii_case};
ghost use Rattle.gms_check.specs.InnerChecking.{noted, seen};
ghost use Rattle.gms_check.specs.InnerOptionKinds.{is_known_option, is_within, kind_of_word, names_solver};
ghost use Rattle.gms_check.specs.OptionWords.{ignored, is_count_up_to, is_none_of, is_one_of, is_switch};
ghost use Rattle.gms_check.specs.StatementUses.{option_uses, setting_place};

use crate::checker::Checker;
use crate::error::ErrorKind;
use crate::target::is_whole;
use gms_ast::{Setting, Word};
use gms_labels::Place;
use gq_field::ExactField;

/// The greatest value of an option that counts rows, columns or pivots.
const MOST_COUNT: u32 = 2_147_483_647;

/// The greatest number of decimals.
const MOST_DECIMALS: u32 = 8;

/// The options that are accepted with any value, without effect.
const IGNORED: [&str; 12] = [
    "reslim", "optcr", "optca", "domlim", "bratio", "sysout", "solslack", "nlp", "mip", "rmip",
    "dnlp", "mcp",
];

/// The kind of an option, which determines the values that it admits.
#[derive(Clone, Copy, Debug, PartialEq, Eq)]
pub enum OptionWord {
    /// `limrow`, `limcol` or `iterlim`: an integer up to 2,147,483,647.
    Count,
    /// `decimals`: an integer up to 8.
    Decimals,
    /// `solprint`: `on` or `off`.
    Switch,
    /// `lp`: the name of a solver.
    Solver,
    /// An option that is accepted with any value, without effect.
    Ignored,
    /// A word that is no option.
    Unknown,
}

impl OptionWord {
    /// The option of a word, letter case ignored.
    fn of(word: &[u8]) -> OptionWord
        ensures { result ≡ kind_of_word word.now }
    {
        if is_word(word, "limrow") || is_word(word, "limcol") || is_word(word, "iterlim") {
            OptionWord::Count
        } else if is_word(word, "decimals") {
            OptionWord::Decimals
        } else if is_word(word, "solprint") {
            OptionWord::Switch
        } else if is_word(word, "lp") {
            OptionWord::Solver
        } else if is_ignored(word) {
            OptionWord::Ignored
        } else {
            OptionWord::Unknown
        }
    }

    /// Whether it is an option.
    fn is_known(self) -> bool
        ensures { result ≡ is_known_option self }
    {
        !matches!(self, OptionWord::Unknown)
    }

    /// Whether it names a solver.
    fn names_solver(self) -> bool
        ensures { result ≡ names_solver self }
    {
        matches!(self, OptionWord::Solver)
    }
}

impl<'s, F: ExactField> Checker<'s, F> {
    /// Checks the options of a statement, and notes the first error: each word must be an option,
    /// and the option must admit its value.
    pub fn options(&mut self, settings: &[(Word, Setting<F>)])
        ensures { seen self.new ≡ noted F.value (seen self.old) (flat_map option_uses settings.now) }
    {
        for (word, setting) in settings {
            self.option(word, setting);
        }
    }

    /// Checks an option.
    fn option(&mut self, word: &Word, setting: &Setting<F>)
        ensures { seen self.new ≡ noted F.value (seen self.old) (option_uses (word.now, setting.now)) }
    {
        let option = OptionWord::of(word.text.as_slice());
        let at = place_of(setting);
        let there = !option.names_solver() || self.is_solver(setting);
        let within = is_in_range(option, setting);
        self.require(option.is_known(), ErrorKind::UnknownName, word.at);
        self.require(there, ErrorKind::UnknownSolver, at);
        self.require(within, ErrorKind::OptionRange, at);
    }

    /// Whether a setting is a number, or the name of a solver.
    fn is_solver(&self, setting: &Setting<F>) -> bool
        ensures { result ≡ not (is_none_of (seen self.now).solvers setting.now) }
    {
        match setting {
            Setting::Number { .. } => true,
            Setting::Name(name) => self.has_solver(name.text.as_slice()),
        }
    }

    /// Whether a solver has this name, letter case ignored.
    fn has_solver(&self, name: &[u8]) -> bool
        ensures { result ≡ is_one_of (seen self.now).solvers name.now }
    {
        for solver in self.solvers {
            if is_same(name, solver.as_slice()) {
                return true;
            }
        }
        false
    }
}

/// Whether `text` is the same as `word`, letter case ignored.
pub fn is_word(text: &[u8], word: &str) -> bool
    ensures { result ≡ str_eq_ignore_ascii_case text.now word.now }
{
    is_same(text, word.as_bytes())
}

/// Whether two texts are the same, letter case ignored.
fn is_same(text: &[u8], other: &[u8]) -> bool
    ensures { result ≡ str_eq_ignore_ascii_case text.now other.now }
{
    text.eq_ignore_ascii_case(other)
}

/// Whether a word is that of an option that is accepted without effect.
fn is_ignored(word: &[u8]) -> bool
    ensures { result ≡ is_one_of ignored word.now }
{
    for ignored in IGNORED {
        if is_word(word, ignored) {
            return true;
        }
    }
    false
}

/// The place of what an option is set to.
fn place_of<F: ExactField>(setting: &Setting<F>) -> Place
    ensures { result ≡ setting_place setting.now }
{
    match setting {
        Setting::Number { at, .. } => *at,
        Setting::Name(word) => word.at,
    }
}

/// Whether what an option is set to is within its range.
fn is_in_range<F: ExactField>(option: OptionWord, setting: &Setting<F>) -> bool
    ensures { result ≡ is_within F.value option setting.now }
{
    match option {
        OptionWord::Count => is_count_up_to(MOST_COUNT, setting),
        OptionWord::Decimals => is_count_up_to(MOST_DECIMALS, setting),
        OptionWord::Switch => is_switch(setting),
        OptionWord::Solver => matches!(setting, Setting::Name(_)),
        OptionWord::Ignored | OptionWord::Unknown => true,
    }
}

/// Whether an option is set to a whole number from 0 to another.
fn is_count_up_to<F: ExactField>(most: u32, setting: &Setting<F>) -> bool
    ensures { result ≡ is_count_up_to F.value most setting.now }
{
    match setting {
        Setting::Number { value, .. } => {
            let (numerator, _) = value.parts();
            is_whole(*value) && 0 <= numerator && numerator <= i128::from(most)
        }
        Setting::Name(_) => false,
    }
}

/// Whether an option is set to `on` or `off`.
fn is_switch<F: ExactField>(setting: &Setting<F>) -> bool
    ensures { result ≡ is_switch setting.now }
{
    match setting {
        Setting::Number { .. } => false,
        Setting::Name(word) => {
            is_word(word.text.as_slice(), "on") || is_word(word.text.as_slice(), "off")
        }
    }
}
