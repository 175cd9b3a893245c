//! What the statements of a run show.
use gms_ast::{Sequence, Suffix};
use gms_eval::ExecStop;
use gms_store::{Settings, SymbolKind};
use gms_tuple::Tuple;
use gq_extended::Ext;
use lp_core::Lp;

/// What a statement shows in a run, or why the run stops.
///
/// `display "costs", c, x.l;` is one event of three items. GAMS User's Guide, "GAMS Output".
#[derive(Drop)]
pub enum Event<F> {
    /// A `display`.
    Display {
        /// The line of its statement.
        line: u32,
        /// What it shows, in order.
        items: Sequence<Shown<F>>,
    },
    /// A solve.
    Solve {
        /// The line of its statement.
        line: u32,
        /// The model, by the number of its name.
        model: u32,
        /// The equations of the model, by the numbers of their names, in order.
        equations: Sequence<u32>,
        /// The linear program that the model means at this point of the run.
        lp: Lp<F>,
        /// The position of the answer among the answers of the run, from 0.
        answer: usize,
        /// The name of the solver.
        solver: Sequence<u8>,
        /// The settings at this point of the run.
        settings: Settings,
        /// The level of the objective after the solve.
        objective_level: F,
    },
    /// An `abort`.
    Abort {
        /// The line of its statement.
        line: u32,
        /// What it shows, in order.
        items: Sequence<Shown<F>>,
    },
    /// The run stops with this fault.
    Fault(Box<ExecStop<F>>),
}

/// What a `display` or an `abort` shows for one of its items: a text, or the values of a symbol.
pub struct Shown<F> {
    /// The text that is shown; empty if a symbol is shown.
    pub text: Sequence<u8>,
    /// The shown symbol's number in the table of names; `None` if a text is shown.
    pub name: Option<u32>,
    /// The kind of the symbol that is shown, such as a variable or a parameter; `Undeclared` if a
    /// text is shown.
    pub kind: SymbolKind,
    /// The suffix with which the symbol is shown, as `.l`; `Suffix::None` without one, and for a
    /// text.
    pub suffix: Suffix,
    /// Whether the symbol has indices; false for a text. A symbol without indices has exactly one
    /// entry, even with value 0.
    pub indexed: bool,
    /// The tuples at which the symbol is shown, each with its value; none for a text. They are in
    /// lexicographic order of the numbers of their labels. The value of a member of a set is 1. If
    /// the symbol has indices, tuples with the value 0 are left out.
    pub entries: Sequence<(Tuple, Ext<F>)>,
    /// The number of digits after the decimal point with which values are shown.
    pub decimals: u8,
}

// Written out, so that it is proved once, and not in each crate that drops one.
impl<F: Drop> Drop for Shown<F> {
    fn drop(self) {
        let Self {
            text: _,
            name: _,
            kind: _,
            suffix: _,
            indexed: _,
            entries: _,
            decimals: _,
        } = self;
    }
}
