//! The settings that options change.

/// The settings of a run, each named as its option, except `solver`, which `option lp` sets.
///
/// `option limrow = 0, solprint = off;` sets two. GAMS User's Guide, "The Option Statement".
#[derive(Clone, Copy, Debug, PartialEq, Eq)]
pub struct Settings {
    /// The greatest number of rows that a listing shows of each equation for a solve.
    pub limrow: u32,
    /// The greatest number of columns that a listing shows of each variable for a solve.
    pub limcol: u32,
    /// The greatest number of pivots that a solver may make in one solve.
    pub iterlim: u32,
    /// How many decimals, that is, digits after the point, a display shows of each number.
    pub decimals: u8,
    /// Whether a listing shows the solution that a solve finds.
    pub solprint: bool,
    /// Which solver solves the models: its index, from 0, in the list of the run's solvers.
    pub solver: u32,
}

impl Settings {
    /// The settings at the start of a run, before any option statement.
    pub const FIRST: Settings = Settings {
        limrow: 3,
        limcol: 3,
        iterlim: 1000,
        decimals: 3,
        solprint: true,
        solver: 0,
    };
}
