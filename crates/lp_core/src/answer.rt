//! The answer of a linear program, and the steps that can keep it from being found.
use crate::sequence::Sequence;
use thiserror::Error;

/// One pivot of the simplex method: the variables that enter and leave the basis, by their numbers
/// in the standard form. Number 0 is the artificial variable, then come the variables of the
/// columns, and then the slacks.
#[derive(Clone, Copy)]
pub struct Pivot {
    /// The variable that enters the basis, by its number in the standard form.
    pub enter: u32,
    /// The variable that leaves the basis, by its number in the standard form.
    pub leave: u32,
}

/// Which variables may enter and leave the basis in the pivots of a solver.
#[derive(Clone, Copy)]
pub enum Rule {
    /// Of the improving variables the least enters, and of the tied ones the least leaves.
    Bland,
    /// Any improving variable enters, and any tied one leaves, or variable 0 if it ties. At the
    /// opening, the pivot in which variable 0 enters, any variable with the least constant leaves.
    Legal,
}

/// A step in the computation of a program's answer: a product, quotient, sum or difference, whose
/// numerator or denominator may exceed the limit of the number type.
///
/// In `Check`, a step of the check of a point or of duals, `part` is the number of the step in this
/// check, from 0. In each other variant that has `part`, it is 0 for a product or a quotient, and 1
/// for a sum or a difference.
#[derive(Clone, Copy, Debug, Error)]
pub enum StepName {
    /// In the standard form: a coefficient times the bound of its column, and the right side less
    /// this product; or the difference of a column's two bounds.
    #[error("beyond the field's limit in the standard form: row {row}, column {column}, part {part}")]
    Standard {
        /// The row of the standard form, from 1.
        row: u32,
        /// The column of the program, from 1.
        column: u32,
        /// 0 for a product, 1 for a difference.
        part: u8,
    },
    /// In the ratio test of a pivot: a row's constant over its coefficient of the entering
    /// variable.
    #[error("beyond the field's limit in a ratio: pivot {pivot}, row {row}")]
    Ratio {
        /// The number of the pivot, from 1.
        pivot: u64,
        /// The row of the dictionary, from 1.
        row: u32,
    },
    /// In the exchange of a pivot: a new number of a row.
    #[error("beyond the field's limit in an exchange: pivot {pivot}, row {row}, column {column}, part {part}")]
    Exchange {
        /// The number of the pivot, from 1.
        pivot: u64,
        /// The row of the dictionary, from 1; the objective comes after the last.
        row: u32,
        /// The column: 0 for the constant, v + 1 for variable v.
        column: u32,
        /// 0 for a product or a quotient, 1 for a difference.
        part: u8,
    },
    /// In the recovery of an answer from the final dictionary.
    #[error("beyond the field's limit in the recovery: list {what}, index {index}, entry {entry}, part {part}")]
    Recover {
        /// What is computed: 0 the columns' values, 1 the rows' sums, 2 duals, 3 reduced costs, 4
        /// the ray.
        what: u8,
        /// The position in this list, from 0.
        index: u64,
        /// For a row's sum the position of the entry in the row, from 0; else 0.
        entry: u32,
        /// 0 for a product, 1 for a sum or a difference.
        part: u8,
    },
    /// In a check of a point or of duals.
    #[error("beyond the field's limit in a check: part {part}")]
    Check {
        /// The number of the step, from 0.
        part: u64,
    },
}

/// How a search ends at a final dictionary: at an optimum, without a feasible point, with an
/// unbounded objective, or broken off although a variable still improves the objective.
#[derive(Clone, Copy)]
pub enum EndKind {
    /// No variable improves the objective, and variable 0 is not basic.
    Optimal,
    /// No variable improves, and variable 0, the artificial variable, is basic with a value above
    /// 0.
    Infeasible,
    /// A variable improves the objective, and no row limits how far it rises.
    Unbounded,
    /// The search was broken off in phase 2, though a variable improves.
    Interrupted,
}

/// How the search for the answer of a linear program ended, with the values that it found.
pub enum End<F> {
    /// The levels are a feasible point, and no feasible point is better.
    Optimal {
        /// The value of each column.
        levels: Sequence<F>,
        /// The sum of each row.
        row_levels: Sequence<F>,
        /// The dual value of each row.
        duals: Sequence<F>,
        /// The reduced cost of each column.
        reduced: Sequence<F>,
    },
    /// No point is feasible.
    Infeasible {
        /// A factor for each row: no point within the bounds satisfies the sum of the rows times
        /// their factors. Each is 0 if the bounds of a column cross.
        duals: Sequence<F>,
        /// The first column whose lower bound exceeds its upper bound, by its number from 0; `None`
        /// if no bounds cross.
        crossed: Option<u32>,
    },
    /// The levels are a feasible point, and from it the objective improves without limit along the
    /// ray.
    Unbounded {
        /// The value of each column.
        levels: Sequence<F>,
        /// The sum of each row.
        row_levels: Sequence<F>,
        /// The change of each column along the ray.
        ray: Sequence<F>,
    },
    /// The limit of pivots was met, and a further pivot was required.
    Interrupted {
        /// 1 until a feasible point is found, then 2.
        phase: u8,
        /// The value of each column; empty in phase 1.
        levels: Sequence<F>,
        /// The sum of each row; empty in phase 1.
        row_levels: Sequence<F>,
    },
    /// A step does not fit under the field's limit of numerators and denominators.
    Refused {
        /// The step.
        step: StepName,
    },
}

// Written out, so that it is proved once, and not in each crate that drops one.
impl<F: Drop> Drop for End<F> {
    fn drop(self) {
        match self {
            Self::Optimal {
                levels: _,
                row_levels: _,
                duals: _,
                reduced: _,
            } => {}
            Self::Infeasible {
                duals: _,
                crossed: _,
            } => {}
            Self::Unbounded {
                levels: _,
                row_levels: _,
                ray: _,
            } => {}
            Self::Interrupted {
                phase: _,
                levels: _,
                row_levels: _,
            } => {}
            Self::Refused { step: _ } => {}
        }
    }
}

/// The answer of a linear program: its pivots, in order, and how the search ended.
pub struct Answer<F> {
    /// The pivots that were made, in order.
    pub pivots: Sequence<Pivot>,
    /// How the search for the answer ended, with the values that it found.
    pub end: End<F>,
}

// Written out, so that it is proved once, and not in each crate that drops one.
impl<F: Drop> Drop for Answer<F> {
    fn drop(self) {
        let Self { pivots: _, end: _ } = self;
    }
}
