//! A program in standard form.
use lp_core::{EndKind, Sequence};

/// How variables that are at least 0 express a column of a program.
#[derive(Clone, Copy)]
pub enum Shift<F> {
    /// The column is this lower bound plus its variable.
    Lower(F),
    /// The column is this upper bound less its variable.
    Upper(F),
    /// The column is the difference of two variables.
    Free,
}

/// The row or column of the program from which a row of the standard form comes. Rows and columns
/// are numbered from 0.
#[derive(Clone, Copy)]
pub enum Origin {
    /// This row, as it is.
    Row(u64),
    /// This row, negated.
    Negated(u64),
    /// This column, which has two bounds: their difference bounds its variable.
    Bound(u32),
}

/// A row of a standard form: the sum of its coefficients, each times its variable, is at most the
/// right side.
pub struct StdRow<F> {
    /// The right side of the row: the sum of the row's coefficients, each times its variable, is at
    /// most this number.
    pub right: F,
    /// For each variable of the row, by ascending number, its number and coefficient. The slack of
    /// the row is not among them.
    pub entries: Sequence<(u32, F)>,
    /// The row or column of the program from which this row of the standard form comes.
    pub origin: Origin,
}

// Written out, so that it is proved once, and not in each crate that drops one.
impl<F: Drop> Drop for StdRow<F> {
    fn drop(self) {
        let Self {
            right: _,
            entries: _,
            origin: _,
        } = self;
    }
}

/// A linear program in standard form: variables at least 0, rows whose sums are at most their right
/// sides, an objective to maximize.
///
/// The variables of the original columns are numbered from 1 in the order of columns, two for one
/// without bounds. The rows' slacks follow. Chvatal, Linear Programming, chapter 1.
pub struct Standard<F> {
    /// How variables that are at least 0 express each column of the program, in the order of
    /// columns.
    pub shifts: Sequence<Shift<F>>,
    /// The rows of the standard form: first those that come from the program's rows, in order, then
    /// one for each column of the program with two bounds.
    pub rows: Sequence<StdRow<F>>,
    /// The coefficients of the objective of the standard form, one for each variable that is no
    /// slack, in the order of the variables' numbers, which begin with 1.
    pub objective: Sequence<F>,
    /// The constant term of the objective of the standard form.
    pub constant: F,
}

// Written out, so that it is proved once, and not in each crate that drops one.
impl<F: Drop> Drop for Standard<F> {
    fn drop(self) {
        let Self {
            shifts: _,
            rows: _,
            objective: _,
            constant: _,
        } = self;
    }
}

/// What is read from the dictionary with which a search ends. The lists of values and of costs have
/// one entry for each variable, from number 0, and so has the list of the ray if there is a ray.
pub struct Final<F> {
    /// How the search for an answer of the program ended.
    pub kind: EndKind,
    /// The value of each variable, by its number from 0, in the solution of the final dictionary in
    /// which each nonbasic variable is 0.
    pub values: Sequence<F>,
    /// The coefficient of each variable, in the order of their numbers from 0, in the priced row of
    /// the final dictionary; 0 for each basic variable. If the search ended as `Infeasible`, the
    /// row is that of the basic variable 0: variable 0 plus the sum of the terms equals a constant.
    /// Else it is the objective: a constant plus the sum of the terms.
    pub costs: Sequence<F>,
    /// If the search ended as `Unbounded`, the change of each variable, in the order of their
    /// numbers from 0, as the entering variable (which no row limits) rises by 1. Else it is empty.
    pub ray: Sequence<F>,
}

// Written out, so that it is proved once, and not in each crate that drops one.
impl<F: Drop> Drop for Final<F> {
    fn drop(self) {
        let Self {
            kind: _,
            values: _,
            costs: _,
            ray: _,
        } = self;
    }
}
