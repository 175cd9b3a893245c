//! A linear program: columns with bounds, rows with right sides, and one column to minimize or
//! maximize.
use crate::sequence::Sequence;
use lp_form::Key;

/// How the sum of a row has to compare with the right side of the row.
#[derive(Clone, Copy)]
pub enum Sense {
    /// `=e=`: they are equal.
    E,
    /// `=l=`: the sum is at most the right side.
    L,
    /// `=g=`: the sum is at least the right side.
    G,
    /// `=n=`: the row is nonbinding.
    N,
}

/// A column: an element of a variable, with a lower and an upper bound of its value, each of which
/// is optional.
pub struct Column<F> {
    /// The column's element of a variable: the number of the variable's name, and the labels.
    pub key: Key,
    /// The lower bound of the column's value; `None` if it has no lower bound.
    pub lower: Option<F>,
    /// The upper bound of the column's value; `None` if it has no upper bound.
    pub upper: Option<F>,
}

// Written out, so that it is proved once, and not in each crate that drops one.
impl<F: Drop> Drop for Column<F> {
    fn drop(self) {
        let Self {
            key: _,
            lower: _,
            upper: _,
        } = self;
    }
}

/// A row: the coefficients, sense and right side of an element of an equation.
///
/// `supply.. x + 2*y =l= 9;` has the coefficients 1 and 2, sense L and right side 9.
pub struct Row<F> {
    /// The row's element of an equation: the number of the equation's name, and the labels.
    pub key: Key,
    /// How the sum of the row's terms must compare with the right side.
    pub sense: Sense,
    /// The number with which the sum of the row's terms is compared.
    pub right: F,
    /// The coefficients that are not 0, each with the number of its column, from 0. The numbers of
    /// the columns ascend.
    pub entries: Sequence<(u32, F)>,
}

// Written out, so that it is proved once, and not in each crate that drops one.
impl<F: Drop> Drop for Row<F> {
    fn drop(self) {
        let Self {
            key: _,
            sense: _,
            right: _,
            entries: _,
        } = self;
    }
}

/// A linear program: columns, rows, and an objective, which is the value of one of the columns and
/// is to be maximized or minimized.
pub struct Lp<F> {
    /// The columns. The number of a column is its position in this list, from 0.
    pub columns: Sequence<Column<F>>,
    /// The rows. Lists by row, such as that of the dual values, have the order of this list.
    pub rows: Sequence<Row<F>>,
    /// The number of the column whose value is the objective, from 0.
    pub objective: u32,
    /// Whether the objective is to be maximized; otherwise it is to be minimized.
    pub maximize: bool,
}

// Written out, so that it is proved once, and not in each crate that drops one.
impl<F: Drop> Drop for Lp<F> {
    fn drop(self) {
        let Self {
            columns: _,
            rows: _,
            objective: _,
            maximize: _,
        } = self;
    }
}
