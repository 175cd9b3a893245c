//! Declarations: names with their domains and their data, and models with their equations.
use crate::sequence::Sequence;
use crate::word::Named;
use gms_labels::Place;
use gq_extended::Ext;

/// What a declaration declares; the example of each variant is how such a declaration begins.
#[derive(Clone, Copy, Debug, PartialEq, Eq)]
pub enum DeclKind {
    /// `set i /a, b/;`
    Set,
    /// `parameter p(i) /a 5/;`
    Parameter,
    /// `scalar s /3/;`
    Scalar,
    /// `table t(i,j)` with its lines.
    Table,
    /// `free variable x;`, or `variable x;`
    Free,
    /// `positive variable x(i);`
    Positive,
    /// `negative variable x;`
    Negative,
    /// `binary variable x;`, and the other kinds whose values are not continuous.
    Discrete,
    /// `equation e(i);`
    Equation,
}

/// One name that is declared, with its domain and its data.
///
/// In `parameter p(i,*) /a.x 5/;` the name is `p`, the domain is the set `i` and any label, and the
/// data are one item.
#[derive(Debug)]
pub struct Decl<F> {
    /// The declared name, with its place in the source.
    pub named: Named,
    /// For each position of the domain, in order, its set, or `None` for a `*`, which admits any
    /// label.
    pub domain: Sequence<Option<Named>>,
    /// The items of data that the declaration gives the name, in order. Each entry of a table is
    /// one item.
    pub items: Sequence<Item<F>>,
}

// Written out, so that it is proved here once, and not in each crate that drops such a value.
impl<F: Drop> Drop for Decl<F> {
    fn drop(self) {
        let Self {
            named: _,
            domain: _,
            items: _,
        } = self;
    }
}

/// One item of data: the labels of one or more elements, and the value that it gives each element.
///
/// In `/a.(b,c) 5/` the elements are `a.b` and `a.c`: the first position has one label, the second
/// has two, and the value is 5.
#[derive(Debug)]
pub struct Item<F> {
    /// The place of the item's first character; for an entry of a table, the place of the number.
    pub at: Place,
    /// The labels that the item lists at each position of its elements, by their numbers in the
    /// table of labels; empty for a scalar. A range, as `a1*a3`, lists all its labels, an invalid
    /// one none.
    pub parts: Sequence<Sequence<u32>>,
    /// The value that the item gives its elements: a number, an infinity or NA; `None` if the item
    /// has no value, as in `/a/`.
    pub value: Option<Ext<F>>,
    /// Whether the item has an invalid range, as in `/a3*a1/`: one that has no labels.
    pub bad_range: bool,
}

// Written out, so that it is proved here once, and not in each crate that drops such a value.
impl<F: Drop> Drop for Item<F> {
    fn drop(self) {
        let Self {
            at: _,
            parts: _,
            value: _,
            bad_range: _,
        } = self;
    }
}

/// One model that is declared.
///
/// In `model m /cost, supply/;` the model `m` has two equations, and in `model m /all/;` it has all
/// equations that are declared before this statement.
#[derive(Debug)]
pub struct ModelDecl {
    /// The name of the model, with its place in the source.
    pub named: Named,
    /// Whether the model has all equations declared before the model, as in `model m /all/;`. If
    /// so, the field `equations` has no meaning.
    pub all: bool,
    /// The equations that the model's declaration lists, in the list's order.
    pub equations: Sequence<Named>,
}

// Written out, so that it is proved here once, and not in each crate that drops such a value.
impl Drop for ModelDecl {
    fn drop(self) {
        let Self {
            named: _,
            all: _,
            equations: _,
        } = self;
    }
}
