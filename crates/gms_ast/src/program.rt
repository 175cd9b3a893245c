//! The statements of a program, and the program.
use crate::declaration::{Decl, DeclKind, ModelDecl};
use crate::expression::{Control, Expr, Index, Suffix};
use crate::sequence::Sequence;
use crate::word::{Named, Word};
use gms_labels::{Labels, Place};

/// A program: its two tables, which give names and labels their numbers, and its statements in
/// order.
pub struct Program<F> {
    /// The table of names, numbered from 0 by first appearance.
    pub names: Labels,
    /// The table of labels, numbered from 0 by first appearance.
    pub labels: Labels,
    /// The statements of the program, in order.
    pub statements: Vec<Stmt<F>>,
}

// Written out, so that it is proved here once, and not in each crate that drops such a value.
impl<F: Drop> Drop for Program<F> {
    fn drop(self) {
        let Self {
            names: _,
            labels: _,
            statements: _,
        } = self;
    }
}

/// A statement, and the place of its first character.
///
/// `c(i) = 2 * d(i);` is one.
#[cycle(statement)]
pub struct Stmt<F> {
    /// The place of the statement's first character.
    pub at: Place,
    /// What the statement does, with all its parts.
    pub act: Act<F>,
}

// Written out, so that it is proved here once, and not in each crate that drops such a value.
impl<F: Drop> Drop for Stmt<F> {
    #[cycle(let_go)]
    fn drop(self) {
        let Self { at: _, act: _ } = self;
    }
}

/// What a statement does.
#[cycle(statement)]
pub enum Act<F> {
    /// Declares names of one kind, as `set i /a/, j /b/;`.
    Declare {
        /// The kind of what is declared.
        kind: DeclKind,
        /// The names, in order.
        items: Sequence<Decl<F>>,
    },
    /// Gives a set a second name, as `alias (i,j);`.
    Alias {
        /// The name that is written first.
        first: Named,
        /// The name that is written second.
        second: Named,
    },
    /// Assigns, as `p(i)$q(i) = 2 * q(i);`.
    Assign {
        /// What is assigned.
        target: Target<F>,
        /// The condition on the left, if any.
        condition: Option<Expr<F>>,
        /// The place of the first character of the right side.
        right_at: Place,
        /// The right side.
        right: Right<F>,
    },
    /// Defines an equation, as `supply(i).. sum(j, x(i,j)) =l= a(i);`.
    Define {
        /// The equation.
        equation: Named,
        /// The indices of the definition.
        indices: Sequence<Index<F>>,
        /// The condition, if any.
        condition: Option<Expr<F>>,
        /// The place of the first character of the left side.
        left_at: Place,
        /// The left side.
        left: Expr<F>,
        /// How the sides relate.
        side: Side,
        /// The place of the first character of the right side.
        right_at: Place,
        /// The right side.
        right: Expr<F>,
    },
    /// Declares models, as `model m /all/;`.
    Model {
        /// The models, in order.
        models: Sequence<ModelDecl>,
    },
    /// Solves a model, as `solve m using lp minimizing z;`.
    Solve {
        /// The model.
        model: Named,
        /// The word after `using`.
        method: Word,
        /// The variable whose value is the objective.
        objective: Named,
        /// Whether the objective is maximized.
        maximize: bool,
    },
    /// Shows values, as `display "costs", c, x.l;`.
    Display {
        /// What is shown, in order.
        items: Sequence<Show>,
    },
    /// Runs statements for each element of the controlled sets, as `loop(i, s = s + p(i); );`.
    Loop {
        /// The sets and the condition.
        control: Control<F>,
        /// The statements.
        body: Vec<Stmt<F>>,
    },
    /// Changes settings, as `option limrow = 0, solprint = off;`.
    Options {
        /// The words and their settings, in order.
        settings: Sequence<(Word, Setting<F>)>,
    },
    /// Ends the run, as `abort$(s > 3) "too many", s;`.
    Abort {
        /// The condition, if any.
        condition: Option<Expr<F>>,
        /// What is shown, in order.
        items: Sequence<Show>,
    },
}

// Written out, so that it is proved here once, and not in each crate that drops such a value.
impl<F: Drop> Drop for Act<F> {
    #[cycle(let_go)]
    fn drop(self) {
        match self {
            Self::Declare { kind: _, items: _ } => {}
            Self::Alias {
                first: _,
                second: _,
            } => {}
            Self::Assign {
                target: _,
                condition: _,
                right_at: _,
                right: _,
            } => {}
            Self::Define {
                equation: _,
                indices: _,
                condition: _,
                left_at: _,
                left: _,
                side: _,
                right_at: _,
                right: _,
            } => {}
            Self::Model { models: _ } => {}
            Self::Solve {
                model: _,
                method: _,
                objective: _,
                maximize: _,
            } => {}
            Self::Display { items: _ } => {}
            Self::Loop {
                control: _,
                body: _,
            } => {}
            Self::Options { settings: _ } => {}
            Self::Abort {
                condition: _,
                items: _,
            } => {}
        }
    }
}

/// An assignment's left side.
///
/// In `x.lo(i,"a") = 3;` it is `x.lo(i,"a")`.
#[derive(Drop)]
pub struct Target<F> {
    /// The place of the first character of the left side of the assignment.
    pub at: Place,
    /// The assigned name, by its number in the table of names.
    pub name: u32,
    /// The suffix of the assigned name, as `.lo`; `Suffix::None` if it has none.
    pub suffix: Suffix,
    /// The indices of the assigned name, in order.
    pub indices: Sequence<Index<F>>,
}

/// The right side of an assignment.
pub enum Right<F> {
    /// An expression, as in `s = 2 * q;`, `x.up(i) = inf;` or `c(i) = yes;`.
    Value(Expr<F>),
}

// Written out, so that it is proved here once, and not in each crate that drops such a value.
impl<F: Drop> Drop for Right<F> {
    fn drop(self) {
        match self {
            Self::Value(_) => {}
        }
    }
}

/// How the two sides of an equation relate.
#[derive(Clone, Copy, Debug, PartialEq, Eq)]
pub enum Side {
    /// `=e=`: both sides are equal.
    E,
    /// `=l=`: the left side is at most the right side.
    L,
    /// `=g=`: the left side is at least the right side.
    G,
    /// `=n=`: no relation.
    N,
}

/// One of the items that a `display` or an `abort` shows.
#[derive(Debug)]
pub enum Show {
    /// A text, as in `display "costs";`.
    Text(Word),
    /// A symbol's values, as in `display x.l;`.
    Symbol {
        /// The symbol.
        named: Named,
        /// The suffix.
        suffix: Suffix,
    },
}

// Written out, so that it is proved here once, and not in each crate that drops such a value.
impl Drop for Show {
    fn drop(self) {
        match self {
            Self::Text(_) => {}
            Self::Symbol {
                named: _,
                suffix: _,
            } => {}
        }
    }
}

/// What an option is set to.
#[derive(Debug)]
pub enum Setting<F> {
    /// A number, as in `option limrow = 0;`.
    Number {
        /// The place of the number's first character.
        at: Place,
        /// The number.
        value: F,
    },
    /// A word, as in `option solprint = off;`.
    Name(Word),
}

// Written out, so that it is proved here once, and not in each crate that drops such a value.
impl<F: Drop> Drop for Setting<F> {
    fn drop(self) {
        match self {
            Self::Number { at: _, value: _ } => {}
            Self::Name(_) => {}
        }
    }
}
