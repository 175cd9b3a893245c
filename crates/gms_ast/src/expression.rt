//! The tree of an expression.
use crate::sequence::Sequence;
use gms_labels::Place;

/// Which value of a symbol a reference takes; the example of each variant is such a reference.
#[derive(Clone, Copy, Debug, PartialEq, Eq)]
pub enum Suffix {
    /// `p(i)`: no suffix.
    None,
    /// `x.lo(i)`: the lower bound.
    Lo,
    /// `x.up(i)`: the upper bound.
    Up,
    /// `x.l(i)`: the level.
    L,
    /// `e.m(i)`: the marginal.
    M,
    /// `x.fx(i)`: both bounds and the level.
    Fx,
    /// `m.modelstat`: the model's status.
    ModelStat,
    /// `m.solvestat`: the solver's status.
    SolveStat,
}

/// How a fold, as `sum(i, p(i))`, joins the values of its body.
#[derive(Clone, Copy, Debug, PartialEq, Eq)]
pub enum FoldOp {
    /// `sum(i, p(i))`
    Sum,
    /// `prod(i, p(i))`
    Prod,
    /// `smin(i, p(i))`
    Smin,
    /// `smax(i, p(i))`
    Smax,
}

/// How a lag, as in `i+1`, moves an index from an element to another of its set.
#[derive(Clone, Copy, Debug, PartialEq, Eq)]
pub enum LagOp {
    /// `i+1`
    Lead,
    /// `i-1`
    Lag,
    /// `i++1`
    CircularLead,
    /// `i--1`
    CircularLag,
}

/// A function that an expression calls.
#[derive(Clone, Copy, Debug, PartialEq, Eq)]
pub enum Function {
    /// `abs(x)`
    Abs,
    /// `max(x,y)`
    Max,
    /// `min(x,y)`
    Min,
    /// `mod(x,y)`
    Mod,
    /// `sqr(x)`
    Sqr,
    /// `power(x,3)`
    Power,
    /// `round(x)`
    Round,
    /// `floor(x)`
    Floor,
    /// `ceil(x)`
    Ceil,
    /// `trunc(x)`
    Trunc,
    /// `sign(x)`
    Sign,
    /// One that this language leaves out, as `exp(x)`.
    NotInProfile,
}

/// A relation between two numbers.
#[derive(Clone, Copy, Debug, PartialEq, Eq)]
pub enum RelOp {
    /// `<` or `lt`
    Lt,
    /// `<=` or `le`
    Le,
    /// `=` or `eq`
    Eq,
    /// `<>` or `ne`
    Ne,
    /// `>=` or `ge`
    Ge,
    /// `>` or `gt`
    Gt,
}

/// An expression, whose numbers are of the field `F`.
///
/// Parentheses and a sign `+` make no node. A part is an operand of a sum, a product, a power, a
/// relation, an `or` or an `xor`. The place of a part is that of its first character, which may be
/// a sign. The flag or the relation of a part is the operator before it: the flag is true for `-`,
/// `/` and `xor`, and false for `+`, `*` and `or`. The first part has no operator before it, so its
/// flag, which is false, or its relation, which is `Eq`, has no meaning.
#[cycle(expression)]
pub enum Expr<F> {
    /// A number, as `2.5`.
    Number(F),
    /// `inf`
    PlusInf,
    /// `na`
    Na,
    /// `yes`
    Yes,
    /// `no`
    No,
    /// A reference to a symbol, as `x.l(i,"a")`.
    Ref {
        /// The place of the reference's first character.
        at: Place,
        /// The name, by its number.
        name: u32,
        /// The suffix.
        suffix: Suffix,
        /// The indices, in order.
        indices: Vec<Index<F>>,
    },
    /// The place of an element in its set, as `ord(i)`.
    Ord {
        /// The place of its first character.
        at: Place,
        /// The set, by the number of its name.
        set: u32,
    },
    /// How many elements a set has, as `card(i)`.
    Card {
        /// The place of its first character.
        at: Place,
        /// The set, by the number of its name.
        set: u32,
    },
    /// A call of a function, as `max(x,y)`.
    Call {
        /// The place of its first character.
        at: Place,
        /// The function.
        function: Function,
        /// The arguments, in order.
        args: Vec<Expr<F>>,
    },
    /// A fold over sets, as `sum((i,j)$c(i,j), x(i,j))`.
    Fold {
        /// The place of its first character.
        at: Place,
        /// How the fold joins the values.
        op: FoldOp,
        /// The sets and the condition.
        control: Control<F>,
        /// The expression whose values are joined.
        body: Box<Expr<F>>,
    },
    /// A negation, as `-x`.
    Neg(Box<Expr<F>>),
    /// A sum, as `a - b + c`. Each part has its place and whether it is subtracted.
    Plus(Vec<(Place, bool, Expr<F>)>),
    /// A product, as `a / b * c`. Each part has its place and whether it divides.
    Times(Vec<(Place, bool, Expr<F>)>),
    /// A power, as `a ** 2`. Each part has its place.
    Power(Vec<(Place, Expr<F>)>),
    /// Relations, as `a < b`. Each part has the relation before it.
    Relate(Vec<(RelOp, Expr<F>)>),
    /// `not a`
    Not(Box<Expr<F>>),
    /// `a and b`
    And(Vec<Expr<F>>),
    /// A choice, as `a or b xor c`. Each part has whether `xor`, and not `or`, joins it to those
    /// before it.
    Or(Vec<(bool, Expr<F>)>),
    /// An operand under conditions, as `a$b$c`.
    Guard {
        /// The operand.
        operand: Box<Expr<F>>,
        /// The conditions, in order.
        guards: Vec<Expr<F>>,
    },
}

// Written out, so that it is proved here once, and not in each crate that drops such a value.
impl<F: Drop> Drop for Expr<F> {
    #[cycle(let_go)]
    fn drop(self) {
        match self {
            Self::Number(_) => {}
            Self::PlusInf => {}
            Self::Na => {}
            Self::Yes => {}
            Self::No => {}
            Self::Ref {
                at: _,
                name: _,
                suffix: _,
                indices: _,
            } => {}
            Self::Ord { at: _, set: _ } => {}
            Self::Card { at: _, set: _ } => {}
            Self::Call {
                at: _,
                function: _,
                args: _,
            } => {}
            Self::Fold {
                at: _,
                op: _,
                control: _,
                body: _,
            } => {}
            Self::Neg(_) => {}
            Self::Plus(_) => {}
            Self::Times(_) => {}
            Self::Power(_) => {}
            Self::Relate(_) => {}
            Self::Not(_) => {}
            Self::And(_) => {}
            Self::Or(_) => {}
            Self::Guard {
                operand: _,
                guards: _,
            } => {}
        }
    }
}

/// An index of a reference to a symbol: a label or a set.
#[cycle(expression)]
pub enum Index<F> {
    /// A label in quotation marks, as `"a"`, by its number.
    Label(u32),
    /// A controlled set, as `i` or `i-1`.
    Set {
        /// The set, by the number of its name.
        name: u32,
        /// The lag, if any: what it does, the place of its amount, and the amount.
        lag: Option<(LagOp, Place, Box<Expr<F>>)>,
    },
}

// Written out, so that it is proved here once, and not in each crate that drops such a value.
impl<F: Drop> Drop for Index<F> {
    #[cycle(let_go)]
    fn drop(self) {
        match self {
            Self::Label(_) => {}
            Self::Set { name: _, lag: _ } => {}
        }
    }
}

/// The sets over which a fold or a loop goes, and the condition on their elements.
///
/// In `sum((i,j)$c(i,j), x(i,j))` the sets are `i` and `j`, and the condition is `c(i,j)`.
#[cycle(expression)]
pub struct Control<F> {
    /// The sets, in order, each by the number of its name in the table of names.
    pub sets: Sequence<u32>,
    /// The condition on the elements of the sets; `None` if there is no condition.
    pub condition: Option<Box<Expr<F>>>,
}

// Written out, so that it is proved here once, and not in each crate that drops such a value.
impl<F: Drop> Drop for Control<F> {
    #[cycle(let_go)]
    fn drop(self) {
        let Self {
            sets: _,
            condition: _,
        } = self;
    }
}
