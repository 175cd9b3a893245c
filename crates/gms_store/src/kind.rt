//! What a name is declared as.

/// What a name is declared as. A name that `alias` declares is a set.
#[derive(Clone, Copy, Debug, PartialEq, Eq)]
pub enum SymbolKind {
    /// `set i;`
    Set,
    /// `parameter p(i);`, a scalar and a table too.
    Parameter,
    /// `variable x(i);`
    Variable,
    /// `equation e(i);`
    Equation,
    /// `model m /all/;`
    Model,
    /// No declaration has the name.
    Undeclared,
}

/// The type of a variable, which sets its bounds before any are written.
#[derive(Clone, Copy, Debug, PartialEq, Eq)]
pub enum VariableType {
    /// `variable x;`: no bounds.
    Free,
    /// `positive variable x;`: at least 0.
    Positive,
    /// `negative variable x;`: at most 0.
    Negative,
    /// `binary variable x;` and the like, which no accepted program has: no bounds.
    Discrete,
}
