//! The errors that a check finds, and which of two comes first.
ghost use Rattle.std.specs.Prelude.{◌≡◌, Some};
ghost use Rattle.gms_check.specs.Errors.{comes_first, earlier, error_code, error_name};

use gms_labels::Place;
use thiserror::Error;

/// A kind of compile error. The examples in the comments of the kinds have the error of the kind
/// after `set i /a,b/, s(i); parameter p(i); variables x, z; equation e;`.
#[derive(Clone, Copy, Debug, Error)]
pub enum ErrorKind {
    /// A name that no statement before declares, as `q = 1;`, or an option word that is no option,
    /// as `option foo = 1;`.
    #[error("an unknown name")]
    UnknownName,
    /// A name that is declared again, as `set i;`. A free variable may be given a type by a later
    /// declaration, with the same domain or none.
    #[error("a name declared twice")]
    Redeclared,
    /// A symbol, a suffix, a value or an operation of a kind that the context does not admit, as
    /// `p("a") = yes;`.
    #[error("a symbol, suffix or value of a kind that cannot occur here")]
    WrongKind,
    /// Another number of indices than declared, or over 10, as `p = 1;`.
    #[error("a wrong number of indices")]
    WrongArity,
    /// An index set that is not below the set of its position, as `p(j) = 1;` after `set j /a/;`.
    #[error("an index set outside its position's set")]
    DomainOfSet,
    /// A label that the set of its position does not have, as `p("c") = 1;`.
    #[error("a label outside its position's set")]
    DomainOfLabel,
    /// An index set that nothing controls, as `p("a") = p(i);`.
    #[error("an index set that nothing controls")]
    Uncontrolled,
    /// A control of a set that is controlled already, as `p(i) = sum(i, 1);`.
    #[error("a set controlled twice")]
    ControlledTwice,
    /// `ord` or a lag of a set that is not ordered, as `p(s) = ord(s); s(i) = yes;`.
    #[error("`ord` or a lag of a set that is not ordered")]
    NotOrdered,
    /// A set that some statement assigns, as a domain: `parameter q(s); s(i) = yes;`.
    #[error("an assigned set as a domain")]
    DynamicDomain,
    /// An operation of an equation that is not linear in its variables, as `e.. x*z =e= 1;`.
    #[error("a nonlinear step in an equation")]
    Nonlinear,
    /// A variable whose values are not continuous, as `binary variable b;`.
    #[error("a discrete variable")]
    Discrete,
    /// A kind of model other than `lp`, as `solve m using nlp minimizing z;`.
    #[error("a model type other than `lp`")]
    ModelType,
    /// A solve of a model with an equation that no statement before defines, as `model m /e/; solve
    /// m using lp minimizing z;`.
    #[error("an equation without a definition")]
    NotDefined,
    /// A second definition of an equation, as `e.. x =e= 1; e.. z =e= 2;`.
    #[error("an equation defined twice")]
    DefinedTwice,
    /// An objective that is not a free variable without indices.
    #[error("an objective that is not a free variable without indices")]
    Objective,
    /// A name that no solver has, as `option lp = nobody;`.
    #[error("an unknown solver")]
    UnknownSolver,
    /// A value of an option that is outside its range, as `option decimals = 9;`.
    #[error("an option's value out of range")]
    OptionRange,
    /// A variable without suffix outside the sides of an equation, as `p("a") = x;`.
    #[error("a variable without suffix outside an equation")]
    Endogenous,
    /// A function that this language leaves out, or a wrong number of arguments, as `p("a") =
    /// exp(1);`.
    #[error("an unsupported function or a wrong number of arguments")]
    Function,
    /// Two labels that are no range, an element that occurs twice in data, or too many elements, as
    /// `set k /a3*a1/;`.
    #[error("not a range, an element given twice or over 1,048,576 elements")]
    DataFault,
    /// In a restarted run, a statement of the new file that gives a type to a saved variable, or
    /// that assigns a saved set which the saved source does not assign.
    #[error("a saved variable or set that a restarted run cannot change")]
    Restart,
}

impl ErrorKind {
    /// The number of this kind of compile error, from 1.
    pub fn code(self) -> u8
        ensures { result ≡ error_code self }
    {
        match self {
            ErrorKind::UnknownName => 1,
            ErrorKind::Redeclared => 2,
            ErrorKind::WrongKind => 3,
            ErrorKind::WrongArity => 4,
            ErrorKind::DomainOfSet => 5,
            ErrorKind::DomainOfLabel => 6,
            ErrorKind::Uncontrolled => 7,
            ErrorKind::ControlledTwice => 8,
            ErrorKind::NotOrdered => 9,
            ErrorKind::DynamicDomain => 10,
            ErrorKind::Nonlinear => 11,
            ErrorKind::Discrete => 12,
            ErrorKind::ModelType => 13,
            ErrorKind::NotDefined => 14,
            ErrorKind::DefinedTwice => 15,
            ErrorKind::Objective => 16,
            ErrorKind::UnknownSolver => 17,
            ErrorKind::OptionRange => 18,
            ErrorKind::Endogenous => 19,
            ErrorKind::Function => 20,
            ErrorKind::DataFault => 21,
            ErrorKind::Restart => 22,
        }
    }

    /// The name of this kind of compile error, which is the name of the variant.
    pub fn name(self) -> &'static str
        ensures { result.now ≡ error_name self }
    {
        match self {
            ErrorKind::UnknownName => "UnknownName",
            ErrorKind::Redeclared => "Redeclared",
            ErrorKind::WrongKind => "WrongKind",
            ErrorKind::WrongArity => "WrongArity",
            ErrorKind::DomainOfSet => "DomainOfSet",
            ErrorKind::DomainOfLabel => "DomainOfLabel",
            ErrorKind::Uncontrolled => "Uncontrolled",
            ErrorKind::ControlledTwice => "ControlledTwice",
            ErrorKind::NotOrdered => "NotOrdered",
            ErrorKind::DynamicDomain => "DynamicDomain",
            ErrorKind::Nonlinear => "Nonlinear",
            ErrorKind::Discrete => "Discrete",
            ErrorKind::ModelType => "ModelType",
            ErrorKind::NotDefined => "NotDefined",
            ErrorKind::DefinedTwice => "DefinedTwice",
            ErrorKind::Objective => "Objective",
            ErrorKind::UnknownSolver => "UnknownSolver",
            ErrorKind::OptionRange => "OptionRange",
            ErrorKind::Endogenous => "Endogenous",
            ErrorKind::Function => "Function",
            ErrorKind::DataFault => "DataFault",
            ErrorKind::Restart => "Restart",
        }
    }
}

/// A compile error and its place in the source. If the erroneous part of the statement has no
/// place, the error has the place of the smallest part around it that has one.
#[derive(Clone, Copy, Debug, Error)]
#[error("{at}: {code} {name}: {kind}", code = .kind.code(), name = .kind.name())]
pub struct CompileError {
    /// The kind of the error.
    pub kind: ErrorKind,
    /// The place of the error in the source. If the erroneous part of the statement has no place,
    /// this is the place of the smallest part around it that has one.
    pub at: Place,
}

impl CompileError {
    /// Whether this error comes before another: by its place, and at one place by its number.
    fn comes_first(self, other: CompileError) -> bool
        ensures { result ≡ comes_first self other }
    {
        let place = (self.at.line, self.at.column, self.kind.code());
        let others = (other.at.line, other.at.column, other.kind.code());
        place < others
    }

    /// Of this error and `other`, the one with the earlier place, or if both have the same place,
    /// the one with the lower number. This error if `other` is `None`.
    pub fn or_earlier(self, other: Option<CompileError>) -> CompileError
        ensures { result ≡ earlier self other }
    {
        match other {
            Some(other) if other.comes_first(self) => other,
            _ => self,
        }
    }
}
