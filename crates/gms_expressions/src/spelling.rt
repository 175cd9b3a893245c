//! What words and symbols of expressions mean.
ghost use Rattle.std.specs.Prelude.{◌≡◌, List};
ghost use Rattle.std.specs.Prelude.{codes};
ghost use Rattle.gms_expressions.specs.ExpressionTrees.{is_word, suffix_of, fold_op_of, function_of, relation_of_word, relation_of, lag_op_of, is_minus, is_slash};

use gms_ast::{FoldOp, Function, LagOp, RelOp, Suffix};
use gms_grammar::{Kind, Sym};

/// The suffix that a word after a dot names, letter case ignored (GAMS User's Guide, "Variables").
///
/// Any word other than `lo`, `up`, `l`, `m`, `fx` and `modelstat` gives `SolveStat`, the one
/// remaining suffix.
#[tactic(auto, unfolding(crate::specs::ExpressionTrees::suffix_of))]
pub fn suffix_of(word: &[u8]) -> Suffix
    ensures { result ≡ suffix_of word.now }
{
    if word.eq_ignore_ascii_case(b"lo") {
        Suffix::Lo
    } else if word.eq_ignore_ascii_case(b"up") {
        Suffix::Up
    } else if word.eq_ignore_ascii_case(b"l") {
        Suffix::L
    } else if word.eq_ignore_ascii_case(b"m") {
        Suffix::M
    } else if word.eq_ignore_ascii_case(b"fx") {
        Suffix::Fx
    } else if word.eq_ignore_ascii_case(b"modelstat") {
        Suffix::ModelStat
    } else {
        Suffix::SolveStat
    }
}

/// The way of joining that a word is.
#[tactic(auto, unfolding(crate::specs::ExpressionTrees::fold_op_of))]
pub(crate) fn fold_op_of(word: &[u8]) -> FoldOp
    ensures { result ≡ fold_op_of word.now }
{
    if word.eq_ignore_ascii_case(b"sum") {
        FoldOp::Sum
    } else if word.eq_ignore_ascii_case(b"prod") {
        FoldOp::Prod
    } else if word.eq_ignore_ascii_case(b"smin") {
        FoldOp::Smin
    } else {
        FoldOp::Smax
    }
}

/// The function that a word is.
#[tactic(auto, unfolding(crate::specs::ExpressionTrees::function_of))]
pub(crate) fn function_of(word: &[u8]) -> Function
    ensures { result ≡ function_of word.now }
{
    if word.eq_ignore_ascii_case(b"abs") {
        Function::Abs
    } else if word.eq_ignore_ascii_case(b"max") {
        Function::Max
    } else if word.eq_ignore_ascii_case(b"min") {
        Function::Min
    } else if word.eq_ignore_ascii_case(b"mod") {
        Function::Mod
    } else if word.eq_ignore_ascii_case(b"sqr") {
        Function::Sqr
    } else if word.eq_ignore_ascii_case(b"power") {
        Function::Power
    } else if word.eq_ignore_ascii_case(b"round") {
        Function::Round
    } else if word.eq_ignore_ascii_case(b"floor") {
        Function::Floor
    } else if word.eq_ignore_ascii_case(b"ceil") {
        Function::Ceil
    } else if word.eq_ignore_ascii_case(b"trunc") {
        Function::Trunc
    } else if word.eq_ignore_ascii_case(b"sign") {
        Function::Sign
    } else {
        Function::NotInProfile
    }
}

/// The relation that a word is.
#[tactic(auto, unfolding(crate::specs::ExpressionTrees::relation_of_word))]
fn relation_of_word(word: &[u8]) -> RelOp
    ensures { result ≡ relation_of_word word.now }
{
    if word.eq_ignore_ascii_case(b"lt") {
        RelOp::Lt
    } else if word.eq_ignore_ascii_case(b"le") {
        RelOp::Le
    } else if word.eq_ignore_ascii_case(b"eq") {
        RelOp::Eq
    } else if word.eq_ignore_ascii_case(b"ne") {
        RelOp::Ne
    } else if word.eq_ignore_ascii_case(b"ge") {
        RelOp::Ge
    } else {
        RelOp::Gt
    }
}

/// The relation that a token is.
pub(crate) fn relation_of(kind: Kind, text: &[u8]) -> RelOp
    ensures { result ≡ relation_of kind text.now }
{
    match kind {
        Kind::Symbol(Sym::Less) => RelOp::Lt,
        Kind::Symbol(Sym::LessEq) => RelOp::Le,
        Kind::Symbol(Sym::Equals) => RelOp::Eq,
        Kind::Symbol(Sym::NotEq) => RelOp::Ne,
        Kind::Symbol(Sym::GreaterEq) => RelOp::Ge,
        Kind::Symbol(Sym::Greater) => RelOp::Gt,
        _ => relation_of_word(text),
    }
}

/// The lag operator of a token.
pub(crate) fn lag_op_of(kind: Kind) -> LagOp
    ensures { result ≡ lag_op_of kind }
{
    match kind {
        Kind::Symbol(Sym::Minus) => LagOp::Lag,
        Kind::Symbol(Sym::PlusPlus) => LagOp::CircularLead,
        Kind::Symbol(Sym::MinusMinus) => LagOp::CircularLag,
        _ => LagOp::Lead,
    }
}

/// Whether a token of this kind is `-`.
pub fn is_minus(kind: Kind) -> bool
    ensures { result ≡ is_minus kind }
{
    matches!(kind, Kind::Symbol(Sym::Minus))
}

/// Whether a token is `/`.
pub(crate) fn is_slash(kind: Kind) -> bool
    ensures { result ≡ is_slash kind }
{
    matches!(kind, Kind::Symbol(Sym::Slash))
}

/// Whether a word is `xor`.
pub(crate) fn is_xor(word: &[u8]) -> bool
    ensures { result ≡ is_word word.now (codes "xor") }
{
    word.eq_ignore_ascii_case(b"xor")
}

/// Whether a word is `yes`.
pub(crate) fn is_yes(word: &[u8]) -> bool
    ensures { result ≡ is_word word.now (codes "yes") }
{
    word.eq_ignore_ascii_case(b"yes")
}

/// Whether a word is `ord`.
pub(crate) fn is_ord(word: &[u8]) -> bool
    ensures { result ≡ is_word word.now (codes "ord") }
{
    word.eq_ignore_ascii_case(b"ord")
}
