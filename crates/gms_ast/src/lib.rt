//! Layer 2, source to tree. The trees of a program: expressions, statements and their parts.
#![tactic(auto)]

mod declaration;
mod expression;
mod nesting;
mod program;
mod sequence;
mod word;

pub use declaration::{Decl, DeclKind, Item, ModelDecl};
pub use expression::{Control, Expr, FoldOp, Function, Index, LagOp, RelOp, Suffix};
pub use nesting::depth;
pub use program::{Act, Program, Right, Setting, Show, Side, Stmt, Target};
pub use sequence::Sequence;
pub use word::{Named, Word};
