//! Layer 4, linear programs. Linear programs and their answers: which points are feasible, what
//! bounds the objective, what certifies an answer, and what the dictionary simplex method answers.
#![tactic(auto)]

mod answer;
mod feasibility;
mod laws;
mod program;
mod sequence;
mod shape;

pub use answer::{Answer, End, EndKind, Pivot, Rule, StepName};
pub use feasibility::feasible_at;
pub use laws::{answers_too, crossed_bounds, farkas, unbounded_ray, weak_duality};
pub use program::{Column, Lp, Row, Sense};
pub use sequence::Sequence;
pub use shape::{
    MOST_COLUMNS, MOST_ROWS, count_bounds, count_variables, rows_by_sense, well_formed,
};
