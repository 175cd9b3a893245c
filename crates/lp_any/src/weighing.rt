//! The worth of a variable's entering, which is the square of its coefficient over the length of
//! its edge, and the variable that is worth most.
ghost use Rattle.std.specs.Prelude.{◌≤◌, ◌+◌, ℕ, length, MatchOption};
ghost use Rattle.lp_core.specs.Dictionary.{OpeningIsRequired, Improves};
ghost use Rattle.lp_dict.specs.Tableau.{dictionary};

use crate::leaders::{Leader, Leaders, MOST};
use crate::size::Size;
use gq_field::ExactField;
use lp_dict::Dict;

/// How many numbers of the dictionary are read to weigh variables: fewer variables are weighed in
/// larger dictionaries.
const NUMBERS: usize = 4_096;

/// How many variables are weighed at least, if as many improve.
const LEAST: usize = 8;

/// A variable, and the worth of its entering.
#[derive(Clone, Copy)]
struct Candidate {
    variable: u32,
    worth: Size,
}

/// How many variables are weighed at most.
fn most_weighed<F: ExactField>(dict: &Dict<F>) -> usize {
    let rows = dict.len().saturating_add(1);
    (NUMBERS / rows).max(LEAST).min(MOST)
}

/// The priced row: that of variable 0 while it is basic, else the objective's, which follows the
/// rows.
fn priced_row<F: ExactField>(dict: &Dict<F>) -> usize
    ensures { result ≤ length dict.now.basic }
{
    match dict.row_of(0) {
        Some(row) => row,
        None => dict.len(),
    }
}

/// The size of a number of the dictionary if it is above 0.
#[inline(always)]
fn size_above<F: ExactField>(dict: &Dict<F>, row: usize, column: usize) -> Option<Size>
    requires row { row ≤ length dict.now.basic }
    requires column { column ≤ dict.now.variables + 1 }
{
    let (numerator, denominator) = dict.fraction(row, column);
    if numerator > 0 {
        Some(Size::of_ratio(numerator.unsigned_abs(), denominator))
    } else {
        None
    }
}

/// The variables with the greatest coefficients.
fn leaders_of<F: ExactField>(dict: &Dict<F>) -> Leaders {
    let row = priced_row(dict);
    let mut leaders = Leaders::new(most_weighed(dict));
    for variable in 1..=dict.variables() {
        if let Some(gain) = size_above(dict, row, variable as usize + 1) {
            leaders.add(Leader { variable, gain });
        }
    }
    leaders
}

/// The length above which an edge is worth less than the best one so far.
fn longest(best: Option<Candidate>, square: Size) -> Size {
    match best {
        Some(best) => square.over(best.worth).raised(),
        None => Size::endless(),
    }
}

/// The length of a variable's edge: 1 and the squares of the numbers above 0 in its column. None as
/// soon as it is above `most`: the rows after that are not read.
fn length_of<F: ExactField>(dict: &Dict<F>, column: usize, most: Size) -> Option<Size>
    requires { column ≤ dict.now.variables + 1 }
{
    let mut length = Size::of(1);
    if length.compare(most).is_gt() {
        return None;
    }
    for row in 0..dict.len() {
        if let Some(size) = size_above(dict, row, column) {
            length = length.plus(size.times(size));
            if length.compare(most).is_gt() {
                return None;
            }
        }
    }
    Some(length)
}

/// The better of the best variable so far and another: the one that is worth more, and of equal
/// ones the lesser. Worth is the square of the coefficient over the length of the edge.
fn weighed<F: ExactField>(
    dict: &Dict<F>,
    best: Option<Candidate>,
    leader: Leader,
) -> Option<Candidate> {
    let variable = leader.variable;
    if variable > dict.variables() {
        return best;
    }
    let square = leader.gain.times(leader.gain);
    let Some(length) = length_of(dict, variable as usize + 1, longest(best, square)) else {
        return best;
    };
    let worth = square.over(length);
    let other = Some(Candidate { variable, worth });
    let Some(first) = best else {
        return other;
    };
    let order = worth.compare(first.worth);
    if order.is_gt() || (order.is_eq() && variable < first.variable) {
        other
    } else {
        best
    }
}

/// The variable worth most among those with the greatest coefficients, and of equal ones the least.
/// `None` exactly if no variable improves.
pub(crate) fn worthiest<F: ExactField>(dict: &Dict<F>) -> Option<u32>
    requires { ¬ (OpeningIsRequired (dictionary F.value dict.now)) }
    ensures { MatchOption result ((v : ℕ) → ¬ (Improves (dictionary F.value dict.now) v)) (Improves (dictionary F.value dict.now)) }
{
    let leaders = leaders_of(dict);
    let mut best = None;
    for place in 0..MOST {
        let Some(leader) = leaders.at(place) else {
            break;
        };
        best = weighed(dict, best, leader);
    }
    let Some(best) = best else {
        return dict.entering();
    };
    if dict.improves(best.variable) {
        Some(best.variable)
    } else {
        dict.entering()
    }
}
