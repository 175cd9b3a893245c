//! Linear programs made in code: what solves them over three fields, and what is known of their
//! points and bounds.
ghost use Rattle.std.specs.Prelude.{◌≡◌, ◌∷◌, []};
ghost use Rattle.gq_number.specs.Number.{ratio};

use gms_tuple::Tuple;
use gq_field::{ExactField, Half, Tiny};
use gq_frac::Frac;
use lp_bland::{narrow_lp, solve_in, widen_answer};
use lp_check::dual_bound;
use lp_core::{
    Answer, Column, End, Lp, Pivot, Row, Sense, Sequence, StepName, feasible_at, well_formed,
};
use lp_form::Key;
use std::alloc::Global;
use std::fmt::Write;
use std::process::Abort;

/// A numerator and a denominator.
type Part = (i128, u128);

/// The lower and the upper bound of a column.
type Bounds = (Option<Part>, Option<Part>);

/// A row: its sense, its right side, and its columns with their coefficients.
type Line<'a> = (Sense, Part, &'a [(u32, Part)]);

/// A program: its columns, its rows, its objective and whether that is maximized.
type Given<'a> = (&'a [Bounds], &'a [Line<'a>], u32, bool);

/// The key of the only element of the symbol of this number.
fn key(rt: &impl Abort, alloc: Global, symbol: usize) -> Key {
    Key {
        symbol: u32::try_from(symbol).expect(rt, "few symbols"),
        tuple: Tuple::new(alloc),
    }
}

/// The number of a field.
fn number<F: ExactField>(rt: &impl Abort, part: Part) -> F
    ensures { F.value result ≡ ratio part.0 part.1 }
{
    let (top, below) = part;
    assert!(rt; below > 0);
    F::from_parts(top, below).expect(rt, "a number of the field")
}

/// The bound, if there is one.
fn bound<F: ExactField>(rt: &impl Abort, part: Option<Part>) -> Option<F> {
    match part {
        Some(part) => Some(number(rt, part)),
        None => None,
    }
}

/// The columns with these bounds.
fn columns<F: ExactField + Drop>(
    rt: &impl Abort,
    alloc: Global,
    given: &[Bounds],
) -> Vec<Column<F>> {
    let mut columns = Vec::new(alloc);
    for (lower, upper) in given {
        let column = Column {
            key: key(rt, alloc, columns.len()),
            lower: bound(rt, *lower),
            upper: bound(rt, *upper),
        };
        columns.push(column).expect(rt, "memory");
    }
    columns
}

/// The entries of a row.
fn entries<F: ExactField + Drop>(
    rt: &impl Abort,
    alloc: Global,
    given: &[(u32, Part)],
) -> Vec<(u32, F)> {
    let mut entries = Vec::new(alloc);
    for (column, part) in given {
        let entry = (*column, number(rt, *part));
        entries.push(entry).expect(rt, "memory");
    }
    entries
}

/// The rows with these parts.
fn rows<F: ExactField + Drop>(rt: &impl Abort, alloc: Global, given: &[Line]) -> Vec<Row<F>> {
    let mut rows = Vec::new(alloc);
    for (sense, right, terms) in given {
        let row = Row {
            key: key(rt, alloc, rows.len()),
            sense: *sense,
            right: number(rt, *right),
            entries: Sequence::new(entries(rt, alloc, terms)),
        };
        rows.push(row).expect(rt, "memory");
    }
    rows
}

/// The program with these parts.
fn program<F: ExactField + Drop>(rt: &impl Abort, alloc: Global, given: &Given) -> Lp<F> {
    let (bounds, lines, objective, maximize) = *given;
    let columns = columns(rt, alloc, bounds);
    let rows = rows(rt, alloc, lines);
    Lp {
        columns: Sequence::new(columns),
        rows: Sequence::new(rows),
        objective,
        maximize,
    }
}

/// Puts pivots, as `1>3 2>4 `.
fn put_pivots(rt: &impl Abort, pivots: &[Pivot], text: &mut String) {
    for pivot in pivots {
        write!(text, "{}>{} ", pivot.enter, pivot.leave).expect(rt, "memory");
    }
}

/// Puts numbers after a word, as `levels 4 1/2 `.
fn put_numbers<F: ExactField>(rt: &impl Abort, word: &str, numbers: &[F], text: &mut String) {
    write!(text, "{word} ").expect(rt, "memory");
    for number in numbers {
        match number.parts() {
            (top, 1) => write!(text, "{top} ").expect(rt, "memory"),
            (top, below) => write!(text, "{top}/{below} ").expect(rt, "memory"),
        }
    }
}

/// Puts the levels and the duals of an optimum, or the step that does not fit.
fn put_end<F: ExactField>(rt: &impl Abort, end: &End<F>, text: &mut String) {
    match end {
        End::Optimal { levels, duals, .. } => {
            put_numbers(rt, "levels", levels.as_slice(), text);
            put_numbers(rt, "duals", duals.as_slice(), text);
        }
        End::Refused { step } => write!(text, "{step}").expect(rt, "memory"),
        _ => text.push_str("another end").expect(rt, "memory"),
    }
}

/// The text of the pivots and the end of an answer.
fn told<F: ExactField>(rt: &impl Abort, alloc: Global, answer: &Answer<F>) -> String {
    let mut text = String::new(alloc);
    put_pivots(rt, answer.pivots.as_slice(), &mut text);
    put_end(rt, &answer.end, &mut text);
    text
}

/// The answer of a program under Bland's rule.
fn solved<F: ExactField + Drop>(rt: &impl Abort, alloc: Global, lp: &Lp<F>) -> Answer<F> {
    assert!(rt; well_formed(lp));
    solve_in(alloc, lp, 1_000).expect(rt, "memory")
}

/// A column from 0 on.
const FROM_ZERO: Bounds = (Some((0, 1)), None);

/// A column from 100 on.
const FROM_HUNDRED: Bounds = (Some((100, 1)), None);

/// A column without bounds.
const FREE: Bounds = (None, None);

/// Programs over numbers with parts of at most 127, each with the step that does not fit.
const REFUSED: [(Given<'static>, &str); 6] = [
    (
        (
            &[FROM_HUNDRED],
            &[(Sense::L, (1, 1), &[(0, (2, 1))])],
            0,
            true,
        ),
        "beyond the field's limit in the standard form: row 1, column 1, part 0",
    ),
    (
        (
            &[FROM_HUNDRED],
            &[(Sense::L, (-100, 1), &[(0, (1, 1))])],
            0,
            true,
        ),
        "beyond the field's limit in the standard form: row 1, column 1, part 1",
    ),
    (
        (
            &[FROM_ZERO],
            &[(Sense::L, (127, 1), &[(0, (1, 2))])],
            0,
            true,
        ),
        "beyond the field's limit in a ratio: pivot 1, row 1",
    ),
    (
        (
            &[FROM_ZERO, FROM_ZERO],
            &[(Sense::L, (1, 1), &[(0, (1, 2)), (1, (100, 1))])],
            0,
            true,
        ),
        "beyond the field's limit in an exchange: pivot 1, row 1, column 3, part 0",
    ),
    (
        (
            &[FROM_ZERO],
            &[
                (Sense::L, (100, 1), &[(0, (1, 1))]),
                (Sense::L, (100, 1), &[(0, (-1, 1))]),
            ],
            0,
            true,
        ),
        "beyond the field's limit in an exchange: pivot 1, row 2, column 0, part 1",
    ),
    (
        (
            &[FROM_ZERO, FROM_HUNDRED],
            &[
                (Sense::L, (-50, 1), &[(0, (1, 1)), (1, (-1, 2))]),
                (Sense::L, (100, 1), &[(1, (1, 2))]),
            ],
            0,
            true,
        ),
        "1>3 2>4 beyond the field's limit in the recovery: list 0, index 1, entry 0, part 1",
    ),
];

/// The greatest z of z = x and x at most 4.
const CAPPED: Given<'static> = (
    &[FROM_ZERO, FREE],
    &[
        (Sense::L, (4, 1), &[(0, (1, 1))]),
        (Sense::E, (0, 1), &[(0, (-1, 1)), (1, (1, 1))]),
    ],
    1,
    true,
);

#[test]
fn answers_over_small_numbers(rt: HostRuntime) {
    let alloc = rt.alloc();
    for (given, expected) in &REFUSED {
        let lp: Lp<Tiny> = program(&rt, alloc, given);
        let answer = solved(&rt, alloc, &lp);
        assert!(rt;
            told(&rt, alloc, &answer).as_str() == *expected,
            "{expected}"
        );
    }
    let lp: Lp<Half> = program(&rt, alloc, &CAPPED);
    let answer = solved(&rt, alloc, &lp);
    assert!(rt; told(&rt, alloc, &answer).as_str() == "2>5 1>4 levels 4 4 duals 1 1 ");
}

/// The transport model: two plants, three markets, and the least cost in the last column.
const TRANSPORT: Given<'static> = (
    &[
        FROM_ZERO, FROM_ZERO, FROM_ZERO, FROM_ZERO, FROM_ZERO, FROM_ZERO, FREE,
    ],
    &[
        (
            Sense::E,
            (0, 1),
            &[
                (0, (-225, 1_000)),
                (1, (-153, 1_000)),
                (2, (-162, 1_000)),
                (3, (-225, 1_000)),
                (4, (-162, 1_000)),
                (5, (-126, 1_000)),
                (6, (1, 1)),
            ],
        ),
        (Sense::L, (350, 1), &[(0, (1, 1)), (1, (1, 1)), (2, (1, 1))]),
        (Sense::L, (600, 1), &[(3, (1, 1)), (4, (1, 1)), (5, (1, 1))]),
        (Sense::G, (325, 1), &[(0, (1, 1)), (3, (1, 1))]),
        (Sense::G, (300, 1), &[(1, (1, 1)), (4, (1, 1))]),
        (Sense::G, (275, 1), &[(2, (1, 1)), (5, (1, 1))]),
    ],
    6,
    false,
);

/// The pivots, the levels and the duals of its optimum.
const SHIPPED: &str = "0>13 1>14 2>15 3>11 4>10 6>4 7>3 4>0 \
levels 50 300 0 275 0 275 6147/40 duals 1 0 0 9/40 153/1000 63/500 ";

/// A program with a bound that takes more than 63 bits.
const WIDE: Given<'static> = (
    &[(Some((1 << 125, 1)), None), FREE],
    &[
        (Sense::L, (1, 1), &[(0, (4, 1))]),
        (Sense::E, (0, 1), &[(0, (-1, 1)), (1, (1, 1))]),
    ],
    1,
    true,
);

#[test]
fn an_answer_over_half_is_made_wide(rt: HostRuntime) {
    let alloc = rt.alloc();
    let wide: Lp<Frac> = program(&rt, alloc, &TRANSPORT);
    assert!(rt; well_formed(&wide));
    let narrow = narrow_lp(alloc, &wide).expect(&rt, "memory");
    let narrow = narrow.expect(&rt, "numbers of 63 bits");
    let answer = solve_in(alloc, &narrow, 1_000).expect(&rt, "memory");
    let answer = widen_answer(alloc, &answer).expect(&rt, "memory");
    assert!(rt; told(&rt, alloc, &answer).as_str() == SHIPPED);
    let wide: Lp<Frac> = program(&rt, alloc, &WIDE);
    assert!(rt; narrow_lp(alloc, &wide).expect(&rt, "memory").is_none());
}

/// Programs that are not well formed: an objective that is not a column, an entry of 0, an entry of
/// no column, and entries out of order.
const ILL_FORMED: [Given<'static>; 4] = [
    (&[FREE], &[], 1, true),
    (&[FREE], &[(Sense::L, (1, 1), &[(0, (0, 1))])], 0, true),
    (&[FREE], &[(Sense::L, (1, 1), &[(1, (1, 1))])], 0, true),
    (
        &[FREE, FREE],
        &[(Sense::L, (1, 1), &[(1, (1, 1)), (0, (1, 1))])],
        0,
        true,
    ),
];

/// Points x and z of the program with a cap, and whether each is feasible: the optimum, one over
/// the cap, one below a bound, one off the equation, and one whose check stops, where -4 - 127 is
/// the step 5.
const POINTS: [(i128, i128, &str); 5] = [
    (4, 4, "true"),
    (5, 5, "false"),
    (-1, -1, "false"),
    (3, 4, "false"),
    (4, -127, "beyond the field's limit in a check: part 5"),
];

/// Whether a point of two numbers is feasible, or the step that does not fit.
fn tested(rt: &impl Abort, alloc: Global, lp: &Lp<Tiny>, x: i128, z: i128) -> String {
    assert!(rt; well_formed(lp));
    assert!(rt; lp.columns.len() == 2);
    let point = [number(rt, (x, 1)), number(rt, (z, 1))];
    match feasible_at(lp, &point) {
        Ok(feasible) => format!(in alloc; "{feasible}").expect(rt, "memory"),
        Err(step) => format!(in alloc; "{step}").expect(rt, "memory"),
    }
}

/// The list of one value.
fn one_of<T: Drop>(rt: &impl Abort, alloc: Global, value: T) -> Sequence<T>
    ensures { result ≡ value ∷ [] }
{
    let mut values = Vec::new(alloc);
    values.push(value).expect(rt, "memory");
    Sequence::new(values)
}

/// The bound that the dual 2 gives of the least z that is at most 0 with 100 z at least 1, or the
/// step that does not fit.
fn bound_by_two<F: ExactField + Drop>(rt: &impl Abort, alloc: Global) -> Result<F, StepName> {
    let zero = number(rt, (0, 1));
    let right = number(rt, (1, 1));
    let hundred = number(rt, (100, 1));
    let two = number(rt, (2, 1));
    let column = Column {
        key: key(rt, alloc, 0),
        lower: None,
        upper: Some(zero),
    };
    let row = Row {
        key: key(rt, alloc, 0),
        sense: Sense::G,
        right,
        entries: one_of(rt, alloc, (0u32, hundred)),
    };
    let lp = Lp {
        columns: one_of(rt, alloc, column),
        rows: one_of(rt, alloc, row),
        objective: 0,
        maximize: false,
    };
    let duals = one_of(rt, alloc, two);
    assert!(rt; well_formed(&lp));
    dual_bound(alloc, &lp, true, duals.as_slice())
}

#[test]
fn points_and_bounds_over_small_numbers(rt: HostRuntime) {
    let alloc = rt.alloc();
    for given in &ILL_FORMED {
        let lp: Lp<Tiny> = program(&rt, alloc, given);
        assert!(rt; !well_formed(&lp));
    }
    let lp: Lp<Tiny> = program(&rt, alloc, &CAPPED);
    for (x, z, expected) in &POINTS {
        assert!(rt;
            tested(&rt, alloc, &lp, *x, *z).as_str() == *expected,
            "{expected}"
        );
    }
    let bound: Result<Half, StepName> = bound_by_two(&rt, alloc);
    assert!(rt; matches!(bound, Ok(bound) if bound.parts() == (2, 1)));
    let bound: Result<Tiny, StepName> = bound_by_two(&rt, alloc);
    assert!(rt; matches!(bound, Err(StepName::Check { part: 0 })));
}
