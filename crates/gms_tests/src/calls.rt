//! The calls that no run makes, on values that were worked out by hand.
use gms_ast::{Act, Right, depth};
use gms_eval::Binding;
use gms_list::Listing;
use gms_parse::parse;
use gms_tuple::{Tuple, TupleSet};
use gq_field::{ExactField, Tiny};
use lp_form::{Form, FormFault, Key};
use lp_nocycle::bound;
use std::alloc::Global;
use std::fmt::Write;
use std::process::Abort;

/// The tuple of these labels.
fn tuple(rt: &impl Abort, alloc: Global, labels: &[u32]) -> Tuple {
    let mut tuple = Tuple::new(alloc);
    for label in labels {
        assert!(rt; tuple.as_slice().len() < 10);
        tuple.push(alloc, *label).expect(rt, "memory");
    }
    tuple
}

/// The set of these tuples.
fn set(rt: &impl Abort, alloc: Global, tuples: &[&[u32]]) -> TupleSet {
    let mut set = TupleSet::new(alloc);
    for labels in tuples {
        let tuple = tuple(rt, alloc, labels);
        set.insert(alloc, tuple).expect(rt, "memory");
    }
    set
}

/// Puts the members of a set, as `[1][1, 2]`.
fn put_members(rt: &impl Abort, set: &TupleSet, text: &mut String) {
    for n in 0..set.len() {
        let labels = set.get(n).as_slice();
        write!(text, "{labels:?}").expect(rt, "memory");
    }
}

/// The tuples of a set.
type Tuples<'a> = &'a [&'a [u32]];

const FIRST: Tuples<'static> = &[&[1], &[1, 2], &[3], &[7, 7]];

const SECOND: Tuples<'static> = &[&[3], &[1, 2], &[2], &[9]];

/// A set, an operation by its sign in a source, another set, and the result.
const SETS: [(Tuples<'static>, char, Tuples<'static>, &str); 6] = [
    (FIRST, '+', SECOND, "[1][1, 2][2][3][7, 7][9]"),
    (FIRST, '-', SECOND, "[1][7, 7]"),
    (SECOND, '-', FIRST, "[2][9]"),
    (FIRST, '*', SECOND, "[1, 2][3]"),
    (&[], '+', FIRST, "[1][1, 2][3][7, 7]"),
    (&[], '*', FIRST, ""),
];

/// The result of an operation on two sets.
fn combined(
    rt: &impl Abort,
    alloc: Global,
    first: &TupleSet,
    sign: char,
    second: &TupleSet,
) -> TupleSet {
    let made = match sign {
        '+' => first.union(alloc, second),
        '-' => first.difference(alloc, second),
        _ => first.intersection(alloc, second),
    };
    made.expect(rt, "memory")
}

/// The members of the result of an operation on sets of these tuples.
fn members(rt: &impl Abort, alloc: Global, first: Tuples, sign: char, second: Tuples) -> String {
    let first = set(rt, alloc, first);
    let second = set(rt, alloc, second);
    let made = combined(rt, alloc, &first, sign, &second);
    let mut text = String::new(alloc);
    put_members(rt, &made, &mut text);
    text
}

#[test]
fn operations_on_sets(rt: HostRuntime) {
    for (first, sign, second, expected) in &SETS {
        assert!(rt;
            members(&rt, rt.alloc(), first, *sign, second).as_str() == *expected,
            "{expected}"
        );
    }
}

/// A constant, and labels with their numbers.
type Numbers<'a> = (i128, &'a [(u32, i128)]);

/// An integer.
fn whole(rt: &impl Abort, number: i128) -> Tiny {
    Tiny::from_parts(number, 1).expect(rt, "a number of one byte")
}

/// The form of a number at the key of one label.
fn term(rt: &impl Abort, alloc: Global, label: u32, number: i128) -> Form<Tiny> {
    let tuple = tuple(rt, alloc, &[label]);
    let column = Form::column(alloc, Key { symbol: 7, tuple }).expect(rt, "memory");
    column.scale(alloc, whole(rt, number)).expect(rt, "fits")
}

/// The form of these numbers, at keys of one label.
fn form(rt: &impl Abort, alloc: Global, numbers: Numbers) -> Form<Tiny> {
    let (constant, entries) = numbers;
    let mut form = Form::constant(alloc, whole(rt, constant));
    for (label, number) in entries {
        let term = term(rt, alloc, *label, *number);
        form.add_assign(alloc, &term).expect(rt, "fits");
    }
    form
}

/// Puts the numbers of a form, as `5 7[1]=2`.
fn put_numbers(rt: &impl Abort, form: &Form<Tiny>, text: &mut String) {
    let (constant, _) = form.offset().parts();
    write!(text, "{constant}").expect(rt, "memory");
    for (key, number) in form.keys().iter().zip(form.numbers()) {
        let (number, _) = number.parts();
        write!(text, " {key:?}={number}").expect(rt, "memory");
    }
}

/// 5 + 2 x(1) + 3 x(4)
const SOME: Numbers<'static> = (5, &[(4, 3), (1, 2)]);

/// 1 - 2 x(1) + 7 x(2)
const OTHER: Numbers<'static> = (1, &[(1, -2), (2, 7)]);

/// Numbers close to the limit, which is 127.
const LARGE: Numbers<'static> = (100, &[(1, 1), (2, 100), (3, 100)]);

/// A form, the sign of an operation, another form, and what it makes of them, or the first step
/// that does not fit.
const FORMS: [(Numbers<'static>, char, Numbers<'static>, &str); 6] = [
    (SOME, '+', OTHER, "6 7[2]=7 7[4]=3"),
    (SOME, '-', OTHER, "4 7[1]=4 7[2]=-7 7[4]=3"),
    (LARGE, '+', (28, &[(2, 1)]), "Limit(None)"),
    (LARGE, '+', (27, &[(3, 28), (2, 28)]), "Limit(Some(7[2]))"),
    (LARGE, '-', (27, &[(3, -28), (2, -27)]), "Limit(Some(7[3]))"),
    (LARGE, '+', (-27, &[(2, 27)]), "73 7[1]=1 7[2]=127 7[3]=100"),
];

/// The result of an operation on two forms.
fn summed(
    alloc: Global,
    first: &Form<Tiny>,
    sign: char,
    second: &Form<Tiny>,
) -> Result<Form<Tiny>, FormFault> {
    match sign {
        '+' => first.add(alloc, second),
        _ => first.sub(alloc, second),
    }
}

/// Puts the numbers of a form, or a fault.
fn put_sum(rt: &impl Abort, made: &Result<Form<Tiny>, FormFault>, text: &mut String) {
    match made {
        Ok(form) => put_numbers(rt, form, text),
        Err(fault) => write!(text, "{fault:?}").expect(rt, "memory"),
    }
}

/// The numbers of the result of an operation on two forms, or its fault.
fn sum_of(rt: &impl Abort, alloc: Global, first: Numbers, sign: char, second: Numbers) -> String {
    let first = form(rt, alloc, first);
    let second = form(rt, alloc, second);
    let made = summed(alloc, &first, sign, &second);
    let mut text = String::new(alloc);
    put_sum(rt, &made, &mut text);
    text
}

#[test]
fn sums_and_differences_of_forms(rt: HostRuntime) {
    for (first, sign, second, expected) in &FORMS {
        assert!(rt;
            sum_of(&rt, rt.alloc(), *first, *sign, *second).as_str() == *expected,
            "{expected}"
        );
    }
}

#[test]
fn bindings_of_more_and_more_sets(rt: HostRuntime) {
    let alloc = rt.alloc();
    let mut binding = Binding::new(alloc);
    for (set, label) in [(4, 1), (0, 2), (4, 3)] {
        let outer = binding.len();
        let inner = binding.extended(alloc, set, label).expect(&rt, "memory");
        assert!(rt; binding.len() == outer);
        binding = inner;
    }
    // The first pair of a set counts.
    let pairs = [(4, 1), (0, 2), (4, 3)];
    assert!(rt; binding.pairs() == pairs.as_slice() && binding.label(4) == Some(1));
}

/// Sources, and the nesting of the right side of their first assignment.
const NESTED: [(&str, Option<u32>); 4] = [
    ("a = 1;", Some(1)),
    ("a = 1 + 2*(3 - a);", Some(4)),
    ("a = sum(i$(p(i+2) > 0), 1);", Some(4)),
    ("set i;", None),
];

/// The nesting of the right side of the first assignment of a source.
fn depth_of(alloc: Global, source: &str) -> Option<u32> {
    let Ok(program) = parse::<Tiny>(alloc, source.as_bytes()) else {
        return None;
    };
    for statement in program.statements.as_slice() {
        if let Act::Assign { right, .. } = &statement.act {
            let Right::Value(right) = right;
            return Some(depth(right));
        }
    }
    None
}

#[test]
fn nestings_an_echo_and_bounds_of_pivots(rt: HostRuntime) {
    let alloc = rt.alloc();
    for (source, expected) in &NESTED {
        assert!(rt; depth_of(alloc, source) == *expected, "{source}");
    }
    let mut listing = Listing::new(alloc);
    listing.echo(alloc, b"a = 1;\r\n\nb").expect(&rt, "memory");
    assert!(rt; listing.bytes() == b"     1  a = 1;\n     2  \n     3  b\n".as_slice());
    assert!(rt; bound(8) == Some(512) && bound(62) == Some(1 << 63) && bound(63).is_none());
}
