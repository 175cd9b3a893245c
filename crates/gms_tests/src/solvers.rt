//! That a run takes the solver which its source chooses, whatever its rule, and that it calls no
//! other one.
use crate::prefixes::TRANSPORT;
use crate::runs::{Left, run_words};
use std::alloc::Global;
use std::process::Abort;

/// Solvers, a model, its solves, what is listed of the last one, and what the solvers tell, with
/// the rays of the answers.
type Row<'a> = (&'a [&'a str], &'a str, &'a str, &'a str, &'a str);

/// Bland's solver is the first.
const BOTH: &[&str] = &["bland", "greatest"];

/// Bland's solver alone.
const BLAND: &[&str] = &["bland"];

/// A model that is unbounded along x and along y.
const TWO_WAYS: &str =
    "option limrow = 0, limcol = 0, solprint = off; positive variables x, y; variable z; equation obj; obj.. z =e= x + y; model m /all/;";

/// What is listed if the least variable enters.
const ALONG_X: &str = "\
SOLVER bland PIVOTS 1 LIMIT 1000
SOLVER STATUS 1 Normal Completion
MODEL STATUS 3 Unbounded
OBJECTIVE 0.000
PROOF Unbounded
  ray x = 1
  ray z = 1
END";

/// What is listed if the greatest variable enters.
const ALONG_Y: &str = "\
SOLVER greatest PIVOTS 1 LIMIT 1000
SOLVER STATUS 1 Normal Completion
MODEL STATUS 3 Unbounded
OBJECTIVE 0.000
PROOF Unbounded
  ray y = 1
  ray z = 1
END";

/// A model with a best plan.
const CAPPED: &str =
    "option limrow = 0, limcol = 0, solprint = off; positive variable x; variable z; equations cap, obj; cap.. x =l= 4; obj.. z =e= x; model m /all/;";

/// A model without a feasible plan: what is listed, with no pivot.
const CROSSED: &str = "\
SOLVER greatest PIVOTS 0 LIMIT 1000
SOLVER STATUS 1 Normal Completion
MODEL STATUS 4 Infeasible
OBJECTIVE 0.000
PROOF Infeasible
  crossed x 3 2
END";

/// The solvers of the program.
const LENT: &[&str] = &["bland", "dantzig", "steepest", "any"];

/// A textbook's model on which the rule of the largest coefficient cycles.
const CYCLING: &str =
    "option limrow = 0, limcol = 0, solprint = off; positive variables x1, x2, x3, x4; variable z; equations obj, r1, r2, r3; obj.. z =e= 10*x1 - 57*x2 - 9*x3 - 24*x4; r1.. 0.5*x1 - 5.5*x2 - 2.5*x3 + 9*x4 =l= 0; r2.. 0.5*x1 - 1.5*x2 - 0.5*x3 + x4 =l= 0; r3.. x1 =l= 1; model m /all/;";

/// Sources that choose a solver, or two in turn. Where they do not, the first of the list answers.
const ROWS: [Row<'static>; 16] = [
    (
        BOTH,
        TWO_WAYS,
        "solve m using lp maximizing z;",
        ALONG_X,
        "bland | 3>5\ngreatest\n1/1 0/1 1/1 \n",
    ),
    (
        &["greatest", "bland"],
        TWO_WAYS,
        "solve m using lp maximizing z;",
        ALONG_Y,
        "greatest | 3>5\nbland\n0/1 1/1 1/1 \n",
    ),
    (
        BOTH,
        TWO_WAYS,
        "option lp = greatest; solve m using lp maximizing z;",
        ALONG_Y,
        "bland\ngreatest | 3>5\n0/1 1/1 1/1 \n",
    ),
    (
        BOTH,
        TWO_WAYS,
        "solve m using lp maximizing z; option lp = Greatest; solve m using lp maximizing z;",
        ALONG_Y,
        "bland | 3>5\ngreatest | 3>5\n1/1 0/1 1/1 \n0/1 1/1 1/1 \n",
    ),
    (
        BOTH,
        CAPPED,
        "solve m using lp maximizing z; option lp = GREATEST; solve m using lp maximizing z;",
        "OBJECTIVE 4.000\nPROOF Optimal\n  level x = 4\n  level z = 4\n",
        "bland | 2>5 1>4\ngreatest | 2>5 1>4\n",
    ),
    // The rule of the largest coefficient goes round the cycle once, and the turn to Bland's rule
    // ends it.
    (
        LENT,
        CYCLING,
        "option lp = dantzig; solve m using lp maximizing z;",
        "MODEL STATUS 1 Optimal\nOBJECTIVE 1.000\n",
        "bland\ndantzig | 5>7 1>9 2>10 3>1 4>2 9>3 10>4 1>9 2>10 3>1 4>2 9>3 1>4 3>11\nsteepest\nany\n",
    ),
    (
        LENT,
        CAPPED,
        "solve m using lp maximizing z; option lp = dantzig; solve m using lp maximizing z;",
        "OBJECTIVE 4.000\nPROOF Optimal\n  level x = 4\n  level z = 4\n",
        "bland | 2>5 1>4\ndantzig | 2>5 1>4\nsteepest\nany\n",
    ),
    // One variable improves at a time, so each rule takes the same pivots.
    (
        LENT,
        CAPPED,
        "option lp = steepest; solve m using lp maximizing z; option lp = any; solve m using lp maximizing z;",
        "OBJECTIVE 4.000\nPROOF Optimal\n  level x = 4\n  level z = 4\n",
        "bland\ndantzig\nsteepest | 2>5 1>4\nany | 2>5 1>4\n",
    ),
    // Bounds that cross add an empty path.
    (
        &["greatest"],
        CAPPED,
        "x.lo = 3; x.up = 2; solve m using lp maximizing z;",
        CROSSED,
        "greatest |\n",
    ),
    (
        BLAND,
        TRANSPORT,
        "",
        "OBJECTIVE 153.675\n",
        "bland | 0>13 1>14 2>15 3>11 4>10 6>4 7>3 4>0\n",
    ),
    (
        BLAND,
        "variables x, z; equations lim, need, obj; lim.. x =l= 1; need.. x =g= 2; obj.. z =e= x; model m /all/;",
        "solve m using lp minimizing z;",
        "PROOF Infeasible\n  row lim = -1/2\n  row need = 1/2\n  bound 1/2\n",
        "bland | 0>6 1>8 3>5\n",
    ),
    (
        BLAND,
        "positive variable x; variable z; equation obj; obj.. z =e= x; model m /all/;",
        "solve m using lp maximizing z;",
        "PROOF Unbounded\n  ray x = 1\n  ray z = 1\n",
        "bland | 2>4\n1/1 1/1 \n",
    ),
    (
        BLAND,
        CAPPED,
        "option iterlim = 0; solve m using lp maximizing z;",
        "PROOF Interrupted\n  phase 2 pivots 0\nEND",
        "bland |\n",
    ),
    (
        BLAND,
        "positive variable x; variable z; equations cap, obj; scalar d; cap.. x =l= d; obj.. z =e= x; model m /all/; set k /1*3/; parameters r(k), s(k);",
        "loop(k, d = 4*ord(k); solve m using lp maximizing z; r(k) = x.l; s(k) = m.modelstat;); display r, s;",
        "PARAMETER r\n  1          4.000\n  2          8.000\n  3         12.000\n",
        "bland | 2>5 1>4 | 2>5 1>4 | 2>5 1>4\n",
    ),
    (
        BLAND,
        "positive variable x; variable z; equations cap, obj; cap.. x =l= 4; obj.. z =l= x; model m /all/;",
        "x.lo = 1; option iterlim = 1; solve m using lp maximizing z;",
        "PROOF Interrupted\n  phase 2 pivots 1\n  point x = 1\n  point z = 1\n",
        "bland | 2>5\n",
    ),
    (
        BLAND,
        "positive variable x; variable z; equation obj; obj.. z =l= x; model m /all/;",
        "x.lo = 2; solve m using lp maximizing z;",
        "PROOF Unbounded\n  point x = 2\n  point z = 2\n  ray x = 1\n  ray z = 1\n",
        "bland | 2>4\n1/1 1/1 \n",
    ),
];

/// Compares the run of a source with the expected one.
fn check(rt: &impl Abort, alloc: Global, source: &str, row: &Row) {
    let (names, _, solves, lists, tells) = *row;
    let left = run_words(rt, alloc, (source, 0, &[]), &["a.gms"], names);
    assert!(rt; is_expected(&left, lists, tells), "{solves}");
}

/// Whether a run ended with Done, with this in its listing, and its solvers tell this.
fn is_expected(left: &Left, lists: &str, tells: &str) -> bool {
    left.status == 0 && left.output.contains(lists) && left.told.as_str() == tells
}

#[test]
fn takes_the_solver_that_is_chosen(rt: HostRuntime) {
    for row in &ROWS {
        let (_, model, solves, ..) = *row;
        let source = format!(in rt.alloc(); "{model} {solves}").expect(&rt, "memory");
        check(&rt, rt.alloc(), source.as_str(), row);
    }
}
