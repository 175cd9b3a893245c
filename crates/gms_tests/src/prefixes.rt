//! That each prefix of a model is a program or is refused, and that its listing is whole.
use crate::runs::{Left, run_words};
use std::alloc::Global;
use std::process::Abort;

/// The transport model: two plants, three markets, and the cheapest plan.
pub(crate) const TRANSPORT: &str = "\
sets
     i   canning plants   / seattle, san-diego /
     j   markets          / new-york, chicago, topeka / ;
parameters
     a(i)  capacity of plant i in cases
       / seattle 350
         san-diego 600 /
     b(j)  demand at market j in cases
       / new-york 325
         chicago 300
         topeka 275 / ;
table d(i,j)  distance in thousands of miles
               new-york   chicago   topeka
  seattle         2.5       1.7      1.8
  san-diego       2.5       1.8      1.4 ;
scalar f  freight in dollars per case per thousand miles /90/ ;
parameter c(i,j)  transport cost in thousands of dollars per case ;
c(i,j) = f * d(i,j) / 1000 ;
variables
     x(i,j)  shipment quantities in cases
     z       total transportation costs in thousands of dollars ;
positive variable x ;
equations
     cost       define objective function
     supply(i)  observe supply limit at plant i
     demand(j)  satisfy demand at market j ;
cost ..      z =e= sum((i,j), c(i,j)*x(i,j)) ;
supply(i) .. sum(j, x(i,j)) =l= a(i) ;
demand(j) .. sum(i, x(i,j)) =g= b(j) ;
model transport /all/ ;
solve transport using lp minimizing z ;
display x.l, x.m ;
";

/// Whether a run left a whole listing whose last line has its status, and printed its closing line.
fn is_whole(left: &Left) -> bool {
    let end = match left.status {
        0 => "END status 0 solves ",
        2 => "END status 2 solves ",
        _ => return false,
    };
    left.output.contains(end)
        && left.output.ends_with("\n")
        && left.said.ends_with("output a.lst\n")
        && left.kept.starts_with("a.lst ")
}

/// Compares the run of a source with what is expected of any.
fn check(rt: &impl Abort, alloc: Global, source: &str) {
    let left = run_words(rt, alloc, (source, 0, &[]), &["a.gms"], &["bland"]);
    let length = source.len();
    assert!(rt; is_whole(&left), "{length}");
}

#[test]
fn each_prefix_of_a_model_is_listed_whole(rt: HostRuntime) {
    for length in 0..TRANSPORT.len() {
        if let Some(source) = TRANSPORT.get(..length) {
            check(&rt, rt.alloc(), source);
        }
    }
}

#[test]
fn the_whole_model_is_solved(rt: HostRuntime) {
    let left = run_words(&rt, rt.alloc(), (TRANSPORT, 0, &[]), &["a.gms"], &["bland"]);
    assert!(rt; left.output.contains("END status 0 solves 1\n"));
}
