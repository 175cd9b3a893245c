//! A solver of linear programs, as a run views it.
ghost use Rattle.std.specs.Prelude.{◌≡◌, ◌∷◌, ◌++◌, ℕ, List, [], IfOk, OnErr};
ghost use Rattle.gq_frac.specs.Frac.{frac_limit, frac_value};
ghost use Rattle.lp_core.specs.declared.answer.Pivot.{Pivot};
ghost use Rattle.lp_core.specs.WellFormed.{IsWellFormed};
ghost use Rattle.lp_slot.specs.SolverNames.{IsSolverName};
ghost use Rattle.lp_slot.specs.Under.{IsAnswerUnder};
ghost use Rattle.lp_slot.specs.declared.solver.SolverRule.{SolverRule as RuleName};

use gq_frac::Frac;
use lp_core::{Answer, Lp, Pivot, Sequence};
use std::alloc::{AllocError, Global};

/// The rule by which a solver chooses the entering and the leaving variable of each pivot. An
/// answer of the solver has only pivots that its rule allows.
#[derive(Clone, Copy)]
pub enum SolverRule {
    /// Bland's rule: the improving variable with the least number enters, and of the tied ones that
    /// with the least number leaves.
    Bland,
    /// The largest coefficient, with a turn to Bland's rule after as many successive degenerate
    /// pivots as there are variables.
    LargestCoefficient,
    /// Any improving variable enters until this turn, and Bland's after it.
    Turning,
    /// Any legal pivots.
    Legal,
}

/// A solver of linear programs over exact rational numbers.
///
/// A solver exposes its name, by which a GAMS source chooses it, the rule by which it chooses
/// pivots, and the list of pivots of each answer that it gave. `solve` can only append one more
/// list; name and rule stay.
pub trait LpSolver: Drop {
    /// The name by which a source chooses the solver.
    ghost name: { Self → List ℕ };

    /// The rule by which the solver chooses pivots.
    ghost rule: { Self → RuleName };

    /// The pivots of each answer that the solver has given, in order.
    ghost paths: { Self → List (List Pivot) };

    /// The name by which a source chooses the solver. A source can write it: it is a letter
    /// followed by letters, digits and `_`, at most 63 bytes, and not `none`.
    fn name(&self) -> &str
        ensures name { result.now ≡ name self.now }
        ensures named { IsSolverName result.now };

    /// The rule by which the solver chooses pivots.
    fn rule(&self) -> SolverRule
        ensures { result ≡ rule self.now };

    /// The pivots of each answer that the solver has given, in order.
    fn paths(&self) -> &[Sequence<Pivot>]
        ensures { result.now ≡ paths self.now };

    /// An answer of a program, found by at most `iterlim` pivots that the solver's rule allows, as
    /// in Chvatal, Linear Programming, chapters 2, 3 and 8.
    ///
    /// Optimal, Infeasible and Unbounded come with their certificates. Interrupted is the end after
    /// exactly `iterlim` pivots when a further one is required. Refused has the first step that
    /// does not fit under the limit of the numbers. The answer's pivots are appended to `paths` as
    /// one list. The only error is out of memory, after which the solver is unchanged.
    fn solve(
        &mut self,
        alloc: Global,
        lp: &Lp<Frac>,
        iterlim: u64,
    ) -> Result<Answer<Frac>, AllocError>
        requires { IsWellFormed frac_value lp.now }
        ensures answers { IfOk result (IsAnswerUnder frac_value frac_limit lp.now iterlim (rule self.old)) }
        ensures paths { IfOk result (λ answer. paths self.new ≡ paths self.old ++ answer.pivots ∷ []) }
        ensures name { name self.new ≡ name self.old }
        ensures rule { rule self.new ≡ rule self.old }
        ensures unchanged { OnErr result (self.new ≡ self.old) };

    /// The name is one that a source can write.
    ghost named: { (s : Self) → IsSolverName (name s) };
}
