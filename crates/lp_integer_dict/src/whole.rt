//! The dictionary by integers.
ghost use Rattle.std.specs.Prelude.{◌≡◌, ◌≢◌, ℕ, ◌+◌, ◌<◌, ◌≤◌, ◌^◌, pos, nat_abs, length, slice_get, Some, None, false, IfOk, IfErr, IsTrue, MatchOption, Contains};
ghost use Rattle.gq_number.specs.Number.{whole, ratio};
ghost use Rattle.lp_core.specs.Dictionary.{basic_at, OpeningIsRequired, IsLeast, IsOpening, IsLegal, Improves, exchanged, IsProper, IsLeaving};
ghost use Rattle.lp_core.specs.LargestCoefficient.{HasGreatest};
ghost use Rattle.lp_core.specs.Steps.{AllFit, ratio_steps, exchange_steps};
ghost use Rattle.lp_fraction_dict.specs.Tableau.{IsPlace};
ghost use Rattle.lp_integer_dict.specs.Whole.{integer_dictionary, whole_dictionary, AreCrowded, IsPivotCrowded, IsPivoted};
ghost use Rattle.lp_integer_dict.specs.Pairs.{IsSomePairCrowded};
ghost use Rattle.lp_integer_rows.specs.Form.{AreLines, AreBounded};
ghost use Rattle.lp_integer_dict.specs.WithinBound.{IsSomeGreat};

use crate::bounds::{all_within, deferred_stays_within};
use crate::choice::{first_above, least_constant, least_ratio};
use crate::coefficients::greatest_above;
use crate::pairs::pairs_fit;
use crate::read::{Fraction, read};
use crate::step::turn_lines;
use lp_core::Pivot;
use lp_integer_rows::{Line, forget_zero, raise_at, reduce_lines, swap_lines};
use std::alloc::{AllocError, Global};
use std::marker::Model;

/// A dictionary of the simplex method: a row for each basic variable, and the objective. Each row,
/// and the objective, is stored as integers over one denominator, all at most a bound in magnitude
/// (Chvatal, Linear Programming, chapters 2 and 3; Edmonds, Systems of distinct representatives and
/// linear algebra).
///
/// Variable 0 is the artificial variable of phase 1. While variable 0 is basic, the exchange by
/// which it entered is deferred: the stored rows are those without this exchange, and a number that
/// is read is computed as if the exchange were made.
#[derive(Drop)]
pub struct Whole {
    variables: u32,
    basic: Vec<u32>,
    lines: Vec<Line>,
    deferred: Option<usize>,
    bound: u128,
}

impl Model for Whole {
    ghost use Rattle.lp_integer_dict.specs.Whole.{WholeTableau, IsWhole};

    ghost Value = { WholeTableau };

    ghost view = { λ w. record { variables = w.variables; basic = w.basic.items; lines = w.lines.items; deferred = w.deferred; bound = w.bound } };

    ghost invariant = { λ w. IsWhole (record { variables = w.variables; basic = w.basic.items; lines = w.lines.items; deferred = w.deferred; bound = w.bound }) };
}

/// The place of a variable among the basic ones.
fn place_among(basic: &[u32], variable: u32) -> Option<usize>
    ensures { IsPlace basic.now variable result }
{
    for (i, other) in basic.iter().enumerate() {
        if *other == variable {
            return Some(i);
        }
    }
    None
}

impl Whole {
    /// The dictionary with the rows `lines`: one for each variable of `basic`, in the same order,
    /// then the objective. `variables` is the greatest number of a variable, and each row has
    /// variables + 2 columns. `None` exactly if the stored greatest magnitude of some row or the
    /// objective exceeds `bound`.
    ///
    /// The caller must ensure that column numbers have at most 32 bits, and `bound` at most 127;
    /// that the basic variables are distinct, from 1 to `variables`, each with coefficient 1 in its
    /// own row, and 0 in the others and the objective; and that variable 0 has coefficient -1 in
    /// each row but the objective if some such row's constant is below 0.
    pub fn of_lines(variables: u32, basic: Vec<u32>, lines: Vec<Line>, bound: u128) -> Option<Whole>
        requires sized { variables + 2 < 2 ^ 32 }
        requires small { bound < 2 ^ 127 }
        requires paired { length lines.items ≡ length basic.items + 1 }
        requires lines { AreLines (variables + 2) lines.items }
        requires phase { ¬ (Contains basic.items 0) }
        requires proper { IsProper (whole_dictionary variables basic.items lines.items None) }
        ensures dictionary { MatchOption result (Unit {0}) (λ w. integer_dictionary w ≡ whole_dictionary variables basic.items lines.items None) }
        ensures bound { MatchOption result (Unit {0}) (λ w. w.bound ≡ bound) }
        ensures none { MatchOption result (IsSomeGreat bound lines.items) (λ _. AreBounded bound lines.items) }
    {
        if !all_within(lines.as_slice(), bound) {
            return None;
        }
        let whole = Whole {
            variables,
            basic,
            lines,
            deferred: None,
            bound,
        };
        Some(whole)
    }

    /// The greatest number of a variable. The variables have the numbers from 0 to this one.
    pub fn variables(&self) -> u32
        ensures { result ≡ self.now.variables }
    {
        self.variables
    }

    /// The number of the basic variable of each row, in the order of the rows.
    pub fn basic(&self) -> &[u32]
        ensures { result.now ≡ self.now.basic }
    {
        self.basic.as_slice()
    }

    /// The index, from 0, of the row in which variable `v` is basic; `None` if it is not basic.
    pub fn place_of(&self, v: u32) -> Option<usize>
        ensures { IsPlace self.now.basic v result }
    {
        place_among(self.basic.as_slice(), v)
    }

    /// The number at `column` of `row`, both from 0. The objective follows the last row. Column 0
    /// has the constant, and column v + 1 the coefficient of variable v. In a row the coefficients
    /// times their variables sum to the constant; in the objective's, to the objective plus the
    /// constant. Numerator and denominator are at most the dictionary's bound in magnitude.
    #[inline(always)]
    pub fn number(&self, row: usize, column: usize) -> Fraction
        requires row { row ≤ length self.now.basic }
        requires column { column ≤ self.now.variables + 1 }
        ensures number { ratio result.numerator result.denominator ≡ (integer_dictionary self.now).numbers row column }
        ensures positive { 0 < result.denominator }
        ensures within { (nat_abs result.numerator ≤ self.now.bound) × (result.denominator ≤ self.now.bound) }
    {
        read(self.lines.as_slice(), self.deferred, row, column)
    }

    /// The opening pivot: variable 0 enters, and of the basic variables whose rows have the least
    /// constant the one with the least number leaves. `None` exactly if no row's constant is below
    /// 0, so that no opening pivot is required.
    pub fn opening(&self) -> Option<Pivot>
        ensures { MatchOption result (¬ (OpeningIsRequired (integer_dictionary self.now)))
            (λ p. ((k : ℕ) × IsOpening (integer_dictionary self.now) p k) ×
            ((i : ℕ) → IsLeast (integer_dictionary self.now) i → p.leave ≤ basic_at (integer_dictionary self.now) i)) }
    {
        match least_constant(self.lines.as_slice(), self.deferred, self.basic.as_slice()) {
            Some(candidate) => Some(Pivot {
                enter: 0,
                leave: candidate.variable,
            }),
            None => None,
        }
    }

    /// Of the variables that improve, the one with the least number; `None` exactly if none
    /// improves. A variable improves if it is neither basic nor variable 0, and its coefficient in
    /// the priced row is above 0. The priced row is the row in which variable 0 is basic, so that
    /// variable 0 falls as an improving variable rises; without such a row it is the objective. The
    /// caller must ensure that no row's constant is below 0: no opening pivot is required.
    pub fn entering(&self) -> Option<u32>
        requires { ¬ (OpeningIsRequired (integer_dictionary self.now)) }
        ensures { MatchOption result ((v : ℕ) → ¬ (Improves (integer_dictionary self.now) v))
            (λ q. Improves (integer_dictionary self.now) q × ((v : ℕ) → Improves (integer_dictionary self.now) v → q ≤ v)) }
    {
        match self.deferred {
            Some(k) => first_above(&self.lines[k]),
            None => first_above(&self.lines[self.basic.len()]),
        }
    }

    /// Of the variables that improve, the one with the greatest coefficient in the priced row, and
    /// of those with this coefficient the one with the least number; `None` exactly if none
    /// improves. A variable improves if it is neither basic nor variable 0, and its coefficient in
    /// the priced row is above 0. The priced row is the row in which variable 0 is basic, so that
    /// variable 0 falls as an improving variable rises; without such a row it is the objective. The
    /// caller must ensure that no row's constant is below 0: no opening pivot is required.
    pub fn greatest(&self) -> Option<u32>
        requires { ¬ (OpeningIsRequired (integer_dictionary self.now)) }
        ensures { MatchOption result ((v : ℕ) → ¬ (Improves (integer_dictionary self.now) v)) (HasGreatest (integer_dictionary self.now)) }
    {
        match self.deferred {
            Some(k) => greatest_above(&self.lines[k]),
            None => greatest_above(&self.lines[self.basic.len()]),
        }
    }

    /// The variable that leaves when the variable `enter` enters: of the basic variables whose rows
    /// have the least ratio, the one with the least number. `None` exactly if no row limits the
    /// rise of `enter`. No step computes a numerator or a denominator beyond the dictionary's
    /// bound.
    ///
    /// The caller must ensure that `enter` improves: it is neither basic nor variable 0, and its
    /// coefficient in the priced row is above 0. The priced row is the row in which variable 0 is
    /// basic, so that variable 0 falls as `enter` rises; without such a row, the objective.
    pub fn leaving(&self, enter: u32) -> Option<u32>
        requires { Improves (integer_dictionary self.now) enter }
        ensures choice { IsLeaving (integer_dictionary self.now) enter result }
        ensures fits { (limit pivot : ℕ) → self.now.bound ≤ limit → AllFit (ratio_steps limit pivot (integer_dictionary self.now) enter) }
    {
        match least_ratio(
            self.lines.as_slice(),
            self.deferred,
            self.basic.as_slice(),
            enter as usize + 1,
        ) {
            Some(candidate) => Some(candidate.variable),
            None => None,
        }
    }

    /// The opening pivot: variable 0 enters in this row and is deferred there. `Err` with the same
    /// dictionary if that exceeds the bound.
    fn open(self, p: Pivot, place: usize) -> Result<Whole, Whole>
        requires legal { IsLegal (integer_dictionary self) p place }
        requires opens { p.enter ≡ 0 }
        ensures { IsPivoted self p place result }
    {
        let Whole {
            variables,
            mut basic,
            mut lines,
            deferred,
            bound,
        } = self;
        if !deferred_stays_within(lines.as_slice(), place, bound) {
            let same = Whole {
                variables,
                basic,
                lines,
                deferred,
                bound,
            };
            return Err(same);
        }
        raise_at(&mut lines, place);
        basic[place] = p.enter;
        let after = Whole {
            variables,
            basic,
            lines,
            deferred: Some(place),
            bound,
        };
        Ok(after)
    }

    /// A pivot with nothing deferred.
    fn step_plain(
        self,
        alloc: Global,
        p: Pivot,
        place: usize,
    ) -> Result<Result<Whole, Whole>, AllocError>
        requires legal { IsLegal (integer_dictionary self) p place }
        requires later { p.enter ≢ 0 }
        requires plain { self.deferred ≡ None }
        ensures { IfOk result (IsPivoted self p place) }
    {
        let Whole {
            variables,
            mut basic,
            mut lines,
            deferred,
            bound,
        } = self;
        let column = p.enter as usize + 1;
        let done = turn_lines(alloc, &mut lines, place, place, column, bound)?;
        if !done {
            let same = Whole {
                variables,
                basic,
                lines,
                deferred,
                bound,
            };
            return Ok(Err(same));
        }
        basic[place] = p.enter;
        let after = Whole {
            variables,
            basic,
            lines,
            deferred: None,
            bound,
        };
        Ok(Ok(after))
    }

    /// A pivot by which variable 0 leaves: nothing is deferred any longer.
    fn step_out(
        self,
        alloc: Global,
        p: Pivot,
        place: usize,
    ) -> Result<Result<Whole, Whole>, AllocError>
        requires legal { IsLegal (integer_dictionary self) p place }
        requires later { p.enter ≢ 0 }
        requires out { self.deferred ≡ Some place }
        ensures { IfOk result (IsPivoted self p place) }
    {
        let Whole {
            variables,
            mut basic,
            mut lines,
            deferred,
            bound,
        } = self;
        let column = p.enter as usize + 1;
        let done = turn_lines(alloc, &mut lines, place, place, column, bound)?;
        if !done {
            let same = Whole {
                variables,
                basic,
                lines,
                deferred,
                bound,
            };
            return Ok(Err(same));
        }
        forget_zero(&mut lines);
        basic[place] = p.enter;
        let after = Whole {
            variables,
            basic,
            lines,
            deferred: None,
            bound,
        };
        Ok(Ok(after))
    }

    /// A pivot by which a variable other than 0 leaves. Variable 0 stays deferred in row `k`: the
    /// stored rows are exchanged there, and the two rows change places.
    fn step_other(
        self,
        alloc: Global,
        p: Pivot,
        place: usize,
        k: usize,
    ) -> Result<Result<Whole, Whole>, AllocError>
        requires legal { IsLegal (integer_dictionary self) p place }
        requires later { p.enter ≢ 0 }
        requires off { self.deferred ≡ Some k }
        requires apart { place ≢ k }
        ensures { IfOk result (IsPivoted self p place) }
    {
        let Whole {
            variables,
            mut basic,
            mut lines,
            deferred,
            bound,
        } = self;
        let column = p.enter as usize + 1;
        let done = turn_lines(alloc, &mut lines, k, place, column, bound)?;
        if !done {
            let same = Whole {
                variables,
                basic,
                lines,
                deferred,
                bound,
            };
            return Ok(Err(same));
        }
        swap_lines(alloc, &mut lines, k, place);
        raise_at(&mut lines, k);
        basic[place] = p.enter;
        let after = Whole {
            variables,
            basic,
            lines,
            deferred: Some(k),
            bound,
        };
        Ok(Ok(after))
    }

    /// The dictionary after a legal pivot, as the inner `Ok`; or the same one, if its integers
    /// might exceed the bound. The only error is out of memory.
    fn turned(self, alloc: Global, p: Pivot) -> Result<Result<Whole, Whole>, AllocError>
        requires { (k : ℕ) × IsLegal (integer_dictionary self) p k }
        ensures exchanged { IfOk result (λ r. IfOk r (λ after. (k : ℕ) → slice_get self.basic k ≡ Some p.leave →
            integer_dictionary after ≡ exchanged (integer_dictionary self) p.enter k)) }
        ensures bound { IfOk result (λ r. IfOk r (λ after. after.bound ≡ self.bound)) }
        ensures same { IfOk result (λ r. IfErr r (λ same. (integer_dictionary same ≡ integer_dictionary self) × (same.bound ≡ self.bound))) }
        ensures none { IfOk result (λ r. IfErr r (λ same. (k : ℕ) → slice_get self.basic k ≡ Some p.leave → AreCrowded same p k)) }
    {
        let Some(place) = place_among(self.basic.as_slice(), p.leave) else {
            unreachable!();
        };
        if p.enter == 0 {
            return Ok(self.open(p, place));
        }
        let Some(k) = self.deferred else {
            return self.step_plain(alloc, p, place);
        };
        if place == k {
            return self.step_out(alloc, p, place);
        }
        self.step_other(alloc, p, place, k)
    }

    /// Whether each step of a legal pivot stays within the bound, by the integers of each two rows.
    fn fits(&self, p: Pivot) -> bool
        requires { (k : ℕ) × IsLegal (integer_dictionary self.now) p k }
        ensures fits { IsTrue result → (limit pivot k : ℕ) → self.now.bound ≤ limit → slice_get self.now.basic k ≡ Some p.leave →
            AllFit (exchange_steps limit pivot (integer_dictionary self.now) p.enter k) }
        ensures none { result ≡ false → (k : ℕ) → slice_get self.now.basic k ≡ Some p.leave →
            IsSomePairCrowded self.now.lines self.now.deferred k (p.enter + 1) self.now.bound }
    {
        let Some(place) = place_among(self.basic.as_slice(), p.leave) else {
            return false;
        };
        let column = p.enter as usize + 1;
        pairs_fit(
            self.lines.as_slice(),
            self.deferred,
            place,
            column,
            self.bound,
        )
    }

    /// The same dictionary, each row divided by the common divisor of its integers and denominator.
    /// The only error is out of memory.
    fn reduced(self, alloc: Global) -> Result<Whole, AllocError>
        ensures same { IfOk result (λ same. integer_dictionary same ≡ integer_dictionary self) }
        ensures bound { IfOk result (λ same. same.bound ≡ self.bound) }
    {
        let Whole {
            variables,
            basic,
            mut lines,
            deferred,
            bound,
        } = self;
        reduce_lines(alloc, &mut lines)?;
        let same = Whole {
            variables,
            basic,
            lines,
            deferred,
            bound,
        };
        Ok(same)
    }

    /// Makes the pivot `p`: `p.enter` becomes basic in the row of `p.leave`, and if variable 0
    /// leaves, its coefficients become 0. The inner `Ok` is the dictionary after the pivot; no step
    /// of the exchange computes a numerator or a denominator beyond the dictionary's bound. The
    /// inner `Err` is the dictionary before the pivot; it is returned only if an estimate of the
    /// magnitudes after the pivot exceeds the bound. The error is out of memory; the dictionary is
    /// then lost.
    ///
    /// The pivot `p` must be legal. If the constant of some row is below 0, variable 0 enters, and
    /// a variable whose row has the least constant leaves. Else, a variable enters whose rise
    /// lowers variable 0 if variable 0 is basic, or else raises the objective; and a variable
    /// leaves whose row has the least ratio, variable 0 if its row has it.
    pub fn pivot(self, alloc: Global, p: Pivot) -> Result<Result<Whole, Whole>, AllocError>
        requires { (k : ℕ) × IsLegal (integer_dictionary self) p k }
        ensures exchanged { IfOk result (λ r. IfOk r (λ after. (k : ℕ) → slice_get self.basic k ≡ Some p.leave →
            integer_dictionary after ≡ exchanged (integer_dictionary self) p.enter k)) }
        ensures bound { IfOk result (λ r. IfOk r (λ after. after.bound ≡ self.bound)) }
        ensures same { IfOk result (λ r. IfErr r (λ same. (integer_dictionary same ≡ integer_dictionary self) × (same.bound ≡ self.bound))) }
        ensures fits { IfOk result (λ r. IfOk r (λ _. (limit pivot k : ℕ) → self.bound ≤ limit → slice_get self.basic k ≡ Some p.leave →
            AllFit (exchange_steps limit pivot (integer_dictionary self) p.enter k))) }
        ensures none { IfOk result (λ r. IfErr r (λ same. (k : ℕ) → slice_get self.basic k ≡ Some p.leave → IsPivotCrowded same p k)) }
    {
        if self.fits(p) {
            return self.turned(alloc, p);
        }
        let same = self.reduced(alloc)?;
        if same.fits(p) {
            return same.turned(alloc, p);
        }
        Ok(Err(same))
    }

    /// A law on each dictionary of this type. A basic variable has coefficient 1 in its own row,
    /// and 0 in the other rows and the objective; if a row's constant is below 0, variable 0 has -1
    /// in each row; if variable 0 is basic, its row's constant is above 0. Column numbers have at
    /// most 32 bits, the bound 127. A row past the last has the objective's numbers, a column past
    /// the last 0.
    pub fn keeps(&self)
        ensures proper { IsProper (integer_dictionary self.now) }
        ensures sized { self.now.variables + 2 < 2 ^ 32 }
        ensures bound { self.now.bound < 2 ^ 127 }
        ensures past { (k c : ℕ) → length self.now.basic ≤ k → (integer_dictionary self.now).numbers k c ≡
            (integer_dictionary self.now).numbers (length self.now.basic) c }
        ensures outside { (k c : ℕ) → self.now.variables + 2 ≤ c → (integer_dictionary self.now).numbers k c ≡ whole (pos 0) }
    {
        let _bound = self.bound;
    }
}
