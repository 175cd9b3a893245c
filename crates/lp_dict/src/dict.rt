//! The dictionary and what is read from it.
ghost use Rattle.std.specs.Prelude.{◌≡◌, ◌<◌, ◌≤◌, ◌+◌, ◌^◌, ◌↔◌, ℕ, pos, List, map, slice_get, IsTrue, Some, Contains, MatchOption, IfOk, IfErr, length};
ghost use Rattle.gq_number.specs.Number.{Number, ratio, whole};
ghost use Rattle.lp_core.specs.Sums.{value_of_column};
ghost use Rattle.lp_core.specs.Pivots.{last_of};
ghost use Rattle.lp_core.specs.Dictionary.{basic_at, constant_at, entry_at, OpeningIsRequired, IsPriced, Improves, IsLeast, IsOpening, IsLegal, Meets, first_dictionary, exchanged, IsDictionaryOf, IsProper, IsLeaving};
ghost use Rattle.lp_core.specs.Counts.{counted};
ghost use Rattle.lp_core.specs.Steps.{AllFit, ratio_steps, exchange_steps};
ghost use Rattle.lp_core.specs.Ends.{IsPhase, IsReadAt, IsDone, last_with};
ghost use Rattle.lp_core.specs.LargestCoefficient.{HasGreatest};
ghost use Rattle.lp_core.specs.declared.program.Lp.{Lp};
ghost use Rattle.lp_core.specs.WellFormed.{IsWellFormed};
ghost use Rattle.lp_core.specs.StandardForm.{Standard as StandardNumbers, standard_form};
ghost use Rattle.lp_std.specs.Meaning.{standard_value};
ghost use Rattle.lp_std.specs.Last.{last_value};
ghost use Rattle.lp_fraction_dict.specs.Pivots.{IsLimit, StopsAtStep};
ghost use Rattle.lp_fraction_dict.specs.Tableau.{IsPlace};
ghost use Rattle.lp_dict.specs.Tableau.{dictionary};

use crate::body::Body;
use crate::number::number_at;
use crate::reading::opening_of;
use crate::turning::{begun, pivoted};
use crate::{last, reading};
use gq_field::ExactField;
use lp_core::{EndKind, Pivot, Sequence};
use lp_fraction_dict::{ExactDict, is_above_zero};
use lp_std::{Final, Standard, Stop};
use std::alloc::{AllocError, Global};
use std::marker::Model;

/// A dictionary of the simplex method: for each basic variable an equation, the row of this
/// variable, and one for the objective (Chvatal, Linear Programming, chapters 2 and 3). In a row
/// the sum of the coefficients times the variables equals the constant. The objective equals such a
/// sum less a constant. Variable 0 is the artificial variable of phase 1.
///
/// Each equation is stored as integers over a common denominator. Once an estimate exceeds a bound,
/// all are stored as reduced fractions from then on. The numbers of the dictionary do not depend on
/// the form.
#[derive(Drop)]
pub struct Dict<F: ExactField> {
    body: Body<F>,
}

impl<F: ExactField> Model for Dict<F> {
    ghost use Rattle.lp_dict.specs.Tableau.{Tableau, tableau, IsDictInvariant};

    ghost Value = { Tableau F };

    ghost view = { λ d. tableau F.value d.body };

    ghost invariant = { λ d. IsDictInvariant F.value F.limit d.body };
}

impl<F: ExactField> Dict<F> {
    /// The first dictionary of the standard form `s`, which must be that of a well-formed linear
    /// program. The slacks are basic. If some right side of `s` is below 0, the artificial variable
    /// 0 has coefficient -1 in each row and must enter in the opening pivot; otherwise it has
    /// coefficient 0 in each row. In the objective it has coefficient 0. The number of the next
    /// pivot is 1. The only error is out of memory.
    pub fn of(alloc: Global, s: &Standard<F>) -> Result<Dict<F>, AllocError>
        requires { (lp : Lp F) × IsWellFormed F.value lp × (standard_value F.value s.now ≡ standard_form F.value lp) }
        ensures first { IfOk result (λ d. dictionary F.value d ≡ first_dictionary (standard_value F.value s.now)) }
        ensures of_form { IfOk result (λ d. IsDictionaryOf (standard_value F.value s.now) (dictionary F.value d)) }
        ensures upcoming { IfOk result (λ d. d.upcoming ≡ 1) }
    {
        let dict = ExactDict::of(alloc, s)?;
        let body = begun(alloc, dict)?;
        Ok(Dict { body })
    }

    /// The greatest number of a variable. The variables have the numbers from 0 to this one.
    pub fn variables(&self) -> u32
        ensures { result ≡ self.now.variables }
    {
        match &self.body {
            Body::Whole(rows, _) => rows.variables(),
            Body::Exact(dict) => dict.variables(),
        }
    }

    /// Whether a variable is basic.
    pub fn is_basic(&self, v: u32) -> bool
        ensures { IsTrue result ↔ Contains self.now.basic v }
    {
        match &self.body {
            Body::Whole(rows, _) => reading::is_basic(rows, v),
            Body::Exact(dict) => dict.is_basic(v),
        }
    }

    /// A law of each dictionary; n is the greatest number of a variable. The basic variables are
    /// distinct. Each has coefficient 1 in its own row, and 0 in the other rows and in the
    /// objective, which is no row. If some row's constant is below 0, the artificial variable 0 has
    /// coefficient -1 in each row. While variable 0 is basic, its row's constant is above 0. There
    /// are at most n rows. There are n + 2 columns, fewer than 2^32: the constant, and variables 0
    /// to n.
    pub fn keeps(&self)
        ensures proper { IsProper (dictionary F.value self.now) }
        ensures few { length self.now.basic ≤ self.now.variables }
        ensures sized { self.now.variables + 2 < 2 ^ 32 }
    {
        match &self.body {
            Body::Whole(rows, _) => rows.keeps(),
            Body::Exact(dict) => dict.keeps(),
        }
    }

    /// How many rows there are, that is, how many basic variables. The objective is not counted.
    pub fn len(&self) -> usize
        ensures { result ≡ length self.now.basic }
    {
        match &self.body {
            Body::Whole(rows, _) => rows.basic().len(),
            Body::Exact(dict) => dict.basic().len(),
        }
    }

    /// The index, from 0, of the row in which variable `v` is basic; `None` if it is not basic.
    pub fn row_of(&self, v: u32) -> Option<usize>
        ensures { IsPlace self.now.basic v result }
    {
        match &self.body {
            Body::Whole(rows, _) => rows.place_of(v),
            Body::Exact(dict) => reading::place_among(dict.basic(), v),
        }
    }

    /// The number in column `column` of row `row`. Rows count from 0, and the objective follows the
    /// last row. Column 0 has the constant, and column v + 1 the coefficient of variable v. In a
    /// row the sum of the coefficients times the variables equals the constant. The objective
    /// equals such a sum less its constant. The row and the column must exist.
    pub fn number(&self, row: usize, column: usize) -> F
        requires row { row ≤ length self.now.basic }
        requires column { column ≤ self.now.variables + 1 }
        ensures { F.value result ≡ (dictionary F.value self.now).numbers row column }
    {
        match &self.body {
            Body::Whole(rows, _) => number_at(rows, row, column),
            Body::Exact(dict) => reading::number_of(dict, row, column),
        }
    }

    /// The number in column `column` of row `row`: a numerator and a denominator above 0, perhaps
    /// not reduced. Rows count from 0, and the objective follows the last. Column 0 has the
    /// constant, and column v + 1 the coefficient of variable v. In a row the sum of the
    /// coefficients times the variables equals the constant. The objective equals such a sum less
    /// its constant. Row and column must exist.
    #[inline(always)]
    pub fn fraction(&self, row: usize, column: usize) -> (i128, u128)
        requires row { row ≤ length self.now.basic }
        requires column { column ≤ self.now.variables + 1 }
        ensures value { ratio result.0 result.1 ≡ (dictionary F.value self.now).numbers row column }
        ensures positive { 0 < result.1 }
    {
        match &self.body {
            Body::Whole(rows, _) => {
                let fraction = rows.number(row, column);
                (fraction.numerator, fraction.denominator)
            }
            Body::Exact(dict) => {
                let number = reading::number_of(dict, row, column);
                number.parts()
            }
        }
    }

    /// The phase of the simplex method: 1 if the artificial variable 0 is basic, or if the constant
    /// of some basic variable is below 0, so that variable 0 must enter in the opening pivot;
    /// otherwise 2.
    pub fn phase(&self) -> u8
        ensures { IsPhase (dictionary F.value self.now) result }
    {
        if self.is_basic(0) || self.opening().is_some() {
            1
        } else {
            2
        }
    }

    /// The constant of the row in which variable `v` is basic, which is the value of `v`; 0 if `v`
    /// is not basic.
    pub fn amount(&self, v: u32) -> F
        ensures basic { (k : ℕ) → slice_get self.now.basic k ≡ Some v → F.value result ≡ constant_at (dictionary F.value self.now) k }
        ensures other { ¬ (Contains self.now.basic v) → F.value result ≡ whole (pos 0) }
    {
        match &self.body {
            Body::Whole(rows, _) => reading::amount(rows, v),
            Body::Exact(dict) => dict.amount(v),
        }
    }

    /// The coefficient of variable `other` in the row in which `basic` is basic, where the sum of
    /// the coefficients times the variables equals the constant. The result is 0 if `basic` is not
    /// basic, if `other` is basic (also `basic` itself), and if `other` is no variable.
    pub fn entry(&self, basic: u32, other: u32) -> F
        ensures row { (k : ℕ) → slice_get self.now.basic k ≡ Some basic → ¬ (Contains self.now.basic other) → F.value result ≡
            entry_at (dictionary F.value self.now) k other }
        ensures not_basic { ¬ (Contains self.now.basic basic) → F.value result ≡ whole (pos 0) }
        ensures both_basic { Contains self.now.basic other → F.value result ≡ whole (pos 0) }
        ensures no_variable { self.now.variables < other → F.value result ≡ whole (pos 0) }
    {
        match &self.body {
            Body::Whole(rows, _) => reading::entry(rows, basic, other),
            Body::Exact(dict) => dict.entry(basic, other),
        }
    }

    /// The coefficient of variable `v` in the priced row, that of the artificial variable 0 while
    /// it is basic, else the objective. In the row of variable 0 the sum of the coefficients times
    /// the variables equals the constant. The result is 0 if `v` is basic or no variable.
    pub fn coefficient(&self, v: u32) -> F
        ensures priced { (k : ℕ) → IsPriced (dictionary F.value self.now) k → ¬ (Contains self.now.basic v) → F.value result ≡
            entry_at (dictionary F.value self.now) k v }
        ensures basic { Contains self.now.basic v → F.value result ≡ whole (pos 0) }
        ensures no_variable { self.now.variables < v → F.value result ≡ whole (pos 0) }
    {
        match &self.body {
            Body::Whole(rows, _) => reading::coefficient(rows, v),
            Body::Exact(dict) => dict.coefficient(v),
        }
    }

    /// Whether variable `v` improves: it is neither basic nor variable 0, and has a coefficient
    /// above 0 in the priced row, that of the artificial variable 0 while it is basic, else the
    /// objective. The row of variable 0 equates the sum of its terms with a constant, so variable 0
    /// falls as an improving variable rises. False if `v` is no variable.
    pub fn improves(&self, v: u32) -> bool
        ensures { IsTrue result ↔ Improves (dictionary F.value self.now) v }
    {
        if v == 0 {
            return false;
        }
        if v > self.variables() {
            return false;
        }
        if self.is_basic(v) {
            return false;
        }
        is_above_zero(self.coefficient(v))
    }

    /// The opening pivot by Bland's choice: the artificial variable 0 enters, and of the basic
    /// variables with the least constant the one with the least number leaves. `None` exactly if no
    /// basic variable's constant is below 0: no opening pivot is required.
    pub fn opening(&self) -> Option<Pivot>
        ensures { MatchOption result (¬ (OpeningIsRequired (dictionary F.value self.now)))
            (λ p. ((k : ℕ) × IsOpening (dictionary F.value self.now) p k) ×
            ((i : ℕ) → IsLeast (dictionary F.value self.now) i → p.leave ≤ basic_at (dictionary F.value self.now) i)) }
    {
        match &self.body {
            Body::Whole(rows, upcoming) => opening_of(rows, *upcoming),
            Body::Exact(dict) => dict.opening(),
        }
    }

    /// The improving variable with the least number; `None` exactly if no variable improves. A
    /// variable improves if it is neither basic nor variable 0 and has a coefficient above 0 in the
    /// priced row, that of the artificial variable 0 while it is basic, else the objective. The row
    /// of variable 0 equates the sum of its terms with a constant, so variable 0 falls as an
    /// improving variable rises. No basic variable's constant may be below 0.
    pub fn entering(&self) -> Option<u32>
        requires { ¬ (OpeningIsRequired (dictionary F.value self.now)) }
        ensures { MatchOption result ((v : ℕ) → ¬ (Improves (dictionary F.value self.now) v))
            (λ q. Improves (dictionary F.value self.now) q × ((v : ℕ) → Improves (dictionary F.value self.now) v → q ≤ v)) }
    {
        match &self.body {
            Body::Whole(rows, _) => rows.entering(),
            Body::Exact(dict) => dict.entering(),
        }
    }

    /// The improving variable with the greatest coefficient in the priced row, of those that tie
    /// the one with the least number; `None` exactly if no variable improves. A variable improves
    /// if it is neither basic nor variable 0 and its coefficient in the priced row is above 0. This
    /// row is that of the artificial variable 0 while that is basic, and else the objective.
    /// The row of variable 0 equates its terms' sum with a constant, so variable 0 falls as an
    /// improving variable rises. No basic variable's constant may be below 0.
    pub fn greatest(&self) -> Option<u32>
        requires { ¬ (OpeningIsRequired (dictionary F.value self.now)) }
        ensures { MatchOption result ((v : ℕ) → ¬ (Improves (dictionary F.value self.now) v)) (HasGreatest (dictionary F.value self.now)) }
    {
        match &self.body {
            Body::Whole(rows, _) => rows.greatest(),
            Body::Exact(dict) => dict.greatest(),
        }
    }

    /// The variable that leaves when the variable `enter` enters: of those that tie in the ratio
    /// test the one with the least number. `None` exactly if no row limits the rise of `enter`. The
    /// variable `enter` must improve: a rise of `enter` lowers the artificial variable 0 while
    /// variable 0 is basic, and otherwise raises the objective.
    ///
    /// The only error is `Limit`, with the first ratio, in the order of the rows, whose numerator
    /// or denominator is above `F.limit`.
    pub fn leaving(&self, enter: u32) -> Result<Option<u32>, Stop>
        requires { Improves (dictionary F.value self.now) enter }
        ensures fits { IfOk result (λ _. AllFit (ratio_steps F.limit self.now.upcoming (dictionary F.value self.now) enter)) }
        ensures choice { IfOk result (IsLeaving (dictionary F.value self.now) enter) }
        ensures limit { IfErr result (IsLimit (ratio_steps F.limit self.now.upcoming (dictionary F.value self.now) enter)) }
    {
        match &self.body {
            Body::Whole(rows, _) => Ok(rows.leaving(enter)),
            Body::Exact(dict) => dict.leaving(enter),
        }
    }

    /// The dictionary after the legal pivot `p`: `p.enter` becomes basic in the row of `p.leave`.
    /// If some basic variable's constant is below 0, `p` is an opening pivot: the artificial
    /// variable 0 enters, and a basic variable with the least constant leaves. Otherwise an
    /// improving variable enters (`improves`), and a variable that ties in the ratio test leaves:
    /// variable 0, if it ties.
    ///
    /// If variable 0 leaves, its coefficients become 0. Apart from this, a row in which `p.enter`
    /// has coefficient 0 is unchanged. A point (with variable 0 at 0 if variable 0 leaves)
    /// satisfies the dictionary after the pivot, with the same objective, exactly if it satisfies
    /// the one before. After the pivot no opening pivot is required. The next pivot's number rises
    /// by 1, unless it is 2^64 - 1 already.
    ///
    /// The error `Limit` has the first step that computes a numerator or a denominator above
    /// `F.limit` in magnitude. The steps of the row of `p.leave` come first, then those of the
    /// other rows in order, and those of the objective last. `Memory` means out of memory.
    /// `Crossed` does not occur. After an error the dictionary is lost.
    pub fn pivot(self, alloc: Global, p: Pivot) -> Result<Dict<F>, Stop>
        requires { (k : ℕ) × IsLegal (dictionary F.value self) p k }
        ensures exchanged { IfOk result (λ after. (k : ℕ) → slice_get self.basic k ≡ Some p.leave →
            dictionary F.value after ≡ exchanged (dictionary F.value self) p.enter k) }
        ensures fits { IfOk result (λ _. (k : ℕ) → slice_get self.basic k ≡ Some p.leave →
            AllFit (exchange_steps F.limit self.upcoming (dictionary F.value self) p.enter k)) }
        ensures same_points { IfOk result (λ after. (x : List Number) (objective : Number) →
            (p.leave ≡ 0 → value_of_column x 0 ≡ whole (pos 0)) →
            Meets (dictionary F.value self) x objective ↔ Meets (dictionary F.value after) x objective) }
        ensures of_form { IfOk result (λ after. (s : StandardNumbers) →
            IsDictionaryOf s (dictionary F.value self) → IsDictionaryOf s (dictionary F.value after)) }
        ensures not_required { IfOk result (λ after. ¬ (OpeningIsRequired (dictionary F.value after))) }
        ensures upcoming { IfOk result (λ after. after.upcoming ≡ counted (self.upcoming + 1)) }
        ensures limit { IfErr result (λ stop. (k : ℕ) → slice_get self.basic k ≡ Some p.leave →
            StopsAtStep (exchange_steps F.limit self.upcoming (dictionary F.value self) p.enter k) stop) }
    {
        let Dict { body } = self;
        let body = pivoted(alloc, body, p)?;
        Ok(Dict { body })
    }

    /// The value of each variable when the nonbasic ones are 0.
    fn values(&self, alloc: Global) -> Result<Vec<F>, AllocError>
        ensures { IfOk result (λ list. map F.value list.items ≡ (last_of (dictionary F.value self.now)).values) }
    {
        match &self.body {
            Body::Whole(rows, _) => last::values(alloc, rows),
            Body::Exact(dict) => dict.values(alloc),
        }
    }

    /// The coefficient of each variable in the priced row; 0 for a basic one.
    fn costs(&self, alloc: Global) -> Result<Vec<F>, AllocError>
        ensures { IfOk result (λ list. map F.value list.items ≡ (last_of (dictionary F.value self.now)).costs) }
    {
        match &self.body {
            Body::Whole(rows, _) => last::costs(alloc, rows),
            Body::Exact(dict) => dict.costs(alloc),
        }
    }

    /// The change of each variable when this one rises by 1; empty without one.
    fn ray(&self, alloc: Global, enter: Option<u32>) -> Result<Vec<F>, AllocError>
        requires { IsDone (dictionary F.value self.now) enter }
        ensures { IfOk result (λ list. map F.value list.items ≡ (last_with (dictionary F.value self.now) enter).changes) }
    {
        let Some(variable) = enter else {
            return Ok(Vec::new(alloc));
        };
        match &self.body {
            Body::Whole(rows, _) => last::ray(alloc, rows, variable),
            Body::Exact(dict) => dict.ray(alloc, enter),
        }
    }

    /// How the search ends at this dictionary.
    fn kind(&self, enter: Option<u32>) -> EndKind
        requires { IsDone (dictionary F.value self.now) enter }
        ensures { IsReadAt (dictionary F.value self.now) result (last_with (dictionary F.value self.now) enter) }
    {
        if enter.is_some() {
            return EndKind::Unbounded;
        }
        if self.is_basic(0) {
            return EndKind::Infeasible;
        }
        match self.entering() {
            Some(_) => EndKind::Interrupted,
            None => EndKind::Optimal,
        }
    }

    /// What is read from the final dictionary: the kind of the end, each variable's value and
    /// coefficient in the priced row, and the ray, empty if `enter` is `None`. The priced row is
    /// that of the artificial variable 0 while it is basic (phase 1), else the objective (phase 2).
    ///
    /// No opening pivot may be required, and one of these must be true of `enter`:
    /// - In phase 2 it is an improving variable whose rise no row limits. The kind is `Unbounded`,
    ///   and the ray is each variable's change when `enter` rises by 1.
    /// - It is `None`, and no variable improves: `Optimal` in phase 2, `Infeasible` in phase 1.
    /// - In phase 2 it is `None`, and a variable improves: `Interrupted`.
    ///
    /// The only error is out of memory.
    pub fn done(&self, alloc: Global, enter: Option<u32>) -> Result<Final<F>, AllocError>
        requires { IsDone (dictionary F.value self.now) enter }
        ensures kind { IfOk result (λ final. IsReadAt (dictionary F.value self.now) final.kind (last_with (dictionary F.value self.now) enter)) }
        ensures read { IfOk result (λ final. last_value F.value final ≡ last_with (dictionary F.value self.now) enter) }
    {
        let values = self.values(alloc)?;
        let costs = self.costs(alloc)?;
        let ray = self.ray(alloc, enter)?;
        Ok(Final {
            kind: self.kind(enter),
            values: Sequence::new(values),
            costs: Sequence::new(costs),
            ray: Sequence::new(ray),
        })
    }
}
