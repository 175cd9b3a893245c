//! The dictionary and what is read from it.
ghost use Rattle.std.specs.Prelude.{◌≡◌, ◌<◌, ◌≤◌, ◌+◌, ◌↔◌, ℕ, pos, List, map, slice_get, IsTrue, Some, Contains, MatchOption, IfOk, IfErr};
ghost use Rattle.gq_number.specs.Number.{Number, whole};
ghost use Rattle.lp_core.specs.Ends.{IsDone, last_with};
ghost use Rattle.lp_core.specs.Sums.{value_of_column};
ghost use Rattle.lp_core.specs.Dictionary.{basic_at, constant_at, entry_at, OpeningIsRequired, IsPriced, Improves, IsLeast, IsOpening, IsLegal, Meets, first_dictionary, exchanged, IsDictionaryOf, IsLeaving};
ghost use Rattle.lp_core.specs.Counts.{counted};
ghost use Rattle.lp_core.specs.Steps.{AllFit, ratio_steps, exchange_steps};
ghost use Rattle.lp_core.specs.Pivots.{last_of};
ghost use Rattle.lp_core.specs.LargestCoefficient.{HasGreatest};
ghost use Rattle.lp_core.specs.declared.program.Lp.{Lp};
ghost use Rattle.lp_core.specs.WellFormed.{IsWellFormed};
ghost use Rattle.lp_core.specs.StandardForm.{Standard as StandardNumbers, standard_form};
ghost use Rattle.lp_std.specs.Meaning.{standard_value};
ghost use Rattle.lp_fraction_dict.specs.Rows.{IsRow};
ghost use Rattle.lp_fraction_dict.specs.Lines.{entries_of_rows};
ghost use Rattle.lp_fraction_dict.specs.Tableau.{fraction_tableau, fraction_dictionary, IsTableau, IsPlace};
ghost use Rattle.lp_fraction_dict.specs.InnerPricing.{IsFirstAbove};
ghost use Rattle.lp_fraction_dict.specs.Pivots.{IsLimit, StopsAtStep};

use crate::choice::{is_above_zero, least_constant, least_ratio};
use crate::coefficients::greatest_above;
use crate::exchange::{forget_leaving, turn};
use crate::first::{is_some_below, numbers_from, objective_row, rows_with_slacks};
use crate::last::{by_column, by_variable, changes};
use crate::row::{Entry, number_at, number_of_row};
use gq_field::ExactField;
use lp_core::{Pivot, StepName};
use lp_std::{Standard, Stop};
use std::alloc::{AllocError, Global};
use std::marker::Model;

/// A dictionary whose numbers are stored as fractions: an equation (row) for each basic variable,
/// and the objective (Chvatal, Linear Programming, chapters 2 and 3). In a row the sum of the
/// coefficients times the variables is the constant. The objective is such a sum less its constant.
///
/// Only numbers other than 0 are stored, as reduced fractions. Variable 0 is the artificial
/// variable of phase 1.
#[derive(Drop)]
pub struct ExactDict<F: ExactField> {
    variables: u32,
    basic: Vec<u32>,
    rows: Vec<Vec<Entry<F>>>,
    objective: Vec<Entry<F>>,
    upcoming: u64,
}

impl<F: ExactField> Model for ExactDict<F> {
    ghost use Rattle.std.specs.Prelude.{map};
    ghost use Rattle.lp_fraction_dict.specs.Lines.{entries_of_rows};
    ghost use Rattle.lp_fraction_dict.specs.Tableau.{FractionTableau, IsTableau};

    ghost Value = { FractionTableau F };

    ghost view = { λ d. record { variables = d.variables; basic = d.basic.items; rows = entries_of_rows d.rows.items; objective = d.objective.items; upcoming = d.upcoming } };

    ghost invariant = { λ d. IsTableau F.value (record { variables = d.variables; basic = d.basic.items; rows = entries_of_rows d.rows.items; objective = d.objective.items; upcoming = d.upcoming }) };
}

/// The place of a variable among the basic ones.
fn place_of(basic: &[u32], variable: u32) -> Option<usize>
    ensures { IsPlace basic.now variable result }
{
    for (i, other) in basic.iter().enumerate() {
        if *other == variable {
            return Some(i);
        }
    }
    None
}

/// The variable of the first entry from variable 1 on whose number is above 0.
fn first_above<F: ExactField>(row: &[Entry<F>]) -> Option<u32>
    requires { (high : ℕ) × IsRow F.value 0 high row.now }
    ensures { IsFirstAbove F.value row.now result }
{
    for entry in row {
        if entry.column >= 2 && is_above_zero(entry.number) {
            return Some(entry.column - 1);
        }
    }
    None
}

impl<F: ExactField> ExactDict<F> {
    /// The dictionary with these rows and this objective. `basic` has the basic variable of each
    /// row, `variables` is the greatest number of a variable, and `upcoming` is the number of the
    /// next pivot, from 1. Column 0 is for the constants, and column v + 1 for variable v.
    ///
    /// The caller must prove that the entries of the objective and of each row are not 0, ascend by
    /// column, and have no column above `variables + 1`. Each basic variable must occur only in its
    /// own row, with coefficient 1. Variable 0 must have coefficient -1 in each row if some row's
    /// constant is below 0. If variable 0 is basic, its row's constant must be above 0. There must
    /// be as many rows as basic variables, and at most `variables`; `variables` must be below
    /// 2^32 - 2.
    pub fn of_rows(
        variables: u32,
        basic: Vec<u32>,
        rows: Vec<Vec<Entry<F>>>,
        objective: Vec<Entry<F>>,
        upcoming: u64,
    ) -> ExactDict<F>
        requires { IsTableau F.value (fraction_tableau variables basic.items (entries_of_rows rows.items) objective.items upcoming) }
        ensures { result ≡ fraction_tableau variables basic.items (entries_of_rows rows.items) objective.items upcoming }
    {
        ExactDict {
            variables,
            basic,
            rows,
            objective,
            upcoming,
        }
    }

    /// A law: each dictionary satisfies its invariant. It has a row for each basic variable, and an
    /// objective, which is no row. Rows and objective have entries by ascending column, none 0. The
    /// basic variables are distinct. Each has coefficient 1 in its own row, and 0 in the other rows
    /// and in the objective. If some row's constant is below 0, variable 0 has coefficient -1 in
    /// each row. While variable 0 is basic, the constant of its row is above 0. With n the greatest
    /// number of a variable, there are at most n rows, and n + 2 columns with that of the
    /// constants; n + 2 is below 2^32.
    pub fn keeps(&self)
        ensures { IsTableau F.value self.now }
    {
        let _ = &self.rows;
    }

    /// The greatest number of a variable. The variables have the numbers from 0 to this one.
    pub fn variables(&self) -> u32
        ensures { result ≡ self.now.variables }
    {
        self.variables
    }

    /// The number of the basic variable of each row, in the order of the rows.
    pub fn basic(&self) -> &[u32]
        ensures { result.now ≡ self.now.basic }
    {
        self.basic.as_slice()
    }

    /// The entries of each row, by ascending column. A coefficient or a constant that is 0 has no
    /// entry.
    pub fn rows(&self) -> &[Vec<Entry<F>>]
        ensures { entries_of_rows result.now ≡ self.now.rows }
    {
        self.rows.as_slice()
    }

    /// The entries of the objective, by ascending column. A coefficient or a constant that is 0 has
    /// no entry.
    pub fn objective(&self) -> &[Entry<F>]
        ensures { result.now ≡ self.now.objective }
    {
        self.objective.as_slice()
    }

    /// The first dictionary of `s`, the standard form of a well-formed linear program; the slacks
    /// are basic. If some right side is below 0, variable 0 has coefficient -1 in each row, and
    /// must enter in the opening pivot. The next pivot has the number 1. The only error is out of
    /// memory.
    pub fn of(alloc: Global, s: &Standard<F>) -> Result<ExactDict<F>, AllocError>
        requires { (lp : Lp F) × IsWellFormed F.value lp × (standard_value F.value s.now ≡ standard_form F.value lp) }
        ensures first { IfOk result (λ d. fraction_dictionary F.value d ≡ first_dictionary (standard_value F.value s.now)) }
        ensures of_form { IfOk result (λ d. IsDictionaryOf (standard_value F.value s.now) (fraction_dictionary F.value d)) }
        ensures upcoming { IfOk result (λ d. d.upcoming ≡ 1) }
    {
        let rows = s.rows.as_slice();
        let slack = s.objective.len() as u32 + 1;
        let needed = is_some_below(rows);
        Ok(ExactDict {
            variables: slack - 1 + rows.len() as u32,
            basic: numbers_from(alloc, slack, rows.len())?,
            rows: rows_with_slacks(alloc, rows, needed, slack)?,
            objective: objective_row(alloc, s)?,
            upcoming: 1,
        })
    }

    /// Whether a variable is basic.
    pub fn is_basic(&self, v: u32) -> bool
        ensures { IsTrue result ↔ Contains self.now.basic v }
    {
        place_of(self.basic.as_slice(), v).is_some()
    }

    /// The constant of the row in which variable `v` is basic; 0 if it is not basic.
    pub fn amount(&self, v: u32) -> F
        ensures basic { (k : ℕ) → slice_get self.now.basic k ≡ Some v → F.value result ≡ constant_at (fraction_dictionary F.value self.now) k }
        ensures other { ¬ (Contains self.now.basic v) → F.value result ≡ whole (pos 0) }
    {
        match place_of(self.basic.as_slice(), v) {
            Some(place) => number_of_row(self.rows.as_slice(), place, 0),
            None => F::zero(),
        }
    }

    /// The coefficient of the variable `other` in the row in which `basic` is basic. A row is an
    /// equation: the sum of all coefficients times their variables is the constant. The result is 0
    /// if `other` is basic, even if `other` is `basic` itself, whose coefficient in the row is 1.
    /// The result is also 0 if `basic` is not basic, and if `other` is no variable, that is,
    /// exceeds the greatest number of a variable.
    pub fn entry(&self, basic: u32, other: u32) -> F
        ensures row { (k : ℕ) → slice_get self.now.basic k ≡ Some basic → ¬ (Contains self.now.basic other) → F.value result ≡
            entry_at (fraction_dictionary F.value self.now) k other }
        ensures not_basic { ¬ (Contains self.now.basic basic) → F.value result ≡ whole (pos 0) }
        ensures both_basic { Contains self.now.basic other → F.value result ≡ whole (pos 0) }
        ensures no_variable { self.now.variables < other → F.value result ≡ whole (pos 0) }
    {
        if other > self.variables {
            return F::zero();
        }
        if self.is_basic(other) {
            return F::zero();
        }
        match place_of(self.basic.as_slice(), basic) {
            Some(place) => number_of_row(self.rows.as_slice(), place, other + 1),
            None => F::zero(),
        }
    }

    /// The coefficient of variable `v` in the priced row. While variable 0 is basic, the priced row
    /// is that of variable 0, in which the sum of the terms equals the constant. Otherwise it is
    /// the objective, which equals the sum of its terms less its constant. The result is 0 if `v`
    /// is basic or no variable, that is, exceeds the greatest number of a variable.
    pub fn coefficient(&self, v: u32) -> F
        ensures priced { (k : ℕ) → IsPriced (fraction_dictionary F.value self.now) k → ¬ (Contains self.now.basic v) →
            F.value result ≡ entry_at (fraction_dictionary F.value self.now) k v }
        ensures basic { Contains self.now.basic v → F.value result ≡ whole (pos 0) }
        ensures no_variable { self.now.variables < v → F.value result ≡ whole (pos 0) }
    {
        if v > self.variables {
            return F::zero();
        }
        if self.is_basic(v) {
            return F::zero();
        }
        match place_of(self.basic.as_slice(), 0) {
            Some(place) => number_of_row(self.rows.as_slice(), place, v + 1),
            None => number_at(self.objective.as_slice(), v + 1),
        }
    }

    /// The opening pivot by Bland's choice: variable 0 enters, and of the basic variables whose
    /// rows have the least constant, the one with the least number leaves. `None` exactly if no
    /// row's constant is below 0; the objective is no row.
    pub fn opening(&self) -> Option<Pivot>
        ensures { MatchOption result (¬ (OpeningIsRequired (fraction_dictionary F.value self.now)))
            (λ p. ((k : ℕ) × IsOpening (fraction_dictionary F.value self.now) p k) ×
            ((i : ℕ) → IsLeast (fraction_dictionary F.value self.now) i → p.leave ≤
            basic_at (fraction_dictionary F.value self.now) i)) }
    {
        match least_constant(self.rows.as_slice(), self.basic.as_slice()) {
            Some(candidate) => Some(Pivot {
                enter: 0,
                leave: candidate.variable,
            }),
            None => None,
        }
    }

    /// The improving variable with the least number; `None` exactly if no variable improves. A
    /// variable improves if it is neither basic nor variable 0 and has a coefficient above 0 in the
    /// priced row: the row of variable 0 while this is basic, else the objective. The terms of a
    /// row sum to its constant, so variable 0 falls as an improving variable rises. The caller must
    /// prove that no row's constant is below 0.
    pub fn entering(&self) -> Option<u32>
        requires { ¬ (OpeningIsRequired (fraction_dictionary F.value self.now)) }
        ensures { MatchOption result ((v : ℕ) → ¬ (Improves (fraction_dictionary F.value self.now) v))
            (λ q. Improves (fraction_dictionary F.value self.now) q × ((v : ℕ) → Improves (fraction_dictionary F.value self.now) v → q ≤ v)) }
    {
        match place_of(self.basic.as_slice(), 0) {
            Some(place) => first_above(self.rows[place].as_slice()),
            None => first_above(self.objective.as_slice()),
        }
    }

    /// Of the improving variables, the one with the greatest coefficient in the priced row, and of
    /// several the one with the least number; `None` exactly if none improves. The priced row is
    /// that of variable 0 if variable 0 is basic, else the objective. A variable improves if it is
    /// neither basic nor variable 0 and its coefficient in the priced row is above 0. The terms of
    /// a row sum to its constant, so variable 0 falls as such a variable rises. The caller must
    /// prove that no row's constant is below 0.
    pub fn greatest(&self) -> Option<u32>
        requires { ¬ (OpeningIsRequired (fraction_dictionary F.value self.now)) }
        ensures { MatchOption result ((v : ℕ) → ¬ (Improves (fraction_dictionary F.value self.now) v)) (HasGreatest (fraction_dictionary F.value self.now)) }
    {
        match place_of(self.basic.as_slice(), 0) {
            Some(place) => greatest_above(self.rows[place].as_slice()),
            None => greatest_above(self.objective.as_slice()),
        }
    }

    /// The variable that leaves when `enter` enters. A row limits `enter` if its coefficient of
    /// `enter` is above 0; its ratio is its constant over this coefficient. Of the basic variables
    /// of rows with the least ratio the one with the least number leaves; `None` exactly if no row
    /// limits `enter`.
    ///
    /// `enter` must improve: it is neither basic nor variable 0. Its coefficient is above 0 in the
    /// row of variable 0 if variable 0 is basic, else in the objective. `Limit`, the only error,
    /// names the first row whose ratio has a numerator or denominator above the field's limit.
    pub fn leaving(&self, enter: u32) -> Result<Option<u32>, Stop>
        requires { Improves (fraction_dictionary F.value self.now) enter }
        ensures fits { IfOk result (λ _. AllFit (ratio_steps F.limit self.now.upcoming (fraction_dictionary F.value self.now) enter)) }
        ensures choice { IfOk result (IsLeaving (fraction_dictionary F.value self.now) enter) }
        ensures limit { IfErr result (IsLimit (ratio_steps F.limit self.now.upcoming (fraction_dictionary F.value self.now) enter)) }
    {
        match least_ratio(self.rows.as_slice(), self.basic.as_slice(), enter + 1) {
            Ok(best) => match best {
                Some(candidate) => Ok(Some(candidate.variable)),
                None => Ok(None),
            },
            Err(place) => Err(Stop::Limit(StepName::Ratio {
                pivot: self.upcoming,
                row: place as u32 + 1,
            })),
        }
    }

    /// The dictionary after the legal pivot `p`: `p.enter` becomes basic in the row of `p.leave`.
    /// If some row's constant is below 0, variable 0 enters, and the basic variable of a row with
    /// the least constant leaves. Else a variable enters that is neither basic nor variable 0 and
    /// has a coefficient above 0 in the row of variable 0, or in the objective if variable 0 is not
    /// basic. A basic variable with the least ratio leaves: variable 0 if it has the least ratio.
    ///
    /// If variable 0 leaves, its coefficients become 0. Rows without `p.enter` are otherwise
    /// unchanged. A point satisfies the dictionary after the pivot, with the same objective,
    /// exactly if it satisfies the one before. If variable 0 leaves, this holds for points at which
    /// it is 0. After the pivot no row's constant is below 0. A dictionary of a standard form
    /// remains one of this form. The next pivot's number rises by 1, up to 2^64 - 1.
    ///
    /// `Limit` names the first step that computes a numerator or denominator above the field's
    /// limit. The steps of the row of `p.leave` come first, then those of the other rows in order,
    /// then those of the objective. `Memory` means out of memory. `Crossed` does not occur.
    pub fn pivot(self, alloc: Global, p: Pivot) -> Result<ExactDict<F>, Stop>
        requires { (k : ℕ) × IsLegal (fraction_dictionary F.value self) p k }
        ensures exchanged { IfOk result (λ after. (k : ℕ) → slice_get self.basic k ≡ Some p.leave →
            fraction_dictionary F.value after ≡ exchanged (fraction_dictionary F.value self) p.enter k) }
        ensures fits { IfOk result (λ _. (k : ℕ) → slice_get self.basic k ≡ Some p.leave →
            AllFit (exchange_steps F.limit self.upcoming (fraction_dictionary F.value self) p.enter k)) }
        ensures same_points { IfOk result (λ after. (x : List Number) (objective : Number) →
            (p.leave ≡ 0 → value_of_column x 0 ≡ whole (pos 0)) →
            Meets (fraction_dictionary F.value self) x objective ↔ Meets (fraction_dictionary F.value after) x objective) }
        ensures of_form { IfOk result (λ after. (s : StandardNumbers) →
            IsDictionaryOf s (fraction_dictionary F.value self) → IsDictionaryOf s (fraction_dictionary F.value after)) }
        ensures not_required { IfOk result (λ after. ¬ (OpeningIsRequired (fraction_dictionary F.value after))) }
        ensures upcoming { IfOk result (λ after. after.upcoming ≡ counted (self.upcoming + 1)) }
        ensures limit { IfErr result (λ stop. (k : ℕ) → slice_get self.basic k ≡ Some p.leave →
            StopsAtStep (exchange_steps F.limit self.upcoming (fraction_dictionary F.value self) p.enter k) stop) }
    {
        let ExactDict {
            variables,
            mut basic,
            mut rows,
            mut objective,
            upcoming,
        } = self;
        let Some(place) = place_of(basic.as_slice(), p.leave) else {
            unreachable!();
        };
        if let Err(fault) = turn(alloc, &mut rows, &mut objective, place, p.enter + 1) {
            return Err(fault.stop(upcoming));
        }
        forget_leaving(p.leave, &mut rows, &mut objective);
        basic[place] = p.enter;
        Ok(ExactDict {
            variables,
            basic,
            rows,
            objective,
            upcoming: upcoming.saturating_add(1),
        })
    }

    /// The value of each variable, by its number, when the nonbasic ones are 0. The only error is
    /// out of memory.
    pub fn values(&self, alloc: Global) -> Result<Vec<F>, AllocError>
        ensures { IfOk result (λ list. map F.value list.items ≡ (last_of (fraction_dictionary F.value self.now)).values) }
    {
        let count = self.variables as usize + 1;
        by_variable(alloc, self.rows.as_slice(), self.basic.as_slice(), count, 0)
    }

    /// The coefficient of each variable, by number, in the priced row; 0 for a basic variable. The
    /// priced row is the objective unless variable 0 is basic; then it is the row of variable 0, in
    /// which the sum of the terms equals the constant. The only error is out of memory.
    pub fn costs(&self, alloc: Global) -> Result<Vec<F>, AllocError>
        ensures { IfOk result (λ list. map F.value list.items ≡ (last_of (fraction_dictionary F.value self.now)).costs) }
    {
        let count = self.variables as usize + 1;
        let Some(place) = place_of(self.basic.as_slice(), 0) else {
            return by_column(alloc, self.objective.as_slice(), count);
        };
        let mut costs = by_column(alloc, self.rows[place].as_slice(), count)?;
        costs[0] = F::zero();
        Ok(costs)
    }

    /// The change of each variable, by its number, if the nonbasic variable `enter` rises by 1 and
    /// the other nonbasic ones stay; an empty list if `enter` is `None`. The only error is out of
    /// memory.
    ///
    /// No row's constant may be below 0. A variable `enter` must not be variable 0. It must have a
    /// coefficient above 0 in the objective and in no row, and variable 0 must not be basic. With
    /// `None`, variable 0 must not be basic, or its row has no other coefficient above 0.
    pub fn ray(&self, alloc: Global, enter: Option<u32>) -> Result<Vec<F>, AllocError>
        requires { IsDone (fraction_dictionary F.value self.now) enter }
        ensures { IfOk result (λ list. map F.value list.items ≡ (last_with (fraction_dictionary F.value self.now) enter).changes) }
    {
        let Some(enter) = enter else {
            return Ok(Vec::new(alloc));
        };
        let count = self.variables as usize + 1;
        let rows = self.rows.as_slice();
        let numbers = by_variable(alloc, rows, self.basic.as_slice(), count, enter + 1)?;
        Ok(changes(numbers, enter))
    }
}
