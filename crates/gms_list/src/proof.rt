//! The proof of an answer, in exact numbers.
ghost use Rattle.std.specs.Prelude.{◌≡◌, ◌++◌, true, false, length, map, flat_map, codes, string_bytes, option_to_list, IfOk, ◌≢◌, None};
ghost use Rattle.gms_fmt.specs.Columns.{Appends};
ghost use Rattle.lp_core.specs.Numbers.{lp_numbers, column_numbers, end_numbers};
ghost use Rattle.lp_check.specs.BoundSteps.{objective_bound};
ghost use Rattle.lp_core.specs.Feasible.{bound_value};
ghost use Rattle.lp_core.specs.WellFormed.{IsWellFormed};
ghost use Rattle.gq_text.specs.ExactText.{exact_text};
ghost use Rattle.gms_list.specs.Amounts.{line_of};
ghost use Rattle.gms_list.specs.Conditions.{HasProof};
ghost use Rattle.gms_list.specs.SolveText.{number_at_place, number_line, column_number_lines as column_lines, row_number_lines as row_lines, bound_lines, crossed_text, crossed_line, infeasible_text, step_text, proof_text};

use crate::amounts::exact;
use crate::equations::key_text;
use crate::listing::Listing;
use crate::solution::number_at;
use gms_ast::Program;
use gq_field::ExactField;
use gq_text::Digits;
use lp_check::dual_bound;
use lp_core::{Column, End, Lp, StepName};
use lp_form::Key;
use std::alloc::{AllocError, Global};

/// A bound after a blank, or nothing if there is none.
fn crossed_bound<F: ExactField>(alloc: Global, x: Option<F>) -> Result<String, AllocError>
    ensures { IfOk result (λ text. string_bytes text ≡ flat_map crossed_text (option_to_list (bound_value F.value x))) }
{
    match x {
        Some(x) => {
            let mut digits = Digits::new();
            let number = exact(x, &mut digits);
            format!(in alloc; " {number}")
        }
        None => Ok(String::new(alloc)),
    }
}

/// The name of a step with its numbers.
fn step_name(alloc: Global, step: StepName) -> Result<String, AllocError>
    ensures { IfOk result (λ text. string_bytes text ≡ step_text step) }
{
    match step {
        StepName::Standard { row, column, part } => {
            format!(in alloc; "Standard row {row} column {column} part {part}")
        }
        StepName::Ratio { pivot, row } => format!(in alloc; "Ratio {pivot} row {row}"),
        StepName::Exchange {
            pivot,
            row,
            column,
            part,
        } => { format!(in alloc; "Exchange {pivot} row {row} column {column} part {part}") }
        StepName::Recover {
            what,
            index,
            entry,
            part,
        } => { format!(in alloc; "Recover {what} index {index} entry {entry} part {part}") }
        StepName::Check { part } => format!(in alloc; "Check part {part}"),
    }
}

/// A step that does not fit, as a line.
fn step_line(alloc: Global, step: StepName) -> Result<String, AllocError>
    ensures { IfOk result (λ text. string_bytes text ≡ line_of (codes "  step " ++ step_text step)) }
{
    let name = step_name(alloc, step)?;
    format!(in alloc; "  step {name}\n")
}

impl Listing {
    /// Appends a word, an element and an exact number that is not 0, as a line.
    fn push_number<F: ExactField>(
        &mut self,
        alloc: Global,
        p: &Program<F>,
        lp: &Lp<F>,
        word: &str,
        key: &Key,
        x: F,
    ) -> Result<(), AllocError>
        ensures { Appends result self.old self.new (number_line p.now.names p.now.labels F.limit (lp_numbers F.value lp.now) word.now key.now (F.value x)) }
    {
        if x.is_zero() {
            return Ok(());
        }
        let element = key_text(alloc, p, key)?;
        let mut digits = Digits::new();
        let number = exact(x, &mut digits);
        let line = format!(in alloc; "  {word} {element} = {number}\n")?;
        self.push(line.as_str())
    }

    /// Appends the numbers of columns that are not 0.
    fn push_column_numbers<F: ExactField>(
        &mut self,
        alloc: Global,
        p: &Program<F>,
        lp: &Lp<F>,
        word: &str,
        numbers: &[F],
    ) -> Result<(), AllocError>
        ensures { Appends result self.old self.new
            (column_lines p.now.names p.now.labels F.limit (lp_numbers F.value lp.now) word.now (map F.value numbers.now)) }
    {
        let columns = lp.columns.as_slice();
        for (j, column) in columns.iter().enumerate() {
            self.push_number(alloc, p, lp, word, &column.key, number_at(numbers, j))?;
        }
        Ok(())
    }

    /// Appends the numbers of rows that are not 0.
    fn push_row_numbers<F: ExactField>(
        &mut self,
        alloc: Global,
        p: &Program<F>,
        lp: &Lp<F>,
        word: &str,
        numbers: &[F],
    ) -> Result<(), AllocError>
        ensures { Appends result self.old self.new (row_lines p.now.names p.now.labels F.limit (lp_numbers F.value lp.now) word.now (map F.value numbers.now)) }
    {
        let rows = lp.rows.as_slice();
        for (place, row) in rows.iter().enumerate() {
            self.push_number(alloc, p, lp, word, &row.key, number_at(numbers, place))?;
        }
        Ok(())
    }

    /// Appends the bound that duals give, or the step that does not fit.
    fn push_dual_bound<F: ExactField>(
        &mut self,
        alloc: Global,
        lp: &Lp<F>,
        with_objective: bool,
        duals: &[F],
    ) -> Result<(), AllocError>
        requires formed { IsWellFormed F.value lp.now }
        requires sized { length duals.now ≡ length lp.now.rows }
        requires there { objective_bound F.value with_objective lp.now (map F.value duals.now) ≢ None }
        ensures { Appends result self.old self.new (bound_lines F.limit (lp_numbers F.value lp.now) (map F.value duals.now) with_objective) }
    {
        match dual_bound(alloc, lp, with_objective, duals) {
            Ok(bound) => {
                let mut digits = Digits::new();
                let number = exact(bound, &mut digits);
                let line = format!(in alloc; "  bound {number}\n")?;
                self.push(line.as_str())
            }
            Err(step) => {
                let name = step_name(alloc, step)?;
                let line = format!(in alloc; "  bound not shown, {name}\n")?;
                self.push(line.as_str())
            }
        }
    }

    /// Appends the column whose bounds cross.
    fn push_crossed<F: ExactField>(
        &mut self,
        alloc: Global,
        p: &Program<F>,
        column: &Column<F>,
    ) -> Result<(), AllocError>
        ensures { Appends result self.old self.new (crossed_line p.now.names p.now.labels (column_numbers F.value column.now)) }
    {
        let key = key_text(alloc, p, &column.key)?;
        let lower = crossed_bound(alloc, column.lower)?;
        let upper = crossed_bound(alloc, column.upper)?;
        let line = format!(in alloc; "  crossed {key}{lower}{upper}\n")?;
        self.push(line.as_str())
    }

    /// Appends why no point is feasible.
    fn push_infeasible<F: ExactField>(
        &mut self,
        alloc: Global,
        p: &Program<F>,
        lp: &Lp<F>,
        duals: &[F],
        crossed: Option<u32>,
    ) -> Result<(), AllocError>
        requires formed { IsWellFormed F.value lp.now }
        requires sized { crossed ≡ None → length duals.now ≡ length lp.now.rows }
        requires there { crossed ≡ None → objective_bound F.value false lp.now (map F.value duals.now) ≢ None }
        ensures { Appends result self.old self.new
            (infeasible_text p.now.names p.now.labels F.limit (lp_numbers F.value lp.now) (map F.value duals.now) crossed) }
    {
        match crossed {
            Some(j) => match lp.columns.as_slice().get(j as usize) {
                Some(column) => self.push_crossed(alloc, p, column),
                None => Ok(()),
            },
            None => {
                self.push_row_numbers(alloc, p, lp, "row", duals)?;
                self.push_dual_bound(alloc, lp, false, duals)
            }
        }
    }

    /// Appends the numbers of an optimal point and of its duals, and the bound.
    fn push_optimal<F: ExactField>(
        &mut self,
        alloc: Global,
        p: &Program<F>,
        lp: &Lp<F>,
        levels: &[F],
        duals: &[F],
        reduced: &[F],
    ) -> Result<(), AllocError>
        requires formed { IsWellFormed F.value lp.now }
        requires sized { length duals.now ≡ length lp.now.rows }
        requires there { objective_bound F.value true lp.now (map F.value duals.now) ≢ None }
        ensures { Appends result self.old self.new
            (column_lines p.now.names p.now.labels F.limit (lp_numbers F.value lp.now) (codes "level") (map F.value levels.now)
            ++ (row_lines p.now.names p.now.labels F.limit (lp_numbers F.value lp.now) (codes "marginal") (map F.value duals.now)
            ++ (column_lines p.now.names p.now.labels F.limit (lp_numbers F.value lp.now) (codes "marginal") (map F.value reduced.now)
            ++ bound_lines F.limit (lp_numbers F.value lp.now) (map F.value duals.now) true))) }
    {
        self.push_column_numbers(alloc, p, lp, "level", levels)?;
        self.push_row_numbers(alloc, p, lp, "marginal", duals)?;
        self.push_column_numbers(alloc, p, lp, "marginal", reduced)?;
        self.push_dual_bound(alloc, lp, true, duals)
    }

    /// Appends the lines of the proof of an end, its certificate; of an end that has none,
    /// interrupted or refused, what is known of it. `pivots` is how many pivots the solver made.
    pub(crate) fn push_proof<F: ExactField>(
        &mut self,
        alloc: Global,
        p: &Program<F>,
        lp: &Lp<F>,
        end: &End<F>,
        pivots: usize,
    ) -> Result<(), AllocError>
        requires formed { IsWellFormed F.value lp.now }
        requires proved { HasProof F.value lp.now end.now }
        ensures { Appends result self.old self.new
            (proof_text p.now.names p.now.labels F.limit (lp_numbers F.value lp.now) pivots (end_numbers F.value end.now)) }
    {
        match end {
            End::Optimal {
                levels,
                duals,
                reduced,
                ..
            } => {
                self.push("PROOF Optimal\n")?;
                self.push_optimal(
                    alloc,
                    p,
                    lp,
                    levels.as_slice(),
                    duals.as_slice(),
                    reduced.as_slice(),
                )
            }
            End::Infeasible { duals, crossed } => {
                self.push("PROOF Infeasible\n")?;
                self.push_infeasible(alloc, p, lp, duals.as_slice(), *crossed)
            }
            End::Unbounded { levels, ray, .. } => {
                self.push("PROOF Unbounded\n")?;
                self.push_column_numbers(alloc, p, lp, "point", levels.as_slice())?;
                self.push_column_numbers(alloc, p, lp, "ray", ray.as_slice())
            }
            End::Interrupted { phase, levels, .. } => {
                let head = format!(in alloc;
                    "PROOF Interrupted\n  phase {phase} pivots {pivots}\n"
                )?;
                self.push(head.as_str())?;
                self.push_column_numbers(alloc, p, lp, "point", levels.as_slice())
            }
            End::Refused { step } => {
                let step = step_line(alloc, *step)?;
                self.push("PROOF Refused\n")?;
                self.push(step.as_str())
            }
        }
    }
}
