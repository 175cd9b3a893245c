//! What a solve shows.
ghost use Rattle.std.specs.Prelude.{◌≡◌, ◌++◌, ℕ, [], length, sum, map, option_map, if◌then◌else◌, string_bytes, codes, decimal, IfOk};
ghost use Rattle.gms_fmt.specs.Columns.{Appends};
ghost use Rattle.gms_store.specs.Statuses.{model_number, model_text, solver_number, solver_text};
ghost use Rattle.lp_core.specs.Numbers.{lp_numbers, end_numbers, answer_numbers};
ghost use Rattle.lp_core.specs.WellFormed.{IsWellFormed};
ghost use Rattle.gms_list.specs.Amounts.{line_of};
ghost use Rattle.gms_list.specs.Conditions.{HasProof};
ghost use Rattle.gms_list.specs.SolveText.{direction_text, head_text, solution_of, solution_text, summary_text, solve_text};
ghost use Rattle.gms_list.specs.InnerSolves.{solution_in, solved_in, status_lines};

use crate::amounts::amount;
use crate::equations::column_text;
use crate::listing::Listing;
use crate::solution::{Marks, Solution};
use gms_ast::Program;
use gms_event::solve_status;
use gms_fmt::text_of;
use gms_store::{Settings, SolveStatus};
use gq_field::ExactField;
use gq_text::Digits;
use lp_core::{Answer, End, Lp, Row};
use std::alloc::{AllocError, Global};

/// What a solve shows, except for its answer.
#[derive(Clone, Copy)]
pub(crate) struct Solved<'s, F: ExactField> {
    /// The number of the line at which the statement begins.
    pub(crate) line: u32,
    /// The number of the model's name.
    pub(crate) model: u32,
    /// The numbers of the names of the model's equations.
    pub(crate) equations: &'s [u32],
    /// The linear program.
    pub(crate) lp: &'s Lp<F>,
    /// The name of the solver.
    pub(crate) solver: &'s [u8],
    /// The settings at the solve.
    pub(crate) settings: Settings,
    /// The level of the objective after the solve.
    pub(crate) objective_level: F,
}

/// How many entries rows have.
fn nonzeros<F>(rows: &[Row<F>]) -> u128
    ensures { result ≡ sum (map (λ row. length row.entries) rows.now) }
{
    let mut count: u128 = 0;
    for row in rows {
        count += row.entries.len() as u128;
    }
    count
}

/// The levels and marginals that an end has.
fn solution<'s, F: ExactField>(end: &'s End<F>, objective: u32) -> Option<Solution<'s, F>>
    ensures { option_map (solution_in F.value) result ≡ solution_of objective (end_numbers F.value end.now) }
{
    match end {
        End::Optimal {
            levels,
            row_levels,
            duals,
            reduced,
        } => Some(Solution {
            levels: levels.as_slice(),
            row_levels: row_levels.as_slice(),
            duals: duals.as_slice(),
            reduced: reduced.as_slice(),
            marks: Marks::None,
        }),
        End::Unbounded {
            levels,
            row_levels,
            ray,
        } => Some(Solution {
            levels: levels.as_slice(),
            row_levels: row_levels.as_slice(),
            duals: &[],
            reduced: &[],
            marks: Marks::Ray(ray.as_slice()),
        }),
        End::Interrupted {
            phase: 2,
            levels,
            row_levels,
        } => Some(Solution {
            levels: levels.as_slice(),
            row_levels: row_levels.as_slice(),
            duals: &[],
            reduced: &[],
            marks: Marks::Objective(objective),
        }),
        End::Interrupted { .. } | End::Infeasible { .. } | End::Refused { .. } => None,
    }
}

/// The direction of the objective, between blanks.
fn direction(maximize: bool) -> &'static str
    ensures { result.now ≡ direction_text maximize }
{
    if maximize {
        " maximizing "
    } else {
        " minimizing "
    }
}

/// The line of the solver's status.
fn solver_line(alloc: Global, status: SolveStatus) -> Result<String, AllocError>
    ensures { IfOk result (λ text. string_bytes text ≡ line_of (codes "SOLVER STATUS " ++ decimal (solver_number status) ++ codes " " ++ solver_text status)) }
{
    let number = status.solver_number();
    let name = status.solver_text();
    format!(in alloc; "SOLVER STATUS {number} {name}\n")
}

/// The line of the model's status.
fn model_line(alloc: Global, status: SolveStatus) -> Result<String, AllocError>
    ensures { IfOk result (λ text. string_bytes text ≡ line_of (codes "MODEL STATUS " ++ decimal (model_number status) ++ codes " " ++ model_text status)) }
{
    let number = status.model_number();
    let name = status.model_text();
    format!(in alloc; "MODEL STATUS {number} {name}\n")
}

/// The lines of a solve's statuses and of the level of the objective, after the number of pivots.
fn status_lines<F: ExactField>(
    alloc: Global,
    s: &Solved<'_, F>,
    answer: &Answer<F>,
) -> Result<String, AllocError>
    ensures { IfOk result (λ text. string_bytes text ≡
        status_lines s.now.settings.iterlim (F.value s.now.objective_level) (answer_numbers F.value answer.now)) }
{
    let pivots = answer.pivots.len();
    let limit = s.settings.iterlim;
    let status = solve_status(&answer.end);
    let solver = solver_line(alloc, status)?;
    let model = model_line(alloc, status)?;
    let mut digits = Digits::new();
    let level = amount(s.objective_level, &mut digits);
    format!(in alloc; " PIVOTS {pivots} LIMIT {limit}\n{solver}{model}OBJECTIVE {level}\n")
}

impl Listing {
    /// Appends the line of a solve's statement.
    fn push_solve_head<F: ExactField>(
        &mut self,
        alloc: Global,
        p: &Program<F>,
        s: &Solved<'_, F>,
    ) -> Result<(), AllocError>
        ensures { (place : ℕ) → Appends result self.old self.new (head_text p.now.names p.now.labels F.limit (solved_in F.value place s.now)) }
    {
        let line = s.line;
        let model = text_of(&p.names, s.model);
        let direction = direction(s.lp.maximize);
        let objective = column_text(alloc, p, s.lp, s.lp.objective)?;
        let head = format!(in alloc; "---- {line} SOLVE {model}{direction}{objective}\n")?;
        self.push(head.as_str())
    }

    /// Appends the counts and the statuses of a solve, and the level of the objective.
    fn push_summary<F: ExactField>(
        &mut self,
        alloc: Global,
        s: &Solved<'_, F>,
        answer: &Answer<F>,
    ) -> Result<(), AllocError>
        ensures { (place : ℕ) → Appends result self.old self.new (summary_text (solved_in F.value place s.now) (answer_numbers F.value answer.now)) }
    {
        let lp = s.lp;
        let rows = lp.rows.as_slice();
        let columns = lp.columns.len();
        let nonzeros = nonzeros(rows);
        let rows = rows.len();
        let solver = s.solver;
        let counts = format!(in alloc;
            "ROWS {rows} COLUMNS {columns} NONZEROS {nonzeros}\nSOLVER "
        )?;
        let statuses = status_lines(alloc, s, answer)?;
        self.push(counts.as_str())?;
        self.push_bytes(solver)?;
        self.push(statuses.as_str())
    }

    /// Appends the levels and marginals of a solve, if they are requested and there are some.
    fn push_levels<F: ExactField>(
        &mut self,
        alloc: Global,
        p: &Program<F>,
        s: &Solved<'_, F>,
        end: &End<F>,
    ) -> Result<(), AllocError>
        ensures { Appends result self.old self.new
            (if s.now.settings.solprint then solution_text p.now.names p.now.labels F.limit (lp_numbers F.value s.now.lp.now) s.now.equations.now (solution_of s.now.lp.now.objective (end_numbers F.value end.now)) else []) }
    {
        if !s.settings.solprint {
            return Ok(());
        }
        match solution(end, s.lp.objective) {
            Some(solution) => self.push_solution(alloc, p, s.lp, s.equations, solution),
            None => Ok(()),
        }
    }

    /// Appends the text of a solve with its answer.
    pub(crate) fn push_solve<F: ExactField>(
        &mut self,
        alloc: Global,
        p: &Program<F>,
        s: &Solved<'_, F>,
        answer: &Answer<F>,
    ) -> Result<(), AllocError>
        requires formed { IsWellFormed F.value s.now.lp.now }
        requires proved { HasProof F.value s.now.lp.now answer.now.end }
        ensures { (place : ℕ) → Appends result self.old self.new
            (solve_text p.now.names p.now.labels F.limit (solved_in F.value place s.now) (answer_numbers F.value answer.now)) }
    {
        let lp = s.lp;
        let equations = s.equations;
        let settings = s.settings;
        self.push_solve_head(alloc, p, s)?;
        self.push_equations(alloc, p, lp, equations, settings.limrow as usize)?;
        self.push_variables(alloc, p, lp, settings.limcol as usize)?;
        self.push_summary(alloc, s, answer)?;
        self.push_levels(alloc, p, s, &answer.end)?;
        let pivots = answer.pivots.len();
        self.push_proof(alloc, p, lp, &answer.end, pivots)
    }
}
