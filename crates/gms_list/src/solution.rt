//! The levels and the marginals of a solve, row by row and column by column.
ghost use Rattle.std.specs.Prelude.{◌≡◌, ◌++◌, ◌==◌, [], if◌then◌else◌, max, length, map, flat_map, codes, option_map, IfOk, Some};
ghost use Rattle.lp_core.specs.DualBound.{row_lower, row_upper};
ghost use Rattle.lp_core.specs.Numbers.{lp_numbers, row_numbers, column_numbers};
ghost use Rattle.gms_fmt.specs.Columns.{Appends};
ghost use Rattle.gms_fmt.specs.ElementTexts.{element_text};
ghost use Rattle.gms_list.specs.SolveText.{cell, bound_cell, number_at_place, point_text, row_point, column_point, rows_of_equation, columns_of_variable, variables, longest_element, equation_points, variable_points, solution_text};
ghost use Rattle.gms_list.specs.InnerSolves.{mark_in, solution_in};

use crate::amounts::amount;
use crate::equations::{key_text, rows_of, variables_of};
use crate::listing::Listing;
use gms_ast::Program;
use gq_field::ExactField;
use gq_text::Digits;
use lp_core::{Column, Lp, Row, Sense};
use lp_form::Key;
use std::alloc::{AllocError, Global};

/// The width of the column of a number.
const NUMBER_WIDTH: usize = 12;

/// The texts after the lines of columns in a solution.
#[derive(Clone, Copy)]
pub(crate) enum Marks<'s, F> {
    /// No text.
    None,
    /// ` UNBND` at the columns that the ray moves.
    Ray(&'s [F]),
    /// ` NOPT` at the objective.
    Objective(u32),
}

/// The levels and the marginals that are listed for an answer.
#[derive(Clone, Copy)]
pub(crate) struct Solution<'s, F> {
    /// The level of each column.
    pub(crate) levels: &'s [F],
    /// The level of each row.
    pub(crate) row_levels: &'s [F],
    /// The marginal of each row; without marginals they are 0.
    pub(crate) duals: &'s [F],
    /// The marginal of each column; without marginals they are 0.
    pub(crate) reduced: &'s [F],
    /// The texts after the lines of columns.
    pub(crate) marks: Marks<'s, F>,
}

/// The number at an index of the list; 0 past its end.
pub(crate) fn number_at<F: ExactField>(numbers: &[F], place: usize) -> F
    ensures { F.value result ≡ number_at_place (map F.value numbers.now) place }
{
    match numbers.get(place) {
        Some(x) => *x,
        None => F::zero(),
    }
}

/// The bounds of a row's sum.
fn row_bounds<F: ExactField>(row: &Row<F>) -> (Option<F>, Option<F>)
    ensures lower { option_map F.value result.0 ≡ row_lower row.now.sense (F.value row.now.right) }
    ensures upper { option_map F.value result.1 ≡ row_upper row.now.sense (F.value row.now.right) }
{
    match row.sense {
        Sense::E => (Some(row.right), Some(row.right)),
        Sense::L => (None, Some(row.right)),
        Sense::G => (Some(row.right), None),
        Sense::N => (None, None),
    }
}

/// The text after the line of column `j`.
fn mark<F: ExactField>(marks: Marks<'_, F>, j: usize) -> &'static str
    ensures { result.now ≡ mark_in F.value marks.entry j }
{
    match marks {
        Marks::None => "",
        Marks::Ray(ray) => {
            if number_at(ray, j).is_zero() {
                ""
            } else {
                " UNBND"
            }
        }
        Marks::Objective(objective) => { if objective as usize == j { " NOPT" } else { "" } }
    }
}

/// The length of an element of a symbol, if it is longer than the longest before it; an element of
/// another symbol is skipped.
fn wider<F: ExactField>(
    alloc: Global,
    p: &Program<F>,
    key: &Key,
    symbol: u32,
    width: usize,
) -> Result<usize, AllocError>
    ensures { IfOk result (λ next. next ≡
        (if key.now.symbol == symbol then max
        (length (element_text p.now.names p.now.labels key.now.symbol key.now.tuple)) width else width)) }
{
    if key.symbol != symbol {
        return Ok(width);
    }
    let text = key_text(alloc, p, key)?;
    Ok(text.as_str().len().max(width))
}

/// The length of the longest element of an equation's rows.
fn rows_width<F: ExactField>(
    alloc: Global,
    p: &Program<F>,
    lp: &Lp<F>,
    equation: u32,
) -> Result<usize, AllocError>
    ensures { IfOk result (λ width. width ≡
        longest_element p.now.names p.now.labels F.limit (lp_numbers F.value lp.now)
        (map (λ q. q.1.key) (rows_of_equation p.now.names p.now.labels F.limit (lp_numbers F.value lp.now) equation))) }
{
    let mut width = 0;
    let rows = lp.rows.as_slice();
    for row in rows {
        width = wider(alloc, p, &row.key, equation, width)?;
    }
    Ok(width)
}

/// The length of the longest element of a variable's columns.
fn columns_width<F: ExactField>(
    alloc: Global,
    p: &Program<F>,
    lp: &Lp<F>,
    variable: u32,
) -> Result<usize, AllocError>
    ensures { IfOk result (λ width. width ≡
        longest_element p.now.names p.now.labels F.limit (lp_numbers F.value lp.now)
        (map (λ q. q.1.key) (columns_of_variable p.now.names p.now.labels F.limit (lp_numbers F.value lp.now) variable))) }
{
    let mut width = 0;
    let columns = lp.columns.as_slice();
    for column in columns {
        width = wider(alloc, p, &column.key, variable, width)?;
    }
    Ok(width)
}

/// What a line of a solution shows of an element.
#[derive(Clone, Copy)]
struct Point<F> {
    /// The lower bound.
    lower: Option<F>,
    /// The level.
    level: F,
    /// The upper bound.
    upper: Option<F>,
    /// The marginal.
    marginal: F,
}

impl Listing {
    /// Appends a blank and a number right in its column; 0 is a dot.
    fn push_cell<F: ExactField>(&mut self, alloc: Global, x: F) -> Result<(), AllocError>
        ensures { Appends result self.old self.new (cell (F.value x)) }
    {
        if x.is_zero() {
            self.push_right(alloc, ".", NUMBER_WIDTH)
        } else {
            let mut digits = Digits::new();
            self.push_right(alloc, amount(x, &mut digits), NUMBER_WIDTH)
        }
    }

    /// Appends a blank and a bound, or the word for none.
    fn push_bound_cell<F: ExactField>(
        &mut self,
        alloc: Global,
        x: Option<F>,
        none: &str,
    ) -> Result<(), AllocError>
        ensures { Appends result self.old self.new (bound_cell none.now (option_map F.value x)) }
    {
        match x {
            Some(x) => self.push_cell(alloc, x),
            None => self.push_right(alloc, none, NUMBER_WIDTH),
        }
    }

    /// Appends the four numbers of a line of a solution.
    fn push_numbers_of<F: ExactField>(
        &mut self,
        alloc: Global,
        point: Point<F>,
    ) -> Result<(), AllocError>
        ensures { Appends result self.old self.new
            (bound_cell (codes "-INF") (option_map F.value point.lower) ++ (cell (F.value point.level) ++ (bound_cell (codes "+INF") (option_map F.value point.upper) ++ cell (F.value point.marginal)))) }
    {
        self.push_bound_cell(alloc, point.lower, "-INF")?;
        self.push_cell(alloc, point.level)?;
        self.push_bound_cell(alloc, point.upper, "+INF")?;
        self.push_cell(alloc, point.marginal)
    }

    /// Appends a line of a solution.
    fn push_point<F: ExactField>(
        &mut self,
        alloc: Global,
        p: &Program<F>,
        key: &Key,
        width: usize,
        point: Point<F>,
        mark: &str,
    ) -> Result<(), AllocError>
        ensures { Appends result self.old self.new
            (point_text p.now.names p.now.labels width key.now (option_map F.value point.lower) (F.value point.level) (option_map F.value point.upper) (F.value point.marginal) mark.now) }
    {
        let text = key_text(alloc, p, key)?;
        let end = format!(in alloc; "{mark}\n")?;
        self.push_left(alloc, text.as_str(), width)?;
        self.push_numbers_of(alloc, point)?;
        self.push(end.as_str())
    }

    /// Appends the line of a row, if it is one of an equation.
    fn push_row_point<F: ExactField>(
        &mut self,
        alloc: Global,
        p: &Program<F>,
        lp: &Lp<F>,
        equation: u32,
        solution: Solution<'_, F>,
        width: usize,
        place: usize,
        row: &Row<F>,
    ) -> Result<(), AllocError>
        ensures { Appends result self.old self.new
            (if row.now.key.symbol == equation then row_point p.now.names p.now.labels F.limit (lp_numbers F.value lp.now) (solution_in F.value solution.entry) width (place, row_numbers F.value row.now) else []) }
    {
        if row.key.symbol != equation {
            return Ok(());
        }
        let (lower, upper) = row_bounds(row);
        let point = Point {
            lower,
            level: number_at(solution.row_levels, place),
            upper,
            marginal: number_at(solution.duals, place),
        };
        self.push_point(alloc, p, &row.key, width, point, "")
    }

    /// Appends the line of a column, if it is one of a variable.
    fn push_column_point<F: ExactField>(
        &mut self,
        alloc: Global,
        p: &Program<F>,
        lp: &Lp<F>,
        variable: u32,
        solution: Solution<'_, F>,
        width: usize,
        j: usize,
        column: &Column<F>,
    ) -> Result<(), AllocError>
        ensures { Appends result self.old self.new
            (if column.now.key.symbol == variable then column_point p.now.names p.now.labels F.limit (lp_numbers F.value lp.now) (solution_in F.value solution.entry) width (j, column_numbers F.value column.now) else []) }
    {
        if column.key.symbol != variable {
            return Ok(());
        }
        let point = Point {
            lower: column.lower,
            level: number_at(solution.levels, j),
            upper: column.upper,
            marginal: number_at(solution.reduced, j),
        };
        let mark = mark(solution.marks, j);
        self.push_point(alloc, p, &column.key, width, point, mark)
    }

    /// Appends the lines of the rows of an equation.
    fn push_row_points<F: ExactField>(
        &mut self,
        alloc: Global,
        p: &Program<F>,
        lp: &Lp<F>,
        equation: u32,
        solution: Solution<'_, F>,
        width: usize,
    ) -> Result<(), AllocError>
        ensures { Appends result self.old self.new
            (flat_map (row_point p.now.names p.now.labels F.limit (lp_numbers F.value lp.now) (solution_in F.value solution.entry) width) (rows_of_equation p.now.names p.now.labels F.limit (lp_numbers F.value lp.now) equation)) }
    {
        let rows = lp.rows.as_slice();
        for (place, row) in rows.iter().enumerate() {
            self.push_row_point(alloc, p, lp, equation, solution, width, place, row)?;
        }
        Ok(())
    }

    /// Appends the rows of an equation that has some.
    fn push_equation_points<F: ExactField>(
        &mut self,
        alloc: Global,
        p: &Program<F>,
        lp: &Lp<F>,
        equation: u32,
        solution: Solution<'_, F>,
    ) -> Result<(), AllocError>
        ensures { Appends result self.old self.new
            (equation_points p.now.names p.now.labels F.limit (lp_numbers F.value lp.now)
            (solution_in F.value solution.entry) equation) }
    {
        if rows_of(lp.rows.as_slice(), equation) == 0 {
            return Ok(());
        }
        let width = rows_width(alloc, p, lp, equation)?;
        self.push_head(alloc, p, "EQU ", equation, " LOWER LEVEL UPPER MARGINAL\n")?;
        self.push_row_points(alloc, p, lp, equation, solution, width)
    }

    /// Appends the lines of the columns of a variable.
    fn push_column_points<F: ExactField>(
        &mut self,
        alloc: Global,
        p: &Program<F>,
        lp: &Lp<F>,
        variable: u32,
        solution: Solution<'_, F>,
        width: usize,
    ) -> Result<(), AllocError>
        ensures { Appends result self.old self.new
            (flat_map (column_point p.now.names p.now.labels F.limit (lp_numbers F.value lp.now) (solution_in F.value solution.entry) width) (columns_of_variable p.now.names p.now.labels F.limit (lp_numbers F.value lp.now) variable)) }
    {
        let columns = lp.columns.as_slice();
        for (j, column) in columns.iter().enumerate() {
            self.push_column_point(alloc, p, lp, variable, solution, width, j, column)?;
        }
        Ok(())
    }

    /// Appends the columns of a variable.
    fn push_variable_points<F: ExactField>(
        &mut self,
        alloc: Global,
        p: &Program<F>,
        lp: &Lp<F>,
        variable: u32,
        solution: Solution<'_, F>,
    ) -> Result<(), AllocError>
        ensures { Appends result self.old self.new
            (variable_points p.now.names p.now.labels F.limit (lp_numbers F.value lp.now)
            (solution_in F.value solution.entry) variable) }
    {
        let width = columns_width(alloc, p, lp, variable)?;
        self.push_head(alloc, p, "VAR ", variable, " LOWER LEVEL UPPER MARGINAL\n")?;
        self.push_column_points(alloc, p, lp, variable, solution, width)
    }

    /// Appends the levels and marginals of the rows, equation by equation.
    fn push_all_rows<F: ExactField>(
        &mut self,
        alloc: Global,
        p: &Program<F>,
        lp: &Lp<F>,
        equations: &[u32],
        solution: Solution<'_, F>,
    ) -> Result<(), AllocError>
        ensures { Appends result self.old self.new
            (flat_map (equation_points p.now.names p.now.labels F.limit (lp_numbers F.value lp.now)
            (solution_in F.value solution.entry)) equations.now) }
    {
        for equation in equations {
            self.push_equation_points(alloc, p, lp, *equation, solution)?;
        }
        Ok(())
    }

    /// Appends the levels and marginals of the columns, variable by variable.
    fn push_all_columns<F: ExactField>(
        &mut self,
        alloc: Global,
        p: &Program<F>,
        lp: &Lp<F>,
        solution: Solution<'_, F>,
    ) -> Result<(), AllocError>
        ensures { Appends result self.old self.new
            (flat_map (variable_points p.now.names p.now.labels F.limit (lp_numbers F.value lp.now)
            (solution_in F.value solution.entry)) (variables p.now.names p.now.labels F.limit (lp_numbers F.value lp.now))) }
    {
        let variables = variables_of(alloc, lp.columns.as_slice())?;
        let each = variables.as_slice();
        for variable in each {
            self.push_variable_points(alloc, p, lp, *variable, solution)?;
        }
        Ok(())
    }

    /// Appends the levels and marginals of all rows of these equations and of all columns.
    pub(crate) fn push_solution<F: ExactField>(
        &mut self,
        alloc: Global,
        p: &Program<F>,
        lp: &Lp<F>,
        equations: &[u32],
        solution: Solution<'_, F>,
    ) -> Result<(), AllocError>
        ensures { Appends result self.old self.new
            (solution_text p.now.names p.now.labels F.limit (lp_numbers F.value lp.now) equations.now
            (Some (solution_in F.value solution.entry))) }
    {
        self.push_all_rows(alloc, p, lp, equations, solution)?;
        self.push_all_columns(alloc, p, lp, solution)
    }
}
