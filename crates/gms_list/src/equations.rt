//! The rows and the columns that a solve lists before its answer.
ghost use Rattle.std.specs.Prelude.{◌≡◌, ◌++◌, ◌-◌, [], ◌==◌, length, map, flat_map, filter, take, codes, if◌then◌else◌, string_bytes, IfOk, OnOk};
ghost use Rattle.gms_fmt.specs.Columns.{Appends};
ghost use Rattle.gms_fmt.specs.ElementTexts.{label_in_table, element_text};
ghost use Rattle.lp_core.specs.Numbers.{lp_numbers, row_numbers, column_numbers, entries_numbers};
ghost use Rattle.gms_list.specs.Amounts.{line_of};
ghost use Rattle.gms_list.specs.InnerSolves.{once_more};
ghost use Rattle.gms_list.specs.SolveText.{amount, sense_text, distinct_names, is_negative, number_magnitude, column_text, term_text, terms_text, row_text, rows_of_equation, more_text, equation_text, rows_listing, placed_rows, column_entry_line, column_lines, columns_of_variable, variable_text, columns_listing};

use crate::amounts::{amount, bound};
use crate::listing::Listing;
use gms_ast::Program;
use gms_fmt::{element, text_of};
use gq_field::ExactField;
use gq_text::Digits;
use lp_core::{Column, Lp, Row, Sense};
use lp_form::Key;
use std::alloc::{AllocError, Global};

/// How the sum of a row and its right side compare.
fn sense_text(sense: Sense) -> &'static str
    ensures { result.now ≡ sense_text sense }
{
    match sense {
        Sense::E => " =E= ",
        Sense::L => " =L= ",
        Sense::G => " =G= ",
        Sense::N => " =N= ",
    }
}

/// How many rows an equation has.
pub(crate) fn rows_of<F>(rows: &[Row<F>], equation: u32) -> usize
    ensures { result ≡ length (filter (λ row. row.key.symbol == equation) rows.now) }
{
    rows.iter().filter(|row| row.key.symbol == equation).count()
}

/// How many columns a variable has.
fn columns_of<F>(columns: &[Column<F>], variable: u32) -> usize
    ensures { result ≡ length (filter (λ column. column.key.symbol == variable) columns.now) }
{
    columns
        .iter()
        .filter(|column| column.key.symbol == variable)
        .count()
}

/// Appends a number to numbers that do not have it yet.
fn push_once(numbers: &mut Vec<u32>, n: u32) -> Result<(), AllocError>
    ensures { OnOk result (numbers.new.items ≡ once_more numbers.old.items n) }
{
    if numbers.contains(&n) {
        return Ok(());
    }
    numbers.push(n)?;
    Ok(())
}

/// The variables that have columns, in the order of their first columns.
pub(crate) fn variables_of<F>(alloc: Global, columns: &[Column<F>]) -> Result<Vec<u32>, AllocError>
    ensures { IfOk result (λ variables. variables.items ≡ distinct_names (map (λ column. column.key.symbol) columns.now)) }
{
    let mut variables: Vec<u32> = Vec::new(alloc);
    for column in columns {
        push_once(&mut variables, column.key.symbol)?;
    }
    Ok(variables)
}

/// The magnitude of a number.
fn magnitude<F: ExactField>(x: F) -> F
    ensures { F.value result ≡ number_magnitude (F.value x) }
{
    if x.sign() < 0 { x.neg() } else { x }
}

/// The text of the element of a row or a column: its name and its labels.
pub(crate) fn key_text<F: ExactField>(
    alloc: Global,
    p: &Program<F>,
    key: &Key,
) -> Result<String, AllocError>
    ensures { IfOk result (λ text. string_bytes text ≡ element_text p.now.names p.now.labels key.now.symbol key.now.tuple) }
{
    element(alloc, &p.names, &p.labels, key.symbol, &key.tuple)
}

/// The text of the element of column `j`; empty if there is no such column.
pub(crate) fn column_text<F: ExactField>(
    alloc: Global,
    p: &Program<F>,
    lp: &Lp<F>,
    j: u32,
) -> Result<String, AllocError>
    ensures { IfOk result (λ text. string_bytes text ≡ column_text p.now.names p.now.labels F.limit (lp_numbers F.value lp.now) j) }
{
    match lp.columns.as_slice().get(j as usize) {
        Some(column) => key_text(alloc, p, &column.key),
        None => Ok(String::new(alloc)),
    }
}

/// The sign of a term, between blanks.
fn term_sign<F: ExactField>(x: F) -> &'static str
    ensures { result.now ≡ (if is_negative (F.value x).numerator then codes " - " else codes " + ") }
{
    if x.sign() < 0 { " - " } else { " + " }
}

impl Listing {
    /// Appends a word, a name and the text `following`.
    pub(crate) fn push_head<F: ExactField>(
        &mut self,
        alloc: Global,
        p: &Program<F>,
        word: &str,
        name: u32,
        following: &str,
    ) -> Result<(), AllocError>
        ensures { Appends result self.old self.new (word.now ++ label_in_table p.now.names name ++ following.now) }
    {
        let text = text_of(&p.names, name);
        let line = format!(in alloc; "{word}{text}{following}")?;
        self.push(line.as_str())
    }

    /// Appends a term of a row.
    fn push_term<F: ExactField>(
        &mut self,
        alloc: Global,
        p: &Program<F>,
        lp: &Lp<F>,
        j: u32,
        x: F,
    ) -> Result<(), AllocError>
        ensures { Appends result self.old self.new (term_text p.now.names p.now.labels F.limit (lp_numbers F.value lp.now) (j, F.value x)) }
    {
        let sign = term_sign(x);
        let mut digits = Digits::new();
        let number = amount(magnitude(x), &mut digits);
        let column = column_text(alloc, p, lp, j)?;
        let text = format!(in alloc; "{sign}{number}*{column}")?;
        self.push(text.as_str())
    }

    /// Appends the terms of a row.
    fn push_terms<F: ExactField>(
        &mut self,
        alloc: Global,
        p: &Program<F>,
        lp: &Lp<F>,
        entries: &[(u32, F)],
    ) -> Result<(), AllocError>
        ensures { Appends result self.old self.new
            (terms_text p.now.names p.now.labels F.limit (lp_numbers F.value lp.now) (entries_numbers F.value entries.now)) }
    {
        if entries.is_empty() {
            return self.push(" 0");
        }
        for (j, x) in entries {
            self.push_term(alloc, p, lp, *j, *x)?;
        }
        Ok(())
    }

    /// Appends a row.
    fn push_row<F: ExactField>(
        &mut self,
        alloc: Global,
        p: &Program<F>,
        lp: &Lp<F>,
        row: &Row<F>,
    ) -> Result<(), AllocError>
        ensures { Appends result self.old self.new (row_text p.now.names p.now.labels F.limit (lp_numbers F.value lp.now) (0, row_numbers F.value row.now)) }
    {
        let entries = row.entries.as_slice();
        let key = key_text(alloc, p, &row.key)?;
        let head = format!(in alloc; " {key}..")?;
        let sense = sense_text(row.sense);
        let mut digits = Digits::new();
        let right = amount(row.right, &mut digits);
        let end = format!(in alloc; "{sense}{right}\n")?;
        self.push(head.as_str())?;
        self.push_terms(alloc, p, lp, entries)?;
        self.push(end.as_str())
    }

    /// Appends how many things there are beyond the most that are listed.
    fn push_more(
        &mut self,
        alloc: Global,
        most: usize,
        count: usize,
        what: &str,
    ) -> Result<(), AllocError>
        ensures { Appends result self.old self.new (more_text most count what.now) }
    {
        if count <= most {
            return Ok(());
        }
        let more = count - most;
        let text = format!(in alloc; " ({more} more {what})\n")?;
        self.push(text.as_str())
    }

    /// Appends the text after the first rows of an equation, which says how many are left out.
    fn push_after_rows(
        &mut self,
        alloc: Global,
        most: usize,
        count: usize,
    ) -> Result<(), AllocError>
        ensures { Appends result self.old self.new (if count == 0 then line_of (codes " (no rows)") else more_text most count (codes "rows")) }
    {
        if count == 0 {
            self.push(" (no rows)\n")
        } else {
            self.push_more(alloc, most, count, "rows")
        }
    }

    /// Appends a row, if it is one of an equation and more may be appended. Answers how many more
    /// may follow.
    fn push_row_of<F: ExactField>(
        &mut self,
        alloc: Global,
        p: &Program<F>,
        lp: &Lp<F>,
        row: &Row<F>,
        equation: u32,
        left: usize,
    ) -> Result<usize, AllocError>
        ensures appended { Appends result self.old self.new
            (if row.now.key.symbol == equation then (if left == 0 then [] else row_text p.now.names p.now.labels F.limit (lp_numbers F.value lp.now) (0, row_numbers F.value row.now)) else []) }
        ensures left { IfOk result (λ next. next ≡ (if row.now.key.symbol == equation then left - 1 else left)) }
    {
        if row.key.symbol != equation {
            return Ok(left);
        }
        if left == 0 {
            return Ok(left);
        }
        self.push_row(alloc, p, lp, row)?;
        Ok(left - 1)
    }

    /// Appends the first rows of an equation.
    fn push_rows<F: ExactField>(
        &mut self,
        alloc: Global,
        p: &Program<F>,
        lp: &Lp<F>,
        equation: u32,
        most: usize,
    ) -> Result<(), AllocError>
        ensures { Appends result self.old self.new
            (flat_map (row_text p.now.names p.now.labels F.limit (lp_numbers F.value lp.now)) (take most (rows_of_equation p.now.names p.now.labels F.limit (lp_numbers F.value lp.now) equation))) }
    {
        let mut left = most;
        let rows = lp.rows.as_slice();
        for row in rows {
            left = self.push_row_of(alloc, p, lp, row, equation, left)?;
        }
        Ok(())
    }

    /// Appends the first rows of an equation after its name.
    fn push_equation<F: ExactField>(
        &mut self,
        alloc: Global,
        p: &Program<F>,
        lp: &Lp<F>,
        equation: u32,
        most: usize,
    ) -> Result<(), AllocError>
        ensures { Appends result self.old self.new (equation_text p.now.names p.now.labels F.limit (lp_numbers F.value lp.now) most equation) }
    {
        self.push_head(alloc, p, "EQUATION ", equation, "\n")?;
        self.push_rows(alloc, p, lp, equation, most)?;
        self.push_after_rows(alloc, most, rows_of(lp.rows.as_slice(), equation))
    }

    /// Appends the lines of the model's equations, each with its first `most` rows; none if `most`
    /// is 0.
    pub(crate) fn push_equations<F: ExactField>(
        &mut self,
        alloc: Global,
        p: &Program<F>,
        lp: &Lp<F>,
        equations: &[u32],
        most: usize,
    ) -> Result<(), AllocError>
        ensures { Appends result self.old self.new (rows_listing p.now.names p.now.labels F.limit (lp_numbers F.value lp.now) most equations.now) }
    {
        if most == 0 {
            return Ok(());
        }
        for equation in equations {
            self.push_equation(alloc, p, lp, *equation, most)?;
        }
        Ok(())
    }

    /// Appends an entry, as a line.
    fn push_coefficient<F: ExactField>(
        &mut self,
        alloc: Global,
        p: &Program<F>,
        key: &Key,
        x: F,
    ) -> Result<(), AllocError>
        ensures { Appends result self.old self.new
            (line_of (codes "  " ++ amount (F.value x) ++ codes " " ++
            element_text p.now.names p.now.labels key.now.symbol key.now.tuple)) }
    {
        let mut digits = Digits::new();
        let number = amount(x, &mut digits);
        let key = key_text(alloc, p, key)?;
        let line = format!(in alloc; "  {number} {key}\n")?;
        self.push(line.as_str())
    }

    /// Appends an entry as a line, if it is in a column.
    fn push_entry_of<F: ExactField>(
        &mut self,
        alloc: Global,
        p: &Program<F>,
        key: &Key,
        column: u32,
        x: F,
        j: usize,
    ) -> Result<(), AllocError>
        ensures { Appends result self.old self.new
            (if column == j then line_of (codes "  " ++ amount (F.value x) ++ codes " " ++ element_text p.now.names p.now.labels key.now.symbol key.now.tuple) else []) }
    {
        if column as usize == j {
            self.push_coefficient(alloc, p, key, x)
        } else {
            Ok(())
        }
    }

    /// Appends the entries that a row has in a column, a line each.
    fn push_coefficients<F: ExactField>(
        &mut self,
        alloc: Global,
        p: &Program<F>,
        lp: &Lp<F>,
        j: usize,
        place: usize,
        row: &Row<F>,
    ) -> Result<(), AllocError>
        ensures { Appends result self.old self.new
            (column_entry_line p.now.names p.now.labels F.limit (lp_numbers F.value lp.now) j
            (place, row_numbers F.value row.now)) }
    {
        let entries = row.entries.as_slice();
        for (column, x) in entries {
            self.push_entry_of(alloc, p, &row.key, *column, *x, j)?;
        }
        Ok(())
    }

    /// Appends the entries of a column, row by row.
    fn push_column_entries<F: ExactField>(
        &mut self,
        alloc: Global,
        p: &Program<F>,
        lp: &Lp<F>,
        j: usize,
    ) -> Result<(), AllocError>
        ensures { Appends result self.old self.new
            (flat_map (column_entry_line p.now.names p.now.labels F.limit (lp_numbers F.value lp.now) j) (placed_rows p.now.names p.now.labels F.limit (lp_numbers F.value lp.now))) }
    {
        let rows = lp.rows.as_slice();
        for (place, row) in rows.iter().enumerate() {
            self.push_coefficients(alloc, p, lp, j, place, row)?;
        }
        Ok(())
    }

    /// Appends a column with its bounds and its entries.
    fn push_column<F: ExactField>(
        &mut self,
        alloc: Global,
        p: &Program<F>,
        lp: &Lp<F>,
        j: usize,
        column: &Column<F>,
    ) -> Result<(), AllocError>
        ensures { Appends result self.old self.new
            (column_lines p.now.names p.now.labels F.limit (lp_numbers F.value lp.now) (j, column_numbers F.value column.now)) }
    {
        let key = key_text(alloc, p, &column.key)?;
        let mut lower_digits = Digits::new();
        let lower = bound(column.lower, "-INF", &mut lower_digits);
        let mut upper_digits = Digits::new();
        let upper = bound(column.upper, "+INF", &mut upper_digits);
        let line = format!(in alloc; " {key} lower {lower} upper {upper}\n")?;
        self.push(line.as_str())?;
        self.push_column_entries(alloc, p, lp, j)
    }

    /// Appends a column, if it is one of a variable and more may be appended. Answers how many more
    /// may follow.
    fn push_column_of<F: ExactField>(
        &mut self,
        alloc: Global,
        p: &Program<F>,
        lp: &Lp<F>,
        j: usize,
        column: &Column<F>,
        variable: u32,
        left: usize,
    ) -> Result<usize, AllocError>
        ensures appended { Appends result self.old self.new
            (if column.now.key.symbol == variable then (if left == 0 then [] else column_lines p.now.names p.now.labels F.limit (lp_numbers F.value lp.now) (j, column_numbers F.value column.now)) else []) }
        ensures left { IfOk result (λ next. next ≡ (if column.now.key.symbol == variable then left - 1 else left)) }
    {
        if column.key.symbol != variable {
            return Ok(left);
        }
        if left == 0 {
            return Ok(left);
        }
        self.push_column(alloc, p, lp, j, column)?;
        Ok(left - 1)
    }

    /// Appends the first columns of a variable.
    fn push_columns<F: ExactField>(
        &mut self,
        alloc: Global,
        p: &Program<F>,
        lp: &Lp<F>,
        variable: u32,
        most: usize,
    ) -> Result<(), AllocError>
        ensures { Appends result self.old self.new
            (flat_map (column_lines p.now.names p.now.labels F.limit (lp_numbers F.value lp.now)) (take most (columns_of_variable p.now.names p.now.labels F.limit (lp_numbers F.value lp.now) variable))) }
    {
        let mut left = most;
        let columns = lp.columns.as_slice();
        for (j, column) in columns.iter().enumerate() {
            left = self.push_column_of(alloc, p, lp, j, column, variable, left)?;
        }
        Ok(())
    }

    /// Appends the first columns of a variable after its name.
    fn push_variable<F: ExactField>(
        &mut self,
        alloc: Global,
        p: &Program<F>,
        lp: &Lp<F>,
        variable: u32,
        most: usize,
    ) -> Result<(), AllocError>
        ensures { Appends result self.old self.new (variable_text p.now.names p.now.labels F.limit (lp_numbers F.value lp.now) most variable) }
    {
        self.push_head(alloc, p, "VARIABLE ", variable, "\n")?;
        self.push_columns(alloc, p, lp, variable, most)?;
        self.push_more(
            alloc,
            most,
            columns_of(lp.columns.as_slice(), variable),
            "columns",
        )
    }

    /// Appends the lines of the variables that have columns, each with its first `most` columns;
    /// none if `most` is 0.
    pub(crate) fn push_variables<F: ExactField>(
        &mut self,
        alloc: Global,
        p: &Program<F>,
        lp: &Lp<F>,
        most: usize,
    ) -> Result<(), AllocError>
        ensures { Appends result self.old self.new (columns_listing p.now.names p.now.labels F.limit (lp_numbers F.value lp.now) most) }
    {
        if most == 0 {
            return Ok(());
        }
        let variables = variables_of(alloc, lp.columns.as_slice())?;
        let each = variables.as_slice();
        for variable in each {
            self.push_variable(alloc, p, lp, *variable, most)?;
        }
        Ok(())
    }
}
