//! The equations of a model, and their definitions.
ghost use Rattle.std.specs.Prelude.{◌≡◌, ℕ, List, ◌++◌, map, option_map, option_to_list, slice_index_or, None, IfOk, OnOk};
ghost use Rattle.gms_ast.specs.Trees.{no_index};
ghost use Rattle.gms_ast.specs.TreeView.{index_tree, indices_of};
ghost use Rattle.gms_rows.specs.Rows.{distinct_numbers, listed_equations, found, equations_declared_by, models_of, has_lag, Definition as Defined, defined_at, definition_of, definitions, equations_of};
ghost use Rattle.gms_rows.specs.InnerContracts.{AreNoted, found_in, noted_by};

use crate::names::{Names, reach};
use gms_ast::{Act, Decl, DeclKind, Expr, Index, ModelDecl, Program, Side, Stmt};
use gms_labels::Place;
use gq_field::ExactField;
use std::alloc::{AllocError, Global};

/// The definition of an equation.
#[derive(Drop)]
pub(crate) struct Definition<'s, F> {
    /// The equation.
    pub(crate) equation: u32,
    /// The place of its statement.
    pub(crate) at: Place,
    /// Its indices.
    pub(crate) indices: &'s [Index<F>],
    /// The condition, if any.
    pub(crate) condition: Option<&'s Expr<F>>,
    /// The place of the left side.
    pub(crate) left_at: Place,
    /// The left side.
    pub(crate) left: &'s Expr<F>,
    /// How the sides relate.
    pub(crate) side: Side,
    /// The place of the right side.
    pub(crate) right_at: Place,
    /// The right side.
    pub(crate) right: &'s Expr<F>,
}

/// Whether an index has a lag.
fn is_lagged<F: ExactField>(index: &Index<F>) -> bool
    ensures { result ≡ has_lag (index_tree index.now no_index) }
{
    match index {
        Index::Set { lag: Some(_), .. } => true,
        Index::Set { lag: None, .. } | Index::Label(_) => false,
    }
}

/// Whether one of these indices has a lag. None of a definition has.
fn has_lag<F: ExactField>(indices: &[Index<F>]) -> bool
    ensures { result ≡ has_lag (indices_of (map index_tree indices.now)) }
{
    for index in indices {
        if is_lagged(index) {
            return true;
        }
    }
    false
}

/// The definition of an equation that a statement is.
fn definition_at<F: ExactField>(statement: &Stmt<F>, name: u32) -> Option<Definition<'_, F>>
    ensures { definition_of (defined_at statement.now.at statement.now.act) name ≡ found_in result }
{
    match &statement.act {
        Act::Define {
            equation,
            indices,
            condition,
            left_at,
            left,
            side,
            right_at,
            right,
        } => {
            if equation.name != name || has_lag(indices.as_slice()) {
                return None;
            }
            Some(Definition {
                equation: equation.name,
                at: statement.at,
                indices: indices.as_slice(),
                condition: condition.as_ref(),
                left_at: *left_at,
                left,
                side: *side,
                right_at: *right_at,
                right,
            })
        }
        _ => None,
    }
}

/// The definition of a name by the statement noted for the name; `None` if the statement is none.
pub(crate) fn noted_definition<'s, F: ExactField>(
    noted: &[Option<&'s Stmt<F>>],
    name: u32,
) -> Option<Definition<'s, F>>
    ensures { noted_by (slice_index_or noted.now name None) name ≡ found_in result }
{
    match noted.get(name as usize) {
        Some(Some(statement)) => definition_at(*statement, name),
        _ => None,
    }
}

/// Notes a statement by the name that it defines, if it is the first that does.
fn note<'s, F: ExactField>(
    noted: &mut Vec<Option<&'s Stmt<F>>>,
    statement: &'s Stmt<F>,
) -> Result<(), AllocError>
    ensures { (before : List (Defined F)) → AreNoted noted.old.items before →
        OnOk result (AreNoted noted.new.items (before ++ defined_at statement.now.at statement.now.act)) }
{
    let Some(name) = defined_name(statement) else {
        return Ok(());
    };
    if noted_definition(noted.as_slice(), name).is_some() {
        return Ok(());
    }
    reach(noted, name, None)?;
    noted[name as usize] = Some(statement);
    Ok(())
}

/// The name that a statement defines, if it does.
fn defined_name<F: ExactField>(statement: &Stmt<F>) -> Option<u32>
    ensures { option_to_list result ≡ map (λ d. d.equation) (defined_at statement.now.at statement.now.act) }
{
    match &statement.act {
        Act::Define {
            equation,
            indices,
            ..
        } if !has_lag(indices.as_slice()) => Some(equation.name),
        _ => None,
    }
}

/// For each number of a name, the first statement of the program that defines the name, if any.
pub(crate) fn noted_statements<'s, F: ExactField>(
    alloc: Global,
    program: &'s Program<F>,
) -> Result<Vec<Option<&'s Stmt<F>>>, AllocError>
    ensures { IfOk result (λ noted. AreNoted noted.items (definitions program.now.statements.items)) }
{
    let mut noted = Vec::new(alloc);
    for statement in &program.statements {
        note(&mut noted, statement)?;
    }
    Ok(noted)
}

/// The equations of a model: those that are listed, without repetition, or all that were declared
/// before it.
fn listed(alloc: Global, model: &ModelDecl, declared: &[u32]) -> Result<Vec<u32>, AllocError>
    ensures { IfOk result (λ equations. equations.items ≡ listed_equations declared.now model.now) }
{
    if model.all {
        return Vec::from_slice(alloc, declared);
    }
    let mut names = Names::new(alloc);
    for equation in model.equations.as_slice() {
        names.push_once(equation.name)?;
    }
    Ok(names.into_vec())
}

/// The equations of the first of these models that has a name.
fn found(
    alloc: Global,
    models: &[ModelDecl],
    name: u32,
    declared: &[u32],
) -> Result<Option<Vec<u32>>, AllocError>
    ensures { IfOk result (λ equations. option_map (λ those. those.items) equations ≡ found declared.now name models.now) }
{
    for model in models {
        if model.named.name == name {
            return Ok(Some(listed(alloc, model, declared)?));
        }
    }
    Ok(None)
}

/// The equations of the model that an act declares under a name, if it does.
fn found_by<F: ExactField>(
    alloc: Global,
    act: &Act<F>,
    name: u32,
    declared: &[u32],
) -> Result<Option<Vec<u32>>, AllocError>
    ensures { IfOk result (λ equations. option_map (λ those. those.items) equations ≡ found declared.now name (models_of act.now)) }
{
    match act {
        Act::Model { models } => found(alloc, models.as_slice(), name, declared),
        _ => Ok(None),
    }
}

/// Adds the names that are declared, without repetition.
fn push_names<F: ExactField>(names: &mut Names, items: &[Decl<F>]) -> Result<(), AllocError>
    ensures { (before : List ℕ) → names.old ≡ distinct_numbers before →
        OnOk result (names.new ≡ distinct_numbers (before ++ map (λ item. item.named.name) items.now)) }
{
    for item in items {
        names.push_once(item.named.name)?;
    }
    Ok(())
}

/// Adds the equations that an act declares, without repetition.
fn push_declared<F: ExactField>(names: &mut Names, act: &Act<F>) -> Result<(), AllocError>
    ensures { (before : List ℕ) → names.old ≡ distinct_numbers before →
        OnOk result (names.new ≡ distinct_numbers (before ++ equations_declared_by act.now)) }
{
    match act {
        Act::Declare {
            kind: DeclKind::Equation,
            items,
        } => push_names(names, items.as_slice()),
        _ => Ok(()),
    }
}

/// The equations of a model, by their names' numbers. The first declaration of the model decides:
/// it lists them, in order, without repetition; or, with `/all/`, they are those that earlier
/// statements declare, in the order of their declarations. Empty if no statement declares the
/// model. The error is out of memory. GAMS User's Guide, "Model and Solve Statements".
pub fn equations_of<F: ExactField>(
    alloc: Global,
    program: &Program<F>,
    model: u32,
) -> Result<Vec<u32>, AllocError>
    ensures { IfOk result (λ equations. equations.items ≡ equations_of program.now.statements.items model) }
{
    let mut declared = Names::new(alloc);
    for statement in &program.statements {
        if let Some(equations) = found_by(alloc, &statement.act, model, declared.as_slice())? {
            return Ok(equations);
        }
        push_declared(&mut declared, &statement.act)?;
    }
    Ok(Vec::new(alloc))
}
