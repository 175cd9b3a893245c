//! Which sets the statements of a program assign.
ghost use Rattle.std.specs.Prelude.{◌≡◌, map, false, replicate, length, IfOk, flat_map};
ghost use Rattle.gms_store.specs.State.{base_of};
ghost use Rattle.gms_scope.specs.DynamicSets.{assigned_names, dynamic_sets};
ghost use Rattle.gms_scope.specs.Facts.{with_marks};

use crate::marks::Marks;
use gms_ast::{Act, Program, Stmt};
use gms_store::Store;
use gq_field::ExactField;
use std::alloc::{AllocError, Global};

/// Marks on the names that some statement of a program assigns; in place of an alias, its set is
/// marked. A set that is marked is dynamic. The error is out of memory.
pub fn dynamic_sets<F: ExactField>(alloc: Global, program: &Program<F>) -> Result<Marks, AllocError>
    ensures { IfOk result (λ marks. marks ≡ with_marks (replicate (length program.now.names) false) (dynamic_sets program.now)) }
{
    let store = Store::new(alloc, program)?;
    let mut marks = Marks::new(alloc, program.names.len())?;
    mark_assigned(&program.statements, &store, &mut marks);
    Ok(marks)
}

/// Marks the names that some of these statements assign.
#[cycle(assigned)]
fn mark_assigned<F: ExactField>(statements: &[Stmt<F>], store: &Store<F>, marks: &mut Marks)
    ensures { marks.new ≡ with_marks marks.old (map (base_of store.now) (flat_map assigned_names statements.now)) }
{
    for statement in statements {
        mark_statement(statement, store, marks);
    }
}

/// Adds to `marks` the names that assignments in `statement` assign, also in the bodies of loops
/// (GAMS User's Guide, "Dynamic Sets"). In place of an alias in the state `store`, its set is
/// marked.
#[cycle(assigned)]
pub fn mark_statement<F: ExactField>(statement: &Stmt<F>, store: &Store<F>, marks: &mut Marks)
    ensures { marks.new ≡ with_marks marks.old (map (base_of store.now) (assigned_names statement.now)) }
{
    match &statement.act {
        Act::Assign { target, .. } => marks.set(store.base(target.name)),
        Act::Loop { body, .. } => mark_assigned(body, store, marks),
        _ => {}
    }
}
